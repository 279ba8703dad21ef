//! Statements, one after another.
ghost use Rattle.std.specs.Prelude.{◌≡◌, ◌^◌, ◌<◌, ◌≤◌, List, length, string_bytes, option_map, IsTrue, IfOk};
ghost use Rattle.sal_stmt.specs.Words as words;
ghost use Rattle.sal_types.specs.Reading as reading;
ghost use Rattle.sal_stmt.specs.Text as spec;
ghost use Rattle.sal_stmt.specs.Text.{Gives, Head};

use crate::bytes::{byte_at, is_keyword, split_word};
use crate::fault::StmtFault;
use crate::source::Source;
use crate::stmt::Stmt;
use sal_types::{Seq, Str, tail};
use std::alloc::Global;

/// The largest number of open blocks.
const MAX_BLOCKS: u32 = 64;

#[inline]
fn first(s: &str) -> u8
    ensures { result ≡ words.first s.now }
{
    byte_at(s.as_bytes(), 0)
}

fn is_quote(s: &str) -> bool
    ensures { result ≡ spec.is_quote s.now }
{
    first(s) == b'\'' || first(s) == b'"'
}

fn is_end(s: &str) -> bool
    ensures { result ≡ spec.is_end s.now }
{
    first(s) == b';' || first(s) == b'{'
}

impl<'a> Source<'a> {
    /// After a string: the strings that `+` joins to it, appended to the text so far.
    fn joined<'s>(
        &self,
        statement: u32,
        front: String,
        s: &'s str,
    ) -> Result<(String, &'s str), StmtFault>
        ensures value { Gives (λ p. (string_bytes p.0, p.1.now)) result
            (reading.with_front (string_bytes front) (spec.joined self.now.text.now statement (spec.turns s.now) s.now)) }
        ensures within { IfOk result (λ p. length p.1.now ≤ length s.now) }
    {
        let mut out = front;
        let mut rest = s;
        'parts: loop {
            let here = self.within(statement, rest)?;
            if first(here) != b'+' {
                return Ok((out, here));
            }
            let next = self.within(statement, tail(here, 1))?;
            if !is_quote(next) {
                return Err(self.bad_token(next));
            }
            let (part, after) = self.quoted(next)?;
            out.push_str(part.as_str())?;
            rest = after;
        }
    }

    /// An argument, and the separators after it.
    #[tactic(auto, unfolding(crate::specs::Text::argument))]
    fn argument<'s>(&self, statement: u32, s: &'s str) -> Result<(String, &'s str), StmtFault>
        ensures value { Gives (λ p. (string_bytes p.0, p.1.now)) result (spec.argument self.now.text.now statement s.now) }
        ensures within { IfOk result (λ p. length p.1.now ≤ length s.now) }
    {
        if is_quote(s) {
            let (part, after) = self.quoted(s)?;
            return self.joined(statement, part, after);
        }
        let (word, after) = split_word(s);
        if word.is_empty() {
            return Err(self.bad_token(s));
        }
        let here = self.within(statement, after)?;
        Ok((String::from_str(self.alloc, word)?, here))
    }

    /// A keyword and its argument, up to the `;` or `{`.
    #[tactic(auto, unfolding(crate::specs::Text::header))]
    fn header<'s>(&self, s: &'s str) -> Result<(String, Option<String>, &'s str), StmtFault>
        ensures value { Gives (λ p. ((string_bytes p.0, option_map string_bytes p.1), p.2.now)) result (spec.header self.now.text.now s.now) }
        ensures within { IfOk result (λ p. length p.2.now ≤ length s.now) }
        ensures end { IfOk result (λ p. IsTrue (spec.is_end p.2.now)) }
    {
        let (word, after) = split_word(s);
        if !is_keyword(word.as_bytes()) {
            return Err(self.bad_token(s));
        }
        let statement = self.place(s.len());
        let here = self.within(statement, after)?;
        if is_end(here) {
            return Ok((String::from_str(self.alloc, word)?, None, here));
        }
        let (text, rest) = self.argument(statement, here)?;
        if !is_end(rest) {
            return Err(self.bad_token(rest));
        }
        Ok((String::from_str(self.alloc, word)?, Some(text), rest))
    }

    /// The statements of the block that was opened at this offset, and its `}`.
    #[cycle(statements)]
    fn block<'s>(
        &self,
        levels: u32,
        start: u32,
        s: &'s str,
    ) -> Result<(Vec<Stmt>, &'s str), StmtFault>
        ensures value { Gives (λ p. (p.0.items, p.1.now)) result
            (spec.statements self.now.text.now (spec.statement self.now.text.now levels) start (spec.turns s.now) s.now) }
        ensures within { IfOk result (λ p. length p.1.now ≤ length s.now) }
    {
        let mut subs = Vec::with_capacity(self.alloc, 1)?;
        let mut rest = s;
        'statements: loop {
            let here = self.skip(rest)?;
            if here.is_empty() {
                return Err(StmtFault::Unclosed { at: start });
            }
            if first(here) == b'}' {
                return Ok((subs, tail(here, 1)));
            }
            match self.statement(levels, here) {
                Ok((sub, after)) => {
                    subs.push(sub)?;
                    rest = after;
                }
                Err(fault) => return Err(fault),
            }
        }
    }

    /// A statement, with at most this many nested blocks.
    #[cycle(statements)]
    fn statement<'s>(&self, levels: u32, s: &'s str) -> Result<(Stmt, &'s str), StmtFault>
        ensures value { Gives (λ p. (p.0, p.1.now)) result (spec.statement self.now.text.now levels s.now) }
        ensures shorter { IfOk result (λ p. length p.1.now < length s.now) }
    {
        let (keyword, text, rest) = self.header(s)?;
        let at = self.place(s.len());
        if first(rest) == b';' {
            let stmt = made(at, keyword, text, Vec::new(self.alloc));
            return Ok((stmt, tail(rest, 1)));
        }
        let start = self.place(rest.len());
        if levels == 0 {
            return Err(StmtFault::TooDeep { at: start });
        }
        match self.block(levels - 1, start, tail(rest, 1)) {
            Ok((subs, after)) => Ok((made(at, keyword, text, subs), after)),
            Err(fault) => Err(fault),
        }
    }
}

fn argument_of(text: Option<String>) -> Option<Str>
    ensures { result ≡ option_map string_bytes text }
{
    match text {
        Some(text) => Some(Str::from_string(text)),
        None => None,
    }
}

fn made(at: u32, keyword: String, text: Option<String>, subs: Vec<Stmt>) -> Stmt
    ensures { result ≡ spec.made at (string_bytes keyword, option_map string_bytes text) subs.items }
{
    Stmt {
        keyword: Str::from_string(keyword),
        arg: argument_of(text),
        at,
        subs: Seq::from_items(subs),
    }
}

fn starts_token(s: &str) -> bool
    ensures { result ≡ spec.starts_token s.now }
{
    let c = first(s);
    c == b';' || c == b'{' || c == b'}' || c == b'\'' || c == b'"' || !split_word(s).0.is_empty()
}

/// The one statement of a text, with separators before and after it. The error is the first fault in the text, or the fault
/// that the early end of the text makes (`StmtFault`); `NoMemory` is returned only if memory ran out. RFC 7950 section 6.
#[tactic(auto, unfolding(crate::specs::Text::read))]
pub fn read_module(alloc: Global, text: &str) -> Result<Stmt, StmtFault>
    requires { length text.now < 2 ^ 32 }
    ensures { Gives (λ stmt. stmt) result (spec.read text.now) }
{
    let source = Source::new(alloc, text);
    let here = source.skip(text)?;
    if here.is_empty() {
        return Err(StmtFault::BadToken { at: 0 });
    }
    match source.statement(MAX_BLOCKS, here) {
        Ok((stmt, after)) => {
            let rest = source.skip(after)?;
            if rest.is_empty() {
                Ok(stmt)
            } else if starts_token(rest) {
                Err(StmtFault::TextAfter {
                    at: source.place(rest.len()),
                })
            } else {
                Err(source.bad_token(rest))
            }
        }
        Err(fault) => Err(fault),
    }
}
