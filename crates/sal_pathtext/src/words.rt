//! The tokens of a path text: names, blanks and texts in quotes.
ghost use Rattle.std.specs.Prelude.{◌≡◌, ◌+◌, ◌-◌, ◌<◌, ◌≤◌, length, take, drop, not, ◌==◌, option_map, string_bytes, IfOk};
ghost use Rattle.std.specs.List.{prefix_len};
ghost use Rattle.sal_schema.specs.Valid.{starts_identifier as starts, goes_on as goes};
ghost use Rattle.sal_pathtext.specs.Words as spec;
ghost use Rattle.sal_pathtext.specs.Read.{Gives};

use crate::fault::PathTextFault;
use sal_types::{front, tail};
use std::alloc::Global;

/// The first byte, or 0 at the end.
#[inline]
pub(crate) fn first(s: &str) -> u8
    ensures { result ≡ spec.first s.now }
{
    let bytes = s.as_bytes();
    if bytes.is_empty() { 0 } else { bytes[0] }
}

/// The byte offset of the remaining text.
pub(crate) fn place(whole: &str, s: &str) -> usize
    ensures { result ≡ spec.place whole.now s.now }
{
    whole.len().saturating_sub(s.len())
}

pub(crate) fn bad_text(whole: &str, s: &str) -> PathTextFault
    ensures { result ≡ PathTextFault.BadText (spec.place whole.now s.now) }
{
    PathTextFault::BadText {
        at: place(whole, s),
    }
}

fn is_blank(c: u8) -> bool
    ensures { result ≡ spec.is_blank c }
{
    c == b' ' || c == b'\t'
}

fn blank_len(bytes: &[u8]) -> usize
    ensures len { result ≡ prefix_len spec.is_blank bytes.now }
    ensures within { result ≤ length bytes.now }
{
    bytes.iter().take_while(|c| is_blank(**c)).count()
}

/// After the spaces and tabs at the front.
pub(crate) fn after_blanks(s: &str) -> &str
    ensures rest { result.now ≡ spec.after_blanks s.now }
    ensures within { length result.now ≤ length s.now }
{
    s.split_at(blank_len(s.as_bytes())).1
}

/// After this byte.
pub(crate) fn expected<'s>(whole: &str, c: u8, s: &'s str) -> Result<&'s str, PathTextFault>
    requires ascii { c < 128 }
    requires some { 0 < c }
    ensures value { Gives (λ r. r.now) result (spec.expected whole.now c s.now) }
    ensures shorter { IfOk result (λ r. length r.now < length s.now) }
{
    if first(s) != c {
        return Err(bad_text(whole, s));
    }
    Ok(tail(s, 1))
}

fn starts_identifier(c: u8) -> bool
    ensures { result ≡ starts c }
{
    c.is_ascii_alphabetic() || c == b'_'
}

fn goes_on(c: u8) -> bool
    ensures { result ≡ goes c }
{
    c.is_ascii_alphanumeric() || c == b'_' || c == b'-' || c == b'.'
}

fn word_len(bytes: &[u8]) -> usize
    ensures len { result ≡ spec.word_len bytes.now }
    ensures within { result ≤ length bytes.now }
{
    bytes.iter().take_while(|c| goes_on(**c)).count()
}

/// The longest run of bytes that an identifier can have after its first, and the rest of the text.
fn split_word(s: &str) -> (&str, &str)
    ensures word { result.0.now ≡ take (spec.word_len s.now) s.now }
    ensures rest { result.1.now ≡ drop (spec.word_len s.now) s.now }
    ensures within { length result.1.now ≤ length s.now }
{
    s.split_at(word_len(s.as_bytes()))
}

fn identifier<'s>(whole: &str, s: &'s str) -> Result<(&'s str, &'s str), PathTextFault>
    ensures value { Gives (λ p. (p.0.now, p.1.now)) result (spec.identifier whole.now s.now) }
    ensures within { IfOk result (λ p. length p.1.now ≤ length s.now) }
{
    if !starts_identifier(first(s)) {
        return Err(bad_text(whole, s));
    }
    Ok(split_word(s))
}

/// A name: its module, if the text has it, the identifier, and the rest of the text.
#[tactic(auto, unfolding(crate::specs::Words::name))]
pub(crate) fn name<'s>(
    whole: &str,
    s: &'s str,
) -> Result<(Option<&'s str>, &'s str, &'s str), PathTextFault>
    ensures value { Gives (λ p. ((option_map (λ m. m.now) p.0, p.1.now), p.2.now)) result (spec.name whole.now s.now) }
    ensures within { IfOk result (λ p. length p.2.now ≤ length s.now) }
{
    let (word, after) = identifier(whole, s)?;
    if first(after) != b':' {
        return Ok((None, word, after));
    }
    let (own, rest) = identifier(whole, tail(after, 1))?;
    Ok((Some(word), own, rest))
}

/// How many bytes are before the first one like this, or all of them.
pub(crate) fn place_of(byte: u8, bytes: &[u8]) -> usize
    ensures value { result ≡ prefix_len (λ c. not (c == byte)) bytes.now }
    ensures within { result ≤ length bytes.now }
{
    bytes.iter().take_while(|c| **c != byte).count()
}

/// The text before the closing single quote; two such quotes denote one.
fn single<'s>(alloc: Global, whole: &str, s: &'s str) -> Result<(String, &'s str), PathTextFault>
    ensures value { Gives (λ p. (string_bytes p.0, p.1.now)) result (spec.single whole.now s.now) }
    ensures within { IfOk result (λ p. length p.1.now ≤ length s.now) }
{
    let mut out = String::new(alloc);
    let mut rest = s;
    'pieces: loop {
        let at = place_of(b'\'', rest.as_bytes());
        if at >= rest.len() {
            return Err(bad_text(whole, ""));
        }
        out.push_str(front(rest, at))?;
        let after = tail(rest, at + 1);
        if first(after) != b'\'' {
            return Ok((out, after));
        }
        out.push('\'')?;
        rest = tail(after, 1);
    }
}

/// The text before the closing double quote.
fn double<'s>(alloc: Global, whole: &str, s: &'s str) -> Result<(String, &'s str), PathTextFault>
    ensures value { Gives (λ p. (string_bytes p.0, p.1.now)) result (spec.double whole.now s.now) }
    ensures within { IfOk result (λ p. length p.1.now ≤ length s.now) }
{
    let at = place_of(b'"', s.as_bytes());
    if at >= s.len() {
        return Err(bad_text(whole, ""));
    }
    let text = String::from_str(alloc, front(s, at))?;
    Ok((text, tail(s, at + 1)))
}

/// A text in quotes.
fn quoted<'s>(alloc: Global, whole: &str, s: &'s str) -> Result<(String, &'s str), PathTextFault>
    ensures value { Gives (λ p. (string_bytes p.0, p.1.now)) result (spec.quoted whole.now s.now) }
    ensures within { IfOk result (λ p. length p.1.now ≤ length s.now) }
{
    let quote = first(s);
    if quote == b'\'' {
        return single(alloc, whole, tail(s, 1));
    }
    if quote == b'"' {
        return double(alloc, whole, tail(s, 1));
    }
    Err(bad_text(whole, s))
}

/// The value of a predicate's key: `=` and a text in quotes, with blanks around the `=`.
#[tactic(auto, unfolding(crate::specs::Words::said))]
pub(crate) fn said<'s>(
    alloc: Global,
    whole: &str,
    s: &'s str,
) -> Result<(String, &'s str), PathTextFault>
    ensures value { Gives (λ p. (string_bytes p.0, p.1.now)) result (spec.said whole.now s.now) }
    ensures within { IfOk result (λ p. length p.1.now ≤ length s.now) }
{
    let value = expected(whole, b'=', after_blanks(s))?;
    quoted(alloc, whole, after_blanks(value))
}

/// The end of a predicate.
pub(crate) fn closed<'s>(whole: &str, s: &'s str) -> Result<&'s str, PathTextFault>
    ensures value { Gives (λ r. r.now) result (spec.closed whole.now s.now) }
    ensures shorter { IfOk result (λ r. length r.now < length s.now) }
{
    expected(whole, b']', after_blanks(s))
}
