//! The rules of the profile: the substatements of each statement, how often they may occur, and their arguments.
ghost use Rattle.std.specs.Prelude.{◌≡◌, ◌≤◌, ◌^◌, ◌<◌, ◌∷◌, [], map, filter, length};
ghost use Rattle.std.specs.List.{flat_map, list_any};
ghost use Rattle.sal_stmt.specs.declared.stmt.Stmt.{out-Stmt};
ghost use Rattle.sal_module.specs.Arguments as argument;
ghost use Rattle.sal_module.specs.Faults.{least};
ghost use Rattle.sal_module.specs.Keywords as keywords;
ghost use Rattle.sal_module.specs.Statements as statements;
ghost use Rattle.sal_module.specs.Table as table;
ghost use Rattle.sal_module.specs.Profile as spec;

use crate::argument::{Form, has_form};
use crate::fault::{Cause, Found, better};
use crate::keyword::{Keyword, keyword_of};
use crate::left_out::{is_left_out, with_bits};
use crate::statement::{argument_of, is_named};
use crate::table::{Entry, LEFT_OUT, Often, Rule, rule_of};
use sal_stmt::Stmt;

/// How often the statements of one keyword occur.
#[derive(Clone, Copy, PartialEq, Eq)]
pub enum Standing {
    Nowhere,
    Once,
    /// The offset of the second.
    Again(u32),
}

fn standing_of(keyword: Keyword, subs: &[Stmt]) -> Standing
    ensures { result ≡ spec.standing_of (filter (statements.is_named keyword) subs.now) }
{
    let word = keyword.word();
    let mut seen = false;
    for sub in subs {
        if sub.keyword.as_str() == word {
            if seen {
                return Standing::Again(sub.at);
            }
            seen = true;
        }
    }
    if seen {
        Standing::Once
    } else {
        Standing::Nowhere
    }
}

/// The first of this fault and one of this kind, at this offset of a module.
pub(crate) fn with_fault(best: Option<Found>, cause: Cause, number: u32, at: u32) -> Option<Found>
    ensures { result ≡ least best (spec.at_place cause number at) }
{
    better(
        best,
        Found {
            cause,
            module: number,
            at,
        },
    )
}

fn with_often(
    best: Option<Found>,
    number: u32,
    at: u32,
    entry: &Entry,
    standing: Standing,
) -> Option<Found>
    ensures { result ≡ least best (spec.often_faults number at entry.now.0 entry.now.1 standing) }
{
    match standing {
        Standing::Nowhere => match entry.1 {
            Often::One => with_fault(best, Cause::Missing(entry.0), number, at),
            Often::Optional | Often::Any => best,
        },
        Standing::Once => best,
        Standing::Again(second) => match entry.1 {
            Often::One | Often::Optional => {
                with_fault(best, Cause::Twice(entry.0), number, second)
            }
            Often::Any => best,
        },
    }
}

/// Substatements that may occur any number of times need no search.
fn with_entry(best: Option<Found>, number: u32, stmt: &Stmt, entry: &Entry) -> Option<Found>
    ensures { result ≡ least best (spec.entry_faults number stmt.now entry.now) }
{
    if matches!(entry.1, Often::Any) {
        return best;
    }
    let standing = standing_of(entry.0, stmt.subs.items());
    with_often(best, number, stmt.at, entry, standing)
}

fn with_part(best: Option<Found>, number: u32, stmt: &Stmt, part: &[Entry]) -> Option<Found>
    ensures { result ≡ least best (flat_map (spec.entry_faults number stmt.now) part.now) }
{
    let mut best = best;
    for entry in part {
        best = with_entry(best, number, stmt, entry);
    }
    best
}

fn with_entries(best: Option<Found>, number: u32, stmt: &Stmt, rule: &Rule) -> Option<Found>
    ensures { result ≡ least best (flat_map (spec.entry_faults number stmt.now) (table.rule_view rule.now).entries) }
{
    let mut best = best;
    for part in rule.1 {
        best = with_part(best, number, stmt, part);
    }
    best
}

fn is_prefixed(text: &[u8]) -> bool
    ensures { result ≡ spec.is_prefixed text.now }
{
    text.iter().any(|c| *c == b':')
}

fn has_entry(part: &[Entry], keyword: Keyword) -> bool
    ensures { result ≡ list_any (λ (e : table.Entry). keywords.same_keyword e.0 keyword) part.now }
{
    part.iter().any(|e| e.0 == keyword)
}

fn has_part(parts: &[&[Entry]], keyword: Keyword) -> bool
    ensures { result ≡ list_any (λ part. list_any (λ (e : table.Entry). keywords.same_keyword e.0 keyword) part.now) parts.now }
{
    parts.iter().any(|part| has_entry(part, keyword))
}

/// Whether the rule allows the keyword.
fn allows(rule: &Rule, text: &str) -> bool
    ensures { result ≡ spec.allows (table.rule_view rule.now) text.now }
{
    match keyword_of(text) {
        Some(keyword) => has_part(rule.1, keyword),
        None => false,
    }
}

fn is_among(words: &[&str], text: &str) -> bool
    ensures { result ≡ list_any (λ word. keywords.same word.now text.now) words.now }
{
    words.iter().any(|word| *word == text)
}

fn is_left_out_word(text: &str) -> bool
    ensures { result ≡ spec.is_left_out_word text.now }
{
    is_among(&LEFT_OUT, text)
}

/// The kind of fault for a keyword that its parent does not allow.
fn cause_outside(parent: &Stmt, text: &str) -> Cause
    ensures { result ≡ spec.cause_outside parent.now text.now }
{
    if is_left_out_word(text)
        || text == "notification"
        || (is_named(Keyword::Uses, parent) && text == "augment")
    {
        Cause::LeftOut
    } else {
        Cause::UnknownStatement
    }
}

fn with_sub(
    best: Option<Found>,
    number: u32,
    parent: &Stmt,
    rule: &Rule,
    sub: &Stmt,
) -> Option<Found>
    ensures { result ≡ least best (spec.sub_faults number parent.now (table.rule_view rule.now) sub.now) }
{
    let keyword = sub.keyword.as_str();
    if is_prefixed(sub.keyword.items()) || allows(rule, keyword) {
        return best;
    }
    with_fault(best, cause_outside(parent, keyword), number, sub.at)
}

fn with_subs(best: Option<Found>, number: u32, parent: &Stmt, rule: &Rule) -> Option<Found>
    ensures { result ≡ least best (flat_map (spec.sub_faults number parent.now (table.rule_view rule.now)) (statements.subs_of parent.now)) }
{
    let mut best = best;
    for sub in parent.subs.items() {
        best = with_sub(best, number, parent, rule, sub);
    }
    best
}

fn is_bad_argument(form: Form, stmt: &Stmt) -> bool
    ensures { result ≡ argument.is_bad_argument form (out-Stmt stmt.now).arg }
{
    match &stmt.arg {
        Some(text) => !has_form(form, text.as_str()),
        None => !matches!(form, Form::Absent),
    }
}

fn with_argument(best: Option<Found>, number: u32, stmt: &Stmt, rule: &Rule) -> Option<Found>
    ensures { result ≡ least best (spec.argument_faults number stmt.now (table.rule_view rule.now)) }
{
    if is_bad_argument(rule.0, stmt) {
        with_fault(best, Cause::BadArgument, number, stmt.at)
    } else {
        best
    }
}

fn with_left_out(best: Option<Found>, number: u32, stmt: &Stmt) -> Option<Found>
    ensures { result ≡ least best (spec.left_out_faults number stmt.now) }
{
    if is_left_out(stmt) {
        with_fault(best, Cause::LeftOut, number, stmt.at)
    } else {
        best
    }
}

fn with_type(best: Option<Found>, number: u32, stmt: &Stmt) -> Option<Found>
    ensures { result ≡ least best (spec.type_faults number stmt.now) }
{
    if is_named(Keyword::Type, stmt) && argument_of(stmt) == "bits" {
        with_bits(best, number, stmt.subs.items())
    } else {
        best
    }
}

fn with_block(best: Option<Found>, number: u32, stmt: &Stmt, rule: &Rule) -> Option<Found>
    ensures { result ≡ least best (spec.block_faults number stmt.now (table.rule_view rule.now)) }
{
    let best = with_entries(best, number, stmt, rule);
    let best = with_subs(best, number, stmt, rule);
    with_type(best, number, stmt)
}

/// The first of this fault and those at a statement, which has this rule.
#[tactic(auto, unfolding(crate::specs::Profile::level_faults))]
fn with_level(best: Option<Found>, number: u32, stmt: &Stmt, rule: &Rule) -> Option<Found>
    requires { table.rule_view rule.now ≡ table.rule_of (out-Stmt stmt.now).keyword }
    ensures { result ≡ least best (spec.level_faults number stmt.now) }
{
    let best = with_argument(best, number, stmt, rule);
    let best = with_left_out(best, number, stmt);
    if is_named(Keyword::Extension, stmt) {
        return best;
    }
    with_block(best, number, stmt, rule)
}

/// Whether substatements of `sub`, a substatement of a statement with this rule, are checked too.
fn is_judged(parent: &Stmt, rule: &Rule, sub: &Stmt) -> bool
    requires { table.rule_view rule.now ≡ table.rule_of (out-Stmt parent.now).keyword }
    ensures { result ≡ spec.is_judged parent.now sub.now }
{
    !is_prefixed(sub.keyword.items())
        && allows(rule, sub.keyword.as_str())
        && !is_named(Keyword::Extension, parent)
}

/// The first of this fault and those at a statement and in `levels` levels below it.
fn with_tree(best: Option<Found>, number: u32, levels: u32, stmt: &Stmt) -> Option<Found>
    ensures { result ≡ least best (spec.tree_faults number levels stmt.now) }
{
    let rule = rule_of(stmt.keyword.as_str());
    let mut best = with_level(best, number, stmt, &rule);
    if levels == 0 {
        return best;
    }
    for sub in stmt.subs.items() {
        if is_judged(stmt, &rule, sub) {
            best = with_tree(best, number, levels - 1, sub);
        }
    }
    best
}

/// The first of this fault and those of a module.
#[tactic(auto, unfolding(crate::specs::Profile::module_faults))]
fn with_module(best: Option<Found>, number: u32, stmt: &Stmt) -> Option<Found>
    ensures { result ≡ least best (spec.module_faults number stmt.now) }
{
    if is_named(Keyword::Module, stmt) {
        return with_tree(best, number, 64, stmt);
    }
    let cause = if is_left_out_word(stmt.keyword.as_str()) {
        Cause::LeftOut
    } else {
        Cause::UnknownStatement
    };
    with_fault(best, cause, number, stmt.at)
}

/// The first fault within the profile.
pub(crate) fn profile_fault(stmts: &[Stmt]) -> Option<Found>
    requires { length stmts.now < 2 ^ 32 }
    ensures { result ≡ least None (spec.profile_faults stmts.now) }
{
    let mut best = None;
    for (i, stmt) in stmts.iter().enumerate() {
        best = with_module(best, i as u32, stmt);
    }
    best
}
