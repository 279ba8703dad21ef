//! Statements by their keywords.
ghost use Rattle.std.specs.Prelude.{◌≡◌, find};
ghost use Rattle.std.specs.Option.{option_copied};
ghost use Rattle.std.specs.List.{list_any};
ghost use Rattle.sal_module.specs.Statements as spec;

use crate::keyword::Keyword;
use sal_stmt::Stmt;

/// Whether the statement has this keyword.
pub fn is_named(keyword: Keyword, stmt: &Stmt) -> bool
    ensures { result ≡ spec.is_named keyword stmt.now }
{
    stmt.keyword.as_str() == keyword.word()
}

/// The argument of a statement, or the empty text if it has none.
pub fn argument_of(stmt: &Stmt) -> &str
    ensures { result.now ≡ spec.argument_of stmt.now }
{
    match &stmt.arg {
        Some(text) => text.as_str(),
        None => "",
    }
}

/// The first of these statements that has this keyword.
pub fn first_named<'s>(keyword: Keyword, subs: &'s [Stmt]) -> Option<&'s Stmt>
    ensures { option_copied result ≡ find (spec.is_named keyword) subs.now }
{
    let word = keyword.word();
    for sub in subs {
        if sub.keyword.as_str() == word {
            return Some(sub);
        }
    }
    None
}

/// Whether one of these statements has this keyword.
pub fn has_named(keyword: Keyword, subs: &[Stmt]) -> bool
    ensures { result ≡ list_any (spec.is_named keyword) subs.now }
{
    let word = keyword.word();
    subs.iter().any(|sub| sub.keyword.as_str() == word)
}

/// The argument of the first statement of this keyword in the block of a statement, or the empty text.
pub fn value_of<'s>(keyword: Keyword, stmt: &'s Stmt) -> &'s str
    ensures { result.now ≡ spec.value_of keyword stmt.now }
{
    match first_named(keyword, stmt.subs.items()) {
        Some(sub) => argument_of(sub),
        None => "",
    }
}
