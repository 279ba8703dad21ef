//! The faults of one type statement (RFC 7950 section 9).
ghost use Rattle.std.specs.Prelude.{◌≡◌, ◌-◌, min, IfOk, Some};
ghost use Rattle.std.specs.List.{flat_map};
ghost use Rattle.sal_restrict.specs.declared.yang_type.YangType.TheViews.{out-YangType};
ghost use Rattle.sal_stmt.specs.declared.stmt.Stmt.TheViews.{out-Stmt};
ghost use Rattle.sal_module.specs.Arguments.{decimal};
ghost use Rattle.sal_module.specs.Faults.{least};
ghost use Rattle.sal_module.specs.Statements.{subs_of};
ghost use Rattle.sal_typedefs.specs.Restrictions as spec;
ghost use Rattle.sal_typedefs.specs.Restrictions.{HasNumbers, unlisted};

use crate::pattern::{Look, is_refused};
use crate::restriction::{is_bad, needed};
use sal_module::{Cause, Found, Keyword, argument_of, better, has_named, is_named, is_whole};
use sal_restrict::YangType;
use sal_stmt::Stmt;
use sal_types::NoMemory;
use std::alloc::Global;

pub(crate) fn at(cause: Cause, number: u32, stmt: &Stmt) -> Found
    ensures { result ≡ record { cause = cause; «module» = number; at = (out-Stmt stmt.now).at } }
{
    Found {
        cause,
        module: number,
        at: stmt.at,
    }
}

/// The value of these digits, or 255 if it is greater.
pub(crate) fn small_number(text: &[u8]) -> u8
    ensures { result ≡ min (decimal text.now) 255 }
{
    let mut number: u8 = 0;
    for digit in text {
        number = number
            .saturating_mul(10)
            .saturating_add(digit.saturating_sub(b'0'));
    }
    number
}

/// Whether a text is a number of fraction digits: 1 to 18.
pub(crate) fn are_fraction_digits(text: &[u8]) -> bool
    ensures { result ≡ spec.are_fraction_digits text.now }
{
    is_whole(text) && small_number(text) > 0 && small_number(text) <= 18
}

fn with_digits(best: Option<Found>, number: u32, sub: &Stmt) -> Option<Found>
    ensures { result ≡ least best (spec.digit_fault number sub.now) }
{
    if !is_named(Keyword::FractionDigits, sub) || are_fraction_digits(argument_of(sub).as_bytes()) {
        return best;
    }
    better(best, at(Cause::BadRestriction, number, sub))
}

/// The first of this fault and those of fraction digits.
pub(crate) fn with_all_digits(best: Option<Found>, number: u32, stmt: &Stmt) -> Option<Found>
    ensures { result ≡ least best (spec.digit_faults number stmt.now) }
{
    let mut best = best;
    for sub in stmt.subs.items() {
        best = with_digits(best, number, sub);
    }
    best
}

fn with_pattern(
    best: Option<Found>,
    alloc: Global,
    look: Look,
    number: u32,
    sub: &Stmt,
) -> Result<Option<Found>, NoMemory>
    ensures { IfOk result (λ it. it ≡ least best (spec.pattern_fault number sub.now)) }
{
    if !is_named(Keyword::Pattern, sub) || !is_refused(alloc, look, argument_of(sub))? {
        return Ok(best);
    }
    Ok(better(best, at(Cause::BadPattern, number, sub)))
}

/// The first of this fault and those of patterns.
pub(crate) fn with_patterns(
    best: Option<Found>,
    alloc: Global,
    look: Look,
    number: u32,
    stmt: &Stmt,
) -> Result<Option<Found>, NoMemory>
    ensures { IfOk result (λ it. it ≡ least best (spec.pattern_faults number stmt.now)) }
{
    let mut best = best;
    for sub in stmt.subs.items() {
        best = with_pattern(best, alloc, look, number, sub)?;
    }
    Ok(best)
}

/// The first of this fault and that of a built-in type whose statement lacks a required substatement.
pub(crate) fn with_absent(
    best: Option<Found>,
    ty: &YangType,
    itself: bool,
    number: u32,
    stmt: &Stmt,
) -> Option<Found>
    ensures { result ≡ least best (spec.absent_faults (unlisted ty.now itself) number stmt.now) }
{
    match needed(ty) {
        Some(keyword) if itself && !has_named(keyword, stmt.subs.items()) => {
            better(best, at(Cause::BadRestriction, number, stmt))
        }
        _ => best,
    }
}

fn with_sub(
    best: Option<Found>,
    alloc: Global,
    ty: &YangType,
    itself: bool,
    number: u32,
    sub: &Stmt,
) -> Result<Option<Found>, NoMemory>
    requires { HasNumbers (out-YangType ty.now) }
    ensures { IfOk result (λ it. it ≡ least best (spec.sub_faults (unlisted ty.now itself) (out-YangType ty.now) number sub.now)) }
{
    if !is_bad(alloc, ty, itself, sub)? {
        return Ok(best);
    }
    Ok(better(best, at(Cause::BadRestriction, number, sub)))
}

/// The first of this fault and those of the restrictions, except enums and bits.
pub(crate) fn with_subs(
    best: Option<Found>,
    alloc: Global,
    ty: &YangType,
    itself: bool,
    number: u32,
    stmt: &Stmt,
) -> Result<Option<Found>, NoMemory>
    requires { HasNumbers (out-YangType ty.now) }
    ensures { IfOk result (λ it. it ≡ least best (flat_map (spec.sub_faults (unlisted ty.now itself) (out-YangType ty.now) number) (subs_of stmt.now))) }
{
    let mut best = best;
    for sub in stmt.subs.items() {
        best = with_sub(best, alloc, ty, itself, number, sub)?;
    }
    Ok(best)
}
