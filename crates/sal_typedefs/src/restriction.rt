//! Which restrictions a type may have (RFC 7950 section 9).
ghost use Rattle.std.specs.Prelude.{◌≡◌, ◌<◌, ◌≤◌, length, option_map, IfOk, IfSome};
ghost use Rattle.sal_restrict.specs.declared.yang_type.YangType.TheViews.{out-YangType};
ghost use Rattle.sal_typedefs.specs.Restrictions as spec;
ghost use Rattle.sal_typedefs.specs.Restrictions.{HasNumbers, unlisted};

use sal_module::{Keyword, argument_of, is_named};
use sal_restrict::{RangeFault, Ranges, YangType, read_ranges};
use sal_stmt::Stmt;
use sal_types::NoMemory;
use std::alloc::Global;

/// The numbers that a range restricts, and their fraction digits.
fn numbers(ty: &YangType) -> Option<(&Ranges, u8)>
    ensures value { option_map spec.seen result ≡ spec.numbers (out-YangType ty.now) }
    ensures some { HasNumbers (out-YangType ty.now) → IfSome result (λ n. (0 < length n.0.now) × (n.1 ≤ 18)) }
{
    match ty {
        YangType::Int { range, .. } => Some((range, 0)),
        YangType::Dec { digits, range } => Some((range, *digits)),
        _ => None,
    }
}

/// The numbers that a length restricts.
fn lengths(ty: &YangType) -> Option<(&Ranges, u8)>
    ensures value { option_map spec.seen result ≡ spec.lengths (out-YangType ty.now) }
    ensures some { HasNumbers (out-YangType ty.now) → IfSome result (λ n. (0 < length n.0.now) × (n.1 ≤ 18)) }
{
    match ty {
        YangType::Text { length, .. } => Some((length, 0)),
        YangType::Bin { length } => Some((length, 0)),
        _ => None,
    }
}

fn is_text(ty: &YangType) -> bool
    ensures { result ≡ spec.is_text (out-YangType ty.now) }
{
    matches!(ty, YangType::Text { .. })
}

pub(crate) fn is_enumeration(ty: &YangType) -> bool
    ensures { result ≡ spec.is_enumeration (out-YangType ty.now) }
{
    matches!(ty, YangType::Enum { .. })
}

pub(crate) fn is_bits(ty: &YangType) -> bool
    ensures { result ≡ spec.is_bits (out-YangType ty.now) }
{
    matches!(ty, YangType::Bits { .. })
}

fn is_leafref(ty: &YangType) -> bool
    ensures { result ≡ spec.is_leafref (out-YangType ty.now) }
{
    matches!(ty, YangType::Leafref { .. })
}

/// The substatement that the statement of a built-in type requires, and no other may have.
pub(crate) fn needed(ty: &YangType) -> Option<Keyword>
    ensures { result ≡ spec.needed (out-YangType ty.now) }
{
    match ty {
        YangType::Dec { .. } => Some(Keyword::FractionDigits),
        YangType::Enum { .. } => Some(Keyword::Enum),
        YangType::Bits { .. } => Some(Keyword::Bit),
        YangType::Ident { .. } => Some(Keyword::Base),
        YangType::Union { .. } => Some(Keyword::Type),
        YangType::Leafref { .. } => Some(Keyword::Path),
        _ => None,
    }
}

/// Whether the statement of the type requires this substatement, and no other may have it.
fn is_needed(ty: &YangType, itself: bool, keyword: Keyword) -> bool
    ensures { result ≡ spec.is_needed (unlisted ty.now itself) keyword }
{
    match needed(ty) {
        Some(one) => itself && keyword == one,
        None => false,
    }
}

fn is_measure_of_another(ty: &YangType, stmt: &Stmt) -> bool
    ensures { result ≡ spec.is_measure_of_another (out-YangType ty.now) stmt.now }
{
    (is_named(Keyword::Range, stmt) && numbers(ty).is_none())
        || (is_named(Keyword::Length, stmt) && lengths(ty).is_none())
        || (is_named(Keyword::Pattern, stmt) && !is_text(ty))
}

fn is_item_of_another(ty: &YangType, stmt: &Stmt) -> bool
    ensures { result ≡ spec.is_item_of_another (out-YangType ty.now) stmt.now }
{
    (is_named(Keyword::Enum, stmt) && !is_enumeration(ty))
        || (is_named(Keyword::Bit, stmt) && !is_bits(ty))
        || (is_named(Keyword::RequireInstance, stmt) && !is_leafref(ty))
}

fn is_out_of_place(ty: &YangType, itself: bool, stmt: &Stmt) -> bool
    ensures { result ≡ spec.is_out_of_place (unlisted ty.now itself) stmt.now }
{
    (is_named(Keyword::FractionDigits, stmt) && !is_needed(ty, itself, Keyword::FractionDigits))
        || (is_named(Keyword::Base, stmt) && !is_needed(ty, itself, Keyword::Base))
        || (is_named(Keyword::Path, stmt) && !is_needed(ty, itself, Keyword::Path))
        || (is_named(Keyword::Type, stmt) && !is_needed(ty, itself, Keyword::Type))
}

/// Whether the type may not have the restriction.
fn is_misplaced(ty: &YangType, itself: bool, stmt: &Stmt) -> bool
    ensures { result ≡ spec.is_misplaced (unlisted ty.now itself) stmt.now }
{
    is_measure_of_another(ty, stmt)
        || is_item_of_another(ty, stmt)
        || is_out_of_place(ty, itself, stmt)
}

/// Whether the text is not a range within these numbers.
fn is_wider(alloc: Global, within: Option<(&Ranges, u8)>, stmt: &Stmt) -> Result<bool, NoMemory>
    requires { IfSome within (λ n. (0 < length n.0.now) × (n.1 ≤ 18)) }
    ensures { IfOk result (λ wider. wider ≡ spec.is_wider (option_map spec.seen within.entry) stmt.now) }
{
    match within {
        None => Ok(false),
        Some((ranges, digits)) => match read_ranges(alloc, argument_of(stmt), ranges, digits) {
            Ok(_) => Ok(false),
            Err(RangeFault::NoMemory) => Err(NoMemory),
            Err(_) => Ok(true),
        },
    }
}

/// Whether a substatement is a fault for the type that it restricts, except enums and bits.
pub(crate) fn is_bad(
    alloc: Global,
    ty: &YangType,
    itself: bool,
    stmt: &Stmt,
) -> Result<bool, NoMemory>
    requires { HasNumbers (out-YangType ty.now) }
    ensures { IfOk result (λ bad. bad ≡ spec.is_bad (unlisted ty.now itself) (out-YangType ty.now) stmt.now) }
{
    if is_misplaced(ty, itself, stmt) {
        return Ok(true);
    }
    if is_named(Keyword::Range, stmt) && is_wider(alloc, numbers(ty), stmt)? {
        return Ok(true);
    }
    if is_named(Keyword::Length, stmt) {
        return is_wider(alloc, lengths(ty), stmt);
    }
    Ok(false)
}
