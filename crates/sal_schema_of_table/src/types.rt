//! Whether the types of a table are those of a schema (RFC 7950 section 9).
ghost use Rattle.std.specs.Prelude.{◌≡◌, IfOk, IsTrue, nat_lt};
ghost use Rattle.std.specs.List.{list_all};
ghost use Rattle.sal_schema.specs.Valid as spec;
ghost use Rattle.sal_schema_of_table.specs.Whole.{bounds, are_good_bits, is_good_member, are_good_members};

use crate::distinct::{numbers_differ, positions_differ, texts_differ};
use crate::identity::are_below;
use crate::words::are_identifiers;
use sal_restrict::{Part, Ranges, YangType};
use sal_schema::SchemaTable;
use sal_types::{NoMemory, Str};
use std::alloc::Global;

fn is_width(bits: u8) -> bool
    ensures { result ≡ spec.is_width bits }
{
    bits == 8 || bits == 16 || bits == 32 || bits == 64
}

fn part(low: i128, high: i128) -> Part
    ensures low { result.low ≡ low }
    ensures high { result.high ≡ high }
{
    Part { low, high }
}

// The least and the greatest whole number of this many bits.
fn bounds(bits: u8, signed: bool) -> Part
    requires { IsTrue (spec.is_width bits) }
    ensures { result ≡ bounds bits signed }
{
    match (bits, signed) {
        (8, true) => part(-128, 127),
        (16, true) => part(-32768, 32767),
        (32, true) => part(-2147483648, 2147483647),
        (_, true) => part(-9223372036854775808, 9223372036854775807),
        (8, false) => part(0, 255),
        (16, false) => part(0, 65535),
        (32, false) => part(0, 4294967295),
        (_, false) => part(0, 18446744073709551615),
    }
}

fn lie_within(low: i128, high: i128, range: &Ranges) -> bool
    ensures { result ≡ spec.lie_within low high range.now }
{
    range
        .items()
        .iter()
        .all(|part| low <= part.low && part.high <= high)
}

// Whether a range is one of whole numbers of this many bits.
fn lie_in_bits(bits: u8, signed: bool, range: &Ranges) -> bool
    requires { IsTrue (spec.is_width bits) }
    ensures { result ≡ spec.lie_in_bits bits signed range.now }
{
    let whole = bounds(bits, signed);
    lie_within(whole.low, whole.high, range)
}

// Whether there are distinct names and as many distinct places.
fn are_named(alloc: Global, names: &[Str], places: &[u32]) -> Result<bool, NoMemory>
    ensures { IfOk result (λ b. b ≡ spec.are_named names.now places.now) }
{
    if names.len() != places.len() {
        return Ok(false);
    }
    Ok(texts_differ(alloc, names)? && numbers_differ(alloc, places)?)
}

fn are_low(positions: &[u8]) -> bool
    ensures { result ≡ list_all (λ p. nat_lt p 64) positions.now }
{
    positions.iter().all(|p| *p < 64)
}

// Whether there are distinct identifiers and as many distinct positions, all below 64.
fn are_good_bits(alloc: Global, names: &[Str], positions: &[u8]) -> Result<bool, NoMemory>
    ensures { IfOk result (λ b. b ≡ are_good_bits names.now positions.now) }
{
    if names.len() != positions.len() {
        return Ok(false);
    }
    if !texts_differ(alloc, names)? || !positions_differ(alloc, positions)? {
        return Ok(false);
    }
    Ok(are_identifiers(names) && are_low(positions))
}

// Whether it is a type of a schema, and no union.
fn is_good_layer(alloc: Global, table: &SchemaTable, ty: &YangType) -> Result<bool, NoMemory>
    ensures { IfOk result (λ b. b ≡ is_good_member table.now ty.now) }
{
    match ty {
        YangType::Int {
            bits,
            signed,
            range,
        } => Ok(is_width(*bits) && lie_in_bits(*bits, *signed, range)),
        YangType::Dec { digits, range } => {
            Ok(1 <= *digits && *digits <= 18 && lie_in_bits(64, true, range))
        }
        YangType::Enum { names, places } => are_named(alloc, names.items(), places.items()),
        YangType::Bits { names, positions } => {
            are_good_bits(alloc, names.items(), positions.items())
        }
        YangType::Ident { bases } => {
            Ok(are_below(bases.items(), table.identities.items().len()))
        }
        YangType::Text { .. } | YangType::Bool | YangType::Bin { .. } | YangType::Empty => Ok(true),
        YangType::Union { .. } | YangType::Leafref { .. } => Ok(false),
    }
}

// Whether a union has members, of which none is a union.
fn are_good_members(
    alloc: Global,
    table: &SchemaTable,
    members: &[YangType],
) -> Result<bool, NoMemory>
    ensures { IfOk result (λ b. b ≡ are_good_members table.now members.now) }
{
    if members.is_empty() {
        return Ok(false);
    }
    for member in members {
        if !is_good_layer(alloc, table, member)? {
            return Ok(false);
        }
    }
    Ok(true)
}

fn is_good_type(alloc: Global, table: &SchemaTable, ty: &YangType) -> Result<bool, NoMemory>
    ensures { IfOk result (λ b. b ≡ spec.is_good_type table.now ty.now) }
{
    match ty {
        YangType::Union { members } => are_good_members(alloc, table, members.items()),
        _ => is_good_layer(alloc, table, ty),
    }
}

/// Whether each type is one of a schema.
pub(crate) fn are_good_types(alloc: Global, table: &SchemaTable) -> Result<bool, NoMemory>
    ensures { IfOk result (λ b. b ≡ list_all (spec.is_good_type table.now) table.now.types) }
{
    let types = table.types.items();
    for ty in types {
        if !is_good_type(alloc, table, ty)? {
            return Ok(false);
        }
    }
    Ok(true)
}
