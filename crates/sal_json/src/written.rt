//! Texts of values.
ghost use Rattle.std.specs.Prelude.{◌≡◌, ◌||◌, ◌==◌, position, ◌<◌, ◌++◌, ◌∷◌, [], IfOk, OnOk, string_bytes, slice_index_or, option_map, if◌then◌else◌, decimal};
ghost use Rattle.std.specs.Fmt.{signed_decimal};
ghost use Rattle.std.specs.List.{slice_get};
ghost use Rattle.base64.specs.Engines.{standard};
ghost use Rattle.base64.specs.GeneralPurpose.{encode_of};
ghost use Rattle.sal_restrict.specs.declared.yang_type.YangType.{out-YangType};
ghost use Rattle.sal_schema.specs.Values.{has_bit};
ghost use Rattle.sal_json.specs.Named as named;
ghost use Rattle.sal_json.specs.Numerals as numerals;
ghost use Rattle.sal_json.specs.Written as spec;

use crate::named::has_bit;
use base64::engine::general_purpose::STANDARD;
use sal_restrict::YangType;
use sal_schema::Schema;
use sal_types::{Atom, NoMemory, Str};
use std::alloc::Global;

/// The number of bits of a value of `bits`.
const BITS: u8 = 64;

fn decimal_text(alloc: Global, number: u64) -> Result<String, NoMemory>
    ensures { IfOk result (λ t. string_bytes t ≡ decimal number) }
{
    let text = format!(in alloc; "{number}")?;
    Ok(text)
}

fn signed_text(alloc: Global, number: i64) -> Result<String, NoMemory>
    ensures { IfOk result (λ t. string_bytes t ≡ signed_decimal number) }
{
    let text = format!(in alloc; "{number}")?;
    Ok(text)
}

/// The digits of a number with a point before the last `digits`.
fn with_point(alloc: Global, digits: u8, units: u64) -> Result<String, NoMemory>
    ensures { IfOk result (λ t. string_bytes t ≡ numerals.with_point digits units) }
{
    if digits == 0 {
        let whole = format!(in alloc; "{units}.")?;
        return Ok(whole);
    }
    let mut text = with_point(alloc, digits - 1, units / 10)?;
    text.push((b'0' + (units % 10) as u8) as char)?;
    Ok(text)
}

/// The text of this many units, without zeros at its end, except one digit after the point.
fn point_text(alloc: Global, digits: u8, units: u64) -> Result<String, NoMemory>
    ensures { IfOk result (λ t. string_bytes t ≡ numerals.point_text digits units) }
{
    let mut digits = digits;
    let mut units = units;
    while digits > 1 && units % 10 == 0 {
        digits -= 1;
        units /= 10;
    }
    with_point(alloc, digits, units)
}

fn dec_text(alloc: Global, digits: u8, units: i64) -> Result<String, NoMemory>
    ensures { IfOk result (λ t. string_bytes t ≡ numerals.dec_text digits units) }
{
    let size = point_text(alloc, digits, units.unsigned_abs())?;
    if units >= 0 {
        return Ok(size);
    }
    let mut text = String::from_str(alloc, "-")?;
    text.push_str(size.as_str())?;
    Ok(text)
}

fn name_at(names: &[Str], at: usize) -> &str
    ensures { result.now ≡ slice_index_or names.now at [] }
{
    if at < names.len() {
        names[at].as_str()
    } else {
        ""
    }
}

fn place_of(places: &[u32], place: u32) -> Option<usize>
    ensures { result ≡ position (λ k. k == place) places.now }
{
    places.iter().position(|other| *other == place)
}

fn place_of_bit(positions: &[u8], bit: u8) -> Option<usize>
    ensures { result ≡ position (λ k. k == bit) positions.now }
{
    positions.iter().position(|other| *other == bit)
}

/// The name at an index, if there is one.
fn name_there(names: &[Str], at: Option<usize>) -> &str
    ensures { result.now ≡ named.name_there names.now at }
{
    match at {
        Some(at) => name_at(names, at),
        None => "",
    }
}

fn enum_name<'n>(names: &'n [Str], places: &[u32], place: u32) -> &'n str
    ensures { result.now ≡ named.name_with names.now places.now place }
{
    name_there(names, place_of(places, place))
}

fn bit_name<'n>(names: &'n [Str], positions: &[u8], position: u8) -> &'n str
    ensures { result.now ≡ named.name_with names.now positions.now position }
{
    name_there(names, place_of_bit(positions, position))
}

/// Appends one name, with a space before it unless it is the first.
fn add_name(text: &mut String, has_others: bool, name: &str) -> Result<(), NoMemory>
    ensures { OnOk result (string_bytes text.new ≡ string_bytes text.old ++ (if has_others then 32 ∷ name.now else name.now)) }
{
    if has_others {
        text.push(' ')?;
    }
    text.push_str(name)?;
    Ok(())
}

/// Appends the name of this bit, if it is set. It returns whether there are names before the next one.
fn add_bit(
    text: &mut String,
    has_others: bool,
    position: u8,
    set: u64,
    name: &str,
) -> Result<bool, NoMemory>
    requires { position < 64 }
    ensures text { OnOk result (string_bytes text.new ≡ (if has_bit set position then string_bytes text.old ++ (if has_others then 32 ∷ name.now else name.now) else string_bytes text.old)) }
    ensures some { IfOk result (λ some. some ≡ (has_bit set position || has_others)) }
{
    if !has_bit(set, position) {
        return Ok(has_others);
    }
    add_name(text, has_others, name)?;
    Ok(true)
}

fn bits_text(alloc: Global, names: &[Str], positions: &[u8], set: u64) -> Result<String, NoMemory>
    ensures { IfOk result (λ t. string_bytes t ≡ named.bits_text names.now positions.now set) }
{
    let mut text = String::new(alloc);
    let mut has_others = false;
    for position in 0..BITS {
        let name = bit_name(names, positions, position);
        has_others = add_bit(&mut text, has_others, position, set, name)?;
    }
    Ok(text)
}

fn qualified(alloc: Global, module: &str, name: &str) -> Result<String, NoMemory>
    ensures { IfOk result (λ t. string_bytes t ≡ «module».now ++ 58 ∷ name.now) }
{
    let mut text = String::from_str(alloc, module)?;
    text.push(':')?;
    text.push_str(name)?;
    Ok(text)
}

/// The name of an identity, with its module if that is another one.
fn identity_text(
    alloc: Global,
    schema: &Schema,
    module: u32,
    identity: u32,
) -> Result<String, NoMemory>
    ensures { IfOk result (λ t. string_bytes t ≡ named.identity_text schema.now «module» identity) }
{
    if identity >= schema.identities() {
        return Ok(String::new(alloc));
    }
    let own = schema.identity_module(identity);
    let name = schema.identity_name(identity);
    if own == module {
        Ok(String::from_str(alloc, name)?)
    } else {
        qualified(alloc, schema.module_name(own), name)
    }
}

fn enum_text(alloc: Global, ty: &YangType, place: u32) -> Result<String, NoMemory>
    ensures { IfOk result (λ t. string_bytes t ≡ spec.enum_text (out-YangType ty.now) place) }
{
    match ty {
        YangType::Enum { names, places } => Ok(String::from_str(
            alloc,
            enum_name(names.items(), places.items(), place),
        )?),
        _ => Ok(String::new(alloc)),
    }
}

fn set_text(alloc: Global, ty: &YangType, set: u64) -> Result<String, NoMemory>
    ensures { IfOk result (λ t. string_bytes t ≡ spec.set_text (out-YangType ty.now) set) }
{
    match ty {
        YangType::Bits { names, positions } => {
            bits_text(alloc, names.items(), positions.items(), set)
        }
        _ => Ok(String::new(alloc)),
    }
}

fn bool_text(is_true: bool) -> &'static str
    ensures { result.now ≡ spec.bool_text is_true }
{
    if is_true { "true" } else { "false" }
}

fn binary_text(alloc: Global, bytes: &[u8]) -> Result<String, NoMemory>
    ensures { IfOk result (λ t. string_bytes t ≡ encode_of standard bytes.now) }
{
    let text = STANDARD.encode(alloc, bytes)?;
    Ok(text)
}

/// The text of an atom of a type that is no union, where the module is the one of its leaf.
pub(crate) fn atom_text(
    alloc: Global,
    schema: &Schema,
    module: u32,
    ty: &YangType,
    atom: &Atom,
) -> Result<String, NoMemory>
    ensures { IfOk result (λ t. string_bytes t ≡ spec.atom_text schema.now «module» (out-YangType ty.now) atom.now) }
{
    match atom {
        Atom::Signed(number) => signed_text(alloc, *number),
        Atom::Unsigned(number) => decimal_text(alloc, *number),
        Atom::Dec { units, digits } => dec_text(alloc, *digits, *units),
        Atom::Text(text) => Ok(String::from_str(alloc, text.as_str())?),
        Atom::Bool(is_true) => Ok(String::from_str(alloc, bool_text(*is_true))?),
        Atom::Enum(place) => enum_text(alloc, ty, *place),
        Atom::Bits(set) => set_text(alloc, ty, *set),
        Atom::Bin(bytes) => binary_text(alloc, bytes.items()),
        Atom::Ident(identity) => identity_text(alloc, schema, module, *identity),
        Atom::Empty => Ok(String::new(alloc)),
    }
}

fn member_at(members: &[YangType], member: u64) -> Option<&YangType>
    ensures { option_map (λ t. t.now) result ≡ slice_get members.now member }
{
    members.get(member as usize)
}

/// The type of a value: that of its member of a union, or the type itself.
pub(crate) fn type_for(ty: &YangType, member: u64) -> Option<&YangType>
    ensures { option_map (λ t. out-YangType t.now) result ≡ spec.layer_for (out-YangType ty.now) member }
{
    match ty {
        YangType::Union { members } => match member_at(members.items(), member) {
            Some(member) => Some(member),
            None => None,
        },
        _ => Some(ty),
    }
}
