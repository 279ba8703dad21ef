//! Values that are names: enums, bits and identities.
ghost use Rattle.std.specs.Prelude.{◌≡◌, ◌<◌, length, ◌==◌, nat_lt, position, IsTrue};
ghost use Rattle.std.specs.List.{list_all};
ghost use Rattle.sal_schema.specs.Values.{has_bit, takes_identity};
ghost use Rattle.sal_json.specs.Named as spec;

use crate::fault::ScalarFault;
use crate::texts::place_of;
use sal_restrict::{behind, front};
use sal_schema::Schema;
use sal_types::{Atom, Str};

/// Which of the names this is.
fn place_of_name(names: &[Str], text: &[u8]) -> Option<usize>
    ensures { result ≡ position (spec.text_eq text.now) names.now }
{
    names.iter().position(|name| text == name.items())
}

/// The index of the enum of this name.
pub(crate) fn enum_atom(names: &[Str], places: &[u32], text: &[u8]) -> Result<Atom, ScalarFault>
    ensures { result ≡ spec.enum_atom names.now places.now text.now }
{
    match place_called(names, places, text) {
        Some(place) => Ok(Atom::Enum(place)),
        None => Err(ScalarFault::UnknownName),
    }
}

fn place_called(names: &[Str], places: &[u32], text: &[u8]) -> Option<u32>
    ensures { result ≡ spec.number_called names.now places.now text.now }
{
    let at = place_of_name(names, text)?;
    places.get(at).copied()
}

fn bit_called(names: &[Str], positions: &[u8], text: &[u8]) -> Option<u8>
    ensures { result ≡ spec.number_called names.now positions.now text.now }
{
    let at = place_of_name(names, text)?;
    positions.get(at).copied()
}

pub(crate) fn has_bit(set: u64, position: u8) -> bool
    requires { position < 64 }
    ensures { result ≡ has_bit set position }
{
    (set >> position) % 2 == 1
}

fn with_bit(set: u64, position: u8) -> Result<u64, ScalarFault>
    requires { position < 64 }
    ensures { result ≡ spec.with_bit set position }
{
    if has_bit(set, position) {
        Err(ScalarFault::WrongKind)
    } else {
        Ok(set | (1u64 << position))
    }
}

/// The set with the bit of this name, which it has not yet.
fn with_name(names: &[Str], positions: &[u8], set: u64, name: &[u8]) -> Result<u64, ScalarFault>
    requires { IsTrue (list_all (λ p. nat_lt p 64) positions.now) }
    ensures { result ≡ spec.with_name names.now positions.now set name.now }
{
    if name.is_empty() {
        return Err(ScalarFault::WrongKind);
    }
    match bit_called(names, positions, name) {
        Some(position) => with_bit(set, position),
        None => Err(ScalarFault::UnknownName),
    }
}

/// The set of the bits with these names, with one space between any two.
#[tactic(auto, unfolding(crate::specs::Named::bits_of))]
fn bits_of(names: &[Str], positions: &[u8], text: &[u8]) -> Result<u64, ScalarFault>
    requires { IsTrue (list_all (λ p. nat_lt p 64) positions.now) }
    ensures { result ≡ spec.bits_of names.now positions.now text.now }
{
    if text.is_empty() {
        return Ok(0);
    }
    let mut set = 0;
    let mut rest = text;
    'names: loop {
        let len = place_of(b' ', rest);
        set = match with_name(names, positions, set, front(rest, len)) {
            Ok(more) => more,
            Err(fault) => return Err(fault),
        };
        if len == rest.len() {
            return Ok(set);
        }
        rest = behind(rest, len + 1);
    }
}

pub(crate) fn bits_atom(names: &[Str], positions: &[u8], text: &[u8]) -> Result<Atom, ScalarFault>
    requires { IsTrue (list_all (λ p. nat_lt p 64) positions.now) }
    ensures { result ≡ spec.bits_atom names.now positions.now text.now }
{
    match bits_of(names, positions, text) {
        Ok(set) => Ok(Atom::Bits(set)),
        Err(fault) => Err(fault),
    }
}

/// Whether the identity exists and is derived from all bases.
fn takes_identity(schema: &Schema, bases: &[u32], identity: u32) -> bool
    ensures { result ≡ takes_identity schema.now bases.now identity }
{
    if identity >= schema.identities() {
        return false;
    }
    for base in bases {
        if !schema.is_derived(identity, *base) {
            return false;
        }
    }
    true
}

/// The identity, if it is derived from all bases.
fn derived_atom(schema: &Schema, bases: &[u32], identity: u32) -> Result<Atom, ScalarFault>
    ensures { result ≡ spec.derived_atom schema.now bases.now identity }
{
    if takes_identity(schema, bases, identity) {
        Ok(Atom::Ident(identity))
    } else {
        Err(ScalarFault::UnknownName)
    }
}

/// The identity of this name, if it is derived from all bases.
pub(crate) fn identity_atom(
    schema: &Schema,
    module: u32,
    bases: &[u32],
    text: &str,
) -> Result<Atom, ScalarFault>
    requires { «module» < length schema.now.modules }
    ensures { result ≡ spec.identity_atom schema.now «module» bases.now text.now }
{
    match identity_called(schema, module, text) {
        Some(identity) => derived_atom(schema, bases, identity),
        None => Err(ScalarFault::UnknownName),
    }
}

/// The identity of this name: of the module, or of the one before the first colon.
fn identity_called(schema: &Schema, module: u32, text: &str) -> Option<u32>
    requires { «module» < length schema.now.modules }
    ensures { result ≡ spec.identity_called schema.now «module» text.now }
{
    match text.split_once(':') {
        Some((other, name)) => schema.identity(other, name),
        None => schema.identity(schema.module_name(module), text),
    }
}
