//! Which values are of a type.
ghost use Rattle.std.specs.Prelude.{◌≡◌, ◌<◌, length};
ghost use Rattle.sal_schema.specs.Table.{is_among as is_in};
ghost use Rattle.sal_schema.specs.Values as spec;

use crate::schema::{Schema, is_among};
use sal_restrict::YangType;
use sal_types::{Atom, Value, characters};

/// The number of bits of a value of `bits`.
const BITS: u8 = 64;

impl Schema {
    /// Whether the value is of the type, by kind, range, length, and the names that the type takes. Patterns are not checked.
    ///
    /// A value of a union is of the type of its member. A value of another type has the member 0.
    pub fn is_of_type(&self, ty: &YangType, value: &Value) -> bool
        ensures { result ≡ spec.is_of_type self.now ty.now value.now }
    {
        match ty {
            YangType::Union { members } => self.is_of_member(members.items(), value),
            _ => value.member == 0 && self.is_of_plain(ty, &value.atom),
        }
    }

    // Whether the value is of its member of a union.
    fn is_of_member(&self, members: &[YangType], value: &Value) -> bool
        ensures { result ≡ spec.is_of_member self.now members.now value.now }
    {
        match members.get(value.member as usize) {
            Some(member) => self.is_of_plain(member, &value.atom),
            None => false,
        }
    }

    // Whether the atom is of the type, which is no union.
    fn is_of_plain(&self, ty: &YangType, atom: &Atom) -> bool
        ensures { result ≡ spec.is_of_plain self.now ty.now atom.now }
    {
        match (ty, atom) {
            (YangType::Int { signed, range, .. }, Atom::Signed(number)) => {
                *signed && range.holds(i128::from(*number))
            }
            (YangType::Int { signed, range, .. }, Atom::Unsigned(number)) => {
                !*signed && range.holds(i128::from(*number))
            }
            (YangType::Dec { digits, range }, Atom::Dec { units, digits: own }) => {
                *own == *digits && range.holds(i128::from(*units))
            }
            (YangType::Text { length, .. }, Atom::Text(text)) => {
                length.holds(characters(text.as_str()) as i128)
            }
            (YangType::Bool, Atom::Bool(_)) => true,
            (YangType::Enum { places, .. }, Atom::Enum(place)) => is_among(*place, places.items()),
            (YangType::Bits { positions, .. }, Atom::Bits(set)) => {
                are_bits(positions.items(), *set)
            }
            (YangType::Bin { length }, Atom::Bin(bytes)) => {
                length.holds(bytes.items().len() as i128)
            }
            (YangType::Ident { bases }, Atom::Ident(identity)) => {
                self.takes_identity(bases.items(), *identity)
            }
            (YangType::Empty, Atom::Empty) => true,
            _ => false,
        }
    }

    // Whether the identity is derived from all bases.
    fn takes_identity(&self, bases: &[u32], identity: u32) -> bool
        ensures { result ≡ spec.takes_identity self.now bases.now identity }
    {
        if identity >= self.identities() {
            return false;
        }
        for base in bases {
            if !self.is_derived(identity, *base) {
                return false;
            }
        }
        true
    }
}

fn has_bit(set: u64, position: u8) -> bool
    requires { position < 64 }
    ensures { result ≡ spec.has_bit set position }
{
    (set >> position) % 2 == 1
}

// Whether the bit is not set, or is one of these positions.
fn is_taken(positions: &[u8], set: u64, position: u8) -> bool
    requires { position < 64 }
    ensures { result ≡ spec.is_taken positions.now set position }
{
    !has_bit(set, position) || is_position(positions, position)
}

fn is_position(positions: &[u8], position: u8) -> bool
    ensures { result ≡ is_in position positions.now }
{
    positions.iter().any(|other| *other == position)
}

// Whether each bit that is set is one of these positions.
fn are_bits(positions: &[u8], set: u64) -> bool
    ensures { result ≡ spec.are_bits positions.now set }
{
    for position in 0..BITS {
        if !is_taken(positions, set, position) {
            return false;
        }
    }
    true
}
