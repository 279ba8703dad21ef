//! A name of an enumeration or of bits, with its number (RFC 7950 sections 9.6 and 9.7).
ghost use Rattle.std.specs.Prelude.{pos};

use sal_types::Str;

/// A name and its number.
#[derive(Drop)]
pub(crate) struct Entry {
    pub(crate) name: Str,
    pub(crate) number: i128,
}

/// How names get their numbers.
#[derive(Clone, Copy, PartialEq, Eq)]
pub(crate) enum Numbering {
    /// The names of an enumeration: each has a `value` of 32 bits with a sign.
    Enums,
    /// The names of bits: each has a `position` up to 63.
    Bits,
}
