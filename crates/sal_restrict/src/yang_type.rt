//! Types (RFC 7950 section 9).
ghost use Rattle.std.specs.Prelude.{◌≡◌, ◌++◌, ◌∷◌, [], IfOk};
ghost use Rattle.sal_restrict.specs.Names.{int_name, builtin_name};

use crate::ranges::Ranges;
use sal_types::{Duplicate, NoMemory, Seq, Str};
use std::alloc::Global;

/// A pattern of a text, or one that the text must not match.
#[derive(Drop, PartialEq, Eq)]
pub struct Pattern {
    pub text: Str,
    pub inverted: bool,
}

/// The type of a leaf or leaf-list.
///
/// `places` has, for each name of an enumeration, its index in the original enumeration: the one that is not derived
/// from another. `bases` are numbers of identities. A `Leafref` is a type whose target is not resolved yet.
#[derive(Drop, PartialEq, Eq)]
pub enum YangType {
    Int {
        bits: u8,
        signed: bool,
        range: Ranges,
    },
    Dec {
        digits: u8,
        range: Ranges,
    },
    Text {
        length: Ranges,
        patterns: Seq<Pattern>,
    },
    Bool,
    Enum {
        names: Seq<Str>,
        places: Seq<u32>,
    },
    Bits {
        names: Seq<Str>,
        positions: Seq<u8>,
    },
    Bin {
        length: Ranges,
    },
    Ident {
        bases: Seq<u32>,
    },
    Empty,
    Union {
        members: Seq<YangType>,
    },
    Leafref {
        path: Str,
    },
}

impl Duplicate for Pattern {
    fn copy(&self) -> Result<Self, NoMemory> {
        Ok(Pattern {
            text: self.text.copy()?,
            inverted: self.inverted,
        })
    }
}

/// Copies of two values.
fn both<A: Duplicate, B: Duplicate>(one: &A, other: &B) -> Result<(A, B), NoMemory>
    ensures { IfOk result (λ it. (it.0 ≡ one.now) × (it.1 ≡ other.now)) }
{
    let first = one.copy()?;
    let second = other.copy()?;
    Ok((first, second))
}

/// A list with one more item.
fn pushed<T: Drop>(list: Vec<T>, item: T) -> Result<Vec<T>, NoMemory>
    ensures { IfOk result (λ all. all.items ≡ list.items ++ item ∷ []) }
{
    let mut list = list;
    list.push(item)?;
    Ok(list)
}

impl YangType {
    /// An equal copy.
    pub fn copy(&self, alloc: Global) -> Result<YangType, NoMemory>
        ensures { IfOk result (λ it. it ≡ self.now) }
    {
        match self {
            YangType::Int {
                bits,
                signed,
                range,
            } => Ok(YangType::Int {
                bits: *bits,
                signed: *signed,
                range: range.copy()?,
            }),
            YangType::Dec { digits, range } => Ok(YangType::Dec {
                digits: *digits,
                range: range.copy()?,
            }),
            YangType::Text { length, patterns } => {
                let (length, patterns) = both(length, patterns)?;
                Ok(YangType::Text { length, patterns })
            }
            YangType::Bool => Ok(YangType::Bool),
            YangType::Enum { names, places } => {
                let (names, places) = both(names, places)?;
                Ok(YangType::Enum { names, places })
            }
            YangType::Bits { names, positions } => {
                let (names, positions) = both(names, positions)?;
                Ok(YangType::Bits { names, positions })
            }
            YangType::Bin { length } => Ok(YangType::Bin {
                length: length.copy()?,
            }),
            YangType::Ident { bases } => Ok(YangType::Ident {
                bases: bases.copy()?,
            }),
            YangType::Empty => Ok(YangType::Empty),
            YangType::Union { members } => {
                let mut copies = Vec::with_capacity(alloc, members.items().len())?;
                for member in members.items() {
                    copies = pushed(copies, member.copy(alloc)?)?;
                }
                Ok(YangType::Union {
                    members: Seq::from_items(copies),
                })
            }
            YangType::Leafref { path } => Ok(YangType::Leafref { path: path.copy()? }),
        }
    }

    /// The name of its built-in type.
    pub fn builtin_name(&self) -> &'static str
        ensures { result.now ≡ builtin_name self.now }
    {
        match self {
            YangType::Int { bits, signed, .. } => int_name(*bits, *signed),
            YangType::Dec { .. } => "decimal64",
            YangType::Text { .. } => "string",
            YangType::Bool => "boolean",
            YangType::Enum { .. } => "enumeration",
            YangType::Bits { .. } => "bits",
            YangType::Bin { .. } => "binary",
            YangType::Ident { .. } => "identityref",
            YangType::Empty => "empty",
            YangType::Union { .. } => "union",
            YangType::Leafref { .. } => "leafref",
        }
    }
}

fn int_name(bits: u8, signed: bool) -> &'static str
    ensures { result.now ≡ int_name bits signed }
{
    match (bits, signed) {
        (8, true) => "int8",
        (16, true) => "int16",
        (32, true) => "int32",
        (_, true) => "int64",
        (8, false) => "uint8",
        (16, false) => "uint16",
        (32, false) => "uint32",
        (_, false) => "uint64",
    }
}
