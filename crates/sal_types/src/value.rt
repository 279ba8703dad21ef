//! Stores, values and cells: the content of a tree (RFC 7950 sections 7.6 to 7.8 and 9).
use crate::memory::{Duplicate, NoMemory};
use crate::seq::Seq;
use crate::shared::Shared;
use crate::text::Str;

/// Bytes.
pub type Bytes = Seq<u8>;

/// A store of a domain: its configuration tree or its operational tree.
#[derive(Clone, Copy, Debug, PartialEq, Eq, PartialOrd, Ord)]
pub enum Store {
    Config,
    Oper,
}

/// The value of a leaf, without the index of its member type in a union.
///
/// `Dec` is `units` times 10 to the power of minus `digits`. `Enum` is the index of the name in the original
/// enumeration, `Bits` has bit `position` set, and `Ident` is the number of an identity.
#[derive(Debug, Drop, PartialEq, Eq, PartialOrd, Ord)]
pub enum Atom {
    Signed(i64),
    Unsigned(u64),
    Dec { units: i64, digits: u8 },
    Text(Str),
    Bool(bool),
    Enum(u32),
    Bits(u64),
    Bin(Bytes),
    Ident(u32),
    Empty,
}

/// A leaf's value. `member` is the index of its type in a union, and 0 otherwise.
#[derive(Debug, Drop, PartialEq, Eq, PartialOrd, Ord)]
pub struct Value {
    pub member: u64,
    pub atom: Atom,
}

/// The key values of a list entry, in the order of the schema. Copies share them.
pub type Keys = Shared<Seq<Value>>;

/// A step of a path: to a schema node by its number, to a list entry by its keys, or to a leaf-list entry by its value.
#[derive(Debug, Drop, PartialEq, Eq, PartialOrd, Ord)]
pub enum Step {
    Node(u32),
    Key(Keys),
    Item(Shared<Value>),
}

/// The content of a row: the mark of a presence container, list entry or leaf-list entry, or a leaf's value.
#[derive(Debug, Drop, PartialEq, Eq, PartialOrd, Ord)]
pub enum Cell {
    Mark,
    Leaf(Value),
}

impl Duplicate for Atom {
    fn copy(&self) -> Result<Self, NoMemory> {
        match self {
            Atom::Signed(number) => Ok(Atom::Signed(*number)),
            Atom::Unsigned(number) => Ok(Atom::Unsigned(*number)),
            Atom::Dec { units, digits } => Ok(Atom::Dec {
                units: *units,
                digits: *digits,
            }),
            Atom::Text(text) => Ok(Atom::Text(text.copy()?)),
            Atom::Bool(is_true) => Ok(Atom::Bool(*is_true)),
            Atom::Enum(place) => Ok(Atom::Enum(*place)),
            Atom::Bits(set) => Ok(Atom::Bits(*set)),
            Atom::Bin(bytes) => Ok(Atom::Bin(bytes.copy()?)),
            Atom::Ident(identity) => Ok(Atom::Ident(*identity)),
            Atom::Empty => Ok(Atom::Empty),
        }
    }
}

impl Duplicate for Value {
    fn copy(&self) -> Result<Self, NoMemory> {
        Ok(Value {
            member: self.member,
            atom: self.atom.copy()?,
        })
    }
}

impl Duplicate for Step {
    fn copy(&self) -> Result<Self, NoMemory> {
        match self {
            Step::Node(node) => Ok(Step::Node(*node)),
            Step::Key(keys) => Ok(Step::Key(keys.copy()?)),
            Step::Item(value) => Ok(Step::Item(value.copy()?)),
        }
    }
}

impl Duplicate for Cell {
    fn copy(&self) -> Result<Self, NoMemory> {
        match self {
            Cell::Mark => Ok(Cell::Mark),
            Cell::Leaf(value) => Ok(Cell::Leaf(value.copy()?)),
        }
    }
}
