//! Places as text, for the messages of errors: stores, values, steps and paths, such as `/3["eth0"]/7`.
//!
//! Nodes, identities and names of enumerations are numbers here, since only a schema has their names: `write_path` of
//! `sal_pathtext` writes a path with them.
use crate::path::Path;
use crate::value::{Atom, Keys, Step, Store, Value};
use std::fmt;

impl fmt::Display for Store {
    fn fmt<W: fmt::Write>(&self, f: &mut fmt::Formatter<W>) -> fmt::Result {
        match self {
            Store::Config => f.write_str("configuration"),
            Store::Oper => f.write_str("operational"),
        }
    }
}

impl fmt::Display for Atom {
    fn fmt<W: fmt::Write>(&self, f: &mut fmt::Formatter<W>) -> fmt::Result {
        match self {
            Atom::Signed(number) => write!(f, "{number}"),
            Atom::Unsigned(number) => write!(f, "{number}"),
            Atom::Dec { units, digits } => write!(f, "{units}e-{digits}"),
            Atom::Text(text) => write!(f, "{:?}", text.as_str()),
            Atom::Bool(is_true) => write!(f, "{is_true}"),
            Atom::Enum(place) => write!(f, "enum {place}"),
            Atom::Bits(set) => write!(f, "bits {set}"),
            Atom::Bin(bytes) => write!(f, "{:?}", bytes.items()),
            Atom::Ident(identity) => write!(f, "identity {identity}"),
            Atom::Empty => f.write_str("empty"),
        }
    }
}

impl fmt::Display for Value {
    fn fmt<W: fmt::Write>(&self, f: &mut fmt::Formatter<W>) -> fmt::Result {
        write!(f, "{}", self.atom)
    }
}

/// A node is `/3`, a list entry the values of its keys, as `["eth0",5]`, and a leaf-list entry its value, as `[.=5]`.
impl fmt::Display for Step {
    fn fmt<W: fmt::Write>(&self, f: &mut fmt::Formatter<W>) -> fmt::Result {
        match self {
            Step::Node(node) => write!(f, "/{node}"),
            Step::Key(keys) => show_keys(keys, f),
            Step::Item(value) => show_item(value.value(), f),
        }
    }
}

/// The steps one after the other. The root is `/`.
impl fmt::Display for Path {
    fn fmt<W: fmt::Write>(&self, f: &mut fmt::Formatter<W>) -> fmt::Result {
        if self.steps().is_empty() {
            return f.write_str("/");
        }
        for step in self.steps() {
            write!(f, "{step}")?;
        }
        Ok(())
    }
}

// The value of an entry of a leaf-list.
fn show_item<W: fmt::Write>(value: &Value, f: &mut fmt::Formatter<W>) -> fmt::Result {
    write!(f, "[.={value}]")
}

// The values of an entry's keys.
fn show_keys<W: fmt::Write>(keys: &Keys, f: &mut fmt::Formatter<W>) -> fmt::Result {
    f.write_str("[")?;
    let mut before = "";
    for value in keys.value().items() {
        write!(f, "{before}{value}")?;
        before = ",";
    }
    f.write_str("]")
}
