//! The data parent of a node, and the list above it.
ghost use Rattle.std.specs.Prelude.{◌≡◌, not};
ghost use Rattle.sal_schema.specs.Kinds as kinds;
ghost use Rattle.sal_schema.specs.Table as spec;

use crate::kind::{is_leaf, is_list};
use sal_schema::{Kind, SchemaTable};

/// The kind of the node of this number, if it exists.
pub(crate) fn kind_of(table: &SchemaTable, number: u32) -> Option<Kind>
    ensures { result ≡ spec.kind_of table.now number }
{
    match table.nodes.items().get(number as usize) {
        None => None,
        Some(node) => Some(node.kind),
    }
}

/// The parent of the node of this number.
pub(crate) fn parent_of(table: &SchemaTable, number: u32) -> Option<u32>
    ensures { result ≡ spec.parent_of table.now number }
{
    match table.nodes.items().get(number as usize) {
        None => None,
        Some(node) => node.parent,
    }
}

/// Whether the node of this number exists and is a leaf.
pub(crate) fn is_leaf_at(table: &SchemaTable, number: u32) -> bool
    ensures { result ≡ spec.is_kind kinds.is_leaf table.now number }
{
    match kind_of(table, number) {
        None => false,
        Some(kind) => is_leaf(kind),
    }
}

fn is_list_at(table: &SchemaTable, number: u32) -> bool
    ensures { result ≡ spec.is_kind kinds.is_list table.now number }
{
    match kind_of(table, number) {
        None => false,
        Some(kind) => is_list(kind),
    }
}

// Whether the node itself is the data parent of its children.
fn holds_data(table: &SchemaTable, number: u32) -> bool
    ensures { result ≡ spec.is_kind (λ kind. not (kinds.is_choice_or_case kind)) table.now number }
{
    match kind_of(table, number) {
        None => false,
        Some(kind) => !kind.is_choice_or_case(),
    }
}

/// The data parent of the children of this node: the node itself, but not a choice or a case.
pub(crate) fn data_node(table: &SchemaTable, from: Option<u32>) -> Option<u32>
    ensures { result ≡ spec.data_node table.now from }
{
    let mut here = from;
    for done in 0..table.nodes.items().len() {
        match here {
            None => return None,
            Some(above) => {
                if holds_data(table, above) {
                    return here;
                }
                here = parent_of(table, above);
            }
        }
    }
    None
}

/// The closest list above a node.
pub(crate) fn list_above(table: &SchemaTable, number: u32) -> Option<u32>
    ensures { result ≡ spec.list_above table.now number }
{
    let mut here = parent_of(table, number);
    for done in 0..table.nodes.items().len() {
        match here {
            None => return None,
            Some(above) => {
                if is_list_at(table, above) {
                    return here;
                }
                here = parent_of(table, above);
            }
        }
    }
    None
}
