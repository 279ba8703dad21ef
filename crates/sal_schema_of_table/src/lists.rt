//! Keys and unique leafs of lists.
ghost use Rattle.std.specs.Prelude.{◌≡◌, ◌&&◌, Some, IfOk};
ghost use Rattle.std.specs.List.{list_all};
ghost use Rattle.sal_schema.specs.Valid as spec;
ghost use Rattle.sal_schema_of_table.specs.Whole.{is_key_leaf, is_unique_leaf};

use crate::climb::{is_leaf_at, list_above, parent_of};
use crate::distinct::numbers_differ;
use crate::kind::is_list;
use crate::node::agree;
use sal_schema::{NodeInfo, SchemaTable};
use sal_types::NoMemory;
use std::alloc::Global;

// Whether it is a leaf directly below the list of this number.
fn is_key_leaf(table: &SchemaTable, list: u32, leaf: u32) -> bool
    ensures { result ≡ is_key_leaf table.now list leaf }
{
    is_leaf_at(table, leaf) && parent_of(table, leaf) == Some(list)
}

fn are_key_leafs(table: &SchemaTable, list: u32, leafs: &[u32]) -> bool
    ensures { result ≡ list_all (is_key_leaf table.now list) leafs.now }
{
    leafs.iter().all(|leaf| is_key_leaf(table, list, *leaf))
}

/// Whether exactly a list has keys: at least one, each another leaf that is its child.
pub(crate) fn has_its_keys(
    alloc: Global,
    table: &SchemaTable,
    number: u32,
    node: &NodeInfo,
) -> Result<bool, NoMemory>
    ensures { IfOk result (λ b. b ≡ spec.has_its_keys table.now number node.now) }
{
    let keys = node.keys.items();
    if !agree(is_list(node.kind), !keys.is_empty()) {
        return Ok(false);
    }
    Ok(numbers_differ(alloc, keys)? && are_key_leafs(table, number, keys))
}

// Whether it is a leaf below the list of this number with no list between.
fn is_unique_leaf(table: &SchemaTable, list: u32, leaf: u32) -> bool
    ensures { result ≡ is_unique_leaf table.now list leaf }
{
    is_leaf_at(table, leaf) && list_above(table, leaf) == Some(list)
}

fn are_unique_leafs(table: &SchemaTable, list: u32, leafs: &[u32]) -> bool
    ensures { result ≡ list_all (is_unique_leaf table.now list) leafs.now }
{
    leafs.iter().all(|leaf| is_unique_leaf(table, list, *leaf))
}

/// Whether the leafs of each `unique` are leafs below the node with no list between.
pub(crate) fn has_its_uniques(table: &SchemaTable, number: u32, node: &NodeInfo) -> bool
    ensures { result ≡ spec.has_its_uniques table.now number node.now }
{
    let uniques = node.unique.items();
    for leafs in uniques {
        if !are_unique_leafs(table, number, leafs.items()) {
            return false;
        }
    }
    true
}
