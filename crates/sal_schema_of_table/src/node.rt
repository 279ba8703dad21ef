//! Whether the nodes of a table are those of a schema.
ghost use Rattle.std.specs.Prelude.{◌≡◌, ◌<◌, ◌^◌, true, IfOk, length, nat_lt};
ghost use Rattle.std.specs.Option.{option_map_or};
ghost use Rattle.sal_schema.specs.Kinds as kinds;
ghost use Rattle.sal_schema.specs.Table.{all_from};
ghost use Rattle.sal_schema.specs.Valid as spec;
ghost use Rattle.sal_schema_of_table.specs.Whole.{is_good_node};

use crate::climb::kind_of;
use crate::kind::{has_type, is_case, is_choice, is_of_top, is_parameters, is_rpc};
use crate::lists::{has_its_keys, has_its_uniques};
use crate::words::is_identifier;
use sal_schema::{Kind, NodeInfo, SchemaTable};
use sal_types::NoMemory;
use std::alloc::Global;

/// Whether both hold or neither does.
pub(crate) fn agree(one: bool, other: bool) -> bool
    ensures { result ≡ spec.agree one other }
{
    if one { other } else { !other }
}

// Whether a number, if there is one, is below a count.
fn is_below(number: Option<u32>, count: usize) -> bool
    ensures { result ≡ option_map_or (λ n. nat_lt n count) number true }
{
    match number {
        None => true,
        Some(n) => (n as usize) < count,
    }
}

// Whether its parent is before it, and its module and its type exist.
fn has_numbers(table: &SchemaTable, number: u32, node: &NodeInfo) -> bool
    ensures { result ≡ spec.has_numbers table.now number node.now }
{
    is_below(node.parent, number as usize)
        && (node.module as usize) < table.modules.items().len()
        && is_below(node.ty, table.types.items().len())
}

fn parent_kind(table: &SchemaTable, node: &NodeInfo) -> Option<Kind>
    ensures { result ≡ spec.parent_kind table.now node.now }
{
    match node.parent {
        None => None,
        Some(parent) => kind_of(table, parent),
    }
}

fn is_under_typed(table: &SchemaTable, node: &NodeInfo) -> bool
    ensures { result ≡ spec.is_under kinds.has_type table.now node.now }
{
    match parent_kind(table, node) {
        None => false,
        Some(kind) => has_type(kind),
    }
}

fn is_under_choice(table: &SchemaTable, node: &NodeInfo) -> bool
    ensures { result ≡ spec.is_under kinds.is_choice table.now node.now }
{
    match parent_kind(table, node) {
        None => false,
        Some(kind) => is_choice(kind),
    }
}

fn is_under_rpc(table: &SchemaTable, node: &NodeInfo) -> bool
    ensures { result ≡ spec.is_under kinds.is_rpc table.now node.now }
{
    match parent_kind(table, node) {
        None => false,
        Some(kind) => is_rpc(kind),
    }
}

// Whether a node of its kind may be below its parent.
fn stands_right(table: &SchemaTable, node: &NodeInfo) -> bool
    ensures { result ≡ spec.stands_right table.now node.now }
{
    !is_under_typed(table, node)
        && agree(is_case(node.kind), is_under_choice(table, node))
        && agree(is_parameters(node.kind), is_under_rpc(table, node))
        && (!is_of_top(node.kind) || node.parent.is_none())
}

// Whether exactly a leaf or leaf-list has a type.
fn has_its_type(node: &NodeInfo) -> bool
    ensures { result ≡ spec.has_its_type node.now }
{
    agree(has_type(node.kind), node.ty.is_some())
}

// Whether the node of this number is one of a schema, except for duplicate names.
fn is_good_node(
    alloc: Global,
    table: &SchemaTable,
    number: u32,
    node: &NodeInfo,
) -> Result<bool, NoMemory>
    ensures { IfOk result (λ b. b ≡ is_good_node table.now number node.now) }
{
    if !has_numbers(table, number, node) {
        return Ok(false);
    }
    if !stands_right(table, node) || !is_identifier(&node.name) || !has_its_type(node) {
        return Ok(false);
    }
    Ok(has_its_keys(alloc, table, number, node)? && has_its_uniques(table, number, node))
}

/// Whether each node is one of a schema, except for duplicate names.
pub(crate) fn are_good_nodes(alloc: Global, table: &SchemaTable) -> Result<bool, NoMemory>
    requires { length table.now.nodes < 2 ^ 32 }
    ensures { IfOk result (λ b. b ≡ all_from (is_good_node table.now) 0 table.now.nodes) }
{
    let nodes = table.nodes.items();
    for (i, node) in nodes.iter().enumerate() {
        if !is_good_node(alloc, table, i as u32, node)? {
            return Ok(false);
        }
    }
    Ok(true)
}
