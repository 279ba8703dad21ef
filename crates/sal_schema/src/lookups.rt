//! Properties of nodes by number, also for numbers without a node.
ghost use Rattle.std.specs.Prelude.{◌≡◌, ◌<◌, ◌++◌, length, string_bytes, IfSome, OnOk};
ghost use Rattle.sal_schema.specs.Kinds as kinds;
ghost use Rattle.sal_schema.specs.Table as table;
ghost use Rattle.sal_schema.specs.Lookups as spec;

use crate::kind::Kind;
use crate::schema::Schema;
use std::alloc::AllocError;

/// The module of a node; none if no node has the number.
pub fn module_at(schema: &Schema, node: u32) -> Option<u32>
    ensures module_number { result ≡ table.module_of schema.now node }
    ensures within { IfSome result (λ m. m < length schema.now.modules) }
{
    if node < schema.len() {
        Some(schema.module_of(node))
    } else {
        None
    }
}

/// The type of a leaf or leaf-list; none for another node.
pub fn type_at(schema: &Schema, node: u32) -> Option<u32>
    ensures ty { result ≡ table.type_of schema.now node }
    ensures within { IfSome result (λ ty. ty < length schema.now.types) }
{
    if node < schema.len() {
        schema.type_of(node)
    } else {
        None
    }
}

fn kind_at(schema: &Schema, node: u32) -> Option<Kind>
    ensures { result ≡ table.kind_of schema.now node }
{
    if node < schema.len() {
        Some(schema.kind(node))
    } else {
        None
    }
}

/// The key leafs of a list, in order; none for another node.
pub fn keys_at(schema: &Schema, node: u32) -> &[u32]
    ensures { result.now ≡ table.keys_of schema.now node }
{
    if node < schema.len() {
        schema.keys(node)
    } else {
        &[]
    }
}

/// The name of a node, without its module; empty if no node has the number.
pub fn name_at(schema: &Schema, node: u32) -> &str
    ensures { result.now ≡ table.name_of schema.now node }
{
    if node < schema.len() {
        schema.name_of(node)
    } else {
        ""
    }
}

/// The name of a node's module; empty if no node has the number.
pub fn own_module(schema: &Schema, node: u32) -> &str
    ensures { result.now ≡ spec.own_module schema.now node }
{
    match module_at(schema, node) {
        Some(module) => schema.module_name(module),
        None => "",
    }
}

/// Appends the name of a node's module, a colon and the node's name; a colon alone if no node has the number. It fails only
/// if memory runs out.
pub fn push_full_name(out: &mut String, schema: &Schema, node: u32) -> Result<(), AllocError>
    ensures { OnOk result (string_bytes out.new ≡ string_bytes out.old ++ spec.full_name schema.now node) }
{
    out.push_str(own_module(schema, node))?;
    out.push(':')?;
    out.push_str(name_at(schema, node))
}

/// Whether the node exists and is a leaf.
pub fn is_leaf(schema: &Schema, node: u32) -> bool
    ensures { result ≡ table.is_kind kinds.is_leaf schema.now node }
{
    match kind_at(schema, node) {
        Some(Kind::Leaf) => true,
        _ => false,
    }
}

/// Whether the node exists and is a list.
pub fn is_list(schema: &Schema, node: u32) -> bool
    ensures { result ≡ table.is_kind kinds.is_list schema.now node }
{
    match kind_at(schema, node) {
        Some(Kind::List) => true,
        _ => false,
    }
}

/// Whether the node exists and is a leaf-list.
pub fn is_leaf_list(schema: &Schema, node: u32) -> bool
    ensures { result ≡ table.is_kind kinds.is_leaf_list schema.now node }
{
    match kind_at(schema, node) {
        Some(Kind::LeafList) => true,
        _ => false,
    }
}

/// Whether the node exists and is a list or a leaf-list.
pub fn has_entries(schema: &Schema, node: u32) -> bool
    ensures { result ≡ table.is_kind kinds.has_entries schema.now node }
{
    match kind_at(schema, node) {
        Some(kind) => kind.has_entries(),
        None => false,
    }
}

/// Whether the node exists and is a presence container.
pub fn is_presence(schema: &Schema, node: u32) -> bool
    ensures { result ≡ table.is_kind kinds.is_presence schema.now node }
{
    match kind_at(schema, node) {
        Some(Kind::Container { presence }) => presence,
        _ => false,
    }
}
