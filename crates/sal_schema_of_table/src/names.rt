//! Whether each name of a table has one meaning (RFC 7950 section 6.2.1).
ghost use Rattle.std.specs.Prelude.{◌≡◌, IfOk};
ghost use Rattle.std.specs.List.{flat_map};
ghost use Rattle.sal_schema.specs.Names as names;
ghost use Rattle.sal_schema.specs.Names.{are_distinct};
ghost use Rattle.sal_schema_of_table.specs.Keys as spec;
ghost use Rattle.sal_schema_of_table.specs.Whole.{has_distinct_names};

use crate::climb::data_node;
use crate::distinct::all_differ;
use sal_schema::{IdentityInfo, Kind, NodeInfo, SchemaTable};
use sal_types::{Duplicate, NoMemory, Str};
use std::alloc::Global;

/// A name of a module, below a node or at the top.
#[derive(Drop, PartialEq, Eq, PartialOrd, Ord)]
pub(crate) struct Key {
    pub(crate) parent: Option<u32>,
    pub(crate) module: u32,
    pub(crate) text: Str,
}

fn key_of(parent: Option<u32>, module: u32, text: &Str) -> Result<Key, NoMemory>
    ensures { IfOk result (λ it. it ≡ spec.key parent «module» text.now) }
{
    let text = text.copy()?;
    Ok(Key {
        parent,
        module,
        text,
    })
}

fn module_keys(alloc: Global, modules: &[Str]) -> Result<Vec<Key>, NoMemory>
    ensures { IfOk result (λ r. r.items ≡ flat_map spec.module_key modules.now) }
{
    let mut list = Vec::with_capacity(alloc, modules.len())?;
    for text in modules {
        list.push(key_of(None, 0, text)?)?;
    }
    Ok(list)
}

fn identity_keys(alloc: Global, identities: &[IdentityInfo]) -> Result<Vec<Key>, NoMemory>
    ensures { IfOk result (λ r. r.items ≡ flat_map spec.identity_key identities.now) }
{
    let mut list = Vec::with_capacity(alloc, identities.len())?;
    for identity in identities {
        list.push(key_of(None, identity.module, &identity.name)?)?;
    }
    Ok(list)
}

fn kind_keys(alloc: Global, kind: Kind, nodes: &[NodeInfo]) -> Result<Vec<Key>, NoMemory>
    ensures { IfOk result (λ r. r.items ≡ flat_map (spec.kind_key kind) nodes.now) }
{
    let mut list = Vec::new(alloc);
    for node in nodes {
        if node.kind == kind {
            list.push(key_of(None, node.module, &node.name)?)?;
        }
    }
    Ok(list)
}

fn data_keys(alloc: Global, table: &SchemaTable) -> Result<Vec<Key>, NoMemory>
    ensures { IfOk result (λ r. r.items ≡ flat_map (spec.data_key table.now) table.now.nodes) }
{
    let nodes = table.nodes.items();
    let mut list = Vec::with_capacity(alloc, nodes.len())?;
    for node in nodes {
        if node.kind.is_data() {
            let parent = data_node(table, node.parent);
            list.push(key_of(parent, node.module, &node.name)?)?;
        }
    }
    Ok(list)
}

fn modules_differ(alloc: Global, table: &SchemaTable) -> Result<bool, NoMemory>
    ensures { IfOk result (λ b. b ≡ are_distinct (names.module_names table.now)) }
{
    let keys = module_keys(alloc, table.modules.items())?;
    all_differ(alloc, &keys)
}

fn identities_differ(alloc: Global, table: &SchemaTable) -> Result<bool, NoMemory>
    ensures { IfOk result (λ b. b ≡ are_distinct (names.identity_names table.now)) }
{
    let keys = identity_keys(alloc, table.identities.items())?;
    all_differ(alloc, &keys)
}

fn kinds_differ(alloc: Global, table: &SchemaTable, kind: Kind) -> Result<bool, NoMemory>
    ensures { IfOk result (λ b. b ≡ are_distinct (names.kind_names kind table.now)) }
{
    let keys = kind_keys(alloc, kind, table.nodes.items())?;
    all_differ(alloc, &keys)
}

fn data_differ(alloc: Global, table: &SchemaTable) -> Result<bool, NoMemory>
    ensures { IfOk result (λ b. b ≡ are_distinct (names.data_names table.now)) }
{
    let keys = data_keys(alloc, table)?;
    all_differ(alloc, &keys)
}

/// Whether each name has one meaning: of a module, of an RPC, a notification and an identity of a module, and of a
/// data node below its data parent.
pub(crate) fn has_distinct_names(alloc: Global, table: &SchemaTable) -> Result<bool, NoMemory>
    ensures { IfOk result (λ b. b ≡ has_distinct_names table.now) }
{
    if !modules_differ(alloc, table)? || !identities_differ(alloc, table)? {
        return Ok(false);
    }
    if !kinds_differ(alloc, table, Kind::Rpc)? {
        return Ok(false);
    }
    Ok(kinds_differ(alloc, table, Kind::Notification)? && data_differ(alloc, table)?)
}
