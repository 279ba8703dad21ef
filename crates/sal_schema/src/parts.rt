//! The children and data parent of each node of a table, and the names of its parts, as lists.
ghost use Rattle.std.specs.Prelude.{◌≡◌, ◌<◌, ◌≤◌, ◌^◌, None, IfOk, IfSome, length};
ghost use Rattle.sal_schema.specs.Indexed as indexed;
ghost use Rattle.sal_schema.specs.Names as spec;
ghost use Rattle.sal_schema.specs.Table.{children_in, each_from};
ghost use Rattle.sal_schema.specs.Valid.{IsTable};

use crate::kind::Kind;
use crate::lists::{add_to_list, empty_lists};
use crate::names::{Name, Named};
use crate::table::{IdentityInfo, NodeInfo, SchemaTable};
use sal_types::{Duplicate, NoMemory, Str};
use std::alloc::Global;

/// The top-level nodes, and the children of each node.
#[derive(Drop)]
pub(crate) struct Children {
    pub(crate) top: Vec<u32>,
    pub(crate) below: Vec<Vec<u32>>,
}

/// The children of each node, in order.
pub(crate) fn children_of(alloc: Global, table: &SchemaTable) -> Result<Children, NoMemory>
    requires { IsTable table.now }
    ensures top { IfOk result (λ r. r.top.items ≡ children_in 0 table.now.nodes None) }
    ensures below { IfOk result (λ r. indexed.AreChildren table.now.nodes r.below.items) }
    ensures count { IfOk result (λ r. length r.below.items ≡ length table.now.nodes) }
{
    let nodes = table.nodes.items();
    let mut top = Vec::new(alloc);
    let mut below = empty_lists(alloc, nodes.len())?;
    for (i, node) in nodes.iter().enumerate() {
        match node.parent {
            None => top.push(i as u32)?,
            Some(parent) => add_to_list(&mut below, parent as usize, i as u32)?,
        }
    }
    Ok(Children { top, below })
}

// The data parent of the children of this node, by the data parents of the nodes before.
fn passed_over(nodes: &[NodeInfo], done: &[Option<u32>], parent: Option<u32>) -> Option<u32>
    requires known { IfSome parent (λ p. p < length done.now) }
    requires count { length done.now ≤ length nodes.now }
    ensures { result ≡ indexed.passed_over nodes.now done.now parent }
{
    let Some(number) = parent else {
        return None;
    };
    if nodes[number as usize].kind.is_choice_or_case() {
        done[number as usize]
    } else {
        parent
    }
}

/// The data parent of each node.
pub(crate) fn data_parents(alloc: Global, table: &SchemaTable) -> Result<Vec<Option<u32>>, NoMemory>
    requires { IsTable table.now }
    ensures { IfOk result (λ r. r.items ≡ indexed.data_parents table.now) }
{
    let nodes = table.nodes.items();
    let mut list = Vec::with_capacity(alloc, nodes.len())?;
    for node in nodes {
        let parent = passed_over(nodes, &list, node.parent);
        list.push(parent)?;
    }
    Ok(list)
}

fn entry(parent: Option<u32>, module: u32, text: &Str, number: u32) -> Result<Named, NoMemory>
    ensures { IfOk result (λ it. it ≡ spec.named parent «module» text.now number) }
{
    let text = text.copy()?;
    Ok(Named {
        name: Name {
            parent,
            module,
            text,
        },
        number,
    })
}

/// The names of the modules.
pub(crate) fn module_names(alloc: Global, modules: &[Str]) -> Result<Vec<Named>, NoMemory>
    requires { length modules.now < 2 ^ 32 }
    ensures { IfOk result (λ r. r.items ≡ each_from spec.module_at 0 modules.now) }
{
    let mut list = Vec::with_capacity(alloc, modules.len())?;
    for (i, text) in modules.iter().enumerate() {
        list.push(entry(None, 0, text, i as u32)?)?;
    }
    Ok(list)
}

/// The names of the identities.
pub(crate) fn identity_names(
    alloc: Global,
    identities: &[IdentityInfo],
) -> Result<Vec<Named>, NoMemory>
    requires { length identities.now < 2 ^ 32 }
    ensures { IfOk result (λ r. r.items ≡ each_from spec.identity_at 0 identities.now) }
{
    let mut list = Vec::with_capacity(alloc, identities.len())?;
    for (i, identity) in identities.iter().enumerate() {
        list.push(entry(None, identity.module, &identity.name, i as u32)?)?;
    }
    Ok(list)
}

/// The names of the nodes of a kind.
pub(crate) fn kind_names(
    alloc: Global,
    kind: Kind,
    nodes: &[NodeInfo],
) -> Result<Vec<Named>, NoMemory>
    requires { length nodes.now < 2 ^ 32 }
    ensures { IfOk result (λ r. r.items ≡ each_from (spec.kind_at kind) 0 nodes.now) }
{
    let mut list = Vec::new(alloc);
    for (i, node) in nodes.iter().enumerate() {
        if node.kind == kind {
            list.push(entry(None, node.module, &node.name, i as u32)?)?;
        }
    }
    Ok(list)
}

/// The names of the nodes for data, each below its data parent.
pub(crate) fn data_names(
    alloc: Global,
    table: &SchemaTable,
    parents: &[Option<u32>],
) -> Result<Vec<Named>, NoMemory>
    requires few { length table.now.nodes < 2 ^ 32 }
    requires known { parents.now ≡ indexed.data_parents table.now }
    ensures { IfOk result (λ r. r.items ≡ spec.data_names table.now) }
{
    let nodes = table.nodes.items();
    let mut list = Vec::with_capacity(alloc, nodes.len())?;
    for (i, node) in nodes.iter().enumerate() {
        if node.kind.is_data() {
            list.push(entry(parents[i], node.module, &node.name, i as u32)?)?;
        }
    }
    Ok(list)
}
