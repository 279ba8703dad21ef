//! The number of entries of a list.
ghost use Rattle.std.specs.Prelude.{◌≡◌, ◌≤◌, IfOk, length, nat_lt, is_some, if◌then◌else◌};
ghost use Rattle.sal_node.specs.Shape.{tree_at};
ghost use Rattle.sal_tree.specs.Grow.{kids_in};
ghost use Rattle.sal_check.specs.Nodes.{own_steps};

use sal_node::{Child, Node};
use sal_types::NoMemory;
use std::alloc::Global;
use std::sync::Arc;

// One if the child has a cell.
fn own(child: &Child) -> usize
    ensures value { result ≡ (if is_some child.now.node.value.cell then 1 else 0) }
    ensures few { result ≤ 1 }
{
    if child.node.cell.is_some() { 1 } else { 0 }
}

/// How many children have a cell.
pub(crate) fn count(alloc: Global, node: Option<&Arc<Node>>) -> Result<usize, NoMemory>
    ensures { IfOk result (λ n. n ≡ length (own_steps (kids_in (tree_at node.entry)))) }
{
    let Some(node) = node else {
        return Ok(0);
    };
    let children = node.children(alloc)?;
    let mut count = 0;
    for child in &children {
        count += own(child);
    }
    Ok(count)
}

/// Whether more than so many children have a cell. The children of a node that has no more are not read.
pub(crate) fn are_above(
    alloc: Global,
    node: Option<&Arc<Node>>,
    most: usize,
) -> Result<bool, NoMemory>
    ensures { IfOk result (λ b. b ≡ nat_lt most (length (own_steps (kids_in (tree_at node.entry))))) }
{
    if let Some(node) = node {
        if node.has_at_most(most) {
            return Ok(false);
        }
    }
    let entries = count(alloc, node)?;
    Ok(entries > most)
}
