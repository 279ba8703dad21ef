//! The parts of a node, and nodes with one part replaced.
ghost use Rattle.std.specs.Prelude.{◌≡◌, ◌≤◌, ◌↔◌, IsTrue, length, Option, Some, None, T, IfOk, IfSome};
ghost use Rattle.std.specs.Prelude.{nat_eq};
ghost use Rattle.std.specs.List.{filter, list_any};
ghost use Rattle.std.specs.FinMap.{find, is_sorted};
ghost use Rattle.sal_types.specs.Order.{step_cmp};
ghost use Rattle.sal_node.specs.Tree.{Tree, Forest, change, pairs, grove, kid_at, bare, is_filled};
ghost use Rattle.sal_node.specs.Shape.{tree_in, tree_at, seen};

use crate::node::{Child, Node, Paging};
use crate::paging::{
    all_children, are_at_most, changed_paging, child_of, has_children, made_children, shared_paging,
};
use sal_types::{Cell, Duplicate, NoMemory, Step};
use std::alloc::Global;
use std::sync::Arc;

impl Node {
    /// The child at the step, if there is one. It takes no memory.
    pub fn child(&self, step: &Step) -> Option<&Arc<Node>>
        requires { T (is_sorted step_cmp (pairs self.now.kids)) }
        ensures { tree_at result ≡ kid_at self.now.kids step.now }
    {
        child_of(&self.paging, step)
    }

    /// The node with another child at the step, or with none there. Its cell and its other children are the same, and its
    /// stamp is the given one.
    pub fn with_child(
        &self,
        alloc: Global,
        step: &Step,
        node: Option<Arc<Node>>,
        stamp: u64,
    ) -> Result<Node, NoMemory>
        requires { T (is_sorted step_cmp (pairs self.now.kids)) }
        ensures { IfOk result (λ n. n ≡ record { stamp = stamp; cell = self.now.cell; kids = grove (change step.now (tree_in node) (pairs self.now.kids)) }) }
    {
        let cell = copy_cell(&self.cell)?;
        let paging = changed_paging(alloc, &self.paging, step, node)?;
        let changed = Node {
            stamp,
            cell,
            paging,
        };
        Ok(changed)
    }

    /// The node with another cell, or with none. Its children are the same, and its stamp is the given one.
    pub fn with_cell(&self, alloc: Global, cell: Option<Cell>, stamp: u64) -> Result<Node, NoMemory>
        ensures { IfOk result (λ n. n ≡ record { stamp = stamp; cell = cell; kids = self.now.kids }) }
    {
        let paging = shared_paging(alloc, &self.paging)?;
        let with_cell = Node {
            stamp,
            cell,
            paging,
        };
        Ok(with_cell)
    }

    /// Whether it has at most so many children, by the lengths of its pages. It takes no memory.
    pub fn has_at_most(&self, most: usize) -> bool
        ensures { IsTrue result ↔ (length (pairs self.now.kids) ≤ most) }
    {
        are_at_most(&self.paging, most)
    }

    /// Its children, in order.
    pub fn children(&self, alloc: Global) -> Result<Vec<&Child>, NoMemory>
        ensures { IfOk result (λ v. seen v.items ≡ pairs self.entry.now.kids) }
    {
        let list = all_children(alloc, &self.paging)?;
        Ok(list)
    }

    /// Its children with one of the stamps, in order. It skips pages whose children all have smaller stamps.
    pub fn children_with<'a>(
        &'a self,
        alloc: Global,
        stamps: &[u64],
    ) -> Result<Vec<&'a Child>, NoMemory>
        ensures { IfOk result (λ v. seen v.items ≡ filter (λ e. list_any (nat_eq e.1.stamp) stamps.now) (pairs self.entry.now.kids)) }
    {
        let list = made_children(alloc, &self.paging, stamps)?;
        Ok(list)
    }

    /// The stamp of the change that made it. It takes no memory.
    pub fn stamp(&self) -> u64
        ensures { result ≡ self.now.stamp }
    {
        self.stamp
    }

    /// Whether it has a cell or children. It takes no memory.
    pub fn is_filled(&self) -> bool
        ensures { result ≡ is_filled self.now.cell self.now.kids }
    {
        self.cell.is_some() || has_children(&self.paging)
    }

    /// A node without children. It takes no memory.
    pub fn new(alloc: Global, cell: Option<Cell>, stamp: u64) -> Node
        ensures { result ≡ record { stamp = stamp; cell = cell; kids = bare } }
    {
        Node {
            stamp,
            cell,
            paging: Paging::Few(Vec::new(alloc)),
        }
    }
}

/// A copy of an optional cell.
pub fn copy_cell(cell: &Option<Cell>) -> Result<Option<Cell>, NoMemory>
    ensures { IfOk result (λ it. it ≡ cell.now) }
{
    match cell {
        None => Ok(None),
        Some(cell) => Ok(Some(cell.copy()?)),
    }
}
