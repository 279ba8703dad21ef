//! Trees after one operation.
ghost use Rattle.std.specs.Prelude.{◌≡◌, ◌<◌, List, length, IfOk, Some};
ghost use Rattle.sal_types.specs.declared.value.Step.{Step};
ghost use Rattle.sal_types.specs.declared.value.Store.{Store};
ghost use Rattle.sal_types.specs.Tree.{cell, under, IsAscending};
ghost use Rattle.sal_rows.specs.Apply.{act_setting, cell_by, apply_ops};
ghost use Rattle.sal_rows.specs.declared.op.Act.TheVariants.{Put, Merge, Delete};
ghost use Rattle.sal_node.specs.Shape.{tree_at, tree_in};
ghost use Rattle.sal_tree.specs.Grow.{at};
ghost use Rattle.sal_tree.specs.Rows.{rows_of};
ghost use Rattle.sal_tree.specs.Follows.{Follows, exactly};
ghost use Rattle.sal_tree.specs.Touched.{act_touches, one_op};
ghost use Rattle.sal_tree.specs.Edit.{with_row, with_rows, without, kids_at, root_of};

use crate::building::build;
use crate::growth::grown;
use crate::root::Root;
use sal_node::Node;
use sal_rows::Rows;
use sal_types::{Cell, Duplicate, NoMemory, Path, Row};
use std::alloc::Global;
use std::sync::Arc;

impl Root {
    /// The tree with the rows in place of all at and below the path.
    ///
    /// The nodes where it adds or removes a row, and those above them, have the stamp; every other node is shared.
    pub fn put(&self, alloc: Global, path: &Path, rows: &Rows, stamp: u64) -> Result<Root, NoMemory>
        requires { under rows.now path.now ≡ rows.now }
        ensures cells { IfOk result (λ r. (q : List Step) → cell (rows_of r) q ≡ cell_by (act_setting path.now (Put rows.now) q) (cell (rows_of self.now) q)) }
        ensures rows { IfOk result (λ r. (s : Store) → rows_of r ≡ apply_ops (rows_of self.now) s (one_op s path.now (Put rows.now))) }
        ensures stamps { IfOk result (λ r. Follows (exactly stamp) (act_touches (rows_of self.now) path.now (Put rows.now)) self.now r) }
    {
        // For the proof alone: `node` says that the tree is whole.
        let _ = self.node();
        if rows.items().is_empty() {
            let after = self.cleared(alloc, path, stamp)?;
            return Ok(after);
        }
        let after = self.with_built(alloc, path, rows.items(), stamp)?;
        Ok(after)
    }

    /// The tree with the cells of the rows; all other rows stay.
    ///
    /// The nodes of the rows, and those above them, have the stamp; every other node is shared.
    pub fn merge(
        &self,
        alloc: Global,
        path: &Path,
        rows: &Rows,
        stamp: u64,
    ) -> Result<Root, NoMemory>
        requires { under rows.now path.now ≡ rows.now }
        ensures cells { IfOk result (λ r. (q : List Step) → cell (rows_of r) q ≡ cell_by (act_setting path.now (Merge rows.now) q) (cell (rows_of self.now) q)) }
        ensures rows { IfOk result (λ r. (s : Store) → rows_of r ≡ apply_ops (rows_of self.now) s (one_op s path.now (Merge rows.now))) }
        ensures stamps { IfOk result (λ r. Follows (exactly stamp) (act_touches (rows_of self.now) path.now (Merge rows.now)) self.now r) }
    {
        // For the proof alone: `node` says that the tree is whole.
        let _ = self.node();
        // Only the contract uses the path.
        let _ = path;
        let after = self.with_rows(alloc, rows.items(), stamp)?;
        Ok(after)
    }

    /// The tree without all at and below the path.
    ///
    /// The nodes above what it removes have the stamp; every other node is shared. If there is nothing at the path it
    /// is the whole tree, shared.
    pub fn delete(&self, alloc: Global, path: &Path, stamp: u64) -> Result<Root, NoMemory>
        ensures cells { IfOk result (λ r. (q : List Step) → cell (rows_of r) q ≡ cell_by (act_setting path.now Delete q) (cell (rows_of self.now) q)) }
        ensures rows { IfOk result (λ r. (s : Store) → rows_of r ≡ apply_ops (rows_of self.now) s (one_op s path.now Delete)) }
        ensures stamps { IfOk result (λ r. Follows (exactly stamp) (act_touches (rows_of self.now) path.now Delete) self.now r) }
    {
        // For the proof alone: `node` says that the tree is whole.
        let _ = self.node();
        let after = self.cleared(alloc, path, stamp)?;
        Ok(after)
    }

    // The tree without the node at the path, or the same tree if it has no row there.
    fn cleared(&self, alloc: Global, path: &Path, stamp: u64) -> Result<Root, NoMemory>
        ensures { IfOk result (λ r. r ≡ without stamp self.now path.now) }
    {
        if !self.exists(path) {
            let same = self.copy()?;
            return Ok(same);
        }
        let node = grown(alloc, Some(self.node()), path.steps(), None, stamp)?;
        let node = rooted(alloc, node, stamp)?;
        Ok(Root::from_node(node))
    }

    // The tree with a node made of the rows in place of the one at the path.
    fn with_built(
        &self,
        alloc: Global,
        path: &Path,
        rows: &[Row],
        stamp: u64,
    ) -> Result<Root, NoMemory>
        requires some { 0 < length rows.now }
        requires under { under rows.now path.now ≡ rows.now }
        requires order { IsAscending rows.now }
        ensures cells { IfOk result (λ r. (q : List Step) → cell (rows_of r) q ≡ cell_by (act_setting path.now (Put rows.now) q) (cell (rows_of self.now) q)) }
        ensures rows { IfOk result (λ r. (s : Store) → rows_of r ≡ apply_ops (rows_of self.now) s (one_op s path.now (Put rows.now))) }
        ensures stamps { IfOk result (λ r. Follows (exactly stamp) (act_touches (rows_of self.now) path.now (Put rows.now)) self.now r) }
    {
        // For the proof alone: `node` says that the tree is whole.
        let _ = self.node();
        let steps = path.steps();
        let built = build(alloc, rows, steps.len(), stamp)?;
        let built = Arc::new(alloc, built)?;
        let node = grown(alloc, Some(self.node()), steps, Some(built), stamp)?;
        let node = rooted(alloc, node, stamp)?;
        Ok(Root::from_node(node))
    }

    // The tree with each row set, one after another.
    fn with_rows(&self, alloc: Global, rows: &[Row], stamp: u64) -> Result<Root, NoMemory>
        ensures { IfOk result (λ r. r ≡ with_rows stamp self.now rows.now) }
    {
        let mut root = self.copy()?;
        for row in rows {
            root = root.with_row(alloc, row, stamp)?;
        }
        Ok(root)
    }

    // The tree with the cell of the row at its path.
    fn with_row(&self, alloc: Global, row: &Row, stamp: u64) -> Result<Root, NoMemory>
        ensures { IfOk result (λ r. r ≡ with_row stamp self.now row.now) }
    {
        let cell = row.cell.copy()?;
        let node = celled(alloc, self.get(&row.path), cell, stamp)?;
        let node = Arc::new(alloc, node)?;
        let node = grown(
            alloc,
            Some(self.node()),
            row.path.steps(),
            Some(node),
            stamp,
        )?;
        let node = rooted(alloc, node, stamp)?;
        Ok(Root::from_node(node))
    }
}

// A node with the cell and with the children of the old node.
fn celled(alloc: Global, old: Option<&Arc<Node>>, cell: Cell, stamp: u64) -> Result<Node, NoMemory>
    ensures { IfOk result (λ n. n ≡ record { stamp = stamp; cell = Some cell; kids = kids_at (tree_at old.entry) }) }
{
    match old {
        None => Ok(Node::new(alloc, Some(cell), stamp)),
        Some(node) => {
            let node = node.with_cell(alloc, Some(cell), stamp)?;
            Ok(node)
        }
    }
}

// The node, or an empty one.
fn rooted(alloc: Global, node: Option<Arc<Node>>, stamp: u64) -> Result<Arc<Node>, NoMemory>
    ensures { IfOk result (λ n. n.value ≡ root_of stamp (tree_in node)) }
{
    match node {
        Some(node) => Ok(node),
        None => {
            let node = Arc::new(alloc, Node::new(alloc, None, stamp))?;
            Ok(node)
        }
    }
}
