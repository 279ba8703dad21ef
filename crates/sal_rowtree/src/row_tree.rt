//! Rows in the nodes of a tree.
ghost use Rattle.std.specs.Prelude.{◌≡◌, ◌++◌, ◌∷◌, [], None, IfOk, OnOk};
ghost use Rattle.std.specs.Option.{option_map};
ghost use Rattle.sal_types.specs.Tree.{cell, has, under, IsAscending};
ghost use Rattle.sal_rows.specs.Edits.{set_row};
ghost use Rattle.sal_rows.specs.Patch.{with_cell};
ghost use Rattle.sal_types.specs.declared.value.Step.TheVariants.{Node as AtNode};
ghost use Rattle.sal_node.specs.Shape.{tree_at};
ghost use Rattle.sal_tree.specs.Grow.{cell_in};
ghost use Rattle.sal_tree.specs.Rows.{rows_of};

use sal_node::Node;
use sal_rows::{Patch, Rows};
use sal_tree::{Root, child_of, is_present, reached};
use sal_types::{Cell, Duplicate, NoMemory, Path, Row, Step};
use std::alloc::Global;
use std::marker::Model;
use std::sync::Arc;

/// Rows in the nodes of a tree. A contract sees them in the order of their paths.
pub struct RowTree {
    root: Root,
}

impl Drop for RowTree {
    fn drop(self) {
        let RowTree { root: _ } = self;
    }
}

impl Model for RowTree {
    ghost use Rattle.std.specs.Prelude.{List};
    ghost use Rattle.sal_types.specs.declared.row.Row.{Row};
    ghost use Rattle.sal_tree.specs.Rows.{rows_of};

    ghost Value = { List Row };

    ghost view = { λ a. rows_of a.root };
}

impl RowTree {
    /// No rows.
    pub fn empty(alloc: Global) -> Result<RowTree, NoMemory>
        ensures { IfOk result (λ t. t ≡ []) }
    {
        let root = Root::empty(alloc)?;
        Ok(RowTree { root })
    }

    /// A tree of these rows.
    pub fn from_rows(alloc: Global, rows: &Rows) -> Result<RowTree, NoMemory>
        ensures { IfOk result (λ t. t ≡ rows.now) }
    {
        let root = Root::from_rows(alloc, rows, 0)?;
        Ok(RowTree { root })
    }

    /// The rows as a tree of nodes. It takes no memory.
    pub fn root(&self) -> &Root
        ensures rows { rows_of result.now ≡ self.now }
        ensures ascending { IsAscending self.now }
    {
        // For the proof alone: it says that the tree is whole.
        let _ = self.root.node();
        &self.root
    }

    /// The rows as a list.
    pub fn rows(&self, alloc: Global) -> Result<Rows, NoMemory>
        ensures { IfOk result (λ rows. rows ≡ self.now) }
    {
        let rows = self.root.rows(alloc, &Path::root(alloc))?;
        Ok(rows)
    }

    /// The cell of the row at these steps. It takes no memory.
    pub fn cell_at(&self, steps: &[Step]) -> Option<&Cell>
        ensures { option_map (λ c. c.now) result ≡ cell self.now steps.now }
    {
        cell_of(reached(Some(self.root.node()), steps))
    }

    /// The cell of the row at this node below these steps. It takes no memory.
    pub fn cell_below(&self, steps: &[Step], node: u32) -> Option<&Cell>
        ensures { option_map (λ c. c.now) result ≡ cell self.now (steps.now ++ AtNode node ∷ []) }
    {
        let above = reached(Some(self.root.node()), steps);
        cell_of(child_of(above, &Step::Node(node)))
    }

    /// Whether there is a row at these steps or below them. It takes no memory.
    pub fn has(&self, steps: &[Step]) -> bool
        ensures { result ≡ has self.now steps.now }
    {
        is_present(reached(Some(self.root.node()), steps))
    }

    /// The rows with the cell at the path, or without the row at it; all other rows stay.
    pub fn with_cell(
        &self,
        alloc: Global,
        path: &Path,
        cell: &Option<Cell>,
    ) -> Result<RowTree, NoMemory>
        ensures { IfOk result (λ t. t ≡ with_cell self.now path.now cell.now) }
    {
        let root = match cell {
            None => removed(alloc, &self.root, path)?,
            Some(cell) => set(alloc, &self.root, path, cell)?,
        };
        Ok(RowTree { root })
    }
}

impl Duplicate for RowTree {
    fn copy(&self) -> Result<RowTree, NoMemory> {
        let root = self.root.copy()?;
        Ok(RowTree { root })
    }
}

// The cell of a node, if there is a node with one.
fn cell_of(node: Option<&Arc<Node>>) -> Option<&Cell>
    ensures { option_map (λ c. c.now) result ≡ cell_in (tree_at node.entry) }
{
    match node {
        Some(node) => node.cell.as_ref(),
        None => None,
    }
}

// The tree with the cell at the path.
fn set(alloc: Global, root: &Root, path: &Path, cell: &Cell) -> Result<Root, NoMemory>
    ensures { IfOk result (λ t. rows_of t ≡ set_row (rows_of root.now) (record { path = path.now; cell = cell.now })) }
{
    // For the proof alone: it says that the tree is whole.
    let _ = root.node();
    let row = row_of(path, cell)?;
    let rows = Rows::of_one(alloc, row)?;
    let after = root.merge(alloc, path, &rows, 0)?;
    Ok(after)
}

fn row_of(path: &Path, cell: &Cell) -> Result<Row, NoMemory>
    ensures { IfOk result (λ row. row ≡ record { path = path.now; cell = cell.now }) }
{
    let path = path.copy()?;
    let cell = cell.copy()?;
    Ok(Row { path, cell })
}

// The tree without the row at the path; the rows below it stay.
fn removed(alloc: Global, root: &Root, path: &Path) -> Result<Root, NoMemory>
    ensures { IfOk result (λ t. rows_of t ≡ with_cell (rows_of root.now) path.now None) }
{
    // For the proof alone: it says that the tree is whole.
    let _ = root.node();
    let rows = rows_below(alloc, root, path)?;
    let after = root.put(alloc, path, &rows, 0)?;
    Ok(after)
}

// The rows below the path.
fn rows_below(alloc: Global, root: &Root, path: &Path) -> Result<Rows, NoMemory>
    ensures { IfOk result (λ rows. rows ≡ with_cell (under (rows_of root.now) path.now) path.now None) }
{
    let mut rows = root.rows(alloc, path)?;
    take_out(alloc, &mut rows, path)?;
    Ok(rows)
}

// Removes the row at the path.
fn take_out(alloc: Global, rows: &mut Rows, path: &Path) -> Result<(), NoMemory>
    ensures { OnOk result (rows.new ≡ with_cell rows.old path.now None) }
{
    let path = path.copy()?;
    let mut patches = Vec::new(alloc);
    patches.push(Patch { path, cell: None })?;
    rows.patch(patches)?;
    Ok(())
}
