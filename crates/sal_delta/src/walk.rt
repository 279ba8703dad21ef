//! The changes between two nodes.
ghost use Rattle.std.specs.Prelude.{◌≡◌, ◌++◌, length, Option, Some, None, IfOk, OnOk};
ghost use Rattle.sal_types.specs.declared.value.Cell.{Cell};
ghost use Rattle.sal_node.specs.Shape.{tree_at};
ghost use Rattle.sal_tree.specs.Grow.{cell_in};
ghost use Rattle.sal_tree.specs.Rows.{here};
ghost use Rattle.sal_rows.specs.Changes.{same_cell};
ghost use Rattle.sal_delta.specs.Merge.{merge, rows_at, moved};
ghost use Rattle.sal_delta.specs.Spots.{Stands, AgreeFrom};

use crate::compare::differing;
use sal_node::{Node, copy_cell};
use sal_rows::Change;
use sal_tree::longer;
use sal_types::{Cell, Duplicate, NoMemory, Path};
use std::sync::Arc;

/// Appends the changes between two nodes at the path, and below them.
pub(crate) fn walk(
    into: &mut Vec<Change>,
    path: &Path,
    before: Option<&Arc<Node>>,
    after: Option<&Arc<Node>>,
) -> Result<(), NoMemory>
    requires before { Stands (tree_at before) (length path.now) }
    requires after { Stands (tree_at after) (length path.now) }
    requires agree { AgreeFrom (tree_at before) (tree_at after) }
    ensures { OnOk result (into.new.items ≡ into.old.items ++ moved path.now (merge (rows_at (tree_at before.entry)) (rows_at (tree_at after.entry)))) }
{
    note_cells(into, path, before, after)?;
    let places = differing(*into.allocator(), before, after)?;
    for place in &places {
        let below = longer(path, place.step)?;
        walk(into, &below, place.before, place.after)?;
    }
    Ok(())
}

/// Appends the change of the cells at the path, if they differ.
pub(crate) fn note_cells(
    into: &mut Vec<Change>,
    path: &Path,
    before: Option<&Arc<Node>>,
    after: Option<&Arc<Node>>,
) -> Result<(), NoMemory>
    ensures { OnOk result (into.new.items ≡ into.old.items ++ moved path.now (merge (here (cell_in (tree_at before.entry))) (here (cell_in (tree_at after.entry))))) }
{
    let before = cell_of(before)?;
    let after = cell_of(after)?;
    note(into, path, before, after)?;
    Ok(())
}

// A copy of the cell of a node, if there is one.
fn cell_of(node: Option<&Arc<Node>>) -> Result<Option<Cell>, NoMemory>
    ensures { IfOk result (λ c. c ≡ cell_in (tree_at node.entry)) }
{
    match node {
        None => Ok(None),
        Some(node) => {
            let cell = copy_cell(&node.cell)?;
            Ok(cell)
        }
    }
}

fn note(
    into: &mut Vec<Change>,
    path: &Path,
    before: Option<Cell>,
    after: Option<Cell>,
) -> Result<(), NoMemory>
    ensures { OnOk result (into.new.items ≡ into.old.items ++ moved path.now (merge (here before) (here after))) }
{
    if is_same(&before, &after) {
        return Ok(());
    }
    let path = path.copy()?;
    into.push(Change {
        path,
        before,
        after,
    })?;
    Ok(())
}

// Whether both have the same cell, or neither has one.
pub(crate) fn is_same(before: &Option<Cell>, after: &Option<Cell>) -> bool
    ensures { result ≡ same_cell before.now after.now }
{
    match (before, after) {
        (None, None) => true,
        (Some(before), Some(after)) => before.cmp(after).is_eq(),
        _ => false,
    }
}
