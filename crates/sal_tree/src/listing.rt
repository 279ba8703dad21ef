//! The rows of a tree.
ghost use Rattle.std.specs.Prelude.{◌≡◌, ◌+◌, ◌≤◌, ◌<◌, ◌++◌, [], ◌∷◌, length, IfOk, OnOk};
ghost use Rattle.sal_types.specs.Tree.{under, IsAscending};
ghost use Rattle.sal_node.specs.Tree.{height};
ghost use Rattle.sal_tree.specs.Rows.{here, rows_of, from_path};

use crate::root::Root;
use sal_node::Node;
use sal_rows::Rows;
use sal_types::{Duplicate, NoMemory, Path, PathFault, Row, Step};
use std::alloc::Global;

impl Root {
    /// The rows at the path and below it.
    pub fn rows(&self, alloc: Global, path: &Path) -> Result<Rows, NoMemory>
        ensures { IfOk result (λ rows. rows ≡ under (rows_of self.now) path.now) }
    {
        let list = self.listed(alloc, path)?;
        match Rows::from_list(list) {
            Ok(rows) => Ok(rows),
            Err(_) => unreachable!(),
        }
    }

    // The rows at the path and below it, as a list.
    fn listed(&self, alloc: Global, path: &Path) -> Result<Vec<Row>, NoMemory>
        ensures rows { IfOk result (λ list. list.items ≡ under (rows_of self.now) path.now) }
        ensures order { IfOk result (λ list. IsAscending list.items) }
    {
        // For the proof alone: `node` says that the tree is whole, and `steps` that a path is short.
        let _ = self.node();
        let _ = path.steps();
        let mut list = Vec::new(alloc);
        let Some(node) = self.get(path) else {
            return Ok(list);
        };
        list_rows(alloc, &mut list, node, path)?;
        Ok(list)
    }
}

// Appends the rows at and below the node, whose path is given.
fn list_rows(alloc: Global, into: &mut Vec<Row>, node: &Node, path: &Path) -> Result<(), NoMemory>
    requires { height node.now.kids + length path.now ≤ 32 }
    ensures { OnOk result (into.new.items ≡ into.old.items ++ from_path path.now (rows_of node.now)) }
{
    list_cell(into, node, path)?;
    let children = node.children(alloc)?;
    for child in &children {
        let below = longer(path, &child.step)?;
        list_rows(alloc, into, &child.node, &below)?;
    }
    Ok(())
}

// Appends the row of a node, if it has a cell.
fn list_cell(into: &mut Vec<Row>, node: &Node, path: &Path) -> Result<(), NoMemory>
    ensures { OnOk result (into.new.items ≡ into.old.items ++ from_path path.now (here node.now.cell)) }
{
    match &node.cell {
        None => Ok(()),
        Some(cell) => {
            let path = path.copy()?;
            let cell = cell.copy()?;
            into.push(Row { path, cell })?;
            Ok(())
        }
    }
}

/// The path with one more step.
pub fn longer(path: &Path, step: &Step) -> Result<Path, NoMemory>
    requires { length path.now < 32 }
    ensures { IfOk result (λ p. p ≡ path.now ++ step.now ∷ []) }
{
    let mut below = path.copy()?;
    let step = step.copy()?;
    match below.push(step) {
        Ok(()) => Ok(below),
        Err(PathFault::NoMemory) => Err(NoMemory),
        Err(PathFault::TooDeep) => unreachable!(),
    }
}
