//! Builds a tree from its rows, from the leafs up.
ghost use Rattle.std.specs.Prelude.{◌≡◌, ◌+◌, ◌≤◌, ◌<◌, ◌++◌, ◌∷◌, [], length, take, drop, IfOk};
ghost use Rattle.sal_types.specs.Tree.{IsAscending};
ghost use Rattle.sal_tree.specs.Rows.{rows_of, from_depth, first_cell, other_rows, begins, leading, is_root};
ghost use Rattle.sal_tree.specs.Built.{IsBuilt};
ghost use Rattle.sal_tree.specs.Follows.{IsStamped};

use crate::root::Root;
use sal_node::{Builder, Node};
use sal_rows::Rows;
use sal_types::{Cell, Duplicate, NoMemory, Row, Step};
use std::alloc::Global;
use std::sync::Arc;

impl Root {
    /// The tree of the rows, with the stamp at every node.
    pub fn from_rows(alloc: Global, rows: &Rows, stamp: u64) -> Result<Root, NoMemory>
        ensures rows { IfOk result (λ r. rows_of r ≡ rows.now) }
        ensures stamps { IfOk result (λ r. IsStamped stamp r) }
    {
        let node = build(alloc, rows.items(), 0, stamp)?;
        let node = Arc::new(alloc, node)?;
        Ok(Root::from_node(node))
    }
}

// The node of the rows; their paths are read from the depth on.
pub(crate) fn build(alloc: Global, rows: &[Row], depth: usize, stamp: u64) -> Result<Node, NoMemory>
    requires deep { depth ≤ 32 }
    requires ascending { IsAscending (from_depth depth rows.now) }
    ensures { IfOk result (λ n. IsBuilt stamp depth (from_depth depth rows.now) n) }
{
    let mut left = others(rows, depth);
    let mut builder = Builder::new(alloc);
    while let [first, ..] = left {
        let step = step_at(first, depth);
        let count = run_length(left, depth, step);
        let child = build(alloc, front(left, count), depth + 1, stamp)?;
        builder = added(alloc, builder, step, child)?;
        left = behind(left, count);
    }
    let cell = own_cell(rows, depth)?;
    let node = builder.finish(alloc, cell, stamp)?;
    Ok(node)
}

// The children with one more at the end.
fn added(alloc: Global, builder: Builder, step: &Step, child: Node) -> Result<Builder, NoMemory>
    ensures { IfOk result (λ more. more ≡ builder ++ (step.now, child) ∷ []) }
{
    let step = step.copy()?;
    let child = Arc::new(alloc, child)?;
    let more = builder.push(alloc, step, child)?;
    Ok(more)
}

// Whether the path of the row ends at the depth.
fn ends(row: &Row, depth: usize) -> bool
    ensures { result ≡ is_root (drop depth row.now.path) }
{
    row.path.steps().len() <= depth
}

// The cell of the first row, if its path ends at the depth.
fn own_cell(rows: &[Row], depth: usize) -> Result<Option<Cell>, NoMemory>
    ensures { IfOk result (λ cell. cell ≡ first_cell (from_depth depth rows.now)) }
{
    match rows {
        [] => Ok(None),
        [first, ..] => {
            if ends(first, depth) {
                Ok(Some(first.cell.copy()?))
            } else {
                Ok(None)
            }
        }
    }
}

// The rows without that one.
fn others(rows: &[Row], depth: usize) -> &[Row]
    ensures { from_depth depth result.now ≡ other_rows (from_depth depth rows.now) }
{
    match rows {
        [] => rows,
        [first, rest @ ..] => { if ends(first, depth) { rest } else { rows } }
    }
}

// The step of the row at the depth.
fn step_at(row: &Row, depth: usize) -> &Step
    requires { depth < length row.now.path }
    ensures step { drop depth row.now.path ≡ result.now ∷ drop (depth + 1) row.now.path }
    ensures deep { depth < 32 }
{
    &row.path.steps()[depth]
}

// Whether the row has the step at the depth.
fn has_step(row: &Row, depth: usize, step: &Step) -> bool
    ensures { result ≡ begins step.now (drop depth row.now.path) }
{
    let steps = row.path.steps();
    depth < steps.len() && step.cmp(&steps[depth]).is_eq()
}

// How many rows from the first on have the step at the depth.
fn run_length(rows: &[Row], depth: usize, step: &Step) -> usize
    ensures run { result ≡ leading step.now (from_depth depth rows.now) }
    ensures bound { result ≤ length rows.now }
{
    let mut count = 0;
    while count < rows.len() && has_step(&rows[count], depth, step) {
        count += 1;
    }
    count
}

// The first rows.
fn front(rows: &[Row], count: usize) -> &[Row]
    requires { count ≤ length rows.now }
    ensures { result.now ≡ take count rows.now }
{
    &rows[..count]
}

// The rows after the first ones.
fn behind(rows: &[Row], count: usize) -> &[Row]
    requires { count ≤ length rows.now }
    ensures { result.now ≡ drop count rows.now }
{
    &rows[count..]
}
