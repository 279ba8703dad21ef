//! The number of rows of a tree and the sum of its numbers, counted on its nodes.
ghost use Rattle.std.specs.Prelude.{◌≡◌, ◌+◌, length, sum_by, IfOk, OnOk};
ghost use Rattle.sal_script.specs.Load.{number_of};
ghost use Rattle.sal_script.specs.Load as load;
ghost use Rattle.sal_tree.specs.Rows.{rows_of};
ghost use Rattle.sal_tree_text.specs.Tallied as spec;

use sal_node::Node;
use sal_tree::Root;
use sal_types::{Atom, Cell, NoMemory, Step};
use std::alloc::Global;

// The leaf of an entry that has its number: node 2, which in the schema of a load is the leaf `v`.
const NUMBER: u32 = 2;

/// The number of rows of a tree, and the sum of its unsigned leafs of node 2.
#[derive(Drop)]
pub struct Tally {
    pub rows: u128,
    pub sum: u128,
}

/// The tally of a tree. It fails if memory runs out, and if a number of the tally has more than 128 bits.
pub fn tally_of(alloc: Global, root: &Root) -> Result<Tally, NoMemory>
    ensures rows { IfOk result (λ tally. tally.rows ≡ length (rows_of root.now)) }
    ensures sum { IfOk result (λ tally. tally.sum ≡ sum_by number_of (rows_of root.now)) }
{
    tally_node(alloc, root.node())
}

// The tally of a tree with this root node.
#[tactic(auto, using(crate::proofs::Tallying::tree_rows, crate::proofs::Tallying::tree_sum))]
fn tally_node(alloc: Global, node: &Node) -> Result<Tally, NoMemory>
    ensures rows { IfOk result (λ tally. tally.rows ≡ length (rows_of node.now)) }
    ensures sum { IfOk result (λ tally. tally.sum ≡ sum_by number_of (rows_of node.now)) }
{
    let mut tally = Tally {
        rows: own_row(&node.cell),
        sum: 0,
    };
    add_below(alloc, &mut tally, node)?;
    Ok(tally)
}

// 1 for a cell.
fn own_row(cell: &Option<Cell>) -> u128
    ensures { result ≡ spec.own_row cell.now }
{
    match cell {
        Some(_) => 1,
        None => 0,
    }
}

// Adds the tally of the nodes below.
fn add_below(alloc: Global, tally: &mut Tally, node: &Node) -> Result<(), NoMemory>
    ensures rows { OnOk result (tally.new.rows ≡ tally.old.rows + spec.rows_under node.now.kids) }
    ensures sum { OnOk result (tally.new.sum ≡ tally.old.sum + spec.sum_under node.now.kids) }
{
    let children = node.children(alloc)?;
    for child in &children {
        add_cell(tally, &child.step, &child.node.cell)?;
        add_below(alloc, tally, &child.node)?;
    }
    Ok(())
}

// Adds the row of a child, if it has one.
fn add_cell(tally: &mut Tally, step: &Step, cell: &Option<Cell>) -> Result<(), NoMemory>
    ensures rows { OnOk result (tally.new.rows ≡ tally.old.rows + spec.own_row cell.now) }
    ensures sum { OnOk result (tally.new.sum ≡ tally.old.sum + spec.own_number step.now cell.now) }
{
    let Some(cell) = cell else {
        return Ok(());
    };
    tally.rows = sum_of(tally.rows, 1)?;
    tally.sum = sum_of(tally.sum, u128::from(number_at(cell, step)))?;
    Ok(())
}

fn sum_of(a: u128, b: u128) -> Result<u128, NoMemory>
    ensures { IfOk result (λ sum. sum ≡ a + b) }
{
    match a.checked_add(b) {
        Some(sum) => Ok(sum),
        None => Err(NoMemory),
    }
}

// The number in the cell after this step.
fn number_at(cell: &Cell, step: &Step) -> u64
    ensures { result ≡ load.number_at cell.now step.now }
{
    match (cell, step) {
        (Cell::Leaf(value), Step::Node(NUMBER)) => unsigned_of(&value.atom),
        _ => 0,
    }
}

fn unsigned_of(atom: &Atom) -> u64
    ensures { result ≡ load.unsigned_of atom.now }
{
    match atom {
        Atom::Unsigned(number) => *number,
        _ => 0,
    }
}
