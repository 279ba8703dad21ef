//! Whether an entry or presence container is whole, by look-ups in a tree.
ghost use Rattle.std.specs.Prelude.{◌≡◌, ◌∷◌, ◌++◌, [], Some};
ghost use Rattle.sal_types.specs.declared.value.Step.TheVariants.{Node};
ghost use Rattle.sal_types.specs.declared.value.Cell.TheVariants.{Leaf};
ghost use Rattle.sal_schema.specs.Fitting as spec;
ghost use Rattle.sal_schema.specs.Paths.{node_of};
ghost use Rattle.sal_near.specs.Near.{is_whole_if_there};

use sal_rowtree::RowTree;
use sal_schema::Schema;
use sal_schema::lookups::keys_at;
use sal_types::{Cell, Step, Value};

// The node at the end of these steps: the list for each of its entries.
fn node_at_end(steps: &[Step]) -> Option<u32>
    ensures { result ≡ node_of steps.now }
{
    let mut here = None;
    for step in steps {
        if let Step::Node(node) = step {
            here = Some(*node);
        }
    }
    here
}

// Whether the leaf below these steps is present with the value.
fn has_leaf(rows: &RowTree, steps: &[Step], leaf: u32, value: &Value) -> bool
    ensures { result ≡ spec.has_cell rows.now (steps.now ++ Node leaf ∷ []) (Leaf value.now) }
{
    match rows.cell_below(steps, leaf) {
        Some(Cell::Leaf(other)) => other.cmp(value).is_eq(),
        Some(Cell::Mark) => false,
        None => false,
    }
}

// Whether the key leafs of the entry at these steps are present, with these values.
fn has_key_leafs(rows: &RowTree, steps: &[Step], leafs: &[u32], values: &[Value]) -> bool
    ensures { result ≡ spec.has_key_leafs rows.now steps.now leafs.now values.now }
{
    for i in 0..leafs.len() {
        if i >= values.len() {
            return true;
        }
        if !has_leaf(rows, steps, leafs[i], &values[i]) {
            return false;
        }
    }
    true
}

// Whether an entry of a list has its key leafs.
fn has_keys(schema: &Schema, rows: &RowTree, steps: &[Step], step: &Step) -> bool
    ensures { result ≡ spec.has_keys schema.now rows.now steps.now (Some step.now) }
{
    match (step, node_at_end(steps)) {
        (Step::Key(values), Some(node)) => {
            has_key_leafs(rows, steps, keys_at(schema, node), values.value().items())
        }
        _ => true,
    }
}

// Whether an entry or presence container at these steps has its row, and an entry its key leafs.
fn is_whole_at(schema: &Schema, rows: &RowTree, steps: &[Step]) -> bool
    ensures { result ≡ spec.is_whole_at schema.now rows.now steps.now }
{
    match steps.last() {
        Some(step) => {
            (!schema.has_mark(step) || rows.cell_at(steps).is_some())
                && has_keys(schema, rows, steps, step)
        }
        None => true,
    }
}

/// Whether an entry or presence container at these steps is whole, or there is no row at it or below it.
pub(crate) fn is_whole_if_there(schema: &Schema, rows: &RowTree, steps: &[Step]) -> bool
    ensures { result ≡ is_whole_if_there schema.now rows.now steps.now }
{
    is_whole_at(schema, rows, steps) || !rows.has(steps)
}
