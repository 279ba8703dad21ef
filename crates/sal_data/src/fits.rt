//! Which rows are data of a schema at a path.
ghost use Rattle.std.specs.Prelude.{◌≡◌, ◌≤◌, ◌∷◌, ◌++◌, ◌||◌, [], Some, true, not, is_some, length};
ghost use Rattle.std.specs.List.{common_prefix_len};
ghost use Rattle.sal_types.specs.declared.value.Step.TheVariants.{Node};
ghost use Rattle.sal_types.specs.declared.value.Cell.TheVariants.{Leaf};
ghost use Rattle.sal_types.specs.Prefix.{is_prefix};
ghost use Rattle.sal_types.specs.Tree.{IsAscending, cell};
ghost use Rattle.sal_schema.specs.Fitting as spec;
ghost use Rattle.sal_data.specs.Read.{same_step};

use crate::cells::{cell_at, cell_below};
use crate::ends::node_at_end;
use sal_rows::Rows;
use sal_schema::Schema;
use sal_schema::lookups::{is_leaf, keys_at};
use sal_types::{Cell, Path, Row, Step, Value};

/// Whether a cell is one for the node at the end of the path, and of its type.
fn cell_fits(schema: &Schema, path: &Path, cell: &Cell) -> bool
    ensures { result ≡ spec.cell_fits schema.now path.now cell.now }
{
    match (path.steps().last(), cell) {
        (Some(step), Cell::Mark) => schema.has_mark(step),
        (Some(Step::Node(node)), Cell::Leaf(value)) => {
            is_leaf(schema, *node) && schema.is_of_node(*node, value)
        }
        _ => false,
    }
}

/// Whether the leaf below these steps is present with the value.
fn has_leaf(rows: &[Row], steps: &[Step], leaf: u32, value: &Value) -> bool
    requires { IsAscending rows.now }
    ensures { result ≡ spec.has_cell rows.now (steps.now ++ Node leaf ∷ []) (Leaf value.now) }
{
    match cell_below(rows, steps, leaf) {
        Some(Cell::Leaf(other)) => other.cmp(value).is_eq(),
        Some(Cell::Mark) => false,
        None => false,
    }
}

/// Whether the key leafs of the entry at these steps are present, with these values.
fn has_key_leafs(rows: &[Row], steps: &[Step], leafs: &[u32], values: &[Value]) -> bool
    requires { IsAscending rows.now }
    ensures { result ≡ spec.has_key_leafs rows.now steps.now leafs.now values.now }
{
    for i in 0..leafs.len() {
        if i >= values.len() {
            return true;
        }
        if !has_leaf(rows, steps, leafs[i], &values[i]) {
            return false;
        }
    }
    true
}

/// Whether an entry of a list has its key leafs.
fn has_keys(schema: &Schema, rows: &[Row], steps: &[Step], step: &Step) -> bool
    requires { IsAscending rows.now }
    ensures { result ≡ spec.has_keys schema.now rows.now steps.now (Some step.now) }
{
    match (step, node_at_end(steps)) {
        (Step::Key(values), Some(node)) => {
            has_key_leafs(rows, steps, keys_at(schema, node), values.value().items())
        }
        _ => true,
    }
}

/// Whether an entry or presence container at these steps has its row, and an entry its key leafs.
pub fn is_whole_at(schema: &Schema, rows: &[Row], steps: &[Step]) -> bool
    requires { IsAscending rows.now }
    ensures { result ≡ spec.is_whole_at schema.now rows.now steps.now }
{
    match steps.last() {
        Some(step) => {
            (!schema.has_mark(step) || cell_at(rows, steps).is_some())
                && has_keys(schema, rows, steps, step)
        }
        None => true,
    }
}

fn begins_with(steps: &[Step], from: &Path) -> bool
    ensures { result ≡ is_prefix from.now steps.now }
{
    steps.starts_with(from.steps())
}

/// The same, if these steps begin with the path `from`.
fn is_whole_from(schema: &Schema, rows: &[Row], from: &Path, steps: &[Step]) -> bool
    requires { IsAscending rows.now }
    ensures { result ≡ (not (is_prefix from.now steps.now) || spec.is_whole_at schema.now rows.now steps.now) }
{
    !begins_with(steps, from) || is_whole_at(schema, rows, steps)
}

/// The number of common first steps of two paths.
pub fn shared(before: &[Step], steps: &[Step]) -> usize
    ensures count { result ≡ common_prefix_len same_step before.now steps.now }
    ensures within { result ≤ length before.now }
{
    match before {
        [] => 0,
        [first, before @ ..] => match steps {
            [] => 0,
            [step, steps @ ..] => {
                if first.cmp(step).is_eq() {
                    1 + shared(before, steps)
                } else {
                    0
                }
            }
        },
    }
}

/// Whether each entry and presence container above a row is whole, from the path `from` down, if those above the row
/// `before` are.
fn is_whole_above(
    schema: &Schema,
    rows: &[Row],
    from: &Path,
    before: &[Step],
    steps: &[Step],
) -> bool
    requires rising { IsAscending rows.now }
    requires whole { spec.is_whole_above schema.now rows.now from.now before.now ≡ true }
    requires short { length steps.now ≤ 32 }
    ensures { result ≡ spec.is_whole_above schema.now rows.now from.now steps.now }
{
    for len in shared(before, steps) + 1..steps.len() + 1 {
        if !is_whole_from(schema, rows, from, &steps[..len]) {
            return false;
        }
    }
    true
}

/// Whether the row is at or below the path, fits there, and has what it requires above it, if the row `before` has.
fn row_fits(schema: &Schema, path: &Path, rows: &[Row], before: &[Step], row: &Row) -> bool
    requires rising { IsAscending rows.now }
    requires whole { spec.is_whole_above schema.now rows.now path.now before.now ≡ true }
    ensures { result ≡ spec.row_fits schema.now path.now rows.now row.now }
{
    schema.fits(&row.path)
        && path.is_prefix_of(&row.path)
        && cell_fits(schema, &row.path, &row.cell)
        && is_whole_above(schema, rows, path, before, row.path.steps())
        && !(path.steps().is_empty() && schema.is_in_message(&row.path))
}

/// Whether the rows are data of the schema at the path: each is at the path or below it, its own path fits, and its cell is
/// of the kind and type of its node; and list entries and presence containers above it, from the path down, are present, an
/// entry with its keys.
///
/// It takes no memory. For each entry and presence container it makes one binary search for each row that this needs.
pub fn fits_rows(schema: &Schema, path: &Path, rows: &Rows) -> bool
    ensures { result ≡ spec.fits schema.now path.now rows.now }
{
    let rows = rows.items();
    let mut before: &[Step] = &[];
    for row in rows {
        if !row_fits(schema, path, rows, before, row) {
            return false;
        }
        before = row.path.steps();
    }
    true
}
