//! Rows put into the order of their paths.
ghost use Rattle.std.specs.Prelude.{◌≡◌, ◌<◌, IfOk, OnOk, IsTrue, length};
ghost use Rattle.std.specs.BTreeMap.{insert_entry};
ghost use Rattle.sal_types.specs.Order.{path_cmp};
ghost use Rattle.sal_types.specs.Tree.{IsAscending, entries};
ghost use Rattle.sal_data.specs.Read as spec;

use sal_rows::Rows;
use sal_types::{Cell, NoMemory, Path, Row};
use std::alloc::Global;
use std::collections::BTreeMap;

/// Whether the paths of the rows ascend.
fn rises(rows: &[Row]) -> bool
    ensures { IsTrue result → IsAscending rows.now }
{
    for i in 1..rows.len() {
        if rows[i].path <= rows[i - 1].path {
            return false;
        }
    }
    true
}

/// The same rows as a tree.
fn tree_of(rows: Vec<Row>) -> Rows
    requires { IsAscending rows.items }
    ensures { result ≡ rows.items }
{
    match Rows::from_list(rows) {
        Ok(tree) => tree,
        Err(_) => unreachable!(),
    }
}

/// Inserts the row, or replaces the one with its path.
fn put(map: &mut BTreeMap<Path, Cell>, row: Row) -> Result<(), NoMemory>
    ensures { OnOk result (map.new.entries ≡ insert_entry path_cmp map.old.entries row.path row.cell) }
{
    map.insert(row.path, row.cell)?;
    Ok(())
}

/// The cells by their paths; of rows with one path the last is used.
fn by_path(alloc: Global, rows: Vec<Row>) -> Result<BTreeMap<Path, Cell>, NoMemory>
    ensures { IfOk result (λ map. map.entries ≡ entries (spec.in_order rows.items)) }
{
    let mut map = BTreeMap::new(alloc);
    for row in rows {
        put(&mut map, row)?;
    }
    Ok(map)
}

/// The rows with these paths and cells.
fn listed(alloc: Global, map: BTreeMap<Path, Cell>) -> Result<Vec<Row>, NoMemory>
    ensures { IfOk result (λ list. entries list.items ≡ map.entries) }
{
    let mut list = Vec::with_capacity(alloc, map.len())?;
    for (path, cell) in map {
        list.push(Row { path, cell })?;
    }
    Ok(list)
}

/// The tree of rows in any order.
fn joined(alloc: Global, rows: Vec<Row>) -> Result<Rows, NoMemory>
    ensures { IfOk result (λ ordered. ordered ≡ spec.in_order rows.items) }
{
    let map = by_path(alloc, rows)?;
    let list = listed(alloc, map)?;
    match Rows::from_list(list) {
        Ok(ordered) => Ok(ordered),
        Err(_) => unreachable!(),
    }
}

/// Sorts the rows by their paths. Rows with one path keep their order.
fn sort(rows: &mut Vec<Row>) -> Result<(), NoMemory>
    ensures { OnOk result (spec.in_order rows.new.items ≡ spec.in_order rows.old.items) }
{
    rows.sort_by(|a, b| a.path.cmp(&b.path))?;
    Ok(())
}

/// The tree of rows that are sorted: the rows themselves, if no path is there twice.
fn settled(alloc: Global, rows: Vec<Row>) -> Result<Rows, NoMemory>
    ensures { IfOk result (λ ordered. ordered ≡ spec.in_order rows.items) }
{
    if rises(&rows) {
        return Ok(tree_of(rows));
    }
    joined(alloc, rows)
}

/// Rows are sorted if they are further from their order than this many moves of one place for each row.
const MOVES: usize = 4;

/// Moves the row at the place before those that it precedes, at most so many places. The moves that are left.
fn insert_tail(rows: &mut Vec<Row>, place: usize, moves: usize) -> usize
    requires { place < length rows.old.items }
    ensures order { spec.in_order rows.new.items ≡ spec.in_order rows.old.items }
    ensures len { length rows.new.items ≡ length rows.old.items }
{
    let most = if place < moves { place } else { moves };
    for done in 0..most {
        let at = place - done;
        if rows[at - 1].path <= rows[at].path {
            return moves - done;
        }
        rows.swap(at - 1, at);
    }
    moves - most
}

/// Moves each row before those that it precedes, as long as there are moves. Rows with one path keep their order.
fn partial_insertion_sort(rows: &mut Vec<Row>)
    ensures { spec.in_order rows.new.items ≡ spec.in_order rows.old.items }
{
    let mut moves = rows.len().saturating_mul(MOVES);
    for place in 1..rows.len() {
        moves = insert_tail(rows, place, moves);
    }
}

/// The tree of rows that may be out of order. It takes n log n comparisons of paths for n rows, or one for each if they are in order.
fn sorted(alloc: Global, mut rows: Vec<Row>) -> Result<Rows, NoMemory>
    ensures { IfOk result (λ ordered. ordered ≡ spec.in_order rows.items) }
{
    if rises(&rows) {
        return Ok(tree_of(rows));
    }
    sort(&mut rows)?;
    settled(alloc, rows)
}

/// The rows in the order of their paths; of rows with one path the last is used. Rows that are nearly in order, as those of an object whose members
/// are named in another order than the schema's, take a few comparisons each.
pub(crate) fn in_order(alloc: Global, mut rows: Vec<Row>) -> Result<Rows, NoMemory>
    ensures { IfOk result (λ ordered. ordered ≡ spec.in_order rows.items) }
{
    if rises(&rows) {
        return Ok(tree_of(rows));
    }
    partial_insertion_sort(&mut rows);
    sorted(alloc, rows)
}
