//! Rows that are changed in place.
ghost use Rattle.std.specs.Prelude.{◌≡◌, ◌+◌, ◌≤◌, ◌<◌, OnOk, OnErr, not, length, vec_len, vec_capacity};
ghost use Rattle.std.specs.List.{filter};
ghost use Rattle.std.specs.List.Sorted.{IsSearchInRange};
ghost use Rattle.sal_types.specs.Order.{path_eq};
ghost use Rattle.sal_types.specs.Tree.{IsAscending};
ghost use Rattle.sal_rows.specs.Edits.{set_row};
ghost use Rattle.sal_rows.specs.Patch.{with_cell, patched};
ghost use Rattle.sal_rows.specs.Search.{IsFound};

use crate::rows::Rows;
use sal_types::{Cell, NoMemory, Path, Row};

/// The new cell of a path, or none.
#[derive(Debug, Drop)]
pub struct Patch {
    pub path: Path,
    pub cell: Option<Cell>,
}

impl Rows {
    /// Sets each cell, one after another. All memory is allocated first: if it runs out, nothing has changed.
    pub fn patch(&mut self, patches: Vec<Patch>) -> Result<(), NoMemory>
        ensures ok { OnOk result (self.new ≡ patched self.old patches.items) }
        ensures err { OnErr result (self.new ≡ self.old) }
    {
        self.list.reserve(patches.len())?;
        patch_all(&mut self.list, patches);
        Ok(())
    }
}

// Sets each cell. The list has room for all new rows.
fn patch_all(rows: &mut Vec<Row>, patches: Vec<Patch>)
    requires order { IsAscending rows.old.items }
    requires room { vec_len rows.old + vec_len patches ≤ vec_capacity rows.old }
    ensures rows { rows.new.items ≡ patched rows.old.items patches.items }
    ensures order { IsAscending rows.new.items }
{
    for patch in patches {
        patch_one(rows, patch);
    }
}

// Sets a cell.
fn patch_one(rows: &mut Vec<Row>, patch: Patch)
    requires order { IsAscending rows.old.items }
    requires room { vec_len rows.old < vec_capacity rows.old }
    ensures rows { rows.new.items ≡ with_cell rows.old.items patch.path patch.cell }
    ensures order { IsAscending rows.new.items }
    ensures len { vec_len rows.new ≤ vec_len rows.old + 1 }
    ensures capacity { vec_capacity rows.old ≤ vec_capacity rows.new }
{
    let Patch { path, cell } = patch;
    match cell {
        None => take_out(rows, &path),
        Some(cell) => put_in(rows, Row { path, cell }),
    }
}

// Removes the row at the path, if there is one.
fn take_out(rows: &mut Vec<Row>, path: &Path)
    requires order { IsAscending rows.old.items }
    ensures rows { rows.new.items ≡ filter (λ row. not (path_eq path.now row.path)) rows.old.items }
    ensures len { vec_len rows.new ≤ vec_len rows.old }
    ensures capacity { vec_capacity rows.old ≤ vec_capacity rows.new }
{
    match search(rows, path) {
        Ok(at) => {
            rows.remove(at);
        }
        Err(_) => {}
    }
}

// Inserts the row, or replaces the row at its path.
fn put_in(rows: &mut Vec<Row>, row: Row)
    requires order { IsAscending rows.old.items }
    requires room { vec_len rows.old < vec_capacity rows.old }
    ensures rows { rows.new.items ≡ set_row rows.old.items row }
    ensures len { vec_len rows.new ≤ vec_len rows.old + 1 }
    ensures capacity { vec_capacity rows.old ≤ vec_capacity rows.new }
{
    match search(rows, &row.path) {
        Ok(at) => rows[at] = row,
        Err(at) => rows.insert(at, row).unwrap(),
    }
}

// The index of the path among the rows, or the index where it would be inserted. A binary search.
fn search(rows: &[Row], path: &Path) -> Result<usize, usize>
    requires { IsAscending rows.now }
    ensures inside { IsSearchInRange result (length rows.now) }
    ensures found { IsFound rows.now path.now result }
{
    rows.binary_search_by(|row| row.path.cmp(path))
}
