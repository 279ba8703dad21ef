//! Changes put into the order of their paths.
ghost use Rattle.std.specs.Prelude.{◌≡◌, IfOk, OnOk, IsTrue};
ghost use Rattle.std.specs.BTreeMap.{insert_entry};
ghost use Rattle.std.specs.FinMap.{is_sorted};
ghost use Rattle.sal_types.specs.Order.{path_cmp};
ghost use Rattle.sal_delta.specs.Ordered.{marks, marks_of, in_order};

use sal_rows::Change;
use sal_types::{Cell, NoMemory, Path};
use std::alloc::Global;
use std::collections::BTreeMap;

/// Both cells of a change.
#[derive(Drop)]
struct Cells {
    before: Option<Cell>,
    after: Option<Cell>,
}

/// The changes in the order of their paths, each path once. It takes n log n comparisons of paths for n changes, or two for each if they
/// are in this order.
pub(crate) fn in_order(alloc: Global, mut list: Vec<Change>) -> Result<Vec<Change>, NoMemory>
    ensures { IfOk result (λ v. marks v.items ≡ in_order list.items) }
{
    sort(&mut list)?;
    settled(alloc, list)
}

/// Sorts the changes by their paths. Changes with one path keep their order.
fn sort(list: &mut Vec<Change>) -> Result<(), NoMemory>
    ensures { OnOk result (in_order list.new.items ≡ in_order list.old.items) }
{
    list.sort_by(|a, b| a.path.cmp(&b.path))?;
    Ok(())
}

/// Changes that are sorted, each path once: the changes themselves, if no path is there twice.
fn settled(alloc: Global, list: Vec<Change>) -> Result<Vec<Change>, NoMemory>
    ensures { IfOk result (λ v. marks v.items ≡ in_order list.items) }
{
    if rises(&list) {
        return Ok(list);
    }
    joined(alloc, list)
}

/// Whether the paths of the changes rise.
fn rises(list: &[Change]) -> bool
    ensures { IsTrue result → IsTrue (is_sorted path_cmp (marks list.now)) }
{
    list.is_sorted_by(|a, b| a.path < b.path)
}

/// The changes by a map of their paths; of those with one path the last is used.
fn joined(alloc: Global, list: Vec<Change>) -> Result<Vec<Change>, NoMemory>
    ensures { IfOk result (λ v. marks v.items ≡ in_order list.items) }
{
    let map = by_path(alloc, list)?;
    let list = listed(alloc, map)?;
    Ok(list)
}

fn put(map: &mut BTreeMap<Path, Cells>, change: Change) -> Result<(), NoMemory>
    ensures { OnOk result (map.new.entries ≡ insert_entry path_cmp map.old.entries change.path (record { before = change.before; after = change.after })) }
{
    let Change {
        path,
        before,
        after,
    } = change;
    map.insert(path, Cells { before, after })?;
    Ok(())
}

fn by_path(alloc: Global, list: Vec<Change>) -> Result<BTreeMap<Path, Cells>, NoMemory>
    ensures { IfOk result (λ map. marks_of map.entries ≡ in_order list.items) }
{
    let mut map = BTreeMap::new(alloc);
    for change in list {
        put(&mut map, change)?;
    }
    Ok(map)
}

fn listed(alloc: Global, map: BTreeMap<Path, Cells>) -> Result<Vec<Change>, NoMemory>
    ensures { IfOk result (λ list. marks list.items ≡ marks_of map.entries) }
{
    let mut list = Vec::with_capacity(alloc, map.len())?;
    for (path, cells) in map {
        let Cells { before, after } = cells;
        list.push(Change {
            path,
            before,
            after,
        })?;
    }
    Ok(list)
}
