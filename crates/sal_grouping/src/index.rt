//! Indexes of the list of statements: the statements in each block, and the first definition of each name there.
ghost use Rattle.std.specs.Prelude.{◌≡◌, ◌<◌, ◌++◌, [], ℕ, List, IfOk, Some, None, length, slice_index_or};
ghost use Rattle.std.specs.BTreeMap.{get_by_text};
ghost use Rattle.sal_module.specs.Keywords.{same};
ghost use Rattle.sal_grouping.specs.Rows as rows_spec;
ghost use Rattle.sal_grouping.specs.Indexes as spec;

use crate::rows::Row;
use sal_module::Keyword;
use sal_types::NoMemory;
use std::alloc::Global;
use std::collections::BTreeMap;

/// The number of the definition of each name.
pub(crate) type Names = BTreeMap<String, usize>;

/// `count` empty lists.
pub(crate) fn empty_lists(alloc: Global, count: usize) -> Result<Vec<Vec<usize>>, NoMemory>
    ensures count { IfOk result (λ all. length (spec.lists all.items) ≡ count) }
    ensures each { IfOk result (λ all. (b : ℕ) → slice_index_or (spec.lists all.items) b [] ≡ []) }
{
    let mut all = Vec::with_capacity(alloc, count)?;
    for i in 0..count {
        all.push(Vec::new(alloc))?;
    }
    Ok(all)
}

/// Appends the value to the list of its key, if it has a key in range.
pub(crate) fn pick(
    all: &mut Vec<Vec<usize>>,
    key: Option<usize>,
    value: Option<usize>,
) -> Result<(), NoMemory>
    ensures count { IfOk result (λ _. length (spec.lists all.new.items) ≡ length (spec.lists all.old.items)) }
    ensures each { IfOk result (λ _. (b : ℕ) → b < length (spec.lists all.old.items) →
        slice_index_or (spec.lists all.new.items) b [] ≡ slice_index_or (spec.lists all.old.items) b [] ++ spec.picked b key value) }
{
    if let Some(b) = key {
        if let Some(k) = value {
            if b < all.len() {
                all[b].push(k)?;
            }
        }
    }
    Ok(())
}

/// The statements in each block.
pub(crate) fn inside_of(alloc: Global, rows: &[Row]) -> Result<Vec<Vec<usize>>, NoMemory>
    ensures { IfOk result (λ all. spec.AreInside rows.now (spec.lists all.items)) }
{
    let mut all = empty_lists(alloc, rows.len())?;
    for (k, row) in rows.iter().enumerate() {
        pick(&mut all, row.around, Some(k))?;
    }
    Ok(all)
}

/// Sets the number of the name, if it has none.
fn define(map: &mut Names, alloc: Global, name: &str, k: usize) -> Result<(), NoMemory>
    ensures { IfOk result (λ _. (q : List ℕ) → get_by_text map.new q ≡ spec.with_first (get_by_text map.old q) (same name.now q) k) }
{
    if !map.contains_key(name) {
        map.insert(String::from_str(alloc, name)?, k)?;
    }
    Ok(())
}

/// Adds the definition of a statement to its block, if it has this keyword.
fn define_row(
    maps: &mut Vec<Names>,
    alloc: Global,
    keyword: Keyword,
    row: &Row,
    k: usize,
) -> Result<(), NoMemory>
    ensures count { IfOk result (λ _. length maps.new.items ≡ length maps.old.items) }
    ensures each { IfOk result (λ _. (b : ℕ) (d : spec.Names) → b < length maps.old.items → (q : List ℕ) →
        get_by_text (slice_index_or maps.new.items b d) q ≡ spec.with_first (get_by_text (slice_index_or maps.old.items b d) q) (rows_spec.defines keyword b q row.now) k) }
{
    if row.keyword != keyword {
        return Ok(());
    }
    if let Some(b) = row.around {
        if b < maps.len() {
            define(&mut maps[b], alloc, row.name.as_str(), k)?;
        }
    }
    Ok(())
}

fn empty_maps(alloc: Global, count: usize) -> Result<Vec<Names>, NoMemory>
    ensures count { IfOk result (λ maps. length maps.items ≡ count) }
    ensures each { IfOk result (λ maps. (b : ℕ) (d : spec.Names) → b < count → (q : List ℕ) → get_by_text (slice_index_or maps.items b d) q ≡ None) }
{
    let mut maps = Vec::with_capacity(alloc, count)?;
    for i in 0..count {
        maps.push(BTreeMap::new(alloc))?;
    }
    Ok(maps)
}

/// The first definition of each name in each block, of this keyword.
pub(crate) fn firsts_of(
    alloc: Global,
    rows: &[Row],
    keyword: Keyword,
) -> Result<Vec<Names>, NoMemory>
    ensures { IfOk result (λ maps. spec.AreFirsts rows.now keyword maps.items) }
{
    let mut maps = empty_maps(alloc, rows.len())?;
    for (k, row) in rows.iter().enumerate() {
        define_row(&mut maps, alloc, keyword, row, k)?;
    }
    Ok(maps)
}
