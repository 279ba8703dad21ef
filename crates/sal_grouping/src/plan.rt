//! The input of growth: the statements of each block, the groupings that they name, and which blocks have no nodes.
ghost use Rattle.std.specs.Prelude.{◌≡◌, ◌<◌, ◌&&◌, false, None, IfOk, IsTrue, unwrap_or, slice_index_or};
ghost use Rattle.std.specs.List.{list_all, slice_get};
ghost use Rattle.sal_grouping.specs.Rows as rows_spec;
ghost use Rattle.sal_grouping.specs.Groupings as groupings_spec;
ghost use Rattle.sal_grouping.specs.Growth as growth;
ghost use Rattle.sal_grouping.specs.Indexes as index;
ghost use Rattle.sal_grouping.specs.Plan as spec;
ghost use Rattle.sal_grouping.specs.Tables.{AreTables};

use crate::index::{empty_lists, pick};
use crate::look_up::named_by;
use crate::rows::Row;
use crate::tables::Tables;
use sal_module::{Keyword, Modules};
use sal_types::NoMemory;
use std::alloc::Global;

/// The statements, the block of each, and the grouping that it names.
#[derive(Drop)]
pub(crate) struct Plan {
    /// The statements.
    pub rows: Vec<Row>,
    /// The number of the first statement of each module.
    pub tops: Vec<usize>,
    /// The numbers of the statements in the block of each one.
    pub inside: Vec<Vec<usize>>,
    /// The grouping that each one names, if it is a `uses`.
    pub named: Vec<Option<usize>>,
    /// Whether the block of each one is known to have no nodes.
    pub bare: Vec<bool>,
}

/// Whether a statement makes a node of its block.
pub(crate) fn is_node(rows: &[Row], k: usize) -> bool
    ensures { result ≡ growth.is_node (rows_spec.keyword_at rows.now k) }
{
    match rows.get(k) {
        None => false,
        Some(row) => match row.keyword {
            Keyword::Container
            | Keyword::Leaf
            | Keyword::LeafList
            | Keyword::List
            | Keyword::Choice
            | Keyword::Case
            | Keyword::Rpc
            | Keyword::Notification => true,
            _ => false,
        },
    }
}

fn named_of(alloc: Global, modules: &Modules, t: &Tables) -> Result<Vec<Option<usize>>, NoMemory>
    requires { AreTables modules.now t.now }
    ensures { IfOk result (λ named. named.items ≡ groupings_spec.named_of modules.now t.now.rows.items) }
{
    let mut named = Vec::with_capacity(alloc, t.rows.len())?;
    for row in &t.rows {
        named.push(named_by(modules, &t.rows, &t.tops, &t.groupings, row))?;
    }
    Ok(named)
}

// ---- blocks without nodes

/// The blocks that name each grouping, and the blocks that have a node.
fn namers_of(
    alloc: Global,
    rows: &[Row],
    named: &[Option<usize>],
) -> Result<(Vec<Vec<usize>>, Vec<usize>), NoMemory> {
    let mut namers = empty_lists(alloc, rows.len())?;
    let mut full = Vec::new(alloc);
    for (k, row) in rows.iter().enumerate() {
        if let Some(b) = row.around {
            if is_node(rows, k) {
                full.push(b)?;
            } else {
                pick(&mut namers, named_at(named, k), Some(b))?;
            }
        }
    }
    Ok((namers, full))
}

/// The grouping that a statement names.
pub(crate) fn named_at(named: &[Option<usize>], k: usize) -> Option<usize>
    ensures { result ≡ unwrap_or (slice_get named.now k) None }
{
    match named.get(k) {
        Some(used) => *used,
        None => None,
    }
}

fn push_namers(full: &mut Vec<usize>, namers: &[Vec<usize>], b: usize) -> Result<(), NoMemory> {
    if b < namers.len() {
        for namer in &namers[b] {
            full.push(*namer)?;
        }
    }
    Ok(())
}

fn all_bare(alloc: Global, count: usize) -> Result<Vec<bool>, NoMemory> {
    let mut bare = Vec::with_capacity(alloc, count)?;
    for _i in 0..count {
        bare.push(true)?;
    }
    Ok(bare)
}

/// Clears the mark of a block with nodes. If it was marked, the blocks that name it are looked at next.
fn unmark(
    bare: &mut Vec<bool>,
    full: &mut Vec<usize>,
    namers: &[Vec<usize>],
    b: usize,
) -> Result<(), NoMemory> {
    if b < bare.len() && bare[b] {
        bare[b] = false;
        push_namers(full, namers, b)?;
    }
    Ok(())
}

/// Which blocks have no nodes. Each block is marked and cleared once at most, and each `uses` followed once.
fn bare_blocks(
    alloc: Global,
    rows: &[Row],
    named: &[Option<usize>],
) -> Result<Vec<bool>, NoMemory> {
    let (namers, full) = namers_of(alloc, rows, named)?;
    let mut full = full;
    let mut bare = all_bare(alloc, rows.len())?;
    for _i in 0..u64::MAX {
        match full.pop() {
            None => break,
            Some(b) => unmark(&mut bare, &mut full, namers.as_slice(), b)?,
        }
    }
    Ok(bare)
}

pub(crate) fn is_marked(bare: &[bool], g: usize) -> bool
    ensures { result ≡ slice_index_or bare.now g false }
{
    bare.get(g).copied().unwrap_or(false)
}

fn is_bare(rows: &[Row], named: &[Option<usize>], bare: &[bool], k: usize) -> bool
    ensures { result ≡ spec.is_bare rows.now named.now bare.now k }
{
    if is_node(rows, k) {
        return false;
    }
    match named_at(named, k) {
        None => true,
        Some(g) => is_marked(bare, g),
    }
}

fn has_no_nodes(rows: &[Row], named: &[Option<usize>], bare: &[bool], block: &[usize]) -> bool
    ensures { result ≡ list_all (spec.is_bare rows.now named.now bare.now) block.now }
{
    block.iter().all(|k| is_bare(rows, named, bare, *k))
}

/// Whether the marks are correct.
fn are_bare(rows: &[Row], named: &[Option<usize>], bare: &[bool], inside: &[Vec<usize>]) -> bool
    requires { index.AreInside rows.now (index.lists inside.now) }
    ensures { IsTrue result → spec.AreBare rows.now named.now bare.now }
{
    if bare.len() > inside.len() {
        return false;
    }
    for (g, block) in inside.iter().enumerate() {
        if is_marked(bare, g) && !has_no_nodes(rows, named, bare, block.as_slice()) {
            return false;
        }
    }
    true
}

/// Which blocks are known to have no nodes.
fn bare_of(
    alloc: Global,
    rows: &[Row],
    named: &[Option<usize>],
    inside: &[Vec<usize>],
) -> Result<Vec<bool>, NoMemory>
    requires { index.AreInside rows.now (index.lists inside.now) }
    ensures { IfOk result (λ bare. spec.AreBare rows.now named.now bare.items) }
{
    let bare = bare_blocks(alloc, rows, named)?;
    if are_bare(rows, named, bare.as_slice(), inside) {
        return Ok(bare);
    }
    Ok(Vec::new(alloc))
}

/// The plan for the tree of these modules.
pub(crate) fn plan_of(alloc: Global, modules: &Modules, t: Tables) -> Result<Plan, NoMemory>
    requires { AreTables modules.now t }
    ensures planned { IfOk result (λ plan. spec.IsPlan (rows_spec.rows_of modules.now) (groupings_spec.named_of modules.now (rows_spec.rows_of modules.now)) plan) }
    ensures tops { IfOk result (λ plan. index.AreTops modules.now plan.tops.items) }
{
    let named = named_of(alloc, modules, &t)?;
    let bare = bare_of(alloc, &t.rows, named.as_slice(), &t.inside)?;
    Ok(Plan {
        rows: t.rows,
        tops: t.tops,
        inside: t.inside,
        named,
        bare,
    })
}
