//! Ranks of typedefs: that of each is above those of the typedefs that it names, unless there is a cycle.
//!
//! No clause says so. Where a rank is too low, a typedef that depends on itself is looked for by a search.
ghost use Rattle.std.specs.Prelude.{◌≡◌};
ghost use Rattle.sal_typedefs.specs.Settled as spec;

use crate::block::Block;
use crate::ordering::{module_order, number_of, order_in};
use crate::typedefs::Typedefs;
use sal_stmt::Stmt;
use sal_types::NoMemory;
use std::alloc::Global;
use std::collections::BTreeMap;

/// The largest depth of nested blocks of a statement.
const MAX_BLOCKS: u32 = 64;

/// The ranks of a module's typedefs by their offsets.
pub(crate) type Ranks = BTreeMap<u32, usize>;

/// The rank of the typedef at an offset of a module, or 0 if it has none.
pub(crate) fn rank_in(ranks: &[Ranks], number: u32, at: u32) -> usize
    ensures { result ≡ spec.rank_in ranks.now number at }
{
    match ranks.get(number as usize) {
        None => 0,
        Some(map) => map.get(&at).copied().unwrap_or(0),
    }
}

/// Ranks so far, and the next one.
#[derive(Drop)]
struct Ranking {
    all: Vec<Ranks>,
    next: usize,
}

fn put(ranking: &mut Ranking, number: usize, at: u32) -> Result<(), NoMemory> {
    if number < ranking.all.len() {
        ranking.all[number].insert(at, ranking.next)?;
        ranking.next = ranking.next.saturating_add(1);
    }
    Ok(())
}

/// Ranks the typedefs of the innermost block.
fn rank_block(
    ranking: &mut Ranking,
    alloc: Global,
    typedefs: &Typedefs,
    number: u32,
    around: &[Block],
) -> Result<(), NoMemory> {
    let Some(block) = around.last() else {
        return Ok(());
    };
    for k in &order_in(alloc, typedefs, number, around)? {
        if let Some(stmt) = block.stmt().subs.items().get(*k) {
            put(ranking, number as usize, stmt.at)?;
        }
    }
    Ok(())
}

/// Ranks the typedefs in the blocks of a statement, the outer ones before the inner ones.
fn rank_stmt<'a>(
    ranking: &mut Ranking,
    alloc: Global,
    typedefs: &Typedefs,
    number: u32,
    levels: u32,
    stmt: &'a Stmt,
) -> Result<(), NoMemory> {
    let around = vec![in alloc; Block::new(alloc, stmt)?]?;
    rank_block(ranking, alloc, typedefs, number, &around)?;
    if levels > 0 {
        for sub in stmt.subs.items() {
            rank_stmt(ranking, alloc, typedefs, number, levels - 1, sub)?;
        }
    }
    Ok(())
}

/// The ranks of all typedefs.
pub(crate) fn ranks_of(alloc: Global, typedefs: &Typedefs) -> Result<Vec<Ranks>, NoMemory> {
    let stmts = typedefs.stmts();
    let mut all = Vec::with_capacity(alloc, stmts.len())?;
    for _stmt in stmts {
        all.push(BTreeMap::new(alloc))?;
    }
    let mut ranking = Ranking { all, next: 1 };
    for m in &module_order(alloc, typedefs, stmts)? {
        if let Some(stmt) = stmts.get(*m) {
            rank_stmt(
                &mut ranking,
                alloc,
                typedefs,
                number_of(*m),
                MAX_BLOCKS,
                stmt,
            )?;
        }
    }
    Ok(ranking.all)
}
