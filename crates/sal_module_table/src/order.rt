//! Numbers in an order in which the targets of each one's edges come before it.
ghost use Rattle.std.specs.Prelude.{◌≡◌, ◌<◌, ℕ, [], length, IsTrue, IfOk, IfSome, slice_index_or};
ghost use Rattle.std.specs.List.{list_all};
ghost use Rattle.sal_grouping.specs.Indexes.{lists};
ghost use Rattle.sal_module_table.specs.Orders as spec;

use sal_grouping::ranking;
use sal_types::{NoMemory, append};
use std::alloc::Global;

/// Numbers by their ranks, and the rank of each.
#[derive(Drop)]
pub(crate) struct Order {
    pub ranks: Vec<usize>,
    pub order: Vec<usize>,
}

/// The targets of a number's edges.
pub(crate) fn out_of(edges: &[Vec<usize>], i: usize) -> &[usize]
    ensures { result.now ≡ slice_index_or (lists edges.now) i [] }
{
    if i < edges.len() { &edges[i] } else { &[] }
}

fn rank_of(ranks: &[usize], i: usize) -> usize
    ensures { result ≡ spec.rank_of ranks.now i }
{
    ranks.get(i).copied().unwrap_or(0)
}

fn are_lower(ranks: &[usize], count: usize, i: usize, out: &[usize]) -> bool
    ensures { result ≡ list_all (spec.is_lower ranks.now count i) out.now }
{
    let rank = rank_of(ranks, i);
    out.iter().all(|k| *k < count && rank_of(ranks, *k) < rank)
}

/// The number at a rank.
pub(crate) fn stands_at(order: &[usize], rank: usize, none: usize) -> usize
    ensures { result ≡ slice_index_or order.now rank none }
{
    order.get(rank).copied().unwrap_or(none)
}

fn is_placed(edges: &[Vec<usize>], ranks: &[usize], order: &[usize], i: usize) -> bool
    requires { i < length edges.now }
    ensures { result ≡ spec.is_placed (lists edges.now) ranks.now order.now i }
{
    rank_of(ranks, i) < edges.len()
        && stands_at(order, rank_of(ranks, i), edges.len()) == i
        && are_lower(ranks, edges.len(), i, out_of(edges, i))
}

fn are_placed(edges: &[Vec<usize>], ranks: &[usize], order: &[usize]) -> bool
    ensures { IsTrue result → (i : ℕ) → i < length (lists edges.now) → IsTrue (spec.is_placed (lists edges.now) ranks.now order.now i) }
{
    for i in 0..edges.len() {
        if !is_placed(edges, ranks, order, i) {
            return false;
        }
    }
    true
}

fn unplaced(alloc: Global, count: usize) -> Result<Vec<usize>, NoMemory>
    ensures { IfOk result (λ order. length order.items ≡ count) }
{
    let mut order = Vec::with_capacity(alloc, count)?;
    for _i in 0..count {
        append(&mut order, count)?;
    }
    Ok(order)
}

/// The numbers by their ranks.
fn by_rank(alloc: Global, ranks: &[usize], count: usize) -> Result<Vec<usize>, NoMemory>
    ensures { IfOk result (λ order. length order.items ≡ count) }
{
    let mut order = unplaced(alloc, count)?;
    for (i, rank) in ranks.iter().enumerate() {
        if *rank < count {
            order[*rank] = i;
        }
    }
    Ok(order)
}

/// An order in which the targets of each number come before it, or none if a path leads into a cycle.
pub(crate) fn order_of(alloc: Global, edges: &[Vec<usize>]) -> Result<Option<Order>, NoMemory>
    ensures { IfOk result (λ found. IfSome found (λ it. spec.IsOrdered (lists edges.now) it.ranks.items it.order.items)) }
{
    let Some(ranks) = ranking(alloc, edges)? else {
        return Ok(None);
    };
    let order = by_rank(alloc, &ranks, edges.len())?;
    if !are_placed(edges, &ranks, &order) {
        return Ok(None);
    }
    Ok(Some(Order { ranks, order }))
}
