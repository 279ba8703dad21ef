//! Which groupings use themselves.
ghost use Rattle.std.specs.Prelude.{◌≡◌, ◌==◌, ◌||◌, ◌<◌, nat_le, [], false, length, IfOk, IfSome, IsTrue, slice_index_or};
ghost use Rattle.std.specs.List.{list_all};
ghost use Rattle.sal_module.specs.Imports as imports;
ghost use Rattle.sal_grouping.specs.Indexes.{lists};
ghost use Rattle.sal_grouping.specs.Reach as spec;

use crate::index::{empty_lists, pick};
use sal_module::{is_marked, reaching};
use sal_types::NoMemory;
use std::alloc::Global;

// ---- ranks

/// How many groupings each grouping names, and which ones name it.
fn turned(alloc: Global, edges: &[Vec<usize>]) -> Result<(Vec<usize>, Vec<Vec<usize>>), NoMemory> {
    let mut counts = Vec::with_capacity(alloc, edges.len())?;
    let mut users = empty_lists(alloc, edges.len())?;
    for (g, out) in edges.iter().enumerate() {
        counts.push(out.len())?;
        for used in out {
            pick(&mut users, Some(*used), Some(g))?;
        }
    }
    Ok((counts, users))
}

/// One name fewer to wait for. A grouping that waits for none is ready.
fn count_down(counts: &mut Vec<usize>, ready: &mut Vec<usize>, g: usize) -> Result<(), NoMemory> {
    if g < counts.len() {
        if counts[g] == 1 {
            ready.push(g)?;
        }
        counts[g] = counts[g].saturating_sub(1);
    }
    Ok(())
}

fn ready_of(alloc: Global, counts: &[usize]) -> Result<Vec<usize>, NoMemory> {
    let mut ready = Vec::new(alloc);
    for (g, count) in counts.iter().enumerate() {
        if *count == 0 {
            ready.push(g)?;
        }
    }
    Ok(ready)
}

fn set_rank(ranks: &mut Vec<usize>, g: usize, rank: usize) {
    if g < ranks.len() {
        ranks[g] = rank;
    }
}

fn last_ranks(alloc: Global, count: usize) -> Result<Vec<usize>, NoMemory> {
    let mut ranks = Vec::with_capacity(alloc, count)?;
    for _i in 0..count {
        ranks.push(count)?;
    }
    Ok(ranks)
}

fn count_users(
    counts: &mut Vec<usize>,
    ready: &mut Vec<usize>,
    users: &[Vec<usize>],
    g: usize,
) -> Result<(), NoMemory> {
    if g < users.len() {
        for user in &users[g] {
            count_down(counts, ready, *user)?;
        }
    }
    Ok(())
}

/// Each grouping's rank: above those of all that it names, or the last rank if a path leads from it into a cycle.
fn ranks_of(alloc: Global, edges: &[Vec<usize>]) -> Result<Vec<usize>, NoMemory> {
    let (counts, users) = turned(alloc, edges)?;
    let mut counts = counts;
    let mut ready = ready_of(alloc, counts.as_slice())?;
    let mut ranks = last_ranks(alloc, edges.len())?;
    for rank in 0..edges.len() {
        match ready.pop() {
            None => break,
            Some(g) => {
                set_rank(&mut ranks, g, rank);
                count_users(&mut counts, &mut ready, users.as_slice(), g)?;
            }
        }
    }
    Ok(ranks)
}

fn rank_at(ranks: &[usize], g: usize) -> usize
    ensures { result ≡ slice_index_or ranks.now g 0 }
{
    ranks.get(g).copied().unwrap_or(0)
}

fn is_above(ranks: &[usize], high: usize, out: &[usize]) -> bool
    ensures { result ≡ list_all (λ k. nat_le (slice_index_or ranks.now k 0) high) out.now }
{
    out.iter().all(|k| rank_at(ranks, *k) <= high)
}

/// Whether each grouping's rank is at least those of the groupings that it names.
fn is_ranked(edges: &[Vec<usize>], ranks: &[usize]) -> bool
    ensures { IsTrue result → spec.IsRanked (lists edges.now) ranks.now }
{
    for (g, out) in edges.iter().enumerate() {
        if !is_above(ranks, rank_at(ranks, g), out.as_slice()) {
            return false;
        }
    }
    true
}

// ---- together

/// The rank of each grouping, or none if some grouping names one of a higher rank.
pub fn ranking(alloc: Global, edges: &[Vec<usize>]) -> Result<Option<Vec<usize>>, NoMemory>
    ensures { IfOk result (λ ranking. IfSome ranking (λ ranks. spec.IsRanked (lists edges.now) ranks.items)) }
{
    let ranks = ranks_of(alloc, edges)?;
    if is_ranked(edges, ranks.as_slice()) {
        return Ok(Some(ranks));
    }
    Ok(None)
}

fn is_below(ranking: &Option<Vec<usize>>, used: usize, g: usize) -> bool
    ensures { result ≡ spec.is_below ranking.now used g }
{
    match ranking {
        None => false,
        Some(ranks) => rank_at(ranks.as_slice(), used) < rank_at(ranks.as_slice(), g),
    }
}

/// Whether `g` is the grouping `used`, or is reached from it.
///
/// If no path leads from `used` into a cycle, that takes no time. Otherwise it takes the time of all groupings' names for each
/// step of the longest path to it.
pub fn reaches(
    alloc: Global,
    edges: &[Vec<usize>],
    ranking: &Option<Vec<usize>>,
    used: usize,
    g: usize,
) -> Result<bool, NoMemory>
    requires { IfSome ranking.now (λ ranks. spec.IsRanked (lists edges.now) ranks.items) }
    ensures { IfOk result (λ b. b ≡ (used == g || imports.reaches (lists edges.now) (length edges.now) g (slice_index_or (lists edges.now) used []))) }
{
    if used == g {
        return Ok(true);
    }
    if is_below(ranking, used, g) {
        return Ok(false);
    }
    let marks = reaching(alloc, edges, g, edges.len())?;
    Ok(is_marked(marks.as_slice(), used))
}
