//! Cycles of edges.
ghost use Rattle.std.specs.Prelude.{◌≡◌, Some, IfOk, IfSome, length};
ghost use Rattle.std.proofs.Props.{props};
ghost use Rattle.sal_grouping.specs.Indexes.{lists};
ghost use Rattle.sal_grouping.specs.Names.{reaches_home};
ghost use Rattle.sal_grouping.specs.Reach.{IsRanked};

use sal_grouping::reaches;
use sal_types::NoMemory;
use std::alloc::Global;

/// The edges of each number, and the ranks of all if no path leads into a cycle.
#[derive(Drop)]
pub(crate) struct Circles<'a> {
    pub alloc: Global,
    pub edges: &'a [Vec<usize>],
    pub ranks: &'a Option<Vec<usize>>,
    pub ghost ranked: { IfSome ranks.now (λ ranks. IsRanked (lists edges.now) ranks.items) } by { Prim.hlevel props },
}

/// Whether a path leads from a target back to its number.
pub(crate) fn is_cyclic(
    circles: &Circles,
    i: usize,
    target: Option<usize>,
) -> Result<bool, NoMemory>
    ensures { IfOk result (λ b. b ≡ reaches_home (lists circles.now.edges.now) (length circles.now.edges.now) (Some i) target) }
{
    match target {
        None => Ok(false),
        Some(used) => reaches(circles.alloc, circles.edges, circles.ranks, used, i),
    }
}
