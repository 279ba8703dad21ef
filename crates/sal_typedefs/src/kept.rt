//! Type statements whose judgement is known, and the typedefs of blocks by index.
ghost use Rattle.std.specs.Prelude.{◌≡◌, ◌<◌, ◌≤◌, ◌&&◌, ◌++◌, ◌∷◌, [], ℕ, List, IfOk, IfSome, Some, reverse, if◌then◌else◌, nat_eq, slice_index_or, length};
ghost use Rattle.std.specs.BTreeMap.{get};
ghost use Rattle.std.specs.List.{slice_get};
ghost use Rattle.std.specs.Option.{option_copied, option_to_list};
ghost use Rattle.std.specs.Ordering.{nat_cmp};
ghost use Rattle.sal_typedefs.specs.Scopes as scopes;
ghost use Rattle.sal_typedefs.specs.Settled as spec;

use crate::block::Block;
use crate::judgement::Judgement;
use sal_types::{Duplicate, NoMemory, Shared, append};
use std::alloc::Global;
use std::collections::BTreeMap;

/// The judgement of a type statement, and a number of steps in which it is made.
#[derive(Drop)]
pub(crate) struct Settled {
    pub(crate) judgement: Shared<Judgement>,
    pub(crate) depth: usize,
    /// A rank above those of all typedefs that the statement depends on.
    pub(crate) rank: usize,
    /// Whether there is no leafref among the statement and those that it depends on, if that is known.
    pub(crate) plain: bool,
    /// Of a typedef's type, a rank above that of the typedef.
    pub(crate) above: usize,
}

/// The judgements of the statements that a type statement depends on, and a number of steps in which all are made.
#[derive(Drop)]
pub(crate) struct Parts {
    pub(crate) below: Vec<Shared<Judgement>>,
    pub(crate) depth: usize,
    pub(crate) rank: usize,
    pub(crate) plain: bool,
}

pub(crate) fn both(a: bool, b: bool) -> bool
    ensures { result ≡ (a && b) }
{
    a && b
}

fn greater(a: usize, b: usize) -> usize
    ensures first { a ≤ result }
    ensures second { b ≤ result }
{
    if a < b { b } else { a }
}

/// The settled types of the typedefs in a block, by the index of each typedef there.
pub(crate) type Slots = BTreeMap<usize, Settled>;

impl Settled {
    /// A copy, which shares the judgement.
    pub(crate) fn copy(&self) -> Result<Settled, NoMemory>
        ensures { IfOk result (λ one. one ≡ self.now) }
    {
        Ok(Settled {
            judgement: self.judgement.copy()?,
            depth: self.depth,
            rank: self.rank,
            plain: self.plain,
            above: self.above,
        })
    }
}

impl Parts {
    /// Those of a statement that depends on no other.
    pub(crate) fn new(alloc: Global) -> Parts
        ensures none { (w : spec.World) → spec.AreParts w [] result }
        ensures rank { result.rank ≡ 0 }
    {
        Parts {
            below: Vec::new(alloc),
            depth: 0,
            rank: 0,
            plain: true,
        }
    }

    /// With one more.
    pub(crate) fn with(self, one: Settled) -> Result<Parts, NoMemory>
        ensures { IfOk result (λ parts. (w : spec.World) (sites : List scopes.Site) (site : scopes.Site) → spec.AreParts w sites self
            → spec.IsSettled w site one → spec.AreParts w (sites ++ site ∷ []) parts) }
    {
        let Parts {
            below,
            depth,
            rank,
            plain,
        } = self;
        let deepest = greater(depth, one.depth);
        let highest = greater(rank, one.rank);
        let mut below = below;
        append(&mut below, one.judgement)?;
        Ok(Parts {
            below,
            depth: deepest,
            rank: highest,
            plain: both(plain, one.plain),
        })
    }

    /// With at least this rank.
    pub(crate) fn raised(self, rank: usize) -> Parts
        ensures parts { (w : spec.World) (sites : List scopes.Site) → spec.AreParts w sites self → spec.AreParts w sites result }
        ensures rank { rank ≤ result.rank }
    {
        let Parts {
            below,
            depth,
            rank: own,
            plain,
        } = self;
        Parts {
            below,
            depth,
            rank: greater(own, rank),
            plain,
        }
    }
}

/// The slots with one more.
pub(crate) fn inserted(slots: Slots, k: usize, one: Settled) -> Result<Slots, NoMemory>
    ensures { IfOk result (λ new. (q : ℕ) → get nat_cmp new q ≡ (if nat_eq k q then Some one else get nat_cmp slots q)) }
{
    let mut slots = slots;
    slots.insert(k, one)?;
    Ok(slots)
}

fn slot_at(kept: &[Slots], n: usize, k: usize) -> Option<&Settled>
    ensures { (e : spec.Slots) → n < length kept.now → option_copied result ≡ get nat_cmp (slice_index_or kept.now n e) k }
{
    match kept.get(n) {
        None => None,
        Some(slots) => slots.get(&k),
    }
}

/// The settled type of the typedef of a name in the innermost of these blocks that has one.
pub(crate) fn settled_outer<'k>(
    number: u32,
    blocks: &[Block],
    kept: &'k [Slots],
    name: &str,
) -> Option<&'k Settled>
    ensures { (w : spec.World) → spec.AreKept w number (reverse blocks.now) (reverse kept.now)
        → IfSome (option_copied result) (spec.IsTargetSettled w (scopes.closest number name.now (reverse blocks.now))) }
{
    let mut n = blocks.len();
    if kept.len() != n {
        return None;
    }
    'closest: while n > 0 {
        if let Some(k) = blocks[n - 1].slot(name) {
            return slot_at(kept, n - 1, k);
        }
        n -= 1;
    }
    None
}

/// The slots of a module's own block.
pub(crate) fn top_slots(tops: &[Slots], number: u32) -> &[Slots]
    ensures { result.now ≡ option_to_list (slice_get tops.now number) }
{
    let k = number as usize;
    if k >= tops.len() {
        return &[];
    }
    &tops[k..k + 1]
}
