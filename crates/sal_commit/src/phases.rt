//! The three phases: canCommit, preCommit and commit.
ghost use Rattle.std.specs.Prelude.{◌≡◌, ◌⊎◌, ◌+◌, ◌^◌, ◌<◌, ◌≤◌, ◌∷◌, [], ◌++◌, None, Some, IfOk, OnOk, MatchResult, length};
ghost use Rattle.sal_graft.specs.Following.{stamp_of};
ghost use Rattle.sal_rows.specs.declared.outcome.Outcome.TheVariants.{Done};
ghost use Rattle.sal_rows.specs.declared.outcome.Outcome.{Outcome as Decided};
ghost use Rattle.sal_commit.specs.Deciding as spec;
ghost use Rattle.sal_commit.specs.Domains.{IsSame, is_roomy};
ghost use Rattle.sal_commit.specs.Sound.{BreakNone};
ghost use Rattle.sal_commit.specs.Stamps.{CanFollow, IsNewReceipt, first_receipt};

use crate::clashing::conflict_in;
use crate::domain::Domain;
use crate::trees::{breached, next_trees};
use sal_rows::Outcome;
use sal_tree::{Commit, Pair};
use sal_tx::Submission;
use sal_types::NoMemory;
use std::alloc::Global;
use thiserror::Error;

/// A submission without a conflict, at the newest commit of its domain.
#[derive(Drop)]
pub struct Ready<'a> {
    pub sub: &'a Submission,
    pub domain: &'a Domain,
}

/// The next commit of a domain, made but not yet published.
#[derive(Drop)]
pub struct Prepared {
    pub commit: Commit,
}

/// Why a submission cannot be committed.
#[derive(Debug, Drop, Error)]
pub enum CanFault {
    /// Its chain has failed, its domain is not live, or it conflicts with a later commit.
    #[error("the submission is refused: {outcome}")]
    Refused { outcome: Outcome },
    #[error("out of memory")]
    NoMemory,
}

/// Why a submission was not prepared.
#[derive(Debug, Drop, Error)]
pub enum PreFault {
    /// A tree would break a structural rule.
    #[error("the submission is invalid: {outcome}")]
    Invalid { outcome: Outcome },
    #[error("out of memory")]
    NoMemory,
}

impl From<NoMemory> for CanFault {
    ghost use Rattle.std.specs.Prelude.{◌≡◌};
    ghost use Rattle.sal_commit.specs.declared.phases.CanFault.TheVariants.{NoMemory as Full};

    ghost from_gives = { λ _ e. e ≡ Full };

    fn from(_refused: NoMemory) -> CanFault {
        CanFault::NoMemory
    }
}

impl From<NoMemory> for PreFault {
    ghost use Rattle.std.specs.Prelude.{◌≡◌};
    ghost use Rattle.sal_commit.specs.declared.phases.PreFault.TheVariants.{NoMemory as Full};

    ghost from_gives = { λ _ e. e ≡ Full };

    fn from(_refused: NoMemory) -> PreFault {
        PreFault::NoMemory
    }
}

/// canCommit: whether the submission's chain has failed, at the receipt `failed`, or its domain is not live, or it
/// conflicts with the foreign commits after its base, which are those that are not of its own chain.
pub fn can<'a>(
    alloc: Global,
    sub: &'a Submission,
    domain: &'a Domain,
    failed: Option<u64>,
) -> Result<Ready<'a>, CanFault>
    requires { spec.IsFor domain.now sub.now }
    ensures { MatchResult result
        (λ ready. (ready.sub.now ≡ sub.now) × (ready.domain.now ≡ domain.now) × (spec.refused failed domain.now sub.now ≡ None))
        (λ fault. (fault ≡ CanFault.NoMemory) ⊎ ((o : Decided) × (fault ≡ CanFault.Refused o) × (spec.refused failed domain.now sub.now ≡ Some o))) }
{
    if let Some(receipt) = failed {
        let outcome = Outcome::ChainFailed { receipt };
        return Err(CanFault::Refused { outcome });
    }
    if !domain.live {
        let domain = domain.number;
        let outcome = Outcome::Unmounted { domain };
        return Err(CanFault::Refused { outcome });
    }
    match conflict_in(alloc, sub, domain)? {
        None => Ok(Ready { sub, domain }),
        Some(outcome) => Err(CanFault::Refused { outcome }),
    }
}

/// The largest number of receipts in all epochs of a domain; with more, the result is `NoMemory`.
const MAX_RECEIPTS: u64 = 2305843009213693952;

// The stamp of the nodes that the submission touches: that of its receipt, which is counted from the opening's.
fn fresh_stamp(sub: &Submission, domain: &Domain) -> Result<u64, NoMemory>
    requires { 1 ≤ length domain.now.commits.items }
    ensures stamp { IfOk result (λ fresh. fresh ≡ stamp_of (first_receipt domain.now.commits.items + sub.now.receipt)) }
    ensures few { OnOk result (first_receipt domain.now.commits.items + sub.now.receipt < 2 ^ 62) }
{
    let first = domain.commits[0].receipt;
    if first >= MAX_RECEIPTS || sub.receipt >= MAX_RECEIPTS {
        return Err(NoMemory);
    }
    Ok((first + sub.receipt) * 2 + 1)
}

/// preCommit: both trees after the submission, if they break no structural rule. The commit's receipt is counted from that of the opening,
/// and the nodes that it touches get the stamp of that receipt. It takes all memory of the decision, and changes nothing.
pub fn pre(alloc: Global, ready: Ready) -> Result<Prepared, PreFault>
    requires given { spec.IsFor ready.domain.now ready.sub.now }
    requires later { IsNewReceipt ready.domain.now.commits.items ready.sub.now.receipt }
    ensures follows { IfOk result (λ prepared. CanFollow ready.entry.domain.now.commits.items prepared.commit) }
    ensures outcome { MatchResult result
        (λ prepared. spec.IsNext ready.entry.domain.now ready.entry.sub.now prepared.commit × (spec.breached ready.entry.domain.now ready.entry.sub.now ≡ None))
        (λ fault. (fault ≡ PreFault.NoMemory) ⊎ ((o : Decided) × (fault ≡ PreFault.Invalid o) × (spec.breached ready.entry.domain.now ready.entry.sub.now ≡ Some o))) }
{
    let fresh = fresh_stamp(ready.sub, ready.domain)?;
    let trees = next_trees(alloc, ready.sub, ready.domain, fresh)?;
    if let Some(outcome) = breached(alloc, ready.domain, &trees, fresh)? {
        return Err(PreFault::Invalid { outcome });
    }
    let commit = next_commit(alloc, ready.sub, ready.domain, trees)?;
    Ok(Prepared { commit })
}

// The commit of the submission, with the next number of the domain and with these trees. It shares its list of operations
// with its entry of the log. Its receipt is counted from that of the opening.
fn next_commit(
    alloc: Global,
    sub: &Submission,
    domain: &Domain,
    trees: Pair,
) -> Result<Commit, NoMemory>
    requires some { 1 ≤ length domain.now.commits.items }
    requires few { first_receipt domain.now.commits.items + sub.now.receipt < 2 ^ 62 }
    ensures number { IfOk result (λ c. c.number ≡ length domain.now.commits.items) }
    ensures receipt { IfOk result (λ c. c.receipt ≡ first_receipt domain.now.commits.items + sub.now.receipt) }
    ensures chain { IfOk result (λ c. c.chain ≡ sub.now.chain) }
    ensures ops { IfOk result (λ c. c.ops.value ≡ sub.now.changes) }
    ensures trees { IfOk result (λ c. c.trees ≡ trees) }
{
    let ops = sub.changes.shared(alloc)?;
    Ok(Commit {
        number: domain.commits.len() as u64,
        receipt: domain.commits[0].receipt + sub.receipt,
        chain: sub.chain,
        ops,
        trees,
    })
}

/// commit: the prepared commit becomes the domain's newest one, with both its trees. It takes no memory.
///
/// The commit was prepared for the domain: its trees break no rule of the domain's schema, and were made from the newest ones.
pub fn publish(prepared: Prepared, domain: &mut Domain) -> Outcome
    requires room { is_roomy domain.old }
    requires sound { BreakNone domain.old.schema.value prepared.commit.trees }
    requires follows { CanFollow domain.old.commits.items prepared.commit }
    ensures outcome { result ≡ Done prepared.commit.number }
    ensures same { IsSame domain.old domain.new }
    ensures commits { domain.new.commits.items ≡ domain.old.commits.items ++ prepared.commit ∷ [] }
{
    let commit = prepared.commit.number;
    domain.commits.push(prepared.commit).unwrap();
    Outcome::Done { commit }
}
