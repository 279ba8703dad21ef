//! A whole decision.
ghost use Rattle.std.specs.Prelude.{◌≡◌, IfOk, OnErr};
ghost use Rattle.sal_commit.specs.Deciding as spec;
ghost use Rattle.sal_commit.specs.Domains.{IsSame};
ghost use Rattle.sal_commit.specs.Stamps.{IsNewReceipt};

use crate::domain::Domain;
use crate::phases::{CanFault, PreFault, can, pre, publish};
use sal_rows::Outcome;
use sal_tx::Submission;
use sal_types::NoMemory;
use std::alloc::Global;

/// Decides the submission at the newest commit of its domain. Returns the outcome, and adds the next commit with both trees if it is done.
/// If its chain has failed, at the receipt `failed`, that is the outcome; else, if the domain is not live, that it is unmounted. The
/// commit's receipt, and the stamp of the nodes that it touches, are counted from the receipt of the opening. If memory runs out, the
/// domain's commits are unchanged.
pub fn decide(
    alloc: Global,
    sub: &Submission,
    domain: &mut Domain,
    failed: Option<u64>,
) -> Result<Outcome, NoMemory>
    requires given { spec.IsFor domain.old sub.now }
    requires later { IsNewReceipt domain.old.commits.items sub.now.receipt }
    ensures outcome { IfOk result (λ o. o ≡ spec.decide failed domain.old sub.now) }
    ensures decided { IfOk result (λ o. spec.Decides domain.old sub.now o domain.new) }
    ensures same { OnErr result (IsSame domain.old domain.new) }
    ensures commits { OnErr result (domain.new.commits.items ≡ domain.old.commits.items) }
{
    let ready = match can(alloc, sub, domain, failed) {
        Ok(ready) => ready,
        Err(CanFault::Refused { outcome }) => return Ok(outcome),
        Err(CanFault::NoMemory) => return Err(NoMemory),
    };
    let prepared = match pre(alloc, ready) {
        Ok(prepared) => prepared,
        Err(PreFault::Invalid { outcome }) => return Ok(outcome),
        Err(PreFault::NoMemory) => return Err(NoMemory),
    };
    domain.reserve()?;
    Ok(publish(prepared, domain))
}
