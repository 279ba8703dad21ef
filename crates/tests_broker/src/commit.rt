ghost use Rattle.std.specs.Prelude.{◌≡◌, ◌-◌, ◌+◌, ◌*◌, ◌≤◌, ◌∷◌, [], IfOk, length, slice_index_or};
ghost use Rattle.sal_tree.specs.declared.commit.Commit.{Commit as Kept};
ghost use Rattle.sal_graft.specs.Kept.{AreKept};
ghost use Rattle.sal_commit.specs.Deciding.{IsFor, LieBelow};
ghost use Rattle.sal_commit.specs.Stamps.{IsNewReceipt};

use crate::ops::{Wish, lies_below, op_of};
use crate::schemas::{Shape, device};
use sal_commit::{Domain, Prepared, can, decide, pre};
use sal_history::Device;
use sal_mod::Mod;
use sal_rows::{Op, Outcome, Rows, Rules};
use sal_tree::Commit;
use sal_tx::Submission;
use sal_types::{Duplicate, NoMemory, Row};
use std::alloc::Global;
use std::test::Fail;

// ---- openings

fn device_over(alloc: Global, shapes: &[Shape], rows: Vec<Row>) -> Result<Device, Fail> {
    match Rows::from_list(rows) {
        Ok(rows) => device(alloc, shapes, rows),
        Err(_) => Err("rows out of order".into()),
    }
}

fn domain_of(alloc: Global, device: &Device) -> Result<Domain, Fail>
    ensures { IfOk result (λ d. AreKept d.commits.items) }
{
    match Domain::open(alloc, 0, device, true, Rules::One) {
        Ok(domain) => Ok(domain),
        Err(_) => Err("no opening".into()),
    }
}

/// The domain over these nodes, with these rows as its opening.
pub(crate) fn opened(alloc: Global, shapes: &[Shape], rows: Vec<Row>) -> Result<Domain, Fail>
    ensures { IfOk result (λ d. AreKept d.commits.items) }
{
    let device = device_over(alloc, shapes, rows)?;
    domain_of(alloc, &device)
}

// ---- submissions of one operation

fn looked_up(alloc: Global, op: Op) -> Result<Mod, NoMemory>
    ensures { IfOk result (λ changes. changes ≡ op ∷ []) }
{
    let mut changes = Mod::new(alloc);
    match changes.add(alloc, op) {
        Ok(()) => Ok(changes),
        Err((_, refused)) => Err(refused),
    }
}

/// The changes of a transaction of one operation.
pub(crate) fn changed(alloc: Global, wish: Wish) -> Result<Mod, Fail>
    ensures { IfOk result (λ changes. LieBelow changes) }
{
    let op = op_of(alloc, wish)?;
    if !lies_below(&op) {
        return Err("rows beside the path".into());
    }
    Ok(looked_up(alloc, op)?)
}

fn newest(commits: &[Commit]) -> &Commit
    requires { 1 ≤ length commits.now }
    ensures { result.now ≡ slice_index_or commits.now (length commits.now - 1) result.now }
{
    &commits[commits.len() - 1]
}

// The receipt of the newest commit.
fn newest_receipt(commits: &[Commit]) -> u64
    requires { 1 ≤ length commits.now }
    ensures { (c : Kept) → c ≡ slice_index_or commits.now (length commits.now - 1) c → c.receipt ≡ result }
{
    newest(commits).receipt
}

// The receipt after that of the newest commit.
fn next_receipt(domain: &Domain) -> Result<u64, Fail>
    requires { AreKept domain.now.commits.items }
    ensures { IfOk result (IsNewReceipt domain.now.commits.items) }
{
    let newest = newest_receipt(&domain.commits);
    if newest >= 1_000_000 {
        return Err("too many receipts".into());
    }
    Ok(newest + 1)
}

/// A submission of one operation, begun at the newest commit.
pub(crate) fn submission(alloc: Global, domain: &Domain, wish: Wish) -> Result<Submission, Fail>
    requires { AreKept domain.now.commits.items }
    ensures given { IfOk result (IsFor domain.now) }
    ensures later { IfOk result (λ sub. IsNewReceipt domain.now.commits.items sub.receipt) }
{
    let receipt = next_receipt(domain)?;
    let newest = domain.commits.len() - 1;
    let changes = changed(alloc, wish)?;
    let base = domain.commits[newest].trees.copy()?;
    Ok(Submission {
        receipt,
        domain: 0,
        chain: None,
        base_commit: newest as u64,
        base,
        view: None,
        stamp: 2,
        changes,
    })
}

// The number of the commit; 0 if there is none.
fn number_of(outcome: &Outcome) -> u64 {
    match outcome {
        Outcome::Done { commit } => *commit,
        _ => 0,
    }
}

/// Decides such a submission.
pub(crate) fn outcome_of(domain: &mut Domain, alloc: Global, wish: Wish) -> Result<Outcome, Fail>
    requires { AreKept domain.old.commits.items }
    ensures { IfOk result (λ o. AreKept domain.new.commits.items) }
{
    let sub = submission(alloc, domain, wish)?;
    Ok(decide(alloc, &sub, domain, None)?)
}

/// The same: the number of its commit, or 0.
pub(crate) fn decided(domain: &mut Domain, alloc: Global, wish: Wish) -> Result<u64, Fail>
    requires { AreKept domain.old.commits.items }
    ensures { IfOk result (λ o. AreKept domain.new.commits.items) }
{
    let outcome = outcome_of(domain, alloc, wish)?;
    Ok(number_of(&outcome))
}

/// The commit of a submission, by the first two phases.
pub(crate) fn prepared(alloc: Global, domain: &Domain, sub: &Submission) -> Result<Prepared, Fail>
    requires given { IsFor domain.now sub.now }
    requires later { IsNewReceipt domain.now.commits.items sub.now.receipt }
{
    let Ok(ready) = can(alloc, sub, domain, None) else {
        return Err("it cannot be committed".into());
    };
    match pre(alloc, ready) {
        Ok(prepared) => Ok(prepared),
        Err(_) => Err("it breaks a rule".into()),
    }
}
