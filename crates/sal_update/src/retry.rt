//! A transaction that begins again after a conflict.
ghost use Rattle.std.specs.Prelude.{◌≡◌, ◌≢◌, Result, Ok, Err, IfOk, IfErr, MatchResult};
ghost use Rattle.sal_tx.specs.declared.writing.Writing.{Writing};
ghost use Rattle.sal_hub.specs.Tokens.{IsBegun, IsGiven};
ghost use Rattle.sal_broker.specs.Seats.{known};
ghost use Rattle.sal_broker.specs.Turns.{Keeps};
ghost use Rattle.sal_update.specs.Updates as spec;
ghost use Rattle.sal_update.specs.Updates.{Begins, EndsSettled, EndsSubmitted, EndsWorked, IsKept, IsTry, IsUpdate, Misses};
ghost use Rattle.sal_history.specs.declared.call.Call.TheVariants.{Begin};

use sal_broker::{Sal, Seat, laws};
use sal_hub::Receipt;
use sal_rows::{CallFault, Mode, Outcome};
use sal_tx::{Tx, WriteTx};
use std::alloc::Global;
use std::fmt::Display;
use std::sync::Wait;
use thiserror::Error;

/// What a transaction is to do. Each try of an update does it once, in a new transaction.
pub trait Work {
    /// Why the work gave up.
    type Fault: Drop;

    ghost gives: { Self → Writing → Result (Unit {0}) Self.Fault → Self → Writing → Type 0 } = { λ _ _ _ _ _. Unit {0} };

    /// Reads and writes in the transaction. With an error the update ends, and the transaction is dropped.
    fn run(&mut self, alloc: Global, tx: &mut WriteTx) -> Result<(), Self::Fault>
        ensures begun { tx.new.begun ≡ tx.old.begun }
        ensures mode { tx.new.mode ≡ tx.old.mode }
        ensures base { tx.new.base ≡ tx.old.base }
        ensures gives { gives self.old tx.old result self.new tx.new };
}

/// How the transactions of an update begin, and how many.
#[derive(Clone, Copy, Debug, PartialEq, Eq)]
pub struct Tries {
    /// The domain of each.
    pub domain: u32,
    /// The mode of each.
    pub mode: Mode,
    /// How often the update begins again after a conflict, at most.
    pub again: u32,
}

/// Where an update ended without an outcome.
#[derive(Debug, Drop, Error)]
#[error_bound(E: Display)]
pub enum UpdateFault<E> {
    /// No transaction began.
    #[error("begin: {0}")]
    Begin(CallFault),
    /// The work gave up; its transaction was not submitted.
    #[error("{0}")]
    Work(E),
    /// The transaction was not submitted, and is dropped.
    #[error("submit: {0}")]
    Submit(CallFault),
    /// The transaction was submitted, and its receipt can be settled later.
    #[error("settle: {fault}")]
    Settle { receipt: Receipt, fault: CallFault },
}

/// Does the work in a transaction, submits and settles it, and begins again after a conflict. The outcome is that of the last transaction: a
/// conflict only after all tries.
///
/// A call that is refused ends the update: with `NoMemory` or `HistoryFull` it added no entry to the log.
pub fn update<R: Wait, W: Work>(
    sal: &Sal,
    rt: &R,
    alloc: Global,
    seat: &mut Seat,
    tries: Tries,
    work: &mut W,
) -> Result<Outcome, UpdateFault<W::Fault>>
    requires seat { seat.old.lock ≡ sal.now }
    requires writes { tries.mode ≢ Mode.Ro }
    ensures same { Keeps sal.now seat.old seat.new }
    ensures update { IsUpdate W.gives tries seat.old.view work.old result seat.new.view work.new }
    ensures kept { IfErr result (IsKept (known seat.new.view)) }
{
    for _done in 0..tries.again {
        match try_once(sal, rt, alloc, seat, tries, work) {
            Ok(outcome) => {
                if !is_conflict(&outcome) {
                    return Ok(outcome);
                }
            }
            Err(fault) => return Err(fault),
        }
    }
    try_once(sal, rt, alloc, seat, tries, work)
}

fn is_conflict(outcome: &Outcome) -> bool
    ensures { result ≡ spec.is_conflict outcome.now }
{
    matches!(outcome, Outcome::Conflict { .. })
}

// One try.
fn try_once<R: Wait, W: Work>(
    sal: &Sal,
    rt: &R,
    alloc: Global,
    seat: &mut Seat,
    tries: Tries,
    work: &mut W,
) -> Result<Outcome, UpdateFault<W::Fault>>
    requires seat { seat.old.lock ≡ sal.now }
    requires writes { tries.mode ≢ Mode.Ro }
    ensures same { Keeps sal.now seat.old seat.new }
    ensures tried { IsTry W.gives tries seat.old.view work.old result seat.new.view work.new }
    ensures kept { IfErr result (IsKept (known seat.new.view)) }
{
    match begin(sal, rt, alloc, seat, tries) {
        Ok(tx) => worked(sal, rt, alloc, seat, work, tx),
        Err(fault) => Err(UpdateFault::Begin(fault)),
    }
}

// Begins the transaction.
fn begin<R: Wait>(
    sal: &Sal,
    rt: &R,
    alloc: Global,
    seat: &mut Seat,
    tries: Tries,
) -> Result<WriteTx, CallFault>
    requires seat { seat.old.lock ≡ sal.now }
    requires writes { tries.mode ≢ Mode.Ro }
    ensures same { Keeps sal.now seat.old seat.new }
    ensures began { MatchResult result (Begins tries seat.old.view seat.new.view) (Misses seat.old.view seat.new.view (Begin tries.domain tries.mode)) }
    ensures token { IfOk result (λ tx. IsBegun (known seat.new.view) tx.begun tx.mode tx.base) }
{
    match sal.begin(rt, alloc, seat, tries.domain, tries.mode) {
        Ok(Tx::Write(tx)) => Ok(tx),
        Ok(Tx::Read(_)) => unreachable!(),
        Err(fault) => Err(fault),
    }
}

// Does the work in the transaction, and submits it.
fn worked<R: Wait, W: Work>(
    sal: &Sal,
    rt: &R,
    alloc: Global,
    seat: &mut Seat,
    work: &mut W,
    mut tx: WriteTx,
) -> Result<Outcome, UpdateFault<W::Fault>>
    requires seat { seat.old.lock ≡ sal.now }
    requires token { IsBegun (known seat.old.view) tx.begun tx.mode tx.base }
    ensures same { Keeps sal.now seat.old seat.new }
    ensures worked { EndsWorked W.gives seat.old.view work.old tx result seat.new.view work.new }
    ensures kept { IfErr result (IsKept (known seat.new.view)) }
{
    match work.run(alloc, &mut tx) {
        Ok(()) => submitted(sal, rt, alloc, seat, tx),
        Err(fault) => Err(UpdateFault::Work(fault)),
    }
}

// Submits the transaction, and settles its receipt.
fn submitted<R: Wait, E>(
    sal: &Sal,
    rt: &R,
    alloc: Global,
    seat: &mut Seat,
    tx: WriteTx,
) -> Result<Outcome, UpdateFault<E>>
    requires seat { seat.old.lock ≡ sal.now }
    requires token { IsBegun (known seat.old.view) tx.begun tx.mode tx.base }
    ensures same { Keeps sal.now seat.old seat.new }
    ensures submitted { EndsSubmitted seat.old.view tx result seat.new.view }
    ensures kept { IfErr result (IsKept (known seat.new.view)) }
{
    match sal.submit(rt, alloc, seat, tx) {
        Ok(receipt) => settled(sal, rt, alloc, seat, receipt),
        Err((_, fault)) => Err(UpdateFault::Submit(fault)),
    }
}

// Settles the receipt.
fn settled<R: Wait, E>(
    sal: &Sal,
    rt: &R,
    alloc: Global,
    seat: &mut Seat,
    receipt: Receipt,
) -> Result<Outcome, UpdateFault<E>>
    requires seat { seat.old.lock ≡ sal.now }
    requires given { IsGiven (known seat.old.view) receipt }
    ensures same { Keeps sal.now seat.old seat.new }
    ensures settled { EndsSettled seat.old.view receipt result seat.new.view }
    ensures kept { IfErr result (IsKept (known seat.new.view)) }
{
    laws::tokens_stay();
    match sal.settle(rt, alloc, seat, receipt) {
        Ok(outcome) => Ok(outcome),
        Err(fault) => Err(UpdateFault::Settle { receipt, fault }),
    }
}
