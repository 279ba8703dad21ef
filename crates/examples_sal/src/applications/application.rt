//! An application: it takes numbers from the counter.
ghost use Rattle.std.specs.Prelude.{◌≡◌, IfOk};
ghost use Rattle.sal.specs.Seats.{known};
ghost use Rattle.sal.specs.Tokens.{IsBegun, IsGiven};
ghost use Rattle.sal.specs.Turns.{Keeps};

use crate::counter::Counter;
use anyhow::bail;
use sal::{Mode, Outcome, Receipt, Sal, Seat, Tx, WriteTx};
use std::alloc::Global;
use std::sync::Wait;

/// How many numbers each application takes.
pub(crate) const NUMBERS: u64 = 100;

// How often an application tries to take one. After each failed try the other application has taken one.
const TRIES: u64 = NUMBERS + 1;

/// Takes all numbers, one after another.
pub(crate) fn take_numbers<R: Wait>(
    rt: &R,
    alloc: Global,
    sal: &Sal,
    mut seat: Seat,
    counter: &Counter,
) -> anyhow::Result<Seat>
    requires { seat.lock ≡ sal.now }
    ensures { IfOk result (λ back. Keeps sal.now seat back) }
{
    for _ in 0..NUMBERS {
        take_number(rt, alloc, sal, &mut seat, counter)?;
    }
    Ok(seat)
}

// Takes one number, with a new transaction after each conflict.
fn take_number<R: Wait>(
    rt: &R,
    alloc: Global,
    sal: &Sal,
    seat: &mut Seat,
    counter: &Counter,
) -> anyhow::Result<()>
    requires { seat.old.lock ≡ sal.now }
    ensures { Keeps sal.now seat.old seat.new }
{
    for _ in 0..TRIES {
        if try_once(rt, alloc, sal, seat, counter)? {
            return Ok(());
        }
    }
    bail!("the other application took more numbers than it wanted")
}

// One transaction: true if it was committed, false if the other application was faster.
fn try_once<R: Wait>(
    rt: &R,
    alloc: Global,
    sal: &Sal,
    seat: &mut Seat,
    counter: &Counter,
) -> anyhow::Result<bool>
    requires { seat.old.lock ≡ sal.now }
    ensures { Keeps sal.now seat.old seat.new }
{
    let tx = counted_up(rt, alloc, sal, seat, counter)?;
    let receipt = submit(rt, alloc, sal, seat, tx)?;
    let outcome = sal.settle(rt, alloc, seat, receipt)?;
    is_done(&outcome)
}

// A transaction that puts the number after the last one.
fn counted_up<R: Wait>(
    rt: &R,
    alloc: Global,
    sal: &Sal,
    seat: &mut Seat,
    counter: &Counter,
) -> anyhow::Result<WriteTx>
    requires { seat.old.lock ≡ sal.now }
    ensures same { Keeps sal.now seat.old seat.new }
    ensures token { IfOk result (λ tx. IsBegun (known seat.new.view) tx.begun tx.mode tx.base) }
{
    let mut tx = begin(rt, alloc, sal, seat)?;
    counter.count_up(alloc, &mut tx)?;
    Ok(tx)
}

// Whether the transaction was committed, and not in conflict with another one.
fn is_done(outcome: &Outcome) -> anyhow::Result<bool> {
    match outcome {
        Outcome::Done { .. } => Ok(true),
        Outcome::Conflict { .. } => Ok(false),
        Outcome::Invalid { .. } => bail!("a rule of the schema is broken"),
        Outcome::ChainFailed { .. } => bail!("the transaction was of no chain"),
        Outcome::Unmounted { .. } => bail!("the domain is the controller's own"),
    }
}

// Begins a transaction that reads and writes.
fn begin<R: Wait>(rt: &R, alloc: Global, sal: &Sal, seat: &mut Seat) -> anyhow::Result<WriteTx>
    requires { seat.old.lock ≡ sal.now }
    ensures same { Keeps sal.now seat.old seat.new }
    ensures token { IfOk result (λ tx. IsBegun (known seat.new.view) tx.begun tx.mode tx.base) }
{
    match sal.begin(rt, alloc, seat, 0, Mode::Rw)? {
        Tx::Write(tx) => Ok(tx),
        Tx::Read(_) => bail!("it only reads"),
    }
}

// Submits the transaction.
fn submit<R: Wait>(
    rt: &R,
    alloc: Global,
    sal: &Sal,
    seat: &mut Seat,
    tx: WriteTx,
) -> anyhow::Result<Receipt>
    requires seat { seat.old.lock ≡ sal.now }
    requires token { IsBegun (known seat.old.view) tx.begun tx.mode tx.base }
    ensures same { Keeps sal.now seat.old seat.new }
    ensures given { IfOk result (IsGiven (known seat.new.view)) }
{
    match sal.submit(rt, alloc, seat, tx) {
        Ok(receipt) => Ok(receipt),
        Err((_, fault)) => Err(fault.into()),
    }
}
