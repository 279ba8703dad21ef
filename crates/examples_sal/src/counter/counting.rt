//! A client of a hub that counts.
ghost use Rattle.std.specs.Prelude.{IfOk};
ghost use Rattle.sal.specs.Tokens.{IsBegun, IsGiven};

use super::leaf::Counter;
use anyhow::bail;
use sal::{Hub, Mode, Outcome, Receipt, Tx, WriteTx};
use std::alloc::Global;

// The client's number.
const CLIENT: u32 = 0;

/// Counts up `times` times, in one transaction each.
pub fn count(alloc: Global, hub: &mut Hub, counter: &Counter, times: u64) -> anyhow::Result<()> {
    for _ in 0..times {
        count_up(alloc, hub, counter)?;
    }
    Ok(())
}

// Puts the number after the last one.
fn count_up(alloc: Global, hub: &mut Hub, counter: &Counter) -> anyhow::Result<()> {
    let tx = counted_up(alloc, hub, counter)?;
    let receipt = submit(alloc, hub, tx)?;
    let outcome = hub.settle(alloc, CLIENT, receipt)?;
    must_be_done(&outcome)
}

// A transaction that puts the number after the last one.
fn counted_up(alloc: Global, hub: &mut Hub, counter: &Counter) -> anyhow::Result<WriteTx>
    ensures { IfOk result (λ tx. IsBegun hub.new tx.begun tx.mode tx.base) }
{
    let mut tx = begin(alloc, hub)?;
    counter.count_up(alloc, &mut tx)?;
    Ok(tx)
}

// Begins a transaction that reads and writes.
fn begin(alloc: Global, hub: &mut Hub) -> anyhow::Result<WriteTx>
    ensures { IfOk result (λ tx. IsBegun hub.new tx.begun tx.mode tx.base) }
{
    match hub.begin(alloc, CLIENT, 0, Mode::Rw)? {
        Tx::Write(tx) => Ok(tx),
        Tx::Read(_) => bail!("it only reads"),
    }
}

// Submits the transaction.
fn submit(alloc: Global, hub: &mut Hub, tx: WriteTx) -> anyhow::Result<Receipt>
    requires { IsBegun hub.old tx.begun tx.mode tx.base }
    ensures { IfOk result (IsGiven hub.new) }
{
    match hub.submit(alloc, CLIENT, tx) {
        Ok(receipt) => Ok(receipt),
        Err((_, fault)) => Err(fault.into()),
    }
}

// Refuses an outcome that is not a commit.
fn must_be_done(outcome: &Outcome) -> anyhow::Result<()> {
    match outcome {
        Outcome::Done { .. } => Ok(()),
        _ => bail!("the transaction was not committed"),
    }
}
