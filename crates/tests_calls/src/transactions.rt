//! Transactions of the controller's own domain, alone and in a chain. They write nothing.
ghost use Rattle.std.specs.Prelude.{◌≡◌, IfSome};
ghost use Rattle.sal_hub.specs.Tokens.{IsBegun, IsChain, IsGiven, IsToken};
ghost use Rattle.sal_broker.specs.Seats.{known};
ghost use Rattle.sal_broker.specs.Turns.{Keeps};

use crate::opened::{Desk, let_go, yes};
use sal_broker::Seat;
use sal_hub::{Chain, Receipt};
use sal_rows::{CallFault, Mode, Outcome};
use sal_tx::{Tx, WriteTx};
use std::sync::Wait;

// The number of the commit; 0 if there is none.
fn commit_in(outcome: &Outcome) -> u64 {
    match outcome {
        Outcome::Done { commit } => *commit,
        _ => 0,
    }
}

fn commit_of(answer: &Result<Outcome, CallFault>) -> u64 {
    match answer {
        Ok(outcome) => commit_in(outcome),
        Err(_) => 0,
    }
}

// The receipt's number and its commit.
fn decided_of(answer: &Result<Option<(Receipt, Outcome)>, CallFault>) -> [u64; 2] {
    match answer {
        Ok(Some((receipt, outcome))) => [receipt.number(), commit_in(outcome)],
        _ => [0, 0],
    }
}

fn cancelled<R: Wait>(at: &Desk<'_, R>, seat: &mut Seat, tx: Tx) -> u64
    requires lock { seat.old.lock ≡ at.now.sal.now }
    requires token { IsToken (known seat.old.view) tx }
    ensures { Keeps at.now.sal.now seat.old seat.new }
{
    match at.sal.cancel(at.rt, at.alloc, seat, tx) {
        Ok(()) => 1,
        Err(back) => {
            let_go(back);
            0
        }
    }
}

/// A transaction that is cancelled: `begin`, `cancel`.
pub(crate) fn given_up<R: Wait>(at: &Desk<'_, R>, seat: &mut Seat) -> [u64; 2]
    requires { seat.old.lock ≡ at.now.sal.now }
    ensures { Keeps at.now.sal.now seat.old seat.new }
{
    match at.sal.begin(at.rt, at.alloc, seat, 0, Mode::Ro) {
        Ok(tx) => [1, cancelled(at, seat, tx)],
        Err(_) => [0, 0],
    }
}

// The receipt of the submission.
fn submitted<R: Wait>(at: &Desk<'_, R>, seat: &mut Seat, tx: WriteTx) -> Option<Receipt>
    requires lock { seat.old.lock ≡ at.now.sal.now }
    requires token { IsBegun (known seat.old.view) tx.begun tx.mode tx.base }
    ensures same { Keeps at.now.sal.now seat.old seat.new }
    ensures given { IfSome result (IsGiven (known seat.new.view)) }
{
    match at.sal.submit(at.rt, at.alloc, seat, tx) {
        Ok(receipt) => Some(receipt),
        Err(back) => {
            let_go(back);
            None
        }
    }
}

fn sent<R: Wait>(at: &Desk<'_, R>, seat: &mut Seat) -> Option<Receipt>
    requires { seat.old.lock ≡ at.now.sal.now }
    ensures same { Keeps at.now.sal.now seat.old seat.new }
    ensures given { IfSome result (IsGiven (known seat.new.view)) }
{
    match at.sal.begin(at.rt, at.alloc, seat, 0, Mode::Rw) {
        Ok(Tx::Write(tx)) => submitted(at, seat, tx),
        Ok(tx) => {
            let_go(tx);
            None
        }
        Err(_) => None,
    }
}

fn settled<R: Wait>(at: &Desk<'_, R>, seat: &mut Seat, receipt: Receipt) -> u64
    requires lock { seat.old.lock ≡ at.now.sal.now }
    requires given { IsGiven (known seat.old.view) receipt }
    ensures { Keeps at.now.sal.now seat.old seat.new }
{
    let answer = at.sal.settle(at.rt, at.alloc, seat, receipt);
    let commit = commit_of(&answer);
    let_go(answer);
    commit
}

/// A commit: `begin`, `submit`, `settle`. Its receipt and its number.
pub(crate) fn committed<R: Wait>(at: &Desk<'_, R>, seat: &mut Seat) -> [u64; 2]
    requires { seat.old.lock ≡ at.now.sal.now }
    ensures { Keeps at.now.sal.now seat.old seat.new }
{
    match sent(at, seat) {
        Some(receipt) => [receipt.number(), settled(at, seat, receipt)],
        None => [0, 0],
    }
}

/// Decides the first pending submission: `pump`. Its receipt and its commit.
pub(crate) fn pumped<R: Wait>(at: &Desk<'_, R>, seat: &mut Seat) -> [u64; 2]
    requires { seat.old.lock ≡ at.now.sal.now }
    ensures { Keeps at.now.sal.now seat.old seat.new }
{
    let answer = at.sal.pump(at.rt, at.alloc, seat);
    let decided = decided_of(&answer);
    let_go(answer);
    decided
}

// The receipt of the first transaction of the chain.
fn sent_in<R: Wait>(at: &Desk<'_, R>, seat: &mut Seat, chain: &Chain) -> u64
    requires lock { seat.old.lock ≡ at.now.sal.now }
    requires token { IsChain (known seat.old.view) chain.now }
    ensures { Keeps at.now.sal.now seat.old seat.new }
{
    match at.sal.chain_begin(at.rt, at.alloc, seat, chain, Mode::Rw) {
        Ok(Tx::Write(tx)) => match submitted(at, seat, tx) {
            Some(receipt) => receipt.number(),
            None => 0,
        },
        Ok(tx) => {
            let_go(tx);
            0
        }
        Err(_) => 0,
    }
}

/// A submission of a chain, which stays pending: `open_chain`, `chain_begin`, `submit`. The chain's number and the receipt.
pub(crate) fn chained<R: Wait>(at: &Desk<'_, R>, seat: &mut Seat) -> [u64; 2]
    requires { seat.old.lock ≡ at.now.sal.now }
    ensures { Keeps at.now.sal.now seat.old seat.new }
{
    match at.sal.open_chain(at.rt, at.alloc, seat, 0) {
        Ok(chain) => [chain.id(), sent_in(at, seat, &chain)],
        Err(_) => [0, 0],
    }
}

/// A chain that is closed: `open_chain`, `close_chain`. The chain's number, and 1.
pub(crate) fn closed<R: Wait>(at: &Desk<'_, R>, seat: &mut Seat) -> [u64; 2]
    requires { seat.old.lock ≡ at.now.sal.now }
    ensures { Keeps at.now.sal.now seat.old seat.new }
{
    match at.sal.open_chain(at.rt, at.alloc, seat, 0) {
        Ok(chain) => [
            chain.id(),
            yes(at.sal.close_chain(at.rt, at.alloc, seat, &chain)),
        ],
        Err(_) => [0, 0],
    }
}
