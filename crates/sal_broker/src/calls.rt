//! Shared calls of the hub, each in one turn.
ghost use Rattle.std.specs.Prelude.{◌≡◌, None, IfOk, IfSome};
ghost use Rattle.sal_rows.specs.declared.outcome.Outcome.{Outcome as Decided};
ghost use Rattle.sal_tx.specs.declared.tx.Tx.{Tx as Token};
ghost use Rattle.sal_history.specs.declared.call.Call.TheVariants.{Begin, Cancel, Mark, Pump, Settle, Submit};
ghost use Rattle.sal_history.specs.declared.reply.Reply.TheVariants.{Accepted, Begun, Receipt as Numbered, Settled};
ghost use Rattle.sal_hub.specs.declared.receipt.Receipt.{Receipt as Given};
ghost use Rattle.sal_hub.specs.Answers.{Calls, CallsOr};
ghost use Rattle.sal_hub.specs.HubHistory.{entry_of};
ghost use Rattle.sal_hub.specs.Seen.{pump_reply};
ghost use Rattle.sal_hub.specs.Tokens.{IsBegun, IsFresh, IsGiven, IsToken, begun_of};
ghost use Rattle.sal_broker.specs.Seats.{known};
ghost use Rattle.sal_broker.specs.Turns.{InTurn, Keeps};

use crate::sal::Sal;
use crate::seat::Seat;
use sal_hub::Receipt;
use sal_rows::{CallFault, Mode, Outcome};
use sal_tx::{Tx, WriteTx};
use std::alloc::Global;
use std::sync::Wait;

impl Sal {
    /// Begins a transaction of the domain in the mode.
    pub fn begin<R: Wait>(
        &self,
        rt: &R,
        alloc: Global,
        seat: &mut Seat,
        domain: u32,
        mode: Mode,
    ) -> Result<Tx, CallFault>
        requires { seat.old.lock ≡ self.now }
        ensures same { Keeps self.now seat.old seat.new }
        ensures turn { InTurn seat.old.view seat.new.view (λ client found left. Calls found left (entry_of found client (Begin domain mode)) (λ (tx : Token). Begun (begun_of tx).base_commit (begun_of tx).on) result × IfOk result (IsFresh found domain None mode)) }
        ensures token { IfOk result (IsToken (known seat.new.view)) }
    {
        let mut held = self.take_turn(rt, &mut seat.inner);
        let client = held.number();
        let answer = held.hub().begin(alloc, client, domain, mode);
        seat.inner = self.leave(held).inner;
        answer
    }

    /// Submits the transaction; it is then pending. A refused transaction is returned.
    pub fn submit<R: Wait>(
        &self,
        rt: &R,
        alloc: Global,
        seat: &mut Seat,
        tx: WriteTx,
    ) -> Result<Receipt, (WriteTx, CallFault)>
        requires seat { seat.old.lock ≡ self.now }
        requires token { IsBegun (known seat.old.view) tx.begun tx.mode tx.base }
        ensures same { Keeps self.now seat.old seat.new }
        ensures turn { InTurn seat.old.view seat.new.view (λ client found left. CallsOr found left (entry_of found client (Submit tx.begun.place tx.changes)) (λ (receipt : Given). Numbered receipt.number) tx result) }
        ensures given { IfOk result (IsGiven (known seat.new.view)) }
    {
        let mut held = self.take_turn(rt, &mut seat.inner);
        let client = held.number();
        held.knows_write(&tx);
        let answer = held.hub().submit(alloc, client, tx);
        seat.inner = self.leave(held).inner;
        answer
    }

    /// Cancels the transaction.
    pub fn cancel<R: Wait>(
        &self,
        rt: &R,
        alloc: Global,
        seat: &mut Seat,
        tx: Tx,
    ) -> Result<(), (Tx, CallFault)>
        requires seat { seat.old.lock ≡ self.now }
        requires token { IsToken (known seat.old.view) tx }
        ensures same { Keeps self.now seat.old seat.new }
        ensures turn { InTurn seat.old.view seat.new.view (λ client found left. CallsOr found left (entry_of found client (Cancel (begun_of tx).place)) (λ _. Accepted) tx result) }
    {
        let mut held = self.take_turn(rt, &mut seat.inner);
        let client = held.number();
        held.knows_tx(&tx);
        let answer = held.hub().cancel(alloc, client, tx);
        seat.inner = self.leave(held).inner;
        answer
    }

    /// Decides all pending receipts up to this one, and returns its outcome. If memory runs out, all stay pending.
    pub fn settle<R: Wait>(
        &self,
        rt: &R,
        alloc: Global,
        seat: &mut Seat,
        receipt: Receipt,
    ) -> Result<Outcome, CallFault>
        requires seat { seat.old.lock ≡ self.now }
        requires given { IsGiven (known seat.old.view) receipt }
        ensures same { Keeps self.now seat.old seat.new }
        ensures turn { InTurn seat.old.view seat.new.view (λ client found left. Calls found left (entry_of found client (Settle receipt.number)) (λ (o : Decided). Settled receipt.domain o) result) }
    {
        let mut held = self.take_turn(rt, &mut seat.inner);
        let client = held.number();
        held.knows_receipt(receipt);
        let answer = held.hub().settle(alloc, client, receipt);
        seat.inner = self.leave(held).inner;
        answer
    }

    /// Decides the first pending receipt, and returns it with its outcome, or none if no receipt is pending. If memory runs
    /// out, it stays pending.
    pub fn pump<R: Wait>(
        &self,
        rt: &R,
        alloc: Global,
        seat: &mut Seat,
    ) -> Result<Option<(Receipt, Outcome)>, CallFault>
        requires { seat.old.lock ≡ self.now }
        ensures same { Keeps self.now seat.old seat.new }
        ensures turn { InTurn seat.old.view seat.new.view (λ client found left. Calls found left (entry_of found client Pump) pump_reply result) }
        ensures given { IfOk result (λ decided. IfSome decided (λ d. IsGiven (known seat.new.view) d.0)) }
    {
        let mut held = self.take_turn(rt, &mut seat.inner);
        let client = held.number();
        let answer = held.hub().pump(alloc, client);
        seat.inner = self.leave(held).inner;
        answer
    }

    /// Sets the mark in the log.
    pub fn mark<R: Wait>(
        &self,
        rt: &R,
        alloc: Global,
        seat: &mut Seat,
        mark: u32,
    ) -> Result<(), CallFault>
        requires { seat.old.lock ≡ self.now }
        ensures same { Keeps self.now seat.old seat.new }
        ensures turn { InTurn seat.old.view seat.new.view (λ client found left. Calls found left (entry_of found client (Mark mark)) (λ _. Accepted) result) }
    {
        let mut held = self.take_turn(rt, &mut seat.inner);
        let client = held.number();
        let answer = held.hub().mark(alloc, client, mark);
        seat.inner = self.leave(held).inner;
        answer
    }
}
