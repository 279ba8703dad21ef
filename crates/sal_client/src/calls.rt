//! The shared calls of a client for its transactions and receipts.
ghost use Rattle.std.specs.Prelude.{◌≡◌, Err, Some, IfOk, IsSome, OnOk};
ghost use Rattle.sal_script.specs.Play.{set_slot};
ghost use Rattle.sal_hub.specs.Tokens.{begun_of};
ghost use Rattle.sal_client.specs.Answers.{IsAnswer};
ghost use Rattle.sal_client.specs.Leaving.{Leaves};
ghost use Rattle.sal_client.specs.Slots.{held};
ghost use Rattle.sal_client.specs.declared.wish.Wish.TheVariants.{Begin, Submit, Cancel, Settle};

use crate::answers::{answer_to, settled};
use crate::client::{ClientState, Standing};
use crate::slots::{Slots, fill_slot, filled, take_slot};
use crate::wish::{CallResult, RunFault};
use sal_history::Reply;
use sal_hub::{Hub, laws};
use sal_rows::{CallFault, Mode};
use sal_script::StepReply;
use sal_tx::Tx;
use sal_types::NoMemory;
use std::alloc::Global;

/// The reply to a call.
pub(crate) fn called(reply: Reply) -> StepReply
    ensures { result ≡ StepReply.Called reply }
{
    StepReply::Called { reply }
}

/// The reply to a refused call, unless that stops the client.
pub(crate) fn refused_call(fault: CallFault) -> CallResult
    ensures { IsAnswer (Err fault) result }
{
    match fault {
        CallFault::NoMemory => Err(RunFault::NoMemory),
        CallFault::HistoryFull => Err(RunFault::HistoryFull),
        fault => Ok(called(Reply::Refused { fault })),
    }
}

// The reply to a done begin.
fn begun(tx: &Tx) -> Reply
    ensures { result ≡ Reply.Begun (begun_of tx.now).base_commit (begun_of tx.now).on }
{
    match tx {
        Tx::Read(tx) => Reply::Begun {
            commit: tx.base_commit(),
            on: tx.on(),
        },
        Tx::Write(tx) => Reply::Begun {
            commit: tx.base_commit(),
            on: tx.on(),
        },
    }
}

/// Puts the transaction that begins into the slot, and returns the reply.
pub(crate) fn fill_begun(slots: &mut Slots<Tx>, slot: u8, tx: Tx) -> Result<StepReply, NoMemory>
    ensures reply { IfOk result (λ r. r ≡ StepReply.Called (Reply.Begun (begun_of tx).base_commit (begun_of tx).on)) }
    ensures slot { OnOk result (held slots.new ≡ set_slot slot (Some tx) (held slots.old)) }
{
    let reply = begun(&tx);
    fill_slot(slots, slot, tx)?;
    Ok(called(reply))
}

impl ClientState {
    ghost use Rattle.sal_client.specs.Clients.{opened, standing_of, IsSound};

    /// Begins a transaction into the slot.
    pub(crate) fn begin(
        &mut self,
        alloc: Global,
        hub: &mut Hub,
        slot: u8,
        domain: u32,
        mode: Mode,
    ) -> CallResult
        requires sound { IsSound hub.old self.old }
        ensures { Leaves (Begin slot domain mode) hub.old self.old hub.new self.new result }
    {
        laws::tokens_last();
        match hub.begin(alloc, self.number, domain, mode) {
            Ok(tx) => Ok(fill_begun(&mut self.transactions, slot, tx)?),
            Err(fault) => refused_call(fault),
        }
    }

    /// Submits the slot's transaction, which may write.
    pub(crate) fn submit(&mut self, alloc: Global, hub: &mut Hub, slot: u8) -> CallResult
        requires sound { IsSound hub.old self.old }
        requires writable { standing_of (opened self.old slot) ≡ Standing.Writable }
        ensures { Leaves (Submit slot) hub.old self.old hub.new self.new result }
    {
        laws::tokens_last();
        match take_slot(&mut self.transactions, slot) {
            Some(Tx::Write(tx)) => match hub.submit(alloc, self.number, tx) {
                Ok(receipt) => {
                    fill_slot(&mut self.receipts, slot, receipt)?;
                    let number = receipt.number();
                    Ok(called(Reply::Receipt { number }))
                }
                Err((tx, fault)) => {
                    fill_slot(&mut self.transactions, slot, Tx::Write(tx))?;
                    refused_call(fault)
                }
            },
            Some(Tx::Read(_)) => unreachable!(),
            None => unreachable!(),
        }
    }

    /// Cancels the slot's transaction.
    pub(crate) fn cancel(&mut self, alloc: Global, hub: &mut Hub, slot: u8) -> CallResult
        requires sound { IsSound hub.old self.old }
        requires filled { standing_of (opened self.old slot) ≡ Standing.Empty → ⊥ }
        ensures { Leaves (Cancel slot) hub.old self.old hub.new self.new result }
    {
        laws::tokens_last();
        match take_slot(&mut self.transactions, slot) {
            None => unreachable!(),
            Some(tx) => match hub.cancel(alloc, self.number, tx) {
                Ok(()) => Ok(called(Reply::Accepted)),
                Err((tx, fault)) => {
                    fill_slot(&mut self.transactions, slot, tx)?;
                    refused_call(fault)
                }
            },
        }
    }

    /// Settles the receipt in the slot.
    pub(crate) fn settle(&self, alloc: Global, hub: &mut Hub, slot: u8) -> CallResult
        requires sound { IsSound hub.old self.now }
        requires filled { IsSome (held self.now.receipts slot) }
        ensures { Leaves (Settle slot) hub.old self.now hub.new self.now result }
    {
        laws::tokens_last();
        let receipt = filled(&self.receipts, slot);
        let domain = receipt.domain();
        answer_to(settled(domain, hub.settle(alloc, self.number, *receipt)))
    }
}
