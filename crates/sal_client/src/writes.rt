//! Writes in a client's transaction.
ghost use Rattle.std.specs.Prelude.{◌≡◌, Some, IfOk, IsTrue, MatchResult, ⊤};
ghost use Rattle.sal_script.specs.JsonScripts.{is_json_act};
ghost use Rattle.sal_script.specs.Play.{Open};
ghost use Rattle.sal_script.specs.Tables.{table_at};
ghost use Rattle.sal_rules.specs.Writes.{IsForSchema};
ghost use Rattle.sal_client.specs.Operations.{data_act_of, write_move};

use crate::client::{ClientState, Standing, refused};
use crate::fault::{LocalResult, refusal_reply};
use crate::looks::{domain_of, version_of};
use crate::operations::{JsonAct, Place, op_of};
use crate::readers::Readers;
use crate::slots::{fill_slot, look_at, take_slot};
use sal_rows::Op;
use sal_script::{StepRefusal, StepReply, laws};
use sal_tx::{Tx, TxFault};
use sal_types::NoMemory;
use std::alloc::Global;

// The reply to a write with this result.
fn reply_to(domain: u32, answer: Result<(), TxFault>) -> LocalResult
    ensures reply { IfOk result (λ r. MatchResult answer (λ _. r ≡ StepReply.Accepted) (λ fault. r ≡ StepReply.Refused (StepRefusal.Write domain fault))) }
    ensures memory { IfOk result (λ _. MatchResult answer (λ _. ⊤) (λ fault. fault ≡ TxFault.NoMemory → ⊥)) }
{
    match answer {
        Ok(()) => Ok(StepReply::Accepted),
        Err(TxFault::NoMemory) => Err(NoMemory),
        Err(fault) => Ok(refused(StepRefusal::Write { domain, fault })),
    }
}

impl ClientState {
    ghost use Rattle.sal_client.specs.Clients.{domain_of, opened, standing_of, version_of, HasSchema};
    ghost use Rattle.sal_client.specs.Meeting.{IsAnswered, IsWritten};

    // The domain of the slot's transaction; 0 for an empty slot.
    fn domain_in(&self, slot: u8) -> u32
        ensures { result ≡ domain_of (opened self.now slot) }
    {
        match look_at(&self.transactions, slot) {
            None => 0,
            Some(tx) => domain_of(tx),
        }
    }

    // The version by which it is read; 0 for an empty slot.
    fn version_in(&self, slot: u8) -> u32
        ensures { result ≡ version_of (opened self.now slot) }
    {
        match look_at(&self.transactions, slot) {
            None => 0,
            Some(tx) => version_of(tx),
        }
    }

    /// Writes at the path of the text, if the slot's transaction may write.
    pub(crate) fn write(
        &mut self,
        alloc: Global,
        readers: &Readers,
        place: Place,
        act: JsonAct,
    ) -> LocalResult
        requires schema { HasSchema readers.now self.old }
        requires json { IsTrue (is_json_act (data_act_of act)) }
        ensures { IfOk result (λ r. IsAnswered readers.now self.old (write_move place.entry.slot place.entry.store place.entry.text.now (data_act_of act.entry)) r self.new) }
    {
        match self.standing(place.slot) {
            Standing::Empty => Ok(refused(StepRefusal::EmptySlot)),
            Standing::ReadOnly => Ok(refused(StepRefusal::ReadOnly)),
            Standing::Writable => {
                let domain = self.domain_in(place.slot);
                let version = self.version_in(place.slot);
                let reader = readers.reader(domain, version);
                match op_of(alloc, reader, domain, place, act) {
                    Ok(op) => {
                        laws::writes_are_for_schema();
                        let _count = reader.schema().len();
                        self.write_op(alloc, readers, place.slot, op)
                    }
                    Err(fault) => refusal_reply(fault),
                }
            }
        }
    }

    // Adds the operation to the slot's transaction, which may write, unless it is refused.
    fn write_op(&mut self, alloc: Global, readers: &Readers, slot: u8, op: Op) -> LocalResult
        requires schema { HasSchema readers.now self.old }
        requires for_schema { (tx : Open) → opened self.old slot ≡ Some tx → IsForSchema (table_at readers.now tx.version tx.domain) op }
        requires writable { standing_of (opened self.old slot) ≡ Standing.Writable }
        ensures { IfOk result (λ r. IsWritten readers.now self.old slot op r self.new) }
    {
        match take_slot(&mut self.transactions, slot) {
            Some(Tx::Write(taken)) => {
                let mut tx = taken;
                let domain = tx.domain();
                let reply = reply_to(domain, tx.write(alloc, op))?;
                fill_slot(&mut self.transactions, slot, Tx::Write(tx))?;
                Ok(reply)
            }
            Some(Tx::Read(_)) => unreachable!(),
            None => unreachable!(),
        }
    }
}
