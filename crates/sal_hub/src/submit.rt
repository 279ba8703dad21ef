//! Submissions.
ghost use Rattle.std.specs.Prelude.{◌≡◌, ℕ, ◌+◌, ◌-◌, ◌<◌, ◌≤◌, ◌||◌, IfOk, MatchResult, OnErr, OnOk, length, nat_eq};
ghost use Rattle.sal_tx.specs.Views.{IsRight};
ghost use Rattle.sal_history.specs.declared.call.Call.TheVariants.{Submit};
ghost use Rattle.sal_history.specs.declared.reply.Reply.TheVariants.{Receipt as Numbered};
ghost use Rattle.sal_hub.specs.declared.receipt.Receipt.{Receipt as Given};
ghost use Rattle.sal_hub.specs.Answers.{CallsOr, limit};
ghost use Rattle.sal_hub.specs.Current.{IsKept, known_of};
ghost use Rattle.sal_hub.specs.Failures.{IsWithin};
ghost use Rattle.sal_hub.specs.Journals.{jotted, mark_at};
ghost use Rattle.sal_hub.specs.HubHistory.{entry_of};
ghost use Rattle.sal_hub.specs.Submits.{IsAdded, refusal_of};
ghost use Rattle.sal_hub.specs.Tokens.{IsBegun, IsGiven};

use crate::hub::MAX_PENDING;
use crate::journal::Journal;
use crate::pipeline::Pipeline;
use crate::receipt::Receipt;
use sal_history::{Call, SharedOps};
use sal_rows::CallFault;
use sal_tx::WriteTx;
use sal_types::NoMemory;
use std::alloc::Global;

/// Submits the transaction, unless it is refused, and adds the entry.
pub(crate) fn submit(
    alloc: Global,
    pipeline: &mut Pipeline,
    journal: &mut Journal,
    client: u32,
    tx: WriteTx,
) -> Result<Receipt, (WriteTx, CallFault)>
    requires kept { IsKept journal.old pipeline.old }
    requires room { length journal.old.log < limit }
    requires token { IsBegun (known_of journal.old pipeline.old) tx.begun tx.mode tx.base }
    requires member { IsWithin (length pipeline.old.failures.items) tx.begun.chain }
    ensures kept { IsKept journal.new pipeline.new }
    ensures answer { CallsOr (known_of journal.old pipeline.old) (known_of journal.new pipeline.new) (entry_of (known_of journal.old pipeline.old) client (Submit tx.begun.place tx.changes)) (λ (receipt : Given). Numbered receipt.number) tx result }
    ensures given { IfOk result (IsGiven (known_of journal.new pipeline.new)) }
{
    match refusal(pipeline, journal, tx.begun().place as usize) {
        Some(fault) => match note(alloc, journal, client, &tx) {
            Ok(()) => Err((tx, fault)),
            Err(NoMemory) => Err((tx, CallFault::NoMemory)),
        },
        None => match accept(alloc, pipeline, journal, client, tx) {
            Ok(receipt) => Ok(receipt),
            Err(tx) => Err((tx, CallFault::NoMemory)),
        },
    }
}

// Why the submit of the transaction that began at the index is refused.
fn refusal(pipeline: &Pipeline, journal: &Journal, place: usize) -> Option<CallFault>
    requires { pipeline.now.gone ≡ length pipeline.now.outcomes.items }
    ensures { result ≡ refusal_of (pipeline.now.gone + length pipeline.now.waiting.items - length pipeline.now.outcomes.items) (mark_at journal.now.marks place) }
{
    if pipeline.waiting.len() >= MAX_PENDING {
        return Some(CallFault::PipelineFull);
    }
    if journal.is_spent(place) {
        return Some(CallFault::TxSpent);
    }
    None
}

// Adds the entry of a submit.
fn note(alloc: Global, journal: &mut Journal, client: u32, tx: &WriteTx) -> Result<(), NoMemory>
    requires { length journal.old.log < limit }
    ensures log { OnOk result (journal.new.log ≡ jotted journal.old.log client (Submit tx.now.begun.place tx.now.changes)) }
    ensures marks { OnOk result ((k : ℕ) → mark_at journal.new.marks k ≡ mark_at journal.old.marks k) }
    ensures err { OnErr result (journal.new ≡ journal.old) }
{
    let ops = SharedOps::of(tx.shared_ops(alloc)?);
    let place = tx.begun().place;
    journal.add(client, Call::Submit { place, ops })
}

// Adds the entry of a submit, which has the transaction's own list of operations.
fn note_shared(
    alloc: Global,
    journal: &mut Journal,
    client: u32,
    tx: &mut WriteTx,
) -> Result<(), NoMemory>
    requires { length journal.old.log < limit }
    ensures log { OnOk result (journal.new.log ≡ jotted journal.old.log client (Submit tx.old.begun.place tx.old.changes)) }
    ensures marks { OnOk result ((k : ℕ) → mark_at journal.new.marks k ≡ mark_at journal.old.marks k) }
    ensures err { OnErr result (journal.new ≡ journal.old) }
    ensures same { tx.new ≡ tx.old }
{
    let ops = SharedOps::of(tx.share_ops(alloc)?);
    let place = tx.begun().place;
    journal.add(client, Call::Submit { place, ops })
}

// Adds the submission and its entry, and flags the transaction as spent. If memory runs out, the transaction is returned, and
// nothing changes.
fn accept(
    alloc: Global,
    pipeline: &mut Pipeline,
    journal: &mut Journal,
    client: u32,
    tx: WriteTx,
) -> Result<Receipt, WriteTx>
    requires room { length journal.old.log < limit }
    requires few { pipeline.old.gone + length pipeline.old.waiting.items ≤ length journal.old.log }
    requires placed { tx.begun.place < length journal.old.log }
    ensures receipt { IfOk result (λ receipt. receipt ≡ record { number = pipeline.old.gone + length pipeline.old.waiting.items + 1; domain = tx.begun.domain }) }
    ensures right { OnOk result (IsRight tx) }
    ensures waiting { OnOk result (IsAdded tx (pipeline.old.gone + length pipeline.old.waiting.items + 1) pipeline.old.waiting.items pipeline.new.waiting.items) }
    ensures gone { pipeline.new.gone ≡ pipeline.old.gone }
    ensures log { OnOk result (journal.new.log ≡ jotted journal.old.log client (Submit tx.begun.place tx.changes)) }
    ensures marks { OnOk result ((k : ℕ) → mark_at journal.new.marks k ≡ (nat_eq tx.begun.place k || mark_at journal.old.marks k)) }
    ensures back { MatchResult result (λ _. Unit {0}) (λ back. back ≡ tx) }
    ensures domains { pipeline.new.domains ≡ pipeline.old.domains }
    ensures outcomes { pipeline.new.outcomes ≡ pipeline.old.outcomes }
    ensures failures { pipeline.new.failures ≡ pipeline.old.failures }
    ensures same { OnErr result (pipeline.new.waiting.items ≡ pipeline.old.waiting.items) }
    ensures journal { OnErr result (journal.new ≡ journal.old) }
{
    match pipeline.waiting.reserve(1) {
        Ok(()) => {}
        Err(_) => return Err(tx),
    }
    let mut tx = tx;
    match note_shared(alloc, journal, client, &mut tx) {
        Ok(()) => {}
        Err(NoMemory) => return Err(tx),
    }
    let receipt = (pipeline.gone + pipeline.waiting.len()) as u64 + 1;
    let domain = tx.begun().domain;
    journal.spend(tx.begun().place as usize);
    pipeline
        .waiting
        .push_back_reserved(tx.into_submission(receipt));
    Ok(Receipt::of(receipt, domain))
}
