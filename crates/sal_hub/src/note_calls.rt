//! The calls on notifications.
ghost use Rattle.std.specs.Prelude.{◌≡◌, ℕ, ◌<◌, OnErr, OnOk, length};
ghost use Rattle.sal_history.specs.declared.call.Call.TheVariants.{Offer, Subscribe, TakeNotes};
ghost use Rattle.sal_history.specs.declared.reply.Reply.TheVariants.{Accepted, Notes as Gives, Offered};
ghost use Rattle.sal_history.specs.Services as services;
ghost use Rattle.sal_hub.specs.Answers.{CallsOver, limit};
ghost use Rattle.sal_hub.specs.Journals.{jotted, mark_at, taken_back};
ghost use Rattle.sal_hub.specs.Notified.{AreNoted, left_by};
ghost use Rattle.sal_hub.specs.Services.{IsServed};

use crate::journal::Journal;
use crate::pipeline::Pipeline;
use sal_history::Call;
use sal_note::{NoteFault, NoteList, Notes};
use sal_rows::{CallFault, Rows};
use sal_types::{Duplicate, NoMemory};
use std::alloc::Global;

/// A client's offer: the notification, with its rows.
#[derive(Drop)]
pub(crate) struct Offering {
    pub(crate) client: u32,
    pub(crate) note: u32,
    pub(crate) rows: Rows,
}

/// Subscribes the client to the notification, and adds the entry.
pub(crate) fn subscribe(
    alloc: Global,
    pipeline: &Pipeline,
    journal: &mut Journal,
    notes: &mut Notes,
    client: u32,
    note: u32,
) -> Result<(), CallFault>
    requires service { IsServed AreNoted journal.old pipeline.now notes.old }
    requires room { length journal.old.log < limit }
    ensures service { IsServed AreNoted journal.new pipeline.now notes.new }
    ensures answer { CallsOver pipeline.now journal.old journal.new client (Subscribe note) (λ _. Accepted) result }
{
    match journal.add(client, Call::Subscribe { note }) {
        Ok(()) => {}
        Err(NoMemory) => return Err(CallFault::NoMemory),
    }
    match notes.subscribe(alloc, client, note) {
        Ok(()) => Ok(()),
        Err(fault) => Err(failed(journal, fault)),
    }
}

/// Gives the notification to all its subscribers, unless that is refused, and adds the entry.
pub(crate) fn offer(
    alloc: Global,
    pipeline: &Pipeline,
    journal: &mut Journal,
    notes: &mut Notes,
    offering: Offering,
) -> Result<u32, CallFault>
    requires service { IsServed AreNoted journal.old pipeline.now notes.old }
    requires room { length journal.old.log < limit }
    ensures service { IsServed AreNoted journal.new pipeline.now notes.new }
    ensures answer { CallsOver pipeline.now journal.old journal.new offering.client (Offer offering.note offering.rows) (λ (count : ℕ). Offered count) result }
{
    match enter_offer(journal, &offering) {
        Ok(()) => {}
        Err(NoMemory) => return Err(CallFault::NoMemory),
    }
    match notes.offer(alloc, offering.client, offering.note, offering.rows) {
        Ok(count) => Ok(count),
        Err(fault) => Err(failed(journal, fault)),
    }
}

/// Takes all notifications that wait for the client, and adds the entry.
pub(crate) fn take_notes(
    alloc: Global,
    pipeline: &Pipeline,
    journal: &mut Journal,
    notes: &mut Notes,
    client: u32,
) -> Result<NoteList, CallFault>
    requires service { IsServed AreNoted journal.old pipeline.now notes.old }
    requires room { length journal.old.log < limit }
    ensures service { IsServed AreNoted journal.new pipeline.now notes.new }
    ensures answer { CallsOver pipeline.now journal.old journal.new client TakeNotes Gives result }
{
    match journal.add(client, Call::TakeNotes) {
        Ok(()) => {}
        Err(NoMemory) => return Err(CallFault::NoMemory),
    }
    let list = notes.take_notes(alloc, client);
    Ok(list)
}

// The refusal of a call on notifications, as one of the call.
fn note_fault(fault: NoteFault) -> CallFault
    ensures { result ≡ services.note_fault fault }
{
    match fault {
        NoteFault::NoteRejected { subscriber } => CallFault::NoteRejected { subscriber },
        NoteFault::NoMemory => CallFault::NoMemory,
    }
}

// The same if memory may have run out: then the entry is removed.
fn failed(journal: &mut Journal, fault: NoteFault) -> CallFault
    ensures fault { result ≡ services.note_fault fault }
    ensures journal { journal.new ≡ left_by fault journal.old }
{
    if let NoteFault::NoMemory = fault {
        journal.take_back();
        return CallFault::NoMemory;
    }
    note_fault(fault)
}

// Adds the entry of an offer.
fn enter_offer(journal: &mut Journal, offering: &Offering) -> Result<(), NoMemory>
    requires { length journal.old.log < limit }
    ensures log { OnOk result (journal.new.log ≡ jotted journal.old.log offering.now.client (Offer offering.now.note offering.now.rows)) }
    ensures marks { OnOk result ((k : ℕ) → mark_at journal.new.marks k ≡ mark_at journal.old.marks k) }
    ensures undo { OnOk result (taken_back journal.new ≡ journal.old) }
    ensures err { OnErr result (journal.new ≡ journal.old) }
{
    let rows = offering.rows.copy()?;
    let note = offering.note;
    journal.add(offering.client, Call::Offer { note, rows })
}
