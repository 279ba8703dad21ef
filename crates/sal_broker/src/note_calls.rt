//! Shared calls of notifications, each in one turn.
ghost use Rattle.std.specs.Prelude.{◌≡◌, ℕ, List};
ghost use Rattle.sal_note.specs.declared.call.Note.{Note};
ghost use Rattle.sal_history.specs.declared.call.Call.TheVariants.{Offer, Subscribe, TakeNotes};
ghost use Rattle.sal_history.specs.declared.reply.Reply.TheVariants.{Accepted, Notes, Offered};
ghost use Rattle.sal_hub.specs.Answers.{Calls};
ghost use Rattle.sal_hub.specs.HubHistory.{entry_of};
ghost use Rattle.sal_broker.specs.Turns.{InTurn, Keeps};

use crate::sal::Sal;
use crate::seat::Seat;
use sal_note::NoteList;
use sal_rows::{CallFault, Rows};
use std::alloc::Global;
use std::sync::Wait;

impl Sal {
    /// Subscribes the client to the notification, a number of a node of the controller's own schema.
    pub fn subscribe<R: Wait>(
        &self,
        rt: &R,
        alloc: Global,
        seat: &mut Seat,
        note: u32,
    ) -> Result<(), CallFault>
        requires { seat.old.lock ≡ self.now }
        ensures same { Keeps self.now seat.old seat.new }
        ensures turn { InTurn seat.old.view seat.new.view (λ client found left. Calls found left (entry_of found client (Subscribe note)) (λ _. Accepted) result) }
    {
        let mut held = self.take_turn(rt, &mut seat.inner);
        let client = held.number();
        let answer = held.hub().subscribe(alloc, client, note);
        seat.inner = self.leave(held).inner;
        answer
    }

    /// Offers the notification to its subscribers, and returns how many got it: all of them, or none.
    pub fn offer<R: Wait>(
        &self,
        rt: &R,
        alloc: Global,
        seat: &mut Seat,
        note: u32,
        rows: Rows,
    ) -> Result<u32, CallFault>
        requires { seat.old.lock ≡ self.now }
        ensures same { Keeps self.now seat.old seat.new }
        ensures turn { InTurn seat.old.view seat.new.view (λ client found left. Calls found left (entry_of found client (Offer note rows)) (λ (count : ℕ). Offered count) result) }
    {
        let mut held = self.take_turn(rt, &mut seat.inner);
        let client = held.number();
        let answer = held.hub().offer(alloc, client, note, rows);
        seat.inner = self.leave(held).inner;
        answer
    }

    /// Takes all notifications that wait for the client, in order.
    pub fn take_notes<R: Wait>(
        &self,
        rt: &R,
        alloc: Global,
        seat: &mut Seat,
    ) -> Result<NoteList, CallFault>
        requires { seat.old.lock ≡ self.now }
        ensures same { Keeps self.now seat.old seat.new }
        ensures turn { InTurn seat.old.view seat.new.view (λ client found left. Calls found left (entry_of found client TakeNotes) (λ (list : List Note). Notes list) result) }
    {
        let mut held = self.take_turn(rt, &mut seat.inner);
        let client = held.number();
        let answer = held.hub().take_notes(alloc, client);
        seat.inner = self.leave(held).inner;
        answer
    }
}
