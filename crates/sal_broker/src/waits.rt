//! Looks at what waits for a client, each in one turn, without an entry.
ghost use Rattle.std.specs.Prelude.{◌≡◌, is_some};
ghost use Rattle.sal_history.specs.declared.call.Call.TheVariants.{Collect, NextCall, Take, TakeNotes};
ghost use Rattle.sal_history.specs.History.{history, outcomes};
ghost use Rattle.sal_history.specs.Numbered.{numbered};
ghost use Rattle.sal_hub.specs.Tokens.{IsListener};
ghost use Rattle.sal_hub.specs.Waiting.{would_give};
ghost use Rattle.sal_broker.specs.Seats.{known};
ghost use Rattle.sal_broker.specs.Turns.{InTurn, Keeps};

use crate::sal::Sal;
use crate::seat::Seat;
use sal_hub::{CallId, ListenerId, Receipt};
use std::sync::Wait;

impl Sal {
    /// Whether a request waits for the client: whether `next_call` would have returned one in this turn.
    pub fn has_request<R: Wait>(&self, rt: &R, seat: &mut Seat) -> bool
        requires { seat.old.lock ≡ self.now }
        ensures same { Keeps self.now seat.old seat.new }
        ensures turn { InTurn seat.old.view seat.new.view (λ client found left. (left ≡ found) × (result ≡ would_give found client NextCall)) }
    {
        let mut held = self.take_turn(rt, &mut seat.inner);
        let client = held.number();
        let answer = held.hub().has_request(client);
        seat.inner = self.leave(held).inner;
        answer
    }

    /// Whether the client's request is answered: whether `collect` would have returned rows in this turn.
    pub fn has_answer<R: Wait>(&self, rt: &R, seat: &mut Seat, id: CallId) -> bool
        requires { seat.old.lock ≡ self.now }
        ensures same { Keeps self.now seat.old seat.new }
        ensures turn { InTurn seat.old.view seat.new.view (λ client found left. (left ≡ found) × (result ≡ would_give found client (Collect id.number))) }
    {
        let mut held = self.take_turn(rt, &mut seat.inner);
        let client = held.number();
        let answer = held.hub().has_answer(client, id);
        seat.inner = self.leave(held).inner;
        answer
    }

    /// Whether a notification waits for the client: whether `take_notes` would have returned any in this turn.
    pub fn has_notes<R: Wait>(&self, rt: &R, seat: &mut Seat) -> bool
        requires { seat.old.lock ≡ self.now }
        ensures same { Keeps self.now seat.old seat.new }
        ensures turn { InTurn seat.old.view seat.new.view (λ client found left. (left ≡ found) × (result ≡ would_give found client TakeNotes)) }
    {
        let mut held = self.take_turn(rt, &mut seat.inner);
        let client = held.number();
        let answer = held.hub().has_notes(client);
        seat.inner = self.leave(held).inner;
        answer
    }

    /// Whether the listener's domain has commits that the client has not taken: whether the batch of a `take` in this turn would have gone
    /// beyond the one before. These commits may have changed nothing at the listener's path.
    pub fn has_commits<R: Wait>(&self, rt: &R, seat: &mut Seat, id: ListenerId) -> bool
        requires seat { seat.old.lock ≡ self.now }
        requires token { IsListener (known seat.old.view) id }
        ensures same { Keeps self.now seat.old seat.new }
        ensures turn { InTurn seat.old.view seat.new.view (λ client found left. (left ≡ found) × (result ≡ would_give found client (Take id.number))) }
    {
        let mut held = self.take_turn(rt, &mut seat.inner);
        let client = held.number();
        held.knows_listener(id);
        let answer = held.hub().has_commits(client, id);
        seat.inner = self.leave(held).inner;
        answer
    }

    /// Whether the submission was decided before this turn.
    pub fn is_decided<R: Wait>(&self, rt: &R, seat: &mut Seat, receipt: Receipt) -> bool
        requires { seat.old.lock ≡ self.now }
        ensures same { Keeps self.now seat.old seat.new }
        ensures turn { InTurn seat.old.view seat.new.view (λ client found left. (left ≡ found) × (result ≡ is_some (numbered (outcomes (history found.world found.log)) receipt.number))) }
    {
        let mut held = self.take_turn(rt, &mut seat.inner);
        let answer = held.hub().is_decided(receipt);
        seat.inner = self.leave(held).inner;
        answer
    }
}
