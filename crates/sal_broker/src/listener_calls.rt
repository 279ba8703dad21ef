//! Shared calls of listeners, each in one turn.
ghost use Rattle.std.specs.Prelude.{◌≡◌, IfOk};
ghost use Rattle.sal_rows.specs.declared.batch.Batch.{Batch as Told};
ghost use Rattle.sal_history.specs.declared.call.Call.TheVariants.{Listen, Take, Unlisten};
ghost use Rattle.sal_history.specs.declared.reply.Reply.TheVariants.{Accepted, Batch as Tells};
ghost use Rattle.sal_hub.specs.Answers.{Calls};
ghost use Rattle.sal_hub.specs.HubHistory.{entry_of};
ghost use Rattle.sal_hub.specs.Listeners.{IsMade, listener_reply};
ghost use Rattle.sal_hub.specs.Tokens.{IsListener};
ghost use Rattle.sal_broker.specs.Seats.{known};
ghost use Rattle.sal_broker.specs.Turns.{InTurn, Keeps};

use crate::sal::Sal;
use crate::seat::Seat;
use sal_hub::ListenerId;
use sal_rows::{Batch, CallFault, Opened};
use sal_types::{Path, Store};
use std::alloc::Global;
use std::sync::Wait;

impl Sal {
    /// Makes a listener at the path of a store of the domain, and returns the rows at and below it at the newest commit.
    pub fn listen<R: Wait>(
        &self,
        rt: &R,
        alloc: Global,
        seat: &mut Seat,
        domain: u32,
        store: Store,
        path: &Path,
    ) -> Result<(ListenerId, Opened), CallFault>
        requires { seat.old.lock ≡ self.now }
        ensures same { Keeps self.now seat.old seat.new }
        ensures turn { InTurn seat.old.view seat.new.view (λ client found left. Calls found left (entry_of found client (Listen domain store path.now)) (listener_reply domain path.now) result) }
        ensures given { IfOk result (λ given. IsListener (known seat.new.view) given.0) }
        ensures domain { IfOk result (λ given. given.0.domain ≡ domain) }
        ensures made { IfOk result (λ given. IsMade (known seat.new.view) given.0 (record { client = seat.old.view.number; domain = domain; store = store; path = path.now })) }
    {
        let mut held = self.take_turn(rt, &mut seat.inner);
        let client = held.number();
        let answer = held.hub().listen(alloc, client, domain, store, path);
        seat.inner = self.leave(held).inner;
        answer
    }

    /// Takes the batch of the client's listener: the changes of each commit since its opening, or since its last batch.
    pub fn take<R: Wait>(
        &self,
        rt: &R,
        alloc: Global,
        seat: &mut Seat,
        id: ListenerId,
    ) -> Result<Batch, CallFault>
        requires seat { seat.old.lock ≡ self.now }
        requires token { IsListener (known seat.old.view) id }
        ensures same { Keeps self.now seat.old seat.new }
        ensures turn { InTurn seat.old.view seat.new.view (λ client found left. Calls found left (entry_of found client (Take id.number)) (λ (b : Told). Tells id.domain b) result) }
    {
        let mut held = self.take_turn(rt, &mut seat.inner);
        let client = held.number();
        held.knows_listener(id);
        let answer = held.hub().take(alloc, client, id);
        seat.inner = self.leave(held).inner;
        answer
    }

    /// Removes the client's listener.
    pub fn unlisten<R: Wait>(
        &self,
        rt: &R,
        alloc: Global,
        seat: &mut Seat,
        id: ListenerId,
    ) -> Result<(), CallFault>
        requires seat { seat.old.lock ≡ self.now }
        requires token { IsListener (known seat.old.view) id }
        ensures same { Keeps self.now seat.old seat.new }
        ensures turn { InTurn seat.old.view seat.new.view (λ client found left. Calls found left (entry_of found client (Unlisten id.number)) (λ _. Accepted) result) }
    {
        let mut held = self.take_turn(rt, &mut seat.inner);
        let client = held.number();
        held.knows_listener(id);
        let answer = held.hub().unlisten(alloc, client, id);
        seat.inner = self.leave(held).inner;
        answer
    }
}
