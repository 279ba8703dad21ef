//! Shared calls of RPCs, each in one turn.
ghost use Rattle.std.specs.Prelude.{◌≡◌, IfOk};
ghost use Rattle.sal_history.specs.declared.call.Call.TheVariants.{Answer, Collect, Invoke, NextCall, Provide, Withdraw};
ghost use Rattle.sal_history.specs.declared.reply.Reply.TheVariants.{Accepted, CallMade};
ghost use Rattle.sal_hub.specs.declared.call_id.CallId.{CallId as Made};
ghost use Rattle.sal_hub.specs.Answers.{Calls};
ghost use Rattle.sal_hub.specs.HubHistory.{entry_of};
ghost use Rattle.sal_hub.specs.Routed.{collect_reply, request_reply};
ghost use Rattle.sal_hub.specs.Tokens.{IsCall};
ghost use Rattle.sal_broker.specs.Seats.{known};
ghost use Rattle.sal_broker.specs.Turns.{InTurn, Keeps};

use crate::sal::Sal;
use crate::seat::Seat;
use sal_hub::CallId;
use sal_rows::{CallFault, Rows};
use sal_rpc::Request;
use sal_types::Path;
use std::alloc::Global;
use std::sync::Wait;

impl Sal {
    /// Registers the client as the provider of the RPC in the context, or without one. RPCs are numbers of nodes of the
    /// controller's own schema, and contexts are paths of its own domain.
    pub fn provide<R: Wait>(
        &self,
        rt: &R,
        alloc: Global,
        seat: &mut Seat,
        rpc: u32,
        context: Option<Path>,
    ) -> Result<(), CallFault>
        requires { seat.old.lock ≡ self.now }
        ensures same { Keeps self.now seat.old seat.new }
        ensures turn { InTurn seat.old.view seat.new.view (λ client found left. Calls found left (entry_of found client (Provide rpc context)) (λ _. Accepted) result) }
    {
        let mut held = self.take_turn(rt, &mut seat.inner);
        let client = held.number();
        let answer = held.hub().provide(alloc, client, rpc, context);
        seat.inner = self.leave(held).inner;
        answer
    }

    /// Ends the client's registration. Requests that wait for the client keep waiting for it.
    pub fn withdraw<R: Wait>(
        &self,
        rt: &R,
        alloc: Global,
        seat: &mut Seat,
        rpc: u32,
        context: Option<Path>,
    ) -> Result<(), CallFault>
        requires { seat.old.lock ≡ self.now }
        ensures same { Keeps self.now seat.old seat.new }
        ensures turn { InTurn seat.old.view seat.new.view (λ client found left. Calls found left (entry_of found client (Withdraw rpc context)) (λ _. Accepted) result) }
    {
        let mut held = self.take_turn(rt, &mut seat.inner);
        let client = held.number();
        let answer = held.hub().withdraw(alloc, client, rpc, context);
        seat.inner = self.leave(held).inner;
        answer
    }

    /// Makes a request; it then waits for the client that provides the RPC in this context, or else without one.
    pub fn invoke<R: Wait>(
        &self,
        rt: &R,
        alloc: Global,
        seat: &mut Seat,
        rpc: u32,
        context: Option<Path>,
        input: Rows,
    ) -> Result<CallId, CallFault>
        requires { seat.old.lock ≡ self.now }
        ensures same { Keeps self.now seat.old seat.new }
        ensures turn { InTurn seat.old.view seat.new.view (λ client found left. Calls found left (entry_of found client (Invoke rpc context input)) (λ (id : Made). CallMade id.number) result) }
        ensures given { IfOk result (IsCall (known seat.new.view)) }
        ensures rpc { IfOk result (λ id. id.rpc ≡ rpc) }
    {
        let mut held = self.take_turn(rt, &mut seat.inner);
        let client = held.number();
        let answer = held.hub().invoke(alloc, client, rpc, context, input);
        seat.inner = self.leave(held).inner;
        answer
    }

    /// Takes the next request that waits for the client, or none.
    pub fn next_call<R: Wait>(
        &self,
        rt: &R,
        alloc: Global,
        seat: &mut Seat,
    ) -> Result<Option<Request>, CallFault>
        requires { seat.old.lock ≡ self.now }
        ensures same { Keeps self.now seat.old seat.new }
        ensures turn { InTurn seat.old.view seat.new.view (λ client found left. Calls found left (entry_of found client NextCall) request_reply result) }
    {
        let mut held = self.take_turn(rt, &mut seat.inner);
        let client = held.number();
        let answer = held.hub().next_call(alloc, client);
        seat.inner = self.leave(held).inner;
        answer
    }

    /// Answers a request that the client took.
    pub fn answer<R: Wait>(
        &self,
        rt: &R,
        alloc: Global,
        seat: &mut Seat,
        id: u64,
        output: Rows,
    ) -> Result<(), CallFault>
        requires { seat.old.lock ≡ self.now }
        ensures same { Keeps self.now seat.old seat.new }
        ensures turn { InTurn seat.old.view seat.new.view (λ client found left. Calls found left (entry_of found client (Answer id output)) (λ _. Accepted) result) }
    {
        let mut held = self.take_turn(rt, &mut seat.inner);
        let client = held.number();
        let answer = held.hub().answer(alloc, client, id, output);
        seat.inner = self.leave(held).inner;
        answer
    }

    /// The answer to a request that the client made, or none if it is not answered yet.
    pub fn collect<R: Wait>(
        &self,
        rt: &R,
        alloc: Global,
        seat: &mut Seat,
        id: CallId,
    ) -> Result<Option<Rows>, CallFault>
        requires seat { seat.old.lock ≡ self.now }
        requires token { IsCall (known seat.old.view) id }
        ensures same { Keeps self.now seat.old seat.new }
        ensures turn { InTurn seat.old.view seat.new.view (λ client found left. Calls found left (entry_of found client (Collect id.number)) (collect_reply id.rpc) result) }
    {
        let mut held = self.take_turn(rt, &mut seat.inner);
        let client = held.number();
        held.knows_call(id);
        let answer = held.hub().collect(alloc, client, id);
        seat.inner = self.leave(held).inner;
        answer
    }
}
