//! The shared calls on RPCs and notifications.
ghost use Rattle.std.specs.Prelude.{◌≡◌, ℕ, IfOk};
ghost use Rattle.sal_history.specs.declared.call.Call.TheVariants.{Answer, Collect, Invoke, NextCall, Offer, Provide, Subscribe, TakeNotes, Withdraw};
ghost use Rattle.sal_history.specs.declared.reply.Reply.TheVariants.{Accepted, CallMade, Notes as Gives, Offered};
ghost use Rattle.sal_hub.specs.declared.call_id.CallId.{CallId as Given};
ghost use Rattle.sal_hub.specs.Answers.{Calls};
ghost use Rattle.sal_hub.specs.HubHistory.{entry_of};
ghost use Rattle.sal_hub.specs.Routed.{collect_reply, registering, request_reply, shared};
ghost use Rattle.sal_hub.specs.Tokens.{IsCall};

use crate::call_id::CallId;
use crate::hub::Hub;
use crate::note_calls::{Offering, offer, subscribe, take_notes};
use crate::rpc_calls::{
    Answering, Registration, RpcAsk, answer, collect, invoke, next_call, register,
};
use sal_note::NoteList;
use sal_rows::{CallFault, Rows};
use sal_rpc::Request;
use sal_types::Path;
use std::alloc::Global;

impl Hub {
    // Begins or ends the registration.
    fn register(&mut self, registration: Registration) -> Result<(), CallFault>
        ensures answer { Calls self.old self.new (entry_of self.old registration.client (shared (registering registration.begins registration.rpc registration.context))) (λ _. Accepted) result }
    {
        if self.journal.is_full() {
            return Err(CallFault::HistoryFull);
        }
        register(
            &self.pipeline,
            &mut self.journal,
            &mut self.services.router,
            registration,
        )
    }

    /// Registers the client as the provider of the RPC in the context, or without one.
    pub fn provide(
        &mut self,
        alloc: Global,
        client: u32,
        rpc: u32,
        context: Option<Path>,
    ) -> Result<(), CallFault>
        ensures answer { Calls self.old self.new (entry_of self.old client (Provide rpc context)) (λ _. Accepted) result }
    {
        let registration = Registration {
            client,
            rpc,
            context,
            begins: true,
        };
        self.register(registration)
    }

    /// Ends the client's registration.
    pub fn withdraw(
        &mut self,
        alloc: Global,
        client: u32,
        rpc: u32,
        context: Option<Path>,
    ) -> Result<(), CallFault>
        ensures answer { Calls self.old self.new (entry_of self.old client (Withdraw rpc context)) (λ _. Accepted) result }
    {
        let registration = Registration {
            client,
            rpc,
            context,
            begins: false,
        };
        self.register(registration)
    }

    /// Makes a request of the RPC in the context, or without one: it goes to the client that is registered for it then.
    pub fn invoke(
        &mut self,
        alloc: Global,
        client: u32,
        rpc: u32,
        context: Option<Path>,
        input: Rows,
    ) -> Result<CallId, CallFault>
        ensures answer { Calls self.old self.new (entry_of self.old client (Invoke rpc context input)) (λ (id : Given). CallMade id.number) result }
        ensures given { IfOk result (IsCall self.new) }
        ensures rpc { IfOk result (λ id. id.rpc ≡ rpc) }
    {
        if self.journal.is_full() {
            return Err(CallFault::HistoryFull);
        }
        let ask = RpcAsk {
            client,
            rpc,
            context,
            input,
        };
        invoke(
            alloc,
            &self.pipeline,
            &mut self.journal,
            &mut self.services.router,
            ask,
        )
    }

    /// Takes the next request that waits for the client, if any.
    pub fn next_call(&mut self, alloc: Global, client: u32) -> Result<Option<Request>, CallFault>
        ensures answer { Calls self.old self.new (entry_of self.old client NextCall) request_reply result }
    {
        if self.journal.is_full() {
            return Err(CallFault::HistoryFull);
        }
        next_call(
            &self.pipeline,
            &mut self.journal,
            &mut self.services.router,
            client,
        )
    }

    /// Answers a request that the client took.
    pub fn answer(
        &mut self,
        alloc: Global,
        client: u32,
        id: u64,
        output: Rows,
    ) -> Result<(), CallFault>
        ensures answer { Calls self.old self.new (entry_of self.old client (Answer id output)) (λ _. Accepted) result }
    {
        if self.journal.is_full() {
            return Err(CallFault::HistoryFull);
        }
        let answering = Answering { client, id, output };
        answer(
            &self.pipeline,
            &mut self.journal,
            &mut self.services.router,
            answering,
        )
    }

    /// The answer to a request that the client made; none if it is not answered yet.
    pub fn collect(
        &mut self,
        alloc: Global,
        client: u32,
        id: CallId,
    ) -> Result<Option<Rows>, CallFault>
        requires token { IsCall self.old id }
        ensures answer { Calls self.old self.new (entry_of self.old client (Collect id.number)) (collect_reply id.rpc) result }
    {
        if self.journal.is_full() {
            return Err(CallFault::HistoryFull);
        }
        collect(
            &self.pipeline,
            &mut self.journal,
            &self.services.router,
            client,
            id,
        )
    }

    /// Subscribes the client to the notification, unless it is subscribed.
    pub fn subscribe(&mut self, alloc: Global, client: u32, note: u32) -> Result<(), CallFault>
        ensures answer { Calls self.old self.new (entry_of self.old client (Subscribe note)) (λ _. Accepted) result }
    {
        if self.journal.is_full() {
            return Err(CallFault::HistoryFull);
        }
        subscribe(
            alloc,
            &self.pipeline,
            &mut self.journal,
            &mut self.services.notes,
            client,
            note,
        )
    }

    /// Gives the notification to all its subscribers, and returns their number.
    pub fn offer(
        &mut self,
        alloc: Global,
        client: u32,
        note: u32,
        rows: Rows,
    ) -> Result<u32, CallFault>
        ensures answer { Calls self.old self.new (entry_of self.old client (Offer note rows)) (λ (count : ℕ). Offered count) result }
    {
        if self.journal.is_full() {
            return Err(CallFault::HistoryFull);
        }
        let offering = Offering { client, note, rows };
        offer(
            alloc,
            &self.pipeline,
            &mut self.journal,
            &mut self.services.notes,
            offering,
        )
    }

    /// Takes all notifications that wait for the client, in order.
    pub fn take_notes(&mut self, alloc: Global, client: u32) -> Result<NoteList, CallFault>
        ensures answer { Calls self.old self.new (entry_of self.old client TakeNotes) Gives result }
    {
        if self.journal.is_full() {
            return Err(CallFault::HistoryFull);
        }
        take_notes(
            alloc,
            &self.pipeline,
            &mut self.journal,
            &mut self.services.notes,
            client,
        )
    }
}
