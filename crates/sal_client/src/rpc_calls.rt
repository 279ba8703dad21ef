//! The shared calls of a client for RPCs.
ghost use Rattle.std.specs.Prelude.{◌≡◌, IsSome, OnOk};
ghost use Rattle.sal_hub.specs.Routed.{request_reply};
ghost use Rattle.sal_client.specs.Asked.{handed_with};
ghost use Rattle.sal_client.specs.Leaving.{Leaves};
ghost use Rattle.sal_client.specs.Slots.{held};
ghost use Rattle.sal_client.specs.declared.rpcs.RpcWish.TheVariants.{Collect, Invoke, NextCall};
ghost use Rattle.sal_client.specs.declared.wish.Wish.TheVariants.{Rpc as RpcCall};

use crate::answers::{accepted, answer_to, output};
use crate::calls::{called, refused_call};
use crate::client::ClientState;
use crate::messages::Service;
use crate::rpcs::{Answer, Ask, Invocation, RpcWish};
use crate::slots::{Slots, fill_slot, filled};
use crate::wish::CallResult;
use sal_history::Reply;
use sal_hub::{Hub, laws};
use sal_rpc::Request;
use sal_types::NoMemory;
use std::alloc::Global;

// The reply to a done look for the next request.
fn handed(found: Option<Request>) -> Reply
    ensures { result ≡ request_reply found }
{
    match found {
        Some(request) => Reply::Request { request },
        None => Reply::Nothing,
    }
}

// Puts the request, if there is one, into the slot.
fn put_handed(
    slots: &mut Slots<Invocation>,
    slot: u8,
    found: &Option<Request>,
) -> Result<(), NoMemory>
    ensures { OnOk result (held slots.new ≡ handed_with slot found.now (held slots.old)) }
{
    let Some(request) = found else {
        return Ok(());
    };
    let invocation = Invocation {
        id: request.id,
        rpc: request.rpc,
    };
    fill_slot(slots, slot, invocation)
}

impl ClientState {
    ghost use Rattle.sal_client.specs.Clients.{IsSound};
    ghost use Rattle.sal_client.specs.Wishes.{CanMake};

    // Makes a request; its id goes into the slot.
    fn invoke(&mut self, alloc: Global, hub: &mut Hub, slot: u8, ask: Ask) -> CallResult
        requires sound { IsSound hub.old self.old }
        ensures { Leaves (RpcCall (Invoke slot ask)) hub.old self.old hub.new self.new result }
    {
        laws::tokens_last();
        let Ask { service, input, .. } = ask;
        let Service { rpc, context, .. } = service;
        match hub.invoke(alloc, self.number, rpc, context, input) {
            Ok(id) => {
                fill_slot(&mut self.invoked, slot, id)?;
                let number = id.number();
                Ok(called(Reply::CallMade { id: number }))
            }
            Err(fault) => refused_call(fault),
        }
    }

    // Takes the next request that waits for the client into the slot.
    fn next_call(&mut self, alloc: Global, hub: &mut Hub, slot: u8) -> CallResult
        requires sound { IsSound hub.old self.old }
        ensures { Leaves (RpcCall (NextCall slot)) hub.old self.old hub.new self.new result }
    {
        laws::tokens_last();
        match hub.next_call(alloc, self.number) {
            Ok(found) => {
                put_handed(&mut self.handed, slot, &found)?;
                Ok(called(handed(found)))
            }
            Err(fault) => refused_call(fault),
        }
    }

    // Asks for the answer to the request in the slot.
    fn collect(&self, alloc: Global, hub: &mut Hub, slot: u8) -> CallResult
        requires sound { IsSound hub.old self.now }
        requires filled { IsSome (held self.now.invoked slot) }
        ensures { Leaves (RpcCall (Collect slot)) hub.old self.now hub.new self.now result }
    {
        laws::tokens_last();
        let id = filled(&self.invoked, slot);
        answer_to(output(id.rpc(), hub.collect(alloc, self.number, *id)))
    }

    /// Makes the call for RPCs, and keeps its results in the slots.
    pub(crate) fn call_rpc(&mut self, alloc: Global, hub: &mut Hub, wish: RpcWish) -> CallResult
        requires sound { IsSound hub.old self.old }
        requires can { CanMake (RpcCall wish) self.old }
        ensures { Leaves (RpcCall wish) hub.old self.old hub.new self.new result }
    {
        laws::tokens_last();
        match wish {
            RpcWish::Provide { service } => {
                let Service { rpc, context, .. } = service;
                answer_to(accepted(hub.provide(alloc, self.number, rpc, context)))
            }
            RpcWish::Withdraw { service } => {
                let Service { rpc, context, .. } = service;
                answer_to(accepted(hub.withdraw(alloc, self.number, rpc, context)))
            }
            RpcWish::Invoke { slot, ask } => self.invoke(alloc, hub, slot, ask),
            RpcWish::NextCall { slot } => self.next_call(alloc, hub, slot),
            RpcWish::Answer { answer, .. } => {
                let Answer {
                    request,
                    output,
                    ..
                } = answer;
                answer_to(accepted(hub.answer(alloc, self.number, request.id, output)))
            }
            RpcWish::Collect { slot } => self.collect(alloc, hub, slot),
        }
    }
}
