//! The steps of a client for RPCs, up to their calls.
ghost use Rattle.std.specs.Prelude.{◌≡◌};
ghost use Rattle.serde_json.specs.View.{view};
ghost use Rattle.sal_script.specs.Moves.{Answer as Answers};
ghost use Rattle.sal_client.specs.Asked.{IsAsk, IsAskBy, IsAnswerTo};
ghost use Rattle.sal_client.specs.Wishes.{wished};
ghost use Rattle.sal_client.specs.declared.rpcs.RpcWish.TheVariants.{Invoke, Provide, Withdraw};
ghost use Rattle.sal_client.specs.declared.wish.Wish.TheVariants.{Rpc};

use crate::client::ClientState;
use crate::fault::StepFault;
use crate::messages::{Service, input_of, output_of, rows_under, service_of};
use crate::reader::Reader;
use crate::readers::Readers;
use crate::slots::look_at;
use crate::wish::{Wish, Wished};
use sal_rows::Rows;
use sal_script::StepRefusal;
use sal_types::Str;
use serde_json::Value;
use std::alloc::Global;
use std::snapshot::Snapshot;

/// A request that the client took: its id, and the RPC.
#[derive(Clone, Copy, Debug, PartialEq, Eq)]
pub struct Invocation {
    pub id: u64,
    pub rpc: u32,
}

/// A request that a client makes, with the value from which its input was read. Only contracts use the value.
#[derive(Drop)]
pub struct Ask {
    pub service: Service,
    pub value: Snapshot<Value>,
    pub input: Rows,
}

/// The answer to a request that a client took, with the value from which it was read. Only contracts use the value.
#[derive(Drop)]
pub struct Answer {
    pub request: Invocation,
    pub value: Snapshot<Value>,
    pub output: Rows,
}

/// A call for RPCs that a client is ready to make.
#[derive(Drop)]
pub enum RpcWish {
    /// Registers the client for the service.
    Provide { service: Service },
    /// Ends the client's registration.
    Withdraw { service: Service },
    /// Makes a request; its id goes into the slot.
    Invoke { slot: u8, ask: Ask },
    /// Takes the next request that waits for the client into the slot.
    NextCall { slot: u8 },
    /// Answers the request in the slot.
    Answer { slot: u8, answer: Answer },
    /// Asks for the answer to the request in the slot, which the client made.
    Collect { slot: u8 },
}

// The request of the service with this input, or why the value is not an input.
fn ask_of(alloc: Global, reader: &Reader, service: Service, value: &Value) -> Result<Ask, StepFault>
    ensures { IsAsk reader.now service (view value.now) result }
{
    let node = input_of(reader.schema(), service.rpc);
    let input = rows_under(alloc, reader, node, value)?;
    Ok(Ask {
        service,
        value: Snapshot::of(value),
        input,
    })
}

/// The request of the RPC of this name in the context of the text with this input, or why there is none.
pub(crate) fn ask_by(
    alloc: Global,
    reader: &Reader,
    name: &Str,
    text: &Option<Str>,
    value: &Value,
) -> Result<Ask, StepFault>
    ensures { IsAskBy reader.now name.now text.now (view value.now) result }
{
    let service = service_of(alloc, reader, name, text)?;
    ask_of(alloc, reader, service, value)
}

// The answer to the request with this output, or why the value is not an output.
fn answer_of(
    alloc: Global,
    reader: &Reader,
    request: Invocation,
    value: &Value,
) -> Result<Answer, StepFault>
    ensures { IsAnswerTo reader.now request (view value.now) result }
{
    let node = output_of(reader.schema(), request.rpc);
    let output = rows_under(alloc, reader, node, value)?;
    Ok(Answer {
        request,
        value: Snapshot::of(value),
        output,
    })
}

/// To provide the service that was read.
pub(crate) fn provide_wish(read: Result<Service, StepFault>) -> Wished
    ensures { result ≡ wished (λ service. Rpc (Provide service)) read }
{
    match read {
        Ok(service) => Ok(Wish::Rpc(RpcWish::Provide { service })),
        Err(fault) => Err(fault),
    }
}

/// To withdraw it.
pub(crate) fn withdraw_wish(read: Result<Service, StepFault>) -> Wished
    ensures { result ≡ wished (λ service. Rpc (Withdraw service)) read }
{
    match read {
        Ok(service) => Ok(Wish::Rpc(RpcWish::Withdraw { service })),
        Err(fault) => Err(fault),
    }
}

/// To make the request that was read; its id goes into the slot.
pub(crate) fn invoke_wish(slot: u8, read: Result<Ask, StepFault>) -> Wished
    ensures { result ≡ wished (λ ask. Rpc (Invoke slot ask)) read }
{
    match read {
        Ok(ask) => Ok(Wish::Rpc(RpcWish::Invoke { slot, ask })),
        Err(fault) => Err(fault),
    }
}

impl ClientState {
    ghost use Rattle.sal_client.specs.Wishes.{Wants};

    /// To answer the request in the slot, if there is one and the value is an output of its RPC.
    pub(crate) fn answer_wish(
        &self,
        alloc: Global,
        readers: &Readers,
        slot: u8,
        value: &Value,
    ) -> Wished
        ensures { Wants readers.now self.now (Answers slot (view value.now)) result }
    {
        let Some(request) = look_at(&self.handed, slot) else {
            return Err(StepFault::Refused(StepRefusal::EmptySlot));
        };
        let answer = answer_of(alloc, readers.own(), *request, value)?;
        Ok(Wish::Rpc(RpcWish::Answer { slot, answer }))
    }
}
