//! The calls on the router.
ghost use Rattle.std.specs.Prelude.{◌≡◌, ℕ, ◌<◌, IfOk, OnErr, OnOk, length};
ghost use Rattle.sal_rpc.specs.Answers as routing;
ghost use Rattle.sal_rpc.specs.declared.call.RpcReply.TheVariants as replies;
ghost use Rattle.sal_history.specs.declared.call.Call.TheVariants.{Answer, Collect, Invoke, NextCall};
ghost use Rattle.sal_history.specs.declared.reply.Reply.TheVariants.{Accepted, CallMade};
ghost use Rattle.sal_history.specs.Services as services;
ghost use Rattle.sal_hub.specs.declared.call_id.CallId.{CallId as Given};
ghost use Rattle.sal_hub.specs.Answers.{CallsOver, limit};
ghost use Rattle.sal_hub.specs.Current.{known_of};
ghost use Rattle.sal_hub.specs.Journals.{jotted, mark_at, taken_back};
ghost use Rattle.sal_hub.specs.Routed.{AreRouted, left_by, collect_reply, registering, request_reply, shared};
ghost use Rattle.sal_hub.specs.Services.{IsServed};
ghost use Rattle.sal_hub.specs.Tokens.{IsCall};

use crate::call_id::CallId;
use crate::journal::Journal;
use crate::pipeline::Pipeline;
use sal_history::Call;
use sal_rows::{CallFault, Rows};
use sal_rpc::{Request, Router, RpcFault};
use sal_types::{Duplicate, NoMemory, Path};
use std::alloc::Global;

/// A client that begins to provide the RPC in the context, or without one, or ends that.
#[derive(Drop)]
pub(crate) struct Registration {
    pub(crate) client: u32,
    pub(crate) rpc: u32,
    pub(crate) context: Option<Path>,
    pub(crate) begins: bool,
}

/// A client's request of an RPC, in the context, or without one.
#[derive(Drop)]
pub(crate) struct RpcAsk {
    pub(crate) client: u32,
    pub(crate) rpc: u32,
    pub(crate) context: Option<Path>,
    pub(crate) input: Rows,
}

/// A client's answer: the number of the request, with the output.
#[derive(Drop)]
pub(crate) struct Answering {
    pub(crate) client: u32,
    pub(crate) id: u64,
    pub(crate) output: Rows,
}

/// Begins or ends the registration, unless that is refused, and adds the entry.
pub(crate) fn register(
    pipeline: &Pipeline,
    journal: &mut Journal,
    router: &mut Router,
    registration: Registration,
) -> Result<(), CallFault>
    requires service { IsServed AreRouted journal.old pipeline.now router.old }
    requires room { length journal.old.log < limit }
    ensures service { IsServed AreRouted journal.new pipeline.now router.new }
    ensures answer { CallsOver pipeline.now journal.old journal.new registration.client (shared (registering registration.begins registration.rpc registration.context)) (λ _. Accepted) result }
{
    match enter_registration(journal, &registration) {
        Ok(()) => {}
        Err(NoMemory) => return Err(CallFault::NoMemory),
    }
    match register_at(router, registration) {
        Ok(()) => Ok(()),
        Err(fault) => Err(failed(journal, fault)),
    }
}

/// Makes a request, unless that is refused, and adds the entry.
pub(crate) fn invoke(
    alloc: Global,
    pipeline: &Pipeline,
    journal: &mut Journal,
    router: &mut Router,
    ask: RpcAsk,
) -> Result<CallId, CallFault>
    requires service { IsServed AreRouted journal.old pipeline.now router.old }
    requires room { length journal.old.log < limit }
    ensures service { IsServed AreRouted journal.new pipeline.now router.new }
    ensures answer { CallsOver pipeline.now journal.old journal.new ask.client (Invoke ask.rpc ask.context ask.input) (λ (id : Given). CallMade id.number) result }
    ensures given { IfOk result (IsCall (known_of journal.new pipeline.now)) }
    ensures rpc { IfOk result (λ id. id.rpc ≡ ask.rpc) }
{
    match enter_invoke(journal, &ask) {
        Ok(()) => {}
        Err(NoMemory) => return Err(CallFault::NoMemory),
    }
    let rpc = ask.rpc;
    match router.invoke(alloc, ask.client, rpc, ask.context, ask.input) {
        Ok(number) => Ok(CallId::of(number, rpc)),
        Err(fault) => Err(failed(journal, fault)),
    }
}

/// Takes the next request that waits for the client, if any, and adds the entry.
pub(crate) fn next_call(
    pipeline: &Pipeline,
    journal: &mut Journal,
    router: &mut Router,
    client: u32,
) -> Result<Option<Request>, CallFault>
    requires service { IsServed AreRouted journal.old pipeline.now router.old }
    requires room { length journal.old.log < limit }
    ensures service { IsServed AreRouted journal.new pipeline.now router.new }
    ensures answer { CallsOver pipeline.now journal.old journal.new client NextCall request_reply result }
{
    match journal.add(client, Call::NextCall) {
        Ok(()) => {}
        Err(NoMemory) => return Err(CallFault::NoMemory),
    }
    let request = router.next_call(client);
    Ok(request)
}

/// Answers a request that the client took, unless that is refused, and adds the entry.
pub(crate) fn answer(
    pipeline: &Pipeline,
    journal: &mut Journal,
    router: &mut Router,
    answering: Answering,
) -> Result<(), CallFault>
    requires service { IsServed AreRouted journal.old pipeline.now router.old }
    requires room { length journal.old.log < limit }
    ensures service { IsServed AreRouted journal.new pipeline.now router.new }
    ensures answer { CallsOver pipeline.now journal.old journal.new answering.client (Answer answering.id answering.output) (λ _. Accepted) result }
{
    match enter_answer(journal, &answering) {
        Ok(()) => {}
        Err(NoMemory) => return Err(CallFault::NoMemory),
    }
    match router.answer(answering.client, answering.id, answering.output) {
        Ok(()) => Ok(()),
        Err(fault) => Err(rpc_fault(fault)),
    }
}

/// The answer to a request that the client made, if it has one; the entry is added.
pub(crate) fn collect(
    pipeline: &Pipeline,
    journal: &mut Journal,
    router: &Router,
    client: u32,
    id: CallId,
) -> Result<Option<Rows>, CallFault>
    requires service { IsServed AreRouted journal.old pipeline.now router.now }
    requires room { length journal.old.log < limit }
    requires token { IsCall (known_of journal.old pipeline.now) id }
    ensures service { IsServed AreRouted journal.new pipeline.now router.now }
    ensures answer { CallsOver pipeline.now journal.old journal.new client (Collect id.number) (collect_reply id.rpc) result }
{
    let number = id.number();
    match journal.add(client, Call::Collect { id: number }) {
        Ok(()) => {}
        Err(NoMemory) => return Err(CallFault::NoMemory),
    }
    match router.collect(client, number) {
        Ok(output) => Ok(output),
        Err(fault) => Err(failed(journal, fault)),
    }
}

// The router's refusal, as one of the call.
fn rpc_fault(fault: RpcFault) -> CallFault
    ensures { result ≡ services.rpc_fault fault }
{
    match fault {
        RpcFault::NoProvider { rpc } => CallFault::NoProvider { rpc },
        RpcFault::ProviderTaken { rpc } => CallFault::ProviderTaken { rpc },
        RpcFault::NoCall { id } => CallFault::NoCall { id },
        RpcFault::NoMemory => CallFault::NoMemory,
    }
}

// The same if memory may have run out: then the entry is removed.
fn failed(journal: &mut Journal, fault: RpcFault) -> CallFault
    ensures fault { result ≡ services.rpc_fault fault }
    ensures journal { journal.new ≡ left_by fault journal.old }
{
    if let RpcFault::NoMemory = fault {
        journal.take_back();
        return CallFault::NoMemory;
    }
    rpc_fault(fault)
}

// A copy of the context.
fn copied(context: &Option<Path>) -> Result<Option<Path>, NoMemory>
    ensures { IfOk result (λ copy. copy ≡ context.now) }
{
    match context {
        None => Ok(None),
        Some(path) => Ok(Some(path.copy()?)),
    }
}

// Begins the registration at the router, or ends it.
fn register_at(router: &mut Router, registration: Registration) -> Result<(), RpcFault>
    ensures { routing.Answers router.old router.new registration.client (registering registration.begins registration.rpc registration.context) (λ _. replies.Accepted) result }
{
    if registration.begins {
        router.provide(registration.client, registration.rpc, registration.context)
    } else {
        router.withdraw(registration.client, registration.rpc, registration.context)
    }
}

// The call that begins a registration, or ends it.
fn registration_call(begins: bool, rpc: u32, context: Option<Path>) -> Call
    ensures { result ≡ shared (registering begins rpc context) }
{
    if begins {
        Call::Provide { rpc, context }
    } else {
        Call::Withdraw { rpc, context }
    }
}

// Adds the entry of a registration, or of its end.
fn enter_registration(journal: &mut Journal, registration: &Registration) -> Result<(), NoMemory>
    requires { length journal.old.log < limit }
    ensures log { OnOk result (journal.new.log ≡ jotted journal.old.log registration.now.client (shared (registering registration.now.begins registration.now.rpc registration.now.context))) }
    ensures marks { OnOk result ((k : ℕ) → mark_at journal.new.marks k ≡ mark_at journal.old.marks k) }
    ensures undo { OnOk result (taken_back journal.new ≡ journal.old) }
    ensures err { OnErr result (journal.new ≡ journal.old) }
{
    let context = copied(&registration.context)?;
    let call = registration_call(registration.begins, registration.rpc, context);
    journal.add(registration.client, call)
}

// Adds the entry of a request.
fn enter_invoke(journal: &mut Journal, ask: &RpcAsk) -> Result<(), NoMemory>
    requires { length journal.old.log < limit }
    ensures log { OnOk result (journal.new.log ≡ jotted journal.old.log ask.now.client (Invoke ask.now.rpc ask.now.context ask.now.input)) }
    ensures marks { OnOk result ((k : ℕ) → mark_at journal.new.marks k ≡ mark_at journal.old.marks k) }
    ensures undo { OnOk result (taken_back journal.new ≡ journal.old) }
    ensures err { OnErr result (journal.new ≡ journal.old) }
{
    let rpc = ask.rpc;
    let context = copied(&ask.context)?;
    let input = ask.input.copy()?;
    let call = Call::Invoke {
        rpc,
        context,
        input,
    };
    journal.add(ask.client, call)
}

// Adds the entry of an answer.
fn enter_answer(journal: &mut Journal, answering: &Answering) -> Result<(), NoMemory>
    requires { length journal.old.log < limit }
    ensures log { OnOk result (journal.new.log ≡ jotted journal.old.log answering.now.client (Answer answering.now.id answering.now.output)) }
    ensures marks { OnOk result ((k : ℕ) → mark_at journal.new.marks k ≡ mark_at journal.old.marks k) }
    ensures err { OnErr result (journal.new ≡ journal.old) }
{
    let output = answering.output.copy()?;
    let id = answering.id;
    journal.add(answering.client, Call::Answer { id, output })
}
