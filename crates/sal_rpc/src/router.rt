//! The router.
ghost use Rattle.std.specs.Prelude.{◌≡◌, ◌+◌, ◌&&◌, ◌++◌, ◌∷◌, [], ℕ, None, Some, false, true, drop, if◌then◌else◌, is_some, length, slice_get, nat_eq, IfOk, OnErr, OnOk};
ghost use Rattle.sal_types.specs.declared.value.Step.{Step};
ghost use Rattle.sal_rpc.specs.declared.call.RpcCall.TheVariants.{Provide, Withdraw, Invoke, NextCall, Answer, Collect};
ghost use Rattle.sal_rpc.specs.declared.call.RpcReply.TheVariants.{Accepted, CallMade};
ghost use Rattle.sal_rpc.specs.Answers.{Answers, AnswersAlways, Gives, Makes};
ghost use Rattle.std.specs.BTreeMap.{is_at};
ghost use Rattle.std.specs.Option.{option_and_then, option_copied, option_map_or};
ghost use Rattle.sal_rpc.specs.declared.routes.Service.{Service as Place};
ghost use Rattle.sal_rpc.specs.declared.routes.Sent.{Sent as Record};
ghost use Rattle.sal_rpc.specs.Routes as spec;
ghost use Rattle.sal_rpc.specs.Routes.{IsOf, answered, hand, next_reply, owner_in, provider_in, queue_in, sent_at, sent_with, service_cmp};
ghost use Rattle.sal_rpc.specs.Routing.{output};

use crate::call::{Request, RpcFault};
use crate::routes::{Queue, Sent, Service};
use sal_rows::Rows;
use sal_types::{Duplicate, NoMemory, Path};
use std::alloc::Global;
use std::collections::BTreeMap;
use std::marker::Model;

/// The providers of RPCs, and the requests. A contract sees the routes of the calls.
pub struct Router {
    providers: BTreeMap<Service, u32>,
    requests: Vec<Sent>,
    queues: BTreeMap<u32, Queue>,
}

impl Drop for Router {
    fn drop(self) {
        let Router {
            providers: _,
            requests: _,
            queues: _,
        } = self;
    }
}

impl Model for Router {
    ghost use Rattle.sal_rpc.specs.Routes.{Routes};

    ghost Value = { Routes };

    ghost view = { λ a. record { providers = a.providers.entries; requests = a.requests.items; queues = a.queues.entries } };
}

impl Router {
    /// No providers and no requests. It takes no memory.
    pub fn new(alloc: Global) -> Router
        ensures { IsOf [] result }
    {
        Router {
            providers: BTreeMap::new(alloc),
            requests: Vec::new(alloc),
            queues: BTreeMap::new(alloc),
        }
    }

    /// Registers the client for the RPC in the context. Refused as `ProviderTaken` if the RPC is provided in this context.
    pub fn provide(&mut self, client: u32, rpc: u32, context: Option<Path>) -> Result<(), RpcFault>
        ensures { Answers self.old self.new client (Provide rpc context) (λ _. Accepted) result }
    {
        let service = Service { rpc, context };
        if self.providers.contains_key(&service) {
            return Err(RpcFault::ProviderTaken { rpc });
        }
        match register(&mut self.providers, service, client) {
            Ok(()) => Ok(()),
            Err(NoMemory) => Err(RpcFault::NoMemory),
        }
    }

    /// Ends the client's registration. Refused as `NoProvider` if the client does not provide the RPC in exactly this context.
    /// It takes no memory.
    pub fn withdraw(&mut self, client: u32, rpc: u32, context: Option<Path>) -> Result<(), RpcFault>
        ensures { AnswersAlways self.old self.new client (Withdraw rpc context) (λ _. Accepted) result }
    {
        let service = Service { rpc, context };
        if !provides(&self.providers, &service, client) {
            return Err(RpcFault::NoProvider { rpc });
        }
        unregister(&mut self.providers, &service);
        Ok(())
    }

    /// Makes a request, and returns its id. Refused as `NoProvider` if no client provides the RPC in the context or without one.
    pub fn invoke(
        &mut self,
        alloc: Global,
        client: u32,
        rpc: u32,
        context: Option<Path>,
        input: Rows,
    ) -> Result<u64, RpcFault>
        ensures { Answers self.old self.new client (Invoke rpc context input) (λ (id : ℕ). CallMade id) result }
    {
        let service = Service { rpc, context };
        let Some(owner) = owner_of(&self.providers, &service) else {
            return Err(RpcFault::NoProvider { rpc });
        };
        if self.requests.reserve(1).is_err() {
            return Err(RpcFault::NoMemory);
        }
        let id = self.requests.len() as u64 + 1;
        let request = Request {
            id,
            rpc,
            context: service.context,
            input,
        };
        match send(alloc, &mut self.queues, owner, request) {
            Ok(()) => {}
            Err(NoMemory) => return Err(RpcFault::NoMemory),
        }
        let sent = Sent {
            by: client,
            owner,
            handed: false,
            answer: None,
        };
        self.requests.push(sent).unwrap();
        Ok(id)
    }

    /// Takes the next request that waits for the client, if one does. It takes no memory.
    pub fn next_call(&mut self, client: u32) -> Option<Request>
        ensures { Makes self.old self.new client NextCall (next_reply result) }
    {
        match next_of(&mut self.queues, client) {
            None => None,
            Some(request) => {
                hand_out(&mut self.requests, request.id);
                Some(request)
            }
        }
    }

    /// Answers a request. Refused as `NoCall` if the client did not take the request, or it is answered. It takes no memory.
    pub fn answer(&mut self, client: u32, id: u64, output: Rows) -> Result<(), RpcFault>
        ensures { AnswersAlways self.old self.new client (Answer id output) (λ _. Accepted) result }
    {
        if !is_open(&self.requests, client, id) {
            return Err(RpcFault::NoCall { id });
        }
        put_answer(&mut self.requests, id, output);
        Ok(())
    }

    /// The answer to a request that the client made, if it has one. Refused as `NoCall` if the client did not make it.
    pub fn collect(&self, client: u32, id: u64) -> Result<Option<Rows>, RpcFault>
        ensures { Answers self.now self.now client (Collect id) output result }
    {
        if !is_by(&self.requests, client, id) {
            return Err(RpcFault::NoCall { id });
        }
        match answer_of(&self.requests, id) {
            Ok(rows) => Ok(rows),
            Err(NoMemory) => Err(RpcFault::NoMemory),
        }
    }

    /// Whether a request waits for the client: whether `next_call` would return one. It takes no memory.
    pub fn has_request(&self, client: u32) -> bool
        ensures { Gives self.now client NextCall result }
    {
        waits(&self.queues, client)
    }

    /// Whether the client made the request and it is answered: whether `collect` would return its rows. It takes no memory.
    pub fn has_answer(&self, client: u32, id: u64) -> bool
        ensures { Gives self.now client (Collect id) result }
    {
        is_by(&self.requests, client, id) && is_answered(&self.requests, id)
    }
}

fn register(
    providers: &mut BTreeMap<Service, u32>,
    service: Service,
    client: u32,
) -> Result<(), NoMemory>
    ensures ok { OnOk result ((s : Place) → provider_in providers.new.entries s ≡ (if is_at (service_cmp service) s then Some client else provider_in providers.old.entries s)) }
    ensures err { OnErr result (providers.new.entries ≡ providers.old.entries) }
{
    providers.insert(service, client)?;
    Ok(())
}

fn unregister(providers: &mut BTreeMap<Service, u32>, service: &Service)
    ensures { (s : Place) → provider_in providers.new.entries s ≡ (if is_at (service_cmp service.now) s then None else provider_in providers.old.entries s) }
{
    providers.remove(service);
}

// Whether the client provides the service.
fn provides(providers: &BTreeMap<Service, u32>, service: &Service, client: u32) -> bool
    ensures { result ≡ option_map_or (λ (c : ℕ). nat_eq c client) (provider_in providers.now.entries service.now) false }
{
    match providers.get(service).copied() {
        None => false,
        Some(owner) => owner == client,
    }
}

// The client to which a request goes.
fn owner_of(providers: &BTreeMap<Service, u32>, service: &Service) -> Option<u32>
    ensures { result ≡ owner_in providers.now.entries service.now }
{
    match providers.get(service).copied() {
        Some(owner) => Some(owner),
        None => anywhere(providers, service.rpc),
    }
}

// The client that provides the RPC without a context.
fn anywhere(providers: &BTreeMap<Service, u32>, rpc: u32) -> Option<u32>
    ensures { result ≡ provider_in providers.now.entries (spec.service rpc None) }
{
    let service = Service { rpc, context: None };
    providers.get(&service).copied()
}

// Appends the request to its owner's queue.
fn send(
    alloc: Global,
    queues: &mut BTreeMap<u32, Queue>,
    owner: u32,
    request: Request,
) -> Result<(), NoMemory>
    ensures ok { OnOk result ((c : ℕ) → queue_in queues.new.entries c ≡ (if nat_eq owner c then queue_in queues.old.entries c ++ request ∷ [] else queue_in queues.old.entries c)) }
    ensures err { OnErr result (queues.new.entries ≡ queues.old.entries) }
{
    if let Some(queue) = queues.get_mut(&owner) {
        return queue.push(request);
    }
    let queue = Queue::one(alloc, request)?;
    queues.insert(owner, queue)?;
    Ok(())
}

// Takes the first request from the client's queue.
fn next_of(queues: &mut BTreeMap<u32, Queue>, client: u32) -> Option<Request>
    ensures first { result ≡ slice_get (queue_in queues.old.entries client) 0 }
    ensures rest { (c : ℕ) → queue_in queues.new.entries c ≡ (if nat_eq client c then drop 1 (queue_in queues.old.entries c) else queue_in queues.old.entries c) }
{
    match queues.get_mut(&client) {
        None => None,
        Some(queue) => queue.pop(),
    }
}

// Whether a request waits for the client.
fn waits(queues: &BTreeMap<u32, Queue>, client: u32) -> bool
    ensures { result ≡ is_some (slice_get (queue_in queues.now.entries client) 0) }
{
    match queues.get(&client) {
        None => false,
        Some(queue) => queue.has_any(),
    }
}

// Marks the request as taken.
fn hand_out(requests: &mut Vec<Sent>, id: u64)
    ensures { requests.new.items ≡ sent_with hand requests.old.items id }
{
    if id == 0 || id as usize > requests.len() {
        return;
    }
    requests[id as usize - 1].handed = true;
}

// Sets the answer of the request.
fn put_answer(requests: &mut Vec<Sent>, id: u64, output: Rows)
    ensures { requests.new.items ≡ sent_with (answered output) requests.old.items id }
{
    if id == 0 || id as usize > requests.len() {
        return;
    }
    requests[id as usize - 1].answer = Some(output);
}

fn find(requests: &[Sent], id: u64) -> Option<&Sent>
    ensures { option_copied result ≡ sent_at requests.entry.now id }
{
    if id == 0 || id as usize > requests.len() {
        return None;
    }
    Some(&requests[id as usize - 1])
}

fn is_open(requests: &[Sent], client: u32, id: u64) -> bool
    ensures { result ≡ spec.is_open requests.now client id }
{
    match find(requests, id) {
        None => false,
        Some(sent) => sent.owner == client && sent.handed && sent.answer.is_none(),
    }
}

fn is_by(requests: &[Sent], client: u32, id: u64) -> bool
    ensures { result ≡ spec.is_by requests.now client id }
{
    match find(requests, id) {
        None => false,
        Some(sent) => sent.by == client,
    }
}

fn is_answered(requests: &[Sent], id: u64) -> bool
    ensures { result ≡ is_some (option_and_then (λ (s : Record). s.answer) (sent_at requests.now id)) }
{
    match find(requests, id) {
        None => false,
        Some(sent) => sent.answer.is_some(),
    }
}

fn answer_of(requests: &[Sent], id: u64) -> Result<Option<Rows>, NoMemory>
    ensures { IfOk result (λ rows. rows ≡ option_and_then (λ (s : Record). s.answer) (sent_at requests.now id)) }
{
    match find(requests, id) {
        None => Ok(None),
        Some(sent) => copied(&sent.answer),
    }
}

fn copied(answer: &Option<Rows>) -> Result<Option<Rows>, NoMemory>
    ensures { IfOk result (λ rows. rows ≡ answer.now) }
{
    match answer {
        None => Ok(None),
        Some(rows) => Ok(Some(rows.copy()?)),
    }
}
