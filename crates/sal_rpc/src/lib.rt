//! RPC routing: which client provides an RPC in which context, where a request goes, and its answer.
//!
//! | item | what it is |
//! |---|---|
//! | `Router` | the router of a broker, which a contract sees as the routes of the calls |
//! | `RpcCall`, `RpcReply`, `RpcFault` | a call of a client on the router, its reply, why it is refused |
//! | `Request` | a request, as its provider takes it |
//! | `laws` | functions that do nothing, each with a law of the definitions as its contract |
//! | `examples` | the same with worked examples |
//!
//! `specs/Routing` defines the meaning of the calls from their list. A registration is for an RPC and a context, or without a context; a
//! client has it from its provide to its withdrawal. A request goes to the registration for its exact context, or else to the one
//! without a context; it stays with that client also when the registration ends. Each client takes its requests in their order, and
//! answers each once; the client that made the request collects the answer. `specs/Routes` defines the routes of a list of calls, and
//! `specs/Answers` the effect of a call: for any earlier calls, it returns the reply by the definition, and the routes are those of one
//! call more. So a caller that logs its calls knows the replies from the log.
//!
//! ```
//! let mut router = Router::new(alloc);
//! router.provide(server, ping, None)?;
//! let id = router.invoke(alloc, client, ping, None, input)?;
//! if let Some(request) = router.next_call(server) {
//!     router.answer(server, request.id, output)?;
//! }
//! let answer = router.collect(client, id)?;
//! ```
//!
//! | call | cost for n registrations, providers with c of them, and r requests |
//! |---|---|
//! | `Router::provide`, `withdraw` | two searches among n registrations |
//! | `Router::invoke` | at most two searches among n registrations and one among c queues; constant on average for the request |
//! | `Router::next_call` | a search among c queues; no memory, and nothing is copied |
//! | `Router::answer` | constant, no memory |
//! | `Router::collect` | a copy of the answer |
//! | `Router::has_request` | a search among c queues; no memory |
//! | `Router::has_answer` | constant, no memory |
//!
//! A search compares some log n contexts or numbers. The input of a request is moved out when it is taken; its clients and its answer stay
//! in memory, as the answer may be collected again, so memory grows with r.
#![tactic(auto)]

pub mod call;
pub mod examples;
pub mod laws;
pub mod router;
mod routes;

pub use call::{Request, RpcCall, RpcFault, RpcReply};
pub use router::Router;
