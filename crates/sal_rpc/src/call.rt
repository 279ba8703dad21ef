//! The calls on the router, and their replies.
use sal_rows::Rows;
use sal_types::Path;
use thiserror::Error;

/// A call of a client on the router. RPCs are numbers of schema nodes; a context is a path, or none.
#[derive(Drop)]
pub enum RpcCall {
    /// Registers the client as the provider of the RPC in the context (`DOMRpcProviderService`).
    Provide {
        rpc: u32,
        context: Option<Path>,
    },
    /// Ends the client's registration.
    Withdraw {
        rpc: u32,
        context: Option<Path>,
    },
    /// Makes a request (`DOMRpcService`). Its id is the number of requests that were made.
    Invoke {
        rpc: u32,
        context: Option<Path>,
        input: Rows,
    },
    /// Takes the next request that waits for the client.
    NextCall,
    /// Answers a request that the client took.
    Answer {
        id: u64,
        output: Rows,
    },
    /// Asks for the answer to a request that the client made.
    Collect {
        id: u64,
    },
}

/// A request, as it is handed to the client that answers it.
#[derive(Drop)]
pub struct Request {
    pub id: u64,
    pub rpc: u32,
    pub context: Option<Path>,
    pub input: Rows,
}

/// Why a call on the router was refused.
#[derive(Clone, Copy, Debug, PartialEq, Eq, Error)]
pub enum RpcFault {
    /// No client provides the RPC in the context or without one; for a withdrawal: the client does not provide it in this context.
    #[error("no provider of rpc {rpc}")]
    NoProvider { rpc: u32 },
    /// The RPC is provided in this context already.
    #[error("rpc {rpc} has a provider already")]
    ProviderTaken { rpc: u32 },
    /// For an answer: the client did not take the request, or it is answered. For a collection: the client did not make the request.
    #[error("no call {id} of this client")]
    NoCall { id: u64 },
    #[error("out of memory")]
    NoMemory,
}

/// The reply to a call on the router.
#[derive(Drop)]
pub enum RpcReply {
    /// The call was done; there is no other result.
    Accepted,
    /// The request has this id.
    CallMade { id: u64 },
    /// The next request.
    Handed { request: Request },
    /// The rows with which the request was answered.
    Output { rows: Rows },
    /// No request waits, or the request is not answered yet.
    Nothing,
    /// The call was refused.
    Refused { fault: RpcFault },
}
