//! The router's registrations and requests.
ghost use Rattle.std.specs.Prelude.{◌≡◌, [], ◌∷◌, ◌++◌, drop, is_some, slice_get, IfOk, OnErr, OnOk};

use crate::call::Request;
use sal_rows::Rows;
use sal_types::{NoMemory, Path};
use std::alloc::Global;
use std::collections::VecDeque;
use std::marker::Model;

/// An RPC in a context, or without one.
#[derive(Drop, PartialEq, Eq, PartialOrd, Ord)]
pub(crate) struct Service {
    pub(crate) rpc: u32,
    pub(crate) context: Option<Path>,
}

/// A request: its client, its provider, whether it was taken, and its answer.
pub(crate) struct Sent {
    pub(crate) by: u32,
    pub(crate) owner: u32,
    pub(crate) handed: bool,
    pub(crate) answer: Option<Rows>,
}

impl Drop for Sent {
    fn drop(self) {
        let Sent {
            by: _,
            owner: _,
            handed: _,
            answer: _,
        } = self;
    }
}

/// The requests that wait for a client, in order.
#[derive(Drop)]
pub(crate) struct Queue {
    list: VecDeque<Request>,
}

impl Model for Queue {
    ghost use Rattle.std.specs.Prelude.{List};
    ghost use Rattle.sal_rpc.specs.declared.call.Request.{Request};

    ghost Value = { List Request };

    ghost view = { λ a. a.list.items };
}

impl Queue {
    /// A queue of one request.
    pub(crate) fn one(alloc: Global, request: Request) -> Result<Queue, NoMemory>
        ensures { IfOk result (λ q. q ≡ request ∷ []) }
    {
        let mut list = VecDeque::new(alloc);
        list.push_back(request)?;
        Ok(Queue { list })
    }

    /// Appends the request.
    pub(crate) fn push(&mut self, request: Request) -> Result<(), NoMemory>
        ensures ok { OnOk result (self.new ≡ self.old ++ request ∷ []) }
        ensures err { OnErr result (self.new ≡ self.old) }
    {
        self.list.push_back(request)?;
        Ok(())
    }

    /// Whether a request waits. It takes no memory.
    pub(crate) fn has_any(&self) -> bool
        ensures { result ≡ is_some (slice_get self.now 0) }
    {
        !self.list.is_empty()
    }

    /// Takes the first request, if one waits. It takes no memory.
    pub(crate) fn pop(&mut self) -> Option<Request>
        ensures first { result ≡ slice_get self.old 0 }
        ensures rest { self.new ≡ drop 1 self.old }
    {
        self.list.pop_front()
    }
}
