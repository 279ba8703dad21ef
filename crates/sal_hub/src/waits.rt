//! What waits for a client. These are reads: they add no entry to the log, and take no memory.
ghost use Rattle.std.specs.Prelude.{◌≡◌, ◌&&◌, is_some, nat_le, nat_lt};
ghost use Rattle.sal_history.specs.declared.call.Call.TheVariants.{Collect, NextCall, Take, TakeNotes};
ghost use Rattle.sal_history.specs.History.{history, outcomes};
ghost use Rattle.sal_history.specs.Numbered.{numbered};
ghost use Rattle.sal_hub.specs.Tokens.{IsListener};
ghost use Rattle.sal_hub.specs.Waiting.{would_give};

use crate::call_id::CallId;
use crate::hub::Hub;
use crate::listener::ListenerId;
use crate::receipt::Receipt;

impl Hub {
    /// Whether a request waits for the client: whether `next_call` would return one now.
    pub fn has_request(&self, client: u32) -> bool
        ensures { result ≡ would_give self.now client NextCall }
    {
        self.services.router.has_request(client)
    }

    /// Whether the client made the request and it is answered: whether `collect` would return rows now.
    pub fn has_answer(&self, client: u32, id: CallId) -> bool
        ensures { result ≡ would_give self.now client (Collect id.number) }
    {
        self.services.router.has_answer(client, id.number())
    }

    /// Whether a notification waits for the client: whether `take_notes` would return any now.
    pub fn has_notes(&self, client: u32) -> bool
        ensures { result ≡ would_give self.now client TakeNotes }
    {
        self.services.notes.has_notes(client)
    }

    /// Whether the listener's domain has commits that the client has not taken: whether the batch of a `take` would go beyond the one
    /// before. These commits may have changed nothing at the listener's path.
    pub fn has_commits(&self, client: u32, id: ListenerId) -> bool
        requires token { IsListener self.now id }
        ensures { result ≡ would_give self.now client (Take id.number) }
    {
        self.listeners
            .has_commits(&self.pipeline, &self.journal, client, id)
    }

    /// Whether the submission is decided: whether `outcomes` has its outcome.
    pub fn is_decided(&self, receipt: Receipt) -> bool
        ensures { result ≡ is_some (numbered (outcomes (history self.now.world self.now.log)) receipt.number) }
    {
        is_counted(receipt.number(), self.outcomes().len())
    }
}

// Whether the number is one of this many, from 1 on.
fn is_counted(number: u64, count: usize) -> bool
    ensures { result ≡ nat_lt 0 number && nat_le number count }
{
    0 < number && number <= count as u64
}
