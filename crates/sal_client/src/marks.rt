//! The shared calls of a client that use no slot: pumps and marks.
ghost use Rattle.std.specs.Prelude.{◌≡◌};
ghost use Rattle.sal_hub.specs.Seen.{pump_reply, seen_reply};
ghost use Rattle.sal_client.specs.Answers.{said};
ghost use Rattle.sal_client.specs.Leaving.{Leaves};
ghost use Rattle.sal_client.specs.declared.wish.Wish.TheVariants.{Pump, Mark, After};

use crate::answers::{accepted, answer_to};
use crate::client::ClientState;
use crate::wish::CallResult;
use sal_history::Reply;
use sal_hub::{Hub, Receipt, Seen, laws};
use sal_rows::{CallFault, Outcome};
use std::alloc::Global;

// The receipt of a pump with its outcome, or that there was none.
fn pumped(made: Result<Option<(Receipt, Outcome)>, CallFault>) -> Result<Reply, CallFault>
    ensures { result ≡ said pump_reply made }
{
    match made {
        Ok(None) => Ok(Reply::Nothing),
        Ok(Some((receipt, outcome))) => Ok(Reply::Decided {
            receipt: receipt.number(),
            domain: receipt.domain(),
            outcome,
        }),
        Err(fault) => Err(fault),
    }
}

// Whether the mark was set.
fn looked(made: Result<Seen, CallFault>) -> Result<Reply, CallFault>
    ensures { result ≡ said seen_reply made }
{
    match made {
        Ok(Seen::Found) => Ok(Reply::Found),
        Ok(Seen::Late { .. }) => Ok(Reply::Late),
        Err(fault) => Err(fault),
    }
}

impl ClientState {
    ghost use Rattle.sal_client.specs.Clients.{IsSound};

    /// Decides the first pending receipt.
    pub(crate) fn pump(&self, alloc: Global, hub: &mut Hub) -> CallResult
        requires sound { IsSound hub.old self.now }
        ensures { Leaves Pump hub.old self.now hub.new self.now result }
    {
        laws::tokens_last();
        answer_to(pumped(hub.pump(alloc, self.number)))
    }

    /// Sets the mark in the log.
    pub(crate) fn mark(&self, alloc: Global, hub: &mut Hub, mark: u32) -> CallResult
        requires sound { IsSound hub.old self.now }
        ensures { Leaves (Mark mark) hub.old self.now hub.new self.now result }
    {
        laws::tokens_last();
        answer_to(accepted(hub.mark(alloc, self.number, mark)))
    }

    /// Asks whether the mark was set.
    pub(crate) fn after(&self, alloc: Global, hub: &mut Hub, mark: u32) -> CallResult
        requires sound { IsSound hub.old self.now }
        ensures { Leaves (After mark) hub.old self.now hub.new self.now result }
    {
        laws::tokens_last();
        answer_to(looked(hub.after(alloc, self.number, mark)))
    }
}
