//! What waits for a client: what the next step that it makes would give. These are reads: they make no step, and take no memory.
ghost use Rattle.std.specs.Prelude.{◌≡◌, ◌≤◌, false};
ghost use Rattle.std.specs.Option.{option_map_or};
ghost use Rattle.sal_script.specs.Moves.{Collect, Take};
ghost use Rattle.sal_script.specs.Play.{new_client};
ghost use Rattle.sal_client.specs.Clients.{IsSound, client_of};
ghost use Rattle.sal_embed.specs.Waiting as spec;

use sal_client::{ClientRun, look_at};
use sal_hub::Hub;

/// What waits for a client at a number of its slots.
#[derive(Clone, Copy, Debug, PartialEq, Eq)]
pub struct Waiting {
    /// A request: `next-call` would give it.
    pub request: bool,
    /// A notification: `take-notes` would give some.
    pub notes: bool,
    /// An answer: `collect` would give its rows.
    pub answer: bool,
    /// The outcome of a submission: it is decided before a `settle` or a `pump`.
    pub decided: bool,
    /// Commits of the listener's domain: the batch of a `take` would go beyond the one before. It may have no change at the listener's path.
    pub changes: bool,
}

impl Waiting {
    /// Nothing waits.
    pub(crate) fn nothing() -> Waiting
        ensures { result ≡ spec.nothing }
    {
        Waiting {
            request: false,
            notes: false,
            answer: false,
            decided: false,
            changes: false,
        }
    }

    /// The sum of 1 for a request, 2 for notifications, 4 for an answer, 8 for a decided submission, and 16 for changes.
    pub fn bits(&self) -> u32
        ensures { result ≡ spec.bits self.now }
    {
        let late = bit(8, self.decided) + bit(16, self.changes);
        bit(1, self.request) + (bit(2, self.notes) + (bit(4, self.answer) + late))
    }
}

// The value, if it is set.
fn bit(value: u32, is: bool) -> u32
    ensures is { result ≡ spec.bit value is }
    ensures most { result ≤ value }
{
    if is {
        return value;
    }
    0
}

/// What waits for a client that has made no step.
pub(crate) fn waiting_before(hub: &Hub, client: u32, slot: u8) -> Waiting
    ensures { result ≡ spec.waiting hub.now client new_client slot }
{
    let _ = slot;
    Waiting {
        request: hub.has_request(client),
        notes: hub.has_notes(client),
        answer: false,
        decided: false,
        changes: false,
    }
}

/// What waits for a client by its run.
pub(crate) fn waiting_in(hub: &Hub, client: u32, run: &ClientRun, slot: u8) -> Waiting
    requires { IsSound hub.now run.now.client }
    ensures { result ≡ spec.waiting hub.now client (client_of run.now.client) slot }
{
    Waiting {
        request: hub.has_request(client),
        notes: hub.has_notes(client),
        answer: has_answer(hub, client, run, slot),
        decided: is_decided(hub, run, slot),
        changes: has_changes(hub, client, run, slot),
    }
}

// Whether the request in the slot is answered.
fn has_answer(hub: &Hub, client: u32, run: &ClientRun, slot: u8) -> bool
    ensures { result ≡ spec.step_gives hub.now client (client_of run.now.client) (Collect slot) }
{
    match look_at(&run.client.invoked, slot) {
        Some(id) => hub.has_answer(client, *id),
        None => false,
    }
}

// Whether the submission of the receipt in the slot is decided.
fn is_decided(hub: &Hub, run: &ClientRun, slot: u8) -> bool
    ensures { result ≡ option_map_or (spec.is_decided hub.now) ((client_of run.now.client).receipts slot) false }
{
    match look_at(&run.client.receipts, slot) {
        Some(receipt) => hub.is_decided(*receipt),
        None => false,
    }
}

// Whether the listener in the slot has commits that the client has not taken.
fn has_changes(hub: &Hub, client: u32, run: &ClientRun, slot: u8) -> bool
    requires { IsSound hub.now run.now.client }
    ensures { result ≡ spec.step_gives hub.now client (client_of run.now.client) (Take slot) }
{
    match look_at(&run.client.listeners, slot) {
        Some(follower) => hub.has_commits(client, follower.id),
        None => false,
    }
}
