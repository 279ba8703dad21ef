//! The steps of a client for its listeners.
ghost use Rattle.std.specs.Prelude.{◌≡◌, Some, IfOk, IsSome, OnOk};
ghost use Rattle.sal_script.specs.Moves.{Mirror};
ghost use Rattle.sal_script.specs.Play.{set_slot};
ghost use Rattle.sal_client.specs.Followers.{Advances};
ghost use Rattle.sal_client.specs.Leaving.{Leaves};
ghost use Rattle.sal_client.specs.Slots.{held};
ghost use Rattle.sal_client.specs.Targets.{IsTarget};
ghost use Rattle.sal_client.specs.Wishes.{wished};
ghost use Rattle.sal_client.specs.declared.follower.Follower.{Follower as Kept};
ghost use Rattle.sal_client.specs.declared.wish.Wish.TheVariants.{Listen as ListenCall, Take as TakeCall, Unlisten as UnlistenCall};

use crate::answers::{accepted, answer_to};
use crate::calls::{called, refused_call};
use crate::client::{ClientState, refused};
use crate::fault::{LocalResult, StepFault};
use crate::follower::Follower;
use crate::messages::path_at;
use crate::readers::Readers;
use crate::slots::{Slots, fill_slot, filled, look_at, take_slot};
use crate::wish::{CallResult, Target, Wish, Wished};
use sal_history::Reply;
use sal_hub::{Hub, ListenerId, laws};
use sal_rows::{Batch, Opened};
use sal_script::StepRefusal;
use sal_types::{Duplicate, NoMemory, Path, Store, Str};
use std::alloc::Global;
use std::snapshot::Snapshot;

// The reply to a done listen.
fn listening(id: ListenerId, domain: u32, path: &Path, opened: Opened) -> Result<Reply, NoMemory>
    ensures { IfOk result (λ r. r ≡ Reply.Listener id.number domain path.now opened) }
{
    let path = path.copy()?;
    Ok(Reply::Listener {
        id: id.number(),
        domain,
        path,
        opened,
    })
}

// Puts the listener into the slot, with a mirror of its snapshot.
fn put_new(
    listeners: &mut Slots<Follower>,
    slot: u8,
    id: ListenerId,
    target: &Target,
    opened: &Opened,
) -> Result<(), NoMemory>
    ensures { OnOk result (held listeners.new ≡ set_slot slot (Some (record { id = id; store = target.now.store; path = target.now.path; mirror = record { version = opened.now.version; rows = opened.now.rows } })) (held listeners.old)) }
{
    let follower = Follower::of(*listeners.allocator(), id, target, opened)?;
    fill_slot(listeners, slot, follower)
}

// Advances the listener in the slot to the end of the batch, which begins at its version.
fn advance_in(
    alloc: Global,
    listeners: &mut Slots<Follower>,
    slot: u8,
    batch: &Batch,
) -> Result<(), NoMemory>
    requires filled { IsSome (held listeners.old slot) }
    requires from { (f : Kept) → held listeners.old slot ≡ Some f → f.mirror.version ≡ batch.now.from }
    ensures { OnOk result ((f : Kept) → held listeners.old slot ≡ Some f → (g : Kept) × Advances batch.now f g × (held listeners.new ≡ set_slot slot (Some g) (held listeners.old))) }
{
    match take_slot(listeners, slot) {
        None => unreachable!(),
        Some(follower) => {
            let follower = follower.advance(alloc, batch)?;
            fill_slot(listeners, slot, follower)
        }
    }
}

/// The target of a listen, if the script has the domain and the text is a path; or why there is none.
pub(crate) fn target_of(
    alloc: Global,
    readers: &Readers,
    domain: u32,
    store: Store,
    text: &Str,
) -> Result<Target, StepFault>
    ensures { IsTarget readers.now domain store text.now result }
{
    let Some(reader) = readers.last_of(domain) else {
        return Err(StepFault::Refused(StepRefusal::NoDevice));
    };
    let path = path_at(alloc, reader, text)?;
    Ok(Target {
        domain,
        store,
        text: Snapshot::of(text),
        path,
    })
}

/// To listen there; the listener goes into the slot.
pub(crate) fn listen_wish(slot: u8, read: Result<Target, StepFault>) -> Wished
    ensures { result ≡ wished (λ target. ListenCall slot target) read }
{
    match read {
        Ok(target) => Ok(Wish::Listen { slot, target }),
        Err(fault) => Err(fault),
    }
}

impl ClientState {
    ghost use Rattle.sal_client.specs.Clients.{IsSound};
    ghost use Rattle.sal_client.specs.Meeting.{Answers};

    /// Listens there; the listener goes into the slot.
    pub(crate) fn listen(
        &mut self,
        alloc: Global,
        hub: &mut Hub,
        slot: u8,
        target: &Target,
    ) -> CallResult
        requires sound { IsSound hub.old self.old }
        ensures { Leaves (ListenCall slot target.now) hub.old self.old hub.new self.new result }
    {
        laws::tokens_last();
        match hub.listen(
            alloc,
            self.number,
            target.domain,
            target.store,
            &target.path,
        ) {
            Ok((id, opened)) => {
                put_new(&mut self.listeners, slot, id, target, &opened)?;
                let reply = listening(id, target.domain, &target.path, opened)?;
                Ok(called(reply))
            }
            Err(fault) => refused_call(fault),
        }
    }

    /// Takes the batch of the listener in the slot, and updates its mirror.
    pub(crate) fn take(&mut self, alloc: Global, hub: &mut Hub, slot: u8) -> CallResult
        requires sound { IsSound hub.old self.old }
        requires filled { IsSome (held self.old.listeners slot) }
        ensures { Leaves (TakeCall slot) hub.old self.old hub.new self.new result }
    {
        laws::tokens_last();
        let id = filled(&self.listeners, slot).id;
        match hub.take(alloc, self.number, id) {
            Ok(batch) => {
                advance_in(alloc, &mut self.listeners, slot, &batch)?;
                let domain = id.domain();
                Ok(called(Reply::Batch { domain, batch }))
            }
            Err(fault) => refused_call(fault),
        }
    }

    /// Removes the listener in the slot.
    pub(crate) fn unlisten(&self, alloc: Global, hub: &mut Hub, slot: u8) -> CallResult
        requires sound { IsSound hub.old self.now }
        requires filled { IsSome (held self.now.listeners slot) }
        ensures { Leaves (UnlistenCall slot) hub.old self.now hub.new self.now result }
    {
        laws::tokens_last();
        let follower = filled(&self.listeners, slot);
        answer_to(accepted(hub.unlisten(alloc, self.number, follower.id)))
    }

    /// Shows the mirror of the listener in the slot.
    pub(crate) fn mirror(&self, readers: &Readers, slot: u8) -> LocalResult
        ensures { IfOk result (λ r. Answers readers.now self.now (Mirror slot) r self.now) }
    {
        match look_at(&self.listeners, slot) {
            None => Ok(refused(StepRefusal::EmptySlot)),
            Some(follower) => follower.shown(*self.listeners.allocator()),
        }
    }
}
