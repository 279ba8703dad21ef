//! From a step to its shared call, and from that call to its reply.
ghost use Rattle.std.specs.Prelude.{◌≡◌, false, true};
ghost use Rattle.sal_script.specs.Moves.{Cancel, Submit, move_of};
ghost use Rattle.sal_client.specs.Clients.{is_local, is_service};
ghost use Rattle.sal_client.specs.Slots.{held};
ghost use Rattle.sal_client.specs.Wishes.{wish_if};

use crate::client::{ClientState, Standing};
use crate::fault::StepFault;
use crate::listeners::{listen_wish, target_of};
use crate::messages::service_of;
use crate::mounts::MountWish;
use crate::notes::NoteWish;
use crate::readers::Readers;
use crate::rpcs::{RpcWish, ask_by, invoke_wish, provide_wish, withdraw_wish};
use crate::slots::{Slots, look_at};
use crate::wish::{CallResult, Wish, Wished};
use sal_hub::Hub;
use sal_script::{ScriptStep, StepRefusal};
use std::alloc::Global;

// The wish, if the slot has what its call takes.
fn if_filled<T>(slots: &Slots<T>, slot: u8, wish: Wish) -> Wished
    ensures { result ≡ wish_if wish (held slots.now slot) }
{
    match look_at(slots, slot) {
        None => Err(StepFault::Refused(StepRefusal::EmptySlot)),
        Some(_) => Ok(wish),
    }
}

impl ClientState {
    ghost use Rattle.sal_client.specs.Clients.{IsSound};
    ghost use Rattle.sal_client.specs.Leaving.{Leaves};
    ghost use Rattle.sal_client.specs.Wishes.{CanMake, ReadBy, Wants};
    ghost use Rattle.sal_script.specs.Tables.{versions_of};

    /// The shared call of the step, or why it is refused. It takes no turn at a hub.
    pub(crate) fn wish_of(&self, alloc: Global, readers: &Readers, step: &ScriptStep) -> Wished
        requires shared { is_local (move_of step.now) ≡ false }
        ensures { Wants readers.now self.now (move_of step.now) result }
    {
        match step {
            ScriptStep::Begin { slot, domain, mode } => Ok(Wish::Begin {
                slot: *slot,
                domain: *domain,
                mode: *mode,
            }),
            ScriptStep::Submit { slot } => self.submit_wish(readers, *slot),
            ScriptStep::Cancel { slot } => self.cancel_wish(readers, *slot),
            ScriptStep::Settle { slot } => {
                if_filled(&self.receipts, *slot, Wish::Settle { slot: *slot })
            }
            ScriptStep::OpenChain { chain, domain } => Ok(Wish::OpenChain {
                chain: *chain,
                domain: *domain,
            }),
            ScriptStep::ChainBegin { chain, slot, mode } => if_filled(
                &self.chains,
                *chain,
                Wish::ChainBegin {
                    chain: *chain,
                    slot: *slot,
                    mode: *mode,
                },
            ),
            ScriptStep::CloseChain { chain } => {
                if_filled(&self.chains, *chain, Wish::CloseChain { chain: *chain })
            }
            ScriptStep::Pump => Ok(Wish::Pump),
            ScriptStep::Listen {
                listener,
                domain,
                store,
                path,
            } => listen_wish(*listener, target_of(alloc, readers, *domain, *store, path)),
            ScriptStep::Take { listener } => {
                if_filled(&self.listeners, *listener, Wish::Take { slot: *listener })
            }
            ScriptStep::Unlisten { listener } => {
                if_filled(
                    &self.listeners,
                    *listener,
                    Wish::Unlisten { slot: *listener },
                )
            }
            ScriptStep::Mark { mark } => Ok(Wish::Mark { mark: *mark }),
            ScriptStep::After { mark } => Ok(Wish::After { mark: *mark }),
            ScriptStep::Upgrade { version } => self.upgrade_wish(readers, *version),
            _ => self.service_wish(alloc, readers, step),
        }
    }

    // The same for the steps of services.
    fn service_wish(&self, alloc: Global, readers: &Readers, step: &ScriptStep) -> Wished
        requires service { is_service (move_of step.now) ≡ true }
        ensures { Wants readers.now self.now (move_of step.now) result }
    {
        match step {
            ScriptStep::Provide { rpc, context } => {
                provide_wish(service_of(alloc, readers.own(), rpc, context))
            }
            ScriptStep::Withdraw { rpc, context } => {
                withdraw_wish(service_of(alloc, readers.own(), rpc, context))
            }
            ScriptStep::Invoke {
                call,
                rpc,
                context,
                input,
            } => invoke_wish(*call, ask_by(alloc, readers.own(), rpc, context, input)),
            ScriptStep::NextCall { request } => {
                Ok(Wish::Rpc(RpcWish::NextCall { slot: *request }))
            }
            ScriptStep::Answer { request, output } => {
                self.answer_wish(alloc, readers, *request, output)
            }
            ScriptStep::Collect { call } => if_filled(
                &self.invoked,
                *call,
                Wish::Rpc(RpcWish::Collect { slot: *call }),
            ),
            ScriptStep::Subscribe { note } => self.subscribe_wish(readers, note),
            ScriptStep::Offer { note, value } => self.offer_wish(alloc, readers, note, value),
            ScriptStep::TakeNotes => Ok(Wish::Note(NoteWish::TakeNotes)),
            ScriptStep::Mount { device, path } => self.mount_wish(alloc, readers, *device, path),
            ScriptStep::Unmount { domain } => {
                Ok(Wish::Mount(MountWish::Unmount { domain: *domain }))
            }
            ScriptStep::MountAt { path } => self.mount_at_wish(alloc, readers, path),
            _ => unreachable!(),
        }
    }

    // To submit the slot's transaction, if it may write.
    fn submit_wish(&self, readers: &Readers, slot: u8) -> Wished
        ensures { Wants readers.now self.now (Submit slot) result }
    {
        match self.standing(slot) {
            Standing::Empty => Err(StepFault::Refused(StepRefusal::EmptySlot)),
            Standing::ReadOnly => Err(StepFault::Refused(StepRefusal::ReadOnly)),
            Standing::Writable => Ok(Wish::Submit { slot }),
        }
    }

    // To cancel the slot's transaction, if there is one.
    fn cancel_wish(&self, readers: &Readers, slot: u8) -> Wished
        ensures { Wants readers.now self.now (Cancel slot) result }
    {
        match self.standing(slot) {
            Standing::Empty => Err(StepFault::Refused(StepRefusal::EmptySlot)),
            _ => Ok(Wish::Cancel { slot }),
        }
    }

    /// Makes the shared call on the hub, and keeps the results in the slots. The reply is not yet among the replies.
    /// If memory runs out, the client must not be used again.
    pub(crate) fn call(&mut self, alloc: Global, hub: &mut Hub, wish: Wish) -> CallResult
        requires sound { IsSound hub.old self.old }
        requires can { CanMake wish self.old }
        requires read { ReadBy (versions_of hub.old.world) wish }
        ensures { Leaves wish hub.old self.old hub.new self.new result }
    {
        match wish {
            Wish::Begin { slot, domain, mode } => self.begin(alloc, hub, slot, domain, mode),
            Wish::Submit { slot } => self.submit(alloc, hub, slot),
            Wish::Cancel { slot } => self.cancel(alloc, hub, slot),
            Wish::Settle { slot } => self.settle(alloc, hub, slot),
            Wish::OpenChain { chain, domain } => self.open_chain(alloc, hub, chain, domain),
            Wish::ChainBegin { chain, slot, mode } => {
                self.chain_begin(alloc, hub, chain, slot, mode)
            }
            Wish::CloseChain { chain } => self.close_chain(alloc, hub, chain),
            Wish::Pump => self.pump(alloc, hub),
            Wish::Listen { slot, target } => self.listen(alloc, hub, slot, &target),
            Wish::Take { slot } => self.take(alloc, hub, slot),
            Wish::Unlisten { slot } => self.unlisten(alloc, hub, slot),
            Wish::Rpc(wish) => self.call_rpc(alloc, hub, wish),
            Wish::Note(wish) => self.call_note(alloc, hub, wish),
            Wish::Mount(wish) => self.call_mount(alloc, hub, wish),
            Wish::Mark { mark } => self.mark(alloc, hub, mark),
            Wish::After { mark } => self.after(alloc, hub, mark),
            Wish::Upgrade { version } => self.upgrade(alloc, hub, version),
        }
    }
}
