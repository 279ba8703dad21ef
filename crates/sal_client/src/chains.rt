//! The shared calls of a client for its transaction chains.
ghost use Rattle.std.specs.Prelude.{IsSome};
ghost use Rattle.sal_client.specs.Leaving.{Leaves};
ghost use Rattle.sal_client.specs.Slots.{held};
ghost use Rattle.sal_client.specs.declared.wish.Wish.TheVariants.{OpenChain, ChainBegin, CloseChain};

use crate::answers::{accepted, answer_to};
use crate::calls::{called, fill_begun, refused_call};
use crate::client::ClientState;
use crate::slots::{fill_slot, filled};
use crate::wish::CallResult;
use sal_history::Reply;
use sal_hub::{Hub, laws};
use sal_rows::Mode;
use std::alloc::Global;

impl ClientState {
    ghost use Rattle.sal_client.specs.Clients.{IsSound};

    /// Opens a chain over the domain into the chain slot.
    pub(crate) fn open_chain(
        &mut self,
        alloc: Global,
        hub: &mut Hub,
        slot: u8,
        domain: u32,
    ) -> CallResult
        requires sound { IsSound hub.old self.old }
        ensures { Leaves (OpenChain slot domain) hub.old self.old hub.new self.new result }
    {
        laws::tokens_last();
        match hub.open_chain(alloc, self.number, domain) {
            Ok(chain) => {
                let id = chain.id();
                fill_slot(&mut self.chains, slot, chain)?;
                Ok(called(Reply::Chain { id }))
            }
            Err(fault) => refused_call(fault),
        }
    }

    /// Begins the next transaction of the chain in the chain slot into the slot.
    pub(crate) fn chain_begin(
        &mut self,
        alloc: Global,
        hub: &mut Hub,
        from: u8,
        slot: u8,
        mode: Mode,
    ) -> CallResult
        requires sound { IsSound hub.old self.old }
        requires filled { IsSome (held self.old.chains from) }
        ensures { Leaves (ChainBegin from slot mode) hub.old self.old hub.new self.new result }
    {
        laws::tokens_last();
        let chain = filled(&self.chains, from);
        match hub.chain_begin(alloc, self.number, chain, mode) {
            Ok(tx) => Ok(fill_begun(&mut self.transactions, slot, tx)?),
            Err(fault) => refused_call(fault),
        }
    }

    /// Closes the chain in the chain slot.
    pub(crate) fn close_chain(&self, alloc: Global, hub: &mut Hub, slot: u8) -> CallResult
        requires sound { IsSound hub.old self.now }
        requires filled { IsSome (held self.now.chains slot) }
        ensures { Leaves (CloseChain slot) hub.old self.now hub.new self.now result }
    {
        laws::tokens_last();
        let chain = filled(&self.chains, slot);
        answer_to(accepted(hub.close_chain(alloc, self.number, chain)))
    }
}
