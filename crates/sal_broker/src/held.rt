//! A turn at the broker.
ghost use Rattle.std.specs.Prelude.{◌≡◌, ◌≤◌};
ghost use Rattle.std.specs.Borrow.{sem, Lends};
ghost use Rattle.sal_hub.specs.contracts.hub.Hub.{the_row as hub_row};
ghost use Rattle.sal_hub.specs.Marks.{has_mark};
ghost use Rattle.sal_hub.specs.Upgrades.{upgrades_of};
ghost use Rattle.sal_hub.specs.Tokens.{IsBegun, IsCall, IsChain, IsGiven, IsListener, IsToken};
ghost use Rattle.sal_broker.specs.Seats.{known};
ghost use Rattle.sal_broker.specs.Tokens.{TokensStay};
ghost use Rattle.sal_broker.specs.contracts.held.Held.{the_row};

use crate::laws;
use crate::shared::Shared;
use sal_hub::{CallId, Chain, Hub, ListenerId, Receipt};
use sal_tx::{Tx, WriteTx};
use std::marker::Model;

/// A turn at the broker: the hub, in the hands of one seat. A contract sees its lock, its seat's view, the hub that
/// was found, and the hub as it is now.
///
/// It can't be dropped: it has to go to `Sal::leave`, so no `?` on the way loses a turn.
pub struct Held {
    pub(crate) inner: sal_turn::Held<Shared>,
}

impl Model for Held {
    ghost use Rattle.std.specs.Prelude.{◌≡◌, IsSome};
    ghost use Rattle.std.specs.Coded.{codes};
    ghost use mathlib.Core.List.{IsPrefix};
    ghost use Rattle.sal_restrict.specs.contracts.yang_type.YangType as e;
    ghost use Rattle.sal_turn.specs.Entries.{entries_by};
    ghost use Rattle.sal_broker.specs.Seats.{Holding, client_of, hub_with};

    ghost Value = { Holding };

    ghost coded = { Prim.hlevel (codes, e.the_row.coded) };

    ghost view = { λ h. record { lock = h.inner.lock; view = h.inner.view; found = hub_with h.inner.view h.inner.found; hub = h.inner.value.hub.value } };

    // The log seen is a prefix of the log that was found, whose entries of the seat's number are the seat's own.
    ghost invariant = { λ h.
        IsSome h.inner.view.ground
        × IsPrefix h.inner.view.seen h.inner.found
        × (entries_by client_of h.inner.view.number h.inner.found ≡ h.inner.view.own) };
}

impl Held {
    /// The number of its seat's client.
    pub fn number(&self) -> u32
        ensures { result ≡ self.now.view.number }
    {
        self.inner.number()
    }

    /// The hub. A call through the reference changes the hub and nothing else.
    pub fn hub(&mut self) -> &mut Hub
        ensures* writes_back { sem 𝓛 (Lends the_row hub_row self.entry result (λ w. record self.old { hub = w })) }
        ensures value { result.now ≡ self.old.hub }
    {
        let shared = self.inner.value();
        &mut shared.hub
    }

    // Whether the mark is in the hub's log.
    pub(crate) fn has_mark(&mut self, mark: u32) -> bool
        ensures same { self.new ≡ self.old }
        ensures mark { result ≡ has_mark self.old.hub.log mark }
    {
        self.hub().has_mark(mark)
    }

    // The tokens of the log seen are tokens of the hub that was found. These functions do nothing.

    fn keeps_tokens(&self)
        ensures { TokensStay (known self.now.view) self.now.found }
    {
        laws::tokens_stay();
        let _inner = &self.inner;
    }

    pub(crate) fn knows_tx(&self, tx: &Tx)
        requires { IsToken (known self.now.view) tx.now }
        ensures { IsToken self.now.found tx.now }
    {
        self.keeps_tokens();
    }

    pub(crate) fn knows_write(&self, tx: &WriteTx)
        requires { IsBegun (known self.now.view) tx.now.begun tx.now.mode tx.now.base }
        ensures { IsBegun self.now.found tx.now.begun tx.now.mode tx.now.base }
    {
        self.keeps_tokens();
    }

    pub(crate) fn knows_receipt(&self, receipt: Receipt)
        requires { IsGiven (known self.now.view) receipt }
        ensures { IsGiven self.now.found receipt }
    {
        self.keeps_tokens();
    }

    pub(crate) fn knows_chain(&self, chain: &Chain)
        requires { IsChain (known self.now.view) chain.now }
        ensures { IsChain self.now.found chain.now }
    {
        self.keeps_tokens();
    }

    pub(crate) fn knows_listener(&self, id: ListenerId)
        requires { IsListener (known self.now.view) id }
        ensures { IsListener self.now.found id }
    {
        self.keeps_tokens();
    }

    // The versions of the seat's world are those of the hub.
    pub(crate) fn knows_version(&self, version: u32)
        requires { version ≤ upgrades_of (known self.now.view).world }
        ensures { version ≤ upgrades_of self.now.found.world }
    {
        let _inner = &self.inner;
    }

    pub(crate) fn knows_call(&self, id: CallId)
        requires { IsCall (known self.now.view) id }
        ensures { IsCall self.now.found id }
    {
        self.keeps_tokens();
    }
}
