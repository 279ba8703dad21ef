//! A turn at the lock.
ghost use Rattle.std.specs.Prelude.{◌≡◌};
ghost use Rattle.std.specs.Borrow.{sem, Lends};
ghost use Rattle.sal_turn.specs.contracts.held.Held.{the_row};

use crate::chronicle::Chronicle;
use crate::view::View;
use std::marker::Model;

/// A turn at the lock: the value, in the hands of one seat. A contract sees its lock, its seat's view, the entries that
/// were found, and the value.
///
/// It can't be dropped: it has to go to `Turn::leave`, so no `?` on the way loses a turn.
pub struct Held<V: Chronicle> {
    pub(crate) token: atomic_table::Seat<Option<V>, View<V::Entry, V::Ground>>,
    pub(crate) number: u32,
    pub(crate) value: V,
}

impl<V: Chronicle> Model for Held<V> {
    ghost use Rattle.std.specs.Prelude.{◌≡◌, ℕ, List, [], ◌∷◌, None};
    ghost use Rattle.sal_turn.specs.Entries.{entries_by};
    ghost use Rattle.sal_turn.specs.Seats.{Holding};
    ghost use Rattle.sal_turn.specs.Stages.{entries_found};
    ghost use Rattle.sal_turn.specs.Views.{at_stage};
    ghost use Rattle.sal_turn.specs.declared.view.Stage.TheVariants.{Idle, HasTurn};

    ghost Value = { Holding V V.Entry V.Ground };

    ghost view = { λ h. record { lock = h.token.table_id; view = at_stage Idle h.token.me.0; found = entries_found h.token.me.0.stage; value = h.value } };

    // It has the slot, which is empty during the turn; its turn has come; the entries of its number are its own.
    ghost invariant = { λ h.
        (h.token.me.1 ≡ (0, None) ∷ [])
        × ((t : ℕ) × (h.token.me.0.stage ≡ HasTurn t (entries_found h.token.me.0.stage)))
        × (entries_by V.client h.token.me.0.number (entries_found h.token.me.0.stage) ≡ h.token.me.0.own)
        × (h.token.me.0.number ≡ h.number) };
}

impl<V: Chronicle> Held<V> {
    /// The number of its seat's client.
    pub fn number(&self) -> u32
        ensures { result ≡ self.now.view.number }
    {
        self.number
    }

    /// The value, to be read.
    pub fn peek(&self) -> &V
        ensures { result.now ≡ self.now.value }
    {
        &self.value
    }

    /// The value. A write through the reference changes the value and nothing else.
    pub fn value(&mut self) -> &mut V
        ensures* writes_back { sem 𝓛 (Lends (the_row V.row V.Entry.row V.Ground.row V.Chronicle) V.row self.entry result (λ w. record self.old { value = w })) }
        ensures value { result.now ≡ self.old.value }
    {
        &mut self.value
    }
}
