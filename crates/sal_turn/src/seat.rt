//! A caller's place at the lock.
ghost use Rattle.std.specs.Prelude.{◌≡◌};

use crate::chronicle::Chronicle;
use crate::view::View;
use std::marker::Model;

/// A caller's place at the lock, between two turns. A contract sees its lock and its view.
///
/// A seat that is dropped can't be joined any more, so its lock can't be closed.
#[derive(Drop)]
pub struct Seat<V: Chronicle> {
    pub(crate) token: atomic_table::Seat<Option<V>, View<V::Entry, V::Ground>>,
    pub(crate) number: u32,
}

impl<V: Chronicle> Model for Seat<V> {
    ghost use Rattle.std.specs.Prelude.{◌≡◌, []};
    ghost use Rattle.sal_turn.specs.Seats.{Place};
    ghost use Rattle.sal_turn.specs.declared.view.Stage.TheVariants.{Idle};

    ghost Value = { Place V.Entry V.Ground };

    ghost view = { λ s. record { lock = s.token.table_id; view = s.token.me.0 } };

    ghost invariant = { λ s. (s.token.me.1 ≡ []) × (s.token.me.0.stage ≡ Idle) × (s.token.me.0.number ≡ s.number) };
}

impl<V: Chronicle> Seat<V> {
    /// The number of its client.
    pub fn number(&self) -> u32
        ensures { result ≡ self.now.view.number }
    {
        self.number
    }
}
