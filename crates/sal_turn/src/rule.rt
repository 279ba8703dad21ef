//! The rule of the lock, as its table keeps it. These types are for the proofs alone.
use crate::chronicle::Chronicle;
use crate::view::View;
use atomic_table::TableRule;
use std::snapshot::Snapshot;

/// The arguments of `open`.
#[derive(Drop)]
pub struct Opening<V> {
    /// The number of the opening seat.
    pub number: u32,
    /// The value at that time.
    pub value: Snapshot<V>,
}

/// The rule: tickets in order, and the value in the slot or with the seat that has the turn.
pub struct Ticketed;

impl<V: Chronicle> TableRule<Option<V>, View<V::Entry, V::Ground>, Opening<V>> for Ticketed {
    ghost use Rattle.sal_turn.specs.Rule.{LockRule};
    ghost use Rattle.sal_turn.specs.Views.{opener};

    ghost holds = { λ _. LockRule V.entries V.client V.ground };

    ghost first = { λ key. opener key.number (V.ground key.value.value) };
}
