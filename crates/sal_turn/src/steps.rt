//! The atomic steps of the lock, with their effect on the seat that makes them. These types are for the proofs alone.
ghost use Rattle.sal_turn.specs.Tells.{CompareTells, DrawTells, LookTells, NameTells, PassTells};

use crate::chronicle::Chronicle;
use crate::view::View;
use atomic_table::{Join, Play, Split};

/// The seat gets a ticket.
pub(crate) struct Draw;

impl<V: Chronicle> Play<Option<V>, View<V::Entry, V::Ground>> for Draw {
    ghost then = { DrawTells V.entries V.client V.ground };
}

/// The seat looks at the turn served, and takes the value if its turn has come.
pub(crate) struct Look;

impl<V: Chronicle> Play<Option<V>, View<V::Entry, V::Ground>> for Look {
    ghost then = { LookTells V.entries V.client V.ground };
}

/// The seat ends its turn, and the value is in the slot again.
pub(crate) struct Pass;

impl<V: Chronicle> Play<Option<V>, View<V::Entry, V::Ground>> for Pass {
    ghost then = { PassTells V.entries V.client V.ground };
}

/// The seat names the number that it is about to give away.
pub(crate) struct Name;

impl<V: Chronicle> Play<Option<V>, View<V::Entry, V::Ground>> for Name {
    ghost then = { NameTells V.entries V.client V.ground };
}

/// A seat that took another in compares their lists seen.
pub(crate) struct Compare;

impl<V: Chronicle> Play<Option<V>, View<V::Entry, V::Ground>> for Compare {
    ghost then = { CompareTells V.entries V.client V.ground };
}

/// The seat gives the number away that it named, with a new seat.
pub(crate) struct SplitSeat;

impl<E, G> Split<View<E, G>> for SplitSeat {
    ghost use Rattle.sal_turn.specs.Stages.{number_named};
    ghost use Rattle.sal_turn.specs.Views.{giver, newcomer};

    ghost left = { giver };

    ghost right = { λ v. newcomer (number_named v.stage) v };
}

/// The seat takes another in, which is spent.
pub(crate) struct JoinSeats;

impl<E, G> Join<View<E, G>> for JoinSeats {
    ghost use Rattle.sal_turn.specs.Views.{comparing, spent};

    ghost both = { comparing };

    ghost spent = { spent };
}
