//! A caller's place at the broker.
ghost use Rattle.std.specs.Prelude.{◌≡◌};

use crate::shared::Shared;
use std::marker::Model;

/// A caller's place at the broker, between two calls. A contract sees its lock and its view.
///
/// A seat that is dropped can't be joined any more, so its broker can't be closed.
#[derive(Drop)]
pub struct Seat {
    pub(crate) inner: Option<sal_turn::Seat<Shared>>,
}

impl Model for Seat {
    ghost use Rattle.std.specs.Prelude.{List, IsSome};
    ghost use Rattle.std.specs.Coded.{codes};
    ghost use Rattle.sal_restrict.specs.contracts.yang_type.YangType as e;
    ghost use Rattle.sal_history.specs.World.{Domain};
    ghost use Rattle.sal_history.specs.declared.call.Entry.{Entry};
    ghost use Rattle.sal_turn.specs.Seats.{Place};
    ghost use Rattle.sal_broker.specs.Seats.{inside};

    ghost Value = { Place Entry (List Domain) };

    ghost coded = { Prim.hlevel (codes, e.the_row.coded) };

    ghost view = { λ s. inside s.inner };

    ghost invariant = { λ s. IsSome s.inner };
}

impl Seat {
    /// The number of its client.
    pub fn number(&self) -> u32
        ensures { result ≡ self.now.view.number }
    {
        let Some(inner) = &self.inner else {
            unreachable!()
        };
        inner.number()
    }
}
