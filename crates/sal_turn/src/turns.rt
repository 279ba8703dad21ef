//! Whole turns, and their two ends.
ghost use Rattle.std.specs.Prelude.{◌≡◌, ℕ, ◌+◌, [], ◌∷◌, Some, None};
ghost use Rattle.sal_turn.specs.Entries.{AddsAtMostOne};
ghost use Rattle.sal_turn.specs.Stages.{entries_found};
ghost use Rattle.sal_turn.specs.Tells.{Begun, after_turn};
ghost use Rattle.sal_turn.specs.Turns.{Adds, Keeps, Takes, Turned};
ghost use Rattle.sal_turn.specs.declared.view.Stage.TheVariants.{HasTurn, Idle};

use crate::chronicle::Chronicle;
use crate::seat::Seat;
use crate::steps::{Draw, Look, Pass};
use crate::turn::{NEXT_TICKET, TURN_SERVED, Turn, VALUE};
use crate::view::View;
use std::sync::Wait;

impl<V: Chronicle> Turn<V> {
    /// One turn of the seat. The call gets the value and the number of the seat's client.
    pub fn make_turn<R: Wait, T, F: FnOnce(&mut V, u32) -> T>(
        &self,
        rt: &R,
        seat: &mut Seat<V>,
        call: F,
    ) -> T
        requires lock { seat.old.lock ≡ self.now }
        requires takes { Takes V.entries V.client V.ground F.FnOnce call seat.old.view }
        requires adds { Adds V.entries V.client V.ground F.FnOnce call seat.old.view }
        ensures same { Keeps self.now seat.old seat.new }
        ensures turns { seat.new.view.turns ≡ seat.old.view.turns + 1 }
        ensures turn { Turned V.entries V.client V.ground F.FnOnce call seat.old.view result seat.new.view }
    {
        let client = seat.number();
        let mut value = self.begin(rt, &mut seat.token);
        let answer = call(&mut value, client);
        self.end(&mut seat.token, value);
        answer
    }

    // Waits for the turn of a seat, and takes the value out.
    pub(crate) fn begin<R: Wait>(
        &self,
        rt: &R,
        token: &mut atomic_table::Seat<Option<V>, View<V::Entry, V::Ground>>,
    ) -> V
        requires lock { token.old.table_id ≡ self.now }
        requires none_out { token.old.me.1 ≡ [] }
        requires idle { token.old.me.0.stage ≡ Idle }
        ensures lock { token.new.table_id ≡ self.now }
        ensures begun { Begun V.entries V.client V.ground token.old.me.0 token.new.me result }
    {
        self.wait_outside(rt);
        let ticket = self.table.shared.fetch_add::<Draw>(token, NEXT_TICKET, 1);
        for _ in rt.forever() {
            if self.table.shared.load::<Look>(token, TURN_SERVED) == ticket {
                let Some(value) = self.table.shared.exchange(token, VALUE, None) else {
                    unreachable!()
                };
                return value;
            }
            self.wait_at_door(rt, ticket);
        }
        unreachable!()
    }

    // Ends the turn of a seat, and puts the value back.
    pub(crate) fn end(
        &self,
        token: &mut atomic_table::Seat<Option<V>, View<V::Entry, V::Ground>>,
        value: V,
    )
        requires lock { token.old.table_id ≡ self.now }
        requires out { token.old.me.1 ≡ (0, None) ∷ [] }
        requires staged { (t : ℕ) × (token.old.me.0.stage ≡ HasTurn t (entries_found token.old.me.0.stage)) }
        requires ground { token.old.me.0.ground ≡ Some (V.ground value) }
        requires entries { AddsAtMostOne V.client token.old.me.0.number (entries_found token.old.me.0.stage) (V.entries value) }
        ensures lock { token.new.table_id ≡ self.now }
        ensures passed { token.new.me ≡ (after_turn V.entries V.client V.ground value token.old.me.0, []) }
    {
        let before = self.table.shared.exchange(token, VALUE, Some(value));
        let None = before else { unreachable!() };
        let served = self.table.shared.fetch_add::<Pass>(token, TURN_SERVED, 1);
        self.sleepers.wake(served.wrapping_add(1));
    }
}
