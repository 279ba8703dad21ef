//! Looks for a mark, a turn each.
ghost use Rattle.std.specs.Prelude.{◌≡◌, ◌⊎◌, ◌+◌, ◌≤◌, ◌<◌, true, false, Some, IfOk, length};
ghost use mathlib.Core.List.{IsPrefix};
ghost use Rattle.sal_history.specs.declared.call.Call.TheVariants.{After};
ghost use Rattle.sal_turn.specs.Entries.{entries_by};
ghost use Rattle.sal_turn.specs.Views.{SameRights};
ghost use Rattle.sal_hub.specs.Answers.{Calls};
ghost use Rattle.sal_hub.specs.HubHistory.{entry_of};
ghost use Rattle.sal_hub.specs.Marks.{has_mark};
ghost use Rattle.sal_hub.specs.Seen.{seen_reply};
ghost use Rattle.sal_broker.specs.Looks.{IsLate, IsMissed};
ghost use Rattle.sal_broker.specs.Seats.{client_of, known};
ghost use Rattle.sal_broker.specs.Tokens.{TokensStay};
ghost use Rattle.sal_broker.specs.Turns.{InLastTurn, Keeps};

use crate::held::Held;
use crate::laws;
use crate::sal::Sal;
use crate::seat::Seat;
use crate::waiting::Patience;
use sal_hub::Seen;
use sal_rows::CallFault;
use std::alloc::Global;
use std::sync::Wait;

/// The largest number of looks for a mark.
pub const MAX_LOOKS: u32 = 4194304;

// The last look. If the mark is not set, all looks were made.
fn last_look(alloc: Global, held: &mut Held, mark: u32) -> Result<Seen, CallFault>
    ensures same { held.new ≡ record held.old { hub = held.new.hub } }
    ensures answer { Calls held.old.hub held.new.hub (entry_of held.old.hub held.old.view.number (After mark)) seen_reply result }
    ensures missed { IfOk result (IsMissed MAX_LOOKS held.old.hub.log mark) }
{
    let client = held.number();
    match held.hub().after(alloc, client, mark) {
        Ok(Seen::Late { looks: _, front }) => Ok(Seen::Late {
            looks: MAX_LOOKS,
            front,
        }),
        other => other,
    }
}

impl Sal {
    /// Looks, a turn each, until the mark is set or `MAX_LOOKS` looks were made: then it is late. The entry is made
    /// in the last look.
    ///
    /// Between two looks it sleeps, and it looks no more often than the log grows. Once the log has not grown for about a second,
    /// it makes the remaining looks without waiting, which takes less than another second on a machine with little other
    /// load. Only one client at a time does so, so a client may wait for each of the others.
    pub fn after<R: Wait>(
        &self,
        rt: &R,
        alloc: Global,
        seat: &mut Seat,
        mark: u32,
    ) -> Result<Seen, CallFault>
        requires { seat.old.lock ≡ self.now }
        ensures same { Keeps self.now seat.old seat.new }
        ensures turn { InLastTurn seat.old.view seat.new.view (λ client found left. Calls found left (entry_of found client (After mark)) seen_reply result × IfOk result (IsLate MAX_LOOKS seat.old.view seat.new.view (length found.log))) }
    {
        let Some(inner) = seat.inner.take() else {
            unreachable!()
        };
        let mut held = self.enter_after(rt, Seat { inner: Some(inner) }, mark);
        let answer = last_look(alloc, &mut held, mark);
        seat.inner = self.leave(held).inner;
        answer
    }

    /// Takes turns, without an entry, until one finds a log that has the mark, or `MAX_LOOKS` turns were taken; the caller keeps
    /// that turn. If it is not the first, the log after the turn before it, which the seat has seen, has no such mark: so no
    /// turn follows one that found it. It waits between them as `after` does.
    pub fn enter_after<R: Wait>(&self, rt: &R, seat: Seat, mark: u32) -> Held
        requires { seat.lock ≡ self.now }
        ensures same { (result.lock ≡ self.now) × SameRights seat.view result.view × (result.view.own ≡ seat.view.own) }
        ensures hub { result.hub ≡ result.found }
        ensures world { seat.view.ground ≡ Some result.found.world }
        ensures seen { IsPrefix seat.view.seen result.found.log }
        ensures own { entries_by client_of seat.view.number result.found.log ≡ seat.view.own }
        ensures tokens { TokensStay (known seat.view) result.found }
        ensures looks { (has_mark result.found.log mark ≡ true) ⊎ (result.view.turns + 1 ≡ seat.view.turns + 4194304) }
        ensures turns { (seat.view.turns ≤ result.view.turns) × (result.view.turns < seat.view.turns + 4194304) }
        ensures missed { (result.view.turns ≡ seat.view.turns) ⊎ (has_mark result.view.seen mark ≡ false) }
    {
        laws::tokens_stay();
        let mut held = self.enter(rt, seat);
        let mut patience = Patience::new();
        for _ in 1..MAX_LOOKS {
            if held.has_mark(mark) {
                patience.end(&self.growth);
                return held;
            }
            held = self.look_again(rt, held, &mut patience);
        }
        patience.end(&self.growth);
        held
    }

    // Ends the turn without an entry, waits until it is time for a look, and takes the seat's next turn.
    fn look_again<R: Wait>(&self, rt: &R, held: Held, patience: &mut Patience) -> Held
        requires lock { held.lock ≡ self.now }
        requires hub { held.hub ≡ held.found }
        ensures same { (result.lock ≡ self.now) × SameRights held.view result.view × (result.view.own ≡ held.view.own) }
        ensures hub { result.hub ≡ result.found }
        ensures world { held.view.ground ≡ Some result.found.world }
        ensures seen { IsPrefix held.found.log result.found.log }
        ensures own { entries_by client_of held.view.number result.found.log ≡ held.view.own }
        ensures turns { result.view.turns ≡ held.view.turns + 1 }
        ensures before { result.view.seen ≡ held.found.log }
    {
        let seat = self.leave(held);
        patience.wait(rt, &self.growth);
        self.enter(rt, seat)
    }
}
