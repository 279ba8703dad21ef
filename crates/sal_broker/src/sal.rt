//! The broker, and its seats.
ghost use Rattle.std.specs.Prelude.{◌≡◌, ◌≤◌, ◌+◌, ℕ, List, [], ◌∷◌, ◌++◌, true, None, Some, IfOk, IsSome, MatchResult, length};
ghost use mathlib.Core.List.{IsPrefix};
ghost use Rattle.sal_history.specs.declared.call.Entry.{Entry};
ghost use Rattle.sal_history.specs.World.{AreVersions};
ghost use Rattle.sal_turn.specs.Entries.{entries_by};
ghost use Rattle.sal_turn.specs.Lists.{In};
ghost use Rattle.sal_turn.specs.Views.{AnswersFor, SameRights, both, newcomer, opener};
ghost use Rattle.sal_hub.specs.Openings.{AreClosedDevices, IsFaultOf, fault_of, world_of};
ghost use Rattle.sal_broker.specs.Seats.{client_of, inside, known};
ghost use Rattle.sal_broker.specs.Tokens.{TokensStay};
ghost use Rattle.sal_broker.specs.Turns.{OneMoreAtMost, TurnOf};

use crate::held::Held;
use crate::laws;
use crate::seat::Seat;
use crate::shared::Shared;
use crate::waiting::Growth;
use sal_history::Device;
use sal_hub::{Hub, OpenFault};
use sal_rows::Rules;
use sal_turn::Turn;
use sal_types::NoMemory;
use std::alloc::Global;
use std::marker::Model;
use std::sync::Wait;

/// The number of the opening seat. No client has it.
pub const OPENING_NUMBER: u32 = 65535;

/// The broker: a hub under a lock. A contract sees the name of its lock.
pub struct Sal {
    pub(crate) lock: Turn<Shared>,
    pub(crate) growth: Growth,
}

impl Drop for Sal {
    fn drop(self) {
        let Sal { lock: _, growth: _ } = self;
    }
}

impl Model for Sal {
    ghost use Rattle.sal_turn.specs.Seats.{TableId};

    ghost Value = { TableId };

    ghost view = { λ s. s.lock };
}

impl Sal {
    /// A broker without calls over the devices, of which the first is the controller's own domain, under the version rules, and its opening
    /// seat. The opening trees of each fit at the root by version 0 of its schema, and each version extends the one before; only the first
    /// device has more than one (`Hub::open`).
    pub fn open(alloc: Global, devices: Vec<Device>, rules: Rules) -> Result<(Sal, Seat), OpenFault>
        requires some { 1 ≤ length devices.items }
        requires few { length devices.items ≤ 64 }
        requires closed { AreClosedDevices devices.items }
        requires versions { AreVersions (world_of rules devices.items) }
        ensures { MatchResult result (λ r. (fault_of (world_of rules devices.items) ≡ None) × (r.1.lock ≡ r.0) × (r.1.view ≡ opener 65535 (world_of rules devices.items))) (IsFaultOf (world_of rules devices.items)) }
    {
        let hub = Hub::open(alloc, devices, rules)?;
        let opened = Sal::over(alloc, hub)?;
        Ok(opened)
    }

    /// A broker over the hub, which has no calls yet, and its opening seat. If memory runs out, the hub is dropped.
    pub fn over(alloc: Global, hub: Hub) -> Result<(Sal, Seat), NoMemory>
        requires { hub.log ≡ [] }
        ensures { IfOk result (λ r. (r.1.lock ≡ r.0) × (r.1.view ≡ opener 65535 hub.world)) }
    {
        let hub = Box::new(alloc, hub)?;
        let (lock, seat) = Turn::open(alloc, Shared { hub }, OPENING_NUMBER)?;
        let growth = Growth::new();
        Ok((Sal { lock, growth }, Seat { inner: Some(seat) }))
    }

    /// Waits for the seat's turn, and takes it. The log seen is a prefix of the log of the hub that it finds, in
    /// which the entries of the seat's number are its own.
    pub fn enter<R: Wait>(&self, rt: &R, seat: Seat) -> Held
        requires { seat.lock ≡ self.now }
        ensures same { (result.lock ≡ self.now) × (result.view ≡ seat.view) }
        ensures hub { result.hub ≡ result.found }
        ensures world { seat.view.ground ≡ Some result.found.world }
        ensures seen { IsPrefix seat.view.seen result.found.log }
        ensures own { entries_by client_of seat.view.number result.found.log ≡ seat.view.own }
        ensures tokens { TokensStay (known seat.view) result.found }
    {
        laws::tokens_stay();
        let Seat { inner } = seat;
        let Some(inner) = inner else { unreachable!() };
        Held {
            inner: self.lock.enter(rt, inner),
        }
    }

    // Waits for the turn of the seat in the slot, and takes it. The slot is empty until the turn ends.
    pub(crate) fn take_turn<R: Wait>(
        &self,
        rt: &R,
        place: &mut Option<sal_turn::Seat<Shared>>,
    ) -> Held
        requires some { IsSome place.old }
        requires lock { (inside place.old).lock ≡ self.now }
        ensures left { place.new ≡ None }
        ensures same { (result.lock ≡ self.now) × (result.view ≡ (inside place.old).view) }
        ensures hub { result.hub ≡ result.found }
        ensures world { (inside place.old).view.ground ≡ Some result.found.world }
        ensures seen { IsPrefix (inside place.old).view.seen result.found.log }
        ensures own { entries_by client_of (inside place.old).view.number result.found.log ≡ (inside place.old).view.own }
    {
        let Some(inner) = place.take() else {
            unreachable!()
        };
        self.enter(rt, Seat { inner: Some(inner) })
    }

    /// Ends a turn. The hub is unchanged, or has one more entry, of the seat's number; the seat has then seen its log.
    pub fn leave(&self, held: Held) -> Seat
        requires lock { held.lock ≡ self.now }
        requires added { OneMoreAtMost held.view held.found held.hub }
        ensures same { (result.lock ≡ self.now) × SameRights held.view result.view }
        ensures turns { result.view.turns ≡ held.view.turns + 1 }
        ensures turn { TurnOf held.view held.view.number held.found held.hub result.view }
    {
        let Held { inner } = held;
        self.growth.tell(inner.peek().hub.log().len());
        Seat {
            inner: Some(self.lock.leave(inner)),
        }
    }

    /// A new seat with a number that no seat has had. It has seen the same entries as the giver, and has no own entries.
    pub fn split(&self, seat: &mut Seat, number: u32) -> Seat
        requires lock { seat.old.lock ≡ self.now }
        requires may_split { seat.old.view.splits ≡ true }
        requires new { ¬ In number seat.old.view.given }
        ensures giver { (seat.new.lock ≡ self.now) × (seat.new.view ≡ record seat.old.view { given = seat.old.view.given ++ number ∷ [] }) }
        ensures new { (result.lock ≡ self.now) × (result.view ≡ newcomer number seat.old.view) }
    {
        let Some(mut inner) = seat.inner.take() else {
            unreachable!()
        };
        let new = self.lock.split(&mut inner, number);
        seat.inner = Some(inner);
        Seat { inner: Some(new) }
    }

    /// The first seat with all that the second knew: the longer of the two logs seen, of which the shorter is a prefix, and
    /// the second's number with its own entries among those joined.
    pub fn join(&self, a: Seat, b: Seat) -> Seat
        requires locks { (a.lock ≡ self.now) × (b.lock ≡ self.now) }
        ensures joined { (result.lock ≡ self.now) × (result.view ≡ both a.view b.view) }
        ensures first { IsPrefix a.view.seen result.view.seen }
        ensures second { IsPrefix b.view.seen result.view.seen }
    {
        let Seat { inner: a } = a;
        let Seat { inner: b } = b;
        let (Some(a), Some(b)) = (a, b) else {
            unreachable!()
        };
        Seat {
            inner: Some(self.lock.join(a, b)),
        }
    }

    /// The hub, once every other seat was joined. For each number that the seat answers for, the log's entries are those known,
    /// in order, and it has no others.
    pub fn close(self, seat: Seat) -> Hub
        requires lock { seat.lock ≡ self }
        requires may_split { seat.view.splits ≡ true }
        requires joined { (k : ℕ) → In k seat.view.given → AnswersFor seat.view k }
        ensures world { seat.view.ground ≡ Some result.world }
        ensures seen { IsPrefix seat.view.seen result.log }
        ensures own { entries_by client_of seat.view.number result.log ≡ seat.view.own }
        ensures joined { (k : ℕ) (es : List Entry) → In (k, es) seat.view.joined → entries_by client_of k result.log ≡ es }
        ensures others { (k : ℕ) → ¬ AnswersFor seat.view k → entries_by client_of k result.log ≡ [] }
    {
        let Sal { lock, growth } = self;
        drop(growth);
        let Seat { inner } = seat;
        let Some(inner) = inner else { unreachable!() };
        let Shared { hub } = lock.close(inner);
        Box::into_inner(hub)
    }
}
