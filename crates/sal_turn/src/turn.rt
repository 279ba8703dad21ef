//! The lock.
ghost use Rattle.std.specs.Prelude.{◌≡◌, ℕ, List, [], ◌∷◌, ◌++◌, ◌+◌, true, IfOk, Some};
ghost use mathlib.Core.List.{IsPrefix};
ghost use Rattle.sal_turn.specs.Entries.{entries_by, AddsAtMostOne, Leaves};
ghost use Rattle.sal_turn.specs.Lists.{In};
ghost use Rattle.sal_turn.specs.Views.{opener, newcomer, both, AnswersFor, SameRights};

use crate::chronicle::Chronicle;
use crate::held::Held;
use crate::rule::{Opening, Ticketed};
use crate::seat::Seat;
use crate::steps::{Compare, JoinSeats, Name, SplitSeat};
use crate::view::View;
use crate::waits::Sleepers;
use atomic_table::Table;
use sal_types::NoMemory;
use std::alloc::Global;
use std::marker::Model;
use std::snapshot::Snapshot;
use std::sync::Wait;

// The words of the table, and its slot.
pub(crate) const NEXT_TICKET: usize = 0;

pub(crate) const TURN_SERVED: usize = 1;

pub(crate) const VALUE: usize = 0;

/// The lock: the next ticket, the turn served, and the value, which is out while a seat has its turn. A contract sees its name.
#[derive(Drop)]
pub struct Turn<V: Chronicle> {
    pub(crate) table: Table<Option<V>, View<V::Entry, V::Ground>, Opening<V>, Ticketed, Global>,
    pub(crate) sleepers: Sleepers,
}

impl<V: Chronicle> Model for Turn<V> {
    ghost use Rattle.std.specs.Prelude.{◌≡◌};
    ghost use Rattle.atomic_table.specs.Seated.{TableId};

    ghost Value = { TableId };

    ghost view = { λ t. t.table.shared.table_id };

    ghost invariant = { λ t. (t.table.shared.table_id.words ≡ 2) × (t.table.shared.table_id.slots ≡ 1) };
}

impl<V: Chronicle> Turn<V> {
    /// A lock over the value, which has no entries yet, and its opening seat, with this number. If memory runs out, the value is dropped.
    pub fn open(alloc: Global, value: V, number: u32) -> Result<(Turn<V>, Seat<V>), NoMemory>
    where
        V: Drop,
        requires { V.entries value ≡ [] }
        ensures { IfOk result (λ r. (r.1.lock ≡ r.0) × (r.1.view ≡ opener number (V.ground value))) }
    {
        let about = Opening {
            number,
            value: Snapshot::of(&value),
        };
        let mut slots = Vec::with_capacity(alloc, 1)?;
        slots.push(Some(value))?;
        match Table::new(alloc, &[0, 0], slots, &about) {
            Ok((table, token)) => {
                let sleepers = Sleepers::new();
                Ok((Turn { table, sleepers }, Seat { token, number }))
            }
            Err(refused) => {
                drop(refused);
                Err(NoMemory)
            }
        }
    }

    /// Waits for the seat's turn, and takes it. The list seen is a prefix of the entries found, and the entries of the seat's
    /// number are its own.
    pub fn enter<R: Wait>(&self, rt: &R, seat: Seat<V>) -> Held<V>
        requires { seat.lock ≡ self.now }
        ensures same { (result.lock ≡ self.now) × (result.view ≡ seat.view) }
        ensures found { V.entries result.value ≡ result.found }
        ensures seen { IsPrefix seat.view.seen result.found }
        ensures own { entries_by V.client seat.view.number result.found ≡ seat.view.own }
        ensures ground { seat.view.ground ≡ Some (V.ground result.value) }
    {
        let Seat { mut token, number } = seat;
        let value = self.begin(rt, &mut token);
        Held {
            token,
            number,
            value,
        }
    }

    /// Ends a turn. The value has the same ground, and the entries that were found, or these with one more of the
    /// seat's number at the end; the seat has then seen all of them.
    pub fn leave(&self, held: Held<V>) -> Seat<V>
        requires lock { held.lock ≡ self.now }
        requires ground { held.view.ground ≡ Some (V.ground held.value) }
        requires entries { AddsAtMostOne V.client held.view.number held.found (V.entries held.value) }
        ensures same { (result.lock ≡ self.now) × SameRights held.view result.view }
        ensures turns { result.view.turns ≡ held.view.turns + 1 }
        ensures seen { result.view.seen ≡ V.entries held.value }
        ensures own { Leaves V.client held.view.number held.found held.view.own (V.entries held.value) result.view.own }
    {
        let Held {
            mut token,
            number,
            value,
        } = held;
        self.end(&mut token, value);
        Seat { token, number }
    }

    /// A new seat with a number that no seat has had. It has seen the same entries as the giver, and has no own entries.
    pub fn split(&self, seat: &mut Seat<V>, number: u32) -> Seat<V>
        requires lock { seat.old.lock ≡ self.now }
        requires may_split { seat.old.view.splits ≡ true }
        requires new { ¬ In number seat.old.view.given }
        ensures giver { (seat.new.lock ≡ self.now) × (seat.new.view ≡ record seat.old.view { given = seat.old.view.given ++ number ∷ [] }) }
        ensures new { (result.lock ≡ self.now) × (result.view ≡ newcomer number seat.old.view) }
    {
        // The word does not change: the step exists to put the number into the view.
        let named = u64::from(number);
        self.table
            .shared
            .compare_exchange::<Name>(&mut seat.token, NEXT_TICKET, named, named);
        let token = self.table.shared.split_seat::<SplitSeat>(&mut seat.token);
        Seat { token, number }
    }

    /// The first seat with all that the second knew: the longer of the two lists seen, of which the shorter is a beginning, and
    /// the second's number with its own entries among those joined.
    pub fn join(&self, a: Seat<V>, b: Seat<V>) -> Seat<V>
        requires locks { (a.lock ≡ self.now) × (b.lock ≡ self.now) }
        ensures joined { (result.lock ≡ self.now) × (result.view ≡ both a.view b.view) }
        ensures first { IsPrefix a.view.seen result.view.seen }
        ensures second { IsPrefix b.view.seen result.view.seen }
    {
        let Seat { mut token, number } = a;
        let Seat {
            token: other,
            number: _,
        } = b;
        self.table.shared.join_seat::<JoinSeats>(&mut token, other);
        self.table.shared.load::<Compare>(&mut token, TURN_SERVED);
        Seat { token, number }
    }

    /// The value, once every other seat was joined. Of each number that the seat answers for its entries are those known, in
    /// order, and it has no others.
    pub fn close(self, seat: Seat<V>) -> V
        requires lock { seat.lock ≡ self }
        requires may_split { seat.view.splits ≡ true }
        requires joined { (k : ℕ) → In k seat.view.given → AnswersFor seat.view k }
        ensures ground { seat.view.ground ≡ Some (V.ground result) }
        ensures seen { IsPrefix seat.view.seen (V.entries result) }
        ensures own { entries_by V.client seat.view.number (V.entries result) ≡ seat.view.own }
        ensures joined { (k : ℕ) (es : List V.Entry) → In (k, es) seat.view.joined → entries_by V.client k (V.entries result) ≡ es }
        ensures others { (k : ℕ) → ¬ AnswersFor seat.view k → entries_by V.client k (V.entries result) ≡ [] }
    {
        let Turn { table, sleepers } = self;
        drop(sleepers);
        let Seat { token, number: _ } = seat;
        let mut closed = table.close_with(token);
        let slot = closed.take(VALUE);
        closed.free();
        let Some(value) = slot else { unreachable!() };
        value
    }
}
