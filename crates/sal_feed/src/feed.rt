//! The feed and its seats.
ghost use Rattle.std.specs.Prelude.{◌≡◌, ◌<◌, ◌≤◌, ◌+◌, true, false, List, [], ◌∷◌, ◌++◌, vec_capacity, IfOk, MatchOption, MatchResult};
ghost use Rattle.crossbeam_queue.specs.Passes.{view, IsPassOf, ruled_capacity};
ghost use Rattle.sal_note.specs.declared.call.Note.{Note};
ghost use Rattle.sal_feed.specs.Rule.{log};
ghost use Rattle.sal_feed.specs.Seats.{OfferKeeps, TakeKeeps, WasEmpty, WasFull};

use crate::rule::{Empties, InOrder, Invariant, Log, Offers, Roles, Takes};
use crossbeam_queue::{Pass, RuledArrayQueue};
use sal_note::{Note, NoteList};
use sal_types::{NoMemory, Seq};
use std::alloc::Global;
use std::marker::Model;
use std::sync::Wait;
use thiserror::Error;

type Line<I> = RuledArrayQueue<Note, Log, InOrder<I>, Global>;

/// The most notifications that may wait do.
#[derive(Clone, Copy, Debug, PartialEq, Eq, Error)]
#[error("the feed is full")]
pub struct Full;

/// A queue of notifications between two seats, with an invariant of the program's (`NoInvariant` says nothing).
#[derive(Drop)]
pub struct Feed<I: Invariant> {
    line: Line<I>,
}

impl<I: Invariant> Model for Feed<I> {
    ghost use Rattle.crossbeam_queue.specs.Passes.{ruled_capacity};
    ghost use Rattle.sal_feed.specs.Seats.{Named};

    ghost Value = { Named };

    ghost view = { λ f. record { id = f.line.table.shared.table_id; capacity = ruled_capacity f.line } };
}

/// The right to offer.
#[derive(Drop)]
pub struct OfferSeat {
    pass: Pass<Note, Log>,
}

impl Model for OfferSeat {
    ghost use Rattle.std.specs.Prelude.{◌≡◌, true, false, []};
    ghost use Rattle.crossbeam_queue.specs.Passes.{view as known};
    ghost use Rattle.sal_feed.specs.Rule.{log};
    ghost use Rattle.sal_feed.specs.Seats.{Offering};

    ghost Value = { Offering };

    ghost view = { λ s. record { feed = s.pass.table_id; offered = (known s.pass).offered } };

    ghost invariant = { λ s. (s.pass.me.1 ≡ []) × (known s.pass ≡ log true false (known s.pass).offered []) };
}

/// The right to take.
#[derive(Drop)]
pub struct TakeSeat {
    pass: Pass<Note, Log>,
}

impl Model for TakeSeat {
    ghost use Rattle.std.specs.Prelude.{◌≡◌, true, false, []};
    ghost use Rattle.crossbeam_queue.specs.Passes.{view as known};
    ghost use Rattle.sal_feed.specs.Rule.{log};
    ghost use Rattle.sal_feed.specs.Seats.{Taking};

    ghost Value = { Taking };

    ghost view = { λ s. record { feed = s.pass.table_id; taken = (known s.pass).taken } };

    ghost invariant = { λ s. (s.pass.me.1 ≡ []) × (known s.pass ≡ log false true [] (known s.pass).taken) };
}

impl<I: Invariant> Feed<I> {
    /// A feed in which `capacity` notifications may wait, and its two seats.
    pub fn open<R: Wait>(
        _rt: &R,
        alloc: Global,
        capacity: usize,
    ) -> Result<(Feed<I>, OfferSeat, TakeSeat), NoMemory>
        requires holds { I.holds [] [] }
        requires some { 0 < capacity }
        requires few { capacity ≤ 4096 }
        ensures capacity { IfOk result (λ o. o.0.capacity ≡ capacity) }
        ensures seats { IfOk result (λ o. (o.1.feed ≡ o.0.id) × (o.2.feed ≡ o.0.id)) }
        ensures nothing { IfOk result (λ o. (o.1.offered ≡ []) × (o.2.taken ≡ [])) }
    {
        let (line, mut pass) = Line::<I>::ruled(alloc, capacity)?;
        let other = line.another::<Roles>(&mut pass);
        Ok((Feed { line }, OfferSeat { pass }, TakeSeat { pass: other }))
    }

    /// Appends the notification, or returns it if at a step of this call the feed was full. It takes no memory.
    pub fn offer<R: Wait>(
        &self,
        rt: &R,
        seat: &mut OfferSeat,
        note: Note,
    ) -> Result<(), (Note, Full)>
        requires feed { seat.old.feed ≡ self.now.id }
        requires keeps { OfferKeeps I.holds self.now.capacity seat.old.offered note }
        ensures feed { seat.new.feed ≡ seat.old.feed }
        ensures told { MatchResult result (λ _. seat.new.offered ≡ seat.old.offered ++ note ∷ []) (λ back. (back.0 ≡ note) × (seat.new.offered ≡ seat.old.offered) × WasFull I.holds self.now.capacity seat.old.offered) }
    {
        match self.line.push_as::<Offers<I>, R>(rt, &mut seat.pass, note) {
            Ok(()) => Ok(()),
            Err(note) => Err((note, Full)),
        }
    }

    /// Takes the first notification; none if at a step of this call the feed was empty. It takes no memory.
    pub fn take<R: Wait>(&self, rt: &R, seat: &mut TakeSeat) -> Option<Note>
        requires feed { seat.old.feed ≡ self.now.id }
        requires keeps { TakeKeeps I.holds seat.old.taken }
        ensures feed { seat.new.feed ≡ seat.old.feed }
        ensures told { MatchOption result ((seat.new.taken ≡ seat.old.taken) × WasEmpty I.holds seat.old.taken) (λ note. seat.new.taken ≡ seat.old.taken ++ note ∷ []) }
    {
        self.line.pop_as::<Takes<I>, R>(rt, &mut seat.pass)
    }

    /// The remaining notifications; both seats end. If memory runs out for them, nothing changes.
    pub fn finish<R: Wait>(
        self,
        rt: &R,
        alloc: Global,
        offered: OfferSeat,
        taken: TakeSeat,
    ) -> Result<NoteList, (Feed<I>, OfferSeat, TakeSeat, NoMemory)>
        requires offered { offered.feed ≡ self.id }
        requires taken { taken.feed ≡ self.id }
        requires keeps { (so_far : List Note) → TakeKeeps I.holds so_far }
        ensures { MatchResult result (λ left. offered.offered ≡ taken.taken ++ left) (λ back. (back.0 ≡ self) × (back.1 ≡ offered) × (back.2 ≡ taken)) }
    {
        let Ok(room) = Vec::with_capacity(alloc, self.line.capacity()) else {
            return Err((self, offered, taken, NoMemory));
        };
        let OfferSeat { mut pass } = offered;
        let TakeSeat { pass: other } = taken;
        self.line.absorb::<Roles>(&mut pass, other);
        Ok(Seq::from_items(emptied(rt, &self.line, pass, room)))
    }

    /// The notes that are left, with both seats at an end. Without memory for them they are dropped.
    pub fn rest<R: Wait>(
        self,
        rt: &R,
        alloc: Global,
        offered: OfferSeat,
        taken: TakeSeat,
    ) -> Result<NoteList, NoMemory>
        requires offered { offered.feed ≡ self.id }
        requires taken { taken.feed ≡ self.id }
        requires keeps { (so_far : List Note) → TakeKeeps I.holds so_far }
        ensures { IfOk result (λ left. offered.offered ≡ taken.taken ++ left) }
    {
        match self.finish(rt, alloc, offered, taken) {
            Ok(left) => Ok(left),
            Err((_, _, _, refused)) => Err(refused),
        }
    }
}

// Takes the remaining notifications into the list, by a seat with both rights.
fn emptied<I: Invariant, R: Wait>(
    rt: &R,
    line: &Line<I>,
    mut pass: Pass<Note, Log>,
    mut room: Vec<Note>,
) -> Vec<Note>
    requires pass { IsPassOf line.now pass × (view pass ≡ log true true (view pass).offered (view pass).taken) }
    requires keeps { (so_far : List Note) → TakeKeeps I.holds so_far }
    requires room { (room.items ≡ []) × (ruled_capacity line.now ≤ vec_capacity room) }
    ensures { (view pass).offered ≡ (view pass).taken ++ result.items }
{
    // For the proof alone: it says that the list's capacity is enough.
    let _ = line.len_as::<Empties, R>(rt, &mut pass);
    for _ in rt.forever() {
        match line.pop_as::<Empties, R>(rt, &mut pass) {
            Some(note) => room.push(note).unwrap(),
            None => break,
        }
    }
    room
}
