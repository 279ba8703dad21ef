//! A full feed returns a notification, and `finish` returns the remaining ones.
ghost use Rattle.std.specs.Prelude.{◌≡◌};

use sal_feed::{Feed, NoInvariant, OfferSeat, TakeSeat};
use sal_note::{Note, NoteList};
use sal_rows::Rows;
use std::alloc::Global;
use std::sync::Wait;
use std::test::Fail;

type Line = Feed<NoInvariant>;

fn note_of(alloc: Global, number: u32) -> Note {
    Note {
        note: number,
        rows: Rows::new(alloc),
    }
}

// The notification that was returned, if any.
fn offered<R: Wait>(rt: &R, feed: &Line, seat: &mut OfferSeat, note: Note) -> Option<u32>
    requires { seat.old.feed ≡ feed.now.id }
    ensures { seat.new.feed ≡ seat.old.feed }
{
    match feed.offer(rt, seat, note) {
        Ok(()) => None,
        Err((back, _)) => Some(back.note),
    }
}

// The notification that was taken, if any.
fn taken<R: Wait>(rt: &R, feed: &Line, seat: &mut TakeSeat) -> Option<u32>
    requires { seat.old.feed ≡ feed.now.id }
    ensures { seat.new.feed ≡ seat.old.feed }
{
    match feed.take(rt, seat) {
        Some(note) => Some(note.note),
        None => None,
    }
}

// Whether the notifications are these two.
fn are_just(list: &NoteList, first: u32, second: u32) -> bool {
    let notes = list.items();
    notes.len() == 2 && notes[0].note == first && notes[1].note == second
}

// Whether three notifications at capacity 2 pass as they should, up to the two that remain.
fn is_filled<R: Wait>(
    rt: &R,
    alloc: Global,
    feed: &Line,
    offers: &mut OfferSeat,
    takes: &mut TakeSeat,
) -> bool
    requires offers { offers.old.feed ≡ feed.now.id }
    requires takes { takes.old.feed ≡ feed.now.id }
    ensures offers { offers.new.feed ≡ offers.old.feed }
    ensures takes { takes.new.feed ≡ takes.old.feed }
{
    let none = taken(rt, feed, takes);
    let one = offered(rt, feed, offers, note_of(alloc, 1));
    let two = offered(rt, feed, offers, note_of(alloc, 2));
    let back = offered(rt, feed, offers, note_of(alloc, 3));
    let first = taken(rt, feed, takes);
    let three = offered(rt, feed, offers, note_of(alloc, 3));
    [none, one, two, back, first, three] == [None, None, None, Some(3), Some(1), None]
}

#[test]
fn three_notes_at_capacity_two(rt: HostRuntime) -> Result<(), Fail> {
    let Ok((feed, mut offers, mut takes)) = Line::open(&rt, rt.alloc(), 2) else {
        return Err("no memory".into());
    };
    if !is_filled(&rt, rt.alloc(), &feed, &mut offers, &mut takes) {
        return Err("a note went another way".into());
    }
    let Ok(left) = feed.rest(&rt, rt.alloc(), offers, takes) else {
        return Err("no memory at the end".into());
    };
    if !are_just(&left, 2, 3) {
        return Err("what is left".into());
    }
    Ok(())
}
