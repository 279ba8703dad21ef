//! Two threads: one offers a thousand notifications, the other takes them.
ghost use Rattle.std.specs.Prelude.{◌≡◌};

use sal_feed::{Feed, NoInvariant, OfferSeat, TakeSeat};
use sal_note::Note;
use sal_rows::Rows;
use std::alloc::Global;
use std::sync::Wait;
use std::test::Fail;
use std::thread;
use std::thread::Threads;

type Line = Feed<NoInvariant>;

const NOTES: u32 = 1000;

// Far fewer than the notifications, so that both threads wait for each other again and again.
const CAPACITY: usize = 8;

// Offers a notification until there is room for it.
fn offer<R: Wait>(rt: &R, feed: &Line, seat: &mut OfferSeat, note: Note)
    requires { seat.old.feed ≡ feed.now.id }
    ensures { seat.new.feed ≡ seat.old.feed }
{
    let mut waiting = note;
    for _ in rt.forever() {
        match feed.offer(rt, seat, waiting) {
            Ok(()) => return,
            Err((back, _)) => waiting = back,
        }
        thread::yield_now();
    }
}

// Takes a notification once there is one.
fn take<R: Wait>(rt: &R, feed: &Line, seat: &mut TakeSeat) -> u32
    requires { seat.old.feed ≡ feed.now.id }
    ensures { seat.new.feed ≡ seat.old.feed }
{
    for _ in rt.forever() {
        match feed.take(rt, seat) {
            Some(note) => return note.note,
            None => thread::yield_now(),
        }
    }
    unreachable!()
}

fn offer_all<R: Wait>(rt: &R, alloc: Global, feed: &Line, mut seat: OfferSeat) -> OfferSeat
    requires { seat.feed ≡ feed.now.id }
    ensures { result.feed ≡ feed.now.id }
{
    for number in 0..NOTES {
        let rows = Rows::new(alloc);
        offer(rt, feed, &mut seat, Note { note: number, rows });
    }
    seat
}

// The seat, and how many notifications came in their order.
fn take_all<R: Wait>(rt: &R, feed: &Line, mut seat: TakeSeat) -> (TakeSeat, u32)
    requires { seat.feed ≡ feed.now.id }
    ensures { result.0.feed ≡ feed.now.id }
{
    let mut good = 0u32;
    for number in 0..NOTES {
        if take(rt, feed, &mut seat) == number {
            good = good.wrapping_add(1);
        }
    }
    (seat, good)
}

fn both<R: Threads + Wait + Sync>(
    rt: &R,
    alloc: Global,
    feed: &Line,
    offers: OfferSeat,
    takes: TakeSeat,
) -> (OfferSeat, TakeSeat, u32)
    requires offers { offers.feed ≡ feed.now.id }
    requires takes { takes.feed ≡ feed.now.id }
    ensures offers { result.0.feed ≡ feed.now.id }
    ensures takes { result.1.feed ≡ feed.now.id }
{
    let (offers, (takes, good)) = thread::join(
        rt,
        move || -> OfferSeat
            requires { offers.feed ≡ feed.now.id }
            ensures { result.feed ≡ feed.entry.now.id }
        { offer_all(rt, alloc, feed, offers) },
        move || -> (TakeSeat, u32)
            requires { takes.feed ≡ feed.now.id }
            ensures { result.0.feed ≡ feed.entry.now.id }
        { take_all(rt, feed, takes) },
    );
    (offers, takes, good)
}

#[test]
fn a_thousand_notes_from_thread_to_thread(rt: HostRuntime) -> Result<(), Fail> {
    let Ok((feed, offers, takes)) = Line::open(&rt, rt.alloc(), CAPACITY) else {
        return Err("no memory".into());
    };
    let (offers, takes, good) = both(&rt, rt.alloc(), &feed, offers, takes);
    if good != NOTES {
        return Err("a note came at another place".into());
    }
    let Ok(left) = feed.rest(&rt, rt.alloc(), offers, takes) else {
        return Err("no memory at the end".into());
    };
    if !left.items().is_empty() {
        return Err("something is left".into());
    }
    Ok(())
}
