//! Rounds in which one half offers notifications, and the other takes them.
ghost use Rattle.std.specs.Prelude.{◌≡◌, ◌≤◌, IfOk};
ghost use Rattle.sal_feed_script.specs.Feeding.{sum_below};
ghost use Rattle.sal_feed_script.specs.Halves.{AreHalves, IsOffered, IsTaken};

use sal_feed::{Feed, NoInvariant, OfferSeat, TakeSeat};
use sal_note::Note;
use sal_rows::Rows;
use sal_types::NoMemory;
use std::alloc::Global;
use std::sync::Wait;
use std::thread;
use std::thread::Threads;

type Line = Feed<NoInvariant>;

/// The half that offers: its seat, and the number of the next notification.
#[derive(Drop)]
pub(crate) struct Offered {
    pub(crate) seat: OfferSeat,
    pub(crate) next: u32,
}

/// The half that takes: its seat, how many notifications it took, and the sum of their numbers.
#[derive(Drop)]
pub(crate) struct Taken {
    pub(crate) seat: TakeSeat,
    pub(crate) count: u32,
    pub(crate) sum: u64,
}

/// The sum of the numbers of `notes` notifications, each of which was offered and taken.
pub(crate) fn sum_taken<R: Threads + Wait + Sync>(
    rt: &R,
    alloc: Global,
    notes: u32,
    capacity: u32,
) -> Result<u64, NoMemory>
    requires notes { notes ≤ 100000 }
    requires some { 1 ≤ capacity }
    requires few { capacity ≤ 4096 }
    ensures { IfOk result (λ sum. sum ≡ sum_below notes) }
{
    let (feed, offers, takes) = Line::open(rt, alloc, capacity as usize)?;
    let offered = Offered {
        seat: offers,
        next: 0,
    };
    let taken = Taken {
        seat: takes,
        count: 0,
        sum: 0,
    };
    let (offered, taken) = all_rounds(rt, alloc, &feed, notes, (offered, taken));
    let sum = taken.sum;
    let _ = feed.rest(rt, alloc, offered.seat, taken.seat)?;
    Ok(sum)
}

// Rounds until all notifications were taken.
fn all_rounds<R: Threads + Wait + Sync>(
    rt: &R,
    alloc: Global,
    feed: &Line,
    notes: u32,
    halves: (Offered, Taken),
) -> (Offered, Taken)
    requires notes { notes ≤ 100000 }
    requires halves { AreHalves feed.now notes halves }
    ensures halves { AreHalves feed.now notes result }
    ensures all { result.1.count ≡ notes }
{
    let (mut offered, mut taken) = halves;
    for _ in rt.forever() {
        if taken.count == notes {
            return (offered, taken);
        }
        (offered, taken) = one_round(rt, alloc, feed, notes, (offered, taken));
    }
    unreachable!()
}

// One round: both halves at the same time.
fn one_round<R: Threads + Wait + Sync>(
    rt: &R,
    alloc: Global,
    feed: &Line,
    notes: u32,
    halves: (Offered, Taken),
) -> (Offered, Taken)
    requires notes { notes ≤ 100000 }
    requires halves { AreHalves feed.now notes halves }
    ensures { AreHalves feed.now notes result }
{
    let (offered, taken) = halves;
    thread::join(
        rt,
        move || -> Offered
            requires { IsOffered feed.now notes offered }
            ensures { IsOffered feed.entry.now notes result }
        { offer_some(rt, alloc, feed, notes, offered) },
        move || -> Taken
            requires notes { notes ≤ 100000 }
            requires taken { IsTaken feed.now notes taken }
            ensures { IsTaken feed.entry.now notes result }
        { take_some(rt, feed, notes, taken) },
    )
}

// Offers notifications until the feed is full, or all are offered.
fn offer_some<R: Wait>(rt: &R, alloc: Global, feed: &Line, notes: u32, half: Offered) -> Offered
    requires { IsOffered feed.now notes half }
    ensures { IsOffered feed.now notes result }
{
    let Offered { mut seat, next } = half;
    for number in next..notes {
        let rows = Rows::new(alloc);
        if let Err(_) = feed.offer(rt, &mut seat, Note { note: number, rows }) {
            return Offered { seat, next: number };
        }
    }
    Offered { seat, next: notes }
}

// Takes notifications until there is none, or all are taken.
fn take_some<R: Wait>(rt: &R, feed: &Line, notes: u32, half: Taken) -> Taken
    requires notes { notes ≤ 100000 }
    requires taken { IsTaken feed.now notes half }
    ensures { IsTaken feed.now notes result }
{
    let mut half = half;
    for number in half.count..notes {
        match feed.take(rt, &mut half.seat) {
            Some(note) => {
                half.count = number + 1;
                half.sum += u64::from(note.note);
            }
            None => return half,
        }
    }
    half
}
