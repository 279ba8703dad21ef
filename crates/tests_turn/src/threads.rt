//! Two threads at one lock.
ghost use Rattle.std.specs.Prelude.{◌≡◌};
ghost use Rattle.tests_turn.specs.Works.{Works};

use crate::tape::{Tape, empty_tape, is_counted, one_turn};
use sal_turn::{Seat, Turn};
use sal_types::NoMemory;
use std::alloc::Global;
use std::sync::Wait;
use std::test::Fail;
use std::thread::{Threads, join};

// How many turns each thread takes.
const TURNS: u64 = 1000;

// Adds 0, 1 and so on, a line a turn.
fn take_turns<R: Wait>(rt: &R, turn: &Turn<Tape>, mut seat: Seat<Tape>) -> Seat<Tape>
    requires { seat.lock ≡ turn.now }
    ensures { Works turn.now seat.view result }
{
    for n in 0..TURNS {
        seat = one_turn(rt, turn, seat, n);
    }
    seat
}

// The same for two seats, each on a separate thread.
fn both_take_turns<R: Threads + Wait + Sync>(
    rt: &R,
    turn: &Turn<Tape>,
    one: Seat<Tape>,
    two: Seat<Tape>,
) -> (Seat<Tape>, Seat<Tape>)
    requires locks { (one.lock ≡ turn.now) × (two.lock ≡ turn.now) }
    ensures first { Works turn.now one.view result.0 }
    ensures second { Works turn.now two.view result.1 }
{
    join(
        rt,
        move || -> Seat<Tape>
            requires { one.lock ≡ turn.now }
            ensures { Works turn.entry.now one.view result }
        { take_turns(rt, turn, one) },
        move || -> Seat<Tape>
            requires { two.lock ≡ turn.now }
            ensures { Works turn.entry.now two.view result }
        { take_turns(rt, turn, two) },
    )
}

fn two_clients<R: Threads + Wait + Sync>(rt: &R, alloc: Global) -> Result<Tape, NoMemory> {
    let (turn, mut seat) = Turn::open(alloc, empty_tape(alloc, u64::MAX), 1)?;
    let other = turn.split(&mut seat, 2);
    let (one, two) = both_take_turns(rt, &turn, seat, other);
    let all = turn.join(one, two);
    Ok(turn.close(all))
}

#[test]
fn two_threads_take_a_thousand_turns_each(rt: HostRuntime) -> Result<(), Fail> {
    let tape = two_clients(&rt, rt.alloc())?;
    assert!(rt; tape.lines.len() == 2000);
    assert!(rt; is_counted(&tape, 1, TURNS) && is_counted(&tape, 2, TURNS));
    Ok(())
}
