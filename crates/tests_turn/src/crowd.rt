//! More threads than processors at one lock.
ghost use Rattle.std.specs.Prelude.{◌≡◌, ◌≤◌, ℕ, true};
ghost use Rattle.sal_turn.specs.Lists.{In};
ghost use Rattle.sal_turn.specs.Views.{SameRights};

use crate::tape::{Tape, empty_tape, one_turn};
use sal_turn::{Seat, Turn};
use sal_types::NoMemory;
use std::alloc::Global;
use std::sync::Wait;
use std::test::Fail;
use std::thread::{Threads, map_vec};

const THREADS: u32 = 8;

// Each round ends with the wake-up of the last sleepers, whom no other seat would wake.
const ROUNDS: u32 = 200;

const TURNS: u64 = 20;

// How many steps of a computation a turn takes, some microseconds in all: as long as a thread needs to start.
const STEPS: u64 = 2000;

// A seat with its lock.
#[derive(Drop)]
struct Seated<'a> {
    turn: &'a Turn<Tape>,
    seat: Seat<Tape>,
    ghost at_lock: { seat.lock ≡ turn.now },
}

// Some number, by many steps.
fn number_of(n: u64) -> u64 {
    let mut x = n;
    for _ in 0..STEPS {
        x = x.wrapping_mul(6364136223846793005).wrapping_add(n);
    }
    x
}

// Adds a line, by many steps.
fn long_turn<R: Wait>(rt: &R, turn: &Turn<Tape>, seat: Seat<Tape>, n: u64) -> Seat<Tape>
    requires { seat.lock ≡ turn.now }
    ensures { result.lock ≡ turn.now }
{
    let number = seat.number();
    let mut held = turn.enter(rt, seat);
    let tape = held.value();
    let _ = tape.lines.push((number, number_of(n)));
    turn.leave(held)
}

// Takes the turns of one thread.
fn take_part<R: Wait>(rt: &R, seated: Seated<'_>) {
    let Seated { turn, mut seat } = seated;
    for n in 0..TURNS {
        seat = long_turn(rt, turn, seat, n);
    }
    drop(seat);
}

// The number of lines of a round.
fn round<R: Threads + Wait + Sync>(rt: &R, alloc: Global) -> Result<usize, NoMemory> {
    let (turn, mut seat) = Turn::open(alloc, empty_tape(alloc, u64::MAX), THREADS)?;
    let mut crowd = Vec::new(alloc);
    for number in 0..THREADS {
        let other = turn.split(&mut seat, number);
        crowd.push(Seated {
            turn: &turn,
            seat: other,
        })?;
    }
    map_vec(rt, crowd, &|seated: Seated<'_>| { take_part(rt, seated) })?;
    let mut held = turn.enter(rt, seat);
    let count = held.value().lines.len();
    drop(turn.leave(held));
    Ok(count)
}

#[test]
fn a_crowd_comes_to_its_end(rt: HostRuntime) -> Result<(), Fail> {
    for _ in 0..ROUNDS {
        let lines = round(&rt, rt.alloc())?;
        assert!(rt; lines == 160);
    }
    Ok(())
}
