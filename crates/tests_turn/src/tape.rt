//! A value for the lock, and one turn at it.
ghost use Rattle.std.specs.Prelude.{◌≡◌, []};
ghost use Rattle.sal_turn.specs.Views.{SameRights};

use sal_turn::{Chronicle, Seat, Turn};
use std::alloc::Global;
use std::sync::Wait;

// Lines of numbers, each of a client, none above a limit that no turn changes.
#[derive(Drop)]
pub(crate) struct Tape {
    pub(crate) limit: u64,
    pub(crate) lines: Vec<(u32, u64)>,
}

impl Chronicle for Tape {
    type Entry = (u32, u64);

    type Ground = u64;

    ghost entries = { λ t. t.lines.items };

    ghost client = { λ e. e.0 };

    ghost ground = { λ t. t.limit };
}

pub(crate) fn empty_tape(alloc: Global, limit: u64) -> Tape
    ensures { result.lines.items ≡ [] }
{
    Tape {
        limit,
        lines: Vec::new(alloc),
    }
}

// Adds a line of the seat's number, or none if memory runs out.
pub(crate) fn one_turn<R: Wait>(rt: &R, turn: &Turn<Tape>, seat: Seat<Tape>, n: u64) -> Seat<Tape>
    requires { seat.lock ≡ turn.now }
    ensures { (result.lock ≡ turn.now) × SameRights seat.view result.view }
{
    let number = seat.number();
    let mut held = turn.enter(rt, seat);
    let tape = held.value();
    let _ = tape.lines.push((number, n.min(tape.limit)));
    turn.leave(held)
}

// The numbers of one client's lines, in their order.
pub(crate) fn is_counted(tape: &Tape, client: u32, count: u64) -> bool {
    let mut next = 0u64;
    for line in tape.lines.as_slice() {
        if line.0 == client {
            if line.1 != next {
                return false;
            }
            next = next.wrapping_add(1);
        }
    }
    next == count
}
