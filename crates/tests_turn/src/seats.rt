//! Seats that are split and joined on one thread.
use crate::tape::{Tape, empty_tape, one_turn};
use sal_turn::Turn;
use sal_types::NoMemory;
use std::alloc::Global;
use std::sync::Wait;
use std::test::Fail;

// Four turns of three seats. The opening seat is joined last.
fn three_seats<R: Wait>(rt: &R, alloc: Global, limit: u64) -> Result<Tape, NoMemory> {
    let (turn, mut seat) = Turn::open(alloc, empty_tape(alloc, limit), 9)?;
    let first = turn.split(&mut seat, 1);
    let second = turn.split(&mut seat, 2);
    let second = one_turn(rt, &turn, second, 5);
    let first = one_turn(rt, &turn, first, 6);
    let seat = one_turn(rt, &turn, seat, 70);
    let second = one_turn(rt, &turn, second, 8);
    let both = turn.join(first, second);
    let all = turn.join(both, seat);
    Ok(turn.close(all))
}

#[test]
fn three_seats_leave_their_lines_in_order_of_their_turns(rt: HostRuntime) -> Result<(), Fail> {
    let tape = three_seats(&rt, rt.alloc(), 10)?;
    assert!(rt; tape.limit == 10);
    assert!(rt; tape.lines.as_slice() == [(2, 5), (1, 6), (9, 10), (2, 8)].as_slice());
    Ok(())
}
