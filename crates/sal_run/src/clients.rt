//! Clients with their seats, each on a separate thread.
ghost use Rattle.std.specs.Prelude.{◌≡◌, ◌<◌, ℕ, IsSome, IsTrue, length, slice_index_or};
ghost use Rattle.sal_broker.specs.Seats.{inside};
ghost use Rattle.sal_script.specs.JsonMoves.{have_json_moves};
ghost use Rattle.sal_script.specs.Limits.{within_limits};
ghost use Rattle.sal_script.specs.Moves.{clients_of};
ghost use Rattle.sal_run.specs.Worked.{IsNew, Worked};

use crate::worker::Worker;
use sal_broker::{Sal, Seat};
use sal_client::{ClientRun, Readers, RunFault};
use sal_io::Gate;
use sal_script::Program;
use std::alloc::Global;
use std::sync::Wait;
use std::thread::{Threads, for_each_mut};

/// The environment of clients: their shared broker, the readers of their steps, and the gate that each passes before each of its steps.
#[derive(Drop)]
pub struct Hall<'a, G> {
    pub sal: &'a Sal,
    pub readers: &'a Readers,
    pub gate: &'a G,
}

/// A client with its seat at the broker: before its first step, and when it has ended or was stopped. It keeps its place in the program and its
/// replies so far.
#[derive(Drop)]
pub struct SeatedRun {
    pub run: ClientRun,
    /// Its seat: none only while it runs.
    pub seat: Option<Seat>,
    /// Whether it reached the end of its program; for a client before its first step it has no meaning.
    pub end: Result<(), RunFault>,
}

// The seat of a client that does not run.
pub(crate) fn seat_in(place: Option<Seat>) -> Seat
    requires { IsSome place }
    ensures { result ≡ inside place }
{
    let Some(seat) = place else { unreachable!() };
    seat
}

// Runs the client's program.
fn run_one<R: Wait, G: Gate>(
    rt: &R,
    alloc: Global,
    hall: &Hall<'_, G>,
    programs: &[Program],
    seated: &mut SeatedRun,
)
    requires limits { IsTrue (within_limits programs.now) }
    requires json { IsTrue (have_json_moves (clients_of programs.now)) }
    requires new { IsNew hall.now.readers.now hall.now.sal.now programs.now seated.old }
    ensures { Worked hall.now.readers.now hall.now.sal.now programs.now (inside seated.old.seat) seated.new }
{
    let seat = seat_in(seated.seat.take());
    let worker = Worker {
        sal: hall.sal,
        readers: hall.readers,
        steps: programs[seated.run.client.number as usize].items(),
        gate: hall.gate,
    };
    let (seat, end) = worker.work(rt, alloc, &mut seated.run, seat);
    seated.seat = Some(seat);
    seated.end = end;
}

/// Runs each client's program, on a separate thread. The clients are before their first steps, each in one of the programs,
/// and their seats have no entries. Each reaches its end or stops: if its seat has seen a full log, or if memory runs out. It then
/// keeps its place and its seat. The threads themselves take no memory of `alloc`.
pub fn run_clients<R: Threads + Wait + Sync, G: Gate>(
    rt: &R,
    alloc: Global,
    hall: &Hall<'_, G>,
    programs: &[Program],
    runs: &mut [SeatedRun],
)
    requires limits { IsTrue (within_limits programs.now) }
    requires json { IsTrue (have_json_moves (clients_of programs.now)) }
    requires new { (i : ℕ) (r : SeatedRun) → i < length runs.old → r ≡ slice_index_or runs.old i r → IsNew hall.now.readers.now hall.now.sal.now programs.now r }
    ensures long { length runs.new ≡ length runs.old }
    ensures each { (i : ℕ) (r : SeatedRun) → i < length runs.old → Worked hall.now.readers.now hall.now.sal.now programs.now (inside (slice_index_or runs.old i r).seat) (slice_index_or runs.new i r) }
{
    let threads = runs.len().max(1);
    for_each_mut(
        rt,
        runs,
        threads,
        &|_index: usize, mine: &mut SeatedRun|
            requires { IsTrue (within_limits programs.now) × IsTrue (have_json_moves (clients_of programs.now)) × IsNew hall.now.readers.now hall.now.sal.now programs.now mine.now }
            ensures { Worked hall.entry.now.readers.now hall.entry.now.sal.now programs.entry.now (inside mine.entry.now.seat) mine.exit.now }
        { run_one(rt, alloc, hall, programs, mine) },
    );
}
