//! A whole script, its clients on separate threads.
ghost use Rattle.std.specs.Prelude.{◌≡◌, ◌<◌, ℕ, [], ◌∷◌, IfOk, IsTrue, length, slice_index_or, true};
ghost use Rattle.sal_broker.specs.Seats.{inside, known};
ghost use Rattle.sal_script.specs.Along.{AreLogOf};
ghost use Rattle.sal_script.specs.JsonMoves.{have_json_moves};
ghost use Rattle.sal_script.specs.Limits.{within_limits};
ghost use Rattle.sal_script.specs.Moves.{clients_of};
ghost use Rattle.sal_script.specs.Tables.{versions_of};
ghost use Rattle.sal_run.specs.Ran.{AreRan, IsOpening};
ghost use Rattle.sal_run.specs.Worked.{IsNew, Worked};

use crate::clients::{Hall, SeatedRun, run_clients};
use crate::joined::{Replies, join_all, seat_all};
use sal_broker::{Sal, Seat};
use sal_client::{Played, Readers, RunFault};
use sal_hub::Hub;
use sal_io::Gate;
use sal_script::{Program, Script};
use sal_types::NoMemory;
use std::alloc::Global;
use std::sync::Wait;
use std::thread::Threads;

// The clients after their runs, each on a thread.
fn all_run<R: Threads + Wait + Sync, G: Gate>(
    rt: &R,
    alloc: Global,
    hall: &Hall<'_, G>,
    programs: &[Program],
    mut runs: Vec<SeatedRun>,
) -> Vec<SeatedRun>
    requires limits { IsTrue (within_limits programs.now) }
    requires json { IsTrue (have_json_moves (clients_of programs.now)) }
    requires new { (i : ℕ) (r : SeatedRun) → i < length runs.items → r ≡ slice_index_or runs.items i r → IsNew hall.now.readers.now hall.now.sal.now programs.now r }
    ensures long { length result.items ≡ length runs.items }
    ensures each { (i : ℕ) (r : SeatedRun) → i < length runs.items → Worked hall.now.readers.now hall.now.sal.now programs.now (inside (slice_index_or runs.items i r).seat) (slice_index_or result.items i r) }
{
    run_clients(rt, alloc, hall, programs, runs.as_mut_slice());
    runs
}

// The clients of the programs at seats split from the opening one, each on a thread; then all seats joined again.
fn run_all<R: Threads + Wait + Sync, G: Gate>(
    rt: &R,
    alloc: Global,
    hall: &Hall<'_, G>,
    programs: &[Program],
    mut opening: Seat,
) -> Result<(Seat, Replies), NoMemory>
    requires limits { IsTrue (within_limits programs.now) }
    requires json { IsTrue (have_json_moves (clients_of programs.now)) }
    requires opening { IsOpening hall.now.sal.now opening }
    requires reads { hall.now.readers.now ≡ versions_of (known opening.view).world }
    ensures { IfOk result (λ r. AreRan hall.now.readers.now hall.now.sal.now programs.now opening.view r.0 r.1) }
{
    let runs = seat_all(alloc, hall.sal, &mut opening, programs.len() as u32)?;
    let finished = all_run(rt, alloc, hall, programs, runs);
    Ok(join_all(alloc, hall.sal, opening, finished))
}

/// Runs the clients of the script over a hub without calls, whose domains have the readers' schemas: each on a separate thread, with its
/// own seat. The gate is passed before each step; the script's order is not used.
pub fn run<R: Threads + Wait + Sync, G: Gate>(
    rt: &R,
    alloc: Global,
    readers: &Readers,
    script: &Script,
    hub: Hub,
    gate: &G,
) -> Result<Played, NoMemory>
    requires tables { readers.now ≡ versions_of hub.world }
    requires fresh { hub.log ≡ [] }
    ensures left { IfOk result (λ p. AreLogOf hub.world (clients_of script.now.clients) p.hub.log p.replies) }
    ensures world { IfOk result (λ p. p.hub.world ≡ hub.world) }
{
    let programs = script.clients.items();
    let (sal, opening) = Sal::over(alloc, hub)?;
    let hall = Hall {
        sal: &sal,
        readers,
        gate,
    };
    let (joined, replies) = run_all(rt, alloc, &hall, programs, opening)?;
    let hub = sal.close(joined);
    match replies {
        Ok(replies) => Ok(Played { hub, replies }),
        Err(RunFault::NoMemory) => Err(NoMemory),
        Err(RunFault::HistoryFull) => unreachable!(),
    }
}
