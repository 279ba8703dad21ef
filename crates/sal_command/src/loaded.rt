//! A load: from its two numbers to its summary.
ghost use Rattle.std.specs.Prelude.{◌≡◌, ◌≤◌, [], IfErr, IfOk};
ghost use Rattle.sal_script.specs.Load as load;
ghost use Rattle.sal_script.specs.LoadOrder.{IsSummaryInSomeOrder};
ghost use Rattle.sal_script.specs.Moves.{clients_of};
ghost use Rattle.sal_script.specs.Tables.{versions_of};
ghost use Rattle.sal_prepare.specs.Loads.{load_world};
ghost use Rattle.sal_command.specs.Top as spec;

use crate::summed::summary_of;
use sal_io::Gate;
use sal_prepare::laws as own_laws;
use sal_prepare::scripted::{Prepared, prepare_script};
use sal_prepare::status::Status;
use sal_run::run;
use sal_script::{laws, load_script};
use sal_script_laws::laws::loads_come_to_one;
use sal_types::{NoMemory, Str};
use std::alloc::Global;
use std::mem;
use std::sync::Wait;
use std::thread::Threads;

/// The summary of a load of this many rounds, whose values begin after this number; its clients run at the same time.
pub(crate) fn load_text<R: Threads + Wait + Sync, G: Gate>(
    rt: &R,
    alloc: Global,
    rounds: u32,
    start: u32,
    gate: &G,
) -> Result<Str, Status>
    requires rounds { rounds ≤ 10000 }
    requires start { start ≤ 65536 }
    ensures { spec.IsLoadOr rounds start result }
{
    loads_come_to_one();
    let prepared = prepare_load(alloc, rounds, start)?;
    match run_load(rt, alloc, rounds, start, prepared, gate) {
        Ok(text) => Ok(text),
        Err(NoMemory) => Err(Status::NoMemory),
    }
}

// The script of a load, with the hub over its domain. It is always a script, so it fails only if memory runs out.
fn prepare_load(alloc: Global, rounds: u32, start: u32) -> Result<Prepared, Status>
    requires rounds { rounds ≤ 10000 }
    requires start { start ≤ 65536 }
    ensures world { IfOk result (λ it. it.hub.world ≡ load_world) }
    ensures memory { IfErr result (λ status. status ≡ Status.NoMemory) }
    ensures readers { IfOk result (λ it. it.read.readers ≡ versions_of it.hub.world) }
    ensures fresh { IfOk result (λ it. it.hub.log ≡ []) }
    ensures clients { IfOk result (λ it. clients_of it.read.script.clients ≡ load.clients_of rounds start) }
{
    own_laws::loads_are_prepared();
    let script = load_script(alloc, rounds, start)?;
    let prepared = prepare_script(alloc, script)?;
    Ok(prepared)
}

// Runs the clients of a load over a hub without calls. The result is not dropped: the process ends next, and frees all at once.
fn run_load<R: Threads + Wait + Sync, G: Gate>(
    rt: &R,
    alloc: Global,
    rounds: u32,
    start: u32,
    prepared: Prepared,
    gate: &G,
) -> Result<Str, NoMemory>
    requires readers { prepared.read.readers ≡ versions_of prepared.hub.world }
    requires fresh { prepared.hub.log ≡ [] }
    requires clients { clients_of prepared.read.script.clients ≡ load.clients_of rounds start }
    ensures { IfOk result (IsSummaryInSomeOrder prepared.hub.world rounds start) }
{
    laws::what_a_load_left_is_summed();
    let Prepared { read, hub } = prepared;
    let left = run(rt, alloc, &read.readers, &read.script, hub, gate)?;
    let text = summary_of(alloc, rounds, start, &left)?;
    mem::forget(left);
    mem::forget(read);
    Ok(text)
}
