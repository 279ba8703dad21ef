//! The report of a script: its clients run at the same time, or played in its order.
ghost use Rattle.std.specs.Prelude.{◌≡◌, ◌≤◌, [], Ok, Err, IfOk, MatchResult, length};
ghost use Rattle.sal_script.specs.Moves.{clients_of};
ghost use Rattle.sal_client.specs.Runs.{PlaysAs};
ghost use Rattle.sal_script.specs.Along.{AreLogOf};
ghost use Rattle.sal_script.specs.Play.{play as play_spec};
ghost use Rattle.sal_script.specs.Reading.{parts};
ghost use Rattle.sal_script.specs.Report.{report};
ghost use Rattle.sal_script.specs.SomeOrder.{IsReportInSomeOrder};
ghost use Rattle.sal_script.specs.Tables.{tables_of, versions_of};
ghost use Rattle.sal_prepare.specs.Scripted.{tables_in};
ghost use Rattle.sal_prepare.specs.Texts.{IsTextOr};
ghost use Rattle.sal_command.specs.Top as spec;

use sal_client::{PlayFault, Played, play};
use sal_hub::Hub;
use sal_io::Gate;
use sal_prepare::plays::report_of;
use sal_prepare::scripted::{self, Prepared, ReadScript};
use sal_prepare::status::Status;
use sal_run::run;
use sal_schema::Schema;
use sal_script::laws;
use sal_types::{NoMemory, Str};
use std::alloc::Global;
use std::mem;
use std::sync::{Arc, Wait};
use std::thread::Threads;

/// The report of the script that the bytes denote, its clients run at the same time.
pub(crate) fn run_text<R: Threads + Wait + Sync, G: Gate>(
    rt: &R,
    alloc: Global,
    bytes: &[u8],
    gate: &G,
) -> Result<Str, Status>
    ensures { spec.IsRunOr bytes.now result }
{
    let prepared = scripted::prepare(alloc, bytes)?;
    let Prepared { read, hub } = prepared;
    match run_over(rt, alloc, read, hub, gate) {
        Ok(text) => Ok(text),
        Err(NoMemory) => Err(Status::NoMemory),
    }
}

// The same over a hub without calls. The script is dropped before its report is made.
fn run_over<R: Threads + Wait + Sync, G: Gate>(
    rt: &R,
    alloc: Global,
    read: ReadScript,
    hub: Hub,
    gate: &G,
) -> Result<Str, NoMemory>
    requires schemas { tables_in read.schemas.items ≡ tables_of hub.world }
    requires few { length read.schemas.items ≤ 64 }
    requires readers { read.readers ≡ versions_of hub.world }
    requires fresh { hub.log ≡ [] }
    ensures { IfOk result (IsReportInSomeOrder hub.world (clients_of read.script.clients)) }
{
    laws::what_is_left_is_reported();
    let (left, schemas) = left_over(rt, alloc, read, hub, gate)?;
    let text = last_report(alloc, &schemas, left)?;
    Ok(text)
}

// The result of the clients, with the last versions of the schemas of its domains.
fn left_over<R: Threads + Wait + Sync, G: Gate>(
    rt: &R,
    alloc: Global,
    read: ReadScript,
    hub: Hub,
    gate: &G,
) -> Result<(Played, Vec<Arc<Schema>>), NoMemory>
    requires readers { read.readers ≡ versions_of hub.world }
    requires fresh { hub.log ≡ [] }
    ensures left { IfOk result (λ it. AreLogOf hub.world (clients_of read.script.clients) it.0.hub.log it.0.replies) }
    ensures world { IfOk result (λ it. it.0.hub.world ≡ hub.world) }
    ensures schemas { IfOk result (λ it. it.1 ≡ read.schemas) }
{
    let ReadScript {
        script,
        schemas,
        readers,
    } = read;
    let left = run(rt, alloc, &readers, &script, hub, gate)?;
    Ok((left, schemas))
}

/// The report of the script that the bytes denote, played in its order.
pub(crate) fn sim_text<G: Gate>(alloc: Global, bytes: &[u8], gate: &G) -> Result<Str, Status>
    ensures { IsTextOr (spec.sim_text bytes.now) result }
{
    let prepared = scripted::prepare(alloc, bytes)?;
    let Prepared { read, hub } = prepared;
    play_over(alloc, read, hub, gate)
}

// The same over a hub without calls. The script is dropped before its report is made.
fn play_over<G: Gate>(alloc: Global, read: ReadScript, hub: Hub, gate: &G) -> Result<Str, Status>
    requires schemas { tables_in read.schemas.items ≡ tables_of hub.world }
    requires few { length read.schemas.items ≤ 64 }
    requires readers { read.readers ≡ versions_of hub.world }
    requires fresh { hub.log ≡ [] }
    ensures { IsTextOr (spec.play_over (parts read.script) hub.world) result }
{
    match played_over(alloc, read, hub, gate) {
        Ok((played, schemas)) => match last_report(alloc, &schemas, played) {
            Ok(text) => Ok(text),
            Err(NoMemory) => Err(Status::NoMemory),
        },
        Err(PlayFault::BadOrder { index }) => Err(Status::BadOrder { index }),
        Err(PlayFault::NoMemory) => Err(Status::NoMemory),
    }
}

// The play, with the last versions of the schemas of its domains.
fn played_over<G: Gate>(
    alloc: Global,
    read: ReadScript,
    hub: Hub,
    gate: &G,
) -> Result<(Played, Vec<Arc<Schema>>), PlayFault>
    requires readers { read.readers ≡ versions_of hub.world }
    requires fresh { hub.log ≡ [] }
    ensures played { MatchResult result (λ it. PlaysAs hub.world (Ok it.0) (play_spec hub.world (clients_of read.script.clients) read.script.order)) (λ fault. PlaysAs hub.world (Err fault) (play_spec hub.world (clients_of read.script.clients) read.script.order)) }
    ensures schemas { IfOk result (λ it. it.1 ≡ read.schemas) }
{
    let ReadScript {
        script,
        schemas,
        readers,
    } = read;
    match play(alloc, &readers, &script, hub, gate) {
        Ok(played) => Ok((played, schemas)),
        Err(fault) => Err(fault),
    }
}

// The report of a play. The play is not dropped: the process ends next, and frees all at once.
fn last_report(alloc: Global, schemas: &[Arc<Schema>], played: Played) -> Result<Str, NoMemory>
    requires schemas { tables_in schemas.now ≡ tables_of played.hub.world }
    requires few { length schemas.now ≤ 64 }
    ensures { IfOk result (λ text. text ≡ report played.hub.world (record { log = played.hub.log; replies = played.replies })) }
{
    let text = report_of(alloc, schemas, &played)?;
    mem::forget(played);
    Ok(text)
}
