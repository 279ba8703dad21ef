//! The picture of a script: played in its own order, or in that of a report.
ghost use Rattle.std.specs.Prelude.{◌≡◌, ◌≤◌, [], Ok, IfOk, OnOk, length, option_map};
ghost use Rattle.sal_script.specs.Moves.{clients_of};
ghost use Rattle.sal_script.specs.Play.{play as play_spec};
ghost use Rattle.sal_script.specs.Reading.{parts};
ghost use Rattle.sal_script.specs.Tables.{tables_of, versions_of};
ghost use Rattle.sal_prepare.specs.Scripted.{tables_in};
ghost use Rattle.sal_prepare.specs.Texts.{IsTextOr};
ghost use Rattle.sal_picture.specs.Pictured as spec;

use crate::made::made_of;
use crate::order::order_in;
use sal_client::{Played, play};
use sal_draw_script::{Ground, Play, Range, scene_of};
use sal_hub::Hub;
use sal_io::OpenGate;
use sal_prepare::parted::two_parts;
use sal_prepare::plays::play_status;
use sal_prepare::scripted::{Prepared, ReadScript, prepare};
use sal_prepare::status::Status;
use sal_report::told_domains;
use sal_schema::Schema;
use sal_script::{Program, Script};
use sal_shapes::{Scene, scene_text};
use sal_types::{Bytes, NoMemory, Seq};
use std::alloc::Global;
use std::mem;
use std::sync::Arc;

/// The picture of the script in these bytes, for the entries in this range. It is played in its own order, or, if a zero byte and a report
/// follow, in the order on the report's first line.
pub fn draw_text(alloc: Global, bytes: &[u8], range: Range) -> Result<Bytes, Status>
    ensures { IsTextOr (spec.draw_text range bytes.now) result }
{
    match two_parts(bytes) {
        None => draw_script(alloc, bytes, None, range),
        Some(both) => draw_script(alloc, both.first, Some(both.second), range),
    }
}

// The same from its parts.
fn draw_script(
    alloc: Global,
    bytes: &[u8],
    report: Option<&[u8]>,
    range: Range,
) -> Result<Bytes, Status>
    ensures { IsTextOr (spec.drawn range bytes.now (option_map (λ r. r.now) report.entry)) result }
{
    let prepared = prepare(alloc, bytes)?;
    let Prepared { read, hub } = prepared;
    draw_over(alloc, read, hub, report, range)
}

// The same over a hub without calls.
fn draw_over(
    alloc: Global,
    mut read: ReadScript,
    hub: Hub,
    report: Option<&[u8]>,
    range: Range,
) -> Result<Bytes, Status>
    requires schemas { tables_in read.schemas.items ≡ tables_of hub.world }
    requires few { length read.schemas.items ≤ 64 }
    requires readers { read.readers ≡ versions_of hub.world }
    requires fresh { hub.log ≡ [] }
    ensures { IsTextOr (spec.drawn_over range (clients_of read.script.clients) hub.world (spec.order_for read.script.order (option_map (λ r. r.now) report.entry))) result }
{
    reorder(alloc, &mut read.script, report)?;
    match play(alloc, &read.readers, &read.script, hub, &OpenGate) {
        Ok(played) => draw_played(alloc, &read, played, range),
        Err(fault) => Err(play_status(fault)),
    }
}

// Replaces the script's order by that of the report, if there is one.
fn reorder(alloc: Global, script: &mut Script, report: Option<&[u8]>) -> Result<(), NoMemory>
    ensures { OnOk result (script.new ≡ record script.old { order = spec.order_for script.old.order (option_map (λ r. r.now) report.entry) }) }
{
    if let Some(text) = report {
        let order = order_in(alloc, text)?;
        script.order = Seq::from_items(order);
    }
    Ok(())
}

// The picture of a play. The play is not dropped: the process ends next, and frees all at once.
fn draw_played(
    alloc: Global,
    read: &ReadScript,
    played: Played,
    range: Range,
) -> Result<Bytes, Status>
    requires schemas { tables_in read.now.schemas.items ≡ tables_of played.hub.world }
    requires few { length read.now.schemas.items ≤ 64 }
    ensures { IsTextOr (Ok (spec.played_text range (clients_of read.now.script.clients) played.hub.world (record { log = played.hub.log; replies = played.replies }))) result }
{
    let text = played_text(
        alloc,
        &read.schemas,
        read.script.clients.items(),
        &played,
        range,
    )?;
    mem::forget(played);
    Ok(text)
}

fn played_text(
    alloc: Global,
    schemas: &[Arc<Schema>],
    clients: &[Program],
    played: &Played,
    range: Range,
) -> Result<Bytes, NoMemory>
    requires schemas { tables_in schemas.now ≡ tables_of played.now.hub.world }
    requires few { length schemas.now ≤ 64 }
    ensures { IfOk result (λ text. text ≡ spec.played_text range (clients_of clients.now) played.now.hub.world (record { log = played.now.hub.log; replies = played.now.replies })) }
{
    let scene = scene_in(alloc, schemas, clients, played, range)?;
    scene_text(alloc, scene)
}

// The scene of a play.
fn scene_in(
    alloc: Global,
    schemas: &[Arc<Schema>],
    clients: &[Program],
    played: &Played,
    range: Range,
) -> Result<Scene, NoMemory>
    requires schemas { tables_in schemas.now ≡ tables_of played.now.hub.world }
    requires few { length schemas.now ≤ 64 }
    ensures { IfOk result (λ scene. scene ≡ spec.scene_in range (clients_of clients.now) played.now.hub.world (record { log = played.now.hub.log; replies = played.now.replies })) }
{
    let made = made_of(alloc, &played.hub)?;
    let domains = told_domains(alloc, schemas.len() as u32, played.hub.log())?;
    let ground = Ground {
        schemas,
        made: &made,
    };
    let play = Play {
        clients,
        replies: played.replies.items(),
        log: played.hub.log(),
    };
    scene_of(alloc, ground, Seq::from_items(domains), range, play)
}
