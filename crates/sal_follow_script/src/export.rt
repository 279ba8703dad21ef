//! From the bytes of a script to the frames of its own domain.
ghost use Rattle.std.specs.Prelude.{◌≡◌, ◌<◌, ◌≤◌, [], length, map};
ghost use Rattle.sal_graft.specs.Kept.{AreKept};
ghost use Rattle.sal_follow.specs.Framed.{trees_of};
ghost use Rattle.sal_script.specs.Moves.{clients_of};
ghost use Rattle.sal_script.specs.Play.{play as play_spec};
ghost use Rattle.sal_script.specs.Tables.{tables_of, versions_of};
ghost use Rattle.sal_prepare.specs.Scripted.{tables_in};
ghost use Rattle.sal_prepare.specs.Texts.{IsTextOr};
ghost use Rattle.sal_history.specs.World.{last_of};
ghost use Rattle.sal_follow_script.specs.Exports as spec;

use sal_client::{Played, play};
use sal_commit::Domain;
use sal_follow::{ExportFault, export_kept};
use sal_hub::Hub;
use sal_io::OpenGate;
use sal_prepare::plays::play_status;
use sal_prepare::scripted::{Prepared, ReadScript, prepare};
use sal_prepare::status::Status;
use sal_schema::Schema;
use sal_types::Bytes;
use std::alloc::Global;
use std::mem;
use std::sync::Arc;

/// The frames of domain 0 of the script that the bytes denote, played in its order; or the status of the first fault.
pub fn export_text(alloc: Global, bytes: &[u8]) -> Result<Bytes, Status>
    ensures { IsTextOr (spec.export_text bytes.now) result }
{
    let prepared = prepare(alloc, bytes)?;
    let Prepared { read, hub } = prepared;
    export_over(alloc, read, hub)
}

// The same over a hub without calls.
fn export_over(alloc: Global, read: ReadScript, hub: Hub) -> Result<Bytes, Status>
    requires schemas { tables_in read.schemas.items ≡ tables_of hub.world }
    requires some { 1 ≤ length read.schemas.items }
    requires readers { read.readers ≡ versions_of hub.world }
    requires fresh { hub.log ≡ [] }
    ensures { IsTextOr (spec.export_play hub.world (play_spec hub.world (clients_of read.script.clients) read.script.order)) result }
{
    match play(alloc, &read.readers, &read.script, hub, &OpenGate) {
        Ok(played) => export_played(alloc, &read.schemas, played),
        Err(fault) => Err(play_status(fault)),
    }
}

// The frames of a play. The play is not dropped: the process ends next, and frees all at once.
fn export_played(alloc: Global, schemas: &[Arc<Schema>], played: Played) -> Result<Bytes, Status>
    requires schemas { tables_in schemas.now ≡ tables_of played.hub.world }
    requires some { 1 ≤ length schemas.now }
    ensures { IsTextOr (spec.export_log played.hub.world played.hub.log) result }
{
    let bytes = hub_frames(alloc, &schemas[0], &played.hub);
    mem::forget(played);
    bytes
}

// The frames of domain 0 of a hub.
fn hub_frames(alloc: Global, schema: &Schema, hub: &Hub) -> Result<Bytes, Status>
    requires some { 1 ≤ length hub.now.world }
    requires schema { schema.now ≡ last_of hub.now.world 0 }
    ensures { IsTextOr (spec.export_log hub.now.world hub.now.log) result }
{
    domain_frames(alloc, schema, &hub.domains()[0])
}

// The frames of a domain.
fn domain_frames(alloc: Global, schema: &Schema, domain: &Domain) -> Result<Bytes, Status>
    requires { AreKept domain.now.commits.items }
    ensures { IsTextOr (spec.frames_by schema.now (map trees_of domain.now.commits.items)) result }
{
    match export_kept(alloc, schema, &domain.commits) {
        Ok(bytes) => Ok(bytes),
        Err(ExportFault::TooLong { commit }) => Err(Status::BadExport { commit }),
        Err(ExportFault::NoMemory) => Err(Status::NoMemory),
    }
}
