//! From the bytes of a script to the script, the readers of its domains, and the hub with the opening trees.
ghost use Rattle.std.specs.Prelude.{◌≡◌, ◌≤◌, [], IfOk, length};
ghost use Rattle.sal_script.specs.Tables.{tables_of, versions_of};
ghost use Rattle.sal_script.specs.Script.{script_of};
ghost use Rattle.sal_script.specs.Reading.{parts};
ghost use Rattle.sal_versions.specs.Schemas as schemas;
ghost use Rattle.sal_prepare.specs.Scripted as spec;

use crate::domains::{domain_schema, last_schemas, readers_of, schemas_of};
use crate::openings::hub_over;
use crate::status::Status;
use sal_client::Readers;
use sal_hub::Hub;
use sal_schema::Schema;
use sal_script::{Script, ScriptFault, read_script};
use std::alloc::Global;
use std::sync::Arc;

/// A script that was read, with the schemas of its domains, each of its last version, and the readers of all versions.
#[derive(Drop)]
pub struct ReadScript {
    pub script: Script,
    pub schemas: Vec<Arc<Schema>>,
    pub readers: Readers,
}

/// The same with the hub over its opening trees.
#[derive(Drop)]
pub struct Prepared {
    pub read: ReadScript,
    pub hub: Hub,
}

/// Reads the script that the bytes denote and opens its hub. The first fault is returned:
/// of the script, the modules of its domains, their patterns, the data of the opening trees, or their rules.
pub fn prepare(alloc: Global, bytes: &[u8]) -> Result<Prepared, Status>
    ensures prepared { spec.Comes spec.seen (spec.prepared bytes.now) result }
    ensures schemas { IfOk result (λ it. spec.tables_in it.read.schemas.items ≡ tables_of it.hub.world) }
    ensures some { IfOk result (λ it. 1 ≤ length it.read.schemas.items) }
    ensures few { IfOk result (λ it. length it.read.schemas.items ≤ 64) }
    ensures readers { IfOk result (λ it. it.read.readers ≡ versions_of it.hub.world) }
    ensures fresh { IfOk result (λ it. it.hub.log ≡ []) }
{
    let script = script_of(alloc, bytes)?;
    let prepared = prepare_script(alloc, script)?;
    Ok(prepared)
}

/// The same for a script that was made.
pub fn prepare_script(alloc: Global, script: Script) -> Result<Prepared, Status>
    ensures prepared { spec.Comes spec.seen (spec.prepared_of (parts script)) result }
    ensures schemas { IfOk result (λ it. spec.tables_in it.read.schemas.items ≡ tables_of it.hub.world) }
    ensures some { IfOk result (λ it. 1 ≤ length it.read.schemas.items) }
    ensures few { IfOk result (λ it. length it.read.schemas.items ≤ 64) }
    ensures readers { IfOk result (λ it. it.read.readers ≡ versions_of it.hub.world) }
    ensures fresh { IfOk result (λ it. it.hub.log ≡ []) }
    ensures same { IfOk result (λ it. it.read.script ≡ script) }
{
    let all = schemas_of(alloc, &script)?;
    let readers = readers_of(alloc, &all)?;
    let hub = hub_over(alloc, &script, &all, &readers)?;
    let schemas = last_schemas(alloc, &all)?;
    let read = ReadScript {
        script,
        schemas,
        readers,
    };
    Ok(Prepared { read, hub })
}

/// The script that the bytes denote.
pub fn script_of(alloc: Global, bytes: &[u8]) -> Result<Script, Status>
    ensures { spec.Comes parts (spec.or_script (script_of bytes.now)) result }
{
    match read_script(alloc, bytes) {
        Ok(script) => Ok(script),
        Err(ScriptFault::BadScript { place }) => Err(Status::BadScript { place }),
        Err(ScriptFault::NoMemory) => Err(Status::NoMemory),
    }
}

/// The schema that the modules of the controller's own domain build.
pub fn modules_schema(alloc: Global, script: &Script) -> Result<Schema, Status>
    ensures { spec.Comes (λ schema. schema) (spec.or_schema 0 (schemas.table_of script.now.modules)) result }
{
    domain_schema(alloc, 0, script.modules.items())
}
