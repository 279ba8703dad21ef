//! The domains of a script: the controller's own and its devices, with their schemas and readers.
ghost use Rattle.std.specs.Prelude.{◌≡◌, ◌+◌, ◌<◌, ◌≤◌, ◌++◌, ◌∷◌, [], IfOk, IsTrue, Some, length, map, slice_get};
ghost use Rattle.sal_script.specs.Limits.{are_short};
ghost use Rattle.sal_script.specs.Reading.{parts};
ghost use Rattle.sal_prepare.specs.Each.{each_from};
ghost use Rattle.sal_versions.specs.Schemas as schemas;
ghost use Rattle.sal_prepare.specs.Scripted as spec;
ghost use Rattle.sal_versions.specs.Versions as versions;
ghost use Rattle.sal_script.specs.Tables as tables;

use crate::status::Status;
use sal_client::{Readers, ReadersFault};
use sal_schema::Schema;
use sal_script::Script;
use sal_types::{NoMemory, Str};
use sal_versions::schema::schema_of;
use sal_versions::schema_fault::SchemaFault;
use sal_versions::shared::{add_shared, shared};
use sal_versions::versions::{Versions, versions_of};
use serde_json::Value;
use std::alloc::Global;
use std::sync::Arc;

/// A domain of a script.
#[derive(Clone, Copy)]
pub(crate) struct ScriptDomain<'a> {
    pub(crate) modules: &'a [Str],
    pub(crate) config: &'a Value,
    pub(crate) operational: &'a Value,
}

/// The number of domains.
pub(crate) fn domain_count(script: &Script) -> u32
    ensures count { result ≡ length (spec.domains_of (parts script.now)) }
    ensures few { result ≤ 64 }
{
    script.devices.items().len() as u32 + 1
}

/// The domain of this number.
pub(crate) fn domain_at(script: &Script, number: u32) -> ScriptDomain<'_>
    requires { number < length (spec.domains_of (parts script.now)) }
    ensures domain { slice_get (spec.domains_of (parts script.now)) number ≡ Some (spec.given result) }
    ensures short { IsTrue (are_short result.modules.now) }
{
    if number == 0 {
        return ScriptDomain {
            modules: script.modules.items(),
            config: &script.config,
            operational: &script.operational,
        };
    }
    let device = &script.devices.items()[number as usize - 1];
    ScriptDomain {
        modules: device.modules.items(),
        config: &device.config,
        operational: &device.operational,
    }
}

/// The schema of the domain of this number.
pub(crate) fn domain_schema(alloc: Global, number: u32, modules: &[Str]) -> Result<Schema, Status>
    requires { IsTrue (are_short modules.now) }
    ensures { spec.Comes (λ schema. schema) (spec.or_schema number (schemas.table_of modules.now)) result }
{
    match schema_of(alloc, modules) {
        Ok(schema) => Ok(schema),
        Err(SchemaFault::Bad { text }) => Err(Status::BadSchema {
            device: number,
            text,
        }),
        Err(SchemaFault::NoMemory) => Err(Status::NoMemory),
    }
}

/// The versions of the schema of domain 0.
pub(crate) fn own_versions(alloc: Global, script: &Script) -> Result<Versions, Status>
    ensures { spec.Comes versions.seen (spec.own_versions (parts script.now)) result }
{
    match versions_of(alloc, script.modules.items(), script.upgrades.items()) {
        Ok(versions) => Ok(versions),
        Err(SchemaFault::Bad { text }) => Err(Status::BadSchema { device: 0, text }),
        Err(SchemaFault::NoMemory) => Err(Status::NoMemory),
    }
}

/// The schemas of all domains, to be shared by readers and writers: all versions of that of domain 0, version 0 first, and those of
/// the devices.
pub(crate) struct Schemas {
    pub(crate) own: Vec<Arc<Schema>>,
    pub(crate) devices: Vec<Arc<Schema>>,
}

impl Drop for Schemas {
    fn drop(self) {
        let Schemas { own: _, devices: _ } = self;
    }
}

/// The schemas of all domains.
pub(crate) fn schemas_of(alloc: Global, script: &Script) -> Result<Schemas, Status>
    ensures versions { spec.Comes spec.versions_shared (spec.all_versions (parts script.now)) result }
    ensures own { IfOk result (λ schemas. 1 ≤ length schemas.own.items) }
    ensures all { IfOk result (λ schemas. length schemas.devices.items + 1 ≡ length (spec.domains_of (parts script.now))) }
    ensures few { IfOk result (λ schemas. length schemas.devices.items ≤ 63) }
{
    let versions = own_versions(alloc, script)?;
    let own = shared(alloc, versions)?;
    let devices = device_schemas(alloc, script)?;
    Ok(Schemas { own, devices })
}

// The schemas of the devices.
fn device_schemas(alloc: Global, script: &Script) -> Result<Vec<Arc<Schema>>, Status>
    ensures tables { spec.Comes (λ schemas. spec.tables_in schemas.items) (each_from spec.table_by 1 (parts script.now).devices) result }
    ensures all { IfOk result (λ schemas. length schemas.items ≡ length (parts script.now).devices) }
    ensures few { IfOk result (λ schemas. length schemas.items ≤ 63) }
{
    let mut schemas = Vec::new(alloc);
    for number in 1..domain_count(script) {
        add_schema(alloc, &mut schemas, number, domain_at(script, number))?;
    }
    Ok(schemas)
}

// One more schema, of the domain of this number.
fn add_schema(
    alloc: Global,
    schemas: &mut Vec<Arc<Schema>>,
    number: u32,
    domain: ScriptDomain<'_>,
) -> Result<(), Status>
    requires { IsTrue (are_short domain.modules.now) }
    ensures tables { spec.Comes (λ _. spec.tables_in schemas.new.items) (spec.with_next (spec.tables_in schemas.old.items) (spec.table_by number (spec.given domain.entry))) result }
    ensures one { IfOk result (λ _. length schemas.new.items ≡ length schemas.old.items + 1) }
{
    let schema = domain_schema(alloc, number, domain.modules)?;
    let shared = Arc::new(alloc, schema)?;
    schemas.push(shared)?;
    Ok(())
}

/// The readers of the paths and the data of each domain, if the patterns of all schemas are well formed.
pub(crate) fn readers_of(alloc: Global, schemas: &Schemas) -> Result<Readers, Status>
    requires some { 1 ≤ length schemas.now.own.items }
    requires few { length schemas.now.devices.items ≤ 63 }
    ensures readers { spec.Comes (λ readers. readers) (each_from spec.if_formed 0 (spec.versions_shared schemas.now)) result }
    ensures same { IfOk result (λ readers. readers ≡ spec.versions_shared schemas.now) }
{
    match Readers::of(alloc, &schemas.own, &schemas.devices) {
        Ok(readers) => Ok(readers),
        Err(ReadersFault::Pattern { device, version }) => Err(bad_pattern(alloc, device, version)),
        Err(ReadersFault::NoMemory) => Err(Status::NoMemory),
    }
}

/// The status of a malformed pattern in this version of a schema.
pub(crate) fn bad_pattern(alloc: Global, device: u32, version: usize) -> Status
    ensures { spec.IsUnformed device version result }
{
    match pattern_text(alloc, version) {
        Ok(text) => Status::BadSchema { device, text },
        Err(NoMemory) => Status::NoMemory,
    }
}

fn pattern_text(alloc: Global, version: usize) -> Result<Str, NoMemory>
    ensures { IfOk result (λ text. text ≡ spec.pattern_text version) }
{
    let mut text = String::new(alloc);
    if version > 0 {
        write!(text, "upgrade {version} ")?;
    }
    text.push_str("pattern")?;
    Ok(Str::from_string(text))
}

/// The schemas of the last versions, by domain.
pub(crate) fn last_schemas(alloc: Global, schemas: &Schemas) -> Result<Vec<Arc<Schema>>, NoMemory>
    requires some { 1 ≤ length schemas.now.own.items }
    requires few { length schemas.now.devices.items ≤ 63 }
    ensures tables { IfOk result (λ it. spec.tables_in it.items ≡ map tables.last_among (spec.versions_shared schemas.now)) }
    ensures some { IfOk result (λ it. 1 ≤ length it.items) }
    ensures few { IfOk result (λ it. length it.items ≤ 64) }
{
    let mut last = Vec::new(alloc);
    add_shared(&mut last, last_of(&schemas.own))?;
    for device in &schemas.devices {
        add_shared(&mut last, device)?;
    }
    Ok(last)
}

/// The schema of the last one of some versions.
pub(crate) fn last_of(versions: &[Arc<Schema>]) -> &Arc<Schema>
    requires { 1 ≤ length versions.now }
    ensures { result.now.value ≡ tables.last_among (spec.tables_in versions.now) }
{
    &versions[versions.len() - 1]
}
