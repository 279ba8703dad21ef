//! The schema of the controller's own domain alone, to read by its last version.
ghost use Rattle.std.specs.Prelude.{◌≡◌, ◌≤◌, false, IfErr, IfOk, length};
ghost use Rattle.sal_json.specs.Patterns.{patterns_of};
ghost use Rattle.sal_script.specs.Reading.{parts};
ghost use Rattle.sal_script.specs.Tables.{last_among};
ghost use Rattle.sal_client.specs.Malformed.{is_malformed};
ghost use Rattle.sal_versions.specs.Versions.{AreInOrder};
ghost use Rattle.sal_prepare.specs.OwnSchemas.{IsUnformedBy, last_formed, own_table};
ghost use Rattle.sal_prepare.specs.Scripted.{Comes, if_formed, tables_in};

use crate::domains::{bad_pattern, last_of, own_versions};
use crate::status::Status;
use sal_json::{Patterns, PatternsFault};
use sal_schema::Schema;
use sal_script::Script;
use sal_types::NoMemory;
use sal_versions::laws::versions_are_in_order;
use sal_versions::shared::shared;
use std::alloc::Global;
use std::sync::Arc;

/// The last version of the schema of the controller's own domain, with its patterns compiled.
#[derive(Drop)]
pub struct OwnSchema {
    pub schema: Arc<Schema>,
    pub patterns: Patterns,
}

/// That of a script: its own modules and upgrades are built, and the patterns of all versions are well formed.
pub fn own_schema(alloc: Global, script: &Script) -> Result<OwnSchema, Status>
    ensures table { Comes (λ own. own.schema.value) (own_table (parts script.now)) result }
    ensures patterns { IfOk result (λ own. own.patterns ≡ patterns_of own.schema.value) }
{
    versions_are_in_order();
    let versions = own_versions(alloc, script)?;
    let schemas = shared(alloc, versions)?;
    last_schema(alloc, &schemas)
}

// The last one of some versions.
fn last_schema(alloc: Global, versions: &[Arc<Schema>]) -> Result<OwnSchema, Status>
    requires some { 1 ≤ length versions.now }
    requires order { AreInOrder (tables_in versions.now) }
    ensures table { Comes (λ own. own.schema.value) (last_formed (tables_in versions.now)) result }
    ensures patterns { IfOk result (λ own. own.patterns ≡ patterns_of own.schema.value) }
{
    let patterns = last_patterns(alloc, versions)?;
    let schema = shared_once(last_of(versions))?;
    Ok(OwnSchema { schema, patterns })
}

// The schema, shared.
fn shared_once(schema: &Arc<Schema>) -> Result<Arc<Schema>, NoMemory>
    ensures { IfOk result (λ it. it.value ≡ schema.now.value) }
{
    let schema = Arc::try_clone(schema)?;
    Ok(schema)
}

// The patterns of the last one, if those of each are well formed. An older version has no others, so only if one is malformed
// each version is checked.
fn last_patterns(alloc: Global, versions: &[Arc<Schema>]) -> Result<Patterns, Status>
    requires some { 1 ≤ length versions.now }
    requires order { AreInOrder (tables_in versions.now) }
    ensures formed { Comes (λ _. tables_in versions.now) (if_formed 0 (tables_in versions.now)) result }
    ensures patterns { IfOk result (λ patterns. patterns ≡ patterns_of (last_among (tables_in versions.now))) }
{
    let last = versions.len() - 1;
    match formed(alloc, last, &versions[last]) {
        Ok(patterns) => Ok(patterns),
        Err(_) => each_formed(alloc, versions),
    }
}

// The same; each version is checked.
fn each_formed(alloc: Global, versions: &[Arc<Schema>]) -> Result<Patterns, Status>
    requires { 1 ≤ length versions.now }
    ensures formed { Comes (λ _. tables_in versions.now) (if_formed 0 (tables_in versions.now)) result }
    ensures patterns { IfOk result (λ patterns. patterns ≡ patterns_of (last_among (tables_in versions.now))) }
{
    let last = versions.len() - 1;
    for version in 0..last {
        let _ = formed(alloc, version, &versions[version])?;
    }
    formed(alloc, last, &versions[last])
}

// The patterns of the schema, which is this version.
fn formed(alloc: Global, version: usize, schema: &Schema) -> Result<Patterns, Status>
    ensures patterns { IfOk result (λ patterns. patterns ≡ patterns_of schema.now) }
    ensures formed { IfOk result (λ _. is_malformed schema.now ≡ false) }
    ensures refused { IfErr result (IsUnformedBy version schema.now) }
{
    match Patterns::of(alloc, schema) {
        Ok(patterns) => Ok(patterns),
        Err(PatternsFault::Refused { .. }) => Err(bad_pattern(alloc, 0, version)),
        Err(PatternsFault::NoMemory) => Err(Status::NoMemory),
    }
}
