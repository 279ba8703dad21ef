//! Schemas that are shared.
ghost use Rattle.std.specs.Prelude.{◌≡◌, ◌≤◌, ◌++◌, ◌∷◌, [], IfOk, length};
ghost use Rattle.sal_versions.specs.Shared.{tables_in};
ghost use Rattle.sal_versions.specs.Versions.{seen, tables_of};

use crate::versions::Versions;
use sal_build::SchemaVersion;
use sal_schema::Schema;
use sal_types::NoMemory;
use std::alloc::Global;
use std::sync::Arc;

/// The schemas of the versions, version 0 first.
pub fn shared(alloc: Global, versions: Versions) -> Result<Vec<Arc<Schema>>, NoMemory>
    ensures tables { IfOk result (λ schemas. tables_in schemas.items ≡ tables_of (seen versions)) }
    ensures some { IfOk result (λ schemas. 1 ≤ length schemas.items) }
{
    let Versions { olds, latest, .. } = versions;
    let SchemaVersion { schema, .. } = latest;
    let mut schemas = Vec::new(alloc);
    for old in olds {
        add_version(alloc, &mut schemas, old)?;
    }
    add_version(alloc, &mut schemas, schema)?;
    Ok(schemas)
}

// One more version.
fn add_version(
    alloc: Global,
    schemas: &mut Vec<Arc<Schema>>,
    schema: Schema,
) -> Result<(), NoMemory>
    ensures { IfOk result (λ _. tables_in schemas.new.items ≡ tables_in schemas.old.items ++ schema ∷ []) }
{
    let shared = Arc::new(alloc, schema)?;
    schemas.push(shared)?;
    Ok(())
}

/// The same schemas, shared once more.
pub fn shared_again(alloc: Global, schemas: &[Arc<Schema>]) -> Result<Vec<Arc<Schema>>, NoMemory>
    ensures { IfOk result (λ it. tables_in it.items ≡ tables_in schemas.now) }
{
    let mut shared = Vec::new(alloc);
    for schema in schemas {
        add_shared(&mut shared, schema)?;
    }
    Ok(shared)
}

/// Appends the schema, shared.
pub fn add_shared(schemas: &mut Vec<Arc<Schema>>, schema: &Arc<Schema>) -> Result<(), NoMemory>
    ensures { IfOk result (λ _. tables_in schemas.new.items ≡ tables_in schemas.old.items ++ schema.now.value ∷ []) }
{
    let schema = Arc::try_clone(schema)?;
    schemas.push(schema)?;
    Ok(())
}
