//! Versions of the schema of modules: the next version keeps the numbers of the older one.
ghost use Rattle.std.specs.Prelude.{◌≡◌, ◌≤◌, IfOk, IsTrue, length, take};
ghost use Rattle.sal_types.specs.Reading.{GivesUnless};
ghost use Rattle.sal_module.specs.declared.fault.BuildFault.{BuildFault as Fault};
ghost use Rattle.sal_module_table.specs.Build.{build};
ghost use Rattle.sal_module_table.specs.Versions as build_spec;
ghost use Rattle.sal_schema.specs.Valid.{IsTable};
ghost use Rattle.sal_schema.specs.Versions.{Extends};
ghost use Rattle.sal_build.specs.Readable.{are_readable};
ghost use Rattle.sal_build.specs.Versions.{IsVersionOf, tabled};

use crate::laws::{first_versions_are_tables, versions_are_tables, versions_extend};
use sal_grouping::Growth;
use sal_module::BuildFault;
use sal_module_table::{Older, Version, first_version, next_version};
use sal_schema::Schema;
use sal_stmt::Stmt;
use sal_types::NoMemory;
use std::alloc::Global;

/// A version of a schema, and the nodes with which the next version begins.
#[derive(Drop)]
pub struct SchemaVersion {
    pub growth: Growth,
    pub schema: Schema,
}

fn with_schema(alloc: Global, version: Version) -> Result<SchemaVersion, NoMemory>
    requires { IsTable version.table }
    ensures { IfOk result (λ v. tabled v ≡ version) }
{
    let Version { growth, table } = version;
    let schema = Schema::from_table(alloc, table)?;
    Ok(SchemaVersion { growth, schema })
}

fn versioned(alloc: Global, stmts: &[Stmt]) -> Result<SchemaVersion, BuildFault>
    requires { IsTrue (are_readable stmts.now) }
    ensures version { GivesUnless Fault.NoMemory tabled result (build_spec.first stmts.now) }
    ensures of { IfOk result (λ v. IsVersionOf stmts.now (tabled v)) }
{
    first_versions_are_tables();
    let version = first_version(alloc, stmts)?;
    Ok(with_schema(alloc, version)?)
}

/// The first version of these modules, or their first fault: the schema of `build`, with its nodes.
pub fn build_first(alloc: Global, stmts: &[Stmt]) -> Result<SchemaVersion, BuildFault>
    requires { IsTrue (are_readable stmts.now) }
    ensures version { GivesUnless Fault.NoMemory tabled result (build_spec.first stmts.now) }
    ensures of { IfOk result (λ v. IsVersionOf stmts.now (tabled v)) }
    ensures schema { GivesUnless Fault.NoMemory (λ v. v.schema) result (build stmts.now) }
{
    versioned(alloc, stmts)
}

/// The next version, of all these statements, or their first fault. The first `old` statements are those of the older version.
///
/// The faults are those of `build` over all statements, and `OldIdentity`. The numbers of the older version stay, with their lines of the table. The
/// nodes of the new modules follow, then the nodes of their augments.
pub fn build_on(
    alloc: Global,
    stmts: &[Stmt],
    older: &SchemaVersion,
    old: usize,
) -> Result<SchemaVersion, BuildFault>
    requires readable { IsTrue (are_readable stmts.now) }
    requires old { old ≤ length stmts.now }
    requires older { IsVersionOf (take old stmts.now) (tabled older.now) }
    ensures version { GivesUnless Fault.NoMemory tabled result (build_spec.next stmts.now old (tabled older.now)) }
    ensures of { IfOk result (λ v. IsVersionOf stmts.now (tabled v)) }
    ensures extends { IfOk result (λ v. Extends v.schema older.now.schema) }
{
    versions_extend();
    versions_are_tables();
    let before = Older {
        growth: &older.growth,
        table: older.schema.table(),
        count: old,
    };
    let version = next_version(alloc, stmts, &before)?;
    Ok(with_schema(alloc, version)?)
}
