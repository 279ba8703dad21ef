//! The schema of modules.
ghost use Rattle.std.specs.Prelude.{IsTrue};
ghost use Rattle.sal_types.specs.Reading.{GivesUnless};
ghost use Rattle.sal_module.specs.declared.fault.BuildFault.{BuildFault as Fault};
ghost use Rattle.sal_module_table.specs.Build as spec;
ghost use Rattle.sal_build.specs.Readable.{are_readable};

use crate::laws::tables_are_tables;
use sal_module::BuildFault;
use sal_module_table::{table_of_modules, table_of_owned};
use sal_schema::Schema;
use sal_stmt::Stmt;
use std::alloc::Global;

/// The schema of these modules, or their first fault, as `table_of_modules` returns it.
///
/// The statements must be as they are read from texts of fewer than 2^32 bytes in all. It is proved that their table is that of a
/// schema, so no test of it runs.
pub fn build(alloc: Global, stmts: &[Stmt]) -> Result<Schema, BuildFault>
    requires { IsTrue (are_readable stmts.now) }
    ensures { GivesUnless Fault.NoMemory (λ schema. schema) result (spec.build stmts.now) }
{
    tables_are_tables();
    let table = table_of_modules(alloc, stmts)?;
    Ok(Schema::from_table(alloc, table)?)
}

/// The same for statements that the function owns: none is copied.
pub fn build_owned(alloc: Global, stmts: Vec<Stmt>) -> Result<Schema, BuildFault>
    requires { IsTrue (are_readable stmts.items) }
    ensures { GivesUnless Fault.NoMemory (λ schema. schema) result (spec.build stmts.items) }
{
    tables_are_tables();
    let table = table_of_owned(alloc, stmts)?;
    Ok(Schema::from_table(alloc, table)?)
}
