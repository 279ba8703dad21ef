//! Versions of modules: the table of each, and the nodes with which the next version begins.
ghost use Rattle.std.specs.Prelude.{◌≤◌, ◌<◌, ◌^◌, length};
ghost use Rattle.sal_types.specs.Reading.{GivesUnless};
ghost use Rattle.sal_module.specs.declared.fault.BuildFault.{BuildFault as Fault};
ghost use Rattle.sal_typedefs.specs.Names.{steps_of};
ghost use Rattle.sal_module_table.specs.Build as build_spec;
ghost use Rattle.sal_module_table.specs.Versions as spec;

use crate::schema::{judge, judge_on};
use sal_grouping::{Growth, expand, first_growth, next_growth};
use sal_module::{BuildFault, Modules, check};
use sal_schema::{SchemaTable, table_on};
use sal_stmt::Stmt;
use std::alloc::Global;

/// A version of modules: its table, and the nodes with which the next one begins.
#[derive(Drop)]
pub struct Version {
    pub growth: Growth,
    pub table: SchemaTable,
}

/// The table of these nodes, or the first fault of types, then of lists.
fn judged(alloc: Global, modules: &Modules, growth: &Growth) -> Result<SchemaTable, BuildFault>
    requires { steps_of modules.now < 2 ^ 32 }
    ensures { GivesUnless Fault.NoMemory (λ table. table) result (build_spec.judged modules.now (spec.branches modules.now growth.now)) }
{
    let forest = growth.forest(alloc, modules)?;
    judge(alloc, modules, &forest)
}

fn with_table(alloc: Global, modules: &Modules, growth: Growth) -> Result<Version, BuildFault>
    requires { steps_of modules.now < 2 ^ 32 }
    ensures { GivesUnless Fault.NoMemory (λ version. version) result (spec.made modules.now growth) }
{
    let table = judged(alloc, modules, &growth)?;
    Ok(Version { growth, table })
}

/// The first version of modules, or their first fault: the table of `table_of_modules`, with its nodes.
pub fn first_version(alloc: Global, stmts: &[Stmt]) -> Result<Version, BuildFault>
    requires { steps_of stmts.now < 2 ^ 32 }
    ensures { GivesUnless Fault.NoMemory (λ version. version) result (spec.first stmts.now) }
{
    let modules = check(alloc, stmts)?;
    let growth = first_growth(alloc, &modules)?;
    with_table(alloc, &modules, growth)
}

/// The table of these nodes, or the first fault of types, then of lists. The modules before index `old` are those of an earlier version.
fn judged_on(
    alloc: Global,
    modules: &Modules,
    old: u32,
    growth: &Growth,
) -> Result<SchemaTable, BuildFault>
    requires { steps_of modules.now < 2 ^ 32 }
    ensures { GivesUnless Fault.NoMemory (λ table. table) result (build_spec.judged_on old modules.now (spec.branches modules.now growth.now)) }
{
    let forest = growth.forest(alloc, modules)?;
    judge_on(alloc, modules, old, &forest)
}

/// The older version of modules, the input of the next one.
#[derive(Drop)]
pub struct Older<'a> {
    /// Its nodes.
    pub growth: &'a Growth,
    /// Its table.
    pub table: &'a SchemaTable,
    /// The number of its modules: the first ones of the next version.
    pub count: usize,
}

fn with_table_on(
    alloc: Global,
    modules: &Modules,
    older: &Older,
    growth: Growth,
) -> Result<Version, BuildFault>
    requires counted { steps_of modules.now < 2 ^ 32 }
    requires old { older.now.count ≤ length modules.now }
    ensures { GivesUnless Fault.NoMemory (λ version. version) result (spec.made_on modules.now older.now.count older.now.table.now growth) }
{
    let whole = judged_on(alloc, modules, older.count as u32, &growth)?;
    let table = table_on(alloc, older.table, &whole)?;
    Ok(Version { growth, table })
}

/// The next version, of all these statements, or their first fault. The first of the statements are those of the older version.
///
/// The faults are those of all statements at once, and that of an identity of a new module whose base is an identity of an old one. The lines of
/// the older table stay. The trees of the new modules follow, then the nodes of their augments.
pub fn next_version(alloc: Global, stmts: &[Stmt], older: &Older) -> Result<Version, BuildFault>
    requires counted { steps_of stmts.now < 2 ^ 32 }
    requires old { older.now.count ≤ length stmts.now }
    ensures { GivesUnless Fault.NoMemory (λ version. version) result (spec.next stmts.now older.now.count (spec.version older.now.growth.now older.now.table.now)) }
{
    let modules = check(alloc, stmts)?;
    let _forest = expand(alloc, &modules)?;
    let growth = next_growth(alloc, &modules, older.count as u32, older.growth)?;
    with_table_on(alloc, &modules, older, growth)
}
