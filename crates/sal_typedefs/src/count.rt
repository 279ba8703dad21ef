//! The number of statements.
ghost use Rattle.std.specs.Prelude.{◌≡◌, ◌+◌, IfOk};
ghost use Rattle.sal_typedefs.specs.Names as spec;

use crate::tally::Tally;
use sal_stmt::Stmt;
use sal_types::NoMemory;
use std::alloc::Global;

/// The largest depth of nested blocks of a statement.
const MAX_BLOCKS: u32 = 64;

/// Counts the statements in `levels` levels.
fn count(tally: &mut Tally, levels: u32, stmt: &Stmt) -> Result<(), NoMemory>
    ensures { IfOk result (λ _. tally.new ≡ tally.old + spec.count levels stmt.now) }
{
    tally.add()?;
    if levels == 0 {
        return Ok(());
    }
    for sub in stmt.subs.items() {
        count(tally, levels - 1, sub)?;
    }
    Ok(())
}

/// The number of statements of modules. It takes a byte of memory for each while it counts.
pub(crate) fn steps_of(alloc: Global, stmts: &[Stmt]) -> Result<usize, NoMemory>
    ensures { IfOk result (λ n. n ≡ spec.steps_of stmts.now) }
{
    let mut tally = Tally::new(alloc);
    for stmt in stmts {
        count(&mut tally, MAX_BLOCKS, stmt)?;
    }
    Ok(tally.number())
}
