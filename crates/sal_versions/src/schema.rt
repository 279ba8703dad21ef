//! From the texts of a domain's modules to their schema.
ghost use Rattle.std.specs.Prelude.{◌≡◌, ◌<◌, ◌^◌, IsTrue, length};
ghost use Rattle.sal_script.specs.Limits.{are_short};
ghost use Rattle.sal_stmt.specs.Text.{Gives, read};
ghost use Rattle.sal_versions.specs.Schemas as spec;

use crate::schema_fault::{SchemaFault, of_modules, of_text};
use sal_build::build_owned;
use sal_build::laws::what_is_read_is_readable;
use sal_schema::Schema;
use sal_stmt::{Stmt, StmtFault, read_module};
use sal_types::Str;
use std::alloc::Global;

/// The schema that modules build, or the text of their first fault. The texts are read first, in their order.
pub fn schema_of(alloc: Global, texts: &[Str]) -> Result<Schema, SchemaFault>
    requires { IsTrue (are_short texts.now) }
    ensures { spec.Makes (λ schema. schema) result (spec.table_of texts.now) }
{
    what_is_read_is_readable();
    let stmts = statements_of(alloc, 0, texts)?;
    match build_owned(alloc, stmts) {
        Ok(schema) => Ok(schema),
        Err(fault) => Err(of_modules(alloc, &fault)),
    }
}

// The statements of the texts. The first one is that of the module with this number.
pub(crate) fn statements_of(
    alloc: Global,
    first: usize,
    texts: &[Str],
) -> Result<Vec<Stmt>, SchemaFault>
    requires short { IsTrue (are_short texts.now) }
    requires few { first < 2 ^ 63 }
    ensures { spec.Makes (λ stmts. stmts.items) result (spec.statements_from first texts.now) }
{
    let mut stmts = Vec::with_capacity(alloc, texts.len())?;
    let mut number = first;
    for text in texts {
        let stmt = statement_of(alloc, number, text)?;
        stmts.push(stmt)?;
        number += 1;
    }
    Ok(stmts)
}

// The statement of the text of the module with this number.
fn statement_of(alloc: Global, number: usize, text: &Str) -> Result<Stmt, SchemaFault>
    requires { length text.now < 2 ^ 32 }
    ensures { spec.Makes (λ stmt. stmt) result (spec.or_text number text.now (read text.now)) }
{
    match read_module(alloc, text.as_str()) {
        Ok(stmt) => Ok(stmt),
        Err(fault) => Err(of_text(alloc, number, text, fault)),
    }
}
