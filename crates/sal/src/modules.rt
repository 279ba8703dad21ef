//! From the texts of modules to their schema.
ghost use Rattle.std.specs.Prelude.{◌≡◌, ◌↔◌, ◌<◌, ◌^◌, ◌∷◌, [], IfErr, IfOk, IsTrue, length};
ghost use Rattle.sal.specs.Modules.{AreRead, AreShort, IsFaultOf, IsSchemaOf, IsUnread, IsUnreadAmong, texts_in};

use sal_build::build;
use sal_build::laws::what_is_read_is_readable;
use sal_module::BuildFault;
use sal_schema::Schema;
use sal_stmt::{Stmt, StmtFault, read_module};
use sal_types::NoMemory;
use std::alloc::{AllocError, AllocFailed, Global};
use thiserror::Error;

/// The largest number of bytes of all texts together: below 2^32.
const MAX_BYTES: usize = 4294967295;

/// Why texts give no schema.
#[derive(Debug, Drop, Error)]
pub enum SchemaFault {
    /// The text with this index is not a statement.
    #[error("module {module}: {fault}")]
    Text { module: usize, fault: StmtFault },
    /// The first fault of the modules.
    #[error("{fault}")]
    Modules { fault: BuildFault },
    /// The texts have 2^32 bytes or more together.
    #[error("the modules have 2^32 bytes or more")]
    TooLong,
    /// Memory ran out.
    #[error("out of memory")]
    NoMemory,
}

impl From<AllocError> for SchemaFault {
    ghost use Rattle.sal.specs.declared.modules.SchemaFault.TheVariants.{NoMemory};

    ghost from_gives = { λ _ e. e ≡ NoMemory };

    fn from(_refused: AllocError) -> SchemaFault {
        SchemaFault::NoMemory
    }
}

impl<T: Drop> From<AllocFailed<T>> for SchemaFault {
    ghost use Rattle.sal.specs.declared.modules.SchemaFault.TheVariants.{NoMemory};

    ghost from_gives = { λ _ e. e ≡ NoMemory };

    fn from(_refused: AllocFailed<T>) -> SchemaFault {
        SchemaFault::NoMemory
    }
}

/// The schema of the modules with these texts, or their first fault: that they are too long, else that of the first text that is
/// not a statement, else that of all modules.
pub fn schema_of(alloc: Global, texts: &[&str]) -> Result<Schema, SchemaFault>
    ensures schema { IfOk result (IsSchemaOf (texts_in texts.now)) }
    ensures fault { IfErr result (IsFaultOf (texts_in texts.now)) }
{
    if !are_short(texts) {
        return Err(SchemaFault::TooLong);
    }
    let stmts = statements_of(alloc, texts)?;
    built(alloc, texts, &stmts)
}

// The schema that the statements of the texts build.
fn built(alloc: Global, texts: &[&str], stmts: &[Stmt]) -> Result<Schema, SchemaFault>
    requires short { AreShort (texts_in texts.now) }
    requires read { AreRead (texts_in texts.now) stmts.now }
    ensures schema { IfOk result (IsSchemaOf (texts_in texts.now)) }
    ensures fault { IfErr result (IsFaultOf (texts_in texts.now)) }
{
    what_is_read_is_readable();
    match build(alloc, stmts) {
        Ok(schema) => Ok(schema),
        Err(BuildFault::NoMemory) => Err(SchemaFault::NoMemory),
        Err(fault) => Err(SchemaFault::Modules { fault }),
    }
}

// The statements of the texts.
fn statements_of(alloc: Global, texts: &[&str]) -> Result<Vec<Stmt>, SchemaFault>
    requires { AreShort (texts_in texts.now) }
    ensures read { IfOk result (λ stmts. AreRead (texts_in texts.now) stmts.items) }
    ensures fault { IfErr result (IsUnreadAmong (texts_in texts.now)) }
{
    let mut stmts = Vec::with_capacity(alloc, texts.len())?;
    for (module, text) in texts.iter().enumerate() {
        let stmt = statement_of(alloc, module, text)?;
        stmts.push(stmt)?;
    }
    Ok(stmts)
}

// The statement of the text with this number.
fn statement_of(alloc: Global, number: usize, text: &str) -> Result<Stmt, SchemaFault>
    requires { length text.now < 2 ^ 32 }
    ensures read { IfOk result (λ stmt. AreRead (text.now ∷ []) (stmt ∷ [])) }
    ensures fault { IfErr result (IsUnread number text.now) }
{
    match read_module(alloc, text) {
        Ok(stmt) => Ok(stmt),
        Err(StmtFault::NoMemory) => Err(SchemaFault::NoMemory),
        Err(fault) => Err(SchemaFault::Text {
            module: number,
            fault,
        }),
    }
}

// Whether the texts have fewer than 2^32 bytes together.
fn are_short(texts: &[&str]) -> bool
    ensures { IsTrue result ↔ AreShort (texts_in texts.now) }
{
    let mut room = MAX_BYTES;
    for text in texts {
        let bytes = text.len();
        if bytes > room {
            return false;
        }
        room -= bytes;
    }
    true
}
