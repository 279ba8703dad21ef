//! Why a text is not one statement.
ghost use Rattle.std.specs.Prelude.{◌≡◌};
ghost use Rattle.sal_stmt.specs.declared.fault.StmtFault.TheVariants.{NoMemory};

use std::alloc::{AllocError, AllocFailed};
use thiserror::Error;

/// The first fault of a text. `at` is its byte offset.
#[derive(Clone, Copy, Debug, PartialEq, Eq, Error)]
pub enum StmtFault {
    /// The first byte at which no token can begin, or a token that the grammar does not allow there. The offset is 0 for a text of
    /// separators alone.
    #[error("bad token at byte {at}")]
    BadToken { at: u32 },
    /// The backslash of an unknown escape.
    #[error("unknown escape at byte {at}")]
    BadEscape { at: u32 },
    /// The text ends too early. Inside a quoted string or a block comment: its first byte. Inside a statement before
    /// its `;` or `{`: its keyword. Inside a block: the `{` of the innermost.
    #[error("the string, comment, statement or block at byte {at} does not end")]
    Unclosed { at: u32 },
    /// The `{` of a 65th block that would be open.
    #[error("more than 64 open blocks at byte {at}")]
    TooDeep { at: u32 },
    /// The first token after the one statement.
    #[error("text after the statement at byte {at}")]
    TextAfter { at: u32 },
    /// Memory ran out.
    #[error("out of memory")]
    NoMemory,
}

impl From<AllocError> for StmtFault {
    ghost from_gives = { λ _ e. e ≡ NoMemory };

    fn from(_refused: AllocError) -> StmtFault {
        StmtFault::NoMemory
    }
}

impl<T: Drop> From<AllocFailed<T>> for StmtFault {
    ghost from_gives = { λ _ e. e ≡ NoMemory };

    fn from(_refused: AllocFailed<T>) -> StmtFault {
        StmtFault::NoMemory
    }
}

impl From<sal_types::NoMemory> for StmtFault {
    ghost from_gives = { λ _ e. e ≡ NoMemory };

    fn from(_refused: sal_types::NoMemory) -> StmtFault {
        StmtFault::NoMemory
    }
}
