//! How a read or a write fails.
ghost use Rattle.std.specs.Prelude.{◌≡◌};
ghost use Rattle.sal_io.specs.declared.fault.ReadFail.TheVariants.{ReadFault, NoMemory};

use std::alloc::AllocError;
use thiserror::Error;

/// One call of a source or a sink failed.
#[derive(Clone, Copy, Debug, PartialEq, Eq, Error)]
#[error("a read or a write failed")]
pub struct Failed;

/// Why a source was not read to its end.
#[derive(Clone, Copy, Debug, PartialEq, Eq, Error)]
pub enum ReadFail {
    #[error("a read failed")]
    ReadFault,
    #[error("more bytes than are allowed")]
    TooLong,
    #[error("out of memory")]
    NoMemory,
}

impl From<Failed> for ReadFail {
    ghost from_gives = { λ _ fail. fail ≡ ReadFault };

    fn from(_failed: Failed) -> ReadFail {
        ReadFail::ReadFault
    }
}

impl From<AllocError> for ReadFail {
    ghost from_gives = { λ _ fail. fail ≡ NoMemory };

    fn from(_refused: AllocError) -> ReadFail {
        ReadFail::NoMemory
    }
}
