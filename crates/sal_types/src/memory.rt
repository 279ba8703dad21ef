//! The error for memory that ran out, and copies that can fail with it.
ghost use Rattle.std.specs.Prelude.{◌≡◌, IfOk};

use std::alloc::{AllocError, AllocFailed};
use thiserror::Error;

/// Memory ran out.
#[derive(Clone, Copy, Debug, PartialEq, Eq, Error)]
#[error("out of memory")]
pub struct NoMemory;

impl From<AllocError> for NoMemory {
    fn from(_refused: AllocError) -> NoMemory {
        NoMemory
    }
}

impl<T: Drop> From<AllocFailed<T>> for NoMemory {
    fn from(_refused: AllocFailed<T>) -> NoMemory {
        NoMemory
    }
}

/// A value that can be copied.
pub trait Duplicate: Drop {
    /// An equal copy.
    fn copy(&self) -> Result<Self, NoMemory>
        ensures { IfOk result (λ it. it ≡ self.now) };
}

impl Duplicate for u8 {
    fn copy(&self) -> Result<u8, NoMemory> {
        Ok(*self)
    }
}

impl Duplicate for u32 {
    fn copy(&self) -> Result<u32, NoMemory> {
        Ok(*self)
    }
}
