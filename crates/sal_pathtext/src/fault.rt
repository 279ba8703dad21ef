//! Why a text is no path.
ghost use Rattle.std.specs.Prelude.{◌≡◌};
ghost use Rattle.sal_pathtext.specs.declared.fault.PathTextFault.TheVariants.{NoMemory};

use std::alloc::{AllocError, AllocFailed};
use thiserror::Error;

/// The first fault of a path text, from the left. `at` is how many bytes are before it.
#[derive(Clone, Copy, Debug, Error)]
pub enum PathTextFault {
    /// The first byte that the form does not allow, or the end of the text if it ends too early.
    #[error("the form of a path does not allow what is at byte {at}")]
    BadText { at: usize },
    /// The first byte of a name that refers to no data node there, or is not in the right form.
    #[error("unknown node at byte {at}")]
    UnknownNode { at: usize },
    /// The `[` of a predicate that follows a node other than a list or leaf-list, names no key of it or one that an
    /// earlier predicate has named, or has a value that is not valid. If keys are missing: the first byte of the list's
    /// name.
    #[error("bad predicate at byte {at}")]
    BadPredicate { at: usize },
    /// The path has more than 32 steps.
    #[error("a path has at most 32 steps")]
    TooDeep,
    /// Memory ran out.
    #[error("out of memory")]
    NoMemory,
}

impl From<AllocError> for PathTextFault {
    ghost from_gives = { λ _ e. e ≡ NoMemory };

    fn from(_refused: AllocError) -> PathTextFault {
        PathTextFault::NoMemory
    }
}

impl<T: Drop> From<AllocFailed<T>> for PathTextFault {
    ghost from_gives = { λ _ e. e ≡ NoMemory };

    fn from(_refused: AllocFailed<T>) -> PathTextFault {
        PathTextFault::NoMemory
    }
}

impl From<sal_types::NoMemory> for PathTextFault {
    ghost from_gives = { λ _ e. e ≡ NoMemory };

    fn from(_refused: sal_types::NoMemory) -> PathTextFault {
        PathTextFault::NoMemory
    }
}
