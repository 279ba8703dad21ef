//! Why a text is not a range.
ghost use Rattle.std.specs.Prelude.{◌≡◌};
ghost use Rattle.sal_restrict.specs.declared.fault.RangeFault.TheVariants.{NoMemory};

use std::alloc::{AllocError, AllocFailed};
use thiserror::Error;

/// Why the text of a range is refused.
#[derive(Clone, Copy, Debug, PartialEq, Eq, Error)]
pub enum RangeFault {
    /// The text is not of the form of a range, or its bounds or parts are out of order.
    #[error("the text is not a range, or its parts are out of order")]
    BadText,
    /// It has the form, but one of its numbers is not in the range that it restricts.
    #[error("the range has a number outside the range that it restricts")]
    Wider,
    /// Memory ran out.
    #[error("out of memory")]
    NoMemory,
}

impl From<AllocError> for RangeFault {
    ghost from_gives = { λ _ e. e ≡ NoMemory };

    fn from(_refused: AllocError) -> RangeFault {
        RangeFault::NoMemory
    }
}

impl<T: Drop> From<AllocFailed<T>> for RangeFault {
    ghost from_gives = { λ _ e. e ≡ NoMemory };

    fn from(_refused: AllocFailed<T>) -> RangeFault {
        RangeFault::NoMemory
    }
}
