//! Why a JSON value or a text denotes no value.
ghost use Rattle.std.specs.Prelude.{◌≡◌};

use std::alloc::{AllocError, AllocFailed};
use thiserror::Error;

/// Why a JSON value or a text denotes no value of a type.
#[derive(Clone, Copy, Debug, Error)]
pub enum ScalarFault {
    /// The type takes another kind of JSON values, or texts of another form. Or no member of a union takes it.
    #[error("the value is not in the form of its type")]
    WrongKind,
    /// The number is not in the range, or has more digits after its point than the type.
    #[error("the number is out of range")]
    OutOfRange,
    /// The text has too few or too many characters, or there are too few or too many bytes.
    #[error("the length is out of range")]
    BadLength,
    /// The text does not match the patterns of the type.
    #[error("the text does not match a pattern of its type")]
    NoMatch,
    /// There is no enum, bit or identity of this name, or the identity is not derived from the bases of the type.
    #[error("the type has no enum, bit or identity of this name")]
    UnknownName,
    /// Memory ran out.
    #[error("out of memory")]
    NoMemory,
}

impl From<sal_types::NoMemory> for ScalarFault {
    ghost use Rattle.sal_json.specs.declared.fault.ScalarFault.TheVariants.{NoMemory};

    ghost from_gives = { λ _ e. e ≡ NoMemory };

    fn from(_refused: sal_types::NoMemory) -> ScalarFault {
        ScalarFault::NoMemory
    }
}

impl From<AllocError> for ScalarFault {
    ghost use Rattle.sal_json.specs.declared.fault.ScalarFault.TheVariants.{NoMemory};

    ghost from_gives = { λ _ e. e ≡ NoMemory };

    fn from(_refused: AllocError) -> ScalarFault {
        ScalarFault::NoMemory
    }
}

impl<T: Drop> From<AllocFailed<T>> for ScalarFault {
    ghost use Rattle.sal_json.specs.declared.fault.ScalarFault.TheVariants.{NoMemory};

    ghost from_gives = { λ _ e. e ≡ NoMemory };

    fn from(_refused: AllocFailed<T>) -> ScalarFault {
        ScalarFault::NoMemory
    }
}

/// Why the patterns of a schema are refused.
#[derive(Clone, Copy, Debug, Error)]
pub enum PatternsFault {
    /// A type, by its number, has a malformed pattern.
    #[error("type {ty} has a malformed pattern")]
    Refused { ty: u32 },
    /// Memory ran out, or a pattern is too large for `regex`.
    #[error("out of memory")]
    NoMemory,
}

impl From<sal_types::NoMemory> for PatternsFault {
    ghost use Rattle.sal_json.specs.declared.fault.PatternsFault.TheVariants.{NoMemory};

    ghost from_gives = { λ _ e. e ≡ NoMemory };

    fn from(_refused: sal_types::NoMemory) -> PatternsFault {
        PatternsFault::NoMemory
    }
}

impl<T: Drop> From<AllocFailed<T>> for PatternsFault {
    ghost use Rattle.sal_json.specs.declared.fault.PatternsFault.TheVariants.{NoMemory};

    ghost from_gives = { λ _ e. e ≡ NoMemory };

    fn from(_refused: AllocFailed<T>) -> PatternsFault {
        PatternsFault::NoMemory
    }
}
