//! Why a JSON value denotes no rows.
ghost use Rattle.std.specs.Prelude.{◌≡◌};

use sal_json::ScalarFault;
use sal_types::{Path, Str};
use std::alloc::{AllocError, AllocFailed};
use thiserror::Error;

/// Why a JSON value denotes no rows of a schema.
///
/// `path` is the place: of the object for the faults of a member's name, of the list for those of keys, and of the entry or
/// node itself for the others. Its nodes are numbers; `write_path` of `sal_pathtext` writes it with their names.
#[derive(Debug, Drop, Error)]
pub enum DataFault {
    /// No child of the node at the path has this name in the right form.
    #[error("unknown member `{}` at {path}", .name.as_str())]
    UnknownMember { path: Path, name: Str },
    /// The name has no module, and is at the top or that of a child of another module.
    #[error("the member `{}` at {path} needs the name of its module", .name.as_str())]
    NeedsModule { path: Path, name: Str },
    /// A JSON value other than an object or an array where one of these is required.
    #[error("an object or an array is wanted at {path}")]
    WrongShape { path: Path },
    /// An entry of the list at the path lacks a key.
    #[error("an entry of the list {path} lacks a key")]
    MissingKey { path: Path },
    /// The entry has another key or value than that of the path at which it is read.
    #[error("the entry has another key or value than {path}")]
    KeyDiffers { path: Path },
    /// An earlier entry of the list or leaf-list has the same key or value.
    #[error("an earlier entry has the same key or value as {path}")]
    DoubleEntry { path: Path },
    /// A leaf, a leaf-list entry, or a key of the list at the path has no value of its type.
    #[error("{fault}, at {path}")]
    BadScalar { path: Path, fault: ScalarFault },
    /// The path would have a 33rd step below this one.
    #[error("a path has at most 32 steps, and the data go below {path}")]
    TooDeep { path: Path },
    /// Memory ran out.
    #[error("out of memory")]
    NoMemory,
}

impl From<AllocError> for DataFault {
    ghost use Rattle.sal_data.specs.declared.fault.DataFault.TheVariants.{NoMemory};

    ghost from_gives = { λ _ e. e ≡ NoMemory };

    fn from(_refused: AllocError) -> DataFault {
        DataFault::NoMemory
    }
}

impl<T: Drop> From<AllocFailed<T>> for DataFault {
    ghost use Rattle.sal_data.specs.declared.fault.DataFault.TheVariants.{NoMemory};

    ghost from_gives = { λ _ e. e ≡ NoMemory };

    fn from(_refused: AllocFailed<T>) -> DataFault {
        DataFault::NoMemory
    }
}

impl From<sal_types::NoMemory> for DataFault {
    ghost use Rattle.sal_data.specs.declared.fault.DataFault.TheVariants.{NoMemory};

    ghost from_gives = { λ _ e. e ≡ NoMemory };

    fn from(_refused: sal_types::NoMemory) -> DataFault {
        DataFault::NoMemory
    }
}
