//! Why a read or a write is refused.
use sal_types::{NoMemory, Path};
use thiserror::Error;

/// Why a call of a transaction is refused. After a refusal the transaction is unchanged.
#[derive(Debug, Drop, PartialEq, Eq, Error)]
pub enum TxFault {
    /// A read of a transaction that only writes.
    #[error("the transaction only writes")]
    WriteOnly,
    /// State data in the configuration: the path written, if it is of a state node, or else that of the first row of one.
    #[error("state data in the configuration, at {path}")]
    NotConfig { path: Path },
    /// A write at a key leaf.
    #[error("a write at the key leaf {path}")]
    KeyLeaf { path: Path },
    /// The outermost list entry or presence container above the path that the tree does not have.
    #[error("the parent {path} is missing")]
    ParentMissing { path: Path },
    /// A write at the root.
    #[error("a write at the root")]
    RootPath,
    #[error("out of memory")]
    NoMemory,
}

impl From<NoMemory> for TxFault {
    ghost use Rattle.std.specs.Prelude.{◌≡◌};
    ghost use Rattle.sal_rules.specs.declared.fault.TxFault.TheVariants.{NoMemory as Refused};

    ghost from_gives = { λ _ e. e ≡ Refused };

    fn from(_refused: NoMemory) -> TxFault {
        TxFault::NoMemory
    }
}

/// A transaction that only writes was asked for data.
#[derive(Clone, Copy, Debug, PartialEq, Eq, Error)]
#[error("the transaction only writes")]
pub struct WriteOnly;
