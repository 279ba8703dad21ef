//! Why a domain is not opened.
use sal_rows::Breach;
use sal_types::{NoMemory, Store};
use thiserror::Error;

/// Why a domain is not opened over a device.
#[derive(Debug, Drop, Error)]
pub enum DomainFault {
    /// The opening tree of the store breaks a structural rule. The configuration is checked first.
    #[error("the opening {store} tree breaks a structural rule: {breach}")]
    Broken { store: Store, breach: Breach },
    #[error("out of memory")]
    NoMemory,
}

impl From<NoMemory> for DomainFault {
    ghost use Rattle.std.specs.Prelude.{◌≡◌};
    ghost use Rattle.sal_commit.specs.declared.fault.DomainFault.TheVariants.{NoMemory as Full};

    ghost from_gives = { λ _ e. e ≡ Full };

    fn from(_refused: NoMemory) -> DomainFault {
        DomainFault::NoMemory
    }
}
