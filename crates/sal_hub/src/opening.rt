//! Why an opening is refused.
use sal_rows::Breach;
use sal_types::{NoMemory, Path, Store};
use thiserror::Error;

/// Why a hub is not opened over some devices, by the number of the device.
#[derive(Debug, Drop, Error)]
pub enum OpenFault {
    /// The configuration has state data; the path is that of the first row of a state node.
    #[error("state data in the configuration of device {device}, at {path}")]
    NotConfig {
        device: u32,
        path: Path,
    },
    /// A tree breaks a structural rule.
    #[error("the {store} tree of device {device} breaks a structural rule: {breach}")]
    Broken {
        device: u32,
        store: Store,
        breach: Breach,
    },
    #[error("out of memory")]
    NoMemory,
}

impl From<NoMemory> for OpenFault {
    ghost use Rattle.std.specs.Prelude.{◌≡◌};
    ghost use Rattle.sal_hub.specs.declared.opening.OpenFault.TheVariants.{NoMemory as Refused};

    ghost from_gives = { λ _ e. e ≡ Refused };

    fn from(_refused: NoMemory) -> OpenFault {
        OpenFault::NoMemory
    }
}
