//! The calls on mounts, and their replies.
use sal_types::Path;
use thiserror::Error;

/// A call. Devices and their domains have one number each; domain 0 is the controller's own.
#[derive(Drop)]
pub enum MountCall {
    /// Mounts the device at the path of the controller's own domain (`DOMMountPointService`).
    Mount { path: Path, device: u32 },
    /// Unmounts the domain.
    Unmount { domain: u32 },
    /// Asks which domain is mounted at the path.
    MountAt { path: Path },
}

/// Why a call was refused.
#[derive(Clone, Copy, Debug, PartialEq, Eq, Error)]
pub enum MountFault {
    /// For a mount: no device other than the controller's own has this number. For an unmount: the domain is the controller's own, or
    /// is not mounted.
    #[error("no live domain {id}")]
    NoDomain { id: u32 },
    /// The device was mounted before. A device is mounted once at most.
    #[error("device {id} was mounted before")]
    DeviceUsed { id: u32 },
    /// This domain is mounted at the path.
    #[error("domain {id} is mounted at the path")]
    MountTaken { id: u32 },
    #[error("out of memory")]
    NoMemory,
}

/// The reply to a call.
#[derive(Clone, Copy, Debug, PartialEq, Eq)]
pub enum MountReply {
    /// The call was done; there is no other result.
    Accepted,
    /// The domain that is mounted at the path, if any.
    MountAt { mount: Option<u32> },
    /// The call was refused.
    Refused { fault: MountFault },
}
