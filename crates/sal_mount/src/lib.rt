//! Mounts: which device is mounted at which path, and which domains are live.
//!
//! | item | what it is |
//! |---|---|
//! | `Mounts` | the mounts of a broker, which a contract sees as a register of the calls |
//! | `MountCall`, `MountReply`, `MountFault` | a call, its reply, why it is refused |
//! | `examples` | functions that do nothing, each with worked examples as its contract |
//!
//! `specs/Mounts` defines the meaning of the calls by their list. A device has its domain, live from its mount to its unmount; it
//! is mounted at most once, and a path has at most one live mount. Domain 0, the controller's own, is always live. `specs/Register`
//! defines the register of a list of calls, and `specs/Answers` the effect of a call: for any earlier calls, it returns the reply
//! by the definition, and the register is that of one call more. So a caller that logs its calls knows the replies from the log.
//!
//! ```
//! let mut mounts = Mounts::new(alloc, 2);
//! mounts.mount(&path, 1)?;
//! let mounted = mounts.mount_at(&path);
//! mounts.unmount(1)?;
//! ```
//!
//! | call | cost for n mounts in all |
//! |---|---|
//! | `Mounts::mount` | a few searches among n paths and n devices, and a copy of the path |
//! | `Mounts::mount_at` | a search among n paths and one among n devices; no memory |
//! | `Mounts::unmount`, `is_live` | a search among n devices; no memory |
//!
//! A search compares some log n keys, in any order of insertion. A path stays in memory after its unmount; as a device
//! is mounted at most once, there are never more paths than devices.
#![tactic(auto)]

pub mod call;
pub mod examples;
pub mod mounts;

pub use call::{MountCall, MountFault, MountReply};
pub use mounts::Mounts;
