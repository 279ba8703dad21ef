//! Epochs: shortly before its log is full, a hub passes its newest trees to the next one.
//!
//! | item | what it is |
//! |---|---|
//! | `next_hub` | a hub without calls that begins with the newest trees of another, without a copy |
//! | `next_devices` | a device for each domain of a hub: the present version of its schema, and a copy of its newest trees as its opening |
//! | `mounts_of`, `Mount` | which devices are mounted, and where |
//! | `laws` | functions that do nothing, each with a law as its contract |
//!
//! A log has at most 1,000,000 entries, and a hub keeps every commit until then. An epoch is the time of one hub. `Sal::close` of `sal_broker`
//! returns the hub once all seats were joined, `next_hub` makes the next one, and `Sal::over` a broker of it.
//!
//! At the end of an epoch: settle pending submissions before, or they are lost; transactions, chains, listeners, subscriptions and requests
//! end, and the numbers of receipts and commits begin again; mount devices again (`mounts_of` lists the mounts). A stream of frames
//! continues (`frames_on` of `sal_resume`).
//!
//! ```
//! let hub = broker.close(seat);
//! let hub = next_hub(alloc, hub, Rules::Two);
//! let (broker, seat) = Sal::over(alloc, hub)?;
//! ```
//!
//! To open a hub with further devices, or with further versions in `upgrades` of the first device, call `next_devices` and `Hub::open`.
//!
//! Costs: `next_hub` drops the log and all commits but the newest; it takes no memory. `next_devices` copies the rows of each domain's newest
//! trees, and
//! `Hub::open` makes a node for each path of them and tests the structural rules once. `mounts_of` goes once through the log.
#![tactic(auto)]

mod epochs;
pub mod laws;
mod mounts;

pub use epochs::{next_devices, next_hub};
pub use mounts::{Mount, mounts_of};
