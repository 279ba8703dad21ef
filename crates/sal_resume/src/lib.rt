//! A controller that continues from kept frames: the frames of a hub's domain, a follower of them, and a hub that begins with the follower's
//! trees.
//!
//! | item | what it is |
//! |---|---|
//! | `frames_of`, `frames_since` | the frames of a domain of a hub, as bytes: all, and those from a commit on |
//! | `frames_on` | those from a commit on, with any first number: they continue a stream over epochs |
//! | `snapshot_of_newest` | one frame with all rows of a domain's newest commit: a stream may begin with it |
//! | `frames_by`, `snapshot_by` | the same by another version of the domain's schema |
//! | `own_frames`, `own_snapshot` | these of the controller's own domain |
//! | `follower_of` | a follower that has taken such bytes |
//! | `resume` | a hub without calls, whose opening trees are those of a follower |
//!
//! The frames may come from a file, a pipe, or any transport that keeps their order. A follower may also take them piece by piece
//! (`Follower::feed`): a stand-by then takes over at once. `Sal::over` of `sal_broker` makes a broker of the hub.
//!
//! ```
//! let bytes = frames_of(alloc, &hub, 0)?;
//! let follower = follower_of(alloc, schema, patterns, bytes.items())?;
//! let hub = resume(alloc, follower, Rules::Two)?;
//! let (broker, seat) = Sal::over(alloc, hub)?;
//! ```
//!
//! Costs: `frames_of` and `frames_since` that of `export_since`, `follower_of` that of `Follower::feed`. `resume` moves the rows of the follower to
//! the opening, without a copy. `Hub::open` makes nodes of them, one for each path, and checks the structural rules once, as for every opening.
#![tactic(auto)]

mod frames;
pub mod laws;
mod resuming;
mod stream;

pub use frames::{
    frames_by, frames_of, frames_on, frames_since, own_frames, own_snapshot, snapshot_by,
    snapshot_of_newest,
};
pub use resuming::resume;
pub use stream::follower_of;
