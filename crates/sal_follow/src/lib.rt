//! A follower: a copy of a domain, built from frames of its commits.
//!
//! | item | what it is |
//! |---|---|
//! | `export`, `ExportFault` | the frames of commits, as bytes; why there are none |
//! | `export_kept`, `export_since` | the same for commits that a domain keeps, by their operations: all frames, and those from a commit on |
//! | `export_on`, `NextFrame` | the frames from a commit on, with any first number: they continue a stream over epochs |
//! | `snapshot_of` | one frame with all rows of a commit's trees: a stream may begin with it |
//! | `Follower` | takes such bytes in pieces, and has the trees of the last complete commit; a contract sees its schema and its state |
//! | `FollowFault` | why a stream is refused |
//! | `Frame`, `Front` | a frame; the frame at the front of bytes |
//! | `laws`, `examples` | functions that do nothing, each with a law or a worked example as its contract |
//!
//! `specs/Frames` defines the frame of a text, `specs/Written` the text of a frame, `specs/Framed` the frames of commits, and
//! `specs/Stream` the state after bytes: byte by byte, so the split into pieces does not matter. `laws::streams_are_followed` joins them: a
//! follower of a stream, in any pieces, has the leader's trees.
//!
//! ```
//! let bytes = export_kept(alloc, &schema, &domain.commits)?;
//! let mut follower = Follower::new(alloc, schema, patterns)?;
//! let commit = follower.feed(bytes.items())?;
//! let tree = follower.tree(Store::Config);
//! ```
//!
//! | call | cost |
//! |---|---|
//! | `export_kept`, `export_since`, `export_on` | frame 0: all rows of the opening; each other one: `changes_by` of `sal_delta`, and its text |
//! | `export` | the same with `changes` for a commit: all children of each changed node, so all entries of a list with a changed entry |
//! | `snapshot_of`, `Follower::snapshot` | all rows of both trees, and their text |
//! | `Follower::feed` | a few looks at each byte, in any pieces; and for each row of a frame: |
//! | | a copy, that of `RowTree::with_cell` (`sal_rowtree`), and the checks of `sal_near` |
//! | `Follower::version`, `tree`, `waiting` | constant |
//! | `Follower::rows`, `into_device` | a copy of the rows of one tree, of both |
//!
//! A frame makes new trees, which share what it does not change with those before: so there is nothing to undo if memory runs out, or if its trees are
//! refused.
//!
//! A sender can make a follower keep one frame of 16,777,226 bytes, and no more: the head of a longer one is refused. `serde_json`
//! parses the text, and bounds its nesting.
#![tactic(auto)]

mod commits;
pub mod examples;
mod exports;
mod fault;
mod follower;
mod frame;
mod front;
mod head;
pub mod laws;
mod members;
mod next;
mod reader;
mod state;
mod trees;
mod writer;

pub use exports::{export, export_kept, export_on, export_since, snapshot_of};
pub use fault::{ExportFault, FollowFault};
pub use follower::Follower;
pub use frame::Frame;
pub use front::Front;
pub use next::NextFrame;
