//! `export` and `follow` of the command: the commits of a script's own domain as frames, and the trees of a follower of such
//! frames.
//!
//! | call | what it is |
//! |---|---|
//! | `export_text` | plays a script in its order, and returns the frames of domain 0: of its opening and of each of its commits |
//! | `follow_text` | takes a script, a zero byte and a stream of frames, and returns the line of domain 0 with its trees at the last commit |
//! | `follow_stream` | the same by a schema, of a stream alone |
//!
//! `specs/Exports` and `specs/Follows` define the texts, over the definitions of frames and streams of `sal_follow`, and of
//! scripts and their play of `sal_prepare` and `sal_script`. The last version of the schema is used, so a log may have upgrades.
//!
//! ```
//! let frames = export_text(alloc, script)?;
//! // 00000041
//! // {"commit":0,"config":[],"operational":[]}
//! // ..
//! let line = follow_text(alloc, input)?;
//! // tree 0 1 {"plain:box":{"a":"x"}} {}
//! ```
//!
//! Cost: `export_text` costs what `sim` costs to play the script, and then for each commit its changes. It does not free the play,
//! since the process ends then: in a caller that continues, that memory stays allocated. `follow_text` feeds the stream in pieces of 4,096 bytes,
//! at the cost of `Follower::feed` for each, and copies both trees once at the end. Hostile streams are refused with their offset.
#![tactic(auto)]

mod export;
mod follow;
mod told;

pub use export::export_text;
pub use follow::{follow_stream, follow_text};
