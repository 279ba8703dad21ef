//! A leader and its stand-by: a broker in another program whose commits become streams of frames, one for each domain, and followers of such streams
//! that can become the broker.
//!
//! | item | what it is |
//! |---|---|
//! | `Leader` | a broker with the numbers of its commits in streams: `frames`, `snapshot`, `next_epoch`, `number`, `present`, `entries_left` |
//! | `Bases` | the numbers with which its streams begin |
//! | `StandBy`, `Beside` | followers of the domains of a script: `open`, `feed`, `number`, `snapshot`, `lead`; one of them |
//! | `Leader::look`, `StandBy::look`, `Place`, `LookFault` | a read in a newest tree, without a step |
//! | `has_domain` | whether there is a domain of a number, as each call of a domain requires |
//! | `FramesFault`, `EpochFault`, `LeadFault` | why there are no frames; why an epoch does not begin; why a stand-by does not lead |
//! | `laws` | a function that does nothing, with a law as its contract: a stand-by holds its leader's trees |
//!
//! Domain 0 is the controller's own; the devices have the numbers from 1 on, as in the script.
//!
//! Cost: that of the calls of `sal_resume`, `sal_follow` and `sal_embed`. `StandBy::lead` copies the rows of all trees, makes the readers of the
//! versions from its own on, and opens a hub; the stand-by stays as it was.
#![tactic(auto)]

mod bases;
mod beside;
mod epoch;
mod fault;
pub mod laws;
mod leader;
mod leading;
mod look;
mod numbers;
mod standby;

pub use bases::Bases;
pub use beside::Beside;
pub use fault::{EpochFault, FramesFault};
pub use leader::Leader;
pub use look::{LookFault, Place};
pub use standby::{LeadFault, StandBy, Standing};
