//! How the clients of a log affect each other: what each entry of a log shows in addition to its texts.
//!
//! | item | what it is |
//! |---|---|
//! | `Track`, `Said` | along a log, the pins and the lines of each entry (`Act` of `sal_shapes`) |
//! | `call_style` | how a shared call looks |
//!
//! `specs/Acts` defines what an entry shows: a point for each commit that it decided; lines from the base of a transaction, from the commit that a
//! conflict names, from those of a batch, from a request to the client that took it.
//!
//! ```
//! let acts = track.acts(alloc, &made, place, Said { call, reply })?;
//! track.note(Said { call, reply })?;
//! ```
//!
//! Cost: an entry costs time linear in what it shows, a look-up among the kinds of notifications for an offer, and for a take of notifications, of which
//! at most 64 wait, such a look-up and a look at the others for each.
#![tactic(auto)]

pub mod acts;
pub mod examples;
mod looks;

pub use acts::{Said, Track};
pub use looks::call_style;
