//! The scene of a played script: its entries in the order of the log, and above each the local steps that its client did before.
//!
//! | item | what it is |
//! |---|---|
//! | `Play` | a played script: the steps of its clients, their replies, and the log |
//! | `Ground` | the schemas of the domains, and the commits by receipt |
//! | `scene_of` | the scene of a play, for the entries of a `Range` |
//!
//! `specs/Steps` defines a step as text, `specs/Labels` its label, and `specs/Rows` the rows.
//!
//! ```
//! let range = Range { from: 0, to: 1000000 };
//! let scene = scene_of(alloc, ground, domains, range, play)?;
//! ```
//!
//! Cost: linear in the texts of the steps and replies.
#![tactic(auto)]

mod floats;
mod pieces;
pub mod rows;
mod steps;
mod texts;

pub use rows::{Ground, Play, Range, scene_of};
