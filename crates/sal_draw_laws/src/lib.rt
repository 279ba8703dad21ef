//! Laws of the pictures of all logs: the points of commits, and the lines of conflicts.
//!
//! | item | what it is |
//! |---|---|
//! | `laws` | functions that do nothing, each with a law as its contract |
//!
//! An entry that returns a conflict has one line of a conflict, from the commit that this names; another entry has none. An entry has the points of the
//! commits that it decides, and no other one; so a log has one for each receipt's commit (`specs/Laws`).
//!
//! ```
//! laws::commits_have_one_point();
//! ```
//!
//! Costs: none, since nothing here runs.
#![tactic(auto)]

pub mod laws;
