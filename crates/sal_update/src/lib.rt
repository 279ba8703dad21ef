//! A transaction that begins again after a conflict: the loop that each application of the broker needs.
//!
//! | item | what it is |
//! |---|---|
//! | `Work` | what a transaction is to do: the application's part |
//! | `Tries` | its domain and mode, and how often it begins again at most |
//! | `update` | begin, the work, submit, settle; again after a conflict |
//! | `UpdateFault` | where an update ended without an outcome |
//!
//! `specs/Updates` defines an update (`IsUpdate`): tries one after another, each but the last ended in a conflict, and the last with its result.
//!
//! ```
//! let tries = Tries { domain: 0, mode: Mode::Rw, again: 100 };
//! match update(&sal, rt, alloc, &mut seat, tries, &mut work) {
//!     Ok(outcome) => ..,
//!     Err(UpdateFault::Settle { receipt, fault }) => ..,
//! }
//! ```
//!
//! Each try costs three calls of `Sal` and the work. The log has three entries more for each try that ended in an outcome.
#![tactic(auto)]

mod retry;

pub use retry::{Tries, UpdateFault, Work, update};
