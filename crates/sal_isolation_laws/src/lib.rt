//! Snapshot isolation, and one history over epochs: laws of whole logs. Nothing here runs.
//!
//! | item | what it is |
//! |---|---|
//! | `laws` | functions that do nothing, each with a law as its contract |
//! | `examples` | worked examples of the definitions |
//!
//! A transaction reads one commit, with its own chain's submissions on top (`ReadsOneCommit` in `specs/Isolation`). Two done transactions of a domain
//! are concurrent if the later one did not see the earlier one (`AreConcurrent`). Then the later one puts or deletes no path at or below which the
//! earlier one left a change (`LeftNoChange`): what was made there and deleted again, before the later one was decided, is no change.
//!
//! Each epoch has a log of its own, over a world that begins with the newest trees of the epoch before (`specs/Epochs`). The done transactions of all
//! epochs are one serial history.
//!
//! ```
//! laws::transactions_read_one_commit();
//! laws::the_first_committer_wins();
//! laws::epochs_are_one_history();
//! ```
#![tactic(auto)]

pub mod examples;
pub mod laws;
