//! Laws of whole logs. Trees stay closed by their schema: transactions that were not refused give closed trees from closed trees. And
//! runs with checked reads are serialisable.
//!
//! | item | what it is |
//! |---|---|
//! | `laws` | functions that do nothing, each with a law of closed trees as its contract |
//! | `serial` | the same, with the laws of checked reads |
//!
//! A tree is closed by a table (`is_closed` in `crates/sal_schema/specs/Fitting.antt`) if the path and the cell of each row
//! fit, no row is part of an RPC or a notification, each list entry and presence container above a row has its own row, and
//! each entry has its key leafs, with the values of its keys. `specs/` defines which operations are lawful over a base (`Lawful`),
//! and states the laws (`Laws`).
//!
//! ```
//! laws::without_conflict_a_newer_tree_stays_closed();
//! ```
//!
//! A transaction is checked over its base, and applied to the newest trees, in which a parent of one of its paths may be missing. So
//! the second law depends on the first test of a conflict, which looks for lost parents.
//!
//! A log is serialisable (`specs/Serial`) if its done transactions, applied one after another in the order of their
//! commits, read what they read in the log and give the same trees. Each log is, for the reads that were recorded among the operations;
//! in mode `Checked` each read is. A transaction that only reads and follows no pending submission reads the trees at one commit.
//! Each write that was accepted would be accepted in that order too. A write that was refused for a missing parent recorded a read of
//! that parent, so it is missing there too; but the refusal may name a parent further out there, if that was deleted meanwhile.
//!
//! Costs: none, since nothing here runs.
#![tactic(auto)]

pub mod laws;
pub mod serial;
