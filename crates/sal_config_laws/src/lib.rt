//! No committed configuration has state data: transactions that were not refused give a configuration without state data from one without.
//!
//! | item | what it is |
//! |---|---|
//! | `laws` | functions that do nothing, each with a law of the definitions as its contract |
//!
//! A row is state data if its path is one of a state node (`is_of_state` in `crates/sal_schema/specs/Fitting.antt`). A write of such a row into the
//! configuration is refused as `NotConfig`. `specs/Configurations` defines which rows are a configuration, and states the laws.
//!
//! ```
//! laws::configurations_have_no_state();
//! ```
//!
//! Costs: none, since nothing here runs.
#![tactic(auto)]

pub mod laws;
