//! The numbers of a load: the same in each order of its clients' calls.
//!
//! A load is four clients that put entries into one list, each its own, in a number of rounds (`sal_script`, `specs/Load`). `specs/Rounds`
//! defines a round and the effect of consecutive rounds: each is decided as the next commit, and adds an entry
//! of three rows with its number. `laws` has these facts as laws of the definitions. No code runs.
#![tactic(auto)]

pub mod examples;
pub mod laws;
