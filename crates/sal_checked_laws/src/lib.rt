//! The submissions of clients that read: laws of scripts with checked reads.
//!
//! `specs/Submitted` defines the steps of a client between the begin of a transaction and its submission, while other clients add entries.
//! `laws` joins that with the law of logs (`sal_history_laws`): each read of the client has the same result over the trees
//! just before the commit. No code runs.
#![tactic(auto)]

pub mod laws;
