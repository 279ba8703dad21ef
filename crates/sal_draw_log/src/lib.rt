//! The picture of a log: how the clients of a broker affect each other, for an application without a script.
//!
//! | item | what it is |
//! |---|---|
//! | `draw_log` | the picture of a log with its outcomes, as Scalable Vector Graphics: a lane for each seat, a row for each entry |
//!
//! A row has the call's word and its numbers, and its reply. `specs/Drawn` defines what is shown: the bases of transactions, chains and submissions,
//! each commit at the entry that decided it, each conflict's line from the commit that it names, mounts and marks. Columns are for domain 0 and the
//! mounted ones. Paths, values, batches, and the replies of services are not shown; their entries have rows.
//!
//! ```
//! let text = draw_log(alloc, hub.domains().len() as u32, hub.log(), hub.outcomes())?;
//! ```
//!
//! Cost: that of `retell` of `sal_retell`; for each entry its row, and a look at the seats.
#![tactic(auto)]

mod picture;
mod scenes;
mod words;

pub use picture::draw_log;
