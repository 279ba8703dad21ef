//! Consequences of the contracts of a hub's calls.
//!
//! | item | what it is |
//! |---|---|
//! | `settle_again` | a settle, and one more if memory ran out: its clause is that of one settle |
//!
//! So a settle for which memory runs out leaves all pending receipts pending, and the next one with memory gives what the first would have
//! given. No crate calls it: its contract is the law.
//!
//! ```
//! let outcome = settle_again(alloc, &mut hub, client, receipt)?;
//! ```
//!
//! Cost: that of one settle, or of two.
#![tactic(auto)]

mod again;

pub use again::settle_again;
