//! The replies of a log, from its entries and the outcomes of its submissions, without data.
//!
//! | item | what it is |
//! |---|---|
//! | `retell`, `Retold` | the replies to the entries of a log, and the base of each submission |
//!
//! A log has no replies; they follow from the data of all transactions (`sal_history`). If the outcomes of the submissions are known, most other
//! replies need no data: the bases of transactions, receipts, chains, the results of settles and pumps, mounts and marks
//! (`specs/Told`). The replies to calls of listeners, of RPCs and notifications, and to upgrades are left out.
//!
//! ```
//! let retold = retell(alloc, domains, hub.log(), hub.outcomes())?;
//! ```
//!
//! Cost: for a begin, a look at each submission; for a submit, a cancel or the begin of a chain's transaction, a look at each entry of its kind
//! before.
#![tactic(auto)]

mod answers;
mod front;
mod queries;
mod retold;
mod services;

pub use front::Footing;
pub use retold::{Retold, retell};
