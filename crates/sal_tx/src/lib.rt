//! Transactions on the two trees of a domain: they see their base with their own writes applied.
//!
//! | item | what it is |
//! |---|---|
//! | `ReadTx` | a transaction that reads its base |
//! | `WriteTx` | a transaction that writes, and reads unless its mode is write-only; a contract sees its parts, `Writing` |
//! | `Tx`, `Begun` | either of them; how a transaction began |
//! | `Submission` | a submitted transaction: base, operations, and the view if it was made |
//! | `edited` | a tree after one operation, as a decision makes it |
//! | `first_steps` | a prefix of a path |
//! | `TxFault` | why a read or a write is refused |
//!
//! `specs/` has the invariant of a transaction (`Views`): its view is its base with its operations applied, by rows and by stamps, and
//! each operation fits the schema and is not refused over the tree before it. `sal_rules` defines why a write is refused.
//!
//! The view is made when it is needed: by a read, by a second write, which is checked over it, or by the next transaction of a
//! chain. So a submitted transaction with a single put has none. Contracts do not see whether it was made.
//!
//! ```
//! let mut tx = WriteTx::open(alloc, begun, base, Mode::Rw)?;
//! tx.put(alloc, Store::Config, path, rows)?;
//! let own = tx.read(alloc, Store::Config, &top)?;
//! tx.delete(alloc, Store::Config, below)?;
//! let ops = tx.ops();
//! ```
//!
//! | call | cost |
//! |---|---|
//! | `ReadTx::open`, `WriteTx::open`, `into_submission` | constant, whatever the trees |
//! | `exists` | one search for each step; the first one after a first write makes the view; in mode `Checked` a search among the recorded reads |
//! | `read` | the same, and the rows that are read |
//! | `put`, `merge`, `delete` | a check of each row for state data, and one walk along the path; from the second one on the edit of the view |
//! | the view, `Submission::trees` without one | the edit of the tree by each operation |
//!
//! After a refusal, `NoMemory` included, a transaction is unchanged, except in mode `Checked`: there each read is an operation of
//! the transaction, and so is the look at a parent whose absence refused a write. Its submission is a conflict if a commit after the
//! base touched what it read. A path is recorded once, and not below a path that the transaction read, put or deleted before.
#![tactic(auto)]

mod begun;
mod refusal;
mod steps;
mod tx;
mod views;
mod writing;

pub use begun::Begun;
pub use sal_rules::TxFault;
pub use steps::first_steps;
pub use tx::{ReadTx, Submission, Tx, WriteTx};
pub use views::edited;
pub use writing::Writing;
