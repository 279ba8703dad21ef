//! The snapshots and batches of listeners, and a client's copy of the rows that it listens to, which it updates
//! by the batches.
//!
//! | call or type | what it is |
//! |---|---|
//! | `opened` | the rows at a path and below it, with the number of the newest commit |
//! | `batch`, `Listened` | the changes there of each commit after a number, up to the newest |
//! | `Opened`, `Batch`, `Part` | a snapshot, a batch and its parts, of `sal_rows` |
//! | `Mirror` | a copy of the rows at a path and below it, with the number of the commit that they are of |
//! | `MirrorFault` | why a batch was not taken: it begins at another commit, or memory ran out |
//!
//! ```
//! let mut mirror = Mirror::open(alloc, &opened(alloc, &commits, store, &path)?)?;
//! // later, when there are more commits
//! let listened = Listened { store, path: &path, own: schema.has_own_row(&path) };
//! mirror.take(alloc, &batch(alloc, &listened, &commits, mirror.version())?)?;
//! let rows = mirror.rows(alloc)?;
//! ```
//!
//! Commits are those that a domain keeps, each with its operations and the trees after it (`AreKept`), and each two
//! neighbours agree by their stamps (`AreAgreed`). A commit that changed nothing at or below the path has no part. The
//! batches of a listener omit no commit and repeat none (`laws::batches_leave_nothing_out`); applied to the rows
//! of its opening they give those at their end (`laws::batches_carry_the_opening`).
//!
//! After `take` the rows are those that are committed under the path at the batch's end, for any trees between: its
//! contract says so for every list of trees that has the rows before and the batch. A mirror refuses a batch that
//! begins at another commit than its own, so none can be omitted or taken twice.
//!
//! | call | cost |
//! |---|---|
//! | `opened` | a copy of the rows |
//! | `batch` | for each commit a look at two roots if its operations are of the other store; else that of `changes_by` (`sal_delta`) |
//! | `Mirror::open` | a tree of the rows |
//! | `Mirror::take` | for each change that of `RowTree::with_cell` (`sal_rowtree`) |
//! | `Mirror::rows` | a copy of the rows |
//! | `Mirror::version` | constant |
//!
//! In a list of 100,000 entries one changed leaf took 1.5 microseconds at the root, 0.6 at another entry and 0.06 in the other
//! store. 256 listeners went over 1,000 commits of one leaf each in 2
//! seconds if all listen at the root, and in 0.3 if each listens at an entry.
//!
//! A mirror has its rows in a tree: a batch makes a new one, which shares what did not change. So if memory runs out the mirror is
//! unchanged, and the order in which rows come and go does not matter.
#![tactic(auto)]

pub mod batches;
mod commits;
pub mod laws;
pub mod mirror;
pub mod opening;

pub use batches::{Listened, batch};
pub use mirror::{Mirror, MirrorFault};
pub use opening::opened;
pub use sal_rows::{Batch, Opened, Part};
