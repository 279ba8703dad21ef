//! How the trees of two commits differ at a path and below it.
//!
//! | call or type | what it is |
//! |---|---|
//! | `changes` | the paths at which two trees differ, each with both cells, in path order |
//! | `changes_by`, `StoreCommit` | the same for a commit, found by its operations |
//! | `kind_at` | how the node at the path itself changed |
//! | `Change`, `ChangeList`, `CandidateKind` | of `sal_rows`, whose specs define changes and kinds |
//!
//! Both calls require that nodes of one path and one stamp are equal in the two trees, as they are after a commit with new stamps
//! (`laws::a_commit_agrees`).
//!
//! ```
//! let list = changes(alloc, &before, &after, &path)?;
//! let kind = kind_at(&list, &path, own, &before, &after);
//! ```
//!
//! | call | cost |
//! |---|---|
//! | both, if nothing changed at or below the path | two searches for the path, no memory |
//! | `changes` | the stamps of all children of each changed node, from the path on; other nodes are skipped |
//! | `changes_by` | two searches for each row of a merge; for each put and delete `changes` at its path; n log n comparisons of the paths found |
//! | `kind_at` | two searches, no memory |
#![tactic(auto)]

pub mod commit;
mod compare;
pub mod find;
pub mod kind;
pub mod laws;
mod ordered;
mod walk;

pub use commit::{StoreCommit, changes_by};
pub use find::changes;
pub use kind::kind_at;
pub use sal_rows::{CandidateKind, Change, ChangeList};
