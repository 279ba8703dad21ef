//! Persistent trees: rows as nodes that are shared from one tree to the next, with stamps.
//!
//! | type | what it is |
//! |---|---|
//! | `Root` | a tree of one store; a contract sees it as its root node, with `rows_of` and `at` |
//! | `Pair` | the two trees of a domain, configuration and operational |
//! | `Commit` | a commit of a domain: number, receipt, chain, operations, and the trees after it |
//!
//! `child_of`, `reached`, `is_present` and `have_same_stamp` are for walks from node to node; `longer` is the
//! path to a child.
//!
//! An edit makes a new tree, which shares every node that it does not touch. The nodes that it touches, by its rows or
//! by rows that were below them, have the stamp of the edit. So two trees of one history have one stamp at a path
//! exactly if no edit between them touched it (`is_alike`), and then the nodes there are the same.
//!
//! `specs/` defines the rows of a tree (`Rows`), the node at a path (`Grow`), what stamps say about touches (`Follows`,
//! `History`), which nodes may be a root (`Whole`), and what a graft is (`Graft`).
//!
//! ```
//! let start = Root::from_rows(alloc, &rows, 0)?;
//! let after = start.delete(alloc, &path, 7)?;
//! let left = after.rows(alloc, &Path::root(alloc))?;
//! ```
//!
//! | call | cost, for a path of d steps and lists of n entries on the way |
//! |---|---|
//! | `Root::get`, `Root::exists`, `is_alike` | d binary searches, no memory |
//! | `Root::delete`, `Root::put`, each row of `Root::merge` | d nodes, each with copies of a page, a sheet, and n / 4,096 references to sheets |
//! | the rows of `Root::put` | one node for each path, as for `Root::from_rows` |
//! | `Root::from_rows` | one node for each path, and d looks at each row |
//! | `Root::rows` | linear in the rows below the path |
//! | a copy of a `Root` or a `Pair` | one counter increment, whatever the size |
//!
//! A tree is at most 32 steps deep, and so are all recursions. The costs do not depend on the values, but a step with
//! long keys is copied and compared at their length.
#![tactic(auto)]

pub mod alike;
pub mod building;
pub mod commit;
pub mod edits;
pub mod examples;
mod growth;
pub mod listing;
pub mod reach;
pub mod root;
pub mod under;

pub use alike::is_alike;
pub use commit::{Commit, Pair, tree_of};
pub use listing::longer;
pub use reach::{child_of, have_same_stamp, is_present, reached};
pub use root::Root;
pub use under::lie_under;
