//! How many nodes a commit makes.
//!
//! | item | what it is |
//! |---|---|
//! | `laws` | a function that does nothing, with the law as its contract |
//!
//! A node of a commit's tree that has the commit's own stamp is on the path from the root to a row that the commit touches, the
//! row itself included, and these paths have at most 33 nodes for each row. So a commit makes no more new nodes than that, however
//! large the tree is (`specs/Way`).
//!
//! ```
//! laws::stamps_lie_on_the_way();
//! ```
//!
//! Costs: none, since nothing here runs.
#![tactic(auto)]

pub mod laws;
