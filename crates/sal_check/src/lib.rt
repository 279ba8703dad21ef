//! Structural rules of a tree: mandatory nodes, the fewest and the most entries, unique leafs, and the cases of a choice.
//!
//! | item | what it is |
//! |---|---|
//! | `check_all` | the breach of a whole tree that is reported: the one with the smallest path, then the smallest rule, then the smallest node |
//! | `check_by` | the same, with a `Plan` |
//! | `check_near` | the same, for a tree that was made from one without a breach by a change with known stamps |
//! | `Plan` | a schema, with the nodes that state a rule and are checked at each place |
//! | `Breach`, `Rule` | a rule that is broken, with its node, and where |
//!
//! The definitions are those of `sal_rules` over plain rows. `specs/` defines how the walk over a tree of nodes finds the same
//! breaches (`Nodes`, `Uniques`, `Paths`), and what a change can break (`Near`). `laws` has that a rule breaks only if a row
//! below its place changed.
//!
//! ```
//! match check_all(alloc, &schema, Store::Config, &root)? {
//!     None => publish(root),
//!     Some(breach) => refuse(breach.path, breach.rule),
//! }
//! ```
//!
//! | call | cost, for a schema of s nodes and a tree of n |
//! |---|---|
//! | `Plan::of` | a look at each schema node, two climbs for each that states a rule, and a list of numbers for each node |
//! | `check_all` | that of a plan; if the schema states a rule, one look at each node and a list of references to its children; one more look |
//! | | at the entries of a list for each stated count; for each `unique` of a list of m entries m log m comparisons and a set of m references |
//! | `check_by` | the same without the plan |
//! | `check_near` | nothing if the schema states no rule; a look at each node with a new stamp, and at the pages of its children that have one; |
//! | | for each count of a changed list one look at its entries; for each `unique` of such a list the leafs of the entries with a new |
//! | | stamp, and, only if some of these leafs changed, one look at the entries |
//!
//! No row is copied. A recursion is at most 32 steps deep over the tree, and as deep as choices and cases are nested.
#![tactic(auto)]

mod breach;
mod changed;
mod check;
mod climb;
mod entries;
mod fresh;
pub mod laws;
mod lists;
mod plan;
mod rules;
pub mod spot;
mod trail;
mod unique;
mod walk;

pub use check::{check_all, check_by, check_near};
pub use plan::Plan;
pub use sal_rows::{Breach, Rule};
