//! Whether patched rows are closed and without state data, by checks near the patches.
//!
//! | item | what it is |
//! |---|---|
//! | `are_near` | whether patched rows are closed, if they were before |
//! | `leave_state` | whether patched rows have state data, if they had none before |
//! | `laws` | functions that do nothing; their contracts say that both tests are exact |
//!
//! `specs/Near` defines both tests. A tree is closed if each list entry and presence container above a row has its own row, and an entry its key
//! leafs (`is_closed` of `sal_schema`). Patches change only the cells at their own paths. So only the entries and presence containers at
//! the paths of patches, and above them, can cease to be whole.
//!
//! ```
//! let after = rows.with_cell(alloc, &patch.path, &patch.cell)?;
//! let closed = are_near(&schema, &after, &[patch]);
//! ```
//!
//! Costs: the rows are in a tree (`sal_rowtree`). For each entry and presence container above a patch, one look-up of its row and one of each key
//! leaf; those above the patch before it are skipped. If one is not whole, one look-up more, for a row below it. Neither call takes memory.
#![tactic(auto)]

pub mod laws;
mod near;
mod state;
mod whole;

pub use near::are_near;
pub use state::leave_state;
