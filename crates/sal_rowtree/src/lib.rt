//! Rows that are kept as a tree, and changed by patches: for copies that follow the commits of a domain.
//!
//! | type | what it is |
//! |---|---|
//! | `RowTree` | rows in the nodes of a tree (`sal_tree`); a contract sees the rows |
//!
//! ```
//! let before = RowTree::from_rows(alloc, &rows)?;
//! let after = before.with_cell(alloc, &path, &Some(cell))?;
//! let rows = after.rows(alloc)?;
//! ```
//!
//! | call | cost |
//! |---|---|
//! | `RowTree::from_rows`, `RowTree::rows` | linear in the rows |
//! | `RowTree::with_cell` | for a cell that of `Root::merge` (`sal_tree`) for one row; for none that of `Root::put` with the rows below the path |
//! | `RowTree::cell_at`, `RowTree::has` | a binary search for each step of the path, no memory |
//! | a copy of a `RowTree` | one counter increment |
//!
//! A patch makes a new tree, which shares with the old one what it does not change: so there is no undo, and the order in which rows
//! come and go does not matter. Where a row goes whose rows below stay, these are put anew. Commits remove them too, so each row is put
//! at most as often as there are rows above it.
#![tactic(auto)]

pub mod row_tree;

pub use row_tree::RowTree;
