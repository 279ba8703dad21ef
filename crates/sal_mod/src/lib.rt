//! The operations of a transaction, in order, with look-ups by path.
//!
//! | type | what it is |
//! |---|---|
//! | `Mod` | the operations of a transaction; a contract sees it as their list |
//!
//! Up to eight operations are searched one by one. With more, there is also an index of the first put or delete at
//! each path, and of the first read, for each store. So `Mod::covered` and `Mod::knows` look up each of the at most 33 prefixes
//! of their path, and not each operation.
//!
//! ```
//! let mut changes = Mod::new(alloc);
//! changes.add(Op { store, path, act: Act::Delete })?;
//! let is_covered = changes.covered(Store::Config, &below, changes.ops().len());
//! ```
//!
//! | call | cost for n operations and a path of d steps |
//! |---|---|
//! | `Mod::add` | constant on average; beyond eight operations with a search in a tree of paths, and a copy of the path for a put, delete or read |
//! | `Mod::ops` | none |
//! | `Mod::share`, `Mod::shared` | a counter increment; a copy of the list by `shared` if `share` was not called |
//! | `Mod::has_reads` | none |
//! | `Mod::covered` | a look at each of up to eight operations, else d + 1 searches in a tree of at most n paths; no memory |
//! | `Mod::knows` | that of `Mod::covered`, and the same again if there is a read; no memory |
//!
//! A search compares some log n paths, in any order of insertion.
#![tactic(auto)]

pub mod changes;
mod covers;
mod firsts;
mod held;
mod places;

pub use changes::Mod;
