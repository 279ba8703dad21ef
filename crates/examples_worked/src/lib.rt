//! Worked examples of definitions in lower crates, each proved by computation.
//!
//! | item | content |
//! |---|---|
//! | `statements` | texts of YANG and their statements, or their first fault |
//! | `ranges` | texts of ranges |
//! | `modules` | look-ups in modules |
//! | `tables` | tables of a schema, and others |
//! | `paths`, `nodes`, `operations` | paths, nodes, rows and operations |
//! | `values` | values as they are kept, and entries that lack a row |
//! | `boxes` | a box with a leaf of each type |
//! | `scripts` | bytes that are no script |
//! | `replies` | replies that no script has, as text |
//!
//! A function does nothing: its contract is the examples. By the contracts of the calls (`read_module`, `read_ranges`, `Modules::stmt`,
//! `is_table`, `Path::cmp`, `Node::with_child`, `Mod::covered`, `read_data`, `read_script`, `report`) these return what the definitions give.
//!
//! ```
//! statements::texts_have_faults();
//! ```
//!
//! Costs: none, since nothing here runs.
#![tactic(auto)]

pub mod boxes;
pub mod modules;
pub mod nodes;
pub mod operations;
pub mod paths;
pub mod ranges;
pub mod replies;
pub mod scripts;
pub mod statements;
pub mod tables;
pub mod values;
