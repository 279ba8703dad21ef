//! The schema of YANG modules (RFC 7950), and laws: the table of modules is the table of a schema.
//!
//! | item | what it is |
//! |---|---|
//! | `build` | the schema of modules, or their first fault |
//! | `build_owned` | the same for statements that it then owns |
//! | `build_first`, `build_on` | the first version of modules, and the next one, in which all numbers stay |
//! | `SchemaVersion` | a version: its schema, and the nodes with which the next version begins |
//! | `laws` | functions that do nothing, each with a law as its contract |
//!
//! Each law says that a part of `IsTable` holds for the table of all statements that have one by the definition `build` of `sal_module_table`, or of
//! those that are read from texts (`specs/Readable`); `specs/Laws` has them. `tables_are_tables` joins them, and so
//! `build` needs no test of the table.
//!
//! ```
//! let schema = build(alloc, &stmts)?;
//! let text = schema.text(alloc)?; // a line for each node
//! let first = build_first(alloc, &stmts[..1])?;
//! let second = build_on(alloc, &stmts, &first, 1)?; // second.schema.extends(&first.schema)
//! ```
//!
//! Costs: `build` costs what `table_of_modules` of `sal_module_table` and `Schema::from_table` cost. `build_on` costs that for all
//! statements, a second tree of nodes and a copy of both tables; a version has 32 bytes a node beside its schema. A law costs nothing.
#![tactic(auto)]

pub mod laws;
mod schema;
mod versions;

pub use schema::{build, build_owned};
pub use versions::{SchemaVersion, build_first, build_on};
