//! Whether a table is the table of a schema: the test for tables that come from elsewhere. No library of the repository needs it, since
//! `build` of `sal_build` proves that the table of modules is one; `tests_broker` makes its schemas by it.
//!
//! | item | what it is |
//! |---|---|
//! | `is_table` | whether a table is the table of a schema: exactly if `IsTable` of `sal_schema` holds |
//! | `schema_of` | the schema of a table, or that it is not the table of one |
//! | `TableFault` | why a table gives no schema: it is not the table of one, or memory ran out |
//!
//! `sal_schema` defines in `specs/Valid` when a table is one of a schema: its numbers exist, each node is below a
//! node that can have it, types are where they belong, keys and unique leafs are those of their lists, no identity is derived
//! from itself, no union has a union in it, and each name has one meaning. `specs/` here has the test as one value for a table
//! (`Whole`) and the names by which duplicates are found (`Keys`). The result does not say which rule a table breaks.
//!
//! ```
//! match schema_of(alloc, table) {
//!     Ok(schema) => serve(&schema),
//!     Err(TableFault::NotATable) => refuse(),
//!     Err(TableFault::NoMemory) => give_up(),
//! }
//! ```
//!
//! | call | cost, for n nodes |
//! |---|---|
//! | `is_table` | n log n comparisons of names, and k log k for k keys of a list or k names of an enumeration or of bits; a walk up from |
//! | | each data node through its choices and cases, and from each unique leaf to its list; a copy of each name, of one kind at a time |
//! | `schema_of` | that, and the cost of `Schema::from_table` |
//!
//! So a table that is made to be slow, such as one chain of choices and cases above many leafs, costs the product of the two.
//! Recursion is no deeper than the types of a union.
#![tactic(auto)]

mod climb;
mod distinct;
mod fault;
mod identity;
mod kind;
mod lists;
mod names;
mod node;
mod types;
mod whole;
mod words;

pub use fault::TableFault;
pub use whole::{is_table, schema_of};
