//! From YANG modules to the table of their schema (RFC 7950), or to the first fault.
//!
//! | item | what it is |
//! |---|---|
//! | `table_of_modules` | the table of modules, or their first fault |
//! | `table_of_owned` | the same for statements that it then owns |
//! | `first_version` | the same table with the nodes with which a later version begins |
//! | `next_version` | the table of a later version of modules, in which the numbers of the older one stay, or its first fault |
//! | `Version`, `Older` | a version, and the parts of the older version that the next one needs |
//! | `Key` | the key of a node: its parent, its module and its name |
//! | `examples` | worked examples, as laws |
//!
//! `specs/Build.antt` defines the table of modules, or their first fault. It joins the properties that a node has from its
//! statement (`Nodes`) and from its parent (`Inherited`), nodes by name (`Children`), keys and unique leafs (`Lists`), the
//! nodes of the table (`Table`), identities (`Identities`), type statements (`Types`), the targets of leafrefs (`Leafrefs`) and the
//! types of nodes (`Filled`). `Versions` has the first version of modules and the next one, `OldBases` the fault that only a later
//! version can have.
//!
//! ```
//! let table = table_of_modules(alloc, &stmts)?;
//! let nodes = table.nodes.items().len();
//! ```
//!
//! Cost: linear in the statements and the nodes, times the logarithm of the nodes, and in the types of the table. Each typedef is judged
//! once for each check, and what names it shares the result; leafrefs are looked for among all that a type depends on, and each identity
//! lists all from which it is derived; an augment's target is looked for along the tree, and augments in rounds.
//! Recursion is no deeper than the blocks, unless identities or leafrefs have a cycle.
//! `next_version` costs what `table_of_modules` costs for all statements, a second tree of nodes, and a copy of both tables.
#![tactic(auto)]

mod child;
mod circles;
mod derived;
mod fill;
mod gathered;
mod identities;
mod info;
mod inherited;
mod leafrefs;
mod lists;
mod node;
mod nodes;
mod old_bases;
mod order;
mod paths;
mod schema;
mod tables;
mod typed;
mod types;
mod vectors;
mod versions;
mod walk;
mod words;

pub use child::Key;
pub use schema::{table_of_modules, table_of_owned};
pub use versions::{Older, Version, first_version, next_version};
