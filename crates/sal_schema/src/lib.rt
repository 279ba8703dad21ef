//! A schema: the nodes, types and identities of YANG modules as a table, with the look-ups of a data store.
//!
//! | item | what it is |
//! |---|---|
//! | `Schema` | a schema; a contract sees it as its table |
//! | `SchemaTable`, `NodeInfo`, `IdentityInfo` | the table as data: nodes, types, modules and identities by their numbers |
//! | `Kind` | the kind of a node: a container, a list, a leaf-list, a leaf, a choice, a case, or a part of an RPC or notification |
//! | `Leafs` | a list of numbers |
//! | `lookups` | a node's module, type, keys, name and kind by its number; none for a number without a node |
//! | `table_on` | the table of a later version: an older table, extended by the new lines of another one |
//! | `empty_lists`, `add_to_list` | lists of numbers, one for each place |
//! | `laws` | laws of versions |
//!
//! `specs/` defines the properties of a node (`Table`) and the meaning of a name (`Names`), which tables are tables of a schema
//! (`Valid`), which values are of a type (`Values`), which paths and rows fit (`Paths`, `Fitting`), the table's text
//! (`Text`), and which table is a later version of another (`Versions`). Each look-up returns what these definitions give;
//! `Schema::len` says that the table is one of a schema.
//!
//! ```
//! let schema = Schema::from_table(alloc, table)?;
//! let network = schema.child(None, "topo", "network");
//! let fits = schema.fits(&path);
//! let text = schema.text(alloc)?;
//! let later = newer.extends(&schema);     // all numbers of `schema` mean the same in `newer`
//! ```
//!
//! | call | cost, for n nodes |
//! |---|---|
//! | `Schema::from_table` | n log n comparisons of names; a copy of each name of a node for data, and a list for each node |
//! | a look-up by number, `children`, those of `lookups` | constant; `push_full_name` is linear in the names |
//! | `child`, `rpc`, `notification`, `identity` | a binary search among the modules, and one among the names of its kind |
//! | `is_derived`, `fits` | linear in the identities from which the identity is derived; in the steps and their values |
//! | `text` | linear in the text |
//! | `extends`, `table_on` | linear in the older table; in both tables |
//!
//! Only `from_table`, `text` and `table_on` take memory. Recursion is no deeper than the types of a union.
#![tactic(auto)]

mod ends;
mod examples;
mod fitting;
mod indexes;
mod kind;
pub mod laws;
mod lists;
pub mod lookups;
mod names;
mod parts;
mod schema;
mod table;
mod text;
mod values;
mod versions;

pub use kind::Kind;
pub use lists::{add_to_list, empty_lists};
pub use schema::Schema;
pub use table::{IdentityInfo, Leafs, NodeInfo, SchemaTable};
pub use versions::table_on;
