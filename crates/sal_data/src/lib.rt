//! Data of a schema as JSON (RFC 7951 sections 4 to 6).
//!
//! | item | what it is |
//! |---|---|
//! | `read_data` | the rows that a JSON value at a path denotes, in the order of their paths, or its first fault |
//! | `write_data` | the JSON value of the rows at a path and below it |
//! | `write_leaf` | the JSON value of a value of a leaf, or of an entry of a leaf-list |
//! | `fits_rows` | whether rows are data of the schema at a path |
//! | `DataFault` | why a JSON value denotes no rows, and where |
//! | `specs/Members` | the name of a member for each node, and the node of a name |
//! | `specs/Read`, `specs/Walked` | which rows and which first fault `read_data` returns; the parts of a reading that the code goes through |
//! | `specs/Written` | which JSON value `write_data` returns |
//! | `specs/Laws` | the statements of `laws`: which rows are whole, and that they read as they were written |
//! | `laws` | functions that do nothing, each with laws of the definitions as its contract |
//! | `examples` | laws, computed: the reading and writing of one tree, and faults of each kind |
//!
//! A container or an entry of a list is an object, a list or a leaf-list an array, and a leaf or an entry of a leaf-list a
//! scalar of `sal_json`. In the top object each name has its module, and below it a name has one if it differs from that
//! of its parent.
//!
//! The reader returns exactly what its definition gives, for any path and any JSON value, and the writer for any path and any
//! tree, unless memory runs out. `fits_rows` is the test `fits` of `sal_schema`'s `Fitting`.
//!
//! ```
//! let patterns = Patterns::of(alloc, &schema)?;
//! let rows = read_data(alloc, &schema, &patterns, &path, &json)?;
//! let json = write_data(alloc, &schema, &path, &rows)?;
//! ```
//!
//! Costs: `members` finds nodes by their names, `entries` the steps to entries, `walk` goes once through the value
//! and appends rows in the order of the text, and `order` sorts them by their paths. Rows already
//! in the order of their paths take two comparisons each; n others take n log n. In addition reading takes a binary search for
//! each name, and for each value the time of `read_scalar`. Entries in ascending order are compared with the one before
//! only, others by a search in a set (`seen`). Each node's path is a copy of its parent's with one more step, and
//! each entry's step is copied once more while its list is read. Recursion is no deeper than the value, and no deeper than a
//! path has steps. Only a fault looks for the name in other modules.
//!
//! Writing goes once through the rows for each step of their paths: `runs` splits them where the next step changes, and `write`
//! makes a member or an item of each run, without a copy of rows or paths. In addition it takes the time of `write_scalar` for
//! each value, and for each member a binary search among those of its object. Rows of the tree before and after those at
//! the path are skipped one by one. Recursion is as deep as a path has steps. `fits_rows` takes no memory: it goes once
//! through the rows, with a binary search for the row of each entry and presence container above them and for the
//! key leafs of an entry.
#![tactic(auto)]

mod cells;
mod ends;
mod entries;
mod examples;
mod fault;
mod fits;
pub mod laws;
mod members;
mod order;
mod read;
mod reader;
mod runs;
mod seen;
mod walk;
mod write;
mod written_names;

pub use cells::cell_at;
pub use fault::DataFault;
pub use fits::{fits_rows, is_whole_at, shared};
pub use read::read_data;
pub use write::{write_data, write_leaf};
