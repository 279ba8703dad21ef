//! The plain values of the data broker: the parts of a tree's rows, with their orders.
//!
//! | type | what it is |
//! |---|---|
//! | `Store` | which of a domain's two trees: configuration or operational |
//! | `Atom`, `Value` | the value of a leaf; the same with the index of its member type in a union |
//! | `Step`, `Path` | one step of a path; a path, of at most 32 steps |
//! | `Cell`, `Row` | the content of a path: a mark or a leaf's value; a cell at its path |
//! | `Seq`, `Str`, `Bytes` | a list, a text and bytes, as fields of larger types |
//! | `Shared`, `Keys` | a value with several owners, whose copy takes no memory; the key values of a list entry |
//! | `append`, `push_word` | append an item to a list, a text to a text |
//! | `all_digits`, `characters`, `has_byte` | small functions on texts |
//! | `Counts` | a count for each client, 0 at first |
//! | `front`, `tail` | the part of a text before an ASCII byte, and the part after one |
//! | `NoMemory`, `Duplicate` | memory ran out; a value that can be copied |
//! | `Exact` | an order in which `Equal` means the same value |
//!
//! Errors show a place by `Display`: `/3["eth0"]/7` is a path, with the numbers of its nodes and the values of its keys (`shown`).
//!
//! A contract sees `Seq`, `Str` and `Path` as lists, and `Shared` as its value. `specs/` defines the orders, the prefixes of a path, what a tree
//! is, and how readers chain their steps.
//!
//! ```
//! let mut path = Path::root(alloc);
//! path.push(Step::Node(0))?;
//! path.push(Step::Node(3))?;
//! ```
//!
//! Costs: a push is constant on average; a comparison and a prefix test are linear in the steps and texts, a copy in the steps.
#![tactic(auto)]

pub mod counts;
pub mod cuts;
pub mod exact;
pub mod memory;
pub mod path;
pub mod pushes;
pub mod row;
pub mod seq;
pub mod shared;
pub mod shown;
pub mod text;
pub mod value;
pub mod words;

pub use counts::Counts;
pub use cuts::{front, tail};
pub use exact::{Exact, is_same};
pub use memory::{Duplicate, NoMemory};
pub use path::{MAX_STEPS, Path, PathFault};
pub use pushes::append;
pub use row::Row;
pub use seq::Seq;
pub use shared::Shared;
pub use text::Str;
pub use value::{Atom, Bytes, Cell, Keys, Step, Store, Value};
pub use words::{all_digits, characters, has_byte, push_word};
