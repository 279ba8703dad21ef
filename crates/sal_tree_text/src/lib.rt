//! The JSON text of a tree (RFC 7951), from its nodes, and counts over a tree, from its nodes too: without its rows.
//!
//! | item | what it is |
//! |---|---|
//! | `push_tree` | a space and the text of a tree, as a report has it |
//! | `tally_of`, `Tally` | how many rows a tree has, and the sum of its unsigned leafs of node 2 |
//!
//! | module | what it has |
//! |---|---|
//! | `trees` | the writer: objects, arrays and scalars, node by node |
//! | `members` | the children of a node in byte order of their members' names |
//! | `texts`, `pieces` | names, words and scalars as JSON text |
//! | `tally` | the count |
//!
//! The text is that of the definitions of `sal_script` for the rows of the tree, to the byte. `proofs/TreeRows` proves that the value of a tree by
//! its nodes (`specs/Trees`) is what `sal_data` writes for its rows.
//!
//! ```
//! let mut text = String::new(alloc);
//! push_tree(alloc, &mut text, &schema, &root)?;
//! // {"topo:network":{"node":[{"id":"a"}]}}
//! let tally = tally_of(alloc, &root)?;
//! ```
//!
//! Cost: linear in the text, with a list of the children of each node that is being written, which takes no memory for a node without
//! children. A member costs one comparison of names if the names of an object ascend as the nodes' numbers do; else its children go into a
//! map by name, in n log n comparisons for n children, with a copy of each name. Names and words are copied into the text as they are, if
//! they need no escape. An entry of a list with two leafs took 3,100 instructions, and 15,000 by its rows, their JSON value and the
//! text of that.
#![tactic(auto)]

mod members;
mod pieces;
mod tally;
mod texts;
mod trees;

pub use pieces::{push_string, push_value};
pub use tally::{Tally, tally_of};
pub use trees::push_tree;
