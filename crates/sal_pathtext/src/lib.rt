//! Paths as text, both ways.
//!
//! | item | what it is |
//! |---|---|
//! | `read_path` | the path that a text denotes in a schema, or the first fault with its place |
//! | `write_path` | the one spelling of a path |
//! | `PathTextFault` | why a text is no path |
//! | `laws` | functions that do nothing, each with laws of the two as its contract |
//!
//! `/` is the root. Another path is a slash and a name for each node, outermost first. The first name has its module, as
//! `topo:network`; a later one exactly if its module differs from that of its parent, as `geo:site`. An
//! entry of a list has its keys after the list's name, as `link[peer='b'][port='7']`, and one of a leaf-list its value, as
//! `seen[.='12']`. Keys are read in any order and written in key order. Without keys a list's name is the last one, and the path is
//! that of the whole list. Values are in single or double quotes, and in single quotes `''` denotes one; the text inside is a key text
//! of `sal_json`. Spaces and tabs are allowed inside the brackets around the key, the `=` and the value.
//!
//! `specs/` has the tokens of a text (`Words`), the nodes of names and the values that identify entries (`Nodes`), the path that a
//! text denotes (`Read`) and the text of a path (`Written`). The reader and the writer return what these definitions give,
//! unless memory runs out, and a path that is read fits the schema. The text of a path reads as this path
//! (`laws::written_paths_read`), and a path that was read, written and read again is the same path (`laws::read_paths_read_again`).
//!
//! ```
//! let patterns = Patterns::of(alloc, &schema)?;
//! let path = read_path(alloc, &schema, &patterns, "/topo:network/node[id='a']/geo:site")?;
//! let text = write_path(alloc, &schema, &path)?;
//! ```
//!
//! Costs: reading is linear in the text, with a binary search for each name and the cost of `read_text` for each value; for k
//! predicates of one entry there are k times k comparisons of numbers, and the keys of a list bound k. Writing is
//! linear in the text.
#![tactic(auto)]

mod examples;
mod fault;
mod given;
mod here;
pub mod laws;
mod nodes;
mod read;
mod reader;
mod words;
mod write;

pub use fault::PathTextFault;
pub use read::read_path;
pub use write::write_path;
