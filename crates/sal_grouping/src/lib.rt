//! The tree of nodes of modules, with groupings and augments applied.
//!
//! | item | what it is |
//! |---|---|
//! | `expand` | the nodes of modules, numbered, or the first fault of their names, their number, their augments or their children |
//! | `Forest` | the nodes, seen as their list by number |
//! | `Branch` | a node: its parent, its module, and the offset of its statement |
//! | `first_growth`, `next_growth` | the nodes of the first version of modules, and of a later version, after those of the earlier one |
//! | `Growth`, `Node` | the nodes of a version, each with its statement: the start of a later version |
//! | `Implied` | the kind of a node without a statement: a case, an input or an output |
//! | `ranking`, `reaches` | whether a path along named edges leads from one number to another |
//! | `examples` | worked examples, as laws |
//!
//! The relevant statements of all modules are in one list, and the index there is a statement's number
//! (`specs/Rows.antt`). Look-ups of groupings start at the block of a `uses` and go outwards (`specs/Groupings.antt`). Names
//! are checked before the tree grows (`specs/Names.antt`). The tree grows depth first in the order of the text
//! (`specs/Growth.antt`), augments are applied in rounds (`specs/Augments.antt`), and the names of children are
//! checked last (`specs/Children.antt`). `specs/Expand.antt` puts these parts in order. `specs/Versions.antt` defines the
//! nodes of a later version of modules: those of the earlier one keep their numbers.
//!
//! ```
//! let module = read_module(alloc, "module m { namespace 'urn:m'; prefix p; choice c { leaf a { type string; } } }")?;
//! let modules = check(alloc, &[module])?;
//! let forest = expand(alloc, &modules)?;  // the choice, the case of the leaf, the leaf
//! ```
//!
//! Cost: names, growth and the names of children take time linear in the statements and the nodes, times the logarithm of the
//! indexes; for a node in choices, the search goes up to the data node above them.
//! Growth ends past 65,536 nodes, and groupings without nodes are skipped, so groupings that use one another twice end
//! quickly. A cycle of groupings costs, for each `uses` that reaches a cycle, the time of all of them for each
//! step of the longest path. An augment looks through all nodes for each step of its path, and is tried once a round: as many
//! rounds as augments, if each waits for the next one. Recursion is no deeper than the blocks of the text.
//! `next_growth` makes its indexes for all modules again; it adds only the new modules and their augments.
#![tactic(auto)]

mod augments;
mod children;
mod forest;
mod grow;
mod index;
mod look_up;
mod names;
mod node;
mod nodes;
mod plan;
mod reach;
mod rows;
mod tables;
mod trees;
mod vectors;
mod versions;
mod whole;

pub use forest::{Branch, Forest, Implied};
pub use look_up::local_name;
pub use node::Node;
pub use reach::{ranking, reaches};
pub use versions::{Growth, first_growth, next_growth};
pub use whole::expand;
