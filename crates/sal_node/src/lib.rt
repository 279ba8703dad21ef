//! Nodes of persistent trees: a stamp, a cell, and children in shared pages.
//!
//! | type | what it is |
//! |---|---|
//! | `Node` | a node with its stamp, its cell and its children; a contract sees it as a plain value, a `Tree` |
//! | `Paging` | its children: at most 64 alone, or in at most 64 pages, or in sheets of pages |
//! | `Sheet` | 1 to 64 pages of a node, in the order of their steps, and a bound on the stamps of their children |
//! | `Page` | 1 to 64 children of a node, in the order of their steps, and a bound on their stamps |
//! | `Child` | a child with the step that leads to it |
//! | `Builder` | builds a node from its children in order |
//!
//! A node is never changed: an edit makes a new node, which shares with the old one every sheet but one, every page but
//! one of that sheet, and every child but one of that page. Pages and children are behind an `Arc`, so nodes pass between threads. The pages
//! are not visible in contracts: two nodes are the same value if stamp, cell and children are, whatever their pages.
//!
//! ```
//! let leaf = Node::new(alloc, Some(Cell::Mark), 7);
//! let node = Node::new(alloc, None, 7);
//! let node = node.with_child(alloc, &Step::Node(3), Some(Arc::new(alloc, leaf)?), 7)?;
//! ```
//!
//! | call | cost for a node of `n` children |
//! |---|---|
//! | `Node::child` | three binary searches: among n / 4,096 sheets, 64 pages and 64 children |
//! | `Node::with_child` | that, a copy of one page and of one sheet, and of the list of sheets: n / 4,096 counter increments |
//! | `Node::with_cell` | a copy of the list of sheets, or of at most 64 pages |
//! | `Node::children` | a list of n references |
//! | `Node::children_with` | a look at each sheet, at the pages of those and at the children of those that may have one of the stamps |
//! | `Builder::push`, `Builder::finish` | constant on average |
//!
//! Children that are added in ascending order give full pages and sheets.
#![tactic(auto)]

pub mod builder;
pub mod edit;
pub mod node;
mod pages;
mod paging;
mod sheets;

pub use builder::Builder;
pub use edit::copy_cell;
pub use node::{Child, Node, Page, Paging, Sheet};
