//! Nodes during growth.

use crate::forest::Implied;

/// A node with its statement.
#[derive(Clone, Copy)]
pub struct Node {
    /// The number of the node above it, or none at the top.
    pub parent: Option<u32>,
    /// The index of the module that it belongs to.
    pub module: u32,
    /// The number of its statement.
    pub row: usize,
    /// The kind of an implied node.
    pub implied: Option<Implied>,
}
