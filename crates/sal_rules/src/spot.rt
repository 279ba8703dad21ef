//! The schema node of a place of a tree.

/// The node of a place, none at the root, and whether the keys or the value of an entry must follow.
#[derive(Clone, Copy, Debug, PartialEq, Eq)]
pub struct Spot {
    pub node: Option<u32>,
    pub wants_entry: bool,
}
