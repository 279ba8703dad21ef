//! The input and the result of a search for conflicts.
use crate::outcome::ClashKind;

/// The version rules of a domain: which later commits are a conflict.
#[derive(Clone, Copy, Debug, PartialEq, Eq)]
pub enum Rules {
    /// A put and a delete check their own path, a put and a merge the parents above it.
    One,
    /// A merge also checks each leaf that it names, and conflicts if the leaf's value differs.
    Two,
}

/// A range of commit numbers: those after `from`, up to and including `to`.
#[derive(Clone, Copy)]
pub struct Span {
    pub from: u64,
    pub to: u64,
}

/// A conflict: of the operation at index `op`, with the commit of this number. Its place is a prefix of `depth` steps: of the path
/// of the row at index `row` of the operation's data, if there is one, and else of the operation's path.
#[derive(Clone, Copy)]
pub struct Clash {
    pub op: usize,
    pub row: Option<usize>,
    pub depth: usize,
    pub kind: ClashKind,
    pub commit: u64,
}
