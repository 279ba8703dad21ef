//! The snapshots and batches of listeners.
use crate::change::{CandidateKind, ChangeList};
use crate::rows::Rows;
use sal_types::Seq;

/// The snapshot that a listener gets when it is opened: the rows at and below its path, and the number of the commit that they
/// are of.
#[derive(Debug, Drop)]
pub struct Opened {
    pub version: u64,
    pub rows: Rows,
}

/// A batch: for each commit after `from`, up to and including `to`, the changes at and below the listener's path. A commit
/// that changed nothing there has no part.
#[derive(Debug, Drop)]
pub struct Batch {
    pub from: u64,
    pub to: u64,
    pub lists: Seq<Part>,
}

/// The changes of one commit, and how the listened node itself changed.
#[derive(Debug, Drop)]
pub struct Part {
    pub commit: u64,
    pub kind: CandidateKind,
    pub list: ChangeList,
}
