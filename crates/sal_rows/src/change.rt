//! How a tree differs from the one before it.
use sal_types::{Cell, Path, Seq};

/// A path at which two trees differ, with the cells before and after, or none. They are `dataBefore` and `dataAfter` of MD-SAL's
/// `DataTreeCandidateNode`.
#[derive(Debug, Drop)]
pub struct Change {
    pub path: Path,
    pub before: Option<Cell>,
    pub after: Option<Cell>,
}

/// Changes, in the order of their paths.
pub type ChangeList = Seq<Change>;

/// How the node at a path changed from one tree to the next: the `ModificationType` of MD-SAL's `DataTreeCandidate`.
///
/// A leaf, an entry of a list or leaf-list and a presence container have their own row. Any other container, a whole
/// list and the root have none.
#[derive(Clone, Copy, Debug, PartialEq, Eq)]
pub enum CandidateKind {
    /// No change at or below the node.
    Unmodified,
    /// The node's own row was added, or its cell changed.
    Write,
    /// The node's own row was removed.
    Delete,
    /// Only rows below the node changed.
    SubtreeModified,
    /// A node without its own row was absent, and is present.
    Appeared,
    /// A node without its own row was present, and is absent.
    Disappeared,
}
