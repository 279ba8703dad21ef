//! The place that the reader of a path text has reached.

/// The place that the reader of a path text has reached: after the name of a node or the predicates of an entry, or at the root.
#[derive(Clone, Copy)]
pub(crate) struct Here {
    pub(crate) node: Option<u32>,
    /// The name of a list or leaf-list was read, and no predicate of it.
    pub(crate) wants_entry: bool,
    /// How many bytes are before the last name.
    pub(crate) name_at: usize,
}
