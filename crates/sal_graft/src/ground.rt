//! The input of a search for conflicts.
use sal_rows::{Rules, Span};
use sal_tree::{Commit, Pair};

/// The base trees of a transaction, the spans after them without its own chain, the commits of its domain from the opening to the
/// newest, and the version rules.
#[derive(Clone, Copy)]
pub(crate) struct Ground<'a> {
    pub base: &'a Pair,
    pub spans: &'a [Span],
    pub commits: &'a [Commit],
    pub rules: Rules,
}
