//! With which later commit a submission conflicts, by the stamps in the trees of the kept commits.
//!
//! `conflict` computes the clash of the definitions (`Clash` in `sal_rows`, with all its tests, by the version rules) over the trees of the
//! kept commits, which result from their operations applied to the opening (`AreKept`), each made from the one before it: what it
//! touched has the stamp of its receipt, and every other node is the same (`AreFollowing`). So a path is unchanged over a span exactly
//! if it is absent at both ends, or present at both with one stamp; and if it is present at the end, its stamp there
//! says which commit touched it last.
//!
//! `foreign_spans` computes the spans of the commits that may conflict with a submission (`Spans` in `sal_rows`): the ranges of
//! those after its base without the commits of its own chain. A submission without a chain has one span.
//!
//! ```
//! let spans = foreign_spans(alloc, 3, chain, &commits)?;
//! let found = conflict(&changes, &base, &spans, &commits, Rules::One);
//! ```
//!
//! | call | cost |
//! |---|---|
//! | `conflict`, for each put or delete that nothing covers | two searches for its path for each non-empty span, of any length; no memory |
//! | `conflict`, for each put and merge | one search in the base for each step above its path, and two in the newest tree if that finds a row |
//! | `conflict`, for each checked read that nothing covers | that of a put; without a read no second walk over the operations |
//! | `conflict` under version rules 2, for each leaf of a merge that nothing covers | one search in the base and one in the newest tree; no memory |
//! | the commit of a conflict, if its path is present at the end of the span | one search for the path, and one binary search for the receipt |
//! | the same, if the path is absent there | a backward search through the commits of the span, in the operations of each and their rows |
//! | `foreign_spans` | the list of the spans, and the chain of each commit after the base; without a chain one span, and no search |
#![tactic(auto)]

mod foreign;
mod ground;
mod leafs;
mod naming;
mod reads;
mod search;
mod span;
mod standing;
mod touched;

pub use foreign::foreign_spans;
pub use search::conflict;
