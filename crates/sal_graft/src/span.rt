//! How a path differs over the commits in spans.
ghost use Rattle.std.specs.Prelude.{◌≡◌, ◌<◌, length, not, find, All, IfSome};
ghost use Rattle.sal_rows.specs.Commits as commits_spec;
ghost use Rattle.sal_rows.specs.Commits.{kind_by};
ghost use Rattle.sal_types.specs.Tree.{has};
ghost use Rattle.sal_graft.specs.Following.{AreFollowing};
ghost use Rattle.sal_graft.specs.Kept.{AreKept, IsSpanOf, opening_in, ops_of};

use crate::standing::{is_alike, stands};
use sal_rows::{ClashKind, Span};
use sal_tree::{Commit, Root, tree_of};
use sal_types::{Step, Store};

/// The first span over which the path is not unchanged.
pub(crate) fn changed_span(
    commits: &[Commit],
    spans: &[Span],
    store: Store,
    steps: &[Step],
) -> Option<Span>
    requires kept { AreKept commits.now }
    requires following { AreFollowing commits.now }
    requires spans { All (IsSpanOf commits.now) spans.now }
    ensures span { result ≡ find (λ span. not (commits_spec.is_unchanged (opening_in commits.now) (ops_of commits.now) store steps.now span)) spans.now }
    ensures kept { IfSome result (IsSpanOf commits.now) }
{
    for i in 0..spans.len() {
        let span = spans[i];
        if !is_unchanged(commits, span, store, steps) {
            return Some(span);
        }
    }
    None
}

// Whether the path is absent at both ends of the span, or present at both with one stamp. An empty span is unchanged
// without a look at a tree: between the commits of one chain most spans are empty.
fn is_unchanged(commits: &[Commit], span: Span, store: Store, steps: &[Step]) -> bool
    requires kept { AreKept commits.now }
    requires following { AreFollowing commits.now }
    requires span { IsSpanOf commits.now span }
    ensures { result ≡ commits_spec.is_unchanged (opening_in commits.now) (ops_of commits.now) store steps.now span }
{
    if span.from == span.to {
        return true;
    }
    let before = tree_of(&commits[span.from as usize].trees, store);
    let after = tree_of(&commits[span.to as usize].trees, store);
    // For the proof alone: `node` says that the trees are whole.
    let _ = before.node();
    let _ = after.node();
    is_alike(before, after, steps)
}

/// How the path differs at the ends of a span over which it is not unchanged.
pub(crate) fn kind_over(commits: &[Commit], span: Span, store: Store, steps: &[Step]) -> ClashKind
    requires kept { AreKept commits.now }
    requires span { IsSpanOf commits.now span }
    ensures { result ≡ commits_spec.kind_over (opening_in commits.now) (ops_of commits.now) store steps.now span }
{
    let was = stands_after(commits, span.from, store, steps);
    let is = stands_after(commits, span.to, store, steps);
    kind_by(was, is)
}

/// The kind of a difference, by whether the path was and is present.
pub(crate) fn kind_by(was: bool, is: bool) -> ClashKind
    ensures { result ≡ kind_by was is }
{
    if !was {
        ClashKind::Created
    } else if is {
        ClashKind::Changed
    } else {
        ClashKind::Deleted
    }
}

// Whether the path is present after the commit.
fn stands_after(commits: &[Commit], number: u64, store: Store, steps: &[Step]) -> bool
    requires kept { AreKept commits.now }
    requires number { number < length commits.now }
    ensures { result ≡ has (commits_spec.tree_at (opening_in commits.now) (ops_of commits.now) store number) steps.now }
{
    stands(tree_of(&commits[number as usize].trees, store), steps)
}
