//! The last commit that touched a path.
ghost use Rattle.std.specs.Prelude.{◌≡◌, ◌≤◌, ◌<◌, ◌-◌, List, length, All, Some, slice_index_or};
ghost use Rattle.sal_types.specs.declared.value.Step.{Step as At};
ghost use Rattle.sal_types.specs.declared.value.Store.{Store as Of};
ghost use Rattle.sal_rows.specs.Clash as spec;
ghost use Rattle.sal_rows.specs.Commits as commits_spec;
ghost use Rattle.sal_node.specs.Tree.{Tree};
ghost use Rattle.sal_tree.specs.Grow.{at};
ghost use Rattle.sal_tree.specs.declared.commit.Commit.{Commit as Kept};
ghost use Rattle.sal_graft.specs.Following.{AreFollowing};
ghost use Rattle.sal_graft.specs.Kept.{AreKept, IsSpanOf, opening_in, ops_of, tree_in};

use crate::standing::node_at;
use crate::touched::is_touched;
use sal_rows::Span;
use sal_tree::{Commit, tree_of};
use sal_types::{Step, Store};

/// The last commit in the spans that touched the path.
pub(crate) fn last_touch_over(
    commits: &[Commit],
    spans: &[Span],
    store: Store,
    steps: &[Step],
) -> Option<u64>
    requires kept { AreKept commits.now }
    requires following { AreFollowing commits.now }
    requires spans { All (IsSpanOf commits.now) spans.now }
    ensures { result ≡ spec.last_touch_over (opening_in commits.now) (ops_of commits.now) spans.now store steps.now }
{
    for back in 0..spans.len() {
        let at = spans.len() - 1 - back;
        if let Some(number) = touch_in(commits, &spans[at], store, steps) {
            return Some(number);
        }
    }
    None
}

fn touch_in(commits: &[Commit], span: &Span, store: Store, steps: &[Step]) -> Option<u64>
    requires kept { AreKept commits.now }
    requires following { AreFollowing commits.now }
    requires span { IsSpanOf commits.now span.now }
    ensures { result ≡ commits_spec.last_touch (opening_in commits.now) (ops_of commits.now) store steps.now span.now }
{
    last_touch(commits, *span, store, steps)
}

/// The last commit in the span that touched the path: by the stamp of the node there at the end, or, if there is
/// none, by a backward search.
pub(crate) fn last_touch(
    commits: &[Commit],
    span: Span,
    store: Store,
    steps: &[Step],
) -> Option<u64>
    requires kept { AreKept commits.now }
    requires following { AreFollowing commits.now }
    requires span { IsSpanOf commits.now span }
    ensures { result ≡ commits_spec.last_touch (opening_in commits.now) (ops_of commits.now) store steps.now span }
{
    let after = tree_of(&commits[span.to as usize].trees, store);
    match node_at(after, steps) {
        Some(node) => giver(commits, span, node.stamp()),
        None => looked_back(commits, span, store, steps),
    }
}

// The commit in the span that made the stamp, if no earlier one did.
fn giver(commits: &[Commit], span: Span, stamp: u64) -> Option<u64>
    requires kept { AreKept commits.now }
    requires following { AreFollowing commits.now }
    requires span { IsSpanOf commits.now span }
    ensures { (c : Kept) (s : Of) (p : List At) (n : Tree) → c ≡ slice_index_or commits.now span.to c → at (Some (tree_in c.trees s)) p ≡ Some n → n.stamp ≡ stamp → result ≡ commits_spec.last_touch (opening_in commits.now) (ops_of commits.now) s p span }
{
    let number = first_from(commits, span, stamp / 2);
    if number == span.from {
        return None;
    }
    Some(number)
}

// The first commit from the start of the span on whose receipt is at least the limit, or the end of the span, by a binary search.
fn first_from(commits: &[Commit], span: Span, limit: u64) -> u64
    requires { IsSpanOf commits.now span }
    ensures low { span.from ≤ result }
    ensures high { result ≤ span.to }
    ensures before { (c : Kept) → span.from < result → c ≡ slice_index_or commits.now (result - 1) c → c.receipt < limit }
    ensures here { (c : Kept) → result < span.to → c ≡ slice_index_or commits.now result c → limit ≤ c.receipt }
{
    let mut low = span.from;
    let mut high = span.to;
    while low < high {
        let middle = low + (high - low) / 2;
        if commits[middle as usize].receipt < limit {
            low = middle + 1;
        } else {
            high = middle;
        }
    }
    low
}

// The last commit in the span that touched the path, from the end on.
fn looked_back(commits: &[Commit], span: Span, store: Store, steps: &[Step]) -> Option<u64>
    requires kept { AreKept commits.now }
    requires span { IsSpanOf commits.now span }
    ensures { result ≡ commits_spec.last_touch (opening_in commits.now) (ops_of commits.now) store steps.now span }
{
    for back in 0..span.to - span.from {
        let number = span.to - back;
        if touches_at(commits, number, store, steps) {
            return Some(number);
        }
    }
    None
}

// Whether the commit of this number touched the path.
fn touches_at(commits: &[Commit], number: u64, store: Store, steps: &[Step]) -> bool
    requires kept { AreKept commits.now }
    requires low { 1 ≤ number }
    requires high { number < length commits.now }
    ensures { result ≡ commits_spec.touches_at (opening_in commits.now) (ops_of commits.now) store steps.now number }
{
    let at = number as usize;
    let before = tree_of(&commits[at - 1].trees, store);
    is_touched(before, store, commits[at].ops.items(), steps)
}
