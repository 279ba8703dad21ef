//! Conflicts of a submission with the commits after its base, found by the stamps at the ends of their spans.
ghost use Rattle.std.specs.Prelude.{◌≡◌, ◌≤◌, ◌&&◌, [], IfSome, length, not, option_map, All};
ghost use Rattle.sal_rows.specs.PathClash.{difference, is_covered};
ghost use Rattle.sal_tree.specs.Rows.{rows_of};
ghost use Rattle.sal_rows.specs.Clash.{checks_leafs, clash, clash_from};
ghost use Rattle.sal_rows.specs.Clash as spec;
ghost use Rattle.sal_graft.specs.Following.{AreFollowing};
ghost use Rattle.sal_graft.specs.Rows.{conflict_at, is_lost_of, lost_depth};
ghost use Rattle.sal_graft.specs.Kept.{AreKept, IsSpanOf, opening_in, ops_of, rows_in};

use crate::ground::Ground;
use crate::leafs::leaf_clash;
use crate::naming::{last_touch, last_touch_over};
use crate::reads::reads_clash;
use crate::span::{changed_span, kind_over};
use crate::standing::{has_cell, stands};
use crate::touched::is_set;
use sal_mod::Mod;
use sal_rows::{Clash, ClashKind, Op, Rules, Span};
use sal_tree::{Commit, Pair, Root, tree_of};
use sal_types::{Step, Store};

/// The conflict of the operations of a transaction with the commits in the spans, by the version rules: of the first write that has
/// one, or else of the first read.
///
/// `base` are the base trees of the transaction, and `commits` those of its domain from the opening to the newest.
/// The spans are the commits after its base without those of its own chain. It takes no memory.
pub fn conflict(
    changes: &Mod,
    base: &Pair,
    spans: &[Span],
    commits: &[Commit],
    rules: Rules,
) -> Option<Clash>
    requires kept { AreKept commits.now }
    requires following { AreFollowing commits.now }
    requires spans { All (IsSpanOf commits.now) spans.now }
    ensures { result ≡ clash (opening_in commits.now) (ops_of commits.now) rules (rows_in base.now) spans.now changes.now }
{
    let ground = Ground {
        base,
        spans,
        commits,
        rules,
    };
    match writes_clash(changes, &ground) {
        Some(found) => Some(found),
        None => reads_clash(changes, &ground),
    }
}

// The conflict of the first write that has one. Reads are tested after all writes.
fn writes_clash(changes: &Mod, ground: &Ground) -> Option<Clash>
    requires kept { AreKept ground.now.commits.now }
    requires following { AreFollowing ground.now.commits.now }
    requires spans { All (IsSpanOf ground.now.commits.now) ground.now.spans.now }
    ensures { result ≡ clash_from (opening_in ground.now.commits.now) (ops_of ground.now.commits.now) ground.now.rules (rows_in ground.now.base.now) ground.now.spans.now [] changes.now }
{
    let ops = changes.ops();
    for at in 0..ops.len() {
        if ops[at].act.is_read() {
            continue;
        }
        let covered = changes.covered(ops[at].store, &ops[at].path, at);
        if let Some(found) = op_clash(&ops[..at], &ops[at], covered, ground) {
            return Some(found);
        }
    }
    None
}

// The conflict of one operation, after the earlier ones.
fn op_clash(earlier: &[Op], op: &Op, covered: bool, ground: &Ground) -> Option<Clash>
    requires kept { AreKept ground.now.commits.now }
    requires following { AreFollowing ground.now.commits.now }
    requires spans { All (IsSpanOf ground.now.commits.now) ground.now.spans.now }
    requires covered { covered ≡ is_covered earlier.now op.now.store op.now.path }
    ensures { result ≡ spec.op_clash (opening_in ground.now.commits.now) (ops_of ground.now.commits.now) ground.now.rules (rows_in ground.now.base.now) ground.now.spans.now earlier.now op.now }
{
    let looks = looks_at_leafs(op, covered, ground.rules);
    match parent_clash(earlier, op, ground) {
        Some(found) => Some(found),
        None => match path_clash(earlier, op, covered, ground) {
            Some(found) => Some(found),
            None => leaf_clash(earlier, op, looks, ground),
        },
    }
}

// Whether the third test applies to the operation.
fn looks_at_leafs(op: &Op, covered: bool, rules: Rules) -> bool
    ensures { result ≡ (checks_leafs rules op.now.act && not covered) }
{
    op.act.checks_leafs(rules) && !covered
}

// The first test: the outermost lost parent of a put or merge.
fn parent_clash(earlier: &[Op], op: &Op, ground: &Ground) -> Option<Clash>
    requires kept { AreKept ground.now.commits.now }
    requires following { AreFollowing ground.now.commits.now }
    requires spans { All (IsSpanOf ground.now.commits.now) ground.now.spans.now }
    ensures { result ≡ spec.parent_clash (opening_in ground.now.commits.now) (ops_of ground.now.commits.now) (rows_in ground.now.base.now) ground.now.spans.now earlier.now op.now }
{
    if !op.act.needs_parents() {
        return None;
    }
    let base = tree_of(ground.base, op.store);
    let tip = tip_of(ground.commits, op.store);
    match lost_depth(base, tip, earlier, op.store, op.path.steps()) {
        None => None,
        Some(depth) => {
            let parent = &op.path.steps()[..depth];
            let commit = last_touch_over(ground.commits, ground.spans, op.store, parent).unwrap_or(
                0,
            );
            Some(Clash {
                op: earlier.len(),
                row: None,
                depth,
                kind: ClashKind::Deleted,
                commit,
            })
        }
    }
}

/// The tree of the store at the newest commit.
pub(crate) fn tip_of(commits: &[Commit], store: Store) -> &Root
    requires { AreKept commits.now }
    ensures { rows_of result.now ≡ spec.tip (opening_in commits.now) (ops_of commits.now) store }
{
    tree_of(&commits[commits.len() - 1].trees, store)
}

// The number of steps of the outermost lost parent's path.
fn lost_depth(
    base: &Root,
    tip: &Root,
    earlier: &[Op],
    store: Store,
    steps: &[Step],
) -> Option<usize>
    ensures depth { result ≡ lost_depth (rows_of base.now) (rows_of tip.now) earlier.now store steps.now }
    ensures short { IfSome result (λ d. d ≤ length steps.now) }
{
    for depth in 1..steps.len() {
        if is_lost(base, tip, earlier, store, &steps[..depth]) {
            return Some(depth);
        }
    }
    None
}

fn is_lost(base: &Root, tip: &Root, earlier: &[Op], store: Store, steps: &[Step]) -> bool
    ensures { result ≡ is_lost_of (rows_of base.now) (rows_of tip.now) earlier.now store steps.now }
{
    has_cell(base, steps) && (!stands(tip, steps) && !is_set(earlier, store, steps))
}

// The second test: the first span over which the path of a put or delete is not unchanged.
fn path_clash(earlier: &[Op], op: &Op, covered: bool, ground: &Ground) -> Option<Clash>
    requires kept { AreKept ground.now.commits.now }
    requires following { AreFollowing ground.now.commits.now }
    requires spans { All (IsSpanOf ground.now.commits.now) ground.now.spans.now }
    requires covered { covered ≡ is_covered earlier.now op.now.store op.now.path }
    ensures { result ≡ spec.path_clash (opening_in ground.now.commits.now) (ops_of ground.now.commits.now) ground.now.spans.now earlier.now op.now }
{
    if !op.act.checks_path() || covered {
        return None;
    }
    path_conflict(earlier.len(), op, ground)
}

/// The first span over which the path of the operation at the index is not unchanged, as a conflict.
pub(crate) fn path_conflict(place: usize, op: &Op, ground: &Ground) -> Option<Clash>
    requires kept { AreKept ground.now.commits.now }
    requires following { AreFollowing ground.now.commits.now }
    requires spans { All (IsSpanOf ground.now.commits.now) ground.now.spans.now }
    ensures { result ≡ option_map (conflict_at place op.now) (difference (opening_in ground.now.commits.now) (ops_of ground.now.commits.now) op.now.store ground.now.spans.now op.now.path) }
{
    let steps = op.path.steps();
    match changed_span(ground.commits, ground.spans, op.store, steps) {
        None => None,
        Some(span) => Some(Clash {
            op: place,
            row: None,
            depth: steps.len(),
            kind: kind_over(ground.commits, span, op.store, steps),
            commit: last_touch(ground.commits, span, op.store, steps).unwrap_or(0),
        }),
    }
}
