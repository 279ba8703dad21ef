//! The leafs of a merge whose values later commits changed.
ghost use Rattle.std.specs.Prelude.{◌≡◌, All, None, if◌then◌else◌, is_some, not, unwrap_or};
ghost use Rattle.std.specs.List.{position_from};
ghost use Rattle.std.specs.Option.{option_map};
ghost use Rattle.sal_types.specs.Tree.{cell};
ghost use Rattle.sal_rows.specs.Apply.{rows_of_act};
ghost use Rattle.sal_rows.specs.Changes.{same_cell};
ghost use Rattle.sal_rows.specs.Clash.{is_leaf};
ghost use Rattle.sal_rows.specs.Clash as spec;
ghost use Rattle.sal_rows.specs.Commits.{kind_by};
ghost use Rattle.sal_node.specs.Shape.{tree_at};
ghost use Rattle.sal_tree.specs.Grow.{cell_in};
ghost use Rattle.sal_tree.specs.Rows.{rows_of};
ghost use Rattle.sal_graft.specs.Following.{AreFollowing};
ghost use Rattle.sal_graft.specs.Kept.{AreKept, IsSpanOf, opening_in, ops_of, rows_in};

use crate::ground::Ground;
use crate::naming::last_touch_over;
use crate::search::tip_of;
use crate::span::kind_by;
use crate::standing::{has_cell, node_at};
use sal_node::Node;
use sal_rows::{Clash, ClashKind, Op, Span};
use sal_tree::{Commit, Pair, Root, tree_of};
use sal_types::{Cell, Row, Step, Store};
use std::sync::Arc;

/// The third test, if it applies: the first leaf of the operation's data that a commit in the spans touched, and whose cell differs
/// between the base and the newest tree.
pub(crate) fn leaf_clash(earlier: &[Op], op: &Op, looks: bool, ground: &Ground) -> Option<Clash>
    requires kept { AreKept ground.now.commits.now }
    requires following { AreFollowing ground.now.commits.now }
    requires spans { All (IsSpanOf ground.now.commits.now) ground.now.spans.now }
    ensures { result ≡ (if looks
        then option_map (spec.at_row (opening_in ground.now.commits.now) (ops_of ground.now.commits.now) (rows_in ground.now.base.now) ground.now.spans.now earlier.now op.now)
        (position_from (spec.is_stale (opening_in ground.now.commits.now) (ops_of ground.now.commits.now) (rows_in ground.now.base.now) ground.now.spans.now op.now.store) 0 (rows_of_act op.now.act))
        else None) }
{
    if !looks {
        return None;
    }
    stale_clash(earlier, op, ground)
}

// The conflict at that leaf.
fn stale_clash(earlier: &[Op], op: &Op, ground: &Ground) -> Option<Clash>
    requires kept { AreKept ground.now.commits.now }
    requires following { AreFollowing ground.now.commits.now }
    requires spans { All (IsSpanOf ground.now.commits.now) ground.now.spans.now }
    ensures { result ≡ option_map (spec.at_row (opening_in ground.now.commits.now) (ops_of ground.now.commits.now) (rows_in ground.now.base.now) ground.now.spans.now earlier.now op.now)
        (position_from (spec.is_stale (opening_in ground.now.commits.now) (ops_of ground.now.commits.now) (rows_in ground.now.base.now) ground.now.spans.now op.now.store) 0 (rows_of_act op.now.act)) }
{
    match first_stale(op.act.rows(), op.store, ground) {
        None => None,
        Some(row) => Some(at_row(earlier, op, row, ground)),
    }
}

// The index of the first such leaf.
fn first_stale(rows: &[Row], store: Store, ground: &Ground) -> Option<usize>
    requires kept { AreKept ground.now.commits.now }
    requires following { AreFollowing ground.now.commits.now }
    requires spans { All (IsSpanOf ground.now.commits.now) ground.now.spans.now }
    ensures { result ≡ position_from (spec.is_stale (opening_in ground.now.commits.now) (ops_of ground.now.commits.now) (rows_in ground.now.base.now) ground.now.spans.now store) 0 rows.now }
{
    for (i, row) in rows.iter().enumerate() {
        if is_stale(row, store, ground) {
            return Some(i);
        }
    }
    None
}

fn is_stale(row: &Row, store: Store, ground: &Ground) -> bool
    requires kept { AreKept ground.now.commits.now }
    requires following { AreFollowing ground.now.commits.now }
    requires spans { All (IsSpanOf ground.now.commits.now) ground.now.spans.now }
    ensures { result ≡ spec.is_stale (opening_in ground.now.commits.now) (ops_of ground.now.commits.now) (rows_in ground.now.base.now) ground.now.spans.now store row.now }
{
    let steps = row.path.steps();
    is_leaf(&row.cell)
        && (is_changed(steps, store, ground.base, ground.commits)
            && is_touched_over(ground.commits, ground.spans, store, steps))
}

fn is_leaf(cell: &Cell) -> bool
    ensures { result ≡ is_leaf cell.now }
{
    match cell {
        Cell::Mark => false,
        Cell::Leaf(_) => true,
    }
}

// Whether a commit in the spans touched the path.
fn is_touched_over(commits: &[Commit], spans: &[Span], store: Store, steps: &[Step]) -> bool
    requires kept { AreKept commits.now }
    requires following { AreFollowing commits.now }
    requires spans { All (IsSpanOf commits.now) spans.now }
    ensures { result ≡ is_some (spec.last_touch_over (opening_in commits.now) (ops_of commits.now) spans.now store steps.now) }
{
    last_touch_over(commits, spans, store, steps).is_some()
}

// Whether base and newest tree have different cells at the path.
fn is_changed(steps: &[Step], store: Store, base: &Pair, commits: &[Commit]) -> bool
    requires kept { AreKept commits.now }
    ensures { result ≡ not (same_cell (cell (rows_in base.now store) steps.now) (cell (spec.tip (opening_in commits.now) (ops_of commits.now) store) steps.now)) }
{
    differs(tree_of(base, store), tip_of(commits, store), steps)
}

fn differs(before: &Root, after: &Root, steps: &[Step]) -> bool
    ensures { result ≡ not (same_cell (cell (rows_of before.now) steps.now) (cell (rows_of after.now) steps.now)) }
{
    // For the proof alone: `node` says that the trees are whole.
    let _ = before.node();
    let _ = after.node();
    let was = node_at(before, steps);
    let is = node_at(after, steps);
    have_different_cells(was, is)
}

fn have_different_cells(was: Option<&Arc<Node>>, is: Option<&Arc<Node>>) -> bool
    ensures { result ≡ not (same_cell (cell_in (tree_at was.entry)) (cell_in (tree_at is.entry))) }
{
    match (was, is) {
        (None, None) => false,
        (None, Some(is)) => is_there(&is.cell),
        (Some(was), None) => is_there(&was.cell),
        (Some(was), Some(is)) => are_different(&was.cell, &is.cell),
    }
}

// Whether the cell exists, and so differs from none.
fn is_there(cell: &Option<Cell>) -> bool
    ensures after { result ≡ not (same_cell None cell.now) }
    ensures before { result ≡ not (same_cell cell.now None) }
{
    match cell {
        None => false,
        Some(_) => true,
    }
}

fn are_different(was: &Option<Cell>, is: &Option<Cell>) -> bool
    ensures { result ≡ not (same_cell was.now is.now) }
{
    match (was, is) {
        (None, None) => false,
        (Some(was), Some(is)) => !was.cmp(is).is_eq(),
        _ => true,
    }
}

// The conflict at the path of the row at this index of the operation's data.
fn at_row(earlier: &[Op], op: &Op, row: usize, ground: &Ground) -> Clash
    requires kept { AreKept ground.now.commits.now }
    requires following { AreFollowing ground.now.commits.now }
    requires spans { All (IsSpanOf ground.now.commits.now) ground.now.spans.now }
    ensures { result ≡ spec.at_row (opening_in ground.now.commits.now) (ops_of ground.now.commits.now) (rows_in ground.now.base.now) ground.now.spans.now earlier.now op.now row }
{
    let steps = op.path_by(Some(row)).steps();
    Clash {
        op: earlier.len(),
        row: Some(row),
        depth: steps.len(),
        kind: kind_at(steps, op.store, ground.base, ground.commits),
        commit: touch_over(ground.commits, ground.spans, op.store, steps),
    }
}

// How the cells of base and newest tree differ.
fn kind_at(steps: &[Step], store: Store, base: &Pair, commits: &[Commit]) -> ClashKind
    requires kept { AreKept commits.now }
    ensures { result ≡ kind_by (is_some (cell (rows_in base.now store) steps.now)) (is_some (cell (spec.tip (opening_in commits.now) (ops_of commits.now) store) steps.now)) }
{
    let was = has_cell(tree_of(base, store), steps);
    let is = has_cell(tip_of(commits, store), steps);
    kind_by(was, is)
}

// The number of the last commit in the spans that touched the path.
fn touch_over(commits: &[Commit], spans: &[Span], store: Store, steps: &[Step]) -> u64
    requires kept { AreKept commits.now }
    requires following { AreFollowing commits.now }
    requires spans { All (IsSpanOf commits.now) spans.now }
    ensures { result ≡ unwrap_or (spec.last_touch_over (opening_in commits.now) (ops_of commits.now) spans.now store steps.now) 0 }
{
    last_touch_over(commits, spans, store, steps).unwrap_or(0)
}
