//! How the node at a path changed.
ghost use Rattle.std.specs.Prelude.{◌≡◌, Some};
ghost use Rattle.sal_types.specs.Tree.{cell};
ghost use Rattle.sal_node.specs.Shape.{tree_at};
ghost use Rattle.sal_tree.specs.Grow.{cell_in};
ghost use Rattle.sal_tree.specs.Rows.{rows_of};
ghost use Rattle.sal_rows.specs.Changes.{changes_under};
ghost use Rattle.sal_rows.specs.Kinds.{kind_by_cells, kind_by_presence, candidate_kind};

use crate::walk::is_same;
use sal_node::Node;
use sal_rows::{CandidateKind, ChangeList};
use sal_tree::Root;
use sal_types::{Cell, Path};
use std::sync::Arc;

/// How the node at the path changed, by the changes there. It takes no memory.
///
/// `own` says whether the node has its own row by its kind.
pub fn kind_at(
    list: &ChangeList,
    path: &Path,
    own: bool,
    before: &Root,
    after: &Root,
) -> CandidateKind
    requires { list.now ≡ changes_under (rows_of before.now) (rows_of after.now) path.now }
    ensures { result ≡ candidate_kind own (rows_of before.now) (rows_of after.now) path.now }
{
    match list.items() {
        [] => CandidateKind::Unmodified,
        [_, ..] => {
            if own {
                by_rows(path, before, after)
            } else {
                by_presence(before.exists(path), after.exists(path))
            }
        }
    }
}

// By the row of the node itself.
fn by_rows(path: &Path, before: &Root, after: &Root) -> CandidateKind
    ensures { result ≡ kind_by_cells (cell (rows_of before.now) path.now) (cell (rows_of after.now) path.now) }
{
    // For the proof alone: `node` says that the trees are whole.
    let _ = before.node();
    let _ = after.node();
    by_nodes(before.get(path), after.get(path))
}

fn by_nodes(before: Option<&Arc<Node>>, after: Option<&Arc<Node>>) -> CandidateKind
    ensures { result ≡ kind_by_cells (cell_in (tree_at before.entry)) (cell_in (tree_at after.entry)) }
{
    match (before, after) {
        (None, None) => CandidateKind::SubtreeModified,
        (None, Some(after)) => by_one(&after.cell, CandidateKind::Write),
        (Some(before), None) => by_one(&before.cell, CandidateKind::Delete),
        (Some(before), Some(after)) => by_cells(&before.cell, &after.cell),
    }
}

// `came` if there is a cell.
fn by_one(cell: &Option<Cell>, came: CandidateKind) -> CandidateKind
    ensures { result ≡ elim cell.now [ Some c ↦ came | None ↦ CandidateKind.SubtreeModified ] }
{
    match cell {
        None => CandidateKind::SubtreeModified,
        Some(_) => came,
    }
}

fn by_cells(before: &Option<Cell>, after: &Option<Cell>) -> CandidateKind
    ensures { result ≡ kind_by_cells before.now after.now }
{
    match (before, after) {
        (None, None) => CandidateKind::SubtreeModified,
        (None, Some(_)) => CandidateKind::Write,
        (Some(_), None) => CandidateKind::Delete,
        (Some(_), Some(_)) => {
            if is_same(before, after) {
                CandidateKind::SubtreeModified
            } else {
                CandidateKind::Write
            }
        }
    }
}

// By whether the node was and is present.
fn by_presence(was: bool, is: bool) -> CandidateKind
    ensures { result ≡ kind_by_presence was is }
{
    match (was, is) {
        (true, true) => CandidateKind::SubtreeModified,
        (true, false) => CandidateKind::Disappeared,
        (false, _) => CandidateKind::Appeared,
    }
}
