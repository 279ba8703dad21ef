//! Look-ups in a tree by a prefix of a path.
ghost use Rattle.std.specs.Prelude.{◌≡◌, Some, is_some};
ghost use Rattle.sal_types.specs.Tree.{cell, has};
ghost use Rattle.sal_node.specs.Shape.{tree_at};
ghost use Rattle.sal_tree.specs.Alike.{alike};
ghost use Rattle.sal_tree.specs.Grow.{at};
ghost use Rattle.sal_tree.specs.Rows.{rows_of};
ghost use Rattle.sal_graft.specs.Following.{filled};

use sal_node::Node;
use sal_tree::{Root, have_same_stamp, is_present, reached};
use sal_types::Step;
use std::sync::Arc;

/// Whether the tree has a row at or below the steps.
pub(crate) fn stands(tree: &Root, steps: &[Step]) -> bool
    ensures { result ≡ has (rows_of tree.now) steps.now }
{
    is_present(reached(Some(tree.node()), steps))
}

/// Whether the tree has a row at the steps.
pub(crate) fn has_cell(tree: &Root, steps: &[Step]) -> bool
    ensures { result ≡ is_some (cell (rows_of tree.now) steps.now) }
{
    match reached(Some(tree.node()), steps) {
        None => false,
        Some(node) => is_celled(node),
    }
}

/// Whether the steps are absent in both trees, or present in both with one stamp.
pub(crate) fn is_alike(before: &Root, after: &Root, steps: &[Step]) -> bool
    ensures { result ≡ alike (filled (at (Some before.now) steps.now)) (filled (at (Some after.now) steps.now)) }
{
    have_same_stamp(filled_at(before, steps), filled_at(after, steps))
}

// The node at the steps, if it has a row at or below it.
fn filled_at<'a>(tree: &'a Root, steps: &[Step]) -> Option<&'a Arc<Node>>
    ensures { tree_at result ≡ filled (at (Some tree.now) steps.now) }
{
    match node_at(tree, steps) {
        None => None,
        Some(node) => if_filled(node),
    }
}

fn if_filled(node: &Arc<Node>) -> Option<&Arc<Node>>
    ensures { tree_at result ≡ filled (Some node.entry.now.value) }
{
    if node.is_filled() { Some(node) } else { None }
}

/// The node at the steps.
pub(crate) fn node_at<'a>(tree: &'a Root, steps: &[Step]) -> Option<&'a Arc<Node>>
    ensures { tree_at result ≡ at (Some tree.now) steps.now }
{
    reached(Some(tree.node()), steps)
}

fn is_celled(node: &Node) -> bool
    ensures { result ≡ is_some node.now.cell }
{
    node.cell.is_some()
}
