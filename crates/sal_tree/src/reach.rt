//! Nodes at steps below a node of a tree.
ghost use Rattle.std.specs.Prelude.{◌≡◌};
ghost use Rattle.sal_node.specs.Shape.{tree_at};
ghost use Rattle.sal_tree.specs.Alike.{alike};
ghost use Rattle.sal_tree.specs.Grow.{at, kid, present, IsSound};

use sal_node::Node;
use sal_types::Step;
use std::sync::Arc;

/// The child at the step; none if there is no node, or no such child. It takes no memory.
pub fn child_of<'a>(node: Option<&'a Arc<Node>>, step: &Step) -> Option<&'a Arc<Node>>
    requires { IsSound (tree_at node) }
    ensures kid { tree_at result ≡ kid (tree_at node.entry) step.now }
    ensures sound { IsSound (tree_at result) }
{
    match node {
        None => None,
        Some(node) => node.child(step),
    }
}

/// The node that the steps lead to, if there is one. It takes no memory.
pub fn reached<'a>(node: Option<&'a Arc<Node>>, steps: &[Step]) -> Option<&'a Arc<Node>>
    requires { IsSound (tree_at node) }
    ensures node { tree_at result ≡ at (tree_at node.entry) steps.now }
    ensures sound { IsSound (tree_at result) }
{
    match steps {
        [] => node,
        [step, rest @ ..] => reached(child_of(node, step), rest),
    }
}

/// Whether there is a node, with a row at or below it.
pub fn is_present(node: Option<&Arc<Node>>) -> bool
    ensures { result ≡ present (tree_at node.entry) }
{
    match node {
        None => false,
        Some(node) => node.is_filled(),
    }
}

/// Whether both nodes are absent, or both present with one stamp.
pub fn have_same_stamp(before: Option<&Arc<Node>>, after: Option<&Arc<Node>>) -> bool
    ensures { result ≡ alike (tree_at before.entry) (tree_at after.entry) }
{
    match (before, after) {
        (None, None) => true,
        (Some(one), Some(other)) => one.stamp() == other.stamp(),
        _ => false,
    }
}
