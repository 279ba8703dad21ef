//! Path copying.
ghost use Rattle.std.specs.Prelude.{◌≡◌, Option, Some, None, T, IfOk, List};
ghost use Rattle.sal_types.specs.declared.value.Step.{Step};
ghost use Rattle.sal_node.specs.Tree.{Tree, change, grove};
ghost use Rattle.sal_node.specs.Shape.{tree_in, tree_at};
ghost use Rattle.sal_tree.specs.Grow.{grow, kids_in, cell_in, standing, IsSound};

use crate::reach::child_of;
use sal_node::Node;
use sal_types::{NoMemory, Step};
use std::alloc::Global;
use std::sync::Arc;

/// The tree with another one at the path, or with none there.
pub(crate) fn grown(
    alloc: Global,
    old: Option<&Arc<Node>>,
    path: &[Step],
    new: Option<Arc<Node>>,
    stamp: u64,
) -> Result<Option<Arc<Node>>, NoMemory>
    requires { IsSound (tree_at old) }
    ensures { IfOk result (λ o. tree_in o ≡ grow stamp (tree_at old.entry) path.now (tree_in new)) }
{
    match path {
        [] => Ok(new),
        [step] => {
            let node = replaced(alloc, old, step, new, stamp)?;
            Ok(node)
        }
        [step, rest @ ..] => {
            let child = grown(alloc, child_of(old, step), rest, new, stamp)?;
            let node = replaced(alloc, old, step, child, stamp)?;
            Ok(node)
        }
    }
}

fn replaced(
    alloc: Global,
    old: Option<&Arc<Node>>,
    step: &Step,
    child: Option<Arc<Node>>,
    stamp: u64,
) -> Result<Option<Arc<Node>>, NoMemory>
    requires { IsSound (tree_at old) }
    ensures { IfOk result (λ o. tree_in o ≡ standing stamp (cell_in (tree_at old.entry)) (change step.now (tree_in child) (kids_in (tree_at old.entry)))) }
{
    let node = changed(alloc, old, step, child, stamp)?;
    if node.is_filled() {
        let node = Arc::new(alloc, node)?;
        Ok(Some(node))
    } else {
        Ok(None)
    }
}

fn changed(
    alloc: Global,
    old: Option<&Arc<Node>>,
    step: &Step,
    child: Option<Arc<Node>>,
    stamp: u64,
) -> Result<Node, NoMemory>
    requires { IsSound (tree_at old) }
    ensures { IfOk result (λ n. n ≡ record { stamp = stamp; cell = cell_in (tree_at old.entry); kids = grove (change step.now (tree_in child) (kids_in (tree_at old.entry))) }) }
{
    match old {
        None => {
            let empty = Node::new(alloc, None, stamp);
            let node = empty.with_child(alloc, step, child, stamp)?;
            Ok(node)
        }
        Some(old) => {
            let node = old.with_child(alloc, step, child, stamp)?;
            Ok(node)
        }
    }
}
