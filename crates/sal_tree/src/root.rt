//! The root of a tree, and look-ups by path.
ghost use Rattle.std.specs.Prelude.{◌≡◌, Some, IfOk};
ghost use Rattle.sal_types.specs.Tree.{has};
ghost use Rattle.sal_node.specs.Shape.{tree_at};
ghost use Rattle.sal_tree.specs.Grow.{at, blank, present};
ghost use Rattle.sal_tree.specs.Rows.{rows_of};
ghost use Rattle.sal_tree.specs.Whole.{IsWhole};

use crate::reach::reached;
use sal_node::Node;
use sal_types::{Duplicate, NoMemory, Path};
use std::alloc::Global;
use std::marker::Model;
use std::sync::Arc;

/// A tree of one store. Copies and changed trees share the nodes that they have in common.
///
/// A contract sees it as its root node, a `Tree`; `rows_of` are its rows, and `at` is the node at a path.
#[derive(Drop)]
pub struct Root {
    node: Arc<Node>,
}

impl Model for Root {
    ghost use Rattle.sal_node.specs.Tree.{Tree};
    ghost use Rattle.sal_node.specs.Code.{tree_code};
    ghost use Rattle.sal_tree.specs.Whole.{IsWhole};

    ghost Value = { Tree };

    ghost coded = { tree_code };

    ghost view = { λ a. a.node.value };

    ghost invariant = { λ a. IsWhole a.node.value };
}

impl Root {
    /// The tree without rows. Its root has the stamp 0.
    pub fn empty(alloc: Global) -> Result<Root, NoMemory>
        ensures { IfOk result (λ r. r ≡ blank 0) }
    {
        let node = Arc::new(alloc, Node::new(alloc, None, 0))?;
        Ok(Root { node })
    }

    /// The root node. It takes no memory.
    pub fn node(&self) -> &Arc<Node>
        ensures tree { result.now.value ≡ self.now }
        ensures whole { IsWhole self.now }
    {
        &self.node
    }

    /// The tree with this root node. It takes no memory.
    pub fn from_node(node: Arc<Node>) -> Root
        requires { IsWhole node.value }
        ensures { result ≡ node.value }
    {
        Root { node }
    }

    /// The node at the path, if there is one. It takes no memory.
    pub fn get(&self, path: &Path) -> Option<&Arc<Node>>
        ensures { tree_at result ≡ at (Some self.now) path.now }
    {
        reached(Some(&self.node), path.steps())
    }

    /// Whether the tree has a row at or below the path. It takes no memory.
    pub fn exists(&self, path: &Path) -> bool
        ensures node { result ≡ present (at (Some self.now) path.now) }
        ensures rows { result ≡ has (rows_of self.now) path.now }
    {
        // For the proof alone: `node` says that the tree is whole.
        let _ = self.node();
        match self.get(path) {
            None => false,
            Some(node) => node.is_filled(),
        }
    }
}

impl Duplicate for Root {
    fn copy(&self) -> Result<Root, NoMemory> {
        let node = Arc::try_clone(&self.node)?;
        Ok(Root { node })
    }
}
