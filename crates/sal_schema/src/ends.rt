//! The node of a path, and properties of the path by that node's kind.
ghost use Rattle.std.specs.Prelude.{◌≡◌, Some};
ghost use Rattle.sal_schema.specs.Fitting as spec;
ghost use Rattle.sal_schema.specs.Paths.{node_of};
ghost use Rattle.sal_schema.specs.Table.{is_state};

use crate::kind::Kind;
use crate::schema::{Schema, is_among};
use sal_types::{Path, Step};

impl Schema {
    /// Whether the row at a path with this last step has a mark: at presence containers and at entries of lists and
    /// leaf-lists.
    pub fn has_mark(&self, step: &Step) -> bool
        ensures { result ≡ spec.has_mark self.now (Some step.now) }
    {
        match step {
            Step::Node(node) => match self.kind_at(*node) {
                Some(Kind::Container { presence }) => presence,
                _ => false,
            },
            _ => true,
        }
    }

    /// Whether the path has a row whenever its node is present: at leafs, presence containers and entries.
    pub fn has_own_row(&self, path: &Path) -> bool
        ensures { result ≡ spec.has_own_row self.now path.now }
    {
        match path.steps().last() {
            Some(step) => self.has_mark(step) || self.is_at_leaf(step),
            None => false,
        }
    }

    fn is_at_leaf(&self, step: &Step) -> bool
        ensures { result ≡ spec.is_at_leaf self.now (Some step.now) }
    {
        match step {
            Step::Node(node) => match self.kind_at(*node) {
                Some(Kind::Leaf) => true,
                _ => false,
            },
            _ => false,
        }
    }

    /// Whether the path is one of a key leaf.
    pub fn is_key_leaf(&self, path: &Path) -> bool
        ensures { result ≡ spec.is_key_leaf self.now path.now }
    {
        match path.steps().last() {
            Some(step) => self.is_at_key(step),
            None => false,
        }
    }

    fn is_at_key(&self, step: &Step) -> bool
        ensures { result ≡ spec.is_at_key self.now (Some step.now) }
    {
        match step {
            Step::Node(node) => self.is_key(*node),
            _ => false,
        }
    }

    fn is_key(&self, node: u32) -> bool
        ensures { result ≡ spec.is_key self.now node }
    {
        let nodes = self.table.nodes.items();
        let Some(info) = nodes.get(node as usize) else {
            return false;
        };
        let Some(list) = info.parent else {
            return false;
        };
        match nodes.get(list as usize) {
            Some(list) => is_among(node, list.keys.items()),
            None => false,
        }
    }

    /// Whether the path is one of a state node.
    pub fn is_of_state(&self, path: &Path) -> bool
        ensures { result ≡ spec.is_of_state self.now path.now }
    {
        match node_at_end(path) {
            Some(node) => self.is_state(node),
            None => false,
        }
    }

    fn is_state(&self, node: u32) -> bool
        ensures { result ≡ is_state self.now node }
    {
        match self.table.nodes.items().get(node as usize) {
            Some(info) => info.config == Some(false),
            None => false,
        }
    }

    /// Whether the path begins with an input, an output or a notification.
    pub fn is_in_message(&self, path: &Path) -> bool
        ensures { result ≡ spec.is_in_message self.now path.now }
    {
        match path.steps().first() {
            Some(Step::Node(node)) => match self.kind_at(*node) {
                Some(kind) => kind.is_message(),
                None => false,
            },
            _ => false,
        }
    }
}

// The node that the path names: the list for each of its entries.
fn node_at_end(path: &Path) -> Option<u32>
    ensures { result ≡ node_of path.now }
{
    let mut here = None;
    for step in path.steps() {
        if let Step::Node(node) = step {
            here = Some(*node);
        }
    }
    here
}
