//! Which paths fit a schema.
ghost use Rattle.std.specs.Prelude.{◌≡◌, ◌<◌, length};
ghost use Rattle.sal_schema.specs.Table as table;
ghost use Rattle.sal_schema.specs.Paths as spec;
ghost use Rattle.sal_schema.specs.Values.{is_of_node};

use crate::kind::Kind;
use crate::schema::Schema;
use sal_types::{Path, Step, Value};

/// The end of a path: a node, or the root, and whether the keys or the value of an entry must follow.
#[derive(Clone, Copy)]
pub(crate) struct Place {
    pub(crate) node: Option<u32>,
    pub(crate) wants_entry: bool,
}

impl Schema {
    /// Whether the path fits: each step names a node for data below the one before, or has the keys of its list or the
    /// value of its leaf-list, of their types.
    ///
    /// The input, output or notification that is the parent of a message's data counts as a top-level name.
    pub fn fits(&self, path: &Path) -> bool
        ensures { result ≡ spec.fits_path self.now path.now }
    {
        let mut place = Place {
            node: None,
            wants_entry: false,
        };
        for step in path.steps() {
            if !self.step_fits(place, step) {
                return false;
            }
            place = self.after_step(place, step);
        }
        true
    }

    /// Whether a value is of the type of this leaf or leaf-list.
    pub fn is_of_node(&self, node: u32, value: &Value) -> bool
        ensures { result ≡ is_of_node self.now node value.now }
    {
        let Some(info) = self.table.nodes.items().get(node as usize) else {
            return false;
        };
        let Some(ty) = info.ty else {
            return false;
        };
        match self.table.types.items().get(ty as usize) {
            Some(ty) => self.is_of_type(ty, value),
            None => false,
        }
    }

    // The kind of a node; none if no node has this number.
    pub(crate) fn kind_at(&self, node: u32) -> Option<Kind>
        ensures { result ≡ table.kind_of self.now node }
    {
        match self.table.nodes.items().get(node as usize) {
            Some(info) => Some(info.kind),
            None => None,
        }
    }

    fn step_fits(&self, place: Place, step: &Step) -> bool
        ensures { result ≡ spec.step_fits self.now place step.now }
    {
        match step {
            Step::Node(node) => !place.wants_entry && self.may_follow(place.node, *node),
            _ => match place.node {
                Some(node) => place.wants_entry && self.may_pick(node, step),
                None => false,
            },
        }
    }

    fn after_step(&self, place: Place, step: &Step) -> Place
        ensures { result ≡ spec.after_step self.now place step.now }
    {
        match step {
            Step::Node(node) => Place {
                node: Some(*node),
                wants_entry: match self.kind_at(*node) {
                    Some(kind) => kind.has_entries(),
                    None => false,
                },
            },
            _ => Place {
                node: place.node,
                wants_entry: false,
            },
        }
    }

    // Whether a step to this node may follow one to that node, or be the first.
    fn may_follow(&self, parent: Option<u32>, node: u32) -> bool
        ensures { result ≡ spec.may_follow self.now parent node }
    {
        let Some(kind) = self.kind_at(node) else {
            return false;
        };
        if kind.is_data() {
            return self.data_parent(node) == parent;
        }
        parent.is_none() && kind.is_message()
    }

    /// The data parent of this node: its parent, but not a choice or a case.
    pub fn data_parent(&self, node: u32) -> Option<u32>
        requires { node < length self.now.nodes }
        ensures { result ≡ table.data_parent self.now node }
    {
        self.data_parents[node as usize]
    }

    // Whether the step has the keys of this list or the value of this leaf-list.
    fn may_pick(&self, node: u32, step: &Step) -> bool
        ensures { result ≡ spec.may_pick self.now node step.now }
    {
        match (self.kind_at(node), step) {
            (Some(Kind::List), Step::Key(keys)) => {
                self.are_of_nodes(self.keys(node), keys.value().items())
            }
            (Some(Kind::LeafList), Step::Item(value)) => self.is_of_node(node, value.value()),
            _ => false,
        }
    }

    // Whether there is a value for each leaf, of its type.
    fn are_of_nodes(&self, leafs: &[u32], values: &[Value]) -> bool
        ensures { result ≡ spec.are_of_nodes self.now leafs.now values.now }
    {
        if leafs.len() != values.len() {
            return false;
        }
        for i in 0..leafs.len() {
            if !self.is_of_node(leafs[i], &values[i]) {
                return false;
            }
        }
        true
    }
}
