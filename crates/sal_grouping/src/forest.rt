//! The nodes of a schema.
ghost use Rattle.std.specs.Prelude.{◌≡◌};

use std::marker::Model;

/// A node without its own statement.
#[derive(Clone, Copy, PartialEq, Eq)]
pub enum Implied {
    /// The case around a node that is directly in a choice.
    Case,
    /// The input of an RPC that has no `input`.
    Input,
    /// The output of an RPC that has no `output`.
    Output,
}

/// A node.
#[derive(Clone, Copy)]
pub struct Branch {
    /// The number of the node above it, or none at the top.
    pub parent: Option<u32>,
    /// The index of the module that it belongs to.
    pub module: u32,
    /// The index of the module of its statement.
    pub source: u32,
    /// The byte offset of its statement in that module's text.
    pub at: u32,
    /// The kind of an implied node. Its offset is then that of the node in the case, or of the RPC.
    pub implied: Option<Implied>,
}

/// The nodes of a schema, in the order of their numbers. A contract sees the list.
#[derive(Drop)]
pub struct Forest {
    list: Vec<Branch>,
}

impl Model for Forest {
    ghost use Rattle.std.specs.Prelude.{List};
    ghost use Rattle.sal_grouping.specs.declared.forest.Branch.{Branch as Knot};

    ghost Value = { List Knot };

    ghost view = { λ a. a.list.items };
}

impl Forest {
    /// The nodes of this list. It takes no memory.
    pub fn from_items(list: Vec<Branch>) -> Forest
        ensures { result ≡ list.items }
    {
        Forest { list }
    }

    /// The nodes, by number. It takes no memory.
    pub fn items(&self) -> &[Branch]
        ensures { result.now ≡ self.now }
    {
        &self.list
    }
}
