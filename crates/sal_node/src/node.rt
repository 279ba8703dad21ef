//! Nodes, pages and children.
ghost use Rattle.std.specs.Prelude.{◌≡◌};

use sal_types::{Cell, Step};
use std::marker::Model;
use std::sync::Arc;

/// A node of a tree: the stamp of the change that made it, a cell if it has one, and its children in pages.
#[cycle(node)]
#[derive(Drop)]
pub struct Node {
    pub stamp: u64,
    pub cell: Option<Cell>,
    pub paging: Paging,
}

/// The children of a node, in the order of their steps: at most 64 alone, or in at most 64 pages, or in sheets of pages.
#[cycle(node)]
#[derive(Drop)]
pub enum Paging {
    Few(Vec<Arc<Child>>),
    Pages(Vec<Arc<Page>>),
    Sheets(Vec<Arc<Sheet>>),
}

/// Some pages of a node, in the order of their steps: 1 to 64. No child below them has a stamp above `newest`.
#[cycle(node)]
#[derive(Drop)]
pub struct Sheet {
    pub newest: u64,
    pub pages: Vec<Arc<Page>>,
}

/// Some children of a node, in the order of their steps: 1 to 64. None of them has a stamp above `newest`.
#[cycle(node)]
#[derive(Drop)]
pub struct Page {
    pub newest: u64,
    pub children: Vec<Arc<Child>>,
}

/// A child of a node.
#[cycle(node)]
#[derive(Drop)]
pub struct Child {
    pub step: Step,
    pub node: Arc<Node>,
}

impl Model for Node {
    ghost use Rattle.std.specs.Prelude.{ℕ};
    ghost use Rattle.sal_node.specs.Tree.{Tree, size_of};
    ghost use Rattle.sal_node.specs.Code.{tree_code};

    ghost Value = { Tree };

    ghost coded = { tree_code };

    ghost use Rattle.sal_node.specs.Shape.{view_of, ArePaged};

    ghost view = { view_of };

    ghost invariant = { λ a. ArePaged a.paging };

    ghost size = { size_of };

    ghost use Rattle.sal_node.specs.Falls.{falls};

    ghost size_decreases = { λ a h. falls a };
}
