//! The table of a schema: its nodes, types, modules and identities, each by its number.
use crate::kind::Kind;
use sal_restrict::YangType;
use sal_types::{Seq, Str};

/// Numbers of nodes or of identities.
pub type Leafs = Seq<u32>;

/// A schema node. Its number is its index in the table.
#[derive(Drop)]
pub struct NodeInfo {
    /// Its parent, choices and cases included; none at the top.
    pub parent: Option<u32>,
    pub kind: Kind,
    /// The module that its name belongs to.
    pub module: u32,
    pub name: Str,
    /// Whether it is configuration; none inside RPCs and notifications.
    pub config: Option<bool>,
    /// The type of a leaf or leaf-list.
    pub ty: Option<u32>,
    /// The key leafs of a list, in the order of its `key` statement.
    pub keys: Leafs,
    pub mandatory: bool,
    /// 0 if it is not stated.
    pub min_elements: u32,
    /// None if it is unbounded.
    pub max_elements: Option<u32>,
    /// For each `unique` statement its leafs.
    pub unique: Seq<Leafs>,
}

/// An identity, with all identities from which it is derived, directly or through others.
#[derive(Drop)]
pub struct IdentityInfo {
    pub name: Str,
    pub module: u32,
    pub derived_from: Leafs,
}

/// A schema as data. Parents, types, modules and identities are given by their numbers, which are their indexes.
#[derive(Drop)]
pub struct SchemaTable {
    pub nodes: Seq<NodeInfo>,
    pub types: Seq<YangType>,
    pub modules: Seq<Str>,
    pub identities: Seq<IdentityInfo>,
}
