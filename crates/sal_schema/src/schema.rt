//! Schemas: a table with its look-ups.
ghost use Rattle.std.specs.Prelude.{◌≡◌, ◌<◌, List, Some, IfOk, IfSome, IsTrue, length};
ghost use Rattle.std.specs.List.Sorted.{IsPermutation};
ghost use Rattle.std.specs.List.{slice_get, All};
ghost use Rattle.sal_schema.specs.Table as spec;
ghost use Rattle.sal_schema.specs.Names as names;
ghost use Rattle.sal_schema.specs.Beside.{IsPlaced, AreTops};
ghost use Rattle.sal_schema.specs.Valid.{IsTable, has_numbers};
ghost use Rattle.sal_schema.specs.declared.names.Named.{Named};
ghost use Rattle.sal_schema.specs.declared.table.SchemaTable.{SchemaTable as Table};

use crate::indexes::{Beside, Messages, Placed, Places, Statics, Tops, beside_of};
use crate::kind::Kind;
use crate::names::Index;
use crate::parts::Children;
use crate::table::{IdentityInfo, Leafs, NodeInfo, SchemaTable};
use sal_restrict::YangType;
use sal_types::NoMemory;
use std::alloc::Global;
use std::marker::Model;

/// A schema, seen as its table.
pub struct Schema {
    pub(crate) table: SchemaTable,
    top: Vec<u32>,
    below: Vec<Vec<u32>>,
    pub(crate) data_parents: Vec<Option<u32>>,
    modules: Index,
    data_nodes: Index,
    rpcs: Index,
    notifications: Index,
    identities: Index,
}

impl Drop for Schema {
    fn drop(self) {
        let Schema {
            table: _,
            top: _,
            below: _,
            data_parents: _,
            modules: _,
            data_nodes: _,
            rpcs: _,
            notifications: _,
            identities: _,
        } = self;
    }
}

impl Model for Schema {
    ghost use Rattle.sal_schema.specs.declared.table.SchemaTable.{SchemaTable as Table};
    ghost use Rattle.sal_schema.specs.contracts.table.SchemaTable as e;

    ghost Value = { Table };

    ghost coded = { e.the_row.coded };

    ghost use Rattle.sal_schema.specs.Indexed.{IsIndexed};

    ghost view = { λ a. a.table };

    ghost invariant = { λ a. IsIndexed a.table a.top.items a.below.items a.data_parents.items a.modules a.data_nodes a.rpcs a.notifications a.identities };
}

impl Schema {
    /// The schema of this table.
    pub fn from_table(alloc: Global, table: SchemaTable) -> Result<Schema, NoMemory>
        requires { IsTable table }
        ensures { IfOk result (λ schema. schema ≡ table) }
    {
        let beside = beside_of(alloc, &table)?;
        Ok(joined(table, beside))
    }

    /// The table.
    pub fn table(&self) -> &SchemaTable
        ensures table { result.now ≡ self.now }
        ensures good { IsTable self.now }
    {
        &self.table
    }

    /// The number of its nodes. Their numbers are those below it.
    pub fn len(&self) -> u32
        ensures count { result ≡ length self.now.nodes }
        ensures table { IsTable self.now }
    {
        self.table.nodes.items().len() as u32
    }

    fn node(&self, node: u32) -> &NodeInfo
        requires { node < length self.now.nodes }
        ensures info { spec.node_at self.now node ≡ Some result.now }
        ensures numbers { IsTrue (has_numbers self.now node result.now) }
        ensures keys { All (λ leaf. leaf < length self.now.nodes) result.now.keys }
    {
        &self.table.nodes.items()[node as usize]
    }

    /// The kind of a node.
    pub fn kind(&self, node: u32) -> Kind
        requires { node < length self.now.nodes }
        ensures { spec.kind_of self.now node ≡ Some result }
    {
        self.node(node).kind
    }

    /// Its parent, choices and cases included; none at the top.
    pub fn parent(&self, node: u32) -> Option<u32>
        requires { node < length self.now.nodes }
        ensures parent { result ≡ spec.parent_of self.now node }
        ensures before { IfSome result (λ p. p < node) }
    {
        self.node(node).parent
    }

    /// The key leafs of a list, in order; none for another node.
    pub fn keys(&self, node: u32) -> &[u32]
        requires { node < length self.now.nodes }
        ensures keys { result.now ≡ spec.keys_of self.now node }
        ensures within { All (λ leaf. leaf < length self.now.nodes) result.now }
    {
        self.node(node).keys.items()
    }

    /// The type of a leaf or leaf-list.
    pub fn type_of(&self, node: u32) -> Option<u32>
        requires { node < length self.now.nodes }
        ensures ty { result ≡ spec.type_of self.now node }
        ensures within { IfSome result (λ ty. ty < length self.now.types) }
    {
        self.node(node).ty
    }

    /// Whether a node is configuration; none inside RPCs and notifications.
    pub fn is_config(&self, node: u32) -> Option<bool>
        requires { node < length self.now.nodes }
        ensures { result ≡ spec.config_of self.now node }
    {
        self.node(node).config
    }

    /// The module that a node's name belongs to.
    pub fn module_of(&self, node: u32) -> u32
        requires { node < length self.now.nodes }
        ensures module_number { spec.module_of self.now node ≡ Some result }
        ensures within { result < length self.now.modules }
    {
        self.node(node).module
    }

    /// The name of a node, without its module.
    pub fn name_of(&self, node: u32) -> &str
        requires { node < length self.now.nodes }
        ensures { result.now ≡ spec.name_of self.now node }
    {
        self.node(node).name.as_str()
    }

    /// Whether a leaf or a choice is mandatory.
    pub fn is_mandatory(&self, node: u32) -> bool
        requires { node < length self.now.nodes }
        ensures { result ≡ spec.is_mandatory self.now node }
    {
        self.node(node).mandatory
    }

    /// The smallest number of entries of a list or leaf-list: 0 if it is not stated.
    pub fn min_elements(&self, node: u32) -> u32
        requires { node < length self.now.nodes }
        ensures { result ≡ spec.min_elements self.now node }
    {
        self.node(node).min_elements
    }

    /// The largest number of entries of a list or leaf-list: none if it is unbounded.
    pub fn max_elements(&self, node: u32) -> Option<u32>
        requires { node < length self.now.nodes }
        ensures { result ≡ spec.max_elements self.now node }
    {
        self.node(node).max_elements
    }

    /// The leafs of each `unique` statement of a list.
    pub fn uniques(&self, node: u32) -> &[Leafs]
        requires { node < length self.now.nodes }
        ensures { result.now ≡ spec.uniques_of self.now node }
    {
        self.node(node).unique.items()
    }

    /// The children of a node, or of the top, in the schema tree, by number. Choices and cases are included.
    pub fn children(&self, parent: Option<u32>) -> &[u32]
        requires { IfSome parent (λ p. p < length self.now.nodes) }
        ensures children { result.now ≡ spec.children_of self.now parent }
        ensures within { All (λ child. child < length self.now.nodes) result.now }
    {
        match parent {
            None => &self.top,
            Some(node) => &self.below[node as usize],
        }
    }

    /// The number of its types.
    pub fn types(&self) -> u32
        ensures { result ≡ length self.now.types }
    {
        self.table.types.items().len() as u32
    }

    /// The type of this number.
    pub fn type_at(&self, ty: u32) -> &YangType
        requires { ty < length self.now.types }
        ensures { slice_get self.now.types ty ≡ Some result.now }
    {
        &self.table.types.items()[ty as usize]
    }

    /// The number of its modules.
    pub fn modules(&self) -> u32
        ensures { result ≡ length self.now.modules }
    {
        self.table.modules.items().len() as u32
    }

    /// The name of a module.
    pub fn module_name(&self, module: u32) -> &str
        requires { «module» < length self.now.modules }
        ensures { result.now ≡ spec.module_name self.now «module» }
    {
        self.table.modules.items()[module as usize].as_str()
    }

    /// The number of its identities.
    pub fn identities(&self) -> u32
        ensures { result ≡ length self.now.identities }
    {
        self.table.identities.items().len() as u32
    }

    fn identity_info(&self, identity: u32) -> &IdentityInfo
        requires { identity < length self.now.identities }
        ensures info { spec.identity_at self.now identity ≡ Some result.now }
        ensures within { IfSome (spec.identity_module self.now identity) (λ m. m < length self.now.modules) }
    {
        &self.table.identities.items()[identity as usize]
    }

    /// The name of an identity, without its module.
    pub fn identity_name(&self, identity: u32) -> &str
        requires { identity < length self.now.identities }
        ensures { result.now ≡ spec.identity_name self.now identity }
    {
        self.identity_info(identity).name.as_str()
    }

    /// The module of an identity.
    pub fn identity_module(&self, identity: u32) -> u32
        requires { identity < length self.now.identities }
        ensures module_number { spec.identity_module self.now identity ≡ Some result }
        ensures within { result < length self.now.modules }
    {
        self.identity_info(identity).module
    }

    /// Whether an identity is derived from another, directly or through others. None is derived from itself.
    pub fn is_derived(&self, identity: u32, base: u32) -> bool
        requires { identity < length self.now.identities }
        ensures { result ≡ spec.is_derived self.now identity base }
    {
        is_among(base, self.identity_info(identity).derived_from.items())
    }

    /// The data node of this name below the data parent, or at the top. The search goes through choices and cases.
    pub fn child(&self, parent: Option<u32>, module: &str, name: &str) -> Option<u32>
        ensures { result ≡ names.child_of self.now parent «module».now name.now }
    {
        found(&self.modules, &self.data_nodes, parent, module, name)
    }

    /// The RPC of this name.
    pub fn rpc(&self, module: &str, name: &str) -> Option<u32>
        ensures { result ≡ names.rpc_of self.now «module».now name.now }
    {
        found(&self.modules, &self.rpcs, None, module, name)
    }

    /// The notification of this name.
    pub fn notification(&self, module: &str, name: &str) -> Option<u32>
        ensures { result ≡ names.notification_of self.now «module».now name.now }
    {
        found(&self.modules, &self.notifications, None, module, name)
    }

    /// The identity of this name.
    pub fn identity(&self, module: &str, name: &str) -> Option<u32>
        ensures { result ≡ names.identity_of self.now «module».now name.now }
    {
        found(&self.modules, &self.identities, None, module, name)
    }
}

/// The schema of a table and its indexes.
fn joined(table: SchemaTable, beside: Beside) -> Schema
    requires table { IsTable table }
    requires placed { IsPlaced table beside.placed }
    requires tops { AreTops table beside.tops }
    ensures { result ≡ table }
{
    let Beside { placed, tops } = beside;
    let Placed { places, data_nodes } = placed;
    let Places {
        children,
        data_parents,
    } = places;
    let Children { top, below } = children;
    let Tops { statics, messages } = tops;
    let Statics {
        modules,
        identities,
    } = statics;
    let Messages {
        rpcs,
        notifications,
    } = messages;
    Schema {
        table,
        top,
        below,
        data_parents,
        modules,
        data_nodes,
        rpcs,
        notifications,
        identities,
    }
}

pub(crate) fn is_among(number: u32, numbers: &[u32]) -> bool
    ensures { result ≡ spec.is_among number numbers.now }
{
    numbers.iter().any(|other| *other == number)
}

// The number of a name in a module, below a parent or at the top.
fn found(
    modules: &Index,
    named: &Index,
    parent: Option<u32>,
    module: &str,
    name: &str,
) -> Option<u32>
    ensures { (table : Table) (list : List Named) → IsTrue (names.are_distinct (names.module_names table)) → IsPermutation (names.module_names table) modules.now → IsTrue (names.are_distinct list) → IsPermutation list named.now → result ≡ names.found table list parent «module».now name.now }
{
    match modules.find(None, 0, module) {
        Some(number) => named.find(parent, number, name),
        None => None,
    }
}
