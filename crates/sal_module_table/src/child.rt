//! Children of nodes by name.
ghost use Rattle.std.specs.Prelude.{◌≡◌, ◌<◌, ◌≤◌, Some, None, IfOk, length, slice_index_or, if◌then◌else◌};
ghost use Rattle.std.specs.BTreeMap.{get};
ghost use Rattle.sal_module_table.specs.declared.child.Key.{Key as Name};
ghost use Rattle.sal_module_table.specs.Inherited.{AreInherited, with_data_node};
ghost use Rattle.sal_module_table.specs.Children as spec;
ghost use Rattle.sal_module_table.specs.Leafrefs as paths;

use crate::inherited::data_parent;
use crate::node::{kind_in, name_in, stmt_of};
use crate::nodes::Nodes;
use sal_grouping::{Branch, local_name};
use sal_module::Modules;
use sal_schema::Kind;
use sal_types::{NoMemory, Str};
use std::alloc::Global;
use std::collections::BTreeMap;

/// The key of a node: its parent, its module and its name.
#[derive(Debug, Drop, PartialEq, Eq, PartialOrd, Ord)]
pub struct Key {
    /// Whether a leaf is looked for: false in look-ups of data nodes.
    pub leaf: bool,
    /// Its parent, or none at the top.
    pub above: Option<u32>,
    /// The module of its name.
    pub module: u32,
    /// Its name.
    pub name: Str,
}

/// The first node with each key.
pub(crate) type Children = BTreeMap<Key, u32>;

fn is_leaf(kind: Kind) -> bool
    ensures { result ≡ spec.is_leaf_kind kind }
{
    match kind {
        Kind::Leaf => true,
        _ => false,
    }
}

fn child_key(alloc: Global, modules: &Modules, branch: &Branch) -> Result<Option<Key>, NoMemory>
    ensures { IfOk result (λ key. key ≡ spec.child_key modules.now branch.now) }
{
    let stmt = stmt_of(modules, branch);
    let kind = kind_in(stmt, branch.implied);
    let name = Str::new(alloc, name_in(kind, stmt))?;
    Ok(Some(Key {
        leaf: is_leaf(kind),
        above: branch.parent,
        module: branch.module,
        name,
    }))
}

fn data_key(
    alloc: Global,
    modules: &Modules,
    forest: &[Branch],
    nodes: &[Option<u32>],
    branch: &Branch,
) -> Result<Option<Key>, NoMemory>
    requires { AreInherited (with_data_node modules.now) None forest.now nodes.now }
    ensures { IfOk result (λ key. key ≡ spec.data_key modules.now forest.now branch.now) }
{
    let stmt = stmt_of(modules, branch);
    let kind = kind_in(stmt, branch.implied);
    if !kind.is_data() {
        return Ok(None);
    }
    let name = Str::new(alloc, name_in(kind, stmt))?;
    Ok(Some(Key {
        leaf: false,
        above: data_parent(modules, forest, nodes, branch.parent),
        module: branch.module,
        name,
    }))
}

/// Sets the number of the key, and replaces an earlier one.
fn put(map: &mut Children, key: Option<Key>, k: u32) -> Result<(), NoMemory>
    ensures { IfOk result (λ _. (q : Name) → get spec.key_cmp map.new q ≡ (if spec.is_found_by q key then Some k else get spec.key_cmp map.old q)) }
{
    if let Some(key) = key {
        map.insert(key, k)?;
    }
    Ok(())
}

/// The node of this number.
fn branch_at(forest: &[Branch], k: usize) -> &Branch
    requires { k < length forest.now }
    ensures { result.now ≡ slice_index_or forest.now k result.now }
{
    &forest[k]
}

/// The nodes by their parents and names. From the last one to the first, so that the first with a key is used.
pub(crate) fn children_of(
    alloc: Global,
    modules: &Modules,
    forest: &[Branch],
) -> Result<Children, NoMemory>
    requires { length forest.now ≤ 65536 }
    ensures { IfOk result (λ map. (q : Name) → get spec.key_cmp map q ≡ spec.first_with (spec.child_key modules.now) forest.now q) }
{
    let mut map = BTreeMap::new(alloc);
    for done in 0..forest.len() {
        let k = forest.len() - 1 - done;
        let branch = branch_at(forest, k);
        let key = child_key(alloc, modules, branch)?;
        put(&mut map, key, k as u32)?;
    }
    Ok(map)
}

/// The data nodes by their data parents and names.
pub(crate) fn data_children_of(
    alloc: Global,
    modules: &Modules,
    forest: &[Branch],
    nodes: &[Option<u32>],
) -> Result<Children, NoMemory>
    requires few { length forest.now ≤ 65536 }
    requires known { AreInherited (with_data_node modules.now) None forest.now nodes.now }
    ensures { IfOk result (λ map. (q : Name) → get spec.key_cmp map q ≡ spec.first_with (spec.data_key modules.now forest.now) forest.now q) }
{
    let mut map = BTreeMap::new(alloc);
    for done in 0..forest.len() {
        let k = forest.len() - 1 - done;
        let branch = branch_at(forest, k);
        let key = data_key(alloc, modules, forest, nodes, branch)?;
        put(&mut map, key, k as u32)?;
    }
    Ok(map)
}

// ---- names in the statement of a node

/// The module of a name in a statement: without a prefix `owner`, else the module that the prefix names in `source`.
pub(crate) fn module_named(modules: &Modules, owner: u32, source: u32, text: &str) -> Option<u32>
    ensures { result ≡ paths.module_named modules.now owner source text.now }
{
    match text.split_once(':') {
        Some((prefix, _name)) => modules.imported(source, prefix),
        None => Some(owner),
    }
}

pub(crate) fn find(map: &Children, key: Key) -> Option<u32>
    ensures { result ≡ get spec.key_cmp map.now key }
{
    map.get(&key).copied()
}

/// The child of a name in the statement of a node, a leaf or another node.
pub(crate) fn child_named(
    nodes: &Nodes,
    branch: &Branch,
    leaf: bool,
    above: u32,
    text: &str,
) -> Result<Option<u32>, NoMemory>
    ensures { IfOk result (λ child. child ≡ spec.child_named nodes.now.modules.now nodes.now.forest.now branch.now leaf above text.now) }
{
    match module_named(nodes.modules, branch.module, branch.source, text) {
        None => Ok(None),
        Some(module) => {
            let name = Str::new(nodes.alloc, local_name(text))?;
            let key = Key {
                leaf,
                above: Some(above),
                module,
                name,
            };
            Ok(find(&nodes.tables.children, key))
        }
    }
}
