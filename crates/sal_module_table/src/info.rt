//! The nodes of the table.
ghost use Rattle.std.specs.Prelude.{◌≡◌, ◌+◌, ◌++◌, ◌<◌, IfOk, None, Some, if◌then◌else◌};
ghost use Rattle.sal_module_table.specs.Lists as lists;
ghost use Rattle.sal_module_table.specs.Nodes.{kind_of as node_kind};
ghost use Rattle.sal_module_table.specs.Table as spec;
ghost use Rattle.sal_schema.specs.Kinds as kinds;

use crate::lists::{block_of, config_above, given, is_list, keys_named, uniques_named};
use crate::node::{
    is_mandatory, kind_in, kind_of, max_elements, min_elements, name_in, own_in, stmt_of,
};
use crate::nodes::Nodes;
use sal_grouping::Branch;
use sal_module::{Keyword, Modules, argument_of, is_named};
use sal_schema::{Kind, Leafs, NodeInfo};
use sal_stmt::Stmt;
use sal_types::{NoMemory, Seq, Str, append};

/// Appends the keys that a statement names.
fn push_keys(
    keys: &mut Vec<u32>,
    nodes: &Nodes,
    k: u32,
    branch: &Branch,
    sub: &Stmt,
) -> Result<(), NoMemory>
    ensures { IfOk result (λ _. keys.new.items ≡ keys.old.items ++ lists.keys_in nodes.now.modules.now nodes.now.forest.now k branch.now sub.now) }
{
    if !is_named(Keyword::Key, sub) {
        return Ok(());
    }
    let named = keys_named(nodes, k, branch, argument_of(sub))?;
    let leafs = given(nodes.alloc, &named)?;
    keys.extend_from_slice(&leafs)?;
    Ok(())
}

fn keys_of(nodes: &Nodes, k: u32, branch: &Branch, kind: Kind) -> Result<Vec<u32>, NoMemory>
    requires { kind ≡ node_kind nodes.now.modules.now branch.now }
    ensures { IfOk result (λ keys. keys.items ≡ lists.keys_of nodes.now.modules.now nodes.now.forest.now k branch.now) }
{
    let mut keys = Vec::new(nodes.alloc);
    if !is_list(kind) {
        return Ok(keys);
    }
    for sub in block_of(nodes.modules, branch) {
        push_keys(&mut keys, nodes, k, branch, sub)?;
    }
    Ok(keys)
}

/// Appends the unique leafs that a statement names.
fn push_unique(
    uniques: &mut Vec<Leafs>,
    nodes: &Nodes,
    k: u32,
    branch: &Branch,
    sub: &Stmt,
) -> Result<(), NoMemory>
    ensures { IfOk result (λ _. uniques.new.items ≡ uniques.old.items ++ lists.uniques_in nodes.now.modules.now nodes.now.forest.now k branch.now sub.now) }
{
    if !is_named(Keyword::Unique, sub) {
        return Ok(());
    }
    let named = uniques_named(nodes, k, branch, argument_of(sub))?;
    append(uniques, Seq::from_items(given(nodes.alloc, &named)?))?;
    Ok(())
}

fn uniques_of(nodes: &Nodes, k: u32, branch: &Branch, kind: Kind) -> Result<Vec<Leafs>, NoMemory>
    requires { kind ≡ node_kind nodes.now.modules.now branch.now }
    ensures { IfOk result (λ uniques. uniques.items ≡ lists.uniques_of nodes.now.modules.now nodes.now.forest.now k branch.now) }
{
    let mut uniques = Vec::new(nodes.alloc);
    if !is_list(kind) {
        return Ok(uniques);
    }
    for sub in block_of(nodes.modules, branch) {
        push_unique(&mut uniques, nodes, k, branch, sub)?;
    }
    Ok(uniques)
}

fn has_type(kind: Kind) -> bool
    ensures { result ≡ kinds.has_type kind }
{
    match kind {
        Kind::Leaf => true,
        Kind::LeafList => true,
        _ => false,
    }
}

/// Whether a node has a type.
pub(crate) fn is_typed(modules: &Modules, branch: &Branch) -> bool
    ensures { result ≡ spec.is_typed modules.now branch.now }
{
    has_type(kind_of(modules, branch))
}

fn type_number(kind: Kind, n: u32) -> Option<u32>
    ensures { result ≡ (if kinds.has_type kind then Some n else None) }
{
    if has_type(kind) { Some(n) } else { None }
}

fn info_of(nodes: &Nodes, k: u32, branch: &Branch, types: u32) -> Result<NodeInfo, NoMemory>
    requires { types ≡ spec.types_before nodes.now.modules.now nodes.now.forest.now k }
    ensures { IfOk result (λ info. info ≡ spec.info_of nodes.now.modules.now nodes.now.forest.now k branch.now) }
{
    let stmt = stmt_of(nodes.modules, branch);
    let kind = kind_in(stmt, branch.implied);
    let own = own_in(stmt, branch.implied);
    Ok(NodeInfo {
        parent: branch.parent,
        kind,
        module: branch.module,
        name: Str::new(nodes.alloc, name_in(kind, stmt))?,
        config: config_above(nodes, Some(k)),
        ty: type_number(kind, types),
        keys: Seq::from_items(keys_of(nodes, k, branch, kind)?),
        mandatory: is_mandatory(own),
        min_elements: min_elements(own),
        max_elements: max_elements(own),
        unique: Seq::from_items(uniques_of(nodes, k, branch, kind)?),
    })
}

fn after(types: u32, typed: bool) -> u32
    requires { types < 65536 }
    ensures { result ≡ (if typed then types + 1 else types) }
{
    if typed { types + 1 } else { types }
}

/// The nodes of the table.
pub(crate) fn infos_of(nodes: &Nodes) -> Result<Vec<NodeInfo>, NoMemory>
    ensures { IfOk result (λ infos. infos.items ≡ spec.infos_of nodes.now.modules.now nodes.now.forest.now) }
{
    let mut infos = Vec::with_capacity(nodes.alloc, nodes.forest.len())?;
    let mut types = 0;
    for (k, branch) in nodes.forest.iter().enumerate() {
        append(&mut infos, info_of(nodes, k as u32, branch, types)?)?;
        types = after(types, is_typed(nodes.modules, branch));
    }
    Ok(infos)
}
