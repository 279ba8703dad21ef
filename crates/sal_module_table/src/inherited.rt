//! Properties that a node has from its parent.
ghost use Rattle.std.specs.Prelude.{◌≡◌, ◌≤◌, Some, None, true, IfOk, length, slice_index_or};
ghost use Rattle.std.specs.Option.{option_copied};
ghost use Rattle.sal_module_table.specs.Inherited as spec;
ghost use Rattle.sal_module_table.specs.Nodes as nodes;

use crate::node::{is_operation, kind_in, kind_of, own_config, own_in, stmt_of};
use sal_grouping::Branch;
use sal_module::Modules;
use sal_schema::Kind;
use sal_stmt::Stmt;
use sal_types::NoMemory;
use std::alloc::Global;

// ---- config

fn config_over(done: &[Option<bool>], k: usize, parent: Option<u32>) -> Option<bool>
    requires { k ≤ length done.now }
    ensures { result ≡ spec.above (λ p. slice_index_or done.now p (Some true)) (Some true) k parent }
{
    match parent {
        None => Some(true),
        Some(p) => {
            if (p as usize) < k {
                done[p as usize]
            } else {
                Some(true)
            }
        }
    }
}

fn config_in(kind: Kind, own: Option<&Stmt>, over: Option<bool>) -> Option<bool>
    ensures { result ≡ spec.config_in kind (option_copied own.entry) over }
{
    if is_operation(kind) {
        return None;
    }
    match over {
        None => None,
        Some(config) => match own_config(own) {
            None => Some(config),
            Some(own) => Some(own),
        },
    }
}

/// Whether a node is configuration, by its parent.
fn config_of(modules: &Modules, branch: &Branch, over: Option<bool>) -> Option<bool>
    ensures { result ≡ spec.config_in (nodes.kind_of modules.now branch.now) (nodes.own_stmt modules.now branch.now) over }
{
    let stmt = stmt_of(modules, branch);
    config_in(
        kind_in(stmt, branch.implied),
        own_in(stmt, branch.implied),
        over,
    )
}

/// Whether each node is configuration; none in operations.
pub(crate) fn configs_of(
    alloc: Global,
    modules: &Modules,
    forest: &[Branch],
) -> Result<Vec<Option<bool>>, NoMemory>
    ensures { IfOk result (λ all. spec.AreInherited (spec.with_config modules.now) (Some true) forest.now all.items) }
{
    let mut all = Vec::with_capacity(alloc, forest.len())?;
    for (k, branch) in forest.iter().enumerate() {
        let over = config_over(&all, k, branch.parent);
        all.push(config_of(modules, branch, over))?;
    }
    Ok(all)
}

/// Whether a child of this parent would be configuration by default; at the top it is.
pub(crate) fn config_at(
    modules: &Modules,
    forest: &[Branch],
    configs: &[Option<bool>],
    place: Option<u32>,
) -> Option<bool>
    requires { spec.AreInherited (spec.with_config modules.now) (Some true) forest.now configs.now }
    ensures { result ≡ spec.config_above modules.now forest.now place }
{
    match place {
        None => Some(true),
        Some(p) => {
            if (p as usize) < configs.len() {
                configs[p as usize]
            } else {
                Some(true)
            }
        }
    }
}

// ---- data parents

pub(crate) fn data_over(done: &[Option<u32>], k: usize, parent: Option<u32>) -> Option<u32>
    requires { k ≤ length done.now }
    ensures { result ≡ spec.above (λ p. slice_index_or done.now p None) None k parent }
{
    match parent {
        None => None,
        Some(p) => {
            if (p as usize) < k {
                done[p as usize]
            } else {
                None
            }
        }
    }
}

fn data_in(kind: Kind, k: u32, over: Option<u32>) -> Option<u32>
    ensures { result ≡ spec.data_node_in kind k over }
{
    if kind.is_choice_or_case() {
        over
    } else {
        Some(k)
    }
}

/// For each node, the data parent of its children.
pub(crate) fn data_nodes_of(
    alloc: Global,
    modules: &Modules,
    forest: &[Branch],
) -> Result<Vec<Option<u32>>, NoMemory>
    requires { length forest.now ≤ 65536 }
    ensures { IfOk result (λ all. spec.AreInherited (spec.with_data_node modules.now) None forest.now all.items) }
{
    let mut all = Vec::with_capacity(alloc, forest.len())?;
    for (k, branch) in forest.iter().enumerate() {
        let over = data_over(&all, k, branch.parent);
        all.push(data_in(kind_of(modules, branch), k as u32, over))?;
    }
    Ok(all)
}

/// The data parent of the children of this node.
pub(crate) fn data_parent(
    modules: &Modules,
    forest: &[Branch],
    nodes: &[Option<u32>],
    place: Option<u32>,
) -> Option<u32>
    requires { spec.AreInherited (spec.with_data_node modules.now) None forest.now nodes.now }
    ensures { result ≡ spec.data_parent modules.now forest.now place }
{
    match place {
        None => None,
        Some(p) => {
            if (p as usize) < nodes.len() {
                nodes[p as usize]
            } else {
                None
            }
        }
    }
}
