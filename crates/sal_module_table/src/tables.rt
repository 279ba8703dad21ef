//! Indexes of a forest.
ghost use Rattle.std.specs.Prelude.{◌≤◌, IfOk, length};
ghost use Rattle.sal_module_table.specs.Lists.{AreTables};

use crate::child::{Children, children_of};
use crate::inherited::{configs_of, data_nodes_of};
use sal_grouping::Branch;
use sal_module::Modules;
use sal_types::NoMemory;
use std::alloc::Global;

/// Properties of nodes by number and by name.
#[derive(Drop)]
pub(crate) struct Tables {
    /// Whether each node is configuration; none in operations.
    pub configs: Vec<Option<bool>>,
    /// For each node, the data parent of its children.
    pub data_nodes: Vec<Option<u32>>,
    /// The nodes by their parents and names.
    pub children: Children,
}

/// The indexes of a forest.
pub(crate) fn tables_of(
    alloc: Global,
    modules: &Modules,
    forest: &[Branch],
) -> Result<Tables, NoMemory>
    requires { length forest.now ≤ 65536 }
    ensures { IfOk result (λ tables. AreTables modules.now forest.now tables) }
{
    let configs = configs_of(alloc, modules, forest)?;
    let data_nodes = data_nodes_of(alloc, modules, forest)?;
    let children = children_of(alloc, modules, forest)?;
    Ok(Tables {
        configs,
        data_nodes,
        children,
    })
}
