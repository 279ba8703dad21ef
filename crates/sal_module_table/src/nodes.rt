//! All nodes, with their indexes.
ghost use Rattle.sal_module_table.specs.Lists.{AreTables};

use crate::tables::Tables;
use sal_grouping::Branch;
use sal_module::Modules;
use std::alloc::Global;

/// The nodes of modules, with indexes by number and by name.
#[derive(Drop)]
pub(crate) struct Nodes<'a> {
    pub alloc: Global,
    pub modules: &'a Modules,
    pub forest: &'a [Branch],
    pub tables: &'a Tables,
    pub ghost looked_up: { AreTables modules.now forest.now tables.now },
}
