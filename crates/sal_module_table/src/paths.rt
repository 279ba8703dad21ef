//! All nodes, with the indexes for the paths of leafrefs.
ghost use Rattle.sal_module_table.specs.Leafrefs.{AreWays};

use crate::walk::Ways;
use sal_grouping::Branch;
use sal_module::Modules;
use std::alloc::Global;

/// The nodes of modules, with the indexes for paths.
#[derive(Drop)]
pub(crate) struct Paths<'a> {
    pub alloc: Global,
    pub modules: &'a Modules,
    pub forest: &'a [Branch],
    pub ways: &'a Ways,
    pub ghost followed: { AreWays modules.now forest.now ways.now },
}
