//! The nodes of all modules, without augments.
ghost use Rattle.std.specs.Prelude.{◌≡◌, ◌<◌, ◌≤◌, IfOk, None, MatchOption, true, false, length};
ghost use Rattle.sal_grouping.specs.Rows as rows_spec;
ghost use Rattle.sal_grouping.specs.Growth as growth;
ghost use Rattle.sal_grouping.specs.Indexes.{AreTops};
ghost use Rattle.sal_grouping.specs.Plan.{IsPlan};

use crate::grow::{grow, seeds_in};
use crate::look_up::top_of;
use crate::node::Node;
use crate::plan::Plan;
use sal_module::Modules;
use sal_types::NoMemory;
use std::alloc::Global;

/// Appends the nodes of a module. The answer is false if the limit is exceeded.
pub(crate) fn push_module(
    alloc: Global,
    modules: &Modules,
    plan: &Plan,
    nodes: &mut Vec<Node>,
    m: u32,
) -> Result<bool, NoMemory>
    requires planned { IsPlan plan.now.rows.items plan.now.named.items plan.now }
    requires rows { plan.now.rows.items ≡ rows_spec.rows_of modules.now }
    requires tops { AreTops modules.now plan.now.tops.items }
    requires small { length nodes.old.items ≤ 65536 }
    ensures few { IfOk result (λ all. all ≡ true → nodes.new.items ≡ growth.module_grown modules.now plan.now.rows.items plan.now.named.items nodes.old.items m) }
    ensures fits { IfOk result (λ all. all ≡ true → length nodes.new.items ≤ 65536) }
    ensures many { IfOk result (λ all. all ≡ false → 65536 < length (growth.module_grown modules.now plan.now.rows.items plan.now.named.items nodes.old.items m)) }
{
    let top = top_of(modules, &plan.rows, &plan.tops, m);
    match seeds_in(alloc, plan, None, top)? {
        None => Ok(false),
        Some(seeds) => {
            let all = grow(alloc, plan, m, None, nodes, seeds)?;
            Ok(all)
        }
    }
}

/// The nodes of all modules, or none if they exceed the limit.
pub(crate) fn trees_of(
    alloc: Global,
    modules: &Modules,
    plan: &Plan,
) -> Result<Option<Vec<Node>>, NoMemory>
    requires planned { IsPlan plan.now.rows.items plan.now.named.items plan.now }
    requires rows { plan.now.rows.items ≡ rows_spec.rows_of modules.now }
    requires tops { AreTops modules.now plan.now.tops.items }
    ensures { IfOk result (λ r. MatchOption r (65536 < length (growth.trees_of modules.now plan.now.rows.items plan.now.named.items))
        (λ nodes. (nodes.items ≡ growth.trees_of modules.now plan.now.rows.items plan.now.named.items) × (length nodes.items ≤ 65536))) }
{
    let mut nodes = Vec::new(alloc);
    for (m, _stmt) in modules.items().iter().enumerate() {
        let all = push_module(alloc, modules, plan, &mut nodes, m as u32)?;
        if !all {
            return Ok(None);
        }
    }
    Ok(Some(nodes))
}
