//! The tree of checked modules.
ghost use Rattle.std.specs.Prelude.{◌≡◌, ◌<◌, ◌≤◌, IfOk, MatchOption, map, length};
ghost use Rattle.sal_types.specs.Reading.{GivesUnless};
ghost use Rattle.sal_module.specs.Faults.{fault_of};
ghost use Rattle.sal_grouping.specs.Rows.{rows_of};
ghost use Rattle.sal_grouping.specs.Indexes.{AreTops};
ghost use Rattle.sal_grouping.specs.Plan.{IsPlan};
ghost use Rattle.sal_grouping.specs.Tables.{AreTables};
ghost use Rattle.sal_grouping.specs.Expand as spec;
ghost use Rattle.sal_grouping.specs.Grown as growing;

use crate::augments::{augment, target_fault};
use crate::children::child_fault;
use crate::forest::{Branch, Forest};
use crate::names::names_fault;
use crate::node::Node;
use crate::plan::{Plan, plan_of};
use crate::rows::Row;
use crate::tables::{Tables, tables_of};
use crate::trees::trees_of;
use sal_module::{BuildFault, Found, Modules, What};
use sal_types::NoMemory;
use std::alloc::Global;

fn branch_of(rows: &[Row], node: &Node) -> Branch
    ensures { result ≡ spec.branch_of rows.now node.now }
{
    let (source, at) = match rows.get(node.row) {
        None => (0, 0),
        Some(row) => (row.module, row.at),
    };
    Branch {
        parent: node.parent,
        module: node.module,
        source,
        at,
        implied: node.implied,
    }
}

pub(crate) fn branches_of(
    alloc: Global,
    rows: &[Row],
    nodes: &[Node],
) -> Result<Vec<Branch>, NoMemory>
    ensures { IfOk result (λ list. list.items ≡ map (spec.branch_of rows.now) nodes.now) }
{
    let mut list = Vec::with_capacity(alloc, nodes.len())?;
    for node in nodes {
        list.push(branch_of(rows, node))?;
    }
    Ok(list)
}

/// The nodes with every augment applied, and the pending augments, or none if the limit of nodes is exceeded.
pub(crate) fn built(
    alloc: Global,
    modules: &Modules,
    plan: &Plan,
) -> Result<Option<(Vec<Node>, Vec<usize>)>, NoMemory>
    requires planned { IsPlan plan.now.rows.items plan.now.named.items plan.now }
    requires rows { plan.now.rows.items ≡ rows_of modules.now }
    requires tops { AreTops modules.now plan.now.tops.items }
    ensures { IfOk result (λ r. MatchOption r (65536 < length (spec.built modules.now plan.now.rows.items plan.now.named.items).0)
        (λ p. ((p.0.items, p.1.items) ≡ spec.built modules.now plan.now.rows.items plan.now.named.items) × (length p.0.items ≤ 65536))) }
{
    let mut nodes = match trees_of(alloc, modules, plan)? {
        None => return Ok(None),
        Some(nodes) => nodes,
    };
    match augment(alloc, modules, plan, &mut nodes)? {
        None => Ok(None),
        Some(left) => Ok(Some((nodes, left))),
    }
}

/// The fault as `BuildFault`.
pub(crate) fn fault_in(alloc: Global, found: Found) -> BuildFault
    ensures { (result ≡ BuildFault.NoMemory → ⊥) → result ≡ fault_of found }
{
    match found.fault(alloc) {
        Ok(fault) => fault,
        Err(_) => BuildFault::NoMemory,
    }
}

/// The tree of these nodes, or the first fault: of the pending augments, then of the names of children.
fn forest_of(
    alloc: Global,
    rows: &[Row],
    nodes: &[Node],
    left: &[usize],
) -> Result<Forest, BuildFault>
    requires { length nodes.now ≤ 65536 }
    ensures { GivesUnless BuildFault.NoMemory (λ forest. forest) result (growing.closed rows.now (nodes.now, left.now)) }
{
    if let Some(found) = target_fault(rows, left) {
        return Err(fault_in(alloc, found));
    }
    if let Some(found) = child_fault(alloc, rows, nodes)? {
        return Err(fault_in(alloc, found));
    }
    Ok(Forest::from_items(branches_of(alloc, rows, nodes)?))
}

/// The tree by this plan, or the first fault of the checks after names.
fn grown(alloc: Global, modules: &Modules, plan: &Plan) -> Result<Forest, BuildFault>
    requires planned { IsPlan plan.now.rows.items plan.now.named.items plan.now }
    requires rows { plan.now.rows.items ≡ rows_of modules.now }
    requires tops { AreTops modules.now plan.now.tops.items }
    ensures { GivesUnless BuildFault.NoMemory (λ forest. forest) result (growing.grown plan.now.rows.items (spec.built modules.now plan.now.rows.items plan.now.named.items)) }
{
    match built(alloc, modules, plan)? {
        None => Err(BuildFault::TooMany { what: What::Nodes }),
        Some((nodes, left)) => forest_of(alloc, &plan.rows, nodes.as_slice(), left.as_slice()),
    }
}

/// The tree of the modules of these tables, or their first fault.
fn expand_tables(alloc: Global, modules: &Modules, tables: Tables) -> Result<Forest, BuildFault>
    requires { AreTables modules.now tables }
    ensures { GivesUnless BuildFault.NoMemory (λ forest. forest) result (spec.expand modules.now) }
{
    if let Some(found) = names_fault(alloc, modules, &tables)? {
        return Err(fault_in(alloc, found));
    }
    let plan = plan_of(alloc, modules, tables)?;
    grown(alloc, modules, &plan)
}

/// The nodes of these modules, with every `uses` and every augment applied, or the first fault.
///
/// The checks run in this order, each only if those before it found nothing: names, the number of nodes, the targets of
/// augments, and the names of children. Within one check the fault with the smallest module, then the smallest offset, then
/// the smallest number is returned. More than 65,536 nodes are `TooMany`.
pub fn expand(alloc: Global, modules: &Modules) -> Result<Forest, BuildFault>
    ensures { GivesUnless BuildFault.NoMemory (λ forest. forest) result (spec.expand modules.now) }
{
    expand_tables(alloc, modules, tables_of(alloc, modules)?)
}
