//! The nodes of a version of modules, with which the next version begins.
ghost use Rattle.std.specs.Prelude.{◌≡◌, ◌<◌, ◌≤◌, ◌-◌, ◌++◌, IfOk, IfSome, IfNone, IsSome, MatchOption, true, false, map, length};
ghost use Rattle.sal_types.specs.Reading.{GivesUnless};
ghost use Rattle.sal_grouping.specs.Expand.{branch_of};
ghost use Rattle.sal_grouping.specs.Expand as expanding;
ghost use Rattle.sal_grouping.specs.Indexes.{AreTops};
ghost use Rattle.sal_grouping.specs.Plan.{IsPlan};
ghost use Rattle.sal_grouping.specs.Rows.{rows_of};
ghost use Rattle.sal_grouping.specs.Tables.{AreTables};
ghost use Rattle.sal_grouping.specs.Versions as spec;

use crate::augments::{rounds, target_fault};
use crate::children::child_fault;
use crate::forest::Forest;
use crate::names::names_fault;
use crate::node::Node;
use crate::plan::{Plan, plan_of};
use crate::rows::Row;
use crate::tables::{Tables, tables_of};
use crate::trees::push_module;
use crate::whole::{branches_of, built, fault_in};
use sal_module::{BuildFault, Keyword, Modules, What};
use sal_types::NoMemory;
use std::alloc::Global;
use std::marker::Model;

/// The nodes of a version, in the order of their numbers, each with its statement. The next version adds to them. A contract sees the list.
#[derive(Drop)]
pub struct Growth {
    list: Vec<Node>,
}

impl Model for Growth {
    ghost use Rattle.std.specs.Prelude.{List, ◌≤◌, length};
    ghost use Rattle.sal_grouping.specs.declared.node.Node.{Node as Knot};

    ghost Value = { List Knot };

    ghost view = { λ a. a.list.items };

    ghost invariant = { λ a. length a.list.items ≤ 65536 };
}

impl Growth {
    /// The nodes as a forest. `modules` are those of the version, or have them as a prefix.
    pub fn forest(&self, alloc: Global, modules: &Modules) -> Result<Forest, NoMemory>
        ensures forest { IfOk result (λ forest. forest ≡ map (branch_of (rows_of modules.now)) self.now) }
        ensures few { IfOk result (λ forest. length forest ≤ 65536) }
    {
        let tables = tables_of(alloc, modules)?;
        let list = branches_of(alloc, &tables.rows, &self.list)?;
        Ok(Forest::from_items(list))
    }
}

// ---- the first version

/// The nodes by this plan, or the first fault of the checks after names.
fn grown_first(alloc: Global, modules: &Modules, plan: &Plan) -> Result<Growth, BuildFault>
    requires planned { IsPlan plan.now.rows.items plan.now.named.items plan.now }
    requires rows { plan.now.rows.items ≡ rows_of modules.now }
    requires tops { AreTops modules.now plan.now.tops.items }
    ensures { GivesUnless BuildFault.NoMemory (λ growth. growth) result (spec.judged_on plan.now.rows.items (expanding.built modules.now plan.now.rows.items plan.now.named.items)) }
{
    match built(alloc, modules, plan)? {
        None => Err(BuildFault::TooMany { what: What::Nodes }),
        Some((nodes, left)) => growth_of(alloc, &plan.rows, nodes, left.as_slice()),
    }
}

fn grow_tables(alloc: Global, modules: &Modules, tables: Tables) -> Result<Growth, BuildFault>
    requires { AreTables modules.now tables }
    ensures { GivesUnless BuildFault.NoMemory (λ growth. growth) result (expanding.expanded modules.now (rows_of modules.now)) }
{
    if let Some(found) = names_fault(alloc, modules, &tables)? {
        return Err(fault_in(alloc, found));
    }
    let plan = plan_of(alloc, modules, tables)?;
    grown_first(alloc, modules, &plan)
}

/// The nodes of these modules, or their first fault. They are the nodes of `expand`, each with its statement.
pub fn first_growth(alloc: Global, modules: &Modules) -> Result<Growth, BuildFault>
    ensures { GivesUnless BuildFault.NoMemory (λ growth. growth) result (expanding.expanded modules.now (rows_of modules.now)) }
{
    grow_tables(alloc, modules, tables_of(alloc, modules)?)
}

// ---- the additions

/// Appends the nodes of the modules from index `old` on. The answer is false if that exceeds the limit.
fn trees_on(
    alloc: Global,
    modules: &Modules,
    plan: &Plan,
    old: u32,
    nodes: &mut Vec<Node>,
) -> Result<bool, NoMemory>
    requires planned { IsPlan plan.now.rows.items plan.now.named.items plan.now }
    requires rows { plan.now.rows.items ≡ rows_of modules.now }
    requires tops { AreTops modules.now plan.now.tops.items }
    requires small { length nodes.old.items ≤ 65536 }
    requires old { old ≤ length modules.now }
    ensures few { IfOk result (λ all. all ≡ true → nodes.new.items ≡ spec.trees_from (length modules.now - old) modules.now plan.now.rows.items plan.now.named.items old nodes.old.items) }
    ensures fits { IfOk result (λ all. all ≡ true → length nodes.new.items ≤ 65536) }
    ensures many { IfOk result (λ all. all ≡ false → 65536 < length (spec.trees_from (length modules.now - old) modules.now plan.now.rows.items plan.now.named.items old nodes.old.items)) }
{
    let count = modules.items().len() as u32;
    for m in old..count {
        let all = push_module(alloc, modules, plan, nodes, m)?;
        if !all {
            return Ok(false);
        }
    }
    Ok(true)
}

fn push_new_augment(
    augments: &mut Vec<usize>,
    old: u32,
    row: &Row,
    k: usize,
) -> Result<(), NoMemory>
    ensures { IfOk result (λ _. augments.new.items ≡ augments.old.items ++ spec.new_augment_at old k row.now) }
{
    if old <= row.module && row.keyword == Keyword::Augment {
        augments.push(k)?;
    }
    Ok(())
}

/// The augments of the modules from index `old` on, in the order of the modules and their texts.
fn new_augments(alloc: Global, old: u32, rows: &[Row]) -> Result<Vec<usize>, NoMemory>
    ensures { IfOk result (λ augments. augments.items ≡ spec.new_augments old rows.now) }
{
    let mut augments = Vec::new(alloc);
    for (k, row) in rows.iter().enumerate() {
        push_new_augment(&mut augments, old, row, k)?;
    }
    Ok(augments)
}

/// Applies the new augments in rounds. The answer is the pending ones, or none if the limit of nodes is exceeded.
fn augment_on(
    alloc: Global,
    modules: &Modules,
    plan: &Plan,
    old: u32,
    nodes: &mut Vec<Node>,
) -> Result<Option<Vec<usize>>, NoMemory>
    requires planned { IsPlan plan.now.rows.items plan.now.named.items plan.now }
    requires small { length nodes.old.items ≤ 65536 }
    ensures few { IfOk result (λ r. IfSome r (λ left. (nodes.new.items, left.items)
        ≡ spec.carried_on modules.now plan.now.rows.items plan.now.named.items old nodes.old.items)) }
    ensures fits { IfOk result (λ r. IsSome r → length nodes.new.items ≤ 65536) }
    ensures many { IfOk result (λ r. IfNone r (65536 < length (spec.carried_on modules.now plan.now.rows.items plan.now.named.items old nodes.old.items).0)) }
{
    let augments = new_augments(alloc, old, &plan.rows)?;
    let left = rounds(alloc, modules, plan, nodes, augments)?;
    Ok(left)
}

/// The nodes with all additions, and the pending augments, or none if the limit of nodes is exceeded.
fn built_on(
    alloc: Global,
    modules: &Modules,
    plan: &Plan,
    old: u32,
    before: Vec<Node>,
) -> Result<Option<(Vec<Node>, Vec<usize>)>, NoMemory>
    requires planned { IsPlan plan.now.rows.items plan.now.named.items plan.now }
    requires rows { plan.now.rows.items ≡ rows_of modules.now }
    requires tops { AreTops modules.now plan.now.tops.items }
    requires small { length before.items ≤ 65536 }
    requires old { old ≤ length modules.now }
    ensures { IfOk result (λ r. MatchOption r (65536 < length (spec.grown_on modules.now plan.now.rows.items plan.now.named.items old before.items).0)
        (λ p. ((p.0.items, p.1.items) ≡ spec.grown_on modules.now plan.now.rows.items plan.now.named.items old before.items) × (length p.0.items ≤ 65536))) }
{
    let mut nodes = before;
    let all = trees_on(alloc, modules, plan, old, &mut nodes)?;
    if !all {
        return Ok(None);
    }
    match augment_on(alloc, modules, plan, old, &mut nodes)? {
        None => Ok(None),
        Some(left) => Ok(Some((nodes, left))),
    }
}

// ---- a version

/// These nodes, or the first fault: of the pending augments, then of the names of children.
fn growth_of(
    alloc: Global,
    rows: &[Row],
    nodes: Vec<Node>,
    left: &[usize],
) -> Result<Growth, BuildFault>
    requires { length nodes.items ≤ 65536 }
    ensures { GivesUnless BuildFault.NoMemory (λ growth. growth) result (spec.closed_on rows.now (nodes.items, left.now)) }
{
    if let Some(found) = target_fault(rows, left) {
        return Err(fault_in(alloc, found));
    }
    if let Some(found) = child_fault(alloc, rows, &nodes)? {
        return Err(fault_in(alloc, found));
    }
    Ok(Growth { list: nodes })
}

/// The older nodes with the additions after them, or the first fault of the checks after names.
fn grown_on(
    alloc: Global,
    modules: &Modules,
    plan: &Plan,
    old: u32,
    before: Vec<Node>,
) -> Result<Growth, BuildFault>
    requires planned { IsPlan plan.now.rows.items plan.now.named.items plan.now }
    requires rows { plan.now.rows.items ≡ rows_of modules.now }
    requires tops { AreTops modules.now plan.now.tops.items }
    requires small { length before.items ≤ 65536 }
    requires old { old ≤ length modules.now }
    ensures { GivesUnless BuildFault.NoMemory (λ growth. growth) result (spec.judged_on plan.now.rows.items (spec.grown_on modules.now plan.now.rows.items plan.now.named.items old before.items)) }
{
    match built_on(alloc, modules, plan, old, before)? {
        None => Err(BuildFault::TooMany { what: What::Nodes }),
        Some((nodes, left)) => growth_of(alloc, &plan.rows, nodes, left.as_slice()),
    }
}

fn copied(alloc: Global, nodes: &[Node]) -> Result<Vec<Node>, NoMemory>
    ensures { IfOk result (λ list. list.items ≡ nodes.now) }
{
    let mut list = Vec::with_capacity(alloc, nodes.len())?;
    for node in nodes {
        list.push(*node)?;
    }
    Ok(list)
}

/// The nodes of a version of these modules, of which the first `old` are those of the earlier version: the nodes of that version, then the
/// trees of the new modules, then the nodes of their augments; or the first fault.
///
/// Call `expand` on the modules first: it finds the faults of names, and those of all modules together.
pub fn next_growth(
    alloc: Global,
    modules: &Modules,
    old: u32,
    before: &Growth,
) -> Result<Growth, BuildFault>
    requires { old ≤ length modules.now }
    ensures { GivesUnless BuildFault.NoMemory (λ growth. growth) result (spec.expanded_on modules.now old before.now) }
{
    let tables = tables_of(alloc, modules)?;
    let plan = plan_of(alloc, modules, tables)?;
    let nodes = copied(alloc, &before.list)?;
    grown_on(alloc, modules, &plan, old, nodes)
}
