//! Augments, applied in rounds.
ghost use Rattle.std.specs.Prelude.{◌≡◌, ◌<◌, ◌≤◌, ◌+◌, ◌++◌, IfOk, IfSome, IfNone, IsSome, None, Some, true, false, length, option_and_then};
ghost use Rattle.std.specs.List.{slice_get};
ghost use Rattle.sal_module.specs.Faults.{least};
ghost use Rattle.sal_grouping.specs.Rows as rows_spec;
ghost use Rattle.sal_grouping.specs.Plan.{IsPlan};
ghost use Rattle.sal_grouping.specs.Augments as spec;
ghost use Rattle.sal_grouping.specs.Tried.{Tells};

use crate::forest::Implied;
use crate::grow::{find_inside, grow, keyword_at, seeds_in};
use crate::look_up::Step;
use crate::names::{path_of, with_fault};
use crate::node::Node;
use crate::nodes::nodes_in;
use crate::plan::Plan;
use crate::rows::Row;
use sal_module::{Cause, Found, Keyword, Modules};
use sal_types::NoMemory;
use std::alloc::Global;

// ---- a node and its name

/// The keyword of a node's statement, or the implied keyword.
pub(crate) fn kind_of(rows: &[Row], node: &Node) -> Option<Keyword>
    ensures { result ≡ spec.kind_of rows.now node.now }
{
    match node.implied {
        None => keyword_at(rows, node.row),
        Some(Implied::Case) => Some(Keyword::Case),
        Some(Implied::Input) => Some(Keyword::Input),
        Some(Implied::Output) => Some(Keyword::Output),
    }
}

fn row_name<'r>(rows: &'r [Row], k: usize) -> &'r str
    ensures { result.now ≡ spec.row_name rows.now k }
{
    match rows.get(k) {
        None => "",
        Some(row) => row.name.as_str(),
    }
}

/// The name of a node.
pub(crate) fn name_of<'r>(rows: &'r [Row], node: &Node) -> &'r str
    ensures { result.now ≡ spec.name_of rows.now node.now }
{
    match kind_of(rows, node) {
        Some(Keyword::Input) => "input",
        Some(Keyword::Output) => "output",
        _ => row_name(rows, node.row),
    }
}

// ---- targets

pub(crate) fn same_place(a: Option<u32>, b: Option<u32>) -> bool
    ensures { result ≡ spec.same_place a b }
{
    match a {
        None => b.is_none(),
        Some(a) => match b {
            None => false,
            Some(b) => a == b,
        },
    }
}

fn is_module(module: u32, wanted: Option<u32>) -> bool
    ensures { result ≡ rows_spec.is_block «module» wanted }
{
    match wanted {
        None => false,
        Some(wanted) => wanted == module,
    }
}

fn is_child(rows: &[Row], parent: Option<u32>, step: &Step, node: &Node) -> bool
    ensures { result ≡ spec.is_child rows.now parent step.now node.now }
{
    same_place(node.parent, parent)
        && is_module(node.module, step.0)
        && name_of(rows, node) == step.1.as_str()
}

/// The child to which a step leads: of several, the one with the smallest number.
fn child_of(rows: &[Row], nodes: &[Node], parent: Option<u32>, step: &Step) -> Option<u32>
    requires { length nodes.now ≤ 65536 }
    ensures { result ≡ spec.child_of rows.now nodes.now parent step.now }
{
    for (i, node) in nodes.iter().enumerate() {
        if is_child(rows, parent, step, node) {
            return Some(i as u32);
        }
    }
    None
}

/// The node to which a path leads from the top.
fn follow(rows: &[Row], nodes: &[Node], path: &[Step]) -> Option<u32>
    requires { length nodes.now ≤ 65536 }
    ensures { result ≡ spec.follow rows.now nodes.now None path.now }
{
    let mut at = None;
    for step in path {
        match child_of(rows, nodes, at, step) {
            None => return None,
            Some(k) => at = Some(k),
        }
    }
    at
}

// ---- which nodes a node may have

fn holds_data(kind: Option<Keyword>) -> bool
    ensures { result ≡ spec.holds_data kind }
{
    match kind {
        None => false,
        Some(kind) => match kind {
            Keyword::Container
            | Keyword::List
            | Keyword::Case
            | Keyword::Input
            | Keyword::Output
            | Keyword::Notification => true,
            _ => false,
        },
    }
}

/// Whether a node of this kind may have the nodes of an augment; `any` says whether the augment has nodes.
fn can_hold(plan: &Plan, kind: Option<Keyword>, k: usize, any: bool) -> bool
    requires { IsPlan plan.now.rows.items plan.now.named.items plan.now }
    ensures { result ≡ spec.can_hold plan.now.rows.items kind k any }
{
    if !any {
        return true;
    }
    match kind {
        Some(Keyword::Choice) => true,
        _ => holds_data(kind) && find_inside(plan, Keyword::Case, k).is_none(),
    }
}

fn has_nodes(alloc: Global, plan: &Plan, k: usize) -> Result<bool, NoMemory>
    requires { IsPlan plan.now.rows.items plan.now.named.items plan.now }
    ensures { IfOk result (λ any. any ≡ spec.has_nodes plan.now.rows.items plan.now.named.items k) }
{
    match nodes_in(alloc, plan, k)? {
        None => Ok(true),
        Some(nodes) => Ok(nodes.len() > 0),
    }
}

// ---- one augment

/// The result of trying an augment.
#[derive(Clone, Copy)]
enum Tried {
    /// Its nodes were added.
    Carried,
    /// No target exists that may have them.
    Left,
    /// With its nodes the limit is exceeded.
    Past,
}

fn node_kind(rows: &[Row], nodes: &[Node], k: u32) -> Option<Keyword>
    ensures { result ≡ option_and_then (spec.kind_of rows.now) (slice_get nodes.now k) }
{
    match nodes.get(k as usize) {
        None => None,
        Some(node) => kind_of(rows, node),
    }
}

/// The nodes of an augment are added below its target, if that may have them.
fn carry_to(
    alloc: Global,
    plan: &Plan,
    nodes: &mut Vec<Node>,
    owner: u32,
    k: usize,
    target: u32,
) -> Result<Tried, NoMemory>
    requires planned { IsPlan plan.now.rows.items plan.now.named.items plan.now }
    requires small { length nodes.old.items ≤ 65536 }
    ensures { IfOk result (λ tried. Tells tried
        (spec.carried_to plan.now.rows.items plan.now.named.items owner k nodes.old.items target (option_and_then (spec.kind_of plan.now.rows.items) (slice_get nodes.old.items target)))
        nodes.old.items nodes.new.items) }
{
    let kind = node_kind(&plan.rows, nodes.as_slice(), target);
    let any = has_nodes(alloc, plan, k)?;
    if !can_hold(plan, kind, k, any) {
        return Ok(Tried::Left);
    }
    match seeds_in(alloc, plan, kind, k)? {
        None => Ok(Tried::Past),
        Some(seeds) => {
            let all = grow(alloc, plan, owner, Some(target), nodes, seeds)?;
            Ok(if all { Tried::Carried } else { Tried::Past })
        }
    }
}

/// Tries an augment.
fn try_augment(
    alloc: Global,
    modules: &Modules,
    plan: &Plan,
    nodes: &mut Vec<Node>,
    k: usize,
) -> Result<Tried, NoMemory>
    requires planned { IsPlan plan.now.rows.items plan.now.named.items plan.now }
    requires small { length nodes.old.items ≤ 65536 }
    ensures { IfOk result (λ tried. Tells tried
        (spec.carried modules.now plan.now.rows.items plan.now.named.items nodes.old.items k (slice_get plan.now.rows.items k)) nodes.old.items nodes.new.items) }
{
    let row = match plan.rows.get(k) {
        None => return Ok(Tried::Left),
        Some(row) => row,
    };
    let path = path_of(alloc, modules, row)?;
    match follow(&plan.rows, nodes.as_slice(), path.as_slice()) {
        None => Ok(Tried::Left),
        Some(target) => {
            let tried = carry_to(alloc, plan, nodes, row.module, k, target)?;
            Ok(tried)
        }
    }
}

// ---- rounds

/// Tries one more augment: if it is not applied, it joins the pending ones. The answer is false if the limit is exceeded.
fn try_next(
    alloc: Global,
    modules: &Modules,
    plan: &Plan,
    nodes: &mut Vec<Node>,
    still: &mut Vec<usize>,
    k: usize,
) -> Result<bool, NoMemory>
    requires planned { IsPlan plan.now.rows.items plan.now.named.items plan.now }
    requires small { length nodes.old.items ≤ 65536 }
    ensures few { IfOk result (λ all. all ≡ true → (nodes.new.items, still.new.items)
        ≡ spec.tried modules.now plan.now.rows.items plan.now.named.items (nodes.old.items, still.old.items) k) }
    ensures fits { IfOk result (λ all. all ≡ true → length nodes.new.items ≤ 65536) }
    ensures many { IfOk result (λ all. all ≡ false →
        65536 < length (spec.tried modules.now plan.now.rows.items plan.now.named.items (nodes.old.items, still.old.items) k).0) }
{
    match try_augment(alloc, modules, plan, nodes, k)? {
        Tried::Carried => Ok(true),
        Tried::Left => {
            still.push(k)?;
            Ok(true)
        }
        Tried::Past => Ok(false),
    }
}

/// Tries all these augments once. The answer is the pending ones, or none if the limit of nodes is exceeded.
fn round(
    alloc: Global,
    modules: &Modules,
    plan: &Plan,
    nodes: &mut Vec<Node>,
    left: &[usize],
) -> Result<Option<Vec<usize>>, NoMemory>
    requires planned { IsPlan plan.now.rows.items plan.now.named.items plan.now }
    requires small { length nodes.old.items ≤ 65536 }
    ensures few { IfOk result (λ r. IfSome r (λ still. (nodes.new.items, still.items)
        ≡ spec.round modules.now plan.now.rows.items plan.now.named.items (nodes.old.items, left.now))) }
    ensures fits { IfOk result (λ r. IsSome r → length nodes.new.items ≤ 65536) }
    ensures many { IfOk result (λ r. IfNone r (65536 < length (spec.round modules.now plan.now.rows.items plan.now.named.items (nodes.old.items, left.now)).0)) }
{
    let mut still = Vec::new(alloc);
    for k in left {
        let all = try_next(alloc, modules, plan, nodes, &mut still, *k)?;
        if !all {
            return Ok(None);
        }
    }
    Ok(Some(still))
}

/// Applies augments in rounds. The answer is the pending ones, or none if the limit of nodes is exceeded.
pub(crate) fn rounds(
    alloc: Global,
    modules: &Modules,
    plan: &Plan,
    nodes: &mut Vec<Node>,
    augments: Vec<usize>,
) -> Result<Option<Vec<usize>>, NoMemory>
    requires planned { IsPlan plan.now.rows.items plan.now.named.items plan.now }
    requires small { length nodes.old.items ≤ 65536 }
    ensures few { IfOk result (λ r. IfSome r (λ still. (nodes.new.items, still.items)
        ≡ spec.rounds (length augments.items) modules.now plan.now.rows.items plan.now.named.items (nodes.old.items, augments.items))) }
    ensures fits { IfOk result (λ r. IsSome r → length nodes.new.items ≤ 65536) }
    ensures many { IfOk result (λ r. IfNone r
        (65536 < length (spec.rounds (length augments.items) modules.now plan.now.rows.items plan.now.named.items (nodes.old.items, augments.items)).0)) }
{
    let mut left = augments;
    let count = left.len();
    for _i in 0..count {
        let next = match round(alloc, modules, plan, nodes, left.as_slice())? {
            None => return Ok(None),
            Some(next) => next,
        };
        if next.len() == left.len() {
            return Ok(Some(next));
        }
        left = next;
    }
    Ok(Some(left))
}

// ---- all of them

fn push_augment(augments: &mut Vec<usize>, row: &Row, k: usize) -> Result<(), NoMemory>
    ensures { IfOk result (λ _. augments.new.items ≡ augments.old.items ++ spec.augment_at k row.now) }
{
    if row.keyword == Keyword::Augment {
        augments.push(k)?;
    }
    Ok(())
}

/// The augments, in the order of the modules and their texts.
fn augments_of(alloc: Global, rows: &[Row]) -> Result<Vec<usize>, NoMemory>
    ensures { IfOk result (λ augments. augments.items ≡ spec.augments_of rows.now) }
{
    let mut augments = Vec::new(alloc);
    for (k, row) in rows.iter().enumerate() {
        push_augment(&mut augments, row, k)?;
    }
    Ok(augments)
}

/// Applies all augments. The answer is the pending ones, or none if the limit of nodes is exceeded.
pub(crate) fn augment(
    alloc: Global,
    modules: &Modules,
    plan: &Plan,
    nodes: &mut Vec<Node>,
) -> Result<Option<Vec<usize>>, NoMemory>
    requires planned { IsPlan plan.now.rows.items plan.now.named.items plan.now }
    requires small { length nodes.old.items ≤ 65536 }
    ensures few { IfOk result (λ r. IfSome r (λ left. (nodes.new.items, left.items)
        ≡ spec.augmented modules.now plan.now.rows.items plan.now.named.items nodes.old.items)) }
    ensures fits { IfOk result (λ r. IsSome r → length nodes.new.items ≤ 65536) }
    ensures many { IfOk result (λ r. IfNone r (65536 < length (spec.augmented modules.now plan.now.rows.items plan.now.named.items nodes.old.items).0)) }
{
    let augments = augments_of(alloc, &plan.rows)?;
    let left = rounds(alloc, modules, plan, nodes, augments)?;
    Ok(left)
}

fn with_target(best: Option<Found>, rows: &[Row], k: usize) -> Option<Found>
    ensures { result ≡ least best (spec.target_faults_at (slice_get rows.now k)) }
{
    match rows.get(k) {
        None => best,
        Some(row) => with_fault(best, Cause::BadTarget, row),
    }
}

/// The first of the pending augments.
pub(crate) fn target_fault(rows: &[Row], left: &[usize]) -> Option<Found>
    ensures { result ≡ least None (spec.target_faults rows.now left.now) }
{
    let mut best = None;
    for k in left {
        best = with_target(best, rows, *k);
    }
    best
}
