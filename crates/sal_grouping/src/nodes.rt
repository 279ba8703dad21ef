//! The nodes of a block, with `uses` applied.
ghost use Rattle.std.specs.Prelude.{◌≡◌, ◌<◌, ◌+◌, ◌++◌, ◌^◌, ℕ, List, Option, IfOk, IfSome, MatchOption, length};
ghost use Rattle.std.specs.List.{slice_get};
ghost use Rattle.sal_grouping.specs.declared.rows.Row.{Row as Statement};
ghost use Rattle.sal_grouping.specs.Rows as rows_spec;
ghost use Rattle.sal_grouping.specs.Growth as growth;
ghost use Rattle.sal_grouping.specs.Plan.{IsPlan};
ghost use Rattle.sal_grouping.specs.Visits as spec;

use crate::plan::{Plan, is_marked, is_node, named_at};
use sal_types::NoMemory;
use std::alloc::Global;

/// The largest number of nodes.
pub(crate) const MAX_NODES: usize = 65_536;

/// A visit of a block: the index of the next statement, and how many levels of `uses` it may still follow.
#[derive(Clone, Copy)]
struct Visit {
    block: usize,
    next: usize,
    levels: usize,
}

/// The statement at an index of a block.
fn statement_at(plan: &Plan, block: usize, place: usize) -> Option<usize>
    requires { IsPlan plan.now.rows.items plan.now.named.items plan.now }
    ensures value { result ≡ slice_get (rows_spec.inside plan.now.rows.items block) place }
    ensures small { IfSome result (λ _. place < 2 ^ 63) }
{
    if block >= plan.inside.len() {
        return None;
    }
    plan.inside[block].get(place).copied()
}

/// Visits a block next, if `uses` may still be followed.
fn push_block(visits: &mut Vec<Visit>, block: usize, levels: usize) -> Result<(), NoMemory>
    ensures left { IfOk result (λ _. (rows : List Statement) (named : List (Option ℕ)) →
        spec.all_left rows named visits.new.items ≡ growth.nodes_within levels rows named block ++ spec.all_left rows named visits.old.items) }
    ensures steps { IfOk result (λ _. (rows : List Statement) (named : List (Option ℕ)) →
        spec.all_steps rows named visits.new.items ≡ spec.steps_within levels rows named block + spec.all_steps rows named visits.old.items) }
{
    if levels > 0 {
        visits.push(Visit {
            block,
            next: 0,
            levels: levels - 1,
        })?;
    }
    Ok(())
}

/// The next statement of a block: a node is appended, and a grouping that the statement names is visited first.
fn visit_one(
    plan: &Plan,
    visits: &mut Vec<Visit>,
    out: &mut Vec<usize>,
    visit: Visit,
) -> Result<(), NoMemory>
    requires { IsPlan plan.now.rows.items plan.now.named.items plan.now }
    ensures left { IfOk result (λ _. out.new.items ++ spec.all_left plan.now.rows.items plan.now.named.items visits.new.items
        ≡ out.old.items ++ (spec.left_of plan.now.rows.items plan.now.named.items visit ++ spec.all_left plan.now.rows.items plan.now.named.items visits.old.items)) }
    ensures fewer { IfOk result (λ _. spec.all_steps plan.now.rows.items plan.now.named.items visits.new.items
        < spec.steps_of plan.now.rows.items plan.now.named.items visit + spec.all_steps plan.now.rows.items plan.now.named.items visits.old.items) }
{
    let k = match statement_at(plan, visit.block, visit.next) {
        None => return Ok(()),
        Some(k) => k,
    };
    visits.push(Visit {
        block: visit.block,
        next: visit.next + 1,
        levels: visit.levels,
    })?;
    if is_node(&plan.rows, k) {
        out.push(k)?;
        return Ok(());
    }
    match named_at(&plan.named, k) {
        None => Ok(()),
        Some(g) => {
            if is_marked(&plan.bare, g) {
                return Ok(());
            }
            push_block(visits, g, visit.levels)?;
            Ok(())
        }
    }
}

/// The nodes of a block, or none if they exceed the limit.
///
/// It takes the time of the statements that it visits; blocks without nodes are skipped.
pub(crate) fn nodes_in(
    alloc: Global,
    plan: &Plan,
    block: usize,
) -> Result<Option<Vec<usize>>, NoMemory>
    requires { IsPlan plan.now.rows.items plan.now.named.items plan.now }
    ensures { IfOk result (λ r. MatchOption r (65536 < length (growth.nodes_in plan.now.rows.items plan.now.named.items block))
        (λ nodes. nodes.items ≡ growth.nodes_in plan.now.rows.items plan.now.named.items block)) }
{
    let mut out = Vec::new(alloc);
    let mut visits = Vec::new(alloc);
    push_block(&mut visits, block, plan.rows.len())?;
    'visits: while let Some(visit) = visits.pop() {
        visit_one(plan, &mut visits, &mut out, visit)?;
        if out.len() > MAX_NODES {
            return Ok(None);
        }
    }
    Ok(Some(out))
}
