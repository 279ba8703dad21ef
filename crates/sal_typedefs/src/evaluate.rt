//! The type of a type statement, after those that it depends on, without recursion.
ghost use Rattle.std.specs.Prelude.{◌≡◌, ◌<◌, ◌++◌, true, false, List, length, take, drop, map, reverse, None, IfOk};
ghost use Rattle.sal_module.specs.Faults.{least};
ghost use Rattle.sal_typedefs.specs.Names.{steps_of};
ghost use Rattle.sal_typedefs.specs.Spots.{site_of, site_in};
ghost use Rattle.sal_typedefs.specs.Scopes.{Site};
ghost use Rattle.sal_typedefs.specs.Types.{Judged, judgement};
ghost use Rattle.sal_typedefs.specs.Settled.{World, IsSettled};
ghost use Rattle.sal_typedefs.specs.Opened.{IsOpen};
ghost use Rattle.sal_typedefs.specs.Walks as walks;
ghost use Rattle.sal_typedefs.specs.Judgements.{AreJudged};
ghost use Rattle.sal_typedefs.specs.Runs as spec;

use crate::judgement::Judgement;
use crate::kept::Settled;
use crate::pattern::Look;
use crate::scope::{MAX_BLOCKS, Scope, settle};
use crate::site_judge::judge_next;
use crate::spot::Spot;
use crate::typedefs::Typedefs;
use crate::walk::{Gone, Way, next, start};
use crate::whole::whole_builtin;
use sal_module::Found;
use sal_restrict::YangType;
use sal_stmt::Stmt;
use sal_types::{NoMemory, Shared, append};
use std::alloc::Global;

/// The last `count` results, the last one first.
fn take_last(
    alloc: Global,
    done: &mut Vec<Shared<Judgement>>,
    count: usize,
) -> Result<Vec<Shared<Judgement>>, NoMemory>
    ensures { IfOk result (λ below. (judged : List Judged) → AreJudged (reverse done.old.items) judged
        → AreJudged below.items (take count judged) × AreJudged (reverse done.new.items) (drop count judged)) }
{
    let mut below = Vec::new(alloc);
    for i in 0..count {
        match done.pop() {
            None => return Ok(below),
            Some(judgement) => append(&mut below, judgement)?,
        }
    }
    Ok(below)
}

/// Evaluates all these statements, from the last one to the first. The result has the first one last.
fn judge_all(
    alloc: Global,
    look: Look,
    typedefs: &Typedefs,
    nodes: &[Gone],
) -> Result<Vec<Shared<Judgement>>, NoMemory>
    ensures { IfOk result (λ done. AreJudged (reverse done.items) (spec.run typedefs.now (map walks.node_of nodes.now))) }
{
    let mut done = Vec::new(alloc);
    let mut n = nodes.len();
    'nodes: while n > 0 {
        let node = &nodes[n - 1];
        let below = take_last(alloc, &mut done, node.below)?;
        let judgement = judge_next(alloc, look, typedefs, &node.spot, below)?;
        append(&mut done, judgement)?;
        n -= 1;
    }
    Ok(done)
}

/// Appends the next statement. The answer is whether there is one.
fn push_next<'x, 'a>(
    all: &mut Vec<Gone<'x, 'a>>,
    ways: &mut Vec<Way<'x, 'a>>,
    alloc: Global,
    typedefs: &'x Typedefs<'a>,
) -> Result<bool, NoMemory>
    ensures next { IfOk result (λ more. more ≡ true → map walks.node_of all.new.items ++ walks.left typedefs.now ways.new.items
        ≡ map walks.node_of all.old.items ++ walks.left typedefs.now ways.old.items) }
    ensures last { IfOk result (λ more. more ≡ false → map walks.node_of all.new.items ≡ map walks.node_of all.old.items ++ walks.left typedefs.now ways.old.items) }
    ensures fewer { IfOk result (λ more. more ≡ true → length (walks.left typedefs.now ways.new.items) < length (walks.left typedefs.now ways.old.items)) }
{
    match next(ways, alloc, typedefs)? {
        None => Ok(false),
        Some(gone) => {
            append(all, gone)?;
            Ok(true)
        }
    }
}

/// All pending statements, in order.
fn all_left<'x, 'a>(
    ways: &mut Vec<Way<'x, 'a>>,
    alloc: Global,
    typedefs: &'x Typedefs<'a>,
) -> Result<Vec<Gone<'x, 'a>>, NoMemory>
    ensures { IfOk result (λ all. map walks.node_of all.items ≡ walks.left typedefs.now ways.old.items) }
{
    let mut all = Vec::new(alloc);
    'ways: while push_next(&mut all, ways, alloc, typedefs)? {}
    Ok(all)
}

/// A statement, then those that it depends on.
fn gone<'x, 'a>(
    alloc: Global,
    typedefs: &'x Typedefs<'a>,
    spot: Spot<'x, 'a>,
) -> Result<Vec<Gone<'x, 'a>>, NoMemory>
    ensures { IfOk result (λ all. map walks.node_of all.items ≡ walks.nodes (steps_of typedefs.now) typedefs.now (site_of spot.entry)) }
{
    let mut ways = start(alloc, typedefs, spot)?;
    all_left(&mut ways, alloc, typedefs)
}

/// The fault of a judgement, and its type.
fn parts_in(alloc: Global, judgement: &Judgement) -> Result<(Option<Found>, YangType), NoMemory>
    ensures fault { IfOk result (λ j. j.0 ≡ judgement.now.fault) }
    ensures meant { IfOk result (λ j. j.1 ≡ judgement.now.ty) }
{
    let ty = judgement.ty.copy(alloc)?;
    Ok((judgement.fault, ty))
}

/// The least fault in a statement and in those that it depends on, without faults of names, and its type if there is none.
/// All of them are evaluated, from the last one to the first.
fn judge_by_way<'x, 'a>(
    alloc: Global,
    look: Look,
    typedefs: &'x Typedefs<'a>,
    spot: Spot<'x, 'a>,
) -> Result<(Option<Found>, YangType), NoMemory>
    ensures fault { IfOk result (λ j. j.0 ≡ least None (judgement typedefs.now (site_of spot.entry)).faults) }
    ensures meant { IfOk result (λ j. j.0 ≡ None → j.1 ≡ (judgement typedefs.now (site_of spot.entry)).type) }
{
    let nodes = gone(alloc, typedefs, spot)?;
    let mut done = judge_all(alloc, look, typedefs, nodes.as_slice())?;
    match done.pop() {
        None => unreachable!(),
        Some(judgement) => {
            let found = parts_in(alloc, judgement.value())?;
            Ok(found)
        }
    }
}

/// The least fault and the type of what is settled.
fn found_in(alloc: Global, one: &Settled) -> Result<(Option<Found>, YangType), NoMemory>
    ensures { IfOk result (λ j. (w : World) (site : Site) → IsSettled w site one.now
        → (j.0 ≡ least None (judgement w.modules site).faults) × (j.0 ≡ None → j.1 ≡ (judgement w.modules site).type)) }
{
    let found = parts_in(alloc, one.judgement.value())?;
    Ok(found)
}

fn fault_in(one: &Settled) -> Option<Found>
    ensures { (w : World) (site : Site) → IsSettled w site one.now → result ≡ least None (judgement w.modules site).faults }
{
    one.judgement.value().fault
}

/// The same of the statement at a spot of open blocks: taken over, if it is settled, and else by a search.
fn judge_spot<'s, 'x, 'a>(
    scope: &'s Scope<'x, 'a>,
    spot: Spot<'s, 'a>,
) -> Result<(Option<Found>, YangType), NoMemory>
    requires ready { IsOpen scope.now }
    requires outer { spot.outer.now ≡ scope.now.around.items }
    requires number { spot.module ≡ scope.now.number }
    ensures fault { IfOk result (λ j. j.0 ≡ least None (judgement scope.now.typedefs.now (site_of spot.entry)).faults) }
    ensures meant { IfOk result (λ j. j.0 ≡ None → j.1 ≡ (judgement scope.now.typedefs.now (site_of spot.entry)).type) }
{
    match settle(scope, MAX_BLOCKS, &spot)? {
        None => judge_by_way(scope.alloc, scope.look, scope.typedefs, spot),
        Some(one) => {
            let found = found_in(scope.alloc, &one)?;
            Ok(found)
        }
    }
}

/// The least fault in a `type` statement of the open blocks and in those that it depends on, without faults of names, and its type if
/// there is none.
///
/// It takes over what is settled of the typedefs that it names, and the time of its own names and restrictions, with the logarithm of a
/// block's typedefs for each name. A typedef that is not settled, as one of a cycle, is judged by a search through all that it depends on.
pub fn judge_at<'s, 'x, 'a>(
    scope: &'s Scope<'x, 'a>,
    stmt: &'a Stmt,
) -> Result<(Option<Found>, YangType), NoMemory>
    requires { IsOpen scope.now }
    ensures fault { IfOk result (λ j. j.0 ≡ least None (judgement scope.now.typedefs.now (site_in scope.now.number scope.now.around.items stmt.now)).faults) }
    ensures meant { IfOk result (λ j. j.0 ≡ None → j.1 ≡ (judgement scope.now.typedefs.now (site_in scope.now.number scope.now.around.items stmt.now)).type) }
{
    match whole_builtin(stmt) {
        None => {
            let around = scope.around.as_slice();
            let spot = Spot::new(scope.alloc, scope.number, around, stmt);
            judge_spot(scope, spot)
        }
        Some(builtin) => {
            let ty = builtin.bare(scope.alloc)?;
            Ok((None, ty))
        }
    }
}

/// The fault of `judge_spot` alone.
fn fault_of_spot<'s, 'x, 'a>(
    scope: &'s Scope<'x, 'a>,
    spot: Spot<'s, 'a>,
) -> Result<Option<Found>, NoMemory>
    requires ready { IsOpen scope.now }
    requires outer { spot.outer.now ≡ scope.now.around.items }
    requires number { spot.module ≡ scope.now.number }
    ensures { IfOk result (λ found. found ≡ least None (judgement scope.now.typedefs.now (site_of spot.entry)).faults) }
{
    match settle(scope, MAX_BLOCKS, &spot)? {
        None => {
            let (found, _ty) = judge_by_way(scope.alloc, scope.look, scope.typedefs, spot)?;
            Ok(found)
        }
        Some(one) => Ok(fault_in(&one)),
    }
}

/// The fault of `judge_at` alone.
pub fn other_fault_at<'s, 'x, 'a>(
    scope: &'s Scope<'x, 'a>,
    stmt: &'a Stmt,
) -> Result<Option<Found>, NoMemory>
    requires { IsOpen scope.now }
    ensures { IfOk result (λ found. found ≡ least None (judgement scope.now.typedefs.now (site_in scope.now.number scope.now.around.items stmt.now)).faults) }
{
    match whole_builtin(stmt) {
        None => {
            let around = scope.around.as_slice();
            let spot = Spot::new(scope.alloc, scope.number, around, stmt);
            fault_of_spot(scope, spot)
        }
        Some(_builtin) => Ok(None),
    }
}
