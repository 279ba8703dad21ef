//! The result of a type statement, after those that it depends on.
ghost use Rattle.std.specs.Prelude.{◌≡◌, [], List, None, true, map, IfOk};
ghost use Rattle.sal_restrict.specs.declared.yang_type.YangType.TheViews.{out-YangType};
ghost use Rattle.sal_module.specs.Faults.{least};
ghost use Rattle.sal_module.specs.Statements.{argument_of as argument, subs_of};
ghost use Rattle.sal_typedefs.specs.Builtins.{builtin_of as builtin};
ghost use Rattle.sal_typedefs.specs.declared.judgement.Judgement.{Judgement as Kept};
ghost use Rattle.sal_typedefs.specs.Restrictions as restrictions;
ghost use Rattle.sal_typedefs.specs.Restrictions.{HasNumbers, HasPositions};
ghost use Rattle.sal_typedefs.specs.Spots.{site_of};
ghost use Rattle.sal_typedefs.specs.Types as types_spec;
ghost use Rattle.sal_typedefs.specs.Types.{Judged};
ghost use Rattle.sal_typedefs.specs.Judgements as spec;

use crate::basis::{basis_of, types_of};
use crate::builtin::builtin_of;
use crate::judge::faulty;
use crate::judgement::{Basis, Judgement};
use crate::judging::with_patterns;
use crate::layer::{Restriction, numbering_of};
use crate::merging::fault_below;
use crate::pattern::Look;
use crate::spot::Spot;
use crate::typedefs::Typedefs;
use sal_module::{Found, argument_of};
use sal_stmt::Stmt;
use sal_types::{NoMemory, Shared};
use std::alloc::Global;

/// Whether there are entries for each name of the type.
fn is_listed(judgement: &Judgement) -> bool
    ensures { result ≡ true → restrictions.numbering_of (out-YangType judgement.now.ty) ≡ None → judgement.now.entries.items ≡ [] }
{
    numbering_of(&judgement.ty).is_some() || judgement.entries.is_empty()
}

/// Whether a statement has no substatements and is no built-in type.
fn is_alone(stmt: &Stmt) -> bool
    ensures alone { result ≡ true → subs_of stmt.now ≡ [] }
    ensures other { result ≡ true → builtin (argument stmt.now) ≡ None }
{
    stmt.subs.items().is_empty() && builtin_of(argument_of(stmt)).is_none()
}

/// Whether a statement is only the name of a typedef, and the only result below is that of the typedef's type.
fn is_only_name(stmt: &Stmt, below: &[Shared<Judgement>]) -> bool
    ensures { result ≡ true → spec.IsOnlyName stmt.now below.now }
{
    if below.len() != 1 || !is_alone(stmt) {
        return false;
    }
    is_listed(below[0].value())
}

/// The result of a statement that restricts this type, with these results of the statements below.
fn judge_over(
    best: Option<Found>,
    alloc: Global,
    typedefs: &Typedefs,
    spot: &Spot,
    basis: &Basis,
    below: &[Shared<Judgement>],
) -> Result<Judgement, NoMemory>
    requires numbers { HasNumbers (out-YangType basis.now.ty) }
    requires positions { HasPositions (out-YangType basis.now.ty) basis.now.entries.items }
    ensures fault { IfOk result (λ d. d.fault ≡ least best (restrictions.restriction_faults (spec.base_seen basis.now) spot.now.module spot.now.stmt.now)) }
    ensures meant { IfOk result (λ d. d.fault ≡ None → d.ty ≡ spec.meaning_of typedefs.now spot.now.module (spec.base_seen basis.now) spot.now.stmt.now (map (λ (j : Kept). j.ty) below.now)) }
    ensures entries { IfOk result (λ d. d.fault ≡ None → d.entries.items ≡ types_spec.entries_in (spec.base_seen basis.now) spot.now.stmt.now (restrictions.layer_of (spec.base_seen basis.now) spot.now.stmt.now)) }
    ensures numbers { IfOk result (λ d. HasNumbers (out-YangType d.ty)) }
    ensures positions { IfOk result (λ d. HasPositions (out-YangType d.ty) d.entries.items) }
{
    let types = types_of(alloc, below)?;
    let restriction = Restriction {
        alloc,
        typedefs,
        number: spot.module,
        stmt: spot.stmt,
        types: types.as_slice(),
    };
    restriction.judge(best, basis)
}

/// The result of a statement, with these results of the statements below.
pub(crate) fn judge_one(
    alloc: Global,
    look: Look,
    typedefs: &Typedefs,
    spot: &Spot,
    below: &[Shared<Judgement>],
) -> Result<Judgement, NoMemory>
    requires numbers { spec.AllNumbers below.now }
    requires positions { spec.AllPositions below.now }
    ensures { IfOk result (λ d. (judged : List Judged) → spec.AreJudged below.now judged
        → spec.IsJudged d (types_spec.judged typedefs.now (site_of spot.now) (types_spec.base_of (site_of spot.now) judged) judged)) }
{
    let best = fault_below(below);
    let is_faulty = best.is_some();
    let best = with_patterns(best, alloc, look, spot.module, spot.stmt)?;
    if is_faulty {
        return Ok(faulty(alloc, best));
    }
    let basis = basis_of(alloc, builtin_of(argument_of(spot.stmt)), below)?;
    let judgement = judge_over(best, alloc, typedefs, spot, &basis, below)?;
    Ok(judgement)
}

/// The result of a statement, with these results of the statements below. If it is only the name of a typedef, that of the
/// typedef's type is taken over, and shared.
pub(crate) fn judge_next(
    alloc: Global,
    look: Look,
    typedefs: &Typedefs,
    spot: &Spot,
    below: Vec<Shared<Judgement>>,
) -> Result<Shared<Judgement>, NoMemory>
    requires numbers { spec.AllNumbers below.items }
    requires positions { spec.AllPositions below.items }
    ensures { IfOk result (λ d. (judged : List Judged) → spec.AreJudged below.items judged
        → spec.IsJudged d (types_spec.judged typedefs.now (site_of spot.now) (types_spec.base_of (site_of spot.now) judged) judged)) }
{
    if !is_only_name(spot.stmt, below.as_slice()) {
        let judgement = judge_one(alloc, look, typedefs, spot, below.as_slice())?;
        let shared = Shared::new(alloc, judgement)?;
        return Ok(shared);
    }
    let mut below = below;
    match below.pop() {
        None => unreachable!(),
        Some(judgement) => Ok(judgement),
    }
}
