//! The conflict of a submission with the foreign commits after its base, as an outcome.
ghost use Rattle.std.specs.Prelude.{◌≡◌, IfOk, slice_get};
ghost use Rattle.std.specs.Option.{option_map};
ghost use Rattle.sal_history.specs.Outcome as outcome;
ghost use Rattle.sal_commit.specs.Deciding as spec;

use crate::domain::Domain;
use sal_graft::{conflict, foreign_spans};
use sal_rows::{Clash, Op, Outcome};
use sal_tx::{Submission, first_steps};
use sal_types::NoMemory;
use std::alloc::Global;

/// The outcome with the first conflict of the submission, if it has one. Only the path is copied.
pub(crate) fn conflict_in(
    alloc: Global,
    sub: &Submission,
    domain: &Domain,
) -> Result<Option<Outcome>, NoMemory>
    requires { spec.IsFor domain.now sub.now }
    ensures { IfOk result (λ o. o ≡ spec.conflict domain.now sub.now) }
{
    let spans = foreign_spans(alloc, sub.base_commit, sub.chain, &domain.commits)?;
    let found = conflict(
        &sub.changes,
        &sub.base,
        &spans,
        &domain.commits,
        domain.rules,
    );
    match found {
        None => Ok(None),
        Some(clash) => named(alloc, sub.changes.ops(), clash),
    }
}

// The outcome with the conflict of one of the operations.
fn named(alloc: Global, ops: &[Op], clash: Clash) -> Result<Option<Outcome>, NoMemory>
    ensures { IfOk result (λ o. o ≡ option_map (outcome.conflict_of clash) (slice_get ops.now clash.op)) }
{
    let Some(op) = ops.get(clash.op) else {
        return Ok(None);
    };
    let refused = conflict_of(alloc, clash, op)?;
    Ok(Some(refused))
}

// A conflict of the operation, with its store and its place.
fn conflict_of(alloc: Global, found: Clash, op: &Op) -> Result<Outcome, NoMemory>
    ensures { IfOk result (λ o. o ≡ outcome.conflict_of found op.now) }
{
    let path = first_steps(alloc, op.path_by(found.row), found.depth)?;
    Ok(Outcome::Conflict {
        store: op.store,
        path,
        kind: found.kind,
        commit: found.commit,
    })
}
