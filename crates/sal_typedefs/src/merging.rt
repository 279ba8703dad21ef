//! The least of two faults.
ghost use Rattle.std.specs.Prelude.{◌≡◌, List, is_some, None};
ghost use Rattle.std.specs.List.{flat_map, list_any};
ghost use Rattle.sal_module.specs.Faults.{least};
ghost use Rattle.sal_typedefs.specs.Types.{Judged, is_faulty as is_bad};
ghost use Rattle.sal_typedefs.specs.Judgements as spec;

use crate::judgement::Judgement;
use sal_module::{Found, better};
use sal_types::Shared;

/// The first of two faults: of equals the one given first.
fn merged(best: Option<Found>, more: Option<Found>) -> Option<Found>
    ensures { result ≡ spec.merged best more }
{
    match more {
        None => best,
        Some(found) => better(best, found),
    }
}

/// The least fault in the statements below.
pub(crate) fn fault_below(below: &[Shared<Judgement>]) -> Option<Found>
    ensures least { (judged : List Judged) → spec.AreJudged below.now judged → result ≡ least None (flat_map (λ (j : Judged). j.faults) judged) }
    ensures some { (judged : List Judged) → spec.AreJudged below.now judged → is_some result ≡ list_any is_bad judged }
{
    let mut best = None;
    for judgement in below {
        best = merged(best, judgement.value().fault);
    }
    best
}
