//! How a shared call looks.
ghost use Rattle.std.specs.Prelude.{◌≡◌, if◌then◌else◌};
ghost use Rattle.sal_history.specs.Submissions.{is_done};
ghost use Rattle.sal_draw.specs.Looks as spec;

use sal_history::Reply;
use sal_rows::Outcome;
use sal_shapes::Style;

fn is_done(outcome: &Outcome) -> bool
    ensures { result ≡ is_done outcome.now }
{
    match outcome {
        Outcome::Done { .. } => true,
        _ => false,
    }
}

fn outcome_style(outcome: &Outcome) -> Style
    ensures { result ≡ (if is_done outcome.now then Style.Shared else Style.Refused) }
{
    if is_done(outcome) {
        Style::Shared
    } else {
        Style::Refused
    }
}

/// The style of a call with this reply.
pub fn call_style(reply: &Reply) -> Style
    ensures { result ≡ spec.call_style reply.now }
{
    match reply {
        Reply::Refused { .. } => Style::Refused,
        Reply::Settled { outcome, .. } => outcome_style(outcome),
        Reply::Decided { outcome, .. } => outcome_style(outcome),
        _ => Style::Shared,
    }
}
