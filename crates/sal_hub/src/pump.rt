//! Pumps: the first pending submission is decided.
ghost use Rattle.std.specs.Prelude.{◌≡◌, ◌+◌, ◌<◌, IfOk, IfSome, Some, length, slice_get};
ghost use Rattle.std.specs.Option.{option_map};
ghost use Rattle.sal_tx.specs.declared.tx.Submission.{Submission as Sent};
ghost use Rattle.sal_history.specs.declared.call.Call.TheVariants.{Pump};
ghost use Rattle.sal_hub.specs.Answers.{Calls, limit};
ghost use Rattle.sal_hub.specs.Current.{IsKept, known_of};
ghost use Rattle.sal_hub.specs.HubHistory.{entry_of};
ghost use Rattle.sal_hub.specs.Seen.{pump_reply};
ghost use Rattle.sal_hub.specs.Tokens.{IsGiven};

use crate::journal::Journal;
use crate::pipeline::Pipeline;
use crate::receipt::Receipt;
use sal_history::Call;
use sal_rows::{CallFault, Outcome};
use sal_tx::Submission;
use sal_types::NoMemory;
use std::alloc::Global;
use std::collections::VecDeque;

/// Decides the first pending receipt, if any, adds the entry, and returns the receipt with its outcome.
pub(crate) fn pump(
    alloc: Global,
    pipeline: &mut Pipeline,
    journal: &mut Journal,
    client: u32,
) -> Result<Option<(Receipt, Outcome)>, CallFault>
    requires kept { IsKept journal.old pipeline.old }
    requires room { length journal.old.log < limit }
    ensures kept { IsKept journal.new pipeline.new }
    ensures answer { Calls (known_of journal.old pipeline.old) (known_of journal.new pipeline.new) (entry_of (known_of journal.old pipeline.old) client Pump) pump_reply result }
    ensures given { IfOk result (λ decided. IfSome decided (λ d. IsGiven (known_of journal.new pipeline.new) d.0)) }
{
    let decided = pipeline.outcomes.len();
    if pipeline.waiting.is_empty() {
        return match journal.add(client, Call::Pump) {
            Ok(()) => Ok(None),
            Err(NoMemory) => Err(CallFault::NoMemory),
        };
    }
    let receipt = first_receipt(&pipeline.waiting, decided as u64 + 1);
    match pipeline.settle(alloc, journal, client, Call::Pump, decided + 1) {
        Ok(outcome) => Ok(Some((receipt, outcome))),
        Err(NoMemory) => Err(CallFault::NoMemory),
    }
}

// The receipt of this number, of the first submission.
fn first_receipt(waiting: &VecDeque<Submission>, number: u64) -> Receipt
    requires { 0 < length waiting.now.items }
    ensures number { result.number ≡ number }
    ensures domain { option_map (λ (s : Sent). s.domain) (slice_get waiting.now.items 0) ≡ Some result.domain }
{
    Receipt::of(number, waiting[0].domain)
}
