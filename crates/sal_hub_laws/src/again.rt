//! A settle for which memory runs out, and the next one.
ghost use Rattle.sal_rows.specs.declared.outcome.Outcome.{Outcome as Decided};
ghost use Rattle.sal_history.specs.declared.call.Call.TheVariants.{Settle};
ghost use Rattle.sal_history.specs.declared.reply.Reply.TheVariants.{Settled};
ghost use Rattle.sal_hub.specs.Answers.{Calls};
ghost use Rattle.sal_hub.specs.HubHistory.{entry_of};
ghost use Rattle.sal_hub.specs.Tokens.{IsGiven};

use sal_hub::{Hub, Receipt};
use sal_rows::{CallFault, Outcome};
use std::alloc::Global;

/// Settles, and once more if memory ran out. Its clause is that of one settle: the first one leaves all pending receipts pending, and
/// the next one with memory gives what the first would have given.
pub fn settle_again(
    alloc: Global,
    hub: &mut Hub,
    client: u32,
    receipt: Receipt,
) -> Result<Outcome, CallFault>
    requires { IsGiven hub.old receipt }
    ensures { Calls hub.old hub.new (entry_of hub.old client (Settle receipt.number)) (λ (o : Decided). Settled receipt.domain o) result }
{
    match hub.settle(alloc, client, receipt) {
        Err(CallFault::NoMemory) => hub.settle(alloc, client, receipt),
        first => first,
    }
}
