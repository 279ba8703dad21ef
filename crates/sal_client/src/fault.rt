//! Why a client stops at a step.
ghost use Rattle.sal_client.specs.Faults.{IsRefusal};

use crate::client::refused;
use sal_script::{StepRefusal, StepReply};
use sal_types::NoMemory;

/// Why a client stops at a step: it refuses it, or memory ran out.
#[derive(Drop)]
pub(crate) enum StepFault {
    Refused(StepRefusal),
    NoMemory,
}

/// The reply to a step that makes no shared call.
pub(crate) type LocalResult = Result<StepReply, NoMemory>;

impl From<NoMemory> for StepFault {
    ghost use Rattle.std.specs.Prelude.{◌≡◌};
    ghost use Rattle.sal_client.specs.declared.fault.StepFault.TheVariants.{NoMemory as Wanting};

    ghost from_gives = { λ _ e. e ≡ Wanting };

    fn from(_refused: NoMemory) -> StepFault {
        StepFault::NoMemory
    }
}

/// The reply to a step that is refused.
pub(crate) fn refusal_reply(fault: StepFault) -> LocalResult
    ensures { IsRefusal fault result }
{
    match fault {
        StepFault::Refused(refusal) => Ok(refused(refusal)),
        StepFault::NoMemory => Err(NoMemory),
    }
}
