//! Why a step has no reply.
use sal_script::ScriptFault;
use sal_types::NoMemory;

/// Why a step has no reply. All but the last two leave the broker unchanged, except that `NoMemory` may lose the client.
#[derive(Clone, Copy, Debug, PartialEq, Eq)]
pub enum StepFault {
    /// The bytes are no step.
    BadStep,
    /// The number of the client is 65,536 or more.
    BadClient,
    /// The log has 1,000,000 calls, and the step has one more.
    Full,
    /// Memory ran out in an earlier step of this client, so it makes no more steps.
    Lost,
    /// Memory ran out, and the step was not made.
    NoMemory,
    /// The step was made, and memory ran out for the text of its reply. The report has it.
    Untold,
    /// Memory ran out after a call that is in the log. The broker must not be used again.
    Broken,
}

impl From<NoMemory> for StepFault {
    ghost use Rattle.std.specs.Prelude.{◌≡◌};
    ghost use Rattle.sal_embed.specs.declared.fault.StepFault.TheVariants.{NoMemory as Wanting};

    ghost from_gives = { λ _ e. e ≡ Wanting };

    fn from(_refused: NoMemory) -> StepFault {
        StepFault::NoMemory
    }
}

impl From<ScriptFault> for StepFault {
    ghost use Rattle.std.specs.Prelude.{◌≡◌};
    ghost use Rattle.sal_embed.specs.Answers.{fault_of};

    ghost from_gives = { λ fault e. e ≡ fault_of fault };

    fn from(fault: ScriptFault) -> StepFault {
        match fault {
            ScriptFault::BadScript { .. } => StepFault::BadStep,
            ScriptFault::NoMemory => StepFault::NoMemory,
        }
    }
}
