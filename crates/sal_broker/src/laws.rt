//! A law of the tokens. The function does nothing; its contract is the law.
ghost use Rattle.std.specs.Prelude.{List};
ghost use mathlib.Core.List.{IsPrefix};
ghost use Rattle.sal_history.specs.declared.call.Entry.{Entry};
ghost use Rattle.sal_hub.specs.HubHistory.{HubHistory};
ghost use Rattle.sal_broker.specs.Tokens.{TokensStay, with_log};

/// The tokens of a log are tokens of each longer log, whoever made the later entries.
pub fn tokens_stay()
    ensures { (known : HubHistory) (log : List Entry) → IsPrefix known.log log → TokensStay known (with_log known log) }
{
    sal_hub::laws::tokens_last();
}
