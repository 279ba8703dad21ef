//! Worked examples of chains, pumps and marks in scripts. Each function does nothing; its contract states what the definitions
//! give, and the proof computes it.
ghost use Rattle.std.specs.Prelude.{◌≡◌, [], ◌∷◌, Ok, Err, codes};
ghost use Rattle.sal_rows.specs.declared.outcome.CallFault.TheVariants.{ChainClosed, ChainFailed, PreviousOpen};
ghost use Rattle.sal_rows.specs.declared.outcome.Outcome.TheVariants.{Done, ChainFailed as FailedBy};
ghost use Rattle.sal_rows.specs.declared.outcome.Mode.TheVariants.{Ro};
ghost use Rattle.sal_history.specs.declared.reply.Reply.TheVariants.{Chain, Decided, Found, Late, Nothing, Refused, Settled};
ghost use Rattle.sal_script.specs.Moves.{OpenChain, ChainBegin, CloseChain, Pump, Mark, After};
ghost use Rattle.sal_script.specs.Script.{script_of};
ghost use Rattle.sal_script.specs.Report.{call_text};
ghost use Rattle.sal_script.specs.Examples.{plain_script, run, table};
ghost use Rattle.sal_script.specs.ChainExamples.{closes, closes_report, leaves, looks, marks_report, on_pending, on_pending_report};

/// The steps of chains, pumps and marks; and arrays that are none.
pub fn chain_steps_read()
    ensures chains { script_of (codes "{\"clients\":[{\"steps\":[[\"chain\",255,7],[\"chain-begin\",255,2,\"ro\"],[\"close-chain\",255]]}]}") ≡ Ok (plain_script ((OpenChain 255 7 ∷ ChainBegin 255 2 Ro ∷ CloseChain 255 ∷ []) ∷ []) []) }
    ensures others { script_of (codes "{\"clients\":[{\"steps\":[[\"pump\"],[\"mark\",4294967295],[\"after\",0]]}]}") ≡ Ok (plain_script ((Pump ∷ Mark 4294967295 ∷ After 0 ∷ []) ∷ []) []) }
    ensures large { script_of (codes "{\"clients\":[{\"steps\":[[\"mark\",4294967296]]}]}") ≡ Err (codes "clients/0/0") }
    ensures more { script_of (codes "{\"clients\":[{\"steps\":[[\"pump\",0]]}]}") ≡ Err (codes "clients/0/0") }
{}

/// The texts of the replies to chains, pumps and marks.
pub fn reply_words()
    ensures chain { call_text (table ∷ []) (Chain 12) ≡ codes "chain 12" }
    ensures decided { call_text (table ∷ []) (Decided 3 0 (Done 2)) ≡ codes "decided 3 done 2" }
    ensures decided_as_failed { call_text (table ∷ []) (Decided 3 0 (FailedBy 2)) ≡ codes "decided 3 chain-failed 2" }
    ensures nothing { call_text (table ∷ []) Nothing ≡ codes "nothing" }
    ensures found { call_text (table ∷ []) Found ≡ codes "found" }
    ensures late { call_text (table ∷ []) Late ≡ codes "late" }
    ensures settled { call_text (table ∷ []) (Settled 0 (FailedBy 10)) ≡ codes "chain-failed 10" }
    ensures open { call_text (table ∷ []) (Refused PreviousOpen) ≡ codes "refused previous-open" }
    ensures failed { call_text (table ∷ []) (Refused (ChainFailed 10)) ≡ codes "refused chain-failed 10" }
    ensures closed { call_text (table ∷ []) (Refused ChainClosed) ≡ codes "refused chain-closed" }
{}

/// A chain's second transaction begins while the first is pending, and reads what that one wrote.
pub fn a_chain_over_a_pending_first()
    ensures { run (on_pending ∷ []) (0 ∷ 0 ∷ 0 ∷ 0 ∷ []) ≡ codes on_pending_report }
{}

/// In a chain with an open transaction no other begins; in a closed one none begins, and it is not closed again. A step with an
/// empty chain slot makes no call, and no chain is over a domain that is not live.
pub fn a_closed_chain()
    ensures { run (closes ∷ []) (0 ∷ 0 ∷ 0 ∷ 0 ∷ 0 ∷ 0 ∷ 0 ∷ 0 ∷ []) ≡ codes closes_report }
{}

/// A mark that another client sets is found afterwards, and a pump without a pending receipt decides nothing.
pub fn marks_between_clients()
    ensures { run (looks ∷ leaves ∷ []) (0 ∷ 1 ∷ 1 ∷ 0 ∷ []) ≡ codes marks_report }
{}
