//! Worked examples of transaction chains, pumps and marks. Each function does nothing; its contract states what the
//! definitions give for one log, and the proof computes it.
#![tactic(auto, unfolding(sal_schema::specs::Table::closest, sal_rules::specs::Breaches::first, sal_rules::specs::Contexts::through_plain, sal_rules::specs::Contexts::from_list, sal_rules::specs::Rules::is_there))]

ghost use Rattle.std.specs.Prelude.{◌≡◌, [], ◌∷◌, ◌++◌, None, Some};
ghost use Rattle.sal_types.specs.declared.value.Store.TheVariants.{Config};
ghost use Rattle.sal_rows.specs.declared.outcome.CallFault.TheVariants.{ChainClosed, ChainFailed, NoDomain, PreviousOpen};
ghost use Rattle.sal_rows.specs.declared.outcome.ClashKind.TheVariants.{Created};
ghost use Rattle.sal_rows.specs.declared.outcome.Outcome.TheVariants.{Done, Conflict, ChainFailed as FailedBy};
ghost use Rattle.sal_rows.specs.Spans.{spans};
ghost use Rattle.sal_history.specs.declared.call.Call.TheVariants.{After, Cancel, CloseChain, Mark, OpenChain, Pump, Submit};
ghost use Rattle.sal_history.specs.declared.reply.Reply.TheVariants.{Accepted, Begun, Chain, Decided, Found, Late, Nothing, Receipt, Refused, Settled};
ghost use Rattle.sal_history.specs.Examples.{a, b, begin, by, leaf, opened, put, replies, decisions};
ghost use Rattle.sal_history.specs.History.{base_tree, newest_tree};
ghost use Rattle.sal_history.specs.Chains.{chain, chained, fails, in_turn, parted, twice};

/// A chain's second transaction begins while the first is pending: it has the same base commit, and sees the trees after
/// the first. Both are done, with a foreign commit between them.
pub fn a_pending_predecessor()
    ensures replies { replies (opened []) twice
        ≡ Chain 1 ∷ Begun 0 None ∷ Receipt 1 ∷ Begun 0 None ∷ Receipt 2 ∷ Begun 0 (Some 1) ∷ Receipt 3 ∷ Settled 0 (Done 3) ∷ [] }
    ensures seen { base_tree (opened []) twice 5 Config ≡ leaf a "x" ∷ [] }
    ensures tree { newest_tree (opened []) twice 0 Config ≡ leaf a "z" ∷ leaf b "y" ∷ [] }
{}

/// A chain's own commits are left out of the commits that it is checked against; the spans between them are checked.
pub fn spans_of_a_chain()
    ensures plain { spans 1 None (Some 1 ∷ None ∷ None ∷ []) ≡ record { from = 1; to = 3 } ∷ [] }
    ensures own { spans 0 (Some 1) (None ∷ Some 1 ∷ None ∷ []) ≡ record { from = 0; to = 1 } ∷ record { from = 2; to = 3 } ∷ [] }
    ensures other { spans 0 (Some 1) (None ∷ Some 2 ∷ []) ≡ record { from = 0; to = 2 } ∷ [] }
    ensures after_the_base { spans 2 (Some 1) (None ∷ Some 1 ∷ Some 1 ∷ []) ≡ record { from = 2; to = 2 } ∷ record { from = 3; to = 3 } ∷ [] }
{}

/// One foreign commit before a chain's own commit and one after it: the chain's second submission is done, though its own first one
/// touched the same leaf. The chain's third transaction follows no pending submission, so its base is the newest commit.
pub fn foreign_commits_round_an_own_one()
    ensures replies { replies (opened []) parted
        ≡ Chain 1 ∷ Begun 0 None ∷ Begun 0 None ∷ Receipt 1 ∷ Receipt 2 ∷ Begun 0 (Some 2) ∷ Settled 0 (Done 1) ∷ Begun 1 None ∷ Receipt 3 ∷ Settled 0 (Done 3)
        ∷ Receipt 4 ∷ Settled 0 (Done 4) ∷ Begun 4 None ∷ Nothing ∷ [] }
    ensures tree { newest_tree (opened []) parted 0 Config ≡ leaf a "y" ∷ leaf b "2" ∷ [] }
{}

/// A commit of another client between is a conflict also for a transaction that follows a pending one.
pub fn a_foreign_commit_between()
    ensures { decisions (opened []) (chained (put b "y") (put b "z")) ≡ Done 1 ∷ Done 2 ∷ Conflict Config b Created 2 ∷ [] }
{}

/// A chain whose first submission conflicts has failed: the pending ones after it are refused with that receipt, and no
/// transaction begins in it any more.
pub fn a_chain_that_fails()
    ensures { replies (opened []) fails
        ≡ Chain 1 ∷ Begun 0 None ∷ Begun 0 None ∷ Receipt 1 ∷ Settled 0 (Done 1) ∷ Receipt 2 ∷ Begun 0 (Some 2) ∷ Receipt 3 ∷ Settled 0 (FailedBy 2)
        ∷ Settled 0 (Conflict Config a Created 1) ∷ Refused (ChainFailed 2) ∷ [] }
{}

/// A transaction of a chain begins once the previous one is submitted or cancelled, in any mode.
pub fn the_previous_transaction()
    ensures open { replies (opened []) (in_turn ++ by 0 chain ∷ []) ≡ Chain 1 ∷ Begun 0 None ∷ Refused PreviousOpen ∷ [] }
    ensures cancelled { replies (opened []) (in_turn ++ by 0 (Cancel 1) ∷ by 0 chain ∷ []) ≡ Chain 1 ∷ Begun 0 None ∷ Accepted ∷ Begun 0 None ∷ [] }
    ensures submitted { replies (opened []) (in_turn ++ by 0 (Submit 1 []) ∷ by 0 chain ∷ []) ≡ Chain 1 ∷ Begun 0 None ∷ Receipt 1 ∷ Begun 0 (Some 1) ∷ [] }
{}

/// No transaction begins in a closed chain, and it is not closed again; a transaction that began may still be submitted. The refusal
/// as closed comes before those as failed and as having an open transaction.
pub fn a_closed_chain()
    ensures closed { replies (opened []) (in_turn ++ by 0 (CloseChain 1) ∷ by 0 chain ∷ by 0 (CloseChain 1) ∷ by 0 (Submit 1 []) ∷ [])
        ≡ Chain 1 ∷ Begun 0 None ∷ Accepted ∷ Refused ChainClosed ∷ Refused ChainClosed ∷ Receipt 1 ∷ [] }
    ensures failed { replies (opened []) (fails ++ by 0 (CloseChain 1) ∷ by 0 chain ∷ [])
        ≡ replies (opened []) fails ++ Accepted ∷ Refused ChainClosed ∷ [] }
{}

/// Chains are numbered from 1, only over live domains, and do not affect each other.
pub fn chains_are_numbered()
    ensures { replies (opened []) (by 0 (OpenChain 0) ∷ by 0 (OpenChain 1) ∷ by 1 (OpenChain 0) ∷ by 1 (CloseChain 2) ∷ by 0 chain ∷ [])
        ≡ Chain 1 ∷ Refused (NoDomain 1) ∷ Chain 2 ∷ Accepted ∷ Begun 0 None ∷ [] }
{}

/// A pump decides the first receipt that is pending.
pub fn pumped_in_turn()
    ensures { replies (opened []) (by 0 begin ∷ by 1 begin ∷ by 0 Pump ∷ by 0 (Submit 0 (put a "x" ∷ [])) ∷ by 1 (Submit 1 (put a "y" ∷ [])) ∷ by 0 Pump ∷ by 0 Pump ∷ by 0 Pump ∷ [])
        ≡ Begun 0 None ∷ Begun 0 None ∷ Nothing ∷ Receipt 1 ∷ Receipt 2 ∷ Decided 1 0 (Done 1) ∷ Decided 2 0 (Conflict Config a Created 1) ∷ Nothing ∷ [] }
{}

/// A later look finds the mark.
pub fn marks_are_found()
    ensures { replies (opened []) (by 0 (After 7) ∷ by 1 (Mark 7) ∷ by 0 (After 7) ∷ by 0 (After 8) ∷ by 1 (Mark 7) ∷ [])
        ≡ Late ∷ Accepted ∷ Found ∷ Late ∷ Accepted ∷ [] }
{}
