//! Worked examples of listeners. Each function does nothing; its contract states what the definitions give for one log, and
//! the proof computes it.
#![tactic(auto, unfolding(sal_schema::specs::Table::closest, sal_rules::specs::Breaches::first, sal_rules::specs::Contexts::through_plain, sal_rules::specs::Contexts::from_list, sal_rules::specs::Rules::is_there))]

ghost use Rattle.std.specs.Prelude.{◌≡◌, [], ◌∷◌, None, Some};
ghost use Rattle.sal_rows.specs.declared.change.CandidateKind.TheVariants.{Write, Delete, SubtreeModified, Appeared, Disappeared};
ghost use Rattle.sal_rows.specs.declared.outcome.CallFault.TheVariants.{NoDomain, NoListener};
ghost use Rattle.sal_history.specs.declared.call.Call.TheVariants.{Listen, Submit, Take};
ghost use Rattle.sal_history.specs.declared.reply.Reply.TheVariants.{Accepted, Batch, Begun, Listener, Receipt, Refused, Settled};
ghost use Rattle.sal_rows.specs.declared.outcome.Outcome.TheVariants.{Done};
ghost use Rattle.sal_types.specs.declared.value.Store.TheVariants.{Config};
ghost use Rattle.sal_history.specs.Examples.{a, b, begin, box, by, delete, leaf, opened, oper, put, replies};
ghost use Rattle.sal_history.specs.History.{history};
ghost use Rattle.sal_history.specs.Listeners.{live_listeners, version};
ghost use Rattle.sal_history.specs.Listening.{between, change, last_reply, listen, part_of, removed, text, watched};

/// A leaf is created, changed and deleted: each commit has its part, by the leaf's own row.
pub fn a_leaf_comes_and_goes()
    ensures { last_reply (opened []) (watched a (put a "1" ∷ []) (put a "2" ∷ []) (delete a ∷ []))
        ≡ Some (Batch 0 (record {
          from = 0;
          to = 3;
          lists =
              part_of 1 Write (change a None (Some (text "1"))) ∷ part_of 2 Write (change a (Some (text "1")) (Some (text "2"))) ∷ part_of 3 Delete (change a (Some (text "2")) None) ∷ [];
        })) }
{}

/// A plain container has no row: it appears with its first leaf, is modified below, and disappears with the last.
pub fn a_container_appears()
    ensures { last_reply (opened []) (watched box (put a "1" ∷ []) (put a "2" ∷ []) (delete a ∷ []))
        ≡ Some (Batch 0 (record {
          from = 0;
          to = 3;
          lists =
              part_of 1 Appeared (change a None (Some (text "1"))) ∷ part_of 2 SubtreeModified (change a (Some (text "1")) (Some (text "2"))) ∷ part_of 3 Disappeared (change a (Some (text "2")) None) ∷ [];
        })) }
{}

/// Of three commits the second has no part: it writes the value that the leaf has already. Then it writes another leaf, and then the
/// other store.
pub fn a_commit_without_a_part()
    ensures equal { last_reply (opened []) (watched a (put a "1" ∷ []) (put a "1" ∷ []) (put a "2" ∷ []))
        ≡ Some (Batch 0 (record { from = 0; to = 3; lists = part_of 1 Write (change a None (Some (text "1"))) ∷ part_of 3 Write (change a (Some (text "1")) (Some (text "2"))) ∷ [] })) }
    ensures beside { last_reply (opened []) (watched a (put a "1" ∷ []) (put b "x" ∷ []) (put a "2" ∷ []))
        ≡ Some (Batch 0 (record { from = 0; to = 3; lists = part_of 1 Write (change a None (Some (text "1"))) ∷ part_of 3 Write (change a (Some (text "1")) (Some (text "2"))) ∷ [] })) }
    ensures other_store { last_reply (opened []) (watched a (put a "1" ∷ []) (oper (put a "x") ∷ []) (put a "2" ∷ []))
        ≡ Some (Batch 0 (record { from = 0; to = 3; lists = part_of 1 Write (change a None (Some (text "1"))) ∷ part_of 3 Write (change a (Some (text "1")) (Some (text "2"))) ∷ [] })) }
{}

/// A listener that is opened between two commits begins with the trees after the first. Each batch begins where the last one ended.
pub fn a_listener_between_commits()
    ensures replies { replies (opened []) (between (put a "1") (put a "2") (put a "3"))
        ≡ Begun 0 None ∷ Receipt 1 ∷ Settled 0 (Done 1) ∷ Listener 1 0 a (record { version = 1; rows = leaf a "1" ∷ [] }) ∷ Begun 1 None ∷ Receipt 2 ∷ Settled 0 (Done 2)
        ∷ Batch 0 (record { from = 1; to = 2; lists = part_of 2 Write (change a (Some (text "1")) (Some (text "2"))) ∷ [] }) ∷ Begun 2 None ∷ Receipt 3 ∷ Settled 0 (Done 3)
        ∷ Batch 0 (record { from = 2; to = 3; lists = part_of 3 Write (change a (Some (text "2")) (Some (text "3"))) ∷ [] }) ∷ [] }
    ensures version { version (history (opened []) (between (put a "1") (put a "2") (put a "3"))) 1 ≡ 3 }
{}

/// Only its own client may use a listener, and only until it is removed. Its id is not reused.
pub fn a_removed_listener()
    ensures replies { replies (opened []) removed
        ≡ Listener 1 0 a (record { version = 0; rows = [] }) ∷ Listener 2 0 box (record { version = 0; rows = [] }) ∷ Refused (NoListener 1) ∷ Refused (NoListener 1) ∷ Accepted
        ∷ Refused (NoListener 1) ∷ Refused (NoListener 1) ∷ Batch 0 (record { from = 0; to = 0; lists = [] }) ∷ Listener 3 0 a (record { version = 0; rows = [] }) ∷ [] }
    ensures live { live_listeners (history (opened []) removed) ≡ 2 }
{}

/// A pending submission is not visible: a batch has only commits.
pub fn a_pending_submission_is_not_seen()
    ensures { last_reply (opened []) (by 0 (listen a) ∷ by 1 begin ∷ by 1 (Submit 1 (put a "1" ∷ [])) ∷ by 0 (Take 1) ∷ []) ≡ Some (Batch 0 (record { from = 0; to = 0; lists = [] })) }
{}

/// No listener is opened over a domain that is not live.
pub fn a_domain_that_is_not_live()
    ensures { replies (opened []) (by 0 (Listen 1 Config a) ∷ []) ≡ Refused (NoDomain 1) ∷ [] }
{}
