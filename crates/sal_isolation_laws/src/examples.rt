//! Worked examples of concurrent transactions. Each function does nothing; its contract states what the definitions give for one log, and the proof
//! computes it.
#![tactic(auto, unfolding(sal_schema::specs::Table::closest, sal_rules::specs::Breaches::first, sal_rules::specs::Contexts::through_plain, sal_rules::specs::Contexts::from_list, sal_rules::specs::Rules::is_there))]

ghost use Rattle.std.specs.Prelude.{◌≡◌, true, false, [], ◌∷◌};
ghost use Rattle.std.specs.List.{fold};
ghost use Rattle.sal_types.specs.declared.value.Store.TheVariants.{Config, Oper};
ghost use Rattle.sal_rows.specs.declared.outcome.ClashKind.TheVariants.{Changed, Created};
ghost use Rattle.sal_rows.specs.declared.outcome.Outcome.TheVariants.{Conflict, Done};
ghost use Rattle.sal_history.specs.Chains.{twice};
ghost use Rattle.sal_history.specs.Examples.{a, b, crossed, decisions, delete, leaf, merge, opened, overtaken, put, ruled};
ghost use Rattle.sal_history.specs.History.{base_tree, newest_tree};
ghost use Rattle.sal_history.specs.World.{opening_of};
ghost use Rattle.sal_history_laws.specs.Serial.{played};
ghost use Rattle.sal_isolation_laws.specs.EpochExamples.{done_ops_over, first, second};
ghost use Rattle.sal_isolation_laws.specs.Epochs.{done_over, transactions};
ghost use Rattle.sal_isolation_laws.specs.Examples.{base_commit, differs_between, own_before, present, touched};

/// A chain's second transaction begins while its first one and another client's put of leaf b are pending: it reads commit 0 with the first one on
/// top, and nothing of the other.
pub fn a_commit_and_its_own_chain()
    ensures commit { base_commit (opened []) twice 5 ≡ 0 }
    ensures own { own_before (opened []) twice 5 0 ≡ (put a "x" ∷ []) ∷ [] }
    ensures rows { base_tree (opened []) twice 5 Config ≡ leaf a "x" ∷ [] }
    ensures at_the_commit { present (opened []) twice a 0 ≡ false }
{}

/// Two concurrent transactions put different leafs, and both are done: the first one's commit touched nothing at the leaf of the second. Of two that
/// put the same leaf the second is refused.
pub fn puts_of_two_leafs()
    ensures both { decisions (opened []) (crossed (put a "x") (put b "y")) ≡ Done 1 ∷ Done 2 ∷ [] }
    ensures own { touched (opened []) (crossed (put a "x") (put b "y")) a 1 ≡ true }
    ensures other { touched (opened []) (crossed (put a "x") (put b "y")) b 1 ≡ false }
    ensures same { decisions (opened []) (crossed (put a "x") (put a "y")) ≡ Done 1 ∷ Conflict Config a Created 1 ∷ [] }
{}

/// Commit 1 makes the leaf that a concurrent transaction puts, and commit 2 deletes it again: that is no change, and the transaction is done.
pub fn made_and_deleted_again()
    ensures decisions { decisions (opened []) (overtaken (put a "x") (put a "q") (delete a)) ≡ Done 1 ∷ Done 2 ∷ Done 3 ∷ [] }
    ensures touched { touched (opened []) (overtaken (put a "x") (put a "q") (delete a)) a 1 ≡ true }
    ensures before { present (opened []) (overtaken (put a "x") (put a "q") (delete a)) a 0 ≡ false }
    ensures between { present (opened []) (overtaken (put a "x") (put a "q") (delete a)) a 1 ≡ true }
    ensures after { present (opened []) (overtaken (put a "x") (put a "q") (delete a)) a 2 ≡ false }
{}

/// Two concurrent merges of one leaf are both done under version rules 1, though the first one left a change there. So merges are outside.
pub fn merges_are_outside()
    ensures both { decisions (opened []) (crossed (merge a "x") (merge a "y")) ≡ Done 1 ∷ Done 2 ∷ [] }
    ensures touched { touched (opened []) (crossed (merge a "x") (merge a "y")) a 1 ≡ true }
    ensures stays { present (opened []) (crossed (merge a "x") (merge a "y")) a 1 ≡ true }
    ensures put_after_merge { decisions (opened []) (crossed (merge a "x") (put a "y")) ≡ Done 1 ∷ Conflict Config a Created 1 ∷ [] }
{}

/// Under version rules 2 a leaf that was rewritten with its own value was touched, but does not differ: the merge is done. One that differs makes a
/// conflict.
pub fn a_touch_alone_is_no_conflict()
    ensures touched { touched (ruled (leaf a "o" ∷ [])) (crossed (put a "o") (merge a "z")) a 1 ≡ true }
    ensures equal { differs_between (ruled (leaf a "o" ∷ [])) (crossed (put a "o") (merge a "z")) 0 1 (leaf a "z") ≡ false }
    ensures done { decisions (ruled (leaf a "o" ∷ [])) (crossed (put a "o") (merge a "z")) ≡ Done 1 ∷ Done 2 ∷ [] }
    ensures another { differs_between (ruled (leaf a "o" ∷ [])) (crossed (put a "x") (merge a "z")) 0 1 (leaf a "z") ≡ true }
    ensures refused { decisions (ruled (leaf a "o" ∷ [])) (crossed (put a "x") (merge a "z")) ≡ Done 1 ∷ Conflict Config a Changed 1 ∷ [] }
{}

/// The second epoch begins with what the first one left: the transactions of both are one history, with the newest tree of the second.
pub fn two_epochs()
    ensures config { opening_of second.world 0 Config ≡ newest_tree first.world first.log 0 Config }
    ensures oper { opening_of second.world 0 Oper ≡ newest_tree first.world first.log 0 Oper }
    ensures both { done_ops_over (first ∷ second ∷ []) ≡ (put a "x" ∷ []) ∷ (put b "y" ∷ []) ∷ [] }
    ensures played { fold played (opening_of first.world 0) (transactions (done_over 0 (first ∷ second ∷ []))) Config ≡ leaf a "x" ∷ leaf b "y" ∷ [] }
    ensures newest { newest_tree second.world second.log 0 Config ≡ leaf a "x" ∷ leaf b "y" ∷ [] }
{}
