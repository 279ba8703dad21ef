//! Worked examples of the log's meaning. Each function does nothing; its contract states what the definitions give for
//! one log, and the proof computes it.
#![tactic(auto, unfolding(sal_schema::specs::Table::closest, sal_rules::specs::Breaches::first, sal_rules::specs::Contexts::through_plain, sal_rules::specs::Contexts::from_list, sal_rules::specs::Rules::is_there))]

ghost use Rattle.std.specs.Prelude.{◌≡◌, ◌+◌, ℕ, false, length, List, [], ◌∷◌, ◌++◌};
ghost use Rattle.sal_types.specs.declared.value.Store.TheVariants.{Config, Oper};
ghost use Rattle.sal_rows.specs.declared.outcome.CallFault.TheVariants.{PipelineFull, TxSpent};
ghost use Rattle.sal_rows.specs.declared.outcome.ClashKind.TheVariants.{Changed, Created, Deleted};
ghost use Rattle.sal_rows.specs.declared.outcome.Outcome.TheVariants.{Done, Conflict, Invalid};
ghost use Rattle.sal_rows.specs.declared.outcome.Rule.TheVariants.{MaxElements, Unique};
ghost use Rattle.sal_rules.specs.Examples.{mark, held};
ghost use Rattle.sal_history.specs.declared.call.Call.TheVariants.{Submit, Cancel, Settle};
ghost use Rattle.sal_history.specs.declared.reply.Reply.TheVariants.{Begun, Accepted, Receipt, Settled, Refused};
ghost use Rattle.sal_history.specs.History.{Answered, base_tree, is_spent, newest_tree, pending, sents, submitted, view};
ghost use Rattle.sal_history.specs.Examples.{a, b, box, leaf, put, put_rows, merge, merge_rows, delete, oper, opened, opened_oper, by, begin, snapshot, replies, decisions, met, crossed, overtaken, alone};
ghost use Rattle.sal_history.specs.Depots.{stocked, depot, name, items, item, code, note, plain_item, coded_item, seen, three_seen};

/// A log without entries: no replies, and the newest trees are the opening ones.
pub fn empty()
    ensures replies { replies (opened []) [] ≡ [] }
    ensures tree { newest_tree (opened []) [] 0 Config ≡ [] }
{}

/// A transaction sees its own write; an older snapshot does not, and a later one does.
pub fn own_writes_and_an_older_snapshot()
    ensures replies { replies (opened []) (by 0 snapshot ∷ by 0 begin ∷ by 0 (Submit 1 (put a "x" ∷ [])) ∷ by 0 (Settle 1) ∷ by 0 snapshot ∷ [])
        ≡ Begun 0 None ∷ Begun 0 None ∷ Receipt 1 ∷ Settled 0 (Done 1) ∷ Begun 1 None ∷ [] }
    ensures own { view (opened []) (by 0 snapshot ∷ by 0 begin ∷ []) 1 (put a "x" ∷ []) Config ≡ leaf a "x" ∷ [] }
    ensures older { base_tree (opened []) (by 0 snapshot ∷ by 0 begin ∷ by 0 (Submit 1 (put a "x" ∷ [])) ∷ by 0 (Settle 1) ∷ []) 0 Config ≡ [] }
    ensures later { base_tree (opened []) (by 0 snapshot ∷ by 0 begin ∷ by 0 (Submit 1 (put a "x" ∷ [])) ∷ by 0 (Settle 1) ∷ by 0 snapshot ∷ []) 4 Config ≡ leaf a "x" ∷ [] }
{}

/// Two clients put the same leaf: the second is refused, with the leaf and the commit that created it.
pub fn same_leaf()
    ensures { replies (opened []) (crossed (put a "x") (put a "y"))
        ≡ Begun 0 None ∷ Begun 0 None ∷ Receipt 1 ∷ Settled 0 (Done 1) ∷ Receipt 2 ∷ Settled 0 (Conflict Config a Created 1) ∷ [] }
{}

/// The same for a leaf that had a value: it was changed.
pub fn same_leaf_with_an_opening_value()
    ensures { replies (opened (leaf a "o" ∷ [])) (crossed (put a "x") (put a "y"))
        ≡ Begun 0 None ∷ Begun 0 None ∷ Receipt 1 ∷ Settled 0 (Done 1) ∷ Receipt 2 ∷ Settled 0 (Conflict Config a Changed 1) ∷ [] }
{}

/// Two clients put different leafs: both are done.
pub fn different_leafs()
    ensures replies { replies (opened []) (crossed (put a "x") (put b "y"))
        ≡ Begun 0 None ∷ Begun 0 None ∷ Receipt 1 ∷ Settled 0 (Done 1) ∷ Receipt 2 ∷ Settled 0 (Done 2) ∷ [] }
    ensures tree { newest_tree (opened []) (crossed (put a "x") (put b "y")) 0 Config ≡ leaf a "x" ∷ leaf b "y" ∷ [] }
{}

/// Two merges of the same leaf do not conflict: the later value is the result.
pub fn two_merges()
    ensures replies { replies (opened []) (crossed (merge a "x") (merge a "y"))
        ≡ Begun 0 None ∷ Begun 0 None ∷ Receipt 1 ∷ Settled 0 (Done 1) ∷ Receipt 2 ∷ Settled 0 (Done 2) ∷ [] }
    ensures tree { newest_tree (opened []) (crossed (merge a "x") (merge a "y")) 0 Config ≡ leaf a "y" ∷ [] }
{}

/// A leaf that was created and deleted again is absent at both ends, so a put of it does not conflict.
pub fn created_and_deleted_again()
    ensures replies { replies (opened []) (overtaken (put a "x") (put a "q") (delete a))
        ≡ Begun 0 None ∷ Begun 0 None ∷ Receipt 1 ∷ Settled 0 (Done 1) ∷ Begun 1 None ∷ Receipt 2 ∷ Settled 0 (Done 2)
        ∷ Receipt 3 ∷ Settled 0 (Done 3) ∷ [] }
    ensures tree { newest_tree (opened []) (overtaken (put a "x") (put a "q") (delete a)) 0 Config ≡ leaf a "x" ∷ [] }
{}

/// A leaf that was rewritten with an equal value was touched, so a put of it conflicts.
pub fn equal_value()
    ensures { replies (opened (leaf a "o" ∷ [])) (crossed (put a "o") (put a "z"))
        ≡ Begun 0 None ∷ Begun 0 None ∷ Receipt 1 ∷ Settled 0 (Done 1) ∷ Receipt 2 ∷ Settled 0 (Conflict Config a Changed 1) ∷ [] }
{}

/// Two transactions that each read what the other writes are both done: their reads are not checked.
pub fn write_skew_accepted()
    ensures replies { replies (opened (leaf a "1" ∷ leaf b "1" ∷ [])) (crossed (put a "0") (put b "0"))
        ≡ Begun 0 None ∷ Begun 0 None ∷ Receipt 1 ∷ Settled 0 (Done 1) ∷ Receipt 2 ∷ Settled 0 (Done 2) ∷ [] }
    ensures tree { newest_tree (opened (leaf a "1" ∷ leaf b "1" ∷ [])) (crossed (put a "0") (put b "0")) 0 Config ≡ leaf a "0" ∷ leaf b "0" ∷ [] }
    ensures read { base_tree (opened (leaf a "1" ∷ leaf b "1" ∷ [])) (crossed (put a "0") (put b "0")) 1 Config ≡ leaf a "1" ∷ leaf b "1" ∷ [] }
{}

/// One settle decides all pending submissions before its receipt, and returns a decided outcome again.
pub fn one_settle_for_two()
    ensures { replies (opened []) (by 0 begin ∷ by 1 begin ∷ by 0 (Submit 0 (put a "x" ∷ [])) ∷ by 1 (Submit 1 (put a "y" ∷ [])) ∷ by 1 (Settle 2) ∷ by 0 (Settle 1) ∷ [])
        ≡ Begun 0 None ∷ Begun 0 None ∷ Receipt 1 ∷ Receipt 2 ∷ Settled 0 (Conflict Config a Created 1) ∷ Settled 0 (Done 1) ∷ [] }
{}

/// A transaction is submitted once, and not after it was cancelled; to cancel is always accepted.
pub fn spent()
    ensures submitted_twice { replies (opened []) (by 0 begin ∷ by 0 (Submit 0 (put a "x" ∷ [])) ∷ by 0 (Submit 0 (put a "x" ∷ [])) ∷ [])
        ≡ Begun 0 None ∷ Receipt 1 ∷ Refused TxSpent ∷ [] }
    ensures cancelled { replies (opened []) (by 0 begin ∷ by 0 (Cancel 0) ∷ by 0 (Submit 0 (put a "x" ∷ [])) ∷ [])
        ≡ Begun 0 None ∷ Accepted ∷ Refused TxSpent ∷ [] }
    ensures other { replies (opened []) (by 0 begin ∷ by 0 begin ∷ by 0 (Cancel 0) ∷ by 0 (Submit 1 (put a "x" ∷ [])) ∷ [])
        ≡ Begun 0 None ∷ Begun 0 None ∷ Accepted ∷ Receipt 1 ∷ [] }
{}

/// Created, changed and deleted in the configuration, by another client.
pub fn kinds_in_the_configuration()
    ensures created { decisions (opened []) (crossed (put a "x") (put a "y")) ≡ Done 1 ∷ Conflict Config a Created 1 ∷ [] }
    ensures changed { decisions (opened (leaf a "o" ∷ [])) (crossed (merge a "x") (put a "y")) ≡ Done 1 ∷ Conflict Config a Changed 1 ∷ [] }
    ensures deleted { decisions (opened (leaf a "o" ∷ [])) (crossed (delete a) (delete a)) ≡ Done 1 ∷ Conflict Config a Deleted 1 ∷ [] }
{}

/// The same in the operational store; touches in the other store do not matter.
pub fn kinds_in_the_operational_store()
    ensures created { decisions (opened []) (crossed (oper (put a "x")) (oper (put a "y"))) ≡ Done 1 ∷ Conflict Oper a Created 1 ∷ [] }
    ensures changed { decisions (opened_oper (leaf a "o" ∷ [])) (crossed (oper (merge a "x")) (oper (put a "y"))) ≡ Done 1 ∷ Conflict Oper a Changed 1 ∷ [] }
    ensures deleted { decisions (opened_oper (leaf a "o" ∷ [])) (crossed (oper (delete a)) (oper (delete a))) ≡ Done 1 ∷ Conflict Oper a Deleted 1 ∷ [] }
    ensures other_store { decisions (opened []) (crossed (put a "x") (oper (put a "y"))) ≡ Done 1 ∷ Done 2 ∷ [] }
{}

/// A leaf that a transaction makes and deletes again is a touch of the container around it.
pub fn a_row_that_came_and_went()
    ensures { decisions (opened (leaf a "o" ∷ [])) (met (put b "x" ∷ delete b ∷ []) (put_rows box (leaf a "z" ∷ []) ∷ []))
        ≡ Done 1 ∷ Conflict Config box Changed 1 ∷ [] }
{}

/// A put below a container that another client deleted: the conflict names the container.
pub fn deleted_parent()
    ensures { decisions (stocked (mark depot ∷ [])) (crossed (delete depot) (put name "m")) ≡ Done 1 ∷ Conflict Config depot Deleted 1 ∷ [] }
{}

/// A put that an earlier delete of the transaction covers still needs its parent.
pub fn parent_of_a_covered_put()
    ensures { decisions (stocked (mark depot ∷ [])) (met (delete depot ∷ []) (delete (item 1) ∷ put_rows (item 1) (plain_item 1) ∷ []))
        ≡ Done 1 ∷ Conflict Config depot Deleted 1 ∷ [] }
{}

/// A parent that the transaction itself sets before is present.
pub fn a_parent_that_the_transaction_sets()
    ensures { decisions (stocked (mark depot ∷ [])) (met (delete depot ∷ []) (merge_rows depot (mark depot ∷ []) ∷ put name "m" ∷ []))
        ≡ Done 1 ∷ Done 2 ∷ [] }
{}

/// Two transactions put different leafs of one list entry: both are done.
pub fn different_leafs_of_one_entry()
    ensures { decisions (stocked (mark depot ∷ plain_item 1)) (met (put_rows (code 1) (held (code 1) 7 ∷ []) ∷ []) (put_rows (note 1) (held (note 1) 8 ∷ []) ∷ []))
        ≡ Done 1 ∷ Done 2 ∷ [] }
{}

/// Two transactions give two items the same code: no path conflicts, and the second breaks the rule.
pub fn unique_over_two_commits()
    ensures { decisions (stocked (mark depot ∷ [])) (met (put_rows (item 1) (coded_item 1 7) ∷ []) (put_rows (item 2) (coded_item 2 7) ∷ []))
        ≡ Done 1 ∷ Invalid Config items (Unique 2) ∷ [] }
{}

/// If the operational store would break a rule, neither store changes; the configuration is checked first.
pub fn both_stores_or_none()
    ensures outcome { decisions (stocked []) (alone (put_rows depot (mark depot ∷ []) ∷ put name "m" ∷ oper (put_rows seen three_seen) ∷ [])) ≡ Invalid Oper seen (MaxElements 7) ∷ [] }
    ensures configuration { newest_tree (stocked []) (alone (put_rows depot (mark depot ∷ []) ∷ put name "m" ∷ oper (put_rows seen three_seen) ∷ [])) 0 Config ≡ [] }
    ensures operational { newest_tree (stocked []) (alone (put_rows depot (mark depot ∷ []) ∷ put name "m" ∷ oper (put_rows seen three_seen) ∷ [])) 0 Oper ≡ [] }
    ensures both_broken { decisions (stocked []) (alone (put_rows depot (mark depot ∷ coded_item 1 7 ++ coded_item 2 7) ∷ oper (put_rows seen three_seen) ∷ [])) ≡ Invalid Config items (Unique 2) ∷ [] }
{}

/// With 4,096 pending receipts a submit is refused, and with one fewer it has the next receipt.
pub fn full_pipeline()
    ensures full { (answered : List Answered) (place : ℕ) → pending answered ≡ 4096 → submitted answered place ≡ Refused PipelineFull }
    ensures room { (answered : List Answered) (place : ℕ) → pending answered ≡ 4095 → is_spent answered place ≡ false → submitted answered place ≡ Receipt (length (sents answered) + 1) }
{}
