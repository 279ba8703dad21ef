//! Worked examples of version rules 2. Each function does nothing; its contract states what the definitions give for one log, and the
//! proof computes it.
#![tactic(auto, unfolding(sal_schema::specs::Table::closest, sal_rules::specs::Breaches::first, sal_rules::specs::Contexts::through_plain, sal_rules::specs::Contexts::from_list, sal_rules::specs::Rules::is_there))]

ghost use Rattle.std.specs.Prelude.{◌≡◌, [], ◌∷◌, None};
ghost use Rattle.sal_types.specs.declared.value.Store.TheVariants.{Config};
ghost use Rattle.sal_rows.specs.declared.clash.Rules.TheVariants.{One, Two};
ghost use Rattle.sal_rows.specs.declared.outcome.ClashKind.TheVariants.{Changed, Created, Deleted};
ghost use Rattle.sal_rows.specs.declared.outcome.Outcome.TheVariants.{Done, Conflict};
ghost use Rattle.sal_history.specs.declared.reply.Reply.TheVariants.{Begun, Receipt, Settled};
ghost use Rattle.sal_history.specs.Chains.{chained};
ghost use Rattle.sal_history.specs.Examples.{a, b, box, crossed, decisions, delete, leaf, merge, merge_rows, met, opened, put, replies, ruled};
ghost use Rattle.sal_history.specs.History.{newest_tree};
ghost use Rattle.sal_history.specs.World.{rules_of};

/// Each domain has its version rules; those of a number without a domain are 1.
pub fn the_rules_of_a_domain()
    ensures one { rules_of (opened []) 0 ≡ One }
    ensures two { rules_of (ruled []) 0 ≡ Two }
    ensures none { rules_of (ruled []) 1 ≡ One }
{}

/// Two merges of the same leaf: the second is refused, with the leaf and the commit that created it, and its value is not written.
pub fn two_merges()
    ensures replies { replies (ruled []) (crossed (merge a "x") (merge a "y"))
        ≡ Begun 0 None ∷ Begun 0 None ∷ Receipt 1 ∷ Settled 0 (Done 1) ∷ Receipt 2 ∷ Settled 0 (Conflict Config a Created 1) ∷ [] }
    ensures tree { newest_tree (ruled []) (crossed (merge a "x") (merge a "y")) 0 Config ≡ leaf a "x" ∷ [] }
{}

/// A leaf that was rewritten with an equal value has its old value, so a merge of it is done; a put of it is not.
pub fn equal_value()
    ensures of_a_merge { decisions (ruled (leaf a "o" ∷ [])) (crossed (put a "o") (merge a "z")) ≡ Done 1 ∷ Done 2 ∷ [] }
    ensures tree { newest_tree (ruled (leaf a "o" ∷ [])) (crossed (put a "o") (merge a "z")) 0 Config ≡ leaf a "z" ∷ [] }
    ensures of_a_put { decisions (ruled (leaf a "o" ∷ [])) (crossed (put a "o") (put a "z")) ≡ Done 1 ∷ Conflict Config a Changed 1 ∷ [] }
{}

/// A merge of a leaf that another client deleted, or changed, is refused.
pub fn another_value()
    ensures deleted { decisions (ruled (leaf a "o" ∷ [])) (crossed (delete a) (merge a "z")) ≡ Done 1 ∷ Conflict Config a Deleted 1 ∷ [] }
    ensures changed { decisions (ruled (leaf a "o" ∷ [])) (crossed (merge a "x") (merge a "z")) ≡ Done 1 ∷ Conflict Config a Changed 1 ∷ [] }
{}

/// A merge of two leafs is refused at the one that another client changed, and a merge that does not name that leaf is done.
pub fn the_leafs_that_are_named()
    ensures both { decisions (ruled []) (met (put b "x" ∷ []) (merge_rows box (leaf a "z" ∷ leaf b "z" ∷ []) ∷ [])) ≡ Done 1 ∷ Conflict Config b Created 1 ∷ [] }
    ensures other { decisions (ruled []) (met (put b "x" ∷ []) (merge_rows box (leaf a "z" ∷ []) ∷ [])) ≡ Done 1 ∷ Done 2 ∷ [] }
{}

/// A chain's second merge of a leaf that its first one put is done, with a foreign commit between them; a merge of a leaf that this
/// commit changed is refused.
pub fn merges_of_a_chain()
    ensures own { decisions (ruled []) (chained (put b "y") (merge a "z")) ≡ Done 1 ∷ Done 2 ∷ Done 3 ∷ [] }
    ensures foreign { decisions (ruled []) (chained (put b "y") (merge b "z")) ≡ Done 1 ∷ Done 2 ∷ Conflict Config b Created 2 ∷ [] }
{}

/// Two transactions that put different leafs are done by these rules too: in mode `Rw` reads are not checked.
pub fn write_skew_accepted()
    ensures { decisions (ruled (leaf a "1" ∷ leaf b "1" ∷ [])) (crossed (put a "0") (put b "0")) ≡ Done 1 ∷ Done 2 ∷ [] }
{}
