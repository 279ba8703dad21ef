//! Worked examples of version rules 2. Each function does nothing; its contract states what the definitions give for one history, and
//! the proof computes it.
ghost use Rattle.std.specs.Prelude.{◌≡◌, None, [], ◌∷◌};
ghost use Rattle.sal_types.specs.declared.value.Store.TheVariants.{Config, Oper};
ghost use Rattle.sal_rows.specs.declared.outcome.ClashKind.TheVariants.{Changed, Created, Deleted};
ghost use Rattle.sal_rows.specs.Examples.{a, after, after_two, b, box, code, delete, depot, found, found_in, item, leaf, mark, merge, name, put};

/// Two transactions that merge one leaf: the second is refused by version rules 2, and done by version rules 1.
pub fn two_merges_of_one_leaf()
    ensures two { after_two [] ((merge Config a (leaf a "x" ∷ []) ∷ []) ∷ []) 1 (merge Config a (leaf a "y" ∷ []) ∷ []) ≡ found_in 0 0 2 Created 1 }
    ensures one { after [] ((merge Config a (leaf a "x" ∷ []) ∷ []) ∷ []) 1 (merge Config a (leaf a "y" ∷ []) ∷ []) ≡ None }
{}

/// The kind follows from the cells of base and tip.
pub fn kinds_of_a_merged_leaf()
    ensures created { after_two [] ((put Oper a (leaf a "x" ∷ []) ∷ []) ∷ []) 1 (merge Oper a (leaf a "y" ∷ []) ∷ []) ≡ found_in 0 0 2 Created 1 }
    ensures changed { after_two (leaf a "o" ∷ []) ((put Config a (leaf a "x" ∷ []) ∷ []) ∷ []) 1 (merge Config a (leaf a "y" ∷ []) ∷ []) ≡ found_in 0 0 2 Changed 1 }
    ensures deleted { after_two (leaf a "o" ∷ []) ((delete Config a ∷ []) ∷ []) 1 (merge Config a (leaf a "y" ∷ []) ∷ []) ≡ found_in 0 0 2 Deleted 1 }
    ensures other_store { after_two (leaf a "o" ∷ []) ((put Oper a (leaf a "x" ∷ []) ∷ []) ∷ []) 1 (merge Config a (leaf a "y" ∷ []) ∷ []) ≡ None }
{}

/// Values are compared, and not touches: a leaf that has its old value again is no conflict.
pub fn a_leaf_with_its_value_again()
    ensures rewritten { after_two (leaf a "o" ∷ []) ((put Config a (leaf a "o" ∷ []) ∷ []) ∷ []) 1 (merge Config a (leaf a "z" ∷ []) ∷ []) ≡ None }
    ensures restored { after_two (leaf a "o" ∷ []) ((delete Config a ∷ []) ∷ (put Config a (leaf a "o" ∷ []) ∷ []) ∷ []) 2 (merge Config a (leaf a "z" ∷ []) ∷ []) ≡ None }
    ensures of_a_put { after_two (leaf a "o" ∷ []) ((put Config a (leaf a "o" ∷ []) ∷ []) ∷ []) 1 (put Config a (leaf a "z" ∷ []) ∷ []) ≡ found 0 2 Changed 1 }
{}

/// The conflict is at the first leaf of the data that differs, with the last commit that touched it; other leafs are not checked.
pub fn the_first_leaf_that_differs()
    ensures second { after_two (leaf a "o" ∷ []) ((put Config b (leaf b "x" ∷ []) ∷ []) ∷ []) 1 (merge Config box (leaf a "z" ∷ leaf b "z" ∷ []) ∷ []) ≡ found_in 0 1 2 Created 1 }
    ensures first { after_two [] ((put Config b (leaf b "x" ∷ []) ∷ []) ∷ (put Config a (leaf a "x" ∷ []) ∷ []) ∷ []) 2 (merge Config box (leaf a "z" ∷ leaf b "z" ∷ []) ∷ []) ≡ found_in 0 0 2 Created 2 }
    ensures other { after_two [] ((put Config b (leaf b "x" ∷ []) ∷ []) ∷ []) 1 (merge Config box (leaf a "z" ∷ []) ∷ []) ≡ None }
{}

/// Marks are not leafs: two transactions may merge one container, or different leafs of one entry.
pub fn marks_are_no_leafs()
    ensures container { after_two [] ((put Config depot (mark depot ∷ []) ∷ []) ∷ []) 1 (merge Config depot (mark depot ∷ []) ∷ []) ≡ None }
    ensures leaf_below { after_two (mark depot ∷ []) ((merge Config item (mark item ∷ leaf code "c" ∷ []) ∷ []) ∷ []) 1 (merge Config item (mark item ∷ leaf code "c" ∷ []) ∷ []) ≡ found_in 0 1 4 Created 1 }
{}

/// A merge below an earlier put or delete of its transaction is not checked, and neither are the data of that put.
pub fn a_merge_that_is_covered()
    ensures { after_two (leaf a "o" ∷ []) [] 0 (delete Config box ∷ merge Config a (leaf a "z" ∷ []) ∷ []) ≡ None }
{}

/// A leaf that an earlier merge of the transaction set is checked against the base, and not against that merge.
pub fn two_merges_of_one_transaction()
    ensures alone { after_two (leaf a "o" ∷ []) [] 0 (merge Config a (leaf a "y" ∷ []) ∷ merge Config a (leaf a "z" ∷ []) ∷ []) ≡ None }
    ensures overtaken { after_two (leaf a "o" ∷ []) ((merge Config a (leaf a "x" ∷ []) ∷ []) ∷ []) 1 (merge Config b (leaf b "y" ∷ []) ∷ merge Config a (leaf a "z" ∷ []) ∷ []) ≡ found_in 1 0 2 Changed 1 }
{}

/// A lost parent of a merge is reported before its leafs.
pub fn parents_go_before_leafs()
    ensures { after_two (mark depot ∷ leaf name "n" ∷ []) ((delete Config depot ∷ []) ∷ []) 1 (merge Config name (leaf name "m" ∷ []) ∷ []) ≡ found 0 1 Deleted 1 }
{}
