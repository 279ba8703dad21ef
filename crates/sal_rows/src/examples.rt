//! Worked examples of the definitions. Each function does nothing; its contract states what the definitions give for one
//! history, and the proof computes it.
ghost use Rattle.std.specs.Prelude.{◌≡◌, None, [], ◌∷◌};
ghost use Rattle.sal_types.specs.declared.value.Store.TheVariants.{Config, Oper};
ghost use Rattle.sal_rows.specs.declared.outcome.ClashKind.TheVariants.{Changed, Created, Deleted};
ghost use Rattle.sal_rows.specs.declared.clash.Rules.TheVariants.{One};
ghost use Rattle.sal_rows.specs.Clash.{clash};
ghost use Rattle.sal_rows.specs.Examples.{depot, name, item, code, box, a, b, mark, leaf, put, merge, delete, both, after, found};

/// A put below a container that a later commit deleted: the conflict names the container, and not the leaf.
pub fn deleted_parent()
    ensures { after (mark depot ∷ leaf name "n" ∷ []) ((delete Config depot ∷ []) ∷ []) 1 (put Config name (leaf name "m" ∷ []) ∷ []) ≡ found 0 1 Deleted 1 }
{}

/// A put that an earlier delete of the transaction covers still needs its parent; the delete does not.
pub fn parent_of_a_covered_put()
    ensures of_the_put { after (mark depot ∷ []) ((delete Config depot ∷ []) ∷ []) 1 (delete Config item ∷ put Config item (mark item ∷ []) ∷ []) ≡ found 1 1 Deleted 1 }
    ensures of_the_delete { after (mark depot ∷ []) ((delete Config depot ∷ []) ∷ []) 1 (delete Config item ∷ []) ≡ None }
{}

/// The conflict names the outermost deleted parent, or an inner one if only that was deleted.
pub fn the_outermost_parent()
    ensures outer { after (mark depot ∷ mark item ∷ []) ((delete Config depot ∷ []) ∷ []) 1 (put Config code (leaf code "c" ∷ []) ∷ []) ≡ found 0 1 Deleted 1 }
    ensures inner { after (mark depot ∷ mark item ∷ []) ((delete Config item ∷ []) ∷ []) 1 (put Config code (leaf code "c" ∷ []) ∷ []) ≡ found 0 3 Deleted 1 }
{}

/// A parent that the transaction itself sets before is present.
pub fn a_parent_that_the_transaction_sets()
    ensures { after (mark depot ∷ []) ((delete Config depot ∷ []) ∷ []) 1 (merge Config depot (mark depot ∷ []) ∷ put Config name (leaf name "m" ∷ []) ∷ []) ≡ None }
{}

/// A parent that was deleted and made again is no lost parent; its leaf was created.
pub fn a_parent_that_came_back()
    ensures other { after (mark depot ∷ []) ((delete Config depot ∷ []) ∷ (put Config depot (mark depot ∷ []) ∷ []) ∷ []) 2 (put Config name (leaf name "m" ∷ []) ∷ []) ≡ None }
    ensures itself { after (mark depot ∷ []) ((delete Config depot ∷ []) ∷ (put Config depot (mark depot ∷ []) ∷ []) ∷ []) 2 (put Config depot (mark depot ∷ []) ∷ []) ≡ found 0 1 Changed 2 }
{}

/// A leaf that a commit makes and deletes again is a touch of the container around it.
pub fn a_row_that_came_and_went()
    ensures { after (leaf a "o" ∷ []) ((put Config b (leaf b "x" ∷ []) ∷ delete Config b ∷ []) ∷ []) 1 (put Config box (leaf a "z" ∷ []) ∷ []) ≡ found 0 1 Changed 1 }
{}

/// A leaf that was created and deleted again by later commits is absent at both ends.
pub fn created_and_deleted_again()
    ensures { after [] ((put Config a (leaf a "q" ∷ []) ∷ []) ∷ (delete Config a ∷ []) ∷ []) 2 (put Config a (leaf a "x" ∷ []) ∷ []) ≡ None }
{}

/// Created, changed and deleted in the configuration, by later commits.
pub fn kinds_in_the_configuration()
    ensures created { after [] ((put Config a (leaf a "x" ∷ []) ∷ []) ∷ []) 1 (put Config a (leaf a "y" ∷ []) ∷ []) ≡ found 0 2 Created 1 }
    ensures changed { after (leaf a "o" ∷ []) ((merge Config a (leaf a "o" ∷ []) ∷ []) ∷ []) 1 (put Config a (leaf a "y" ∷ []) ∷ []) ≡ found 0 2 Changed 1 }
    ensures deleted { after (leaf a "o" ∷ []) ((delete Config a ∷ []) ∷ []) 1 (delete Config a ∷ []) ≡ found 0 2 Deleted 1 }
    ensures other_store { after (leaf a "o" ∷ []) ((put Oper a (leaf a "x" ∷ []) ∷ []) ∷ []) 1 (put Config a (leaf a "y" ∷ []) ∷ []) ≡ None }
{}

/// The same in the operational store.
pub fn kinds_in_the_operational_store()
    ensures created { after [] ((put Oper a (leaf a "x" ∷ []) ∷ []) ∷ []) 1 (put Oper a (leaf a "y" ∷ []) ∷ []) ≡ found 0 2 Created 1 }
    ensures changed { after (leaf a "o" ∷ []) ((merge Oper a (leaf a "o" ∷ []) ∷ []) ∷ []) 1 (put Oper a (leaf a "y" ∷ []) ∷ []) ≡ found 0 2 Changed 1 }
    ensures deleted { after (leaf a "o" ∷ []) ((delete Oper a ∷ []) ∷ []) 1 (delete Oper a ∷ []) ≡ found 0 2 Deleted 1 }
    ensures other_store { after (leaf a "o" ∷ []) ((put Config a (leaf a "x" ∷ []) ∷ []) ∷ []) 1 (put Oper a (leaf a "y" ∷ []) ∷ []) ≡ None }
{}

/// A merge does not check its path, but requires its parents.
pub fn merges()
    ensures changed { after (leaf a "o" ∷ []) ((put Config a (leaf a "x" ∷ []) ∷ []) ∷ []) 1 (merge Config a (leaf a "y" ∷ []) ∷ []) ≡ None }
    ensures deleted_parent { after (mark depot ∷ []) ((delete Config depot ∷ []) ∷ []) 1 (merge Config name (leaf name "m" ∷ []) ∷ []) ≡ found 0 1 Deleted 1 }
{}

/// Deletes and puts without data check their paths too.
pub fn deletes_and_puts_without_data()
    ensures absent { after [] ((put Config b (leaf b "x" ∷ []) ∷ []) ∷ []) 1 (delete Config a ∷ []) ≡ None }
    ensures below { after (leaf a "o" ∷ []) ((merge Config b (leaf b "x" ∷ []) ∷ []) ∷ []) 1 (delete Config box ∷ []) ≡ found 0 1 Changed 1 }
    ensures empty { after (leaf a "o" ∷ []) ((merge Config b (leaf b "x" ∷ []) ∷ []) ∷ []) 1 (put Config box [] ∷ []) ≡ found 0 1 Changed 1 }
    ensures beside { after (leaf a "o" ∷ leaf b "o" ∷ []) ((put Config b (leaf b "x" ∷ []) ∷ []) ∷ []) 1 (put Config a [] ∷ []) ≡ None }
{}

/// Of operations on both stores the second one conflicts.
pub fn both_stores()
    ensures { after [] ((put Oper a (leaf a "x" ∷ []) ∷ []) ∷ []) 1 (put Config a (leaf a "y" ∷ []) ∷ put Oper a (leaf a "z" ∷ []) ∷ []) ≡ found 1 2 Created 1 }
{}

/// Of several commits that touched a path the conflict names the last one, for a parent too.
pub fn the_last_touching_commit()
    ensures path { after (leaf a "o" ∷ []) ((put Config a (leaf a "1" ∷ []) ∷ []) ∷ (put Config a (leaf a "2" ∷ []) ∷ []) ∷ (put Config b (leaf b "x" ∷ []) ∷ []) ∷ []) 3 (put Config a (leaf a "y" ∷ []) ∷ []) ≡ found 0 2 Changed 2 }
    ensures parent { after (mark depot ∷ []) ((merge Config name (leaf name "1" ∷ []) ∷ []) ∷ (delete Config depot ∷ []) ∷ (put Config a (leaf a "x" ∷ []) ∷ []) ∷ []) 3 (put Config name (leaf name "m" ∷ []) ∷ []) ≡ found 0 1 Deleted 2 }
{}

/// The second of three commits is of the transaction's own chain, so it is in no span, and the base includes it.
pub fn own_commits_are_cut_out()
    ensures own { clash (both []) ((put Config b (leaf b "x" ∷ []) ∷ []) ∷ (put Config a (leaf a "1" ∷ []) ∷ []) ∷ []) One (both (leaf a "1" ∷ [])) (record { from = 0; to = 1 } ∷ record { from = 2; to = 2 } ∷ []) (put Config a (leaf a "y" ∷ []) ∷ []) ≡ None }
    ensures later { clash (both []) ((put Config b (leaf b "x" ∷ []) ∷ []) ∷ (put Config a (leaf a "1" ∷ []) ∷ []) ∷ (put Config a (leaf a "2" ∷ []) ∷ []) ∷ []) One (both (leaf a "1" ∷ [])) (record { from = 0; to = 1 } ∷ record { from = 2; to = 3 } ∷ []) (put Config a (leaf a "y" ∷ []) ∷ []) ≡ found 0 2 Changed 3 }
    ensures parent { clash (both []) ((put Config b (leaf b "x" ∷ []) ∷ []) ∷ (put Config depot (mark depot ∷ []) ∷ []) ∷ (delete Config depot ∷ []) ∷ []) One (both (mark depot ∷ [])) (record { from = 0; to = 1 } ∷ record { from = 2; to = 3 } ∷ []) (put Config name (leaf name "m" ∷ []) ∷ []) ≡ found 0 1 Deleted 3 }
    ensures first_span { clash (both (leaf a "o" ∷ [])) ((put Config a (leaf a "x" ∷ []) ∷ []) ∷ (put Config b (leaf b "1" ∷ []) ∷ []) ∷ (delete Config a ∷ []) ∷ []) One (both (leaf a "o" ∷ leaf b "1" ∷ [])) (record { from = 0; to = 1 } ∷ record { from = 2; to = 3 } ∷ []) (put Config a (leaf a "y" ∷ []) ∷ []) ≡ found 0 2 Changed 1 }
{}

/// The first operation with a conflict is named; if no later commit touched anything there is none.
pub fn the_first_operation()
    ensures first { after [] ((put Config a (leaf a "x" ∷ []) ∷ put Config b (leaf b "x" ∷ []) ∷ []) ∷ []) 1 (put Config a (leaf a "y" ∷ []) ∷ put Config b (leaf b "y" ∷ []) ∷ []) ≡ found 0 2 Created 1 }
    ensures other_leaf { after [] ((put Config b (leaf b "x" ∷ []) ∷ []) ∷ []) 1 (put Config a (leaf a "y" ∷ []) ∷ []) ≡ None }
    ensures no_later_commit { after (leaf a "o" ∷ []) [] 0 (put Config a (leaf a "y" ∷ []) ∷ []) ≡ None }
    ensures no_operations { after (leaf a "o" ∷ []) ((delete Config a ∷ []) ∷ []) 1 [] ≡ None }
{}
