//! Worked examples of the definitions of changes and batches. Each function does nothing; its contract states what the
//! definitions give, and the proof computes it.
ghost use Rattle.std.specs.Prelude.{◌≡◌, Some, None, true, false, [], ◌∷◌};
ghost use Rattle.sal_types.specs.declared.value.Cell.TheVariants.{Mark};
ghost use Rattle.sal_types.specs.declared.value.Store.TheVariants.{Config, Oper};
ghost use Rattle.sal_rows.specs.declared.change.CandidateKind.TheVariants.{Unmodified, Write, Delete, SubtreeModified, Appeared, Disappeared};
ghost use Rattle.sal_rows.specs.Batches.{batch, opened};
ghost use Rattle.sal_rows.specs.Examples.{depot, name, item, code, box, a, b, mark, leaf, put, merge, delete};
ghost use Rattle.sal_rows.specs.ChangeExamples.{text, changed, only, changes_by, kind_by, trees_of};
ghost use Rattle.sal_rows.specs.Patch.{with_changes};

/// A leaf whose value changed, one that was added, one that was removed: each with both cells, in path order.
pub fn what_changes_are()
    ensures changed { changes_by (leaf a "1" ∷ []) (put Config a (leaf a "2" ∷ []) ∷ []) box ≡ changed a (text "1") (text "2") ∷ [] }
    ensures came { changes_by (leaf a "1" ∷ []) (put Config b (leaf b "2" ∷ []) ∷ []) box ≡ changed b None (text "2") ∷ [] }
    ensures went { changes_by (leaf a "1" ∷ leaf b "2" ∷ []) (delete Config a ∷ []) box ≡ changed a (text "1") None ∷ [] }
    ensures together { changes_by (leaf a "1" ∷ []) (put Config b (leaf b "2" ∷ []) ∷ delete Config a ∷ []) box ≡ changed a (text "1") None ∷ changed b None (text "2") ∷ [] }
{}

/// A delete of a subtree reports each removed row, and not the top one only.
pub fn a_deleted_subtree()
    ensures { changes_by (mark depot ∷ leaf name "n" ∷ mark item ∷ []) (delete Config depot ∷ []) [] ≡ changed depot (Some Mark) None ∷ changed name (text "n") None ∷ changed item (Some Mark) None ∷ [] }
{}

/// A rewrite with an equal value is no change.
pub fn an_equal_rewrite()
    ensures leaf { changes_by (leaf a "o" ∷ []) (put Config a (leaf a "o" ∷ []) ∷ []) a ≡ [] }
    ensures above { changes_by (leaf a "o" ∷ []) (put Config box (leaf a "o" ∷ []) ∷ []) [] ≡ [] }
    ensures and_back { changes_by (leaf a "o" ∷ []) (delete Config a ∷ merge Config box (leaf a "o" ∷ []) ∷ []) box ≡ [] }
    ensures kind { kind_by true (leaf a "o" ∷ []) (put Config a (leaf a "o" ∷ []) ∷ []) a ≡ Unmodified }
{}

/// A commit that touches nothing under the path, or only the other store, changes nothing there.
pub fn a_change_elsewhere()
    ensures beside { changes_by (leaf a "1" ∷ []) (put Config b (leaf b "2" ∷ []) ∷ []) a ≡ [] }
    ensures other_store { changes_by (leaf a "1" ∷ []) (put Oper a (leaf a "2" ∷ []) ∷ []) a ≡ [] }
    ensures no_part { (batch true (trees_of (leaf a "1" ∷ []) ((put Config b (leaf b "2" ∷ []) ∷ []) ∷ [])) a 0 1).lists ≡ [] }
{}

/// The kinds of a leaf.
pub fn kinds_of_a_leaf()
    ensures came { kind_by true [] (put Config a (leaf a "1" ∷ []) ∷ []) a ≡ Write }
    ensures changed { kind_by true (leaf a "1" ∷ []) (put Config a (leaf a "2" ∷ []) ∷ []) a ≡ Write }
    ensures went { kind_by true (leaf a "1" ∷ []) (delete Config box ∷ []) a ≡ Delete }
    ensures nothing { kind_by true (leaf a "1" ∷ []) (put Config b (leaf b "2" ∷ []) ∷ []) a ≡ Unmodified }
{}

/// The kinds of a presence container. Its own row is a mark, which has only one value.
pub fn kinds_of_a_presence_container()
    ensures came { kind_by true [] (put Config depot (mark depot ∷ leaf name "n" ∷ []) ∷ []) depot ≡ Write }
    ensures went { kind_by true (mark depot ∷ leaf name "n" ∷ []) (delete Config depot ∷ []) depot ≡ Delete }
    ensures below { kind_by true (mark depot ∷ leaf name "n" ∷ []) (merge Config name (leaf name "m" ∷ []) ∷ []) depot ≡ SubtreeModified }
    ensures nothing { kind_by true (mark depot ∷ []) (put Config depot (mark depot ∷ []) ∷ []) depot ≡ Unmodified }
{}

/// The kinds of a container without presence, which does not have its own row.
pub fn kinds_of_a_container()
    ensures appeared { kind_by false [] (put Config a (leaf a "1" ∷ []) ∷ []) box ≡ Appeared }
    ensures disappeared { kind_by false (leaf a "1" ∷ []) (delete Config a ∷ []) box ≡ Disappeared }
    ensures modified { kind_by false (leaf a "1" ∷ leaf b "2" ∷ []) (delete Config a ∷ []) box ≡ SubtreeModified }
    ensures replaced { kind_by false (leaf a "1" ∷ []) (put Config box (leaf b "2" ∷ []) ∷ []) box ≡ SubtreeModified }
    ensures nothing { kind_by false (leaf a "1" ∷ []) (put Config box (leaf a "1" ∷ []) ∷ []) box ≡ Unmodified }
    ensures root { kind_by false [] (put Config a (leaf a "1" ∷ []) ∷ []) [] ≡ Appeared }
{}

/// The kinds of a list entry, which is also deleted by a delete of an ancestor.
pub fn kinds_of_an_entry()
    ensures came { kind_by true (mark depot ∷ []) (put Config item (mark item ∷ leaf code "c" ∷ []) ∷ []) item ≡ Write }
    ensures went { kind_by true (mark depot ∷ mark item ∷ leaf code "c" ∷ []) (delete Config item ∷ []) item ≡ Delete }
    ensures went_with_its_parent { kind_by true (mark depot ∷ mark item ∷ leaf code "c" ∷ []) (delete Config depot ∷ []) item ≡ Delete }
    ensures below { kind_by true (mark depot ∷ mark item ∷ leaf code "c" ∷ []) (merge Config code (leaf code "d" ∷ []) ∷ []) item ≡ SubtreeModified }
    ensures nothing { kind_by true (mark depot ∷ mark item ∷ []) (merge Config item (mark item ∷ []) ∷ []) item ≡ Unmodified }
{}

/// A batch over three commits. The second changes nothing under the path, so it has no part.
pub fn a_batch_over_three_commits()
    ensures { batch false (trees_of [] ((put Config a (leaf a "1" ∷ []) ∷ []) ∷ (put Config depot (mark depot ∷ []) ∷ []) ∷ (delete Config a ∷ []) ∷ [])) box 0 3 ≡ record { from = 0; to = 3; lists = only 1 Appeared (changed a None (text "1")) (only 3 Disappeared (changed a (text "1") None) []) } }
{}

/// Two commits that undo one another: each has its part, and the parts are not merged.
pub fn a_change_that_is_undone()
    ensures { batch true (trees_of (leaf a "1" ∷ []) ((put Config a (leaf a "2" ∷ []) ∷ []) ∷ (put Config a (leaf a "1" ∷ []) ∷ []) ∷ [])) a 0 2 ≡ record { from = 0; to = 2; lists = only 1 Write (changed a (text "1") (text "2")) (only 2 Write (changed a (text "2") (text "1")) []) } }
{}

/// A listener that is opened between two commits gets the rows there, and later only the later changes. With no
/// commit since, the batch is empty.
pub fn a_listener_between_two_commits()
    ensures opened { opened (trees_of [] ((put Config a (leaf a "1" ∷ []) ∷ []) ∷ (put Config a (leaf a "2" ∷ []) ∷ []) ∷ [])) a 1 ≡ record { version = 1; rows = leaf a "1" ∷ [] } }
    ensures later { batch true (trees_of [] ((put Config a (leaf a "1" ∷ []) ∷ []) ∷ (put Config a (leaf a "2" ∷ []) ∷ []) ∷ [])) a 1 2 ≡ record { from = 1; to = 2; lists = only 2 Write (changed a (text "1") (text "2")) [] } }
    ensures none { batch true (trees_of [] ((put Config a (leaf a "1" ∷ []) ∷ []) ∷ [])) a 1 1 ≡ record { from = 1; to = 1; lists = [] } }
{}

/// The changes, done to the rows before.
pub fn what_a_copy_does()
    ensures { with_changes (mark depot ∷ leaf name "n" ∷ leaf a "1" ∷ []) (changed name (text "n") None ∷ changed a (text "1") (text "2") ∷ changed b None (text "3") ∷ []) ≡ mark depot ∷ leaf a "2" ∷ leaf b "3" ∷ [] }
{}
