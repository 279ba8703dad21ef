//! Worked examples of checked reads. Each function does nothing; its contract states what the definitions give for one history, and
//! the proof computes it.
ghost use Rattle.std.specs.Prelude.{◌≡◌, None, [], ◌∷◌, false, true};
ghost use Rattle.sal_types.specs.declared.value.Store.TheVariants.{Config, Oper};
ghost use Rattle.sal_rows.specs.declared.outcome.ClashKind.TheVariants.{Changed, Created, Deleted};
ghost use Rattle.sal_rows.specs.declared.outcome.Mode.TheVariants.{Checked, Rw};
ghost use Rattle.sal_rows.specs.Clash.{reads_from};
ghost use Rattle.sal_rows.specs.Examples.{a, after, b, both, box, delete, depot, found, leaf, mark, merge, name, put, read};
ghost use Rattle.sal_rows.specs.Reads.{recorded};

/// Write skew: each of two transactions reads the leaf that the other one writes. The second one is refused if its reads are
/// checked, and done if it has no checked reads.
pub fn write_skew()
    ensures checked { after (leaf a "o" ∷ leaf b "o" ∷ []) ((read Config a ∷ put Config b (leaf b "x" ∷ []) ∷ []) ∷ []) 1 (read Config b ∷ put Config a (leaf a "y" ∷ []) ∷ []) ≡ found 0 2 Changed 1 }
    ensures unchecked { after (leaf a "o" ∷ leaf b "o" ∷ []) ((put Config b (leaf b "x" ∷ []) ∷ []) ∷ []) 1 (put Config a (leaf a "y" ∷ []) ∷ []) ≡ None }
{}

/// A lost update: a merge of a leaf does not check it under version rules 1, but the checked read before it does.
pub fn lost_update()
    ensures checked { after (leaf a "o" ∷ []) ((read Config a ∷ merge Config a (leaf a "x" ∷ []) ∷ []) ∷ []) 1 (read Config a ∷ merge Config a (leaf a "y" ∷ []) ∷ []) ≡ found 0 2 Changed 1 }
    ensures unchecked { after (leaf a "o" ∷ []) ((merge Config a (leaf a "x" ∷ []) ∷ []) ∷ []) 1 (merge Config a (leaf a "y" ∷ []) ∷ []) ≡ None }
{}

/// A read sees all at and below its path. A commit that touched any of it is a conflict, even if each value is the same again.
pub fn what_a_read_checks()
    ensures changed { after (leaf a "o" ∷ []) ((put Config b (leaf b "x" ∷ []) ∷ []) ∷ []) 1 (read Config box ∷ []) ≡ found 0 1 Changed 1 }
    ensures created { after [] ((put Oper a (leaf a "x" ∷ []) ∷ []) ∷ []) 1 (read Oper a ∷ []) ≡ found 0 2 Created 1 }
    ensures deleted { after (leaf a "o" ∷ []) ((delete Config a ∷ []) ∷ []) 1 (read Config a ∷ []) ≡ found 0 2 Deleted 1 }
    ensures rewritten { after (leaf a "o" ∷ []) ((merge Config a (leaf a "o" ∷ []) ∷ []) ∷ []) 1 (read Config a ∷ []) ≡ found 0 2 Changed 1 }
    ensures absent { after [] ((put Config a (leaf a "x" ∷ []) ∷ []) ∷ (delete Config a ∷ []) ∷ []) 2 (read Config a ∷ []) ≡ None }
    ensures other_leaf { after (leaf a "o" ∷ []) ((put Config b (leaf b "x" ∷ []) ∷ []) ∷ []) 1 (read Config a ∷ []) ≡ None }
    ensures other_store { after (leaf a "o" ∷ []) ((put Oper a (leaf a "x" ∷ []) ∷ []) ∷ []) 1 (read Config a ∷ []) ≡ None }
{}

/// A read below an earlier put or delete of its transaction is not tested: it sees what the transaction wrote.
pub fn a_covered_read()
    ensures by_a_delete { reads_from (both (leaf a "o" ∷ [])) ((put Config a (leaf a "x" ∷ []) ∷ []) ∷ []) (record { from = 0; to = 1 } ∷ []) [] (delete Config box ∷ read Config a ∷ []) ≡ None }
    ensures by_a_merge { reads_from (both (leaf a "o" ∷ [])) ((put Config a (leaf a "x" ∷ []) ∷ []) ∷ []) (record { from = 0; to = 1 } ∷ []) [] (merge Config a (leaf a "y" ∷ []) ∷ read Config a ∷ []) ≡ found 1 2 Changed 1 }
    ensures before_it { reads_from (both (leaf a "o" ∷ [])) ((put Config a (leaf a "x" ∷ []) ∷ []) ∷ []) (record { from = 0; to = 1 } ∷ []) [] (read Config a ∷ delete Config box ∷ []) ≡ found 0 2 Changed 1 }
    ensures other_store { reads_from (both (leaf a "o" ∷ [])) ((put Config a (leaf a "x" ∷ []) ∷ []) ∷ []) (record { from = 0; to = 1 } ∷ []) [] (delete Oper box ∷ read Config a ∷ []) ≡ found 1 2 Changed 1 }
{}

/// All writes are tested before the first read.
pub fn reads_are_tested_last()
    ensures put_first { after (leaf a "o" ∷ leaf b "o" ∷ []) ((put Config a (leaf a "x" ∷ []) ∷ put Config b (leaf b "x" ∷ []) ∷ []) ∷ []) 1 (read Config a ∷ put Config b (leaf b "y" ∷ []) ∷ []) ≡ found 1 2 Changed 1 }
    ensures first_read { after (leaf a "o" ∷ leaf b "o" ∷ []) ((put Config a (leaf a "x" ∷ []) ∷ put Config b (leaf b "x" ∷ []) ∷ []) ∷ []) 1 (read Config b ∷ read Config a ∷ []) ≡ found 0 2 Changed 1 }
{}

/// A read changes nothing: a commit of a single read touches no path, and a read requires no parent.
pub fn reads_change_nothing()
    ensures untouched { after (leaf a "o" ∷ []) ((read Config box ∷ read Config a ∷ []) ∷ []) 1 (put Config a (leaf a "y" ∷ []) ∷ []) ≡ None }
    ensures parent { after (mark depot ∷ []) ((delete Config depot ∷ []) ∷ []) 1 (read Config name ∷ []) ≡ None }
{}

/// A transaction records each path that it reads once, and none below a recorded path or below its own put or delete. It records none if
/// its reads are not checked.
pub fn what_is_recorded()
    ensures first { recorded Checked Config a [] ≡ read Config a ∷ [] }
    ensures again { recorded Checked Config a (read Config a ∷ []) ≡ read Config a ∷ [] }
    ensures below { recorded Checked Config a (read Config box ∷ []) ≡ read Config box ∷ [] }
    ensures above { recorded Checked Config box (read Config a ∷ []) ≡ read Config a ∷ read Config box ∷ [] }
    ensures written { recorded Checked Config a (delete Config box ∷ []) ≡ delete Config box ∷ [] }
    ensures merged { recorded Checked Config a (merge Config a (leaf a "x" ∷ []) ∷ []) ≡ merge Config a (leaf a "x" ∷ []) ∷ read Config a ∷ [] }
    ensures other_store { recorded Checked Oper a (read Config a ∷ []) ≡ read Config a ∷ read Oper a ∷ [] }
    ensures unchecked { recorded Rw Config a [] ≡ [] }
{}
