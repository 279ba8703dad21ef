//! Worked examples of checked reads. Each function does nothing; its contract states what the definitions give for one log, and the
//! proof computes it.
#![tactic(auto, unfolding(sal_schema::specs::Table::closest, sal_rules::specs::Breaches::first, sal_rules::specs::Contexts::through_plain, sal_rules::specs::Contexts::from_list, sal_rules::specs::Rules::is_there))]

ghost use Rattle.std.specs.Prelude.{◌≡◌, [], ◌∷◌, None};
ghost use Rattle.sal_types.specs.declared.value.Store.TheVariants.{Config};
ghost use Rattle.sal_rows.specs.declared.outcome.ClashKind.TheVariants.{Changed, Created, Deleted};
ghost use Rattle.sal_rows.specs.declared.outcome.Mode.TheVariants.{Checked, Rw};
ghost use Rattle.sal_rows.specs.declared.outcome.Outcome.TheVariants.{Done, Conflict};
ghost use Rattle.sal_history.specs.declared.reply.Reply.TheVariants.{Begun, Receipt, Settled};
ghost use Rattle.sal_history.specs.Chains.{chained};
ghost use Rattle.sal_history.specs.Examples.{a, b, box, crossed, decisions, delete, leaf, merge, met, opened, overtaken, put, read, replies, skewed};
ghost use Rattle.sal_history.specs.History.{newest_tree};

/// Write skew: each of two transactions reads the leaf that the other puts. In a mode without checked reads both are done, and
/// no order of the two gives what they read. In mode `Checked` the second has a conflict at the leaf that it read, with the commit of
/// the first.
pub fn write_skew()
    ensures unchecked { decisions (opened (leaf a "1" ∷ leaf b "1" ∷ [])) (skewed Rw) ≡ Done 1 ∷ Done 2 ∷ [] }
    ensures checked { replies (opened (leaf a "1" ∷ leaf b "1" ∷ [])) (skewed Checked)
        ≡ Begun 0 None ∷ Begun 0 None ∷ Receipt 1 ∷ Settled 0 (Done 1) ∷ Receipt 2 ∷ Settled 0 (Conflict Config a Changed 1) ∷ [] }
    ensures tree { newest_tree (opened (leaf a "1" ∷ leaf b "1" ∷ [])) (skewed Checked) 0 Config ≡ leaf a "0" ∷ leaf b "1" ∷ [] }
{}

/// A transaction that only reads is done if no commit touched what it read, and is then a commit that changes nothing.
pub fn reads_of_untouched_paths()
    ensures decisions { decisions (opened (leaf b "1" ∷ [])) (crossed (put a "x") (read b)) ≡ Done 1 ∷ Done 2 ∷ [] }
    ensures tree { newest_tree (opened (leaf b "1" ∷ [])) (crossed (put a "x") (read b)) 0 Config ≡ leaf a "x" ∷ leaf b "1" ∷ [] }
    ensures absent { decisions (opened []) (crossed (put a "x") (read b)) ≡ Done 1 ∷ Done 2 ∷ [] }
{}

/// A read checks all below its path: a leaf that another client created, changed or deleted there is a conflict of the read.
pub fn reads_of_touched_paths()
    ensures created { decisions (opened []) (crossed (put a "x") (read a)) ≡ Done 1 ∷ Conflict Config a Created 1 ∷ [] }
    ensures below { decisions (opened (leaf b "1" ∷ [])) (crossed (put a "x") (read box)) ≡ Done 1 ∷ Conflict Config box Changed 1 ∷ [] }
    ensures merged { decisions (opened (leaf a "1" ∷ [])) (crossed (merge a "x") (read a)) ≡ Done 1 ∷ Conflict Config a Changed 1 ∷ [] }
    ensures deleted { decisions (opened (leaf a "1" ∷ [])) (crossed (delete a) (read a)) ≡ Done 1 ∷ Conflict Config a Deleted 1 ∷ [] }
{}

/// A leaf that was created and deleted again is absent at both ends, so a read of it is no conflict.
pub fn created_and_deleted_again()
    ensures { decisions (opened []) (overtaken (read a) (put a "q") (delete a)) ≡ Done 1 ∷ Done 2 ∷ Done 3 ∷ [] }
{}

/// Reads are tested after all writes: if a read and a later put have a conflict, that of the put is the outcome.
pub fn writes_go_before_reads()
    ensures { decisions (opened []) (met (put a "x" ∷ put b "y" ∷ []) (read a ∷ put b "z" ∷ [])) ≡ Done 1 ∷ Conflict Config b Created 1 ∷ [] }
{}

/// A read of what the transaction put before is not tested: the put is.
pub fn a_read_that_is_covered()
    ensures { decisions (opened []) (met (put a "x" ∷ []) (delete box ∷ read a ∷ [])) ≡ Done 1 ∷ Conflict Config box Created 1 ∷ [] }
{}

/// A chain's read of what its pending predecessor put is no conflict with that one's commit; a read of what another client changed
/// meanwhile is.
pub fn reads_of_a_chain()
    ensures own { decisions (opened []) (chained (put b "y") (read a)) ≡ Done 1 ∷ Done 2 ∷ Done 3 ∷ [] }
    ensures foreign { decisions (opened []) (chained (put b "y") (read b)) ≡ Done 1 ∷ Done 2 ∷ Conflict Config b Created 2 ∷ [] }
{}
