//! Worked examples of the meaning of scripts. Each function does nothing; its contract states what the definitions give, and
//! the proof computes it.
ghost use Rattle.std.specs.Prelude.{◌≡◌, [], ◌∷◌, codes};
ghost use Rattle.serde_json.specs.Data.{object, no_members};
ghost use Rattle.sal_script.specs.Script.{script_of};
ghost use Rattle.sal_types.specs.declared.value.Store.TheVariants.{Config, Oper};
ghost use Rattle.sal_rows.specs.declared.clash.Rules.TheVariants.{Two};
ghost use Rattle.sal_rows.specs.declared.outcome.Mode.TheVariants.{Wo};
ghost use Rattle.sal_script.specs.Moves.{Begin, Put, Merge, Delete, Cancel};
ghost use Rattle.sal_script.specs.Examples.{a, b, with_text, put, merge, delete, commits, run, run_over, crossed, looks, looks_report, opened, own_writes, own_writes_report, plain_script, same_leaf_report, different_leafs_report, merge_after_delete_report, delete_after_merge_report, cancels, cancels_report, one_sided, one_sided_report, refused_writes, refused_writes_report, submits_twice, submits_twice_replies, submits_twice_calls, two_begin, cancelled_calls, world_of};
ghost use Rattle.sal_script.specs.Orders.{exchanges_in, exchanges_of};

/// A script without clients: the order is empty, and so are the trees.
pub fn empty_script()
    ensures read { script_of (codes "{}") ≡ Ok (plain_script [] []) }
    ensures report { run [] [] ≡ codes "order\ntree 0 0 {} {}\n" }
{}

/// The first fault of bytes that are no script.
pub fn bad_places()
    ensures json { script_of (codes "{") ≡ Err (codes "json") }
    ensures script { script_of (codes "[]") ≡ Err (codes "script") }
    ensures unknown { script_of (codes "{\"module\":[]}") ≡ Err (codes "script") }
    ensures config { script_of (codes "{\"config\":[]}") ≡ Err (codes "config") }
    ensures modules { script_of (codes "{\"modules\":[0]}") ≡ Err (codes "modules") }
    ensures step { script_of (codes "{\"clients\":[{\"steps\":[[\"fly\"]]}]}") ≡ Err (codes "clients/0/0") }
{}

/// The version rules are 1 or 2, and 1 if they are not given; another number, or another value, is a fault after that of the order.
pub fn rules_read()
    ensures one { script_of (codes "{\"rules\":1}") ≡ Ok (plain_script [] []) }
    ensures two { script_of (codes "{\"rules\":2}") ≡ Ok (record (plain_script [] []) { rules = Two }) }
    ensures three { script_of (codes "{\"rules\":3}") ≡ Err (codes "rules") }
    ensures none { script_of (codes "{\"rules\":0}") ≡ Err (codes "rules") }
    ensures text { script_of (codes "{\"rules\":\"2\"}") ≡ Err (codes "rules") }
    ensures behind { script_of (codes "{\"rules\":3,\"order\":[-1]}") ≡ Err (codes "order") }
{}

/// The steps that write, and the one that cancels.
pub fn steps_read()
    ensures put { script_of (codes "{\"clients\":[{\"steps\":[[\"put\",0,\"config\",\"/plain:box\",{\"a\":\"x\"}]]}]}") ≡ Ok (plain_script ((Put 0 Config (codes "/plain:box") (with_text "a" "x") ∷ []) ∷ []) []) }
    ensures merge { script_of (codes "{\"clients\":[{\"steps\":[[\"merge\",1,\"operational\",\"/\",{}]]}]}") ≡ Ok (plain_script ((Merge 1 Oper (codes "/") (object no_members) ∷ []) ∷ []) []) }
    ensures delete { script_of (codes "{\"clients\":[{\"steps\":[[\"delete\",255,\"config\",\"\"]]}]}") ≡ Ok (plain_script ((Delete 255 Config [] ∷ []) ∷ []) []) }
    ensures begin { script_of (codes "{\"clients\":[{\"steps\":[[\"begin\",2,7,\"wo\"],[\"cancel\",2]]}],\"order\":[0,0]}") ≡ Ok (plain_script ((Begin 2 7 Wo ∷ Cancel 2 ∷ []) ∷ []) (0 ∷ 0 ∷ [])) }
{}

/// A transaction reads its own write; an older snapshot does not see it, and a later one does.
pub fn own_writes_and_an_older_snapshot()
    ensures { run (own_writes ∷ []) (0 ∷ 0 ∷ 0 ∷ 0 ∷ 0 ∷ []) ≡ codes own_writes_report }
{}

/// Two clients put the same leaf: the second is refused, with its path and the commit that created it.
pub fn same_leaf()
    ensures { run (commits (put a "x") ∷ commits (put a "y") ∷ []) crossed ≡ codes same_leaf_report }
{}

/// Two clients put different leafs: both are done.
pub fn different_leafs()
    ensures { run (commits (put a "x") ∷ commits (put b "y") ∷ []) crossed ≡ codes different_leafs_report }
{}

/// An order that names a client without a remaining call, or ends while one remains, fails at its index.
pub fn bad_orders()
    ensures no_client { run [] (0 ∷ []) ≡ codes "bad order at 0" }
    ensures too_long { run (own_writes ∷ []) (0 ∷ 0 ∷ 0 ∷ 0 ∷ 0 ∷ 0 ∷ []) ≡ codes "bad order at 5" }
    ensures too_short { run (own_writes ∷ []) (0 ∷ 0 ∷ 0 ∷ 0 ∷ []) ≡ codes "bad order at 4" }
{}

/// A reader of an opening tree: its rows as JSON, present and absent paths, and texts that are no paths.
pub fn looks_at_an_opening()
    ensures { run_over opened (looks ∷ []) (0 ∷ []) ≡ codes looks_report }
{}

/// A merge of a leaf that was deleted meanwhile is done; a delete of one that was merged meanwhile is refused.
pub fn merges_and_deletes()
    ensures merge { run_over opened (commits (delete a) ∷ commits (merge a "y") ∷ []) crossed ≡ codes merge_after_delete_report }
    ensures delete { run_over opened (commits (merge a "x") ∷ commits (delete a) ∷ []) crossed ≡ codes delete_after_merge_report }
{}

/// A cancelled transaction changes nothing, and its slot is empty.
pub fn cancelled()
    ensures { run (cancels ∷ []) (0 ∷ 0 ∷ []) ≡ codes cancels_report }
{}

/// A transaction that only writes refuses to read, and one that only reads refuses to write.
pub fn one_sided_transactions()
    ensures { run (one_sided ∷ []) (0 ∷ 0 ∷ 0 ∷ 0 ∷ []) ≡ codes one_sided_report }
{}

/// Refused writes, which change nothing in their transaction.
pub fn refused_writes()
    ensures { run_over opened (refused_writes ∷ []) (0 ∷ 0 ∷ 0 ∷ []) ≡ codes refused_writes_report }
{}

/// The shared calls of a client: in its own steps, without writes and refused steps, and in a log.
pub fn shared_calls()
    ensures steps { exchanges_of submits_twice submits_twice_replies ≡ submits_twice_calls }
    ensures log { exchanges_in (world_of []) two_begin 1 ≡ cancelled_calls }
{}
