//! Worked examples of versions of the schema. Each function does nothing; its contract states what the definitions give for one
//! log, and the proof computes it.
#![tactic(auto, unfolding(sal_schema::specs::Table::closest, sal_rules::specs::Breaches::first, sal_rules::specs::Contexts::through_plain, sal_rules::specs::Contexts::from_list, sal_rules::specs::Rules::is_there))]

ghost use Rattle.std.specs.Prelude.{◌≡◌, true, false, [], ◌∷◌, map, None, Some};
ghost use Rattle.sal_types.specs.declared.value.Store.TheVariants.{Config, Oper};
ghost use Rattle.sal_rows.specs.declared.change.CandidateKind.TheVariants.{Write};
ghost use Rattle.sal_rows.specs.declared.outcome.CallFault.TheVariants.{UpgradeBreach, WrongVersion};
ghost use Rattle.sal_rows.specs.declared.outcome.Outcome.TheVariants.{Done, Invalid};
ghost use Rattle.sal_rows.specs.declared.outcome.Rule.TheVariants.{Mandatory};
ghost use Rattle.sal_schema.specs.Paths.{fits_path};
ghost use Rattle.sal_history.specs.declared.call.Call.TheVariants.{Upgrade};
ghost use Rattle.sal_history.specs.declared.reply.Reply.TheVariants.{Accepted, Batch, Begun, Receipt, Refused, Settled};
ghost use Rattle.sal_history.specs.Examples.{box, by, replies};
ghost use Rattle.sal_history.specs.History.{history, newest_tree};
ghost use Rattle.sal_history.specs.Listening.{change, last_reply, part_of, text};
ghost use Rattle.sal_history.specs.Versions.{tables_at, version_at};
ghost use Rattle.sal_history.specs.VersionExamples.{bare, decided_after, decided_before, listened_after, noted, on_device, owner, plain, tried_twice, upgradable, upgrades_in_turn, whole, with_device};

/// Upgrades go one by one, from any client: each other one is refused, with the present version. The version at an index is
/// the number of accepted upgrades before it.
pub fn the_version_at_a_place()
    ensures replies { replies (upgradable [] []) upgrades_in_turn
        ≡ Begun 0 None ∷ Refused (WrongVersion 0) ∷ Accepted ∷ Refused (WrongVersion 1) ∷ Accepted ∷ Begun 0 None ∷ [] }
    ensures versions { map (version_at (history (upgradable [] []) upgrades_in_turn)) (0 ∷ 1 ∷ 2 ∷ 3 ∷ 4 ∷ 5 ∷ 6 ∷ []) ≡ 0 ∷ 0 ∷ 0 ∷ 1 ∷ 1 ∷ 2 ∷ 2 ∷ [] }
{}

/// A path of a node that a later version adds is valid for no transaction that began before the upgrade, and for each that began after it.
pub fn a_path_that_a_version_adds()
    ensures first { tables_at (upgradable [] []) (history (upgradable [] []) upgrades_in_turn) 0 0 ≡ plain }
    ensures last { tables_at (upgradable [] []) (history (upgradable [] []) upgrades_in_turn) 5 0 ≡ noted }
    ensures before { fits_path (tables_at (upgradable [] []) (history (upgradable [] []) upgrades_in_turn) 0 0) owner ≡ false }
    ensures after { fits_path (tables_at (upgradable [] []) (history (upgradable [] []) upgrades_in_turn) 5 0) owner ≡ true }
{}

/// A transaction that began before an upgrade and is decided after it is decided by the new version: it lacks a mandatory leaf.
pub fn begun_before_and_decided_after()
    ensures lacking { replies (upgradable [] []) (decided_after bare)
        ≡ Begun 0 None ∷ Receipt 1 ∷ Accepted ∷ Settled 0 (Invalid Config box (Mandatory 2)) ∷ [] }
    ensures tree { newest_tree (upgradable [] []) (decided_after bare) 0 Config ≡ [] }
{}

/// If it is decided before the upgrade, by the old version, it is done; then the upgrade is refused.
pub fn decided_before_the_upgrade()
    ensures { replies (upgradable [] []) (decided_before bare)
        ≡ Begun 0 None ∷ Receipt 1 ∷ Settled 0 (Done 1) ∷ Refused (UpgradeBreach Config box (Mandatory 2)) ∷ [] }
{}

/// An upgrade that a newest tree refuses is accepted once the incomplete entry is removed.
pub fn refused_by_a_tree_and_then_accepted()
    ensures replies { replies (upgradable bare []) tried_twice
        ≡ Refused (UpgradeBreach Config box (Mandatory 2)) ∷ Begun 0 None ∷ Receipt 1 ∷ Settled 0 (Done 1) ∷ Accepted ∷ [] }
    ensures versions { map (version_at (history (upgradable bare []) tried_twice)) (1 ∷ 4 ∷ 5 ∷ []) ≡ 0 ∷ 0 ∷ 1 ∷ [] }
{}

/// The refusals of an upgrade come in this order: the version, the configuration, the operational tree.
pub fn refusals_in_their_order()
    ensures version { replies (upgradable bare bare) (by 0 (Upgrade 2) ∷ []) ≡ Refused (WrongVersion 0) ∷ [] }
    ensures configuration { replies (upgradable bare bare) (by 0 (Upgrade 1) ∷ []) ≡ Refused (UpgradeBreach Config box (Mandatory 2)) ∷ [] }
    ensures operational { replies (upgradable whole bare) (by 0 (Upgrade 1) ∷ []) ≡ Refused (UpgradeBreach Oper box (Mandatory 2)) ∷ [] }
{}

/// Batches are by the last version of the schema: a listener at a leaf that a later version adds gets a write.
pub fn batches_are_by_the_last_version()
    ensures { last_reply (upgradable [] []) listened_after
        ≡ Some (Batch 0 (record { from = 0; to = 1; lists = part_of 1 Write (change owner None (Some (text "x"))) ∷ [] })) }
{}

/// A device has one schema, whatever version the controller's own domain has.
pub fn devices_have_one_version()
    ensures { last_reply with_device on_device ≡ Some (Settled 1 (Done 1)) }
{}
