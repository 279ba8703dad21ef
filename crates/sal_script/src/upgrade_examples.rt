//! Worked examples of upgrades in scripts. Each function does nothing; its contract states what the definitions give, and the proof
//! computes it.
ghost use Rattle.std.specs.Prelude.{◌≡◌, [], ◌∷◌, Ok, Err, codes};
ghost use Rattle.sal_script.specs.Moves.{Upgrade};
ghost use Rattle.sal_script.specs.Script.{script_of};
ghost use Rattle.sal_script.specs.Examples.{plain_script};
ghost use Rattle.sal_script.specs.UpgradeExamples.{breaks, breaks_report, loads, loads_report, plain_boxes, run, strict_boxes, submits, submits_report, twice, twice_report};

/// The step of an upgrade, and arrays that are none.
pub fn upgrade_steps_read()
    ensures first { script_of (codes "{\"clients\":[{\"steps\":[[\"upgrade\",1],[\"upgrade\",16]]}]}") ≡ Ok (plain_script ((Upgrade 1 ∷ Upgrade 16 ∷ []) ∷ []) []) }
    ensures zero { script_of (codes "{\"clients\":[{\"steps\":[[\"upgrade\",0]]}]}") ≡ Err (codes "clients/0/0") }
    ensures large { script_of (codes "{\"clients\":[{\"steps\":[[\"upgrade\",17]]}]}") ≡ Err (codes "clients/0/0") }
    ensures more { script_of (codes "{\"clients\":[{\"steps\":[[\"upgrade\",1,1]]}]}") ≡ Err (codes "clients/0/0") }
{}

/// The texts that upgrades add, and the first fault among them: after that of the modules, and before the openings.
pub fn upgrades_read()
    ensures two { script_of (codes "{\"upgrades\":[[\"a\",\"b\"],[]]}") ≡ Ok (record (plain_script [] []) { upgrades = (codes "a" ∷ codes "b" ∷ []) ∷ [] ∷ [] }) }
    ensures none { script_of (codes "{\"upgrades\":[]}") ≡ Ok (plain_script [] []) }
    ensures no_array { script_of (codes "{\"config\":0,\"upgrades\":{}}") ≡ Err (codes "upgrades") }
    ensures no_texts { script_of (codes "{\"upgrades\":[[],\"m\"]}") ≡ Err (codes "upgrades") }
    ensures no_text { script_of (codes "{\"upgrades\":[[\"m\",0]]}") ≡ Err (codes "upgrades") }
    ensures many { script_of (codes "{\"upgrades\":[[],[],[],[],[],[],[],[],[],[],[],[],[],[],[],[],[]]}") ≡ Err (codes "upgrades") }
    ensures after_modules { script_of (codes "{\"modules\":0,\"upgrades\":0}") ≡ Err (codes "modules") }
{}

/// A path that a later module adds is no path before the upgrade, and one in a transaction that begins after it. A transaction that began
/// before still reads by its own version.
pub fn a_path_of_a_later_module()
    ensures { run plain_boxes (loads ∷ []) (0 ∷ 0 ∷ 0 ∷ []) ≡ codes loads_report }
{}

/// A second upgrade to the same version is refused with the present version, and one that the script does not have makes no call.
pub fn an_upgrade_twice()
    ensures { run plain_boxes (twice ∷ []) (0 ∷ 0 ∷ []) ≡ codes twice_report }
{}

/// A submission that began before an upgrade is decided by the version that is present then.
pub fn decided_after_an_upgrade()
    ensures { run strict_boxes (submits ∷ []) (0 ∷ 0 ∷ 0 ∷ 0 ∷ []) ≡ codes submits_report }
{}

/// An upgrade for which a newest tree would break a rule is refused, and the version is unchanged.
pub fn an_upgrade_that_breaks_a_rule()
    ensures { run strict_boxes (breaks ∷ []) (0 ∷ 0 ∷ 0 ∷ 0 ∷ 0 ∷ []) ≡ codes breaks_report }
{}
