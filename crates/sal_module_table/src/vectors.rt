//! Examples, computed from the definitions.
ghost use Rattle.std.specs.Prelude.{◌≡◌, [], ◌∷◌, None, codes};
ghost use Rattle.sal_module.specs.Examples.{found, plain};
ghost use Rattle.sal_module_table.specs.Examples as example;
ghost use Rattle.sal_module_table.specs.Table.{infos_of};
ghost use Rattle.sal_module_table.specs.VersionExamples as version;
ghost use Rattle.sal_restrict.specs.declared.yang_type.YangType.{roll-YangType};
ghost use Rattle.sal_restrict.specs.declared.yang_type.YangType.TheOpen.{YangType-F};
ghost use Rattle.sal_module_table.specs.Filled.{empty, filled};
ghost use Rattle.sal_module_table.specs.Lists.{words_of};

use sal_module::Cause;

/// The examples as clauses. A call does nothing.
pub fn examples()
    ensures words { words_of (codes " a\n b:c ") ≡ codes "a" ∷ codes "b:c" ∷ [] }
    ensures good { example.list_fault (example.key_of "k") example.its_forest ≡ None }
    ensures prefixed { example.list_fault (example.key_of "q:k") example.its_forest ≡ found Cause.BadKey 0 12 }
    ensures missing { example.list_fault (example.key_of "j") example.its_forest ≡ found Cause.BadKey 0 12 }
    ensures twice { example.list_fault (example.key_of "k k") example.its_forest ≡ found Cause.BadKey 0 12 }
    ensures empty { example.list_fault (example.key_of " ") example.its_forest ≡ found Cause.BadKey 0 12 }
    ensures unique { example.list_fault (example.a_list (plain "unique" 12 "k j" [])) example.its_forest ≡ found Cause.BadKey 0 12 }
    ensures state { example.list_fault example.a_state example.its_forest ≡ found Cause.ConfigUnderState 0 22 }
    ensures base { example.identity_fault (example.two_identities "b" "c") ≡ found Cause.UnknownName 0 22 }
    ensures flat { filled example.path_and_empty (example.union_of example.boolean ∷ []) ≡ roll-YangType (YangType-F.Union (example.boolean ∷ empty ∷ [])) }
    ensures circle { example.identity_fault (example.two_identities "b" "a") ≡ found Cause.NameCycle 0 12 }
{}

/// A later version has the same lines for the older numbers as the first one; its new nodes follow. A call does nothing: its clauses are the laws.
pub fn versions()
    ensures first { infos_of (version.topo ∷ []) version.first_nodes ≡ version.first_lines }
    ensures later { infos_of (version.topo ∷ version.geo ∷ []) version.later_nodes ≡ version.later_lines }
{}

/// Which bases a later version must not have. A call does nothing: its clauses are the laws.
pub fn old_bases()
    ensures old { example.old_base 1 "k:kind" ≡ found Cause.OldIdentity 1 32 }
    ensures new { example.old_base 1 "root" ≡ None }
    ensures none { example.old_base 1 "k:none" ≡ None }
    ensures at_once { example.old_base 0 "k:kind" ≡ None }
    ensures before { example.old_base 2 "k:kind" ≡ None }
{}
