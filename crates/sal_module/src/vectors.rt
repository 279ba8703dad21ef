//! Examples, computed from the definitions.
ghost use Rattle.std.specs.Prelude.{◌≡◌, None, true, false, codes, [], ◌∷◌};
ghost use Rattle.sal_module.specs.Examples as example;
ghost use Rattle.sal_module.specs.Arguments.{is_whole, is_integer, is_limit, is_schema_path};
ghost use Rattle.sal_module.specs.Faults.{least};
ghost use Rattle.sal_module.specs.LeftOut.{calls_deref};
ghost use Rattle.sal_module.specs.Profile.{level_faults, module_faults};

use crate::fault::Cause;
use crate::keyword::Keyword;

/// The examples as clauses. A call does nothing.
#[tactic(auto, unfolding(sal_stmt::specs::Words::is_keyword, crate::specs::LeftOut::calls_deref_after))]
pub fn examples()
    ensures whole { is_whole (codes "01") ≡ false }
    ensures integer { is_integer (codes "-2147483648") ≡ true }
    ensures limit { is_limit (codes "unbounded") ≡ true }
    ensures path { is_schema_path (codes "/p:a/b") ≡ true }
    ensures deref { calls_deref (codes "../deref (x)") ≡ true }
    ensures name { calls_deref (codes "../deref/x") ≡ false }
    ensures missing { least None (module_faults 0 (example.plain "module" 0 "m" (example.plain "prefix" 11 "p" [] ∷ []))) ≡ example.found (Cause.Missing Keyword.Namespace) 0 0 }
    ensures twice { least None (level_faults 0 (example.plain "when" 0 "x" (example.plain "reference" 8 "r" [] ∷ example.plain "reference" 21 "s" [] ∷ []))) ≡ example.found (Cause.Twice Keyword.Reference) 0 21 }
    ensures left_out { least None (module_faults 2 (example.plain "submodule" 7 "s" [])) ≡ example.found Cause.LeftOut 2 7 }
{}
