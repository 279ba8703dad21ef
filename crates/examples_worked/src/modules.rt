//! Look-ups in modules: statements by offset, and modules by prefix. Each function does nothing: its
//! contract is computed from the definitions of `Modules`.
ghost use Rattle.std.specs.Prelude.{◌≡◌, ◌∷◌, [], codes, Ok, Some, None};
ghost use Rattle.sal_stmt.specs.Text.{read};
ghost use Rattle.sal_module.specs.Modules.{imported, stmt_at};
ghost use Rattle.examples_worked.specs.ModuleCases as case;

/// Of the first 100 offsets exactly those of the statements have one, in any order of the statements; there is no second module.
pub fn statements_by_place()
    ensures text { read (codes "module m { namespace u; prefix p; container c { leaf a { type string; } } }") ≡ Ok case.written }
    ensures written { case.places (stmt_at (case.written ∷ []) 0) 0 100 ≡ case.standing case.written }
    ensures turned { case.places (stmt_at (case.turned ∷ []) 0) 0 100 ≡ case.standing case.turned }
    ensures no_second { stmt_at (case.written ∷ []) 1 0 ≡ None }
{}

/// Of three modules the second one imports the third: its prefixes are that one's and its own.
pub fn modules_by_prefix()
    ensures import { imported case.three 1 (codes "b") ≡ Some 2 }
    ensures own { imported case.three 1 (codes "a") ≡ Some 1 }
    ensures other { imported case.three 1 (codes "c") ≡ None }
    ensures no_module { imported case.three 3 (codes "c") ≡ None }
{}
