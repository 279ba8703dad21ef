//! Operations and rows. Each function does nothing: its contract is computed from the definitions of `Mod`, `Rows` and `apply`.
ghost use Rattle.std.specs.Prelude.{◌≡◌, ◌∷◌, [], Some, None, true, false};
ghost use Rattle.sal_types.specs.declared.value.Cell.TheVariants.{Mark};
ghost use Rattle.sal_types.specs.declared.value.Store.TheVariants.{Config, Oper};
ghost use Rattle.sal_types.specs.Tree.{IsAscending, under};
ghost use Rattle.sal_rows.specs.Apply.{apply_ops, last_setting};
ghost use Rattle.sal_rows.specs.Edits.{IsFirstOutOfOrder};
ghost use Rattle.sal_mod.specs.Covers.{is_covered};
ghost use Rattle.examples_worked.specs.OperationCases.{at, operations, put, text};

/// An operation before an index covers a path if it puts or deletes the path or a prefix of it, in the same store.
pub fn operations_cover()
    ensures below_the_delete { is_covered Config operations (at 1 7) 1 ≡ true }
    ensures at_the_merge { is_covered Config operations (at 2 5) 3 ≡ false }
    ensures ahead_of_the_put { is_covered Config operations (at 2 6) 2 ≡ false }
    ensures at_the_put { is_covered Config operations (at 2 6) 3 ≡ true }
    ensures other_store { is_covered Oper operations (at 2 5) 3 ≡ false }
    ensures elsewhere { is_covered Config operations (at 3 5) 3 ≡ false }
{}

/// The last setting of a path by all of them: a cell, its absence, or none.
pub fn the_last_setting_counts()
    ensures below_the_delete { last_setting Config operations (at 1 7) ≡ Some None }
    ensures at_the_merge { last_setting Config operations (at 2 5) ≡ Some (Some Mark) }
    ensures at_the_put { last_setting Config operations (at 2 6) ≡ Some None }
    ensures other_store { last_setting Oper operations (at 2 5) ≡ None }
    ensures elsewhere { last_setting Config operations (at 3 5) ≡ None }
{}

/// Rows are in order if each path is after the one before it; two puts of a leaf leave one row, in their store.
pub fn rows_are_in_order_put_and_parted()
    ensures twice { IsFirstOutOfOrder (text (at 0 1) "x" ∷ text (at 0 1) "y" ∷ []) 1 }
    ensures in_order { IsAscending (text (at 0 1) "x" ∷ text (at 0 2) "y" ∷ []) }
    ensures put { apply_ops [] Config (put ∷ put ∷ []) ≡ text (at 0 1) "x" ∷ [] }
    ensures other_store { apply_ops [] Oper (put ∷ put ∷ []) ≡ [] }
    ensures own { under (text (at 0 1) "x" ∷ []) (at 0 1) ≡ text (at 0 1) "x" ∷ [] }
    ensures beside { under (text (at 0 1) "x" ∷ []) (at 0 2) ≡ [] }
{}
