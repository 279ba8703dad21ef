//! Paths in their order. A function that does nothing: its contract is computed from the definitions of `Path`.
ghost use Rattle.std.specs.Prelude.{◌≡◌, true, false};
ghost use Rattle.std.specs.declared.cmp.Ordering.TheVariants.{Less};
ghost use Rattle.sal_types.specs.Order.{path_cmp};
ghost use Rattle.sal_types.specs.Prefix.{is_prefix};
ghost use Rattle.examples_worked.specs.PathCases as path;

/// Step by step; nodes by number, entries by their keys; a path before those that it is a prefix of.
pub fn paths_go_step_by_step()
    ensures behind_its_list { path_cmp path.list path.entry ≡ Less }
    ensures below { is_prefix path.list path.entry ≡ true }
    ensures not_above { is_prefix path.entry path.list ≡ false }
    ensures ahead_of_later { path_cmp path.entry path.later ≡ Less }
    ensures beside { is_prefix path.entry path.later ≡ false }
    ensures beside_it { is_prefix path.later path.entry ≡ false }
{}
