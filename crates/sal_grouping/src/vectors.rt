//! Examples, computed from the definitions.
ghost use Rattle.std.specs.Prelude.{◌≡◌, [], ◌∷◌, Some, None, Ok};
ghost use Rattle.sal_grouping.specs.Examples as example;
ghost use Rattle.sal_grouping.specs.Expand.{expand};
ghost use Rattle.sal_grouping.specs.VersionExamples as version;

use crate::forest::Implied;
use sal_module::Cause;

/// The examples as clauses. A call does nothing.
pub fn examples()
    ensures uses { expand example.a_uses ≡ example.nodes (example.branch None 20 None ∷ []) }
    ensures shadow { expand example.a_shadow ≡ example.nodes (example.branch None 30 None ∷ example.branch (Some 0) 50 None ∷ []) }
    ensures choice { expand example.a_choice ≡ example.nodes (example.branch None 10 None ∷ example.branch (Some 0) 20 (Some Implied.Case) ∷ example.branch (Some 1) 20 None
        ∷ example.branch (Some 0) 30 None ∷ example.branch (Some 3) 40 None ∷ []) }
    ensures rpc { expand example.an_rpc ≡ example.nodes (example.branch None 10 None ∷ example.branch (Some 0) 10 (Some Implied.Input) ∷ example.branch (Some 0) 20 None ∷ example.branch (Some 2) 30 None ∷ []) }
    ensures augments { expand example.two_augments ≡ example.nodes (example.branch None 10 None ∷ example.branch (Some 0) 50 None ∷ example.branch (Some 1) 30 None ∷ []) }
    ensures cycle { expand example.a_cycle ≡ example.refused Cause.NameCycle 20 }
    ensures detour { expand example.a_detour ≡ example.refused Cause.NameCycle 40 }
    ensures unknown { expand example.an_unknown_uses ≡ example.refused Cause.UnknownName 10 }
    ensures prefix { expand example.an_unknown_prefix ≡ example.refused Cause.UnknownName 10 }
    ensures groupings { expand example.two_groupings ≡ example.refused Cause.DoubleNode 30 }
    ensures target { expand example.no_target ≡ example.refused Cause.BadTarget 20 }
    ensures children { expand example.two_children ≡ example.refused Cause.DoubleNode 30 }
{}

/// A later version keeps the numbers of the earlier one; both modules built at once get other numbers. A call does nothing:
/// its clauses are the laws.
pub fn versions()
    ensures at_once { version.at_once ≡ Ok (version.node None 0 1 ∷ version.node None 1 5 ∷ version.node (Some 0) 0 3 ∷ version.node (Some 1) 1 7 ∷ []) }
    ensures later { version.later ≡ Ok (version.node None 0 1 ∷ version.node (Some 0) 0 3 ∷ version.node None 1 5 ∷ version.node (Some 2) 1 7 ∷ []) }
{}
