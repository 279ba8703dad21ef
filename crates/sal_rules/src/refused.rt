//! Worked examples of refused writes, computed from the definitions.
ghost use Rattle.std.specs.Prelude.{◌≡◌, ◌∷◌, ◌++◌, [], Some, None};
ghost use Rattle.sal_types.specs.declared.value.Step.TheVariants.{Node};
ghost use Rattle.sal_types.specs.declared.value.Store.TheVariants.{Config, Oper};
ghost use Rattle.sal_rows.specs.declared.op.Act.TheVariants.{Put, Merge, Delete};
ghost use Rattle.sal_schema.specs.Valid.{IsTable};
ghost use Rattle.sal_rules.specs.Depots as example;
ghost use Rattle.sal_rules.specs.Refusals.{refusal};

use crate::fault::TxFault;

/// The examples as clauses. A call does nothing.
pub fn refused_writes()
    ensures table { IsTable example.depot_table }
    ensures root { refusal example.depot_table [] (example.op Config [] (Put [])) ≡ Some TxFault.RootPath }
    ensures key_before_parents { refusal example.depot_table [] (example.op Config (example.item ++ Node 2 ∷ []) (Put [])) ≡ Some (TxFault.KeyLeaf (example.item ++ Node 2 ∷ [])) }
    ensures state { refusal example.depot_table [] (example.op Config (Node 4 ∷ []) Delete) ≡ Some (TxFault.NotConfig (Node 4 ∷ [])) }
    ensures state_row { refusal example.depot_table [] (example.op Config example.depot (Put (example.marked (Node 4 ∷ [])))) ≡ Some (TxFault.NotConfig (Node 4 ∷ [])) }
    ensures operational { refusal example.depot_table [] (example.op Oper (Node 4 ∷ []) (Put [])) ≡ None }
    ensures outermost { refusal example.depot_table [] (example.op Config (example.item ++ Node 3 ∷ []) (Merge [])) ≡ Some (TxFault.ParentMissing example.depot) }
    ensures entry { refusal example.depot_table (example.marked example.depot) (example.op Config (example.item ++ Node 3 ∷ []) (Put [])) ≡ Some (TxFault.ParentMissing example.item) }
    ensures itself { refusal example.depot_table (example.marked example.depot) (example.op Config example.item (Put [])) ≡ None }
    ensures no_parents { refusal example.depot_table [] (example.op Config example.item Delete) ≡ None }
{}
