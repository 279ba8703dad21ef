//! Replies that no script has, as text. Each function does nothing: its contract is computed from the definitions of `report` of
//! `sal_report`.
ghost use Rattle.std.specs.Prelude.{◌≡◌, ◌∷◌, [], codes};
ghost use Rattle.sal_types.specs.declared.value.Step.TheVariants.{Node};
ghost use Rattle.sal_rules.specs.declared.fault.TxFault.TheVariants.{KeyLeaf};
ghost use Rattle.sal_pathtext.specs.declared.fault.PathTextFault.TheVariants.{UnknownNode};
ghost use Rattle.sal_data.specs.Examples as rack;
ghost use Rattle.sal_script.specs.Report.{report_of};
ghost use Rattle.sal_script.specs.Words.{path_fault_text, tx_fault_text};
ghost use Rattle.examples_worked.specs.ReplyCases as case;

/// Outcomes, faults of calls, refusals and notifications.
pub fn replies_in_words()
    ensures outcomes { report_of (rack.table ∷ []) [] (case.outcomes ∷ []) [] ≡ codes "order\n0 0 done 18446744073709551615\n0 1 conflict operational \"/\" deleted 6\n0 2 invalid config \"/\" two-cases :\n0 3 output {}\n" }
    ensures faults { report_of (rack.table ∷ []) [] (case.faults ∷ []) [] ≡ codes "order\n0 0 refused history-full\n0 1 refused no-memory\n0 2 refused tx-spent\n0 3 refused provider-taken :\n" }
    ensures refusals { report_of (rack.table ∷ []) [] (case.refusals ∷ []) [] ≡ codes "order\n0 0 data {}\n0 1 refused path no-memory\n0 2 refused data no-memory\n0 3 refused data bad-scalar \"/\" no-memory\n0 4 refused no-memory\n" }
    ensures notes { report_of (rack.table ∷ []) [] (case.notes ∷ []) [] ≡ codes "order\n0 0 notes [[\":\",{}]]\n" }
{}

/// Faults of paths and of writes as text.
pub fn faults_in_words()
    ensures path { path_fault_text (UnknownNode 2) ≡ codes "unknown-node 2" }
    ensures write { tx_fault_text rack.table (KeyLeaf (Node 0 ∷ [])) ≡ codes "key-leaf \"/inv:rack\"" }
{}
