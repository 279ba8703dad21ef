//! Worked examples of the definitions, each proved by computation. A call does nothing: its clauses are the laws.
ghost use Rattle.std.specs.Prelude.{◌≡◌, ◌∷◌, ◌++◌, [], Some, None};
ghost use Rattle.sal_types.specs.declared.value.Step.TheVariants.{Node};
ghost use Rattle.sal_types.specs.declared.value.Store.TheVariants.{Config, Oper};
ghost use Rattle.sal_rows.specs.declared.outcome.Rule.TheVariants.{Mandatory, MinElements, MaxElements, Unique, TwoCases};
ghost use Rattle.sal_rules.specs.Breaches.{breach};
ghost use Rattle.sal_rules.specs.Contexts.{context, way, stand};
ghost use Rattle.sal_rules.specs.Examples as example;

/// Contexts: the list for its leafs, the case for the nodes in it, and for nodes in containers without presence the context of
/// these.
pub fn contexts()
    ensures of_a_list { context example.hosts 2 ≡ Some 0 }
    ensures of_a_case { context example.hosts 7 ≡ Some 5 }
    ensures stands_at_the_entry { stand example.hosts 7 ≡ Some 0 }
    ensures of_a_presence_container { context example.tops 6 ≡ Some 4 }
    ensures way_through_a_container { way example.tops 6 ≡ Node 5 ∷ [] }
    ensures none { context example.tops 3 ≡ None }
    ensures way_from_the_top { way example.tops 3 ≡ Node 0 ∷ Node 2 ∷ [] }
{}

/// A mandatory leaf in an entry, one in a case that has data or has none, and a mandatory choice.
pub fn mandatory_in_entries()
    ensures leaf { breach example.hosts Config (example.host_with (example.item_of_host 1 ∷ example.leaf_of_host 9 ∷ [])) ≡ example.broken_at example.host (Mandatory 2) }
    ensures leaf_in_a_case { breach example.hosts Config (example.host_with (example.leaf_of_host 2 ∷ example.item_of_host 1 ∷ example.leaf_of_host 6 ∷ [])) ≡ example.broken_at example.host (Mandatory 7) }
    ensures other_case { breach example.hosts Config (example.host_with (example.leaf_of_host 2 ∷ example.item_of_host 1 ∷ example.leaf_of_host 9 ∷ [])) ≡ None }
    ensures choice { breach example.hosts Config (example.host_with (example.leaf_of_host 2 ∷ example.item_of_host 1 ∷ [])) ≡ example.broken_at example.host (Mandatory 4) }
{}

/// Below containers: nothing is mandatory in the empty tree, nor at the top.
pub fn mandatory_below_containers()
    ensures absent { breach example.tops Config [] ≡ None }
    ensures present { breach example.tops Config (example.held (Node 0 ∷ Node 2 ∷ Node 3 ∷ []) 1 ∷ []) ≡ example.broken_at (Node 0 ∷ []) (Mandatory 1) }
    ensures inner_absent { breach example.tops Config (example.held (Node 0 ∷ Node 1 ∷ []) 1 ∷ []) ≡ example.broken_at (Node 0 ∷ Node 2 ∷ []) (Mandatory 3) }
    ensures below_presence { breach example.tops Config (example.mark (Node 4 ∷ []) ∷ []) ≡ example.broken_at (Node 4 ∷ Node 5 ∷ []) (Mandatory 6) }
    ensures top_leaf { breach example.tops Config (example.mark (Node 4 ∷ []) ∷ example.held (Node 4 ∷ Node 5 ∷ Node 6 ∷ []) 1 ∷ []) ≡ None }
{}

/// Counts of entries, and two cases; of two breaches the lesser path goes first, and at one path the lesser rule.
pub fn counts_and_cases()
    ensures too_few { breach example.hosts Config (example.host_with (example.leaf_of_host 2 ∷ example.leaf_of_host 9 ∷ [])) ≡ example.broken_at (example.host ++ Node 3 ∷ []) (MinElements 3) }
    ensures enough { breach example.hosts Config (example.host_with (example.leaf_of_host 2 ∷ example.item_of_host 1 ∷ example.item_of_host 2 ∷ example.leaf_of_host 9 ∷ [])) ≡ None }
    ensures too_many { breach example.hosts Config (example.host_with (example.leaf_of_host 2 ∷ example.item_of_host 1 ∷ example.item_of_host 2 ∷ example.item_of_host 3 ∷ example.leaf_of_host 9 ∷ [])) ≡ example.broken_at (example.host ++ Node 3 ∷ []) (MaxElements 3) }
    ensures two_cases { breach example.hosts Config (example.host_with (example.leaf_of_host 2 ∷ example.leaf_of_host 6 ∷ example.leaf_of_host 7 ∷ example.leaf_of_host 9 ∷ [])) ≡ example.broken_at example.host (TwoCases 4) }
    ensures lesser_rule { breach example.hosts Config (example.host_with (example.item_of_host 1 ∷ example.leaf_of_host 6 ∷ example.leaf_of_host 7 ∷ example.leaf_of_host 9 ∷ [])) ≡ example.broken_at example.host (Mandatory 2) }
    ensures state_in_the_configuration { breach example.states Config example.two_seen ≡ None }
    ensures state_in_the_operational_store { breach example.states Oper example.two_seen ≡ example.broken_at (Node 0 ∷ Node 1 ∷ []) (MaxElements 1) }
{}

/// Entries that agree in both leafs, in one of them, and that have only one.
pub fn unique_over_two_leafs()
    ensures both { breach example.items Config (example.item_with 1 5 7 ++ example.item_with 2 5 7) ≡ example.broken_at (Node 0 ∷ []) (Unique 0) }
    ensures one { breach example.items Config (example.item_with 1 5 7 ++ example.item_with 2 5 8) ≡ None }
    ensures not_all { breach example.items Config (example.item_without 1 5 ++ example.item_without 2 5) ≡ None }
{}
