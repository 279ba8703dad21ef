//! Tables that are the table of a schema, and tables that are not. Each function does nothing: its contract is computed from the test
//! of `is_table` of `sal_schema_of_table`.
#![tactic(auto, unfolding(sal_schema::specs::Table::closest))]

ghost use Rattle.std.specs.Prelude.{◌≡◌, ◌∷◌, [], map, true, false};
ghost use Rattle.sal_schema_of_table.specs.Whole.{is_table};
ghost use Rattle.examples_worked.specs.TableCases as case;

/// A name may denote a node, an RPC and a notification, a case may be named as its leaf, and a table may be empty.
pub fn tables_of_schemas()
    ensures { map is_table case.tables ≡ true ∷ true ∷ true ∷ true ∷ [] }
{}

/// Faults of parents, leafs, keys and names.
pub fn tables_with_wrong_nodes()
    ensures parents { map is_table case.wrong_parents ≡ false ∷ false ∷ false ∷ false ∷ [] }
    ensures leafs { map is_table case.wrong_leafs ≡ false ∷ false ∷ false ∷ false ∷ false ∷ [] }
    ensures names { map is_table case.wrong_names ≡ false ∷ false ∷ [] }
{}

/// Faults of types and identities.
pub fn tables_with_wrong_types()
    ensures types { map is_table case.wrong_types ≡ false ∷ false ∷ [] }
    ensures identities { map is_table case.wrong_identities ≡ false ∷ false ∷ [] }
{}
