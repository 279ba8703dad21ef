//! Examples, computed from the definitions.
#![tactic(auto, unfolding(crate::specs::Table::closest))]

ghost use Rattle.std.specs.Prelude.{◌≡◌, ◌∷◌, ◌++◌, [], Some, None, true, false, codes};
ghost use Rattle.sal_types.specs.declared.value.Step.TheVariants.{Node, Key, Item};
ghost use Rattle.sal_schema.specs.Examples as example;
ghost use Rattle.sal_schema.specs.Names.{child_of, rpc_of, notification_of, identity_of};
ghost use Rattle.sal_schema.specs.Paths.{fits_path};
ghost use Rattle.sal_schema.specs.Table.{children_of, is_derived};
ghost use Rattle.sal_schema.specs.Text.{table_text};
ghost use Rattle.sal_schema.specs.Valid.{IsTable};

/// The tables of the examples are tables of schemas. A call does nothing: its clauses are the laws.
pub fn tables()
    ensures topology { IsTable example.topology }
    ensures mixed { IsTable example.mixed }
    ensures messages { IsTable example.messages }
{}

/// The examples as clauses. A call does nothing.
pub fn examples()
    ensures text { table_text example.topology ≡ codes "0 - container topo:network config\n1 0 list topo:node config key id\n2 1 leaf topo:id config string\n3 1 list topo:link config key peer port\n4 3 leaf topo:peer config string\n5 3 leaf topo:port config uint16\n6 3 leaf topo:speed config enumeration\n7 3 leaf topo:octets state uint64\n8 1 leaf geo:site config string\n" }
    ensures children { children_of example.topology (Some 1) ≡ 2 ∷ 3 ∷ 8 ∷ [] }
    ensures of_another_module { child_of example.topology (Some 1) (codes "geo") (codes "site") ≡ Some 8 }
    ensures not_of_its_own { child_of example.topology (Some 1) (codes "topo") (codes "site") ≡ None }
    ensures through_choices { child_of example.mixed (Some 0) (codes "rule") (codes "slow") ≡ Some 4 }
    ensures no_choice { child_of example.mixed (Some 0) (codes "rule") (codes "way") ≡ None }
    ensures at_the_top { child_of example.mixed None (codes "rule") (codes "ping") ≡ Some 5 }
    ensures rpc { rpc_of example.mixed (codes "rule") (codes "ping") ≡ Some 6 }
    ensures notification { notification_of example.mixed (codes "rule") (codes "ping") ≡ Some 7 }
    ensures identity { identity_of example.mixed (codes "rule") (codes "derived") ≡ Some 1 }
    ensures derived { is_derived example.mixed 1 0 ≡ true }
    ensures not_of_itself { is_derived example.mixed 1 1 ≡ false }
    ensures entry { fits_path example.topology (example.named_node (codes "a")) ≡ true }
    ensures whole_list { fits_path example.topology (Node 0 ∷ Node 1 ∷ []) ≡ true }
    ensures below_a_list { fits_path example.topology (Node 0 ∷ Node 1 ∷ Node 8 ∷ []) ≡ false }
    ensures long_key { fits_path example.topology (example.named_node (codes "123456789")) ≡ false }
    ensures below_a_leaf { fits_path example.topology (example.named_node (codes "a") ++ Node 8 ∷ Node 8 ∷ []) ≡ false }
    ensures twice { fits_path example.topology (example.named_node (codes "a") ++ Key [] ∷ []) ≡ false }
    ensures message { fits_path example.messages (Node 1 ∷ Node 2 ∷ Item (example.number 255) ∷ []) ≡ true }
    ensures no_rpc { fits_path example.messages (Node 0 ∷ Node 1 ∷ []) ≡ false }
    ensures past_its_range { fits_path example.messages (Node 1 ∷ Node 2 ∷ Item (example.number 256) ∷ []) ≡ false }
{}
