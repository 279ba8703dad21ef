//! Examples, computed from the definitions.
#![tactic(auto, unfolding(crate::specs::Read::read_path, crate::specs::Read::steps, crate::specs::Read::one_more, crate::specs::Read::named, crate::specs::Read::entered, crate::specs::Read::predicates, crate::specs::Read::predicate, crate::specs::Read::subject, crate::specs::Words::name, crate::specs::Words::single, crate::specs::Words::said, sal_schema::specs::Table::closest))]

ghost use Rattle.std.specs.Prelude.{◌≡◌, ◌∷◌, ◌++◌, [], Ok, Err, codes};
ghost use Rattle.sal_types.specs.declared.value.Step.TheVariants.{Node, Item};
ghost use Rattle.sal_pathtext.specs.Examples as example;
ghost use Rattle.sal_pathtext.specs.Read.{read_path};

use crate::fault::PathTextFault;

/// Texts that denote paths. A call does nothing: its clauses are the laws.
pub fn paths()
    ensures root { example.reads "/" ≡ Ok [] }
    ensures of_another_module { example.reads "/topo:network/node[id='a']/geo:site" ≡ Ok (example.node "a" ++ Node 8 ∷ []) }
    ensures whole_list { example.reads "/topo:network/node" ≡ Ok (Node 0 ∷ Node 1 ∷ []) }
    ensures keys_in_order { example.reads "/topo:network/node[id='a']/link[peer='b'][port='7']" ≡ Ok (example.link "b" 7) }
    ensures keys_turned { example.reads "/topo:network/node[id='a']/link[ port =\t\"7\" ][peer='b']" ≡ Ok (example.link "b" 7) }
    ensures leaf_list_entry { example.reads "/topo:network/seen[.='12']" ≡ Ok (Node 0 ∷ Node 9 ∷ Item (example.number 12) ∷ []) }
    ensures other_quotes { example.reads "/topo:network/node[id=\"it's\"]" ≡ Ok (example.node "it's") }
    ensures double_in_single { example.reads "/topo:network/node[id='a\"b']" ≡ Ok (example.node "a\"b") }
    ensures doubled_quote { example.reads "/topo:network/node[id='it''s']" ≡ Ok (example.node "it's") }
{}

/// Texts that denote no path. A call does nothing: its clauses are the laws.
pub fn faults()
    ensures empty_key { example.reads "/topo:network/node[id='']" ≡ Err (PathTextFault.BadPredicate 18) }
    ensures below_a_list { example.reads "/topo:network/node/id" ≡ Err (PathTextFault.BadPredicate 14) }
    ensures site_of_no_node { example.reads "/topo:network/geo:site" ≡ Err (PathTextFault.UnknownNode 14) }
    ensures no_slash { example.reads "topo:network" ≡ Err (PathTextFault.BadText 0) }
    ensures empty { example.reads "" ≡ Err (PathTextFault.BadText 0) }
    ensures missing_key { example.reads "/topo:network/node[id='a']/link[port='7'];" ≡ Err (PathTextFault.BadPredicate 27) }
    ensures unknown_key { example.reads "/topo:network/node[name" ≡ Err (PathTextFault.BadPredicate 18) }
    ensures repeated_key { example.reads "/topo:network/node[id='a'][id" ≡ Err (PathTextFault.BadPredicate 26) }
    ensures dot_on_a_list { example.reads "/topo:network/node[." ≡ Err (PathTextFault.BadPredicate 18) }
    ensures of_a_container { example.reads "/topo:network[" ≡ Err (PathTextFault.BadPredicate 13) }
    ensures top_without_module { example.reads "/network" ≡ Err (PathTextFault.UnknownNode 1) }
    ensures own_module_told { example.reads "/topo:network/topo:node" ≡ Err (PathTextFault.UnknownNode 14) }
    ensures below_a_leaf_list { example.reads "/topo:network/seen/id" ≡ Err (PathTextFault.UnknownNode 19) }
    ensures ends_in_a_name { example.reads "/topo:network/node/" ≡ Err (PathTextFault.BadText 19) }
    ensures ends_in_a_value { example.reads "/topo:network/node[id='a''" ≡ Err (PathTextFault.BadText 26) }
    ensures broken_name { example.reads "/topo:1" ≡ Err (PathTextFault.BadText 6) }
    ensures value_before_bracket { example.reads "/topo:network/node[id='123456789'" ≡ Err (PathTextFault.BadPredicate 18) }
{}

/// A path of 32 steps, and one that would have more. A call does nothing: its clauses are the laws.
pub fn depth()
    ensures deepest { read_path example.deep (codes "/m:c" ++ example.names 31) ≡ Ok (example.down 32) }
    ensures too_deep { read_path example.deep (codes "/m:c" ++ example.names 32) ≡ Err PathTextFault.TooDeep }
{}

/// The texts of paths. A call does nothing: its clauses are the laws.
pub fn texts()
    ensures root { example.writes [] ≡ codes "/" }
    ensures of_another_module { example.writes (example.node "a" ++ Node 8 ∷ []) ≡ codes "/topo:network/node[id='a']/geo:site" }
    ensures by_key_order { example.writes (example.link "b" 7) ≡ codes "/topo:network/node[id='a']/link[peer='b'][port='7']" }
    ensures leaf_list_entry { example.writes (Node 0 ∷ Node 9 ∷ Item (example.number 12) ∷ []) ≡ codes "/topo:network/seen[.='12']" }
    ensures other_quotes { example.writes (example.node "it's") ≡ codes "/topo:network/node[id=\"it's\"]" }
    ensures both_quotes { example.writes (example.node "'\"") ≡ codes "/topo:network/node[id='''\"']" }
{}
