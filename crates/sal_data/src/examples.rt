//! Examples, computed from the definitions.
#![tactic(auto, unfolding(sal_schema::specs::Table::closest))]

ghost use Rattle.std.specs.Prelude.{◌≡◌, ◌∷◌, [], codes};
ghost use Rattle.serde_json.specs.Data.{array, no_items};
ghost use Rattle.sal_types.specs.declared.value.Step.TheVariants.{Node};
ghost use Rattle.sal_data.specs.declared.fault.DataFault.TheVariants.{UnknownMember, NeedsModule, WrongShape, MissingKey, KeyDiffers, DoubleEntry, BadScalar, TooDeep};
ghost use Rattle.sal_json.specs.declared.fault.ScalarFault.TheVariants.{WrongKind, OutOfRange};
ghost use Rattle.sal_schema.specs.Valid.{IsTable};
ghost use Rattle.sal_data.specs.Laws.{IsWhole};
ghost use Rattle.sal_data.specs.Examples as example;

/// A tree with nodes of each kind reads as its rows, in their order, and its parts at their paths. A call does nothing: its
/// clauses are the laws.
pub fn trees_read()
    ensures whole { example.reads example.tree ≡ Ok example.tree_rows }
    ensures other_order { example.reads (example.tree_with (example.two (example.words "b") (example.words "a"))) ≡ Ok example.tree_rows }
    ensures entry { example.reads_at (example.at_slot 1 "l") example.slot_with_site ≡ Ok example.slot_rows }
    ensures number_first { example.reads (example.rack "size" (example.whole_number 4)) ≡ Ok example.number_rows }
    ensures of_none { example.reads (example.rack "slot" (array no_items)) ≡ Ok [] }
{}

/// Rows are written as their tree, and those of a subtree as the value at its path. A call does nothing: its clauses are the laws.
pub fn trees_written()
    ensures whole { example.writes example.tree_rows ≡ example.tree }
    ensures entry { example.writes_at (example.at_slot 1 "l") example.slot_rows ≡ example.slot_with_site }
    ensures list { example.writes_at example.slots example.slot_rows ≡ example.one example.slot_with_site }
    ensures of_none { example.writes [] ≡ example.nothing }
{}

/// Faults of names: those at the top and of another module require their module, and no other may have one. A call does nothing: its
/// clauses are the laws.
pub fn faults_of_names()
    ensures at_top { example.reads (example.only "rack" example.nothing) ≡ example.fails (NeedsModule [] (codes "rack")) }
    ensures of_another { example.reads_at (example.at_slot 1 "l") example.slot_without_module ≡ example.fails (NeedsModule (example.at_slot 1 "l") (codes "site")) }
    ensures unknown { example.reads (example.rack "door" example.nothing) ≡ example.fails (UnknownMember (Node 0 ∷ []) (codes "door")) }
    ensures needless { example.reads (example.rack "inv:lamp" example.nothing) ≡ example.fails (UnknownMember (Node 0 ∷ []) (codes "inv:lamp")) }
{}

/// Faults of entries: of their keys, and of two with the same keys or value. A call does nothing: its clauses are the laws.
pub fn faults_of_entries()
    ensures no_key { example.reads_at example.slots (example.one (example.only "id" (example.whole_number 1))) ≡ example.fails (MissingKey example.slots) }
    ensures keys_first { example.reads_at example.slots (example.one example.slot_of_a_door) ≡ example.fails (MissingKey example.slots) }
    ensures bad_key { example.reads_at example.slots (example.one (example.slot 256 "l")) ≡ example.fails (BadScalar example.slots OutOfRange) }
    ensures another { example.reads_at (example.at_slot 1 "l") (example.slot 2 "l") ≡ example.fails (KeyDiffers (example.at_slot 1 "l")) }
    ensures twice { example.reads_at example.slots (example.two (example.slot 1 "l") (example.slot 1 "l")) ≡ example.fails (DoubleEntry (example.at_slot 1 "l")) }
    ensures tag_twice { example.reads_at example.tags (example.two (example.words "a") (example.words "a")) ≡ example.fails (DoubleEntry (example.at_tag "a")) }
    ensures another_tag { example.reads_at (example.at_tag "a") (example.words "b") ≡ example.fails (KeyDiffers (example.at_tag "a")) }
{}

/// Faults of shape, of values and of depth. A call does nothing: its clauses are the laws.
pub fn faults_of_values()
    ensures no_object { example.reads (example.only "inv:rack" (array no_items)) ≡ example.fails (WrongShape (Node 0 ∷ [])) }
    ensures no_array { example.reads_at example.slots example.nothing ≡ example.fails (WrongShape example.slots) }
    ensures no_entry { example.reads_at example.slots (example.one (example.whole_number 5)) ≡ example.fails (WrongShape example.slots) }
    ensures first_counts { example.reads example.two_faults ≡ example.fails (WrongShape (Node 0 ∷ Node 5 ∷ [])) }
    ensures object_in_leaf { example.reads (example.rack "size" example.nothing) ≡ example.fails (BadScalar (Node 0 ∷ Node 6 ∷ []) WrongKind) }
    ensures deep { example.reads_deep (example.only "c" example.nothing) ≡ example.fails (TooDeep (example.down 32 0)) }
{}

/// The table is that of a schema, and its tree is whole, so the laws apply to it. A call does nothing: its clauses are the laws.
pub fn trees_are_whole()
    ensures of_a_schema { IsTable example.table }
    ensures whole { IsWhole example.table [] example.tree_rows }
{}
