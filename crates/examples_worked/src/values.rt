//! Values in the code's form, and entries that lack a row. Each function does nothing: its contract is computed from the definitions of
//! `read_data`, `write_data` and `fits_rows`.
ghost use Rattle.std.specs.Prelude.{◌≡◌, ◌∷◌, [], pos, negsuc, true, false, Ok, codes};
ghost use Rattle.serde_json.specs.Data.{array, boolean, item, negative, no_items, null, number, string, unsigned};
ghost use Rattle.sal_types.specs.declared.value.Atom.TheVariants.{Bin, Bits, Bool, Dec, Empty, Enum, Ident, Signed, Text, Unsigned};
ghost use Rattle.sal_schema.specs.Fitting.{fits};
ghost use Rattle.sal_json.specs.Examples as json;
ghost use Rattle.sal_data.specs.Examples as rack;
ghost use Rattle.examples_worked.specs.ValueCases as case;

/// Values of each type in the code's form.
pub fn values_are_kept()
    ensures int8 { json.reads case.int8 (number (negative (negsuc 127))) ≡ json.gives (Signed (negsuc 127)) }
    ensures int16 { json.reads case.int16 (number (negative (negsuc 32767))) ≡ json.gives (Signed (negsuc 32767)) }
    ensures int32 { json.reads case.int32 (number (negative (negsuc 2147483647))) ≡ json.gives (Signed (negsuc 2147483647)) }
    ensures int64 { json.reads_text json.int64 "-9223372036854775808" ≡ json.gives (Signed (negsuc 9223372036854775807)) }
    ensures uint8 { json.reads json.uint8 (number (unsigned 255)) ≡ json.gives (Unsigned 255) }
    ensures uint16 { json.reads case.uint16 (number (unsigned 65535)) ≡ json.gives (Unsigned 65535) }
    ensures uint32 { json.reads case.uint32 (number (unsigned 4294967295)) ≡ json.gives (Unsigned 4294967295) }
    ensures uint64 { json.reads_text json.uint64 "18446744073709551615" ≡ json.gives (Unsigned 18446744073709551615) }
    ensures decimal { json.reads_text (json.dec 18) "-0.000000000000000001" ≡ json.gives (Dec (negsuc 0) 18) }
    ensures text { json.reads case.short (string (195 ∷ 169 ∷ 34 ∷ 10 ∷ [])) ≡ json.gives (Text (195 ∷ 169 ∷ 34 ∷ 10 ∷ [])) }
    ensures flag { json.reads json.boolean (boolean true) ≡ json.gives (Bool true) }
    ensures state { json.reads_text case.state "down" ≡ json.gives (Enum 5) }
    ensures mask { json.reads_text case.mask "c a" ≡ json.gives (Bits 9223372036854775809) }
    ensures bytes { json.reads_text json.binary "AP8Q" ≡ json.gives (Bin (0 ∷ 255 ∷ 16 ∷ [])) }
    ensures identity { json.reads_text json.animal "cat" ≡ json.gives (Ident 1) }
    ensures none { json.reads json.empty (array (item null no_items)) ≡ json.gives Empty }
{}

/// A number and a text in both unions of a number and a text: the member is part of the value.
pub fn members_are_kept()
    ensures number_first { json.reads (json.union json.uint8 case.short) (number (unsigned 7)) ≡ json.gives (Unsigned 7) }
    ensures number_second { json.reads (json.union case.short json.uint8) (number (unsigned 7)) ≡ Ok (json.value 1 (Unsigned 7)) }
    ensures text_second { json.reads_text (json.union json.uint8 case.short) "7" ≡ Ok (json.value 1 (Text (codes "7"))) }
    ensures text_first { json.reads_text (json.union case.short json.uint8) "7" ≡ json.gives (Text (codes "7")) }
{}

/// An entry requires only its own row and its keys: the rows of a rack without one of them; an absent entry is not
/// written.
pub fn entries_are_whole()
    ensures entry { fits rack.table [] (case.without 0 rack.tree_rows) ≡ false }
    ensures first_key { fits rack.table [] (case.without 1 rack.tree_rows) ≡ false }
    ensures second_key { fits rack.table [] (case.without 2 rack.tree_rows) ≡ false }
    ensures leaf { fits rack.table [] (case.without 3 rack.tree_rows) ≡ true }
    ensures tag { fits rack.table [] (case.without 4 rack.tree_rows) ≡ true }
    ensures lamp { fits rack.table [] (case.without 6 rack.tree_rows) ≡ true }
    ensures size { fits rack.table [] (case.without 7 rack.tree_rows) ≡ true }
    ensures whole { fits rack.table [] (case.without 8 rack.tree_rows) ≡ true }
    ensures absent { rack.writes_at (rack.at_slot 3 "l") rack.tree_rows ≡ rack.nothing }
{}
