//! Examples, computed from the definitions.
ghost use Rattle.std.specs.Prelude.{◌≡◌, ◌∷◌, [], pos, negsuc, codes};
ghost use Rattle.serde_json.specs.Data.{null, number, string, array, unsigned, no_items, item};
ghost use Rattle.sal_types.specs.declared.value.Atom.TheVariants.{Signed, Unsigned, Dec, Text, Enum, Bits, Bin, Ident, Empty};
ghost use Rattle.sal_json.specs.Examples as example;

use crate::fault::ScalarFault;

/// Numbers, read and written by the definitions. A call does nothing: its clauses are the laws.
pub fn numbers()
    ensures highest { example.reads example.uint8 (number (unsigned 255)) ≡ example.gives (Unsigned 255) }
    ensures past { example.reads example.uint8 (number (unsigned 256)) ≡ Err ScalarFault.OutOfRange }
    ensures of_text { example.reads_text example.uint8 "1" ≡ Err ScalarFault.WrongKind }
    ensures long { example.reads_text example.int64 "-007" ≡ example.gives (Signed (negsuc 6)) }
    ensures long_written { example.writes example.int64 (example.value 0 (Signed (negsuc 6))) ≡ string (codes "-7") }
    ensures long_number { example.reads example.uint64 (number (unsigned 18446744073709551615)) ≡ Err ScalarFault.WrongKind }
    ensures minus_zero { example.reads_text example.uint64 "-0" ≡ example.gives (Unsigned 0) }
    ensures decimal { example.reads_text example.cents "1.5" ≡ example.gives (Dec (pos 150) 2) }
    ensures decimal_written { example.writes example.cents (example.value 0 (Dec (pos 150) 2)) ≡ string (codes "1.5") }
    ensures too_exact { example.reads_text example.cents "1.505" ≡ Err ScalarFault.OutOfRange }
    ensures zero { example.reads_text example.cents "0" ≡ example.gives (Dec (pos 0) 2) }
    ensures zero_written { example.writes example.cents (example.value 0 (Dec (pos 0) 2)) ≡ string (codes "0.0") }
    ensures below_zero { example.writes example.cents (example.value 0 (Dec (negsuc 4) 2)) ≡ string (codes "-0.05") }
    ensures key { example.reads_key example.uint8 "05" ≡ Err ScalarFault.WrongKind }
    ensures long_key { example.reads_key example.int64 "+05" ≡ example.gives (Signed (pos 5)) }
{}

/// The other types, read and written by the definitions. A call does nothing: its clauses are the laws.
pub fn other_types()
    ensures binary { example.reads_text example.binary "AQID" ≡ example.gives (Bin (1 ∷ 2 ∷ 3 ∷ [])) }
    ensures unpadded { example.reads_text example.binary "AQI" ≡ Err ScalarFault.WrongKind }
    ensures no_empty { example.reads example.empty null ≡ Err ScalarFault.WrongKind }
    ensures empty { example.reads example.empty (array (item null no_items)) ≡ example.gives Empty }
    ensures number_first { example.reads example.number_or_text (number (unsigned 5)) ≡ example.gives (Unsigned 5) }
    ensures text_second { example.reads_text example.number_or_text "5" ≡ Ok (example.value 1 (Text (codes "5"))) }
    ensures other_form { example.reads_text example.long_or_text "+5" ≡ Ok (example.value 1 (Text (codes "+5"))) }
    ensures enum_place { example.reads_text example.colour "blue" ≡ example.gives (Enum 7) }
    ensures no_enum { example.reads_text example.colour "green" ≡ Err ScalarFault.UnknownName }
    ensures bits { example.reads_text example.flags "loop up" ≡ example.gives (Bits 5) }
    ensures bits_written { example.writes example.flags (example.value 0 (Bits 7)) ≡ string (codes "up down loop") }
    ensures bit_twice { example.reads_text example.flags "up up what" ≡ Err ScalarFault.WrongKind }
    ensures own_identity { example.reads_text example.animal "cat" ≡ example.gives (Ident 1) }
    ensures own_written { example.writes example.animal (example.value 0 (Ident 1)) ≡ string (codes "cat") }
    ensures other_identity { example.reads_text example.animal "farm:cow" ≡ example.gives (Ident 2) }
    ensures other_written { example.writes example.animal (example.value 0 (Ident 2)) ≡ string (codes "farm:cow") }
    ensures base_itself { example.reads_text example.animal "animal" ≡ Err ScalarFault.UnknownName }
    ensures length_first { example.reads_text example.two_letters "ABC" ≡ Err ScalarFault.BadLength }
{}
