//! Worked examples. Each function does nothing; its contract states what the definitions give, and the proof computes it.
ghost use Rattle.std.specs.Prelude.{◌≡◌, ◌++◌, ◌∷◌, [], None, Some, codes};
ghost use Rattle.sal_lint.specs.Named.{named_in};
ghost use Rattle.sal_lint.specs.Places.{place_of};
ghost use Rattle.sal_lint.specs.Lines.{shown};

/// Places: of the first byte, of one on its line, of a line feed, of the byte after it, of the end, and beyond it.
pub fn places()
    ensures first { place_of (codes "ab\nc") 0 ≡ record { line = 1; column = 1 } }
    ensures second { place_of (codes "ab\nc") 1 ≡ record { line = 1; column = 2 } }
    ensures feed { place_of (codes "ab\nc") 2 ≡ record { line = 1; column = 3 } }
    ensures next { place_of (codes "ab\nc") 3 ≡ record { line = 2; column = 1 } }
    ensures end { place_of (codes "ab\nc") 4 ≡ record { line = 2; column = 2 } }
    ensures beyond { place_of (codes "ab\nc") 9 ≡ record { line = 2; column = 2 } }
    ensures empty_line { place_of (codes "\n\nx") 2 ≡ record { line = 3; column = 1 } }
    ensures carriage { place_of (codes "a\r\nb") 3 ≡ record { line = 2; column = 1 } }
{}

/// Texts of faults, with the places that they name.
pub fn names()
    ensures text { named_in (codes "module 2 unclosed 19") ≡ Some (record { «module» = 2; at = 19 }) }
    ensures build { named_in (codes "build left-out 3 20") ≡ Some (record { «module» = 3; at = 20 }) }
    ensures keyword { named_in (codes "build missing 0 7 namespace") ≡ Some (record { «module» = 0; at = 7 }) }
    ensures upgrade { named_in (codes "upgrade 1 build twice 4 5 prefix") ≡ Some (record { «module» = 4; at = 5 }) }
    ensures upgrade_text { named_in (codes "upgrade 12 module 3 bad-token 0") ≡ Some (record { «module» = 3; at = 0 }) }
    ensures file { named_in (codes "module 0 file-name a.yang") ≡ None }
    ensures many { named_in (codes "build too-many nodes") ≡ None }
    ensures pattern { named_in (codes "upgrade 2 pattern") ≡ None }
{}

/// The text that is shown from an offset on: to the end of the line, or to a byte that is no printable ASCII.
pub fn texts()
    ensures line { shown (codes "leaf x;\n leaf y;") 0 ≡ codes "leaf x;" }
    ensures second { shown (codes "leaf x;\n leaf y;") 9 ≡ codes "leaf y;" }
    ensures tab { shown (codes "a\tb") 0 ≡ codes "a" }
    ensures end { shown (codes "leaf") 4 ≡ [] }
{}
