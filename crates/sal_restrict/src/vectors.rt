//! Examples, computed from the definitions.
ghost use Rattle.std.specs.Prelude.{◌≡◌, Ok, Err, codes, [], ◌∷◌};
ghost use Rattle.sal_restrict.specs.Examples as example;
ghost use Rattle.sal_restrict.specs.RangeTexts.{read_ranges};

use crate::fault::RangeFault;

/// The examples as clauses. A call does nothing.
pub fn examples()
    ensures two { example.ports "1..4 | 10..20" ≡ Ok (example.upto 1 4 ∷ example.upto 10 20 ∷ []) }
    ensures one { example.ports "007" ≡ Ok (example.upto 7 7 ∷ []) }
    ensures least { example.ports "min..5" ≡ Ok (example.upto 1 5 ∷ []) }
    ensures wider { example.ports "0..5" ≡ Err RangeFault.Wider }
    ensures blank { example.ports " 1..2" ≡ Err RangeFault.BadText }
    ensures empty { example.ports "" ≡ Err RangeFault.BadText }
    ensures backwards { example.ports "5..1" ≡ Err RangeFault.BadText }
    ensures overlap { example.ports "1..2|2..3" ≡ Err RangeFault.BadText }
    ensures late { example.ports "0..5|x" ≡ Err RangeFault.BadText }
    ensures point { example.ports "1.0" ≡ Err RangeFault.BadText }
    ensures price { example.prices "-1.5..2.25" ≡ Ok (example.below_minus 149 225 ∷ []) }
    ensures places { example.prices "1.505" ≡ Err RangeFault.BadText }
    ensures cuts { read_ranges (codes "1..4") (example.upto 1 2 ∷ example.upto 3 4 ∷ []) 0 ≡ Ok (example.upto 1 4 ∷ []) }
    ensures gap { read_ranges (codes "1..4") (example.upto 1 2 ∷ example.upto 4 4 ∷ []) 0 ≡ Err RangeFault.Wider }
{}
