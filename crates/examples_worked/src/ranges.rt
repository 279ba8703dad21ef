//! Texts of ranges, and their ranges within another one. Each function does nothing: its contract is computed from the definitions of
//! `read_ranges`.
ghost use Rattle.std.specs.Prelude.{◌≡◌, ◌∷◌, [], pos, true, false};
ghost use Rattle.sal_restrict.specs.declared.fault.RangeFault.TheVariants.{BadText, Wider};
ghost use Rattle.sal_restrict.specs.Ranges.{holds};
ghost use Rattle.examples_worked.specs.RangeCases as range;

/// Ranges of whole numbers, and of numbers with digits after a point.
pub fn texts_give_ranges()
    ensures whole { range.AreRanges 0 range.whole }
    ensures tenths { range.AreRanges 1 range.tenths }
    ensures hundredths { range.AreRanges 2 range.hundredths }
    ensures finest { range.AreRanges 18 range.finest }
{}

/// Texts with a number that is not within the range, and texts of another form.
pub fn texts_give_none()
    ensures wider { range.AllFail 0 Wider range.wider }
    ensures wider_hundredths { range.AllFail 2 Wider ("100.01" ∷ []) }
    ensures others { range.AllFail 0 BadText range.no_ranges }
    ensures other_tenths { range.AllFail 1 BadText range.no_tenths }
{}

/// A number in a part and one between two parts.
pub fn parts_hold_numbers()
    ensures inside { holds range.within (pos 2000) ≡ true }
    ensures between { holds range.within (pos 1001) ≡ false }
{}
