//! The text of a range or a length (RFC 7950 sections 9.2.4 and 9.4.4).
ghost use Rattle.std.specs.Prelude.{◌≡◌, ◌<◌, ◌≤◌, length, ℤ, FitsSigned, IfOk, IsTrue};
ghost use Rattle.std.specs.Int.{w128};
ghost use Rattle.sal_types.specs.Reading.{GivesUnless};
ghost use Rattle.sal_restrict.specs.Ranges.{outer, least, greatest, holds};
ghost use Rattle.sal_restrict.specs.RangeTexts as spec;

use crate::covers::all_covered;
use crate::fault::RangeFault;
use crate::ranges::{Part, Ranges};
use crate::span::{are_ascending, read_spans, small_parts};
use crate::words::is_trimmed;
use std::alloc::Global;

/// From the least of these numbers to the greatest.
fn outer(within: &[Part]) -> Part
    requires { 0 < length within.now }
    ensures value { result ≡ outer within.now }
    ensures fits { FitsSigned w128 (least within.now) × FitsSigned w128 (greatest within.now) }
{
    Part {
        low: within[0].low,
        high: within[within.len() - 1].high,
    }
}

/// The range of a text within another range, which it may only narrow (RFC 7950 section 14, range-arg and length-arg).
///
/// The text has parts, `a` or `a..b`, ascending and disjoint, with `|` between them. Space, tab, CR and LF may be around
/// `..` and `|`. A bound is `min` or `max`, the least or the greatest number of `within`, or decimal digits, with or without
/// a `-`; if `digits` is not 0, a `.` and 1 to `digits` further digits may follow. The number of a bound is its value
/// times 10 to the power of `digits`.
///
/// A text of another form is `BadText`, and so is one with bounds or parts out of order. One with a number that is not in
/// `within` is `Wider`. Where `within` is split into parts does not matter, so `1..4` is within `1..2|3..4`.
pub fn read_ranges(
    alloc: Global,
    text: &str,
    within: &Ranges,
    digits: u8,
) -> Result<Ranges, RangeFault>
    requires some { 0 < length within.now }
    requires few { digits ≤ 18 }
    ensures exact { GivesUnless RangeFault.NoMemory (λ ranges. ranges) result (spec.read_ranges text.now within.now digits) }
    ensures some { IfOk result (λ ranges. 0 < length ranges) }
    ensures narrow { IfOk result (λ ranges. (n : ℤ) → IsTrue (holds ranges n) → IsTrue (holds within.now n)) }
{
    let text = text.as_bytes();
    if !is_trimmed(text) {
        return Err(RangeFault::BadText);
    }
    let within = within.items();
    let spans = read_spans(alloc, text, outer(within), digits)?;
    if !are_ascending(spans.as_slice()) {
        return Err(RangeFault::BadText);
    }
    let parts = small_parts(alloc, spans.as_slice())?;
    if !all_covered(within, parts.as_slice()) {
        return Err(RangeFault::Wider);
    }
    Ok(Ranges::from_items(parts))
}
