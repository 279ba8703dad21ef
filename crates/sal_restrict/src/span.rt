//! The parts of a range's text.
ghost use Rattle.std.specs.Prelude.{◌≡◌, ◌≢◌, ℕ, ◌+◌, ◌<◌, ◌≤◌, ◌^◌, length, drop, not, ◌&&◌, int_le, option_map, IfSome, Some, None, MatchResult, MatchOption, IfOk, ◌==◌, true};
ghost use Rattle.std.specs.List.{slice_split, list_any, prefix_len};
ghost use Rattle.sal_restrict.specs.declared.fault.RangeFault.TheVariants.{NoMemory, BadText, Wider};
ghost use Rattle.sal_restrict.specs.Ranges.{is_ascending, is_below as is_part_below};
ghost use Rattle.sal_restrict.specs.RangeTexts as spec;
ghost use Rattle.sal_restrict.specs.Readings.{number_of, IsRead, part_of, parts_of, IsSpanRead, AreRead, is_span_large};
ghost use Rattle.sal_restrict.specs.Words as words;

use crate::bound::{Bound, is_below, read_bound};
use crate::fault::RangeFault;
use crate::ranges::Part;
use crate::words::{behind, front, place_of, trim};
use std::alloc::Global;

/// From one bound to the other.
#[derive(Clone, Copy)]
pub(crate) struct Span<'t> {
    pub(crate) low: Bound<'t>,
    pub(crate) high: Bound<'t>,
}

/// The part between two bounds, if both exist.
fn between<'t>(low: Option<Bound<'t>>, high: Option<Bound<'t>>) -> Option<Span<'t>>
    ensures value { (scale : ℕ) → option_map (part_of scale) result ≡ spec.between (option_map (number_of scale) low.entry) (option_map (number_of scale) high.entry) }
    ensures read { (scale : ℕ) → IfSome low.entry (IsRead scale) → IfSome high.entry (IsRead scale) → IfSome result (IsSpanRead scale) }
{
    match (low, high) {
        (Some(low), Some(high)) => Some(Span { low, high }),
        _ => None,
    }
}

/// The part of a text: a bound, or two with `..` between them.
fn read_span<'t>(text: &'t [u8], outer: Part, digits: u8) -> Option<Span<'t>>
    requires { digits ≤ 18 }
    ensures value { option_map (part_of (10 ^ digits)) result ≡ spec.part digits outer text.now }
    ensures read { IfSome result (IsSpanRead (10 ^ digits)) }
{
    let dots = place_of(b"..", text);
    if dots >= text.len() {
        let bound = read_bound(trim(text), outer, digits);
        return between(bound, bound);
    }
    let low = read_bound(trim(front(text, dots)), outer, digits);
    let high = read_bound(trim(behind(text, dots + 2)), outer, digits);
    between(low, high)
}

/// The length of the first part of a text.
fn part_len(text: &[u8]) -> usize
    ensures value { result ≡ prefix_len (λ c. not (c == 124)) text.now }
    ensures within { result ≤ length text.now }
{
    text.iter().take_while(|c| **c != b'|').count()
}

/// The parts of a text, in its order.
pub(crate) fn read_spans<'t>(
    alloc: Global,
    text: &'t [u8],
    outer: Part,
    digits: u8,
) -> Result<Vec<Span<'t>>, RangeFault>
    requires { digits ≤ 18 }
    ensures value { MatchResult result (λ spans. spec.parts digits outer (slice_split (λ c. c == 124) text.now) ≡ Some (parts_of (10 ^ digits) spans.items)) (λ e. e ≢ NoMemory → (e ≡ BadText) × (spec.parts digits outer (slice_split (λ c. c == 124) text.now) ≡ None)) }
    ensures read { IfOk result (λ spans. AreRead (10 ^ digits) spans.items) }
    ensures some { IfOk result (λ spans. 0 < length spans.items) }
{
    let mut spans = Vec::new(alloc);
    let mut rest = text;
    'parts: loop {
        let len = part_len(rest);
        match read_span(front(rest, len), outer, digits) {
            None => return Err(RangeFault::BadText),
            Some(span) => spans.push(span)?,
        }
        if len == rest.len() {
            return Ok(spans);
        }
        rest = behind(rest, len + 1);
    }
}

/// Whether the part ends no lower than it begins.
fn is_in_order(span: &Span) -> bool
    ensures { (scale : ℕ) → IsSpanRead scale span.now → result ≡ int_le (number_of scale span.now.low) (number_of scale span.now.high) }
{
    !is_below(&span.high, &span.low)
}

/// Whether the part ends before the first of the others.
fn ends_before(span: &Span, others: &[Span]) -> bool
    ensures { (scale : ℕ) → IsSpanRead scale span.now → AreRead scale others.now → result ≡ is_part_below (number_of scale span.now.high) (parts_of scale others.now) }
{
    others.is_empty() || is_below(&span.high, &others[0].low)
}

/// Whether the part is in order, and ends before the first of the others.
fn comes_first(span: &Span, others: &[Span]) -> bool
    ensures { (scale : ℕ) → IsSpanRead scale span.now → AreRead scale others.now → result ≡ (int_le (number_of scale span.now.low) (number_of scale span.now.high) && is_part_below (number_of scale span.now.high) (parts_of scale others.now)) }
{
    is_in_order(span) && ends_before(span, others)
}

/// The parts after one of them.
fn behind_part<'s, 't>(spans: &'s [Span<'t>], place: usize) -> &'s [Span<'t>]
    requires { place < length spans.now }
    ensures { result.now ≡ drop (place + 1) spans.now }
{
    &spans[place + 1..]
}

/// Whether the parts ascend and are disjoint.
pub(crate) fn are_ascending(spans: &[Span]) -> bool
    ensures { (scale : ℕ) → AreRead scale spans.now → result ≡ is_ascending (parts_of scale spans.now) }
{
    for i in 0..spans.len() {
        if !comes_first(&spans[i], behind_part(spans, i)) {
            return false;
        }
    }
    true
}

/// The part, if its bounds fit 128 bits.
fn small_part(span: &Span) -> Option<Part>
    ensures { MatchOption result (is_span_large span.now ≡ true) (λ part. (scale : ℕ) → part ≡ part_of scale span.now) }
{
    match (span.low, span.high) {
        (Bound::Small(low), Bound::Small(high)) => Some(Part { low, high }),
        _ => None,
    }
}

/// The parts, if their bounds fit 128 bits.
pub(crate) fn small_parts(alloc: Global, spans: &[Span]) -> Result<Vec<Part>, RangeFault>
    ensures value { MatchResult result (λ list. (scale : ℕ) → list.items ≡ parts_of scale spans.now) (λ e. e ≢ NoMemory → (e ≡ Wider) × (list_any is_span_large spans.now ≡ true)) }
    ensures count { IfOk result (λ list. length list.items ≡ length spans.now) }
{
    let mut list = Vec::with_capacity(alloc, spans.len())?;
    for span in spans {
        match small_part(span) {
            Some(part) => list.push(part)?,
            None => return Err(RangeFault::Wider),
        }
    }
    Ok(list)
}
