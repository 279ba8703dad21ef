//! The bounds of ranges, of any magnitude.
ghost use Rattle.std.specs.Prelude.{◌≡◌, ℕ, ◌+◌, ◌-◌, ◌*◌, ◌<◌, ◌≤◌, ◌^◌, nat_lt, nat_le, int_lt, ◌&&◌, ◌==◌, min, length, option_map, IfSome, IsTrue, Some, None, if◌then◌else◌};
ghost use Rattle.std.specs.List.{list_all, prefix_len};
ghost use Rattle.std.specs.Char.{is_ascii_digit};
ghost use Rattle.sal_restrict.specs.Bounds as spec;
ghost use Rattle.sal_restrict.specs.Readings.{without_zeros, size_of, IsNormal, number_of, IsRead, IsLarge, AreOrdered};

use crate::decimals::{decimal, is_digits, small};
use crate::ranges::Part;
use crate::words::place_of;
use std::cmp::Ordering;

/// A number without a sign: the digits before its point, without leading zeros, and its fraction.
///
/// `fraction` counts in units of the type: 10 to the power of its fraction digits is one whole.
#[derive(Clone, Copy)]
pub(crate) struct Magnitude<'t> {
    pub(crate) whole: &'t [u8],
    pub(crate) fraction: u128,
}

/// The number of a bound in units of the type. `Large` if it does not fit 128 bits.
#[derive(Clone, Copy)]
pub(crate) enum Bound<'t> {
    Small(i128),
    Large {
        negative: bool,
        magnitude: Magnitude<'t>,
    },
}

/// How many units one whole has.
pub(crate) fn scale_of(digits: u8) -> u128
    requires { digits ≤ 18 }
    ensures { result ≡ 10 ^ digits }
{
    10u128.pow(u32::from(digits))
}

fn zeros(text: &[u8]) -> usize
    ensures value { result ≡ prefix_len (λ c. c == 48) text.now }
    ensures within { result ≤ length text.now }
{
    text.iter().take_while(|c| **c == b'0').count()
}

/// The digits without leading zeros.
fn without_zeros(text: &[u8]) -> &[u8]
    ensures { result.now ≡ without_zeros text.now }
{
    &text[zeros(text)..]
}

/// The value of a text without a sign.
fn read_magnitude<'t>(text: &'t [u8], digits: u8) -> Option<Magnitude<'t>>
    requires { digits ≤ 18 }
    ensures value { option_map (size_of (10 ^ digits)) result ≡ spec.magnitude digits text.now }
    ensures normal { IfSome result (IsNormal (10 ^ digits)) }
{
    let point = place_of(b".", text);
    if point == text.len() {
        return magnitude_of(text, b"", digits);
    }
    let further = &text[point + 1..];
    if !is_digits(further) {
        return None;
    }
    magnitude_of(&text[..point], further, digits)
}

/// The number with these digits, and these after its point, of which there may be none.
fn magnitude_of<'t>(whole: &'t [u8], further: &[u8], digits: u8) -> Option<Magnitude<'t>>
    requires few { digits ≤ 18 }
    requires plain { IsTrue (list_all is_ascii_digit further.now) }
    ensures value { option_map (size_of (10 ^ digits)) result ≡ (if spec.is_digits whole.now && nat_le (length further.now) digits then Some (spec.units digits whole.now further.now) else None) }
    ensures normal { IfSome result (IsNormal (10 ^ digits)) }
{
    if !is_digits(whole) || further.len() > digits as usize {
        return None;
    }
    Some(Magnitude {
        whole: without_zeros(whole),
        fraction: fraction_of(further, digits),
    })
}

/// The value of these digits after a point.
fn fraction_of(further: &[u8], digits: u8) -> u128
    requires few { digits ≤ 18 }
    requires short { length further.now ≤ digits }
    requires plain { IsTrue (list_all is_ascii_digit further.now) }
    ensures value { result ≡ spec.decimal further.now * 10 ^ (digits - length further.now) }
    ensures less { result < 10 ^ digits }
{
    decimal(further).saturating_mul(scale_of(digits - further.len() as u8))
}

/// How many units the number has, or 2^128 - 1 if it has more.
fn units(magnitude: &Magnitude, digits: u8) -> u128
    requires { digits ≤ 18 }
    ensures { result ≡ min (size_of (10 ^ digits) magnitude.now) (2 ^ 128 - 1) }
{
    decimal(magnitude.whole)
        .saturating_mul(scale_of(digits))
        .saturating_add(magnitude.fraction)
}

/// The bound with this sign and magnitude.
fn signed_bound<'t>(negative: bool, magnitude: Magnitude<'t>, digits: u8) -> Bound<'t>
    requires few { digits ≤ 18 }
    requires normal { IsNormal (10 ^ digits) magnitude }
    ensures value { number_of (10 ^ digits) result ≡ spec.signed negative (size_of (10 ^ digits) magnitude.entry) }
    ensures read { IsRead (10 ^ digits) result }
{
    match small(negative, units(&magnitude, digits)) {
        Some(number) => Bound::Small(number),
        None => Bound::Large {
            negative,
            magnitude,
        },
    }
}

/// The bound of a number in digits, with a sign or without.
fn read_written<'t>(text: &'t [u8], digits: u8) -> Option<Bound<'t>>
    requires { digits ≤ 18 }
    ensures value { option_map (number_of (10 ^ digits)) result ≡ spec.written digits text.now }
    ensures read { IfSome result (IsRead (10 ^ digits)) }
{
    let negative = !text.is_empty() && text[0] == b'-';
    let size = if negative { &text[1..] } else { text };
    match read_magnitude(size, digits) {
        Some(magnitude) => Some(signed_bound(negative, magnitude, digits)),
        None => None,
    }
}

/// The bound of a text; `min` and `max` are the ends of `outer`.
pub(crate) fn read_bound<'t>(text: &'t [u8], outer: Part, digits: u8) -> Option<Bound<'t>>
    requires { digits ≤ 18 }
    ensures value { option_map (number_of (10 ^ digits)) result ≡ spec.bound digits outer text.now }
    ensures read { IfSome result (IsRead (10 ^ digits)) }
{
    if text == b"min".as_slice() {
        return Some(Bound::Small(outer.low));
    }
    if text == b"max".as_slice() {
        return Some(Bound::Small(outer.high));
    }
    read_written(text, digits)
}

/// Which of two numbers is the greater, by digits without leading zeros.
fn order_of_digits(a: &[u8], b: &[u8]) -> Ordering
    ensures { AreOrdered result a.now b.now }
{
    match a.len().cmp(&b.len()) {
        Ordering::Equal => a.cmp(b),
        other => other,
    }
}

fn is_smaller(a: &Magnitude, b: &Magnitude) -> bool
    ensures { (scale : ℕ) → IsNormal scale a.now → IsNormal scale b.now → result ≡ nat_lt (size_of scale a.now) (size_of scale b.now) }
{
    match order_of_digits(a.whole, b.whole) {
        Ordering::Less => true,
        Ordering::Equal => a.fraction < b.fraction,
        Ordering::Greater => false,
    }
}

fn is_large_below(negative: bool, a: &Magnitude, other_negative: bool, b: &Magnitude) -> bool
    ensures { (scale : ℕ) → IsLarge scale negative a.now → IsLarge scale other_negative b.now → result ≡ int_lt (spec.signed negative (size_of scale a.now)) (spec.signed other_negative (size_of scale b.now)) }
{
    if negative != other_negative {
        negative
    } else if negative {
        is_smaller(b, a)
    } else {
        is_smaller(a, b)
    }
}

/// Whether the first bound is less than the second.
pub(crate) fn is_below(a: &Bound, b: &Bound) -> bool
    ensures { (scale : ℕ) → IsRead scale a.now → IsRead scale b.now → result ≡ int_lt (number_of scale a.now) (number_of scale b.now) }
{
    match (a, b) {
        (Bound::Small(a), Bound::Small(b)) => *a < *b,
        (Bound::Small(_), Bound::Large { negative, .. }) => !*negative,
        (Bound::Large { negative, .. }, Bound::Small(_)) => *negative,
        (
            Bound::Large {
                negative,
                magnitude,
            },
            Bound::Large {
                negative: other_negative,
                magnitude: other,
            },
        ) => is_large_below(*negative, magnitude, *other_negative, other),
    }
}
