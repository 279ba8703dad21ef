//! Numbers from texts.
ghost use Rattle.std.specs.Prelude.{◌≡◌, ℕ, true, false, ◌^◌, ◌-◌, ◌*◌, ◌≤◌, ◌<◌, min, length};
ghost use Rattle.sal_restrict.specs.Bounds.{decimal, signed, units};
ghost use Rattle.sal_json.specs.Numerals as spec;

use crate::fault::ScalarFault;
use crate::texts::{
    after_first, all_zeros, before_first, begins_with_zero, has_minus, without_minus, without_sign,
};
use sal_restrict::{Ranges, behind, decimal, front, is_digits, small};
use sal_types::{Atom, has_byte};

fn is_in_64(number: i128) -> bool
    ensures { result ≡ spec.is_in_64 number }
{
    i128::from(i64::MIN) <= number && number <= i128::from(i64::MAX)
}

/// The value of a whole number in an integer type.
pub(crate) fn whole_atom(has_sign: bool, range: &Ranges, number: i128) -> Result<Atom, ScalarFault>
    ensures { result ≡ spec.whole_atom has_sign range.now number }
{
    if has_sign {
        signed_atom(range, number)
    } else {
        unsigned_atom(range, number)
    }
}

fn signed_atom(range: &Ranges, number: i128) -> Result<Atom, ScalarFault>
    ensures { result ≡ spec.whole_atom true range.now number }
{
    if is_in_64(number) && range.holds(number) {
        Ok(Atom::Signed(number as i64))
    } else {
        Err(ScalarFault::OutOfRange)
    }
}

fn unsigned_atom(range: &Ranges, number: i128) -> Result<Atom, ScalarFault>
    ensures { result ≡ spec.whole_atom false range.now number }
{
    if number < 0 {
        return Err(ScalarFault::OutOfRange);
    }
    if number <= i128::from(u64::MAX) && range.holds(number) {
        Ok(Atom::Unsigned(number as u64))
    } else {
        Err(ScalarFault::OutOfRange)
    }
}

/// The value of a number with this sign in an integer type. Its size is 2^128 - 1 if it is greater.
fn sized_atom(
    has_sign: bool,
    range: &Ranges,
    negative: bool,
    size: u128,
) -> Result<Atom, ScalarFault>
    ensures { (n : ℕ) → size ≡ min n (2 ^ 128 - 1) → result ≡ spec.whole_atom has_sign range.now (signed negative n) }
{
    match small(negative, size) {
        Some(number) => whole_atom(has_sign, range, number),
        None => Err(ScalarFault::OutOfRange),
    }
}

/// Whether the text is a whole number: any in a type of 64 bits, and else one without a plus and without leading zeros.
fn is_number(bits: u8, text: &[u8]) -> bool
    ensures { result ≡ spec.is_number bits text.now }
{
    if bits == 64 {
        is_digits(without_sign(text))
    } else {
        is_strict(text)
    }
}

fn is_strict(text: &[u8]) -> bool
    ensures { result ≡ spec.is_strict text.now }
{
    let digits = without_minus(text);
    text.len() == 1 && begins_with_zero(text) || is_digits(digits) && !begins_with_zero(digits)
}

/// The value of a text in an integer type.
pub(crate) fn int_atom(
    bits: u8,
    has_sign: bool,
    range: &Ranges,
    text: &[u8],
) -> Result<Atom, ScalarFault>
    ensures { result ≡ spec.int_atom bits has_sign range.now text.now }
{
    if !is_number(bits, text) {
        return Err(ScalarFault::WrongKind);
    }
    let size = decimal(without_sign(text));
    sized_atom(has_sign, range, has_minus(text), size)
}

/// Digits, and after a point further ones.
fn is_decimal(text: &[u8]) -> bool
    ensures { result ≡ spec.is_decimal text.now }
{
    is_digits(before_first(b'.', text))
        && (!has_byte(b'.', text) || is_digits(after_first(b'.', text)))
}

fn rest_of(further: &[u8], digits: u8) -> &[u8]
    ensures { result.now ≡ spec.rest_of digits further.now }
{
    behind(further, further.len().min(digits as usize))
}

fn first_of(further: &[u8], digits: u8) -> &[u8]
    ensures first { result.now ≡ spec.first_of digits further.now }
    ensures few { length result.now ≤ digits }
{
    front(further, further.len().min(digits as usize))
}

/// Whether the digits beyond those of the type are zeros.
fn is_exact(digits: u8, text: &[u8]) -> bool
    ensures { result ≡ spec.is_exact digits text.now }
{
    all_zeros(rest_of(after_first(b'.', text), digits))
}

/// The value of these digits after a point.
fn fraction_of(further: &[u8], digits: u8) -> u128
    requires few { digits ≤ 18 }
    requires short { length further.now ≤ digits }
    ensures { result ≡ min (decimal further.now * 10 ^ (digits - length further.now)) (2 ^ 128 - 1) }
{
    decimal(further).saturating_mul(10u128.pow(u32::from(digits - further.len() as u8)))
}

/// How many units the number has, or 2^128 - 1 if it has more.
fn units_of(digits: u8, text: &[u8]) -> u128
    requires { digits ≤ 18 }
    ensures { result ≡ min (spec.units_of digits text.now) (2 ^ 128 - 1) }
{
    let fraction = fraction_of(first_of(after_first(b'.', text), digits), digits);
    decimal(before_first(b'.', text))
        .saturating_mul(10u128.pow(u32::from(digits)))
        .saturating_add(fraction)
}

fn units_atom(digits: u8, range: &Ranges, number: i128) -> Result<Atom, ScalarFault>
    ensures { result ≡ spec.units_atom digits range.now number }
{
    if is_in_64(number) && range.holds(number) {
        Ok(Atom::Dec {
            units: number as i64,
            digits,
        })
    } else {
        Err(ScalarFault::OutOfRange)
    }
}

fn sized_units(digits: u8, range: &Ranges, negative: bool, size: u128) -> Result<Atom, ScalarFault>
    ensures { (n : ℕ) → size ≡ min n (2 ^ 128 - 1) → result ≡ spec.units_atom digits range.now (signed negative n) }
{
    match small(negative, size) {
        Some(number) => units_atom(digits, range, number),
        None => Err(ScalarFault::OutOfRange),
    }
}

/// The value of a text in a type of decimal numbers.
pub(crate) fn dec_atom(digits: u8, range: &Ranges, text: &[u8]) -> Result<Atom, ScalarFault>
    requires { digits ≤ 18 }
    ensures { result ≡ spec.dec_atom digits range.now text.now }
{
    let number = without_sign(text);
    if !is_decimal(number) {
        return Err(ScalarFault::WrongKind);
    }
    if !is_exact(digits, number) {
        return Err(ScalarFault::OutOfRange);
    }
    sized_units(digits, range, has_minus(text), units_of(digits, number))
}
