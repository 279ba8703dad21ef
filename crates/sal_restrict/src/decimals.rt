//! Decimal numbers.
ghost use Rattle.std.specs.Prelude.{◌≡◌, SomeIff, FitsSigned, ◌^◌, ◌-◌, min};
ghost use Rattle.std.specs.Int.{w128};
ghost use Rattle.sal_restrict.specs.Bounds as spec;

use sal_types::all_digits;
/// The value of these digits, or 2^128 - 1 if it is greater.
pub fn decimal(text: &[u8]) -> u128
    ensures { result ≡ min (spec.decimal text.now) (2 ^ 128 - 1) }
{
    let mut number: u128 = 0;
    for digit in text {
        number = number
            .saturating_mul(10)
            .saturating_add(u128::from(digit.saturating_sub(b'0')));
    }
    number
}

/// Whether the text has digits only, at least one.
pub fn is_digits(text: &[u8]) -> bool
    ensures { result ≡ spec.is_digits text.now }
{
    !text.is_empty() && all_digits(text)
}

/// The number with this sign, if it fits 128 bits.
pub fn small(negative: bool, size: u128) -> Option<i128>
    ensures { SomeIff result (FitsSigned w128 (spec.signed negative size)) (spec.signed negative size) }
{
    if negative {
        0i128.checked_sub_unsigned(size)
    } else {
        0i128.checked_add_unsigned(size)
    }
}
