//! Small functions on the bytes of texts.
ghost use Rattle.std.specs.Prelude.{◌≡◌, ◌≤◌, ◌<◌, ◌+◌, length, ◌==◌};
ghost use Rattle.std.specs.List.{list_all, position_or_len, before_first, after_first};
ghost use Rattle.sal_json.specs.Numerals as spec;

use sal_restrict::{behind, front};

pub(crate) fn has_minus(text: &[u8]) -> bool
    ensures { result ≡ spec.has_minus text.now }
{
    match text {
        [b'-', ..] => true,
        _ => false,
    }
}

/// The text without the sign in front, if there is one.
pub(crate) fn without_sign(text: &[u8]) -> &[u8]
    ensures { result.now ≡ spec.without_sign text.now }
{
    match text {
        [b'-', rest @ ..] => rest,
        [b'+', rest @ ..] => rest,
        _ => text,
    }
}

/// The text without the minus in front, if there is one.
pub(crate) fn without_minus(text: &[u8]) -> &[u8]
    ensures { result.now ≡ spec.without_minus text.now }
{
    match text {
        [b'-', rest @ ..] => rest,
        _ => text,
    }
}

pub(crate) fn begins_with_zero(text: &[u8]) -> bool
    ensures { result ≡ spec.begins_with_zero text.now }
{
    match text {
        [b'0', ..] => true,
        _ => false,
    }
}

pub(crate) fn all_zeros(text: &[u8]) -> bool
    ensures { result ≡ list_all (λ c. c == 48) text.now }
{
    text.iter().all(|c| *c == b'0')
}

/// How many bytes are before the first byte like this one, or all of them.
pub(crate) fn place_of(byte: u8, text: &[u8]) -> usize
    ensures value { result ≡ position_or_len (λ c. c == byte) text.now }
    ensures within { result ≤ length text.now }
{
    text.iter().take_while(|c| **c != byte).count()
}

/// The text before the first byte like this one, or all of it.
pub(crate) fn before_first(byte: u8, text: &[u8]) -> &[u8]
    ensures { result.now ≡ before_first (λ c. c == byte) text.now }
{
    front(text, place_of(byte, text))
}

/// The text after the first byte like this one, or none of it.
pub(crate) fn after_first(byte: u8, text: &[u8]) -> &[u8]
    ensures { result.now ≡ after_first (λ c. c == byte) text.now }
{
    let place = place_of(byte, text);
    if place < text.len() {
        behind(text, place + 1)
    } else {
        behind(text, text.len())
    }
}
