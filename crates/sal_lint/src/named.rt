//! The place that the text of a fault of modules names.
ghost use Rattle.std.specs.Prelude.{◌≡◌, ◌≤◌, ◌+◌, length, fold};
ghost use Rattle.std.specs.List.{prefix_len};
ghost use Rattle.sal_lint.specs.Named as spec;

use sal_types::all_digits;

/// The number of a module among those of its device, and an offset in its text.
#[derive(Clone, Copy)]
pub struct Named {
    pub module: u32,
    pub at: u32,
}

fn is_in_word(byte: u8) -> bool
    ensures { result ≡ spec.is_in_word byte }
{
    byte != b' '
}

fn word_len(text: &[u8]) -> usize
    ensures value { result ≡ prefix_len spec.is_in_word text.now }
    ensures within { result ≤ length text.now }
{
    text.iter().take_while(|byte| is_in_word(**byte)).count()
}

fn word(text: &[u8]) -> &[u8]
    ensures { result.now ≡ spec.word text.now }
{
    &text[..word_len(text)]
}

fn after(text: &[u8]) -> &[u8]
    ensures { result.now ≡ spec.after text.now }
{
    let next = word_len(text) + 1;
    &text[next.min(text.len())..]
}

// A number with one more digit, modulo 2^32.
fn with_digit(number: u32, byte: u8) -> u32
    ensures { result ≡ spec.with_digit number byte }
{
    let digit = u64::from(byte.saturating_sub(48));
    let longer = 10 * u64::from(number) + digit;
    (longer % 4294967296) as u32
}

fn value_of(digits: &[u8]) -> u32
    ensures { result ≡ fold spec.with_digit 0 digits.now }
{
    let mut number = 0;
    for byte in digits {
        number = with_digit(number, *byte);
    }
    number
}

fn number_in(word: &[u8]) -> Option<u32>
    ensures { result ≡ spec.number_in word.now }
{
    if word.is_empty() || !all_digits(word) {
        return None;
    }
    Some(value_of(word))
}

fn placed(module: Option<u32>, at: Option<u32>) -> Option<Named>
    ensures { result ≡ spec.placed «module» at }
{
    match (module, at) {
        (Some(module), Some(at)) => Some(Named { module, at }),
        _ => None,
    }
}

fn without_upgrade(text: &[u8]) -> &[u8]
    ensures { result.now ≡ spec.without_upgrade text.now }
{
    if text.starts_with(b"upgrade ") {
        after(after(text))
    } else {
        text
    }
}

fn place_in(text: &[u8]) -> Option<Named>
    ensures { result ≡ spec.place_in text.now }
{
    let second = after(text);
    let third = after(second);
    let at = number_in(word(after(third)));
    if text.starts_with(b"module ") {
        placed(number_in(word(second)), at)
    } else if text.starts_with(b"build ") {
        placed(number_in(word(third)), at)
    } else {
        None
    }
}

/// The place that the text of a fault of modules names; none if it has no offset.
pub fn named_in(text: &[u8]) -> Option<Named>
    ensures { result ≡ spec.named_in text.now }
{
    place_in(without_upgrade(text))
}
