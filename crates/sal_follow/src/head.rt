//! The head of a frame.
ghost use Rattle.std.specs.Prelude.{◌≡◌, ◌≤◌, ◌+◌, ◌*◌, ◌%◌, ◌++◌, length, IsTrue, OnOk};
ghost use Rattle.std.specs.List.{list_all};
ghost use Rattle.sal_follow.specs.Head as spec;

use sal_types::NoMemory;

/// The largest number of bytes of a frame's text.
pub(crate) const MAX_TEXT: usize = 16_777_216;

fn is_digit(c: u8) -> bool
    ensures { result ≡ spec.is_digit c }
{
    48 <= c && c < 58
}

fn are_digits(bytes: &[u8]) -> bool
    ensures { result ≡ list_all spec.is_digit bytes.now }
{
    bytes.iter().all(|c| is_digit(*c))
}

// The number with one more digit.
fn with_digit(n: usize, c: u8) -> usize
    requires digit { IsTrue (spec.is_digit c) }
    requires small { n ≤ 99999999 }
    ensures value { result ≡ spec.with_digit n c }
    ensures grows { result ≤ 10 * n + 9 }
{
    10 * n + (c - 48) as usize
}

// The value of eight digits.
fn value_of(digits: &[u8]) -> usize
    requires eight { length digits.now ≡ 8 }
    requires digits { IsTrue (list_all spec.is_digit digits.now) }
    ensures { result ≡ spec.value_of digits.now }
{
    match digits {
        [a, b, c, d, e, f, g, h] => {
            let high = with_digit(with_digit(with_digit(with_digit(0, *a), *b), *c), *d);
            with_digit(with_digit(with_digit(with_digit(high, *e), *f), *g), *h)
        }
        _ => unreachable!(),
    }
}

/// The length in the head at the front.
pub(crate) fn length_in(bytes: &[u8]) -> Option<usize>
    requires { 9 ≤ length bytes.now }
    ensures { result ≡ spec.head_of bytes.now }
{
    let digits = &bytes[..8];
    if are_digits(digits) && bytes[8] == 10 {
        let len = value_of(digits);
        if len <= MAX_TEXT { Some(len) } else { None }
    } else {
        None
    }
}

// The last digit of a number.
fn last_digit(n: usize) -> u8
    ensures { result ≡ 48 + n % 10 }
{
    48 + (n % 10) as u8
}

/// Appends the head of a frame whose text has `len` bytes.
pub(crate) fn push_head(bytes: &mut Vec<u8>, len: usize) -> Result<(), NoMemory>
    ensures { OnOk result (bytes.new.items ≡ bytes.old.items ++ spec.head len) }
{
    let tens = len / 10;
    let hundreds = tens / 10;
    let thousands = hundreds / 10;
    let fourth = thousands / 10;
    let fifth = fourth / 10;
    let sixth = fifth / 10;
    let seventh = sixth / 10;
    let head = [
        last_digit(seventh),
        last_digit(sixth),
        last_digit(fifth),
        last_digit(fourth),
        last_digit(thousands),
        last_digit(hundreds),
        last_digit(tens),
        last_digit(len),
        10,
    ];
    bytes.extend_from_slice(&head)?;
    Ok(())
}
