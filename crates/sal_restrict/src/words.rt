//! Separators and white space in the texts of ranges.
ghost use Rattle.std.specs.Prelude.{◌≡◌, ◌+◌, ◌<◌, ◌≤◌, length, take, drop};
ghost use Rattle.std.specs.List.{prefix_len, suffix_len};
ghost use Rattle.sal_restrict.specs.Words as spec;

fn is_blank(c: u8) -> bool
    ensures { result ≡ spec.is_blank c }
{
    c == b' ' || c == b'\t' || c == b'\r' || c == b'\n'
}

fn blanks_before(text: &[u8]) -> usize
    ensures value { result ≡ prefix_len spec.is_blank text.now }
    ensures within { result ≤ length text.now }
{
    text.iter().take_while(|c| is_blank(**c)).count()
}

fn blanks_behind(text: &[u8]) -> usize
    ensures value { result ≡ suffix_len spec.is_blank text.now }
    ensures within { result ≤ length text.now }
{
    text.iter().rev().take_while(|c| is_blank(**c)).count()
}

/// The first bytes of a text.
#[inline]
pub fn front(text: &[u8], len: usize) -> &[u8]
    requires { len ≤ length text.now }
    ensures { result.now ≡ take len text.now }
{
    &text[..len]
}

/// The bytes after the first `len`.
#[inline]
pub fn behind(text: &[u8], len: usize) -> &[u8]
    requires { len ≤ length text.now }
    ensures { result.now ≡ drop len text.now }
{
    &text[len..]
}

/// The text without white space at its ends.
pub(crate) fn trim(text: &[u8]) -> &[u8]
    ensures { result.now ≡ spec.trim text.now }
{
    let text = &text[blanks_before(text)..];
    &text[..text.len() - blanks_behind(text)]
}

/// Whether the text has no white space at its ends.
pub(crate) fn is_trimmed(text: &[u8]) -> bool
    ensures { result ≡ spec.is_trimmed text.now }
{
    trim(text).len() == text.len()
}

/// The offset of the first `word` in the text, or the length of the text if it has none.
pub(crate) fn place_of(word: &[u8], text: &[u8]) -> usize
    ensures value { result ≡ spec.place_of word.now text.now }
    ensures within { result ≤ length text.now }
    ensures whole { result < length text.now → result + length word.now ≤ length text.now }
{
    for i in 0..text.len() {
        if text[i..].starts_with(word) {
            return i;
        }
    }
    text.len()
}
