//! The bytes of YANG text, and unquoted strings.
ghost use Rattle.std.specs.Prelude.{◌≡◌, ◌+◌, ◌≤◌, length, take, drop, slice_index};
ghost use Rattle.std.specs.List.{list_all};
ghost use Rattle.sal_stmt.specs.Words as spec;

/// The byte at `index`, or 0 past the end.
#[inline]
pub(crate) fn byte_at(bytes: &[u8], index: usize) -> u8
    ensures { result ≡ slice_index bytes.now index }
{
    if index < bytes.len() { bytes[index] } else { 0 }
}

#[inline]
pub(crate) fn is_blank(c: u8) -> bool
    ensures { result ≡ spec.is_blank c }
{
    c == b' ' || c == b'\t' || c == b'\r' || c == b'\n'
}

#[inline]
pub(crate) fn is_control(c: u8) -> bool
    ensures { result ≡ spec.is_control c }
{
    c < 32 && !is_blank(c)
}

#[inline]
pub(crate) fn starts_with(bytes: &[u8], c: u8, d: u8) -> bool
    ensures { result ≡ spec.starts_with c d bytes.now }
{
    byte_at(bytes, 0) == c && byte_at(bytes, 1) == d
}

#[inline]
fn ends_word(bytes: &[u8]) -> bool
    ensures { result ≡ spec.ends_word bytes.now }
{
    let c = byte_at(bytes, 0);
    is_blank(c)
        || is_control(c)
        || c == b'"'
        || c == b'\''
        || c == b';'
        || c == b'{'
        || c == b'}'
        || starts_with(bytes, b'/', b'/')
        || starts_with(bytes, b'/', b'*')
        || starts_with(bytes, b'*', b'/')
}

fn word_len(bytes: &[u8]) -> usize
    ensures len { result ≡ spec.word_len bytes.now }
    ensures within { result ≤ length bytes.now }
{
    for i in 0..bytes.len() {
        if ends_word(&bytes[i..]) {
            return i;
        }
    }
    bytes.len()
}

/// The unquoted string at the front, and the rest of the text.
pub(crate) fn split_word(s: &str) -> (&str, &str)
    ensures word { result.0.now ≡ spec.word s.now }
    ensures rest { result.1.now ≡ spec.after_word s.now }
    ensures lens { length result.0.now + length result.1.now ≡ length s.now }
{
    s.split_at(word_len(s.as_bytes()))
}

fn starts_identifier(c: u8) -> bool
    ensures { result ≡ spec.starts_identifier c }
{
    c.is_ascii_alphabetic() || c == b'_'
}

fn continues_identifier(c: u8) -> bool
    ensures { result ≡ spec.continues_identifier c }
{
    c.is_ascii_alphanumeric() || c == b'_' || c == b'-' || c == b'.'
}

fn all_continue(bytes: &[u8]) -> bool
    ensures { result ≡ list_all spec.continues_identifier bytes.now }
{
    bytes.iter().all(|c| continues_identifier(*c))
}

/// Whether this is an identifier (RFC 7950 section 6.2): an ASCII letter or `_`, and then letters, digits, `_`, `-` and `.`.
pub fn is_identifier(bytes: &[u8]) -> bool
    ensures { result ≡ spec.is_identifier bytes.now }
{
    starts_identifier(byte_at(bytes, 0)) && all_continue(bytes)
}

fn colon_at(bytes: &[u8]) -> usize
    ensures { result ≡ spec.colon_at bytes.now }
{
    bytes.iter().take_while(|c| **c != b':').count()
}

/// Whether this is an identifier, or two of them joined by `:`.
#[tactic(auto, unfolding(crate::specs::Words::is_keyword))]
pub fn is_keyword(bytes: &[u8]) -> bool
    ensures { result ≡ spec.is_keyword bytes.now }
{
    let colon = colon_at(bytes);
    if colon >= bytes.len() {
        return is_identifier(bytes);
    }
    is_identifier(&bytes[..colon]) && is_identifier(&bytes[colon + 1..])
}
