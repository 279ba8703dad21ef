//! Identifiers (RFC 7950 section 6.2).
ghost use Rattle.std.specs.Prelude.{◌≡◌};
ghost use Rattle.std.specs.List.{list_all};
ghost use Rattle.sal_schema.specs.Valid as spec;

use sal_types::Str;

fn starts_identifier(c: u8) -> bool
    ensures { result ≡ spec.starts_identifier c }
{
    c.is_ascii_alphabetic() || c == b'_'
}

fn goes_on(c: u8) -> bool
    ensures { result ≡ spec.goes_on c }
{
    c.is_ascii_alphanumeric() || c == b'_' || c == b'-' || c == b'.'
}

fn all_go_on(rest: &[u8]) -> bool
    ensures { result ≡ list_all spec.goes_on rest.now }
{
    rest.iter().all(|c| goes_on(*c))
}

/// Whether a text starts with a letter or `_`, and has only letters, digits, `_`, `-` and `.` after it.
pub(crate) fn is_identifier(text: &Str) -> bool
    ensures { result ≡ spec.is_identifier text.now }
{
    match text.items().split_first() {
        None => false,
        Some((first, rest)) => starts_identifier(*first) && all_go_on(rest),
    }
}

/// Whether each text is an identifier.
pub(crate) fn are_identifiers(texts: &[Str]) -> bool
    ensures { result ≡ list_all spec.is_identifier texts.now }
{
    texts.iter().all(|text| is_identifier(text))
}
