//! The forms of arguments.
ghost use Rattle.std.specs.Prelude.{◌≡◌, ◌^◌, ◌&&◌, ◌==◌, not, min, drop};
ghost use Rattle.std.specs.List.{list_all, slice_split, prefix_len};
ghost use Rattle.sal_stmt.specs.Words.{is_keyword, first, is_empty};
ghost use Rattle.sal_module.specs.Arguments as spec;

use sal_stmt::{is_identifier, is_keyword};
use sal_types::all_digits;

/// The form of an argument.
#[derive(Clone, Copy, PartialEq, Eq)]
pub enum Form {
    /// A letter or `_`, and then letters, digits, `_`, `-` and `.`.
    Identifier,
    /// An identifier, with or without a prefix.
    Name,
    /// A `/` before each of one or more names.
    SchemaPath,
    /// Any text.
    Text,
    /// No argument.
    Absent,
    /// `true` or `false`.
    Truth,
    /// `1` or `1.1`.
    Version,
    /// `invert-match`.
    Inversion,
    /// A whole number without a sign.
    Whole,
    /// A whole number below 2^32, without a sign.
    Count,
    /// A whole number from 1 to 2^32 - 1, or `unbounded`.
    Limit,
    /// A whole number from -2^31 to 2^31 - 1.
    Integer,
}

const CAP: u64 = 4_294_967_296;

/// The value of these digits, or 2^32 if it is greater.
pub(crate) fn decimal(digits: &[u8]) -> u64
    ensures { result ≡ min 4294967296 (spec.decimal digits.now) }
{
    let mut number: u64 = 0;
    for digit in digits {
        number = (10 * number + u64::from(digit.saturating_sub(b'0'))).min(CAP);
    }
    number
}

fn first(text: &[u8]) -> u8
    ensures { result ≡ first text.now }
{
    if text.is_empty() { 0 } else { text[0] }
}

/// Whether this is a whole number without a sign.
pub fn is_whole(text: &[u8]) -> bool
    ensures { result ≡ spec.is_whole text.now }
{
    !text.is_empty() && all_digits(text) && (text.len() == 1 || first(text) != b'0')
}

fn is_count(text: &[u8]) -> bool
    ensures { result ≡ spec.is_count text.now }
{
    is_whole(text) && decimal(text) < CAP
}

fn is_limit(text: &str) -> bool
    ensures { result ≡ spec.is_limit text.now }
{
    text == "unbounded" || (is_count(text.as_bytes()) && decimal(text.as_bytes()) > 0)
}

fn is_integer(text: &[u8]) -> bool
    ensures { result ≡ spec.is_integer text.now }
{
    if first(text) == b'-' {
        is_whole(&text[1..]) && decimal(&text[1..]) <= 2_147_483_648
    } else {
        is_whole(text) && decimal(text) < 2_147_483_648
    }
}

fn name_len(text: &[u8]) -> usize
    ensures { result ≡ prefix_len (λ c. not (c == 47)) text.now }
{
    text.iter().take_while(|c| **c != b'/').count()
}

fn all_names(text: &[u8]) -> bool
    ensures { result ≡ list_all is_keyword (slice_split (λ c. c == 47) text.now) }
{
    let mut rest = text;
    'names: loop {
        let len = name_len(rest);
        if len >= rest.len() {
            return is_keyword(rest);
        }
        if !is_keyword(&rest[..len]) {
            return false;
        }
        rest = &rest[len + 1..];
    }
}

fn is_schema_path(text: &[u8]) -> bool
    ensures { result ≡ spec.is_schema_path text.now }
{
    first(text) == b'/' && all_names(&text[1..])
}

/// Whether a text has this form.
pub fn has_form(form: Form, text: &str) -> bool
    ensures { result ≡ spec.has_form form text.now }
{
    match form {
        Form::Identifier => is_identifier(text.as_bytes()),
        Form::Name => is_keyword(text.as_bytes()),
        Form::SchemaPath => is_schema_path(text.as_bytes()),
        Form::Text => true,
        Form::Absent => false,
        Form::Truth => text == "true" || text == "false",
        Form::Version => text == "1" || text == "1.1",
        Form::Inversion => text == "invert-match",
        Form::Whole => is_whole(text.as_bytes()),
        Form::Count => is_count(text.as_bytes()),
        Form::Limit => is_limit(text),
        Form::Integer => is_integer(text.as_bytes()),
    }
}
