//! Small functions on texts.
ghost use Rattle.std.specs.Prelude.{◌≡◌, ◌++◌, ◌==◌, OnOk, length, string_bytes};
ghost use Rattle.std.specs.List.{list_all, list_any};
ghost use Rattle.std.specs.Char.{is_ascii_digit};
ghost use Rattle.std.specs.Str.{chars};

use crate::memory::NoMemory;

/// Appends the word to the text. It fails only if memory runs out.
pub fn push_word(text: &mut String, word: &str) -> Result<(), NoMemory>
    ensures { OnOk result (string_bytes text.new ≡ string_bytes text.old ++ word.now) }
{
    text.push_str(word)?;
    Ok(())
}

/// Whether the text contains the byte.
pub fn has_byte(byte: u8, text: &[u8]) -> bool
    ensures { result ≡ list_any (λ c. c == byte) text.now }
{
    text.iter().any(|c| *c == byte)
}

/// How many characters the text has.
pub fn characters(text: &str) -> usize
    ensures { result ≡ length (chars text.now) }
{
    text.chars().count()
}

/// Whether all bytes are decimal digits.
pub fn all_digits(text: &[u8]) -> bool
    ensures { result ≡ list_all is_ascii_digit text.now }
{
    text.iter().all(|c| c.is_ascii_digit())
}
