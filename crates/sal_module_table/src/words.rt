//! Texts of names.
ghost use Rattle.std.specs.Prelude.{◌≡◌, ◌+◌, ◌-◌, ◌<◌, ◌≤◌, ◌++◌, ◌∷◌, [], length, filter, not, slice_index, IfOk, MatchOption};
ghost use Rattle.std.specs.List.{prefix_len};
ghost use Rattle.sal_stmt.specs.Words.{is_blank as is_blank_byte, is_empty};
ghost use Rattle.sal_module_table.specs.Lists as spec;

use sal_types::{NoMemory, Str, append, front, tail};
use std::alloc::Global;

fn is_blank(c: u8) -> bool
    ensures { result ≡ is_blank_byte c }
{
    c == b' ' || c == b'\t' || c == b'\r' || c == b'\n'
}

fn word_len(text: &str) -> usize
    ensures value { result ≡ prefix_len (λ c. not (is_blank_byte c)) text.now }
    ensures within { result ≤ length text.now }
{
    text.as_bytes()
        .iter()
        .take_while(|c| !is_blank(**c))
        .count()
}

/// The offset of the first white space.
fn blank_at(text: &str) -> Option<usize>
    ensures { MatchOption result (length text.now ≤ prefix_len (λ c. not (is_blank_byte c)) text.now) (λ i. (i ≡ prefix_len (λ c. not (is_blank_byte c)) text.now) × (i < length text.now) × (slice_index text.now i < 128)) }
{
    let len = word_len(text);
    if len < text.len() { Some(len) } else { None }
}

/// Appends the name, unless it is empty.
fn push_word(words: &mut Vec<Str>, alloc: Global, word: &str) -> Result<(), NoMemory>
    ensures { IfOk result (λ _. words.new.items ≡ words.old.items ++ filter (λ w. not (is_empty w)) (word.now ∷ [])) }
{
    if !word.is_empty() {
        append(words, Str::new(alloc, word)?)?;
    }
    Ok(())
}

/// The parts of a text between white space.
pub(crate) fn words_of(alloc: Global, text: &str) -> Result<Vec<Str>, NoMemory>
    ensures { IfOk result (λ words. words.items ≡ spec.words_of text.now) }
{
    let mut words = Vec::new(alloc);
    let mut rest = text;
    'words: loop {
        match blank_at(rest) {
            None => {
                push_word(&mut words, alloc, rest)?;
                return Ok(words);
            }
            Some(i) => {
                push_word(&mut words, alloc, front(rest, i))?;
                rest = tail(rest, i + 1);
            }
        }
    }
}
