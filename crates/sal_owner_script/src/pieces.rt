//! The pieces of a line. Each function appends to the text.
ghost use Rattle.std.specs.Prelude.{◌≡◌, ◌∷◌, ◌++◌, IfOk, OnOk, string_bytes};
ghost use Rattle.json.specs.Print.{quoted};
ghost use Rattle.serde_json.specs.Data.{boolean};
ghost use Rattle.serde_json.specs.Written.{compact_text};

use sal_types::{NoMemory, push_word};
use serde_json::Value;
use std::alloc::Global;

// A JSON text of these words.
pub(crate) fn push_string(alloc: Global, text: &mut String, words: &str) -> Result<(), NoMemory>
    ensures { OnOk result (string_bytes text.new ≡ string_bytes text.old ++ quoted words.now) }
{
    let written = quoted(alloc, words)?;
    push_word(text, written.as_str())
}

fn quoted(alloc: Global, words: &str) -> Result<String, NoMemory>
    ensures { IfOk result (λ text. string_bytes text ≡ quoted words.now) }
{
    let value = Value::String(String::from_str(alloc, words)?);
    let text = value.to_string(alloc)?;
    Ok(text)
}

// A comma and a JSON truth value.
pub(crate) fn push_truth(text: &mut String, truth: bool) -> Result<(), NoMemory>
    ensures { OnOk result (string_bytes text.new ≡ string_bytes text.old ++ (44 ∷ compact_text (boolean truth))) }
{
    push_word(text, if truth { ",true" } else { ",false" })
}
