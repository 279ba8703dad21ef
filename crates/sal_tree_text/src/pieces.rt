//! The JSON text of a value. Each function appends to the text.
ghost use Rattle.std.specs.Prelude.{◌≡◌, ◌++◌, OnOk, false, string_bytes};
ghost use Rattle.json.specs.Print.{quoted};
ghost use Rattle.serde_json.specs.View.{view};
ghost use Rattle.serde_json.specs.Written.{compact_text, has_float};

use crate::texts::push_words;
use sal_types::NoMemory;
use serde_json::Value;
use std::alloc::Global;

/// The JSON text of a value.
pub fn push_value(alloc: Global, text: &mut String, value: &Value) -> Result<(), NoMemory>
    requires { has_float (view value.now) ≡ false }
    ensures { OnOk result (string_bytes text.new ≡ string_bytes text.old ++ compact_text (view value.now)) }
{
    let written = value.to_string(alloc)?;
    text.push_str(written.as_str())?;
    Ok(())
}

// The JSON text of a scalar: a number or a text.
pub(crate) fn push_json(alloc: Global, text: &mut String, json: &Value) -> Result<(), NoMemory>
    requires { has_float (view json.now) ≡ false }
    ensures { OnOk result (string_bytes text.new ≡ string_bytes text.old ++ compact_text (view json.now)) }
{
    if let Some(number) = json.as_u64() {
        write!(text, "{number}")?;
        return Ok(());
    }
    match json.as_str() {
        Some(words) => push_words(alloc, text, words),
        None => push_value(alloc, text, json),
    }
}

/// A JSON text of these words.
pub fn push_string(alloc: Global, text: &mut String, words: &str) -> Result<(), NoMemory>
    ensures { OnOk result (string_bytes text.new ≡ string_bytes text.old ++ quoted words.now) }
{
    let words = String::from_str(alloc, words)?;
    push_value(alloc, text, &Value::String(words))
}
