//! The pieces of a step as text. Each function appends to `text`.
ghost use Rattle.std.specs.Prelude.{◌≡◌, ◌∷◌, ◌++◌, OnOk, false, string_bytes};
ghost use Rattle.json.specs.Print.{quoted};
ghost use Rattle.serde_json.specs.Written.{compact_text, has_float};
ghost use Rattle.serde_json.specs.View.{view};
ghost use Rattle.sal_script.specs.Words.{number};
ghost use Rattle.sal_draw_script.specs.Steps as spec;

use crate::floats::has_float;
use sal_report::store_word;
use sal_types::{NoMemory, Store, Str, push_word};
use serde_json::Value;
use std::alloc::Global;

// A space and a number.
fn push_number(text: &mut String, n: u32) -> Result<(), NoMemory>
    ensures { OnOk result (string_bytes text.new ≡ string_bytes text.old ++ number n) }
{
    write!(text, " {n}")?;
    Ok(())
}

/// A word and a number.
pub(crate) fn push_one(text: &mut String, word: &str, n: u32) -> Result<(), NoMemory>
    ensures { OnOk result (string_bytes text.new ≡ string_bytes text.old ++ (word.now ++ number n)) }
{
    text.push_str(word)?;
    push_number(text, n)
}

/// A word and two numbers.
pub(crate) fn push_two(text: &mut String, word: &str, n: u32, m: u32) -> Result<(), NoMemory>
    ensures { OnOk result (string_bytes text.new ≡ string_bytes text.old ++ (word.now ++ (number n ++ number m))) }
{
    push_one(text, word, n)?;
    push_number(text, m)
}

// A space and a value as JSON.
fn push_json(alloc: Global, text: &mut String, value: &Value) -> Result<(), NoMemory>
    requires { has_float (view value.now) ≡ false }
    ensures { OnOk result (string_bytes text.new ≡ string_bytes text.old ++ (32 ∷ compact_text (view value.now))) }
{
    let written = value.to_string(alloc)?;
    text.push(' ')?;
    text.push_str(written.as_str())?;
    Ok(())
}

/// A space and a value as JSON.
pub(crate) fn push_value(alloc: Global, text: &mut String, value: &Value) -> Result<(), NoMemory>
    ensures { OnOk result (string_bytes text.new ≡ string_bytes text.old ++ spec.value_text (view value.now)) }
{
    if has_float(value) {
        return push_word(text, " a value with a fraction");
    }
    push_json(alloc, text, value)
}

// A space and these words as a JSON text.
fn push_quoted(alloc: Global, text: &mut String, words: &str) -> Result<(), NoMemory>
    ensures { OnOk result (string_bytes text.new ≡ string_bytes text.old ++ (32 ∷ quoted words.now)) }
{
    let words = String::from_str(alloc, words)?;
    push_json(alloc, text, &Value::String(words))
}

/// A word, and a text as JSON.
pub(crate) fn push_text(
    alloc: Global,
    text: &mut String,
    word: &str,
    words: &Str,
) -> Result<(), NoMemory>
    ensures { OnOk result (string_bytes text.new ≡ string_bytes text.old ++ (word.now ++ spec.quoted_text words.now)) }
{
    text.push_str(word)?;
    push_quoted(alloc, text, words.as_str())
}

// A context, or `null`.
fn push_context(alloc: Global, text: &mut String, context: &Option<Str>) -> Result<(), NoMemory>
    ensures { OnOk result (string_bytes text.new ≡ string_bytes text.old ++ spec.context_text context.now) }
{
    match context {
        None => push_word(text, " null"),
        Some(context) => push_quoted(alloc, text, context.as_str()),
    }
}

/// A word, a name and a context.
pub(crate) fn push_named(
    alloc: Global,
    text: &mut String,
    word: &str,
    name: &Str,
    context: &Option<Str>,
) -> Result<(), NoMemory>
    ensures { OnOk result (string_bytes text.new ≡ string_bytes text.old ++ (word.now ++ (spec.quoted_text name.now ++ spec.context_text context.now))) }
{
    push_text(alloc, text, word, name)?;
    push_context(alloc, text, context)
}

/// A name, a context and a value.
pub(crate) fn push_asked(
    alloc: Global,
    text: &mut String,
    name: &Str,
    context: &Option<Str>,
    value: &Value,
) -> Result<(), NoMemory>
    ensures { OnOk result (string_bytes text.new ≡ string_bytes text.old ++ (spec.quoted_text name.now ++ (spec.context_text context.now ++ spec.value_text (view value.now)))) }
{
    push_quoted(alloc, text, name.as_str())?;
    push_context(alloc, text, context)?;
    push_value(alloc, text, value)
}

/// A store and a path.
pub(crate) fn push_place(
    alloc: Global,
    text: &mut String,
    store: Store,
    path: &Str,
) -> Result<(), NoMemory>
    ensures { OnOk result (string_bytes text.new ≡ string_bytes text.old ++ spec.place_text store path.now) }
{
    text.push(' ')?;
    push_text(alloc, text, store_word(store), path)
}

/// And a value.
pub(crate) fn push_write(
    alloc: Global,
    text: &mut String,
    store: Store,
    path: &Str,
    value: &Value,
) -> Result<(), NoMemory>
    ensures { OnOk result (string_bytes text.new ≡ string_bytes text.old ++ (spec.place_text store path.now ++ spec.value_text (view value.now))) }
{
    push_place(alloc, text, store, path)?;
    push_value(alloc, text, value)
}
