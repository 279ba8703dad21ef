//! JSON texts of words, written without a JSON value if no byte is escaped. Each function appends to the text.
ghost use Rattle.std.specs.Prelude.{◌≡◌, ◌++◌, OnOk, string_bytes};
ghost use Rattle.std.specs.List.{list_all};
ghost use Rattle.json.specs.Print.{quoted};
ghost use Rattle.serde_json.specs.Data.{null};
ghost use Rattle.serde_json.specs.Written.{compact_text};
ghost use Rattle.sal_schema.specs.Lookups.{full_name};
ghost use Rattle.sal_data.specs.Members as names;
ghost use Rattle.sal_tree_text.specs.Plain.{is_plain};

use crate::members::{is_qualified, member_name};
use crate::pieces::push_string;
use sal_schema::Schema;
use sal_schema::lookups::{name_at, own_module, push_full_name};
use sal_types::NoMemory;
use std::alloc::Global;

/// The JSON text of these words.
pub(crate) fn push_words(alloc: Global, text: &mut String, words: &str) -> Result<(), NoMemory>
    ensures { OnOk result (string_bytes text.new ≡ string_bytes text.old ++ quoted words.now) }
{
    if !are_plain(words) {
        return push_string(alloc, text, words);
    }
    text.push('"')?;
    text.push_str(words)?;
    text.push('"')?;
    Ok(())
}

/// Whether no byte of the words is escaped.
fn are_plain(words: &str) -> bool
    ensures { result ≡ list_all is_plain words.now }
{
    words.as_bytes().iter().all(|c| is_plain(*c))
}

/// Whether a byte denotes itself in a JSON text.
fn is_plain(c: u8) -> bool
    ensures { result ≡ is_plain c }
{
    c >= b' ' && c != b'"' && c != b'\\'
}

/// The name of the member for a node, as JSON text.
pub(crate) fn push_member_name(
    alloc: Global,
    text: &mut String,
    schema: &Schema,
    parent: Option<u32>,
    node: u32,
) -> Result<(), NoMemory>
    ensures { OnOk result (string_bytes text.new ≡ string_bytes text.old ++ quoted (names.member_name schema.now parent node)) }
{
    if !is_qualified(schema, parent, node) {
        return push_words(alloc, text, name_at(schema, node));
    }
    push_full(alloc, text, schema, node)
}

/// The name of a node after that of its module, as JSON text.
fn push_full(alloc: Global, text: &mut String, schema: &Schema, node: u32) -> Result<(), NoMemory>
    ensures { OnOk result (string_bytes text.new ≡ string_bytes text.old ++ quoted (full_name schema.now node)) }
{
    if !are_plain(own_module(schema, node)) || !are_plain(name_at(schema, node)) {
        let mut name = String::new(alloc);
        push_full_name(&mut name, schema, node)?;
        return push_string(alloc, text, name.as_str());
    }
    text.push('"')?;
    push_full_name(text, schema, node)?;
    text.push('"')?;
    Ok(())
}

pub(crate) fn push_null(text: &mut String) -> Result<(), NoMemory>
    ensures { OnOk result (string_bytes text.new ≡ string_bytes text.old ++ compact_text null) }
{
    text.push_str("null")?;
    Ok(())
}
