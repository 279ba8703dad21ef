//! The pieces of a line: words, numbers, paths and rows. Each function appends to the text.
ghost use Rattle.std.specs.Prelude.{◌≡◌, ◌∷◌, ◌++◌, OnOk, string_bytes};
ghost use Rattle.json.specs.Print.{quoted};
ghost use Rattle.serde_json.specs.Written.{compact_text};
ghost use Rattle.sal_pathtext.specs.Written.{written};
ghost use Rattle.sal_data.specs.Written.{write_data};
ghost use Rattle.sal_script.specs.Report as spec;

use sal_data::write_data;
use sal_pathtext::write_path;
use sal_rows::Rows;
use sal_schema::Schema;
use sal_tree_text::{push_string, push_value};
use sal_types::{NoMemory, Path};
use std::alloc::Global;

/// The result of a function that appends to the text.
pub(crate) type Pushed = Result<(), NoMemory>;

// A space and a number.
pub(crate) fn push_number(text: &mut String, number: u64) -> Pushed
    ensures { OnOk result (string_bytes text.new ≡ string_bytes text.old ++ spec.number number) }
{
    write!(text, " {number}")?;
    Ok(())
}

// A word, a space and a number.
pub(crate) fn push_numbered(text: &mut String, word: &str, number: u64) -> Pushed
    ensures { OnOk result (string_bytes text.new ≡ string_bytes text.old ++ (word.now ++ spec.number number)) }
{
    text.push_str(word)?;
    push_number(text, number)
}

// A space and a JSON text of these words.
pub(crate) fn push_quoted(alloc: Global, text: &mut String, words: &str) -> Pushed
    ensures { OnOk result (string_bytes text.new ≡ string_bytes text.old ++ (32 ∷ quoted words.now)) }
{
    text.push(' ')?;
    push_string(alloc, text, words)
}

// A space and the text of a path.
pub(crate) fn push_path(alloc: Global, text: &mut String, schema: &Schema, path: &Path) -> Pushed
    ensures { OnOk result (string_bytes text.new ≡ string_bytes text.old ++ spec.path_text schema.now path.now) }
{
    let path = write_path(alloc, schema, path)?;
    push_quoted(alloc, text, path.as_str())
}

// The text of a path, as a JSON text.
pub(crate) fn push_location(
    alloc: Global,
    text: &mut String,
    schema: &Schema,
    path: &Path,
) -> Pushed
    ensures { OnOk result (string_bytes text.new ≡ string_bytes text.old ++ quoted (written schema.now path.now)) }
{
    let path = write_path(alloc, schema, path)?;
    push_string(alloc, text, path.as_str())
}

// The rows at a path and below it, as JSON.
pub(crate) fn push_data(
    alloc: Global,
    text: &mut String,
    schema: &Schema,
    path: &Path,
    rows: &Rows,
) -> Pushed
    ensures { OnOk result (string_bytes text.new ≡ string_bytes text.old ++ compact_text (write_data schema.now path.now rows.now)) }
{
    let value = write_data(alloc, schema, path, rows)?;
    push_value(alloc, text, &value)
}
