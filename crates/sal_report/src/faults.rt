//! Faults of path texts, of data and of writes, as text.
ghost use Rattle.std.specs.Prelude.{◌≡◌, ◌∷◌, ◌++◌, IfOk, OnOk, string_bytes};
ghost use Rattle.json.specs.Print.{quoted};
ghost use Rattle.sal_script.specs.Report as spec;

use crate::pieces::{Pushed, push_numbered, push_path, push_quoted};
use crate::words::scalar_word;
use sal_data::DataFault;
use sal_json::ScalarFault;
use sal_pathtext::PathTextFault;
use sal_rules::TxFault;
use sal_schema::Schema;
use sal_types::{NoMemory, Path, Str, push_word};
use std::alloc::Global;

/// Why a value is not data of the schema: a word, the path of the place as a JSON text, and then the name or the fault of
/// the value, if there is one. It fails only if memory runs out.
pub fn data_fault_text(alloc: Global, schema: &Schema, fault: &DataFault) -> Result<Str, NoMemory>
    ensures { IfOk result (λ text. text ≡ spec.data_fault_text schema.now fault.now) }
{
    let mut text = String::new(alloc);
    push_data_fault(alloc, &mut text, schema, fault)?;
    Ok(Str::from_string(text))
}

pub(crate) fn push_path_fault(text: &mut String, fault: PathTextFault) -> Pushed
    ensures { OnOk result (string_bytes text.new ≡ string_bytes text.old ++ spec.path_fault_text fault) }
{
    match fault {
        PathTextFault::BadText { at } => push_numbered(text, "bad-text", at as u64),
        PathTextFault::UnknownNode { at } => push_numbered(text, "unknown-node", at as u64),
        PathTextFault::BadPredicate { at } => push_numbered(text, "bad-predicate", at as u64),
        PathTextFault::TooDeep => push_word(text, "too-deep"),
        PathTextFault::NoMemory => push_word(text, "no-memory"),
    }
}

pub(crate) fn push_data_fault(
    alloc: Global,
    text: &mut String,
    schema: &Schema,
    fault: &DataFault,
) -> Pushed
    ensures { OnOk result (string_bytes text.new ≡ string_bytes text.old ++ spec.data_fault_text schema.now fault.now) }
{
    match fault {
        DataFault::UnknownMember { path, name } => {
            push_named(alloc, text, schema, "unknown-member", path, name)
        }
        DataFault::NeedsModule { path, name } => {
            push_named(alloc, text, schema, "needs-module", path, name)
        }
        DataFault::WrongShape { path } => push_place(alloc, text, schema, "wrong-shape", path),
        DataFault::MissingKey { path } => push_place(alloc, text, schema, "missing-key", path),
        DataFault::KeyDiffers { path } => push_place(alloc, text, schema, "key-differs", path),
        DataFault::DoubleEntry { path } => push_place(alloc, text, schema, "double-entry", path),
        DataFault::BadScalar { path, fault } => {
            push_place(alloc, text, schema, "bad-scalar", path)?;
            push_scalar_fault(text, *fault)
        }
        DataFault::TooDeep { path } => push_place(alloc, text, schema, "too-deep", path),
        DataFault::NoMemory => push_word(text, "no-memory"),
    }
}

pub(crate) fn push_tx_fault(
    alloc: Global,
    text: &mut String,
    schema: &Schema,
    fault: &TxFault,
) -> Pushed
    ensures { OnOk result (string_bytes text.new ≡ string_bytes text.old ++ spec.tx_fault_text schema.now fault.now) }
{
    match fault {
        TxFault::WriteOnly => push_word(text, "write-only"),
        TxFault::NotConfig { path } => push_place(alloc, text, schema, "not-config", path),
        TxFault::KeyLeaf { path } => push_place(alloc, text, schema, "key-leaf", path),
        TxFault::ParentMissing { path } => push_place(alloc, text, schema, "parent-missing", path),
        TxFault::RootPath => push_word(text, "root-path"),
        TxFault::NoMemory => push_word(text, "no-memory"),
    }
}

// A word and the path of a place.
fn push_place(alloc: Global, text: &mut String, schema: &Schema, word: &str, path: &Path) -> Pushed
    ensures { OnOk result (string_bytes text.new ≡ string_bytes text.old ++ (word.now ++ spec.path_text schema.now path.now)) }
{
    text.push_str(word)?;
    push_path(alloc, text, schema, path)
}

// A word, the path of a place and the name of a member.
fn push_named(
    alloc: Global,
    text: &mut String,
    schema: &Schema,
    word: &str,
    path: &Path,
    name: &Str,
) -> Pushed
    ensures { OnOk result (string_bytes text.new ≡ string_bytes text.old ++ (word.now ++ (spec.path_text schema.now path.now ++ (32 ∷ quoted name.now)))) }
{
    push_place(alloc, text, schema, word, path)?;
    push_quoted(alloc, text, name.as_str())
}

// A space and why a value is not of its type.
fn push_scalar_fault(text: &mut String, fault: ScalarFault) -> Pushed
    ensures { OnOk result (string_bytes text.new ≡ string_bytes text.old ++ (32 ∷ spec.scalar_text fault)) }
{
    text.push(' ')?;
    push_word(text, scalar_word(fault))
}
