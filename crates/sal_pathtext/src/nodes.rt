//! The nodes of names, and which values identify the entries of lists and leaf-lists.
ghost use Rattle.std.specs.Prelude.{◌≡◌, option_map, find, IfOk};
ghost use Rattle.std.specs.List.{list_any};
ghost use Rattle.sal_types.specs.Reading.{GivesUnless};
ghost use Rattle.sal_schema.specs.Table as table;
ghost use Rattle.sal_json.specs.Patterns.{patterns_of};
ghost use Rattle.sal_pathtext.specs.Nodes as spec;

use crate::given::Given;
use sal_json::{Patterns, ScalarFault, read_text, write_text};
use sal_schema::Schema;
use sal_schema::lookups::{is_leaf_list, keys_at, module_at, own_module, type_at};
use sal_types::{Duplicate, Keys, NoMemory, Seq, Shared, Step, Str, Value};
use std::alloc::Global;

/// The data node of a name, below a node or at the top.
pub(crate) fn meant(
    schema: &Schema,
    parent: Option<u32>,
    module: Option<&str>,
    name: &str,
) -> Option<u32>
    ensures { result ≡ spec.meant schema.now parent (option_map (λ m. m.now) «module».entry, name.now) }
{
    match (parent, module) {
        (None, None) => None,
        (None, Some(module)) => schema.child(None, module, name),
        (Some(node), None) => schema.child(parent, own_module(schema, node), name),
        (Some(node), Some(module)) => {
            if module == own_module(schema, node) {
                None
            } else {
                schema.child(parent, module, name)
            }
        }
    }
}

/// The node of `.` in a predicate of this node.
pub(crate) fn dot_meant(schema: &Schema, node: u32) -> Option<u32>
    ensures { result ≡ spec.dot_meant schema.now node }
{
    if is_leaf_list(schema, node) {
        Some(node)
    } else {
        None
    }
}

fn is_among(number: u32, numbers: &[u32]) -> bool
    ensures { result ≡ table.is_among number numbers.now }
{
    numbers.iter().any(|other| *other == number)
}

/// The key of this list with this name.
pub(crate) fn key_meant(schema: &Schema, node: u32, module: Option<&str>, name: &str) -> Option<u32>
    ensures { result ≡ spec.key_meant schema.now node (option_map (λ m. m.now) «module».entry, name.now) }
{
    match meant(schema, Some(node), module, name) {
        Some(leaf) if is_among(leaf, keys_at(schema, node)) => Some(leaf),
        _ => None,
    }
}

fn is_given(given: &[Given], leaf: u32) -> bool
    ensures { result ≡ list_any (spec.is_for leaf) given.now }
{
    given.iter().any(|one| one.leaf == leaf)
}

/// The leaf, if no predicate has given it a value before.
pub(crate) fn not_given(given: &[Given], leaf: Option<u32>) -> Option<u32>
    ensures { result ≡ spec.not_given given.now leaf }
{
    match leaf {
        Some(leaf) if !is_given(given, leaf) => Some(leaf),
        _ => None,
    }
}

fn find_given(given: &[Given], leaf: u32) -> Option<&Given>
    ensures { option_map (λ one. one.now) result ≡ find (spec.is_for leaf) given.now }
{
    given.iter().find(|one| one.leaf == leaf)
}

fn value_given(given: &[Given], leaf: u32) -> Option<&Value>
    ensures { option_map (λ value. value.now) result ≡ spec.value_given given.now leaf }
{
    match find_given(given, leaf) {
        Some(one) => Some(&one.value),
        None => None,
    }
}

/// The values of the keys, in order, if each has one.
fn values_given(alloc: Global, given: &[Given], keys: &[u32]) -> Result<Option<Keys>, NoMemory>
    ensures { IfOk result (λ values. values ≡ spec.values_given given.now keys.now) }
{
    let mut values = Vec::with_capacity(alloc, keys.len())?;
    for key in keys {
        match value_given(given, *key) {
            Some(value) => values.push(value.copy()?)?,
            None => return Ok(None),
        }
    }
    Ok(Some(Shared::new(alloc, Seq::from_items(values))?))
}

/// The step to the entry with these values, unless one is missing.
pub(crate) fn entry_given(
    alloc: Global,
    schema: &Schema,
    node: u32,
    given: &[Given],
) -> Result<Option<Step>, NoMemory>
    ensures { IfOk result (λ step. step ≡ spec.entry_given schema.now node given.now) }
{
    if is_leaf_list(schema, node) {
        return match value_given(given, node) {
            Some(value) => Ok(Some(Step::Item(Shared::new(alloc, value.copy()?)?))),
            None => Ok(None),
        };
    }
    match values_given(alloc, given, keys_at(schema, node))? {
        Some(values) => Ok(Some(Step::Key(values))),
        None => Ok(None),
    }
}

/// The value of a leaf or leaf-list that a text denotes.
pub(crate) fn value_of(
    alloc: Global,
    schema: &Schema,
    patterns: &Patterns,
    leaf: u32,
    text: &str,
) -> Result<Value, ScalarFault>
    requires { patterns.now ≡ patterns_of schema.now }
    ensures { GivesUnless ScalarFault.NoMemory (λ value. value) result (spec.value_of schema.now leaf text.now) }
{
    let Some(module) = module_at(schema, leaf) else {
        return Err(ScalarFault::WrongKind);
    };
    let Some(ty) = type_at(schema, leaf) else {
        return Err(ScalarFault::WrongKind);
    };
    read_text(alloc, schema, patterns, ty, module, text)
}

/// The text of a value of a leaf or leaf-list.
pub(crate) fn value_text(
    alloc: Global,
    schema: &Schema,
    leaf: u32,
    value: &Value,
) -> Result<Str, NoMemory>
    ensures { IfOk result (λ text. text ≡ spec.value_text schema.now leaf value.now) }
{
    let Some(module) = module_at(schema, leaf) else {
        return Str::new(alloc, "");
    };
    let Some(ty) = type_at(schema, leaf) else {
        return Str::new(alloc, "");
    };
    write_text(alloc, schema, ty, module, value)
}
