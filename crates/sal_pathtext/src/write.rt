//! Texts of paths.
ghost use Rattle.std.specs.Prelude.{◌≡◌, ◌++◌, ◌==◌, None, string_bytes, IfOk, OnOk};
ghost use Rattle.sal_schema.specs.Table.{keys_of};
ghost use Rattle.sal_pathtext.specs.Written as spec;

use crate::nodes::value_text;
use crate::words::place_of;
use sal_schema::Schema;
use sal_schema::lookups::{keys_at, name_at, own_module, push_full_name};
use sal_types::{NoMemory, Path, Step, Str, Value, front, has_byte, tail};
use std::alloc::{AllocError, Global};

/// Appends the text with each single quote twice.
fn push_doubled(out: &mut String, text: &str) -> Result<(), AllocError>
    ensures { OnOk result (string_bytes out.new ≡ string_bytes out.old ++ spec.doubled text.now) }
{
    let mut rest = text;
    'pieces: loop {
        let at = place_of(b'\'', rest.as_bytes());
        if at >= rest.len() {
            out.push_str(rest)?;
            return Ok(());
        }
        out.push_str(front(rest, at))?;
        out.push_str("''")?;
        rest = tail(rest, at + 1);
    }
}

/// Appends the text in quotes.
fn push_quoted(out: &mut String, text: &str) -> Result<(), AllocError>
    ensures { OnOk result (string_bytes out.new ≡ string_bytes out.old ++ spec.in_quotes text.now) }
{
    if !has_byte(b'\'', text.as_bytes()) {
        out.push('\'')?;
        out.push_str(text)?;
        return out.push('\'');
    }
    if !has_byte(b'"', text.as_bytes()) {
        out.push('"')?;
        out.push_str(text)?;
        return out.push('"');
    }
    out.push('\'')?;
    push_doubled(out, text)?;
    out.push('\'')
}

/// Appends the name of a node below another, or at the top.
fn push_name(
    out: &mut String,
    schema: &Schema,
    parent: Option<u32>,
    node: u32,
) -> Result<(), AllocError>
    ensures { OnOk result (string_bytes out.new ≡ string_bytes out.old ++ spec.name_text schema.now parent node) }
{
    match parent {
        Some(parent) if own_module(schema, node) == own_module(schema, parent) => {
            out.push_str(name_at(schema, node))
        }
        _ => push_full_name(out, schema, node),
    }
}

/// Appends a value in a predicate, and the predicate's end.
fn push_value(
    alloc: Global,
    out: &mut String,
    schema: &Schema,
    leaf: u32,
    value: &Value,
) -> Result<(), NoMemory>
    ensures { OnOk result (string_bytes out.new ≡ string_bytes out.old ++ spec.said_text schema.now leaf value.now) }
{
    let text = value_text(alloc, schema, leaf, value)?;
    out.push('=')?;
    push_quoted(out, text.as_str())?;
    out.push(']')?;
    Ok(())
}

/// Appends the predicate of a key.
fn push_key(
    alloc: Global,
    out: &mut String,
    schema: &Schema,
    node: u32,
    leaf: u32,
    value: &Value,
) -> Result<(), NoMemory>
    ensures { OnOk result (string_bytes out.new ≡ string_bytes out.old ++ spec.key_text schema.now node leaf value.now) }
{
    out.push('[')?;
    push_name(out, schema, Some(node), leaf)?;
    push_value(alloc, out, schema, leaf, value)
}

/// Appends a predicate for each key, in order.
fn push_keys(
    alloc: Global,
    out: &mut String,
    schema: &Schema,
    node: u32,
    values: &[Value],
) -> Result<(), NoMemory>
    ensures { OnOk result (string_bytes out.new ≡ string_bytes out.old ++ spec.keys_text schema.now node (keys_of schema.now node) values.now) }
{
    let keys = keys_at(schema, node);
    for i in 0..keys.len() {
        if i >= values.len() {
            return Ok(());
        }
        push_key(alloc, out, schema, node, keys[i], &values[i])?;
    }
    Ok(())
}

/// Appends the predicate of a leaf-list entry.
fn push_item(
    alloc: Global,
    out: &mut String,
    schema: &Schema,
    node: u32,
    value: &Value,
) -> Result<(), NoMemory>
    ensures { OnOk result (string_bytes out.new ≡ string_bytes out.old ++ spec.item_text schema.now node value.now) }
{
    out.push('[')?;
    out.push('.')?;
    push_value(alloc, out, schema, node, value)
}

/// Appends a step below a node, or at the top.
fn push_step(
    alloc: Global,
    out: &mut String,
    schema: &Schema,
    here: Option<u32>,
    step: &Step,
) -> Result<(), NoMemory>
    ensures { OnOk result (string_bytes out.new ≡ string_bytes out.old ++ spec.step_text schema.now here step.now) }
{
    match (step, here) {
        (Step::Node(node), _) => {
            out.push('/')?;
            push_name(out, schema, here, *node)?;
            Ok(())
        }
        (Step::Key(values), Some(node)) => push_keys(
            alloc,
            out,
            schema,
            node,
            values.value().items(),
        ),
        (Step::Item(value), Some(node)) => push_item(alloc, out, schema, node, value.value()),
        _ => Ok(()),
    }
}

/// The parent of the next step.
fn behind(here: Option<u32>, step: &Step) -> Option<u32>
    ensures { result ≡ spec.behind here step.now }
{
    match step {
        Step::Node(node) => Some(*node),
        _ => here,
    }
}

fn push_steps(
    alloc: Global,
    out: &mut String,
    schema: &Schema,
    steps: &[Step],
) -> Result<(), NoMemory>
    ensures { OnOk result (string_bytes out.new ≡ string_bytes out.old ++ spec.steps_text schema.now None steps.now) }
{
    let mut here = None;
    for step in steps {
        push_step(alloc, out, schema, here, step)?;
        here = behind(here, step);
    }
    Ok(())
}

/// The text of a path that fits the schema, with the keys of an entry in their order and no blanks. It takes time and memory
/// linear in the text.
pub fn write_path(alloc: Global, schema: &Schema, path: &Path) -> Result<Str, NoMemory>
    ensures { IfOk result (λ text. text ≡ spec.written schema.now path.now) }
{
    let mut out = String::new(alloc);
    if path.steps().is_empty() {
        out.push('/')?;
    } else {
        push_steps(alloc, &mut out, schema, path.steps())?;
    }
    Ok(Str::from_string(out))
}
