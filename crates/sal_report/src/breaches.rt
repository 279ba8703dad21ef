//! Structural rules that are broken, and paths, as text.
ghost use Rattle.std.specs.Prelude.{◌≡◌, ◌++◌, IfOk, OnOk, string_bytes};
ghost use Rattle.sal_script.specs.MessageData.{node_text};
ghost use Rattle.sal_script.specs.Report as spec;

use crate::pieces::{Pushed, push_path};
use sal_rows::{Breach, Rule};
use sal_schema::Schema;
use sal_types::{NoMemory, Path, Str, push_word};
use std::alloc::Global;

/// A space and a path as a JSON text. It fails only if memory runs out.
pub fn path_words(alloc: Global, schema: &Schema, path: &Path) -> Result<Str, NoMemory>
    ensures { IfOk result (λ text. text ≡ spec.path_text schema.now path.now) }
{
    let mut text = String::new(alloc);
    push_path(alloc, &mut text, schema, path)?;
    Ok(Str::from_string(text))
}

/// A space and where a rule is broken, as a JSON text, and after it which: its word, and the node that states it with its
/// module, as `max-elements shop:seen`. A number without a node gives empty names. It fails only if memory runs out.
pub fn breach_text(alloc: Global, schema: &Schema, breach: &Breach) -> Result<Str, NoMemory>
    ensures { IfOk result (λ text. text ≡ spec.breach_text schema.now breach.now.path breach.now.rule) }
{
    let mut text = String::new(alloc);
    push_breach(alloc, &mut text, schema, &breach.path, breach.rule)?;
    Ok(Str::from_string(text))
}

pub(crate) fn push_breach(
    alloc: Global,
    text: &mut String,
    schema: &Schema,
    path: &Path,
    rule: Rule,
) -> Pushed
    ensures { OnOk result (string_bytes text.new ≡ string_bytes text.old ++ spec.breach_text schema.now path.now rule) }
{
    push_path(alloc, text, schema, path)?;
    text.push(' ')?;
    push_rule(text, schema, rule)
}

fn push_rule(text: &mut String, schema: &Schema, rule: Rule) -> Pushed
    ensures { OnOk result (string_bytes text.new ≡ string_bytes text.old ++ spec.rule_text schema.now rule) }
{
    match rule {
        Rule::Mandatory(node) => push_named(text, schema, "mandatory ", node),
        Rule::MinElements(node) => push_named(text, schema, "min-elements ", node),
        Rule::MaxElements(node) => push_named(text, schema, "max-elements ", node),
        Rule::Unique(node) => push_named(text, schema, "unique ", node),
        Rule::TwoCases(node) => push_named(text, schema, "two-cases ", node),
    }
}

// A word and the name of a node with that of its module.
pub(crate) fn push_named(text: &mut String, schema: &Schema, word: &str, node: u32) -> Pushed
    ensures { OnOk result (string_bytes text.new ≡ string_bytes text.old ++ (word.now ++ node_text schema.now node)) }
{
    text.push_str(word)?;
    push_node(text, schema, node)
}

// The name of a node with that of its module.
pub(crate) fn push_node(text: &mut String, schema: &Schema, node: u32) -> Pushed
    ensures { OnOk result (string_bytes text.new ≡ string_bytes text.old ++ node_text schema.now node) }
{
    if node >= schema.len() {
        return push_word(text, ":");
    }
    text.push_str(schema.module_name(schema.module_of(node)))?;
    text.push(':')?;
    push_word(text, schema.name_of(node))
}
