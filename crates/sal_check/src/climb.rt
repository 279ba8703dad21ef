//! The context and data parent of a node in the schema tree.
ghost use Rattle.std.specs.Prelude.{◌≡◌, ◌<◌, ◌∷◌, length, IfSome, IfOk, OnOk, Some, if◌then◌else◌};
ghost use Rattle.sal_types.specs.declared.value.Step.TheVariants.{Node};
ghost use Rattle.sal_schema.specs.Kinds as kinds;
ghost use Rattle.sal_schema.specs.Table.{data_node};
ghost use Rattle.sal_rules.specs.Contexts as spec;

use sal_schema::{Kind, Schema};
use sal_types::{NoMemory, Step};
use std::alloc::Global;

// A container that is present exactly if it has data.
fn is_plain(kind: Kind) -> bool
    ensures { result ≡ spec.is_plain kind }
{
    match kind {
        Kind::Container { presence } => !presence,
        _ => false,
    }
}

/// The closest ancestor of a node that is not a non-presence container.
pub(crate) fn context(schema: &Schema, node: u32) -> Option<u32>
    requires { node < length schema.now.nodes }
    ensures value { result ≡ spec.context schema.now node }
    ensures within { IfSome result (λ c. c < length schema.now.nodes) }
{
    let mut here = schema.parent(node);
    for done in 0..schema.len() {
        match here {
            None => return None,
            Some(above) => {
                if !is_plain(schema.kind(above)) {
                    return here;
                }
                here = schema.parent(above);
            }
        }
    }
    None
}

// The data parent of the children of this node.
fn data_node(schema: &Schema, node: u32) -> Option<u32>
    requires { node < length schema.now.nodes }
    ensures { result ≡ data_node schema.now (Some node) }
{
    // For the proof alone: `len` says that a schema has a table that may be one.
    let _ = schema.len();
    if schema.kind(node).is_choice_or_case() {
        schema.data_parent(node)
    } else {
        Some(node)
    }
}

/// The data node that the context of a node is, or the data parent of the nodes of a case: none at the root.
pub(crate) fn stand(schema: &Schema, node: u32) -> Option<u32>
    requires { node < length schema.now.nodes }
    ensures { result ≡ spec.stand schema.now node }
{
    match context(schema, node) {
        None => None,
        Some(context) => data_node(schema, context),
    }
}

/// The steps from the context of a node down to its data parent.
pub(crate) fn way(alloc: Global, schema: &Schema, node: u32) -> Result<Vec<Step>, NoMemory>
    requires { node < length schema.now.nodes }
    ensures { IfOk result (λ steps. steps.items ≡ spec.way schema.now node) }
{
    let mut steps = Vec::new(alloc);
    let mut here = schema.parent(node);
    for done in 0..schema.len() {
        match here {
            None => return Ok(steps),
            Some(above) => {
                if !is_plain(schema.kind(above)) {
                    return Ok(steps);
                }
                steps.insert(0, Step::Node(above))?;
                here = schema.parent(above);
            }
        }
    }
    Ok(steps)
}

fn is_list(kind: Kind) -> bool
    ensures { result ≡ kinds.is_list kind }
{
    kind == Kind::List
}

// A step to the node before the others, unless it is a choice or a case.
fn add_data(steps: &mut Vec<Step>, kind: Kind, node: u32) -> Result<(), NoMemory>
    ensures { OnOk result (steps.new.items ≡ (if kinds.is_data kind then Node node ∷ steps.old.items else steps.old.items)) }
{
    if kind.is_data() {
        steps.insert(0, Step::Node(node))?;
    }
    Ok(())
}

/// The steps from an entry of a list to a leaf below it.
pub(crate) fn way_in_entry(alloc: Global, schema: &Schema, leaf: u32) -> Result<Vec<Step>, NoMemory>
    ensures { IfOk result (λ steps. steps.items ≡ spec.way_in_entry schema.now leaf) }
{
    let mut steps = Vec::new(alloc);
    let mut here = Some(leaf);
    for done in 0..schema.len() {
        match here {
            None => return Ok(steps),
            Some(above) => {
                if above >= schema.len() {
                    return Ok(steps);
                }
                let kind = schema.kind(above);
                if is_list(kind) {
                    return Ok(steps);
                }
                add_data(&mut steps, kind, above)?;
                here = schema.parent(above);
            }
        }
    }
    Ok(steps)
}
