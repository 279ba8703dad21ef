//! The texts of services' replies: requests and their outputs, notifications, mounts. Each function appends to
//! the text.
ghost use Rattle.std.specs.Prelude.{◌≡◌, [], ◌∷◌, ◌++◌, IfOk, OnOk, Some, codes, string_bytes};
ghost use Rattle.std.specs.List.{slice_get};
ghost use Rattle.serde_json.specs.Data.{string};
ghost use Rattle.serde_json.specs.Written.{compact_text};
ghost use Rattle.sal_types.specs.declared.value.Step.TheVariants.{Node};
ghost use Rattle.sal_schema.specs.Table.{children_of};
ghost use Rattle.sal_script.specs.MessageData.{message_data, node_text, note_data, notes_data};
ghost use Rattle.sal_script.specs.Messages.{input_of, output_of};
ghost use Rattle.sal_script.specs.Report as spec;

use crate::arrays::{Item, push_array};
use crate::breaches::push_node;
use crate::pieces::{Pushed, push_data, push_numbered, push_path};
use sal_note::Note;
use sal_rows::Rows;
use sal_rpc::Request;
use sal_schema::Schema;
use sal_tree_text::push_string;
use sal_types::{NoMemory, Path, PathFault, Step, push_word};
use std::alloc::Global;

// The domain that is mounted at a path, if any.
pub(crate) fn push_mount(text: &mut String, mount: Option<u32>) -> Pushed
    ensures { OnOk result (string_bytes text.new ≡ string_bytes text.old ++ spec.mount_text mount) }
{
    match mount {
        Some(domain) => push_numbered(text, "mount", u64::from(domain)),
        None => push_word(text, "none"),
    }
}

// ---- RPCs

// A request with its input.
pub(crate) fn push_request(
    alloc: Global,
    text: &mut String,
    schema: &Schema,
    request: &Request,
) -> Pushed
    ensures { OnOk result (string_bytes text.new ≡ string_bytes text.old ++ spec.request_text schema.now request.now) }
{
    push_numbered(text, "request", request.id)?;
    text.push(' ')?;
    push_node(text, schema, request.rpc)?;
    push_context(alloc, text, schema, &request.context)?;
    text.push(' ')?;
    let input = input_of(schema, request.rpc);
    push_message(alloc, text, schema, input, &request.input)
}

// The output of a request.
pub(crate) fn push_output(
    alloc: Global,
    text: &mut String,
    schema: &Schema,
    rpc: u32,
    rows: &Rows,
) -> Pushed
    ensures { OnOk result (string_bytes text.new ≡ string_bytes text.old ++ spec.output_text schema.now rpc rows.now) }
{
    text.push_str("output ")?;
    let output = output_of(schema, rpc);
    push_message(alloc, text, schema, output, rows)
}

// A space, and the path of a context or a dash.
fn push_context(alloc: Global, text: &mut String, schema: &Schema, context: &Option<Path>) -> Pushed
    ensures { OnOk result (string_bytes text.new ≡ string_bytes text.old ++ spec.context_text schema.now context.now) }
{
    match context {
        None => push_word(text, " -"),
        Some(path) => push_path(alloc, text, schema, path),
    }
}

fn input_of(schema: &Schema, rpc: u32) -> u32
    ensures { result ≡ input_of schema.now rpc }
{
    child_at(schema, rpc, 0).unwrap_or(rpc)
}

fn output_of(schema: &Schema, rpc: u32) -> u32
    ensures { result ≡ output_of schema.now rpc }
{
    child_at(schema, rpc, 1).unwrap_or(rpc)
}

// The child of a node at this index among its children.
fn child_at(schema: &Schema, node: u32, place: usize) -> Option<u32>
    ensures { result ≡ slice_get (children_of schema.now (Some node)) place }
{
    if node >= schema.len() {
        return None;
    }
    number_at(schema.children(Some(node)), place)
}

fn number_at(numbers: &[u32], place: usize) -> Option<u32>
    ensures { result ≡ slice_get numbers.now place }
{
    numbers.get(place).copied()
}

// ---- data

// The rows below an input, an output or a notification.
fn push_message(alloc: Global, text: &mut String, schema: &Schema, node: u32, rows: &Rows) -> Pushed
    ensures { OnOk result (string_bytes text.new ≡ string_bytes text.old ++ compact_text (message_data schema.now node rows.now)) }
{
    let path = top_path(alloc, node)?;
    push_data(alloc, text, schema, &path, rows)
}

// The path whose one step names the node.
fn top_path(alloc: Global, node: u32) -> Result<Path, NoMemory>
    ensures { IfOk result (λ path. path ≡ Node node ∷ []) }
{
    let mut path = Path::root(alloc);
    match path.push(Step::Node(node)) {
        Ok(()) => Ok(path),
        Err(PathFault::NoMemory) => Err(NoMemory),
        Err(PathFault::TooDeep) => unreachable!(),
    }
}

// ---- notifications

// The notifications that waited for a client.
pub(crate) fn push_notes(
    alloc: Global,
    text: &mut String,
    schema: &Schema,
    notes: &[Note],
) -> Pushed
    ensures { OnOk result (string_bytes text.new ≡ string_bytes text.old ++ (codes "notes " ++ compact_text (notes_data schema.now notes.now))) }
{
    text.push_str("notes ")?;
    push_array(alloc, text, schema, notes)
}

// The name of a notification, and its data.
impl Item for Note {
    ghost json = { note_data };

    fn push_item(&self, alloc: Global, text: &mut String, schema: &Schema) -> Pushed {
        text.push('[')?;
        push_name(alloc, text, schema, self.note)?;
        text.push(',')?;
        push_message(alloc, text, schema, self.note, &self.rows)?;
        push_word(text, "]")
    }
}

// The name of a node with that of its module, as a JSON text.
fn push_name(alloc: Global, text: &mut String, schema: &Schema, node: u32) -> Pushed
    ensures { OnOk result (string_bytes text.new ≡ string_bytes text.old ++ compact_text (string (node_text schema.now node))) }
{
    let mut name = String::new(alloc);
    push_node(&mut name, schema, node)?;
    push_string(alloc, text, name.as_str())
}
