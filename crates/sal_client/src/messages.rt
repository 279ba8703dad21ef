//! RPCs and notifications by their names, and the data of their messages. All are of the controller's own domain.
ghost use Rattle.std.specs.Prelude.{◌≡◌, IfOk, Some, slice_get, unwrap_or};
ghost use Rattle.serde_json.specs.View.{view};
ghost use Rattle.sal_schema.specs.Table.{children_of};
ghost use Rattle.sal_script.specs.Messages as spec;
ghost use Rattle.sal_script.specs.Services.{context_of, if_known, path_of, rows_of};
ghost use Rattle.sal_client.specs.Asked.{IsService};
ghost use Rattle.sal_client.specs.Faults.{Reads};

use crate::fault::StepFault;
use crate::operations;
use crate::reader::Reader;
use sal_rows::Rows;
use sal_schema::Schema;
use sal_script::StepRefusal;
use sal_types::{NoMemory, Path, PathFault, Step, Str};
use serde_json::Value;
use std::alloc::Global;
use std::snapshot::Snapshot;

/// An RPC in a context, or without one, with the texts from which they were read. Only contracts use the texts.
#[derive(Drop)]
pub struct Service {
    pub name: Snapshot<Str>,
    pub text: Snapshot<Option<Str>>,
    pub rpc: u32,
    pub context: Option<Path>,
}

// The RPC of this name, which has its module.
fn rpc_called(schema: &Schema, name: &str) -> Option<u32>
    ensures { result ≡ spec.rpc_called schema.now name.now }
{
    match name.split_once(':') {
        Some((module, own)) => schema.rpc(module, own),
        None => None,
    }
}

// The notification of this name, which has its module.
fn note_called(schema: &Schema, name: &str) -> Option<u32>
    ensures { result ≡ spec.note_called schema.now name.now }
{
    match name.split_once(':') {
        Some((module, own)) => schema.notification(module, own),
        None => None,
    }
}

// The node of an RPC or of a notification, or why there is none.
fn known(found: Option<u32>) -> Result<u32, StepFault>
    ensures { Reads result (if_known found) }
{
    match found {
        Some(node) => Ok(node),
        None => Err(StepFault::Refused(StepRefusal::UnknownName)),
    }
}

// The RPC of this name, or why there is none.
fn rpc_of(schema: &Schema, name: &Str) -> Result<u32, StepFault>
    ensures { Reads result (if_known (spec.rpc_called schema.now name.now)) }
{
    known(rpc_called(schema, name.as_str()))
}

/// The notification of this name, or why there is none.
pub(crate) fn note_of(schema: &Schema, name: &Str) -> Result<u32, StepFault>
    ensures { Reads result (if_known (spec.note_called schema.now name.now)) }
{
    known(note_called(schema, name.as_str()))
}

// The child of the RPC at the index, or the RPC itself if it has no such child.
fn child_at(schema: &Schema, rpc: u32, index: usize) -> u32
    ensures { result ≡ unwrap_or (slice_get (children_of schema.now (Some rpc)) index) rpc }
{
    if rpc >= schema.len() {
        return rpc;
    }
    match schema.children(Some(rpc)).get(index) {
        Some(child) => *child,
        None => rpc,
    }
}

/// The input of the RPC.
pub(crate) fn input_of(schema: &Schema, rpc: u32) -> u32
    ensures { result ≡ spec.input_of schema.now rpc }
{
    child_at(schema, rpc, 0)
}

/// The output of the RPC.
pub(crate) fn output_of(schema: &Schema, rpc: u32) -> u32
    ensures { result ≡ spec.output_of schema.now rpc }
{
    child_at(schema, rpc, 1)
}

// The path above the data of this input, output or notification.
fn message_at(alloc: Global, node: u32) -> Result<Path, NoMemory>
    ensures { IfOk result (λ path. path ≡ spec.message_at node) }
{
    let mut path = Path::root(alloc);
    match path.push(Step::Node(node)) {
        Ok(()) => Ok(path),
        Err(PathFault::NoMemory) => Err(NoMemory),
        Err(PathFault::TooDeep) => unreachable!(),
    }
}

/// The rows that the value denotes below this input, output or notification, or why it denotes none.
pub(crate) fn rows_under(
    alloc: Global,
    reader: &Reader,
    node: u32,
    value: &Value,
) -> Result<Rows, StepFault>
    ensures { Reads result (rows_of reader.now node (view value.now)) }
{
    let path = message_at(alloc, node)?;
    operations::rows_of(alloc, reader, 0, &path, value)
}

/// The path that the text denotes, or why it denotes none.
pub(crate) fn path_at(alloc: Global, reader: &Reader, text: &Str) -> Result<Path, StepFault>
    ensures { Reads result (path_of reader.now text.now) }
{
    operations::path_of(alloc, reader, text.as_str())
}

// The context of an RPC, if it is given, or why the text is not a path.
fn context_of(
    alloc: Global,
    reader: &Reader,
    context: &Option<Str>,
) -> Result<Option<Path>, StepFault>
    ensures { Reads result (context_of reader.now context.now) }
{
    match context {
        None => Ok(None),
        Some(text) => {
            let path = path_at(alloc, reader, text)?;
            Ok(Some(path))
        }
    }
}

/// The RPC of this name in the context of the text, or why there is none.
pub(crate) fn service_of(
    alloc: Global,
    reader: &Reader,
    name: &Str,
    text: &Option<Str>,
) -> Result<Service, StepFault>
    ensures { IsService reader.now name.now text.now result }
{
    let rpc = rpc_of(reader.schema(), name)?;
    let context = context_of(alloc, reader, text)?;
    Ok(Service {
        name: Snapshot::of(name),
        text: Snapshot::of(text),
        rpc,
        context,
    })
}
