//! Operations of writes, read from texts and JSON values.
ghost use Rattle.std.specs.Prelude.{◌≡◌};
ghost use Rattle.serde_json.specs.View.{view};
ghost use Rattle.sal_pathtext.specs.Read.{read_path};
ghost use Rattle.sal_data.specs.Read.{read_data};
ghost use Rattle.sal_script.specs.Play.{act_of};
ghost use Rattle.sal_script.specs.Services.{path_or};
ghost use Rattle.sal_client.specs.Faults.{Reads};
ghost use Rattle.sal_client.specs.Operations as spec;

use crate::fault::StepFault;
use crate::reader::Reader;
use sal_data::DataFault;
use sal_pathtext::PathTextFault;
use sal_rows::{Act, Op, Rows};
use sal_script::StepRefusal;
use sal_types::{Path, Store, Str};
use serde_json::Value;
use std::alloc::Global;

/// The act of a write, with a value that is not yet read.
#[derive(Clone, Copy)]
pub(crate) enum JsonAct<'a> {
    Put(&'a Value),
    Merge(&'a Value),
    Delete,
}

/// A place that is not yet read: the slot of a transaction, a store, and the text of a path in it.
#[derive(Clone, Copy)]
pub(crate) struct Place<'a> {
    pub(crate) slot: u8,
    pub(crate) store: Store,
    pub(crate) text: &'a str,
}

/// The place that a step names.
pub(crate) fn place_at(slot: u8, store: Store, path: &Str) -> Place<'_>
    ensures { (result.slot ≡ slot) × (result.store ≡ store) × (result.text.now ≡ path.now) }
{
    Place {
        slot,
        store,
        text: path.as_str(),
    }
}

/// The path of the text, or why it is not one.
pub(crate) fn path_of(alloc: Global, reader: &Reader, text: &str) -> Result<Path, StepFault>
    ensures { Reads result (path_or (read_path reader.now text.now)) }
{
    match reader.path(alloc, text) {
        Ok(path) => Ok(path),
        Err(PathTextFault::NoMemory) => Err(StepFault::NoMemory),
        Err(fault) => Err(StepFault::Refused(StepRefusal::BadPath { fault })),
    }
}

/// The rows of the value at the path of the domain, or why it has none.
pub(crate) fn rows_of(
    alloc: Global,
    reader: &Reader,
    domain: u32,
    path: &Path,
    value: &Value,
) -> Result<Rows, StepFault>
    ensures { Reads result (spec.good_data domain (read_data reader.now path.now (view value.now))) }
{
    match reader.data(alloc, path, value) {
        Ok(rows) => Ok(rows),
        Err(DataFault::NoMemory) => Err(StepFault::NoMemory),
        Err(fault) => Err(StepFault::Refused(StepRefusal::BadData { domain, fault })),
    }
}

// The act at the path of the domain, or why there is none.
fn act_of(
    alloc: Global,
    reader: &Reader,
    domain: u32,
    path: &Path,
    act: JsonAct,
) -> Result<Act, StepFault>
    ensures { Reads result (spec.good_data domain (act_of reader.now path.now (spec.data_act_of act.entry))) }
{
    match act {
        JsonAct::Put(value) => {
            let rows = rows_of(alloc, reader, domain, path, value)?;
            Ok(Act::Put(rows))
        }
        JsonAct::Merge(value) => {
            let rows = rows_of(alloc, reader, domain, path, value)?;
            Ok(Act::Merge(rows))
        }
        JsonAct::Delete => Ok(Act::Delete),
    }
}

/// The operation at the place, which the reader of its domain reads, or why there is none.
pub(crate) fn op_of(
    alloc: Global,
    reader: &Reader,
    domain: u32,
    place: Place,
    act: JsonAct,
) -> Result<Op, StepFault>
    ensures { Reads result (spec.op_by reader.now domain place.entry.store (spec.data_act_of act.entry) (read_path reader.now place.entry.text.now)) }
{
    let path = path_of(alloc, reader, place.text)?;
    let act = act_of(alloc, reader, domain, &path, act)?;
    Ok(Op {
        store: place.store,
        path,
        act,
    })
}
