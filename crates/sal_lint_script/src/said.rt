//! What is said of a script.
ghost use Rattle.std.specs.Prelude.{◌≡◌, ◌++◌, ◌∷◌, [], IfOk, slice_get};
ghost use Rattle.sal_lint.specs.Lines.{lines_of};
ghost use Rattle.sal_prepare.specs.Statuses.{line_of};
ghost use Rattle.sal_script.specs.Reading.{parts};
ghost use Rattle.sal_script.specs.Script as script_spec;
ghost use Rattle.sal_lint_script.specs.Linted as spec;

use crate::texts::texts_at;
use sal_lint::{ModuleText, Named, Place, named_in, push_fault, push_modules};
use sal_prepare::scripted::prepare;
use sal_prepare::status::Status;
use sal_script::{Script, ScriptFault, read_script};
use sal_types::{Bytes, NoMemory, Seq, Str};
use serde_json::Value;
use std::alloc::Global;

/// What is said of a script, and its status. `json` is the place at which the reader of JSON stopped, if it did.
#[derive(Drop)]
pub struct Linted {
    pub text: Bytes,
    pub status: Status,
    pub json: Place,
}

/// What is said of the script that the bytes denote.
pub fn lint(alloc: Global, bytes: &[u8]) -> Result<Linted, NoMemory>
    ensures text { IfOk result (λ it. it.text ≡ spec.lint_text it.json bytes.now) }
    ensures status { IfOk result (λ it. it.status ≡ spec.status_of bytes.now) }
    ensures end { IfOk result (λ it. spec.IsEnd it.status) }
{
    let status = status_of(alloc, bytes)?;
    let json = json_place(alloc, bytes, &status)?;
    said_of(alloc, bytes, json, status)
}

// The same with its status.
fn said_of(alloc: Global, bytes: &[u8], json: Place, status: Status) -> Result<Linted, NoMemory>
    ensures text { IfOk result (λ it. it.text ≡ spec.text_by json status (script_spec.script_of bytes.now)) }
    ensures status { IfOk result (λ it. it.status ≡ status) }
    ensures json { IfOk result (λ it. it.json ≡ json) }
{
    let text = text_by(alloc, bytes, json, &status)?;
    Ok(Linted { text, status, json })
}

// The status of the script: that of `run`, before a client runs.
fn status_of(alloc: Global, bytes: &[u8]) -> Result<Status, NoMemory>
    ensures status { IfOk result (λ status. status ≡ spec.status_of bytes.now) }
    ensures end { IfOk result (λ status. spec.IsEnd status) }
{
    match prepare(alloc, bytes) {
        Ok(_) => Ok(Status::Done),
        Err(Status::NoMemory) => Err(NoMemory),
        Err(status) => Ok(status),
    }
}

// The place at which the bytes are no longer JSON, as the reader of JSON says it.
fn json_place(alloc: Global, bytes: &[u8], status: &Status) -> Result<Place, NoMemory> {
    match status {
        Status::BadScript { .. } => stopped_at(alloc, bytes),
        _ => Ok(place(0, 0)),
    }
}

fn stopped_at(alloc: Global, bytes: &[u8]) -> Result<Place, NoMemory> {
    match Value::from_slice(alloc, bytes) {
        Ok(_) => Ok(place(0, 0)),
        Err(error) if error.is_memory() => Err(NoMemory),
        Err(error) => Ok(place(error.line() as u64, error.column() as u64)),
    }
}

fn place(line: u64, column: u64) -> Place {
    Place { line, column }
}

fn text_by(alloc: Global, bytes: &[u8], json: Place, status: &Status) -> Result<Bytes, NoMemory>
    ensures { IfOk result (λ text. text ≡ spec.text_by json status.now (script_spec.script_of bytes.now)) }
{
    match read_script(alloc, bytes) {
        Ok(script) => parts_text(alloc, &script, status),
        Err(ScriptFault::BadScript { place }) => unread_text(alloc, json, &place),
        Err(ScriptFault::NoMemory) => Err(NoMemory),
    }
}

// The text of bytes that are no script.
fn unread_text(alloc: Global, json: Place, place: &Str) -> Result<Bytes, NoMemory>
    ensures { IfOk result (λ text. text ≡ spec.unread_text json place.now) }
{
    let mut out = Vec::new(alloc);
    push_unread(&mut out, place)?;
    if place.as_str() == "json" {
        push_json(alloc, &mut out, json)?;
    }
    Ok(Seq::from_items(out))
}

// The line of the status.
fn push_unread(out: &mut Vec<u8>, place: &Str) -> Result<(), NoMemory>
    ensures { IfOk result (λ _. out.new.items ≡ out.old.items ++ line_of (Status.BadScript place.now)) }
{
    out.extend_from_slice(b"bad script at ")?;
    out.extend_from_slice(place.items())?;
    out.push(10)?;
    Ok(())
}

fn push_json(alloc: Global, out: &mut Vec<u8>, json: Place) -> Result<(), NoMemory>
    ensures { IfOk result (λ _. out.new.items ≡ out.old.items ++ spec.json_line json) }
{
    let Place { line, column } = json;
    let text = format!(in alloc; "line {line} column {column}\n")?;
    out.extend_from_slice(text.as_bytes())?;
    Ok(())
}

// The text of a script that was read.
fn parts_text(alloc: Global, script: &Script, status: &Status) -> Result<Bytes, NoMemory>
    ensures { IfOk result (λ text. text ≡ spec.parts_text (parts script.now) status.now) }
{
    let mut out = Vec::new(alloc);
    push_all(alloc, &mut out, script)?;
    push_status(alloc, &mut out, status)?;
    push_place(alloc, &mut out, script, status)?;
    Ok(Seq::from_items(out))
}

// The lines of the modules of all domains.
fn push_all(alloc: Global, out: &mut Vec<u8>, script: &Script) -> Result<(), NoMemory>
    ensures { IfOk result (λ _. out.new.items ≡ out.old.items ++ spec.all_lines (parts script.now)) }
{
    let count = script.devices.items().len() as u32 + 1;
    for number in 0..count {
        push_domain(alloc, out, number, script)?;
    }
    Ok(())
}

fn push_domain(
    alloc: Global,
    out: &mut Vec<u8>,
    number: u32,
    script: &Script,
) -> Result<(), NoMemory>
    ensures { IfOk result (λ _. out.new.items ≡ out.old.items ++ lines_of number (spec.texts_at number (parts script.now))) }
{
    let texts = texts_at(alloc, number, script)?;
    push_modules(alloc, out, number, &texts)
}

fn push_status(alloc: Global, out: &mut Vec<u8>, status: &Status) -> Result<(), NoMemory>
    ensures { IfOk result (λ _. out.new.items ≡ out.old.items ++ line_of status.now) }
{
    let line = status.line(alloc)?;
    out.extend_from_slice(line.items())?;
    Ok(())
}

// The line of the place that the status names.
fn push_place(
    alloc: Global,
    out: &mut Vec<u8>,
    script: &Script,
    status: &Status,
) -> Result<(), NoMemory>
    ensures { IfOk result (λ _. out.new.items ≡ out.old.items ++ spec.place_line (parts script.now) status.now) }
{
    match status {
        Status::BadSchema { device, text } => match named_in(text.items()) {
            Some(named) => push_named(alloc, out, (*device, script), named),
            None => Ok(()),
        },
        _ => Ok(()),
    }
}

// The line of a place in a module of a domain.
fn push_named(
    alloc: Global,
    out: &mut Vec<u8>,
    of: (u32, &Script),
    named: Named,
) -> Result<(), NoMemory>
    ensures { IfOk result (λ _. out.new.items ≡ out.old.items ++ spec.fault_line of.entry.0 named (slice_get (spec.texts_at of.entry.0 (parts of.entry.1.now)) named.module)) }
{
    let device = of.0;
    let texts = texts_at(alloc, device, of.1)?;
    let number = named.module as usize;
    match texts.get(number) {
        Some(text) => push_fault(
            alloc,
            out,
            text_of(device, number, *text),
            "fault",
            named.at,
        ),
        None => Ok(()),
    }
}

fn text_of(device: u32, number: usize, text: &str) -> ModuleText<'_>
    ensures { (result.device ≡ device) × (result.number ≡ number) × (result.text.now ≡ text.entry.now) }
{
    ModuleText {
        device,
        number,
        text,
    }
}
