//! The texts that depend on the input alone, by the form of the words.
ghost use Rattle.std.specs.Prelude.{◌≡◌, List, ℕ};
ghost use Rattle.std.specs.declared.result.Result.{Result as Either};
ghost use Rattle.sal_prepare.specs.declared.status.Status.{Status as Ends};
ghost use Rattle.sal_prepare.specs.Texts.{IsTextOr};
ghost use Rattle.sal_command.specs.Top as spec;

use crate::played::sim_text;
use crate::words::TextForm;
use sal_audit::audit_text;
use sal_follow_script::{export_text, follow_text};
use sal_io::Gate;
use sal_picture::draw_text;
use sal_prepare::scripted;
use sal_prepare::status::Status;
use sal_script::{Script, ScriptFault};
use sal_types::{Bytes, NoMemory, Str};
use std::alloc::Global;

/// The result for an input.
#[derive(Drop)]
pub(crate) enum Made {
    /// A report, a table, replies, a line.
    Words(Str),
    /// Frames of commits, a picture.
    Plain(Bytes),
}

impl Made {
    /// Its bytes.
    pub(crate) fn items(&self) -> &[u8]
        ensures { result.now ≡ spec.bytes_of self.now }
    {
        match self {
            Made::Words(text) => text.items(),
            Made::Plain(bytes) => bytes.items(),
        }
    }
}

/// The result of a form of the words for these bytes, or the status of their first fault. Scripts that are played for their
/// report pass the gate.
pub(crate) fn made_by<G: Gate>(
    alloc: Global,
    form: TextForm,
    bytes: &[u8],
    gate: &G,
) -> Result<Made, Status>
    ensures { spec.IsMadeOr (spec.made_text form bytes.now) result }
{
    match form {
        TextForm::Sim => as_words(sim_text(alloc, bytes, gate)),
        TextForm::Schema => as_words(schema_text(alloc, bytes)),
        TextForm::Owner => as_words(owner_text(alloc, bytes)),
        TextForm::Export => as_plain(export_text(alloc, bytes)),
        TextForm::Follow => as_words(follow_text(alloc, bytes)),
        TextForm::Draw(range) => as_plain(draw_text(alloc, bytes, range)),
        TextForm::Audit => as_words(audit_text(alloc, bytes)),
    }
}

// A text as the result.
fn as_words(text: Result<Str, Status>) -> Result<Made, Status>
    ensures { (made : Either (List ℕ) Ends) → IsTextOr made text → spec.IsMadeOr made result }
{
    match text {
        Ok(text) => Ok(Made::Words(text)),
        Err(status) => Err(status),
    }
}

// Bytes as the result.
fn as_plain(bytes: Result<Bytes, Status>) -> Result<Made, Status>
    ensures { (made : Either (List ℕ) Ends) → IsTextOr made bytes → spec.IsMadeOr made result }
{
    match bytes {
        Ok(bytes) => Ok(Made::Plain(bytes)),
        Err(status) => Err(status),
    }
}

// The text of the schema that the modules of the controller's own domain build.
fn modules_text(alloc: Global, script: &Script) -> Result<Str, Status>
    ensures { IsTextOr (spec.modules_text script.now.modules) result }
{
    let schema = scripted::modules_schema(alloc, script)?;
    match schema.text(alloc) {
        Ok(text) => Ok(text),
        Err(NoMemory) => Err(Status::NoMemory),
    }
}

// The same of the script that the bytes denote.
fn schema_text(alloc: Global, bytes: &[u8]) -> Result<Str, Status>
    ensures { IsTextOr (spec.schema_text bytes.now) result }
{
    let script = scripted::script_of(alloc, bytes)?;
    modules_text(alloc, &script)
}

// The replies to the steps of owners that the bytes denote.
fn owner_text(alloc: Global, bytes: &[u8]) -> Result<Str, Status>
    ensures { IsTextOr (spec.owner_text bytes.now) result }
{
    match sal_owner_script::owner_text(alloc, bytes) {
        Ok(text) => Ok(text),
        Err(ScriptFault::BadScript { place }) => Err(Status::BadScript { place }),
        Err(ScriptFault::NoMemory) => Err(Status::NoMemory),
    }
}
