//! The texts of replies. Each function appends to the text.
ghost use Rattle.std.specs.Prelude.{◌≡◌, ◌∷◌, ◌++◌, OnOk, codes, string_bytes};
ghost use Rattle.sal_script.specs.Report as spec;

use crate::breaches::{push_breach, push_named};
use crate::faults::{push_data_fault, push_path_fault, push_tx_fault};
use crate::listeners::{push_batch, push_listener, push_mirror};
use crate::pieces::{Pushed, push_data, push_numbered, push_path};
use crate::schemas::Schemas;
use crate::services::{push_mount, push_notes, push_output, push_request};
use crate::words::{kind_word, store_word, truth_word};
use sal_history::Reply;
use sal_rows::{CallFault, Outcome, Rows};
use sal_schema::Schema;
use sal_script::{StepRefusal, StepReply};
use sal_types::{NoMemory, Path, push_word};
use std::alloc::Global;

// The reply to a step.
pub(crate) fn push_reply(
    alloc: Global,
    text: &mut String,
    schemas: &Schemas,
    reply: &StepReply,
) -> Pushed
    ensures { OnOk result (string_bytes text.new ≡ string_bytes text.old ++ spec.reply_text schemas.now reply.now) }
{
    match reply {
        StepReply::Called { reply } => push_call(alloc, text, schemas, reply),
        StepReply::Accepted => push_word(text, "ok"),
        StepReply::Read { domain, path, rows } => {
            push_rows(alloc, text, schemas.of(*domain), path, rows)
        }
        StepReply::Exists { found } => push_word(text, truth_word(*found)),
        StepReply::Mirror {
            domain,
            path,
            version,
            rows,
        } => push_mirror(alloc, text, schemas.of(*domain), path, *version, rows),
        StepReply::Refused { refusal } => {
            text.push_str("refused ")?;
            push_refusal(alloc, text, schemas, refusal)
        }
    }
}

// The reply to a shared call.
fn push_call(alloc: Global, text: &mut String, schemas: &Schemas, reply: &Reply) -> Pushed
    ensures { OnOk result (string_bytes text.new ≡ string_bytes text.old ++ spec.call_text schemas.now reply.now) }
{
    match reply {
        Reply::Begun { commit, on } => push_begun(text, *commit, *on),
        Reply::Chain { id } => push_numbered(text, "chain", *id),
        Reply::Accepted => push_word(text, "ok"),
        Reply::Receipt { number } => push_numbered(text, "receipt", *number),
        Reply::Settled { domain, outcome } => {
            push_outcome(alloc, text, schemas.of(*domain), outcome)
        }
        Reply::Decided {
            receipt,
            domain,
            outcome,
        } => push_decided(alloc, text, schemas.of(*domain), *receipt, outcome),
        Reply::Nothing => push_word(text, "nothing"),
        Reply::Listener {
            id,
            domain,
            path,
            opened,
        } => push_listener(alloc, text, schemas.of(*domain), *id, path, opened),
        Reply::Batch { domain, batch } => push_batch(alloc, text, schemas.of(*domain), batch),
        Reply::CallMade { id } => push_numbered(text, "call", *id),
        Reply::Request { request } => push_request(alloc, text, schemas.of(0), request),
        Reply::Output { rpc, rows } => push_output(alloc, text, schemas.of(0), *rpc, rows),
        Reply::Offered { count } => push_numbered(text, "offered", u64::from(*count)),
        Reply::Notes { list } => push_notes(alloc, text, schemas.of(0), list.items()),
        Reply::MountAt { mount } => push_mount(text, *mount),
        Reply::Found => push_word(text, "found"),
        Reply::Late => push_word(text, "late"),
        Reply::Refused { fault } => push_refused(alloc, text, schemas.of(0), fault),
    }
}

fn push_begun(text: &mut String, commit: u64, on: Option<u64>) -> Pushed
    ensures { OnOk result (string_bytes text.new ≡ string_bytes text.old ++ (codes "begun" ++ (spec.number commit ++ spec.on_text on))) }
{
    push_numbered(text, "begun", commit)?;
    match on {
        Some(receipt) => push_numbered(text, " on", receipt),
        None => Ok(()),
    }
}

// A shared call that was refused, and why.
fn push_refused(alloc: Global, text: &mut String, schema: &Schema, fault: &CallFault) -> Pushed
    ensures { OnOk result (string_bytes text.new ≡ string_bytes text.old ++ (codes "refused " ++ spec.fault_text schema.now fault.now)) }
{
    text.push_str("refused ")?;
    push_fault(alloc, text, schema, fault)
}

fn push_fault(alloc: Global, text: &mut String, schema: &Schema, fault: &CallFault) -> Pushed
    ensures { OnOk result (string_bytes text.new ≡ string_bytes text.old ++ spec.fault_text schema.now fault.now) }
{
    match fault {
        CallFault::HistoryFull => push_word(text, "history-full"),
        CallFault::PipelineFull => push_word(text, "pipeline-full"),
        CallFault::NoDomain { id } => push_numbered(text, "no-domain", u64::from(*id)),
        CallFault::NoListener { id } => push_numbered(text, "no-listener", *id),
        CallFault::TooManyListeners => push_word(text, "too-many-listeners"),
        CallFault::NoProvider { rpc } => push_named(text, schema, "no-provider ", *rpc),
        CallFault::ProviderTaken { rpc } => push_named(text, schema, "provider-taken ", *rpc),
        CallFault::NoCall { id } => push_numbered(text, "no-call", *id),
        CallFault::NoteRejected { subscriber } => {
            push_numbered(text, "note-rejected", u64::from(*subscriber))
        }
        CallFault::MountTaken { id } => push_numbered(text, "mount-taken", u64::from(*id)),
        CallFault::DeviceUsed { id } => push_numbered(text, "device-used", u64::from(*id)),
        CallFault::PreviousOpen => push_word(text, "previous-open"),
        CallFault::ChainFailed { receipt } => push_numbered(text, "chain-failed", *receipt),
        CallFault::ChainClosed => push_word(text, "chain-closed"),
        CallFault::NoMemory => push_word(text, "no-memory"),
        CallFault::TxSpent => push_word(text, "tx-spent"),
        CallFault::WrongVersion { have } => {
            push_numbered(text, "wrong-version", u64::from(*have))
        }
        CallFault::UpgradeBreach { store, path, rule } => {
            text.push_str("upgrade-breach ")?;
            text.push_str(store_word(*store))?;
            push_breach(alloc, text, schema, path, *rule)
        }
    }
}

fn push_outcome(alloc: Global, text: &mut String, schema: &Schema, outcome: &Outcome) -> Pushed
    ensures { OnOk result (string_bytes text.new ≡ string_bytes text.old ++ spec.outcome_text schema.now outcome.now) }
{
    match outcome {
        Outcome::Done { commit } => push_numbered(text, "done", *commit),
        Outcome::Conflict {
            store,
            path,
            kind,
            commit,
        } => {
            text.push_str("conflict ")?;
            text.push_str(store_word(*store))?;
            push_path(alloc, text, schema, path)?;
            text.push(' ')?;
            push_numbered(text, kind_word(*kind), *commit)
        }
        Outcome::Invalid { store, path, rule } => {
            text.push_str("invalid ")?;
            text.push_str(store_word(*store))?;
            push_breach(alloc, text, schema, path, *rule)
        }
        Outcome::ChainFailed { receipt } => push_numbered(text, "chain-failed", *receipt),
        Outcome::Unmounted { domain } => push_numbered(text, "unmounted", u64::from(*domain)),
    }
}

// The receipt of a pump, with its outcome.
fn push_decided(
    alloc: Global,
    text: &mut String,
    schema: &Schema,
    receipt: u64,
    outcome: &Outcome,
) -> Pushed
    ensures { OnOk result (string_bytes text.new ≡ string_bytes text.old ++ (codes "decided" ++ (spec.number receipt ++ (32 ∷ spec.outcome_text schema.now outcome.now)))) }
{
    push_numbered(text, "decided", receipt)?;
    text.push(' ')?;
    push_outcome(alloc, text, schema, outcome)
}

fn push_refusal(
    alloc: Global,
    text: &mut String,
    schemas: &Schemas,
    refusal: &StepRefusal,
) -> Pushed
    ensures { OnOk result (string_bytes text.new ≡ string_bytes text.old ++ spec.refusal_text schemas.now refusal.now) }
{
    match refusal {
        StepRefusal::EmptySlot => push_word(text, "empty-slot"),
        StepRefusal::ReadOnly => push_word(text, "read-only"),
        StepRefusal::NoDevice => push_word(text, "no-device"),
        StepRefusal::NoUpgrade => push_word(text, "no-upgrade"),
        StepRefusal::UnknownName => push_word(text, "unknown-name"),
        StepRefusal::BadPath { fault } => {
            text.push_str("path ")?;
            push_path_fault(text, *fault)
        }
        StepRefusal::BadData { domain, fault } => {
            text.push_str("data ")?;
            push_data_fault(alloc, text, schemas.of(*domain), fault)
        }
        StepRefusal::Write { domain, fault } => {
            push_tx_fault(alloc, text, schemas.of(*domain), fault)
        }
    }
}

// The rows of a read at a path.
fn push_rows(alloc: Global, text: &mut String, schema: &Schema, path: &Path, rows: &Rows) -> Pushed
    ensures { OnOk result (string_bytes text.new ≡ string_bytes text.old ++ spec.rows_text schema.now path.now rows.now) }
{
    match (path.steps(), rows.items()) {
        ([_, ..], []) => push_word(text, "absent"),
        _ => {
            text.push_str("data ")?;
            push_data(alloc, text, schema, path, rows)
        }
    }
}
