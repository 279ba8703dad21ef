//! Steps of a script as text. Each function appends to `text`.
ghost use Rattle.std.specs.Prelude.{◌≡◌, ◌++◌, OnOk, string_bytes};
ghost use Rattle.sal_script.specs.Moves.{move_of};
ghost use Rattle.sal_draw_script.specs.Steps as spec;

use crate::pieces::{
    push_asked, push_named, push_one, push_place, push_text, push_two, push_value, push_write,
};
use sal_rows::Mode;
use sal_script::ScriptStep;
use sal_types::{NoMemory, push_word};
use std::alloc::Global;

/// The step as text.
pub(crate) fn push_step(alloc: Global, text: &mut String, step: &ScriptStep) -> Result<(), NoMemory>
    ensures { OnOk result (string_bytes text.new ≡ string_bytes text.old ++ spec.step_text (move_of step.now)) }
{
    push_numbers(text, step)?;
    push_slot(text, step)?;
    push_path(alloc, text, step)?;
    push_service(alloc, text, step)
}

fn push_numbers(text: &mut String, step: &ScriptStep) -> Result<(), NoMemory>
    ensures { OnOk result (string_bytes text.new ≡ string_bytes text.old ++ spec.numbers_text (move_of step.now)) }
{
    match step {
        ScriptStep::Begin { slot, domain, mode } => {
            push_two(text, "begin", u32::from(*slot), *domain)?;
            push_word(text, mode_word(*mode))
        }
        ScriptStep::Submit { slot } => push_one(text, "submit", u32::from(*slot)),
        ScriptStep::Cancel { slot } => push_one(text, "cancel", u32::from(*slot)),
        ScriptStep::Settle { slot } => push_one(text, "settle", u32::from(*slot)),
        ScriptStep::OpenChain { chain, domain } => {
            push_two(text, "chain", u32::from(*chain), *domain)
        }
        ScriptStep::ChainBegin { chain, slot, mode } => {
            push_two(text, "chain-begin", u32::from(*chain), u32::from(*slot))?;
            push_word(text, mode_word(*mode))
        }
        ScriptStep::CloseChain { chain } => push_one(text, "close-chain", u32::from(*chain)),
        ScriptStep::Pump => push_word(text, "pump"),
        ScriptStep::Mark { mark } => push_one(text, "mark", *mark),
        ScriptStep::After { mark } => push_one(text, "after", *mark),
        ScriptStep::Upgrade { version } => push_one(text, "upgrade", *version),
        _ => Ok(()),
    }
}

fn push_slot(text: &mut String, step: &ScriptStep) -> Result<(), NoMemory>
    ensures { OnOk result (string_bytes text.new ≡ string_bytes text.old ++ spec.slot_text (move_of step.now)) }
{
    match step {
        ScriptStep::Take { listener } => push_one(text, "take", u32::from(*listener)),
        ScriptStep::Unlisten { listener } => push_one(text, "unlisten", u32::from(*listener)),
        ScriptStep::Mirror { listener } => push_one(text, "mirror", u32::from(*listener)),
        ScriptStep::NextCall { request } => push_one(text, "next-call", u32::from(*request)),
        ScriptStep::Collect { call } => push_one(text, "collect", u32::from(*call)),
        ScriptStep::TakeNotes => push_word(text, "take-notes"),
        ScriptStep::Unmount { domain } => push_one(text, "unmount", *domain),
        _ => Ok(()),
    }
}

fn push_path(alloc: Global, text: &mut String, step: &ScriptStep) -> Result<(), NoMemory>
    ensures { OnOk result (string_bytes text.new ≡ string_bytes text.old ++ spec.path_text (move_of step.now)) }
{
    match step {
        ScriptStep::Put {
            slot,
            store,
            path,
            value,
        } => {
            push_one(text, "put", u32::from(*slot))?;
            push_write(alloc, text, *store, path, value)
        }
        ScriptStep::Merge {
            slot,
            store,
            path,
            value,
        } => {
            push_one(text, "merge", u32::from(*slot))?;
            push_write(alloc, text, *store, path, value)
        }
        ScriptStep::Delete { slot, store, path } => {
            push_one(text, "delete", u32::from(*slot))?;
            push_place(alloc, text, *store, path)
        }
        ScriptStep::Read { slot, store, path } => {
            push_one(text, "read", u32::from(*slot))?;
            push_place(alloc, text, *store, path)
        }
        ScriptStep::Exists { slot, store, path } => {
            push_one(text, "exists", u32::from(*slot))?;
            push_place(alloc, text, *store, path)
        }
        ScriptStep::Listen {
            listener,
            domain,
            store,
            path,
        } => {
            push_two(text, "listen", u32::from(*listener), *domain)?;
            push_place(alloc, text, *store, path)
        }
        _ => Ok(()),
    }
}

fn push_service(alloc: Global, text: &mut String, step: &ScriptStep) -> Result<(), NoMemory>
    ensures { OnOk result (string_bytes text.new ≡ string_bytes text.old ++ spec.service_text (move_of step.now)) }
{
    match step {
        ScriptStep::Provide { rpc, context } => push_named(alloc, text, "provide", rpc, context),
        ScriptStep::Withdraw { rpc, context } => push_named(alloc, text, "withdraw", rpc, context),
        ScriptStep::Invoke {
            call,
            rpc,
            context,
            input,
        } => {
            push_one(text, "invoke", u32::from(*call))?;
            push_asked(alloc, text, rpc, context, input)
        }
        ScriptStep::Answer { request, output } => {
            push_one(text, "answer", u32::from(*request))?;
            push_value(alloc, text, output)
        }
        ScriptStep::Subscribe { note } => push_text(alloc, text, "subscribe", note),
        ScriptStep::Offer { note, value } => {
            push_text(alloc, text, "offer", note)?;
            push_value(alloc, text, value)
        }
        ScriptStep::Mount { device, path } => {
            push_one(text, "mount", *device)?;
            push_text(alloc, text, "", path)
        }
        ScriptStep::MountAt { path } => push_text(alloc, text, "mount-at", path),
        _ => Ok(()),
    }
}

fn mode_word(mode: Mode) -> &'static str
    ensures { result.now ≡ spec.mode_text mode }
{
    match mode {
        Mode::Ro => " ro",
        Mode::Wo => " wo",
        Mode::Rw => " rw",
        Mode::Checked => " rw",
    }
}
