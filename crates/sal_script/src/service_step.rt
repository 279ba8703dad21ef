//! The steps of RPCs, notifications and mounts, from the parts of JSON arrays.
ghost use Rattle.std.specs.Prelude.{◌≡◌, ℕ, List, IfOk, MatchOption, Some, None, map, option_map};
ghost use Rattle.serde_json.specs.View.{view};
ghost use Rattle.sal_script.specs.Moves.{move_of};
ghost use Rattle.sal_script.specs.Moves as move;
ghost use Rattle.sal_script.specs.Steps.{Registering};
ghost use Rattle.sal_script.specs.Steps as spec;

use crate::listener_step::listener_step_named;
use crate::script::ScriptStep;
use crate::step::{number_alone, number_of, slot_alone, slot_of};
use sal_types::{NoMemory, Str};
use serde_json::Value;
use std::alloc::Global;

// The step of an RPC with this word and these parts, or else of another service, or none.
pub(crate) fn service_step_named(
    alloc: Global,
    word: &str,
    parts: &[Value],
) -> Result<Option<ScriptStep>, NoMemory>
    ensures { IfOk result (λ found. option_map move_of found ≡ spec.service_step_named word.now (map view parts.now)) }
{
    match word {
        "provide" => provide_of(alloc, parts),
        "withdraw" => withdraw_of(alloc, parts),
        "invoke" => invoke_of(alloc, parts),
        "next-call" => Ok(next_call_of(parts)),
        "answer" => answer_of(parts),
        "collect" => Ok(collect_of(parts)),
        _ => note_step_named(alloc, word, parts),
    }
}

// The step of notifications or mounts with this word, or else of a listener, a chain, a pump or a mark.
fn note_step_named(
    alloc: Global,
    word: &str,
    parts: &[Value],
) -> Result<Option<ScriptStep>, NoMemory>
    ensures { IfOk result (λ found. option_map move_of found ≡ spec.note_step_named word.now (map view parts.now)) }
{
    match word {
        "subscribe" => subscribe_of(alloc, parts),
        "offer" => offer_of(alloc, parts),
        "take-notes" => Ok(take_notes_of(parts)),
        "mount" => mount_of(alloc, parts),
        "unmount" => Ok(unmount_of(parts)),
        "mount-at" => mount_at_of(alloc, parts),
        _ => listener_step_named(alloc, word, parts),
    }
}

// ---- RPCs

// The text of a context, or none for `null`.
fn context_of(value: &Value) -> Option<Option<&str>>
    ensures { option_map (λ context. option_map (λ text. text.now) context) result ≡ spec.context_of (view value.now) }
{
    match value {
        Value::Null => Some(None),
        Value::String(text) => Some(Some(text.as_str())),
        _ => None,
    }
}

// The name of an RPC and the text of a context.
fn registration_of(parts: &[Value]) -> Option<(&str, Option<&str>)>
    ensures { MatchOption result ((step : Registering) → spec.registration_of step (map view parts.now) ≡ None) (λ at. (step : Registering) → spec.registration_of step (map view parts.now) ≡ Some (step at.0.now (option_map (λ text. text.now) at.1))) }
{
    let [rpc, context] = parts else {
        return None;
    };
    let rpc = rpc.as_str()?;
    let context = context_of(context)?;
    Some((rpc, context))
}

// A copy of the text of a context.
fn context_copy(alloc: Global, context: Option<&str>) -> Result<Option<Str>, NoMemory>
    ensures { IfOk result (λ copy. copy ≡ option_map (λ text. text.now) context.entry) }
{
    match context {
        Some(text) => Ok(Some(Str::new(alloc, text)?)),
        None => Ok(None),
    }
}

// The name of the RPC with the context.
fn with_context(
    alloc: Global,
    rpc: Str,
    context: Option<&str>,
) -> Result<(Str, Option<Str>), NoMemory>
    ensures rpc { IfOk result (λ at. at.0 ≡ rpc) }
    ensures context { IfOk result (λ at. at.1 ≡ option_map (λ text. text.now) context.entry) }
{
    let context = context_copy(alloc, context)?;
    Ok((rpc, context))
}

fn provide_of(alloc: Global, parts: &[Value]) -> Result<Option<ScriptStep>, NoMemory>
    ensures { IfOk result (λ found. option_map move_of found ≡ spec.registration_of move.Provide (map view parts.now)) }
{
    let Some((name, context)) = registration_of(parts) else {
        return Ok(None);
    };
    let rpc = Str::new(alloc, name)?;
    let (rpc, context) = with_context(alloc, rpc, context)?;
    Ok(Some(ScriptStep::Provide { rpc, context }))
}

fn withdraw_of(alloc: Global, parts: &[Value]) -> Result<Option<ScriptStep>, NoMemory>
    ensures { IfOk result (λ found. option_map move_of found ≡ spec.registration_of move.Withdraw (map view parts.now)) }
{
    let Some((name, context)) = registration_of(parts) else {
        return Ok(None);
    };
    let rpc = Str::new(alloc, name)?;
    let (rpc, context) = with_context(alloc, rpc, context)?;
    Ok(Some(ScriptStep::Withdraw { rpc, context }))
}

// The slot, the name of an RPC, the text of a context, and a value.
fn call_of(parts: &[Value]) -> Option<(u8, &str, Option<&str>, &Value)>
    ensures { MatchOption result (spec.invoke_of (map view parts.now) ≡ None) (λ call. spec.invoke_of (map view parts.now) ≡ Some (move.Invoke call.0 call.1.now (option_map (λ text. text.now) call.2) (view call.3.now))) }
{
    let [slot, rpc, context, value] = parts else {
        return None;
    };
    let slot = slot_of(slot)?;
    let rpc = rpc.as_str()?;
    let context = context_of(context)?;
    Some((slot, rpc, context, value))
}

fn invoke_of(alloc: Global, parts: &[Value]) -> Result<Option<ScriptStep>, NoMemory>
    ensures { IfOk result (λ found. option_map move_of found ≡ spec.invoke_of (map view parts.now)) }
{
    let Some((slot, name, context, value)) = call_of(parts) else {
        return Ok(None);
    };
    let rpc = Str::new(alloc, name)?;
    let at = with_context(alloc, rpc, context)?;
    invoke_at(slot, at, value)
}

// The invocation of an RPC with this value.
fn invoke_at(
    call: u8,
    at: (Str, Option<Str>),
    value: &Value,
) -> Result<Option<ScriptStep>, NoMemory>
    ensures { IfOk result (λ found. option_map move_of found ≡ Some (move.Invoke call at.0 at.1 (view value.now))) }
{
    let input = value.clone()?;
    Ok(Some(ScriptStep::Invoke {
        call,
        rpc: at.0,
        context: at.1,
        input,
    }))
}

fn next_call_of(parts: &[Value]) -> Option<ScriptStep>
    ensures { option_map move_of result ≡ spec.slot_step_of move.NextCall (map view parts.now) }
{
    let request = slot_alone(parts)?;
    Some(ScriptStep::NextCall { request })
}

fn answer_of(parts: &[Value]) -> Result<Option<ScriptStep>, NoMemory>
    ensures { IfOk result (λ found. option_map move_of found ≡ spec.answer_of (map view parts.now)) }
{
    let [slot, value] = parts else {
        return Ok(None);
    };
    let Some(request) = slot_of(slot) else {
        return Ok(None);
    };
    let output = value.clone()?;
    Ok(Some(ScriptStep::Answer { request, output }))
}

fn collect_of(parts: &[Value]) -> Option<ScriptStep>
    ensures { option_map move_of result ≡ spec.slot_step_of move.Collect (map view parts.now) }
{
    let call = slot_alone(parts)?;
    Some(ScriptStep::Collect { call })
}

// ---- notifications and mounts

// The text, if it is the only part.
fn text_alone(parts: &[Value]) -> Option<&str>
    ensures { MatchOption result ((step : List ℕ → move.Move) → spec.text_step_of step (map view parts.now) ≡ None) (λ text. (step : List ℕ → move.Move) → spec.text_step_of step (map view parts.now) ≡ Some (step text.now)) }
{
    let [text] = parts else {
        return None;
    };
    text.as_str()
}

fn subscribe_of(alloc: Global, parts: &[Value]) -> Result<Option<ScriptStep>, NoMemory>
    ensures { IfOk result (λ found. option_map move_of found ≡ spec.text_step_of move.Subscribe (map view parts.now)) }
{
    let Some(name) = text_alone(parts) else {
        return Ok(None);
    };
    let note = Str::new(alloc, name)?;
    Ok(Some(ScriptStep::Subscribe { note }))
}

fn offer_of(alloc: Global, parts: &[Value]) -> Result<Option<ScriptStep>, NoMemory>
    ensures { IfOk result (λ found. option_map move_of found ≡ spec.offer_of (map view parts.now)) }
{
    let [name, value] = parts else {
        return Ok(None);
    };
    let Some(name) = name.as_str() else {
        return Ok(None);
    };
    let note = Str::new(alloc, name)?;
    let value = value.clone()?;
    Ok(Some(ScriptStep::Offer { note, value }))
}

fn take_notes_of(parts: &[Value]) -> Option<ScriptStep>
    ensures { option_map move_of result ≡ spec.take_notes_of (map view parts.now) }
{
    match parts {
        [] => Some(ScriptStep::TakeNotes),
        _ => None,
    }
}

// A device and the text of a path.
fn mounted_of(parts: &[Value]) -> Option<(u32, &str)>
    ensures { MatchOption result (spec.mount_of (map view parts.now) ≡ None) (λ at. spec.mount_of (map view parts.now) ≡ Some (move.Mount at.0 at.1.now)) }
{
    let [device, path] = parts else {
        return None;
    };
    let device = number_of(device)?;
    let path = path.as_str()?;
    Some((device, path))
}

fn mount_of(alloc: Global, parts: &[Value]) -> Result<Option<ScriptStep>, NoMemory>
    ensures { IfOk result (λ found. option_map move_of found ≡ spec.mount_of (map view parts.now)) }
{
    let Some((device, text)) = mounted_of(parts) else {
        return Ok(None);
    };
    let path = Str::new(alloc, text)?;
    Ok(Some(ScriptStep::Mount { device, path }))
}

fn unmount_of(parts: &[Value]) -> Option<ScriptStep>
    ensures { option_map move_of result ≡ spec.number_step_of move.Unmount (map view parts.now) }
{
    let domain = number_alone(parts)?;
    Some(ScriptStep::Unmount { domain })
}

fn mount_at_of(alloc: Global, parts: &[Value]) -> Result<Option<ScriptStep>, NoMemory>
    ensures { IfOk result (λ found. option_map move_of found ≡ spec.text_step_of move.MountAt (map view parts.now)) }
{
    let Some(text) = text_alone(parts) else {
        return Ok(None);
    };
    let path = Str::new(alloc, text)?;
    Ok(Some(ScriptStep::MountAt { path }))
}
