//! The steps of a client, from JSON arrays: those of its transactions and receipts.
ghost use Rattle.std.specs.Prelude.{◌≡◌, ℕ, IfOk, MatchOption, Some, None, map, option_map};
ghost use Rattle.serde_json.specs.View.{view};
ghost use Rattle.sal_script.specs.Moves.{move_of};
ghost use Rattle.sal_script.specs.Moves as move;
ghost use Rattle.sal_script.specs.Steps.{Naming, Writing};
ghost use Rattle.sal_script.specs.Steps as spec;

use crate::script::ScriptStep;
use crate::service_step::service_step_named;
use crate::values::{list_of, whole_below};
use sal_rows::Mode;
use sal_types::{NoMemory, Store, Str};
use serde_json::Value;
use std::alloc::Global;

/// The step that a JSON array denotes.
pub(crate) fn step_of(alloc: Global, value: &Value) -> Result<Option<ScriptStep>, NoMemory>
    ensures { IfOk result (λ found. option_map move_of found ≡ spec.step_of (view value.now)) }
{
    match list_of(value) {
        Some(parts) => step_from(alloc, parts),
        None => Ok(None),
    }
}

fn step_from(alloc: Global, parts: &[Value]) -> Result<Option<ScriptStep>, NoMemory>
    ensures { IfOk result (λ found. option_map move_of found ≡ spec.step_from (map view parts.now)) }
{
    let [word, parts @ ..] = parts else {
        return Ok(None);
    };
    match word.as_str() {
        Some(name) => step_named(alloc, name, parts),
        None => Ok(None),
    }
}

// The step with this word and these parts.
fn step_named(alloc: Global, word: &str, parts: &[Value]) -> Result<Option<ScriptStep>, NoMemory>
    ensures { IfOk result (λ found. option_map move_of found ≡ spec.step_named word.now (map view parts.now)) }
{
    match word {
        "begin" => Ok(begin_of(parts)),
        "put" => put_of(alloc, parts),
        "merge" => merge_of(alloc, parts),
        "delete" => delete_of(alloc, parts),
        "read" => read_of(alloc, parts),
        "exists" => exists_of(alloc, parts),
        "submit" => Ok(submit_of(parts)),
        "cancel" => Ok(cancel_of(parts)),
        "settle" => Ok(settle_of(parts)),
        _ => service_step_named(alloc, word, parts),
    }
}

fn begin_of(parts: &[Value]) -> Option<ScriptStep>
    ensures { option_map move_of result ≡ spec.begin_of (map view parts.now) }
{
    let [slot, domain, mode] = parts else {
        return None;
    };
    let slot = slot_of(slot)?;
    let domain = number_of(domain)?;
    let mode = mode_of(mode)?;
    Some(ScriptStep::Begin { slot, domain, mode })
}

// The slot, the store and the text of a path.
fn place_of(parts: &[Value]) -> Option<(u8, Store, &str)>
    ensures { MatchOption result ((step : Naming) → spec.place_of step (map view parts.now) ≡ None) (λ place. (step : Naming) → spec.place_of step (map view parts.now) ≡ Some (step place.0 place.1 place.2.now)) }
{
    let [slot, store, path] = parts else {
        return None;
    };
    let slot = slot_of(slot)?;
    let store = store_of(store)?;
    let path = path.as_str()?;
    Some((slot, store, path))
}

// The slot, the store, the text of a path, and a value.
fn write_of(parts: &[Value]) -> Option<(u8, Store, &str, &Value)>
    ensures { MatchOption result ((step : Writing) → spec.write_of step (map view parts.now) ≡ None) (λ write. (step : Writing) → spec.write_of step (map view parts.now) ≡ Some (step write.0 write.1 write.2.now (view write.3.now))) }
{
    let [slot, store, path, value] = parts else {
        return None;
    };
    let slot = slot_of(slot)?;
    let store = store_of(store)?;
    let path = path.as_str()?;
    Some((slot, store, path, value))
}

fn put_of(alloc: Global, parts: &[Value]) -> Result<Option<ScriptStep>, NoMemory>
    ensures { IfOk result (λ found. option_map move_of found ≡ spec.write_of move.Put (map view parts.now)) }
{
    let Some((slot, store, text, value)) = write_of(parts) else {
        return Ok(None);
    };
    let path = Str::new(alloc, text)?;
    let value = value.clone()?;
    Ok(Some(ScriptStep::Put {
        slot,
        store,
        path,
        value,
    }))
}

fn merge_of(alloc: Global, parts: &[Value]) -> Result<Option<ScriptStep>, NoMemory>
    ensures { IfOk result (λ found. option_map move_of found ≡ spec.write_of move.Merge (map view parts.now)) }
{
    let Some((slot, store, text, value)) = write_of(parts) else {
        return Ok(None);
    };
    let path = Str::new(alloc, text)?;
    let value = value.clone()?;
    Ok(Some(ScriptStep::Merge {
        slot,
        store,
        path,
        value,
    }))
}

fn delete_of(alloc: Global, parts: &[Value]) -> Result<Option<ScriptStep>, NoMemory>
    ensures { IfOk result (λ found. option_map move_of found ≡ spec.place_of move.Delete (map view parts.now)) }
{
    let Some((slot, store, text)) = place_of(parts) else {
        return Ok(None);
    };
    let path = Str::new(alloc, text)?;
    Ok(Some(ScriptStep::Delete { slot, store, path }))
}

fn read_of(alloc: Global, parts: &[Value]) -> Result<Option<ScriptStep>, NoMemory>
    ensures { IfOk result (λ found. option_map move_of found ≡ spec.place_of move.Read (map view parts.now)) }
{
    let Some((slot, store, text)) = place_of(parts) else {
        return Ok(None);
    };
    let path = Str::new(alloc, text)?;
    Ok(Some(ScriptStep::Read { slot, store, path }))
}

fn exists_of(alloc: Global, parts: &[Value]) -> Result<Option<ScriptStep>, NoMemory>
    ensures { IfOk result (λ found. option_map move_of found ≡ spec.place_of move.Exists (map view parts.now)) }
{
    let Some((slot, store, text)) = place_of(parts) else {
        return Ok(None);
    };
    let path = Str::new(alloc, text)?;
    Ok(Some(ScriptStep::Exists { slot, store, path }))
}

fn submit_of(parts: &[Value]) -> Option<ScriptStep>
    ensures { option_map move_of result ≡ spec.slot_step_of move.Submit (map view parts.now) }
{
    let slot = slot_alone(parts)?;
    Some(ScriptStep::Submit { slot })
}

fn cancel_of(parts: &[Value]) -> Option<ScriptStep>
    ensures { option_map move_of result ≡ spec.slot_step_of move.Cancel (map view parts.now) }
{
    let slot = slot_alone(parts)?;
    Some(ScriptStep::Cancel { slot })
}

fn settle_of(parts: &[Value]) -> Option<ScriptStep>
    ensures { option_map move_of result ≡ spec.slot_step_of move.Settle (map view parts.now) }
{
    let slot = slot_alone(parts)?;
    Some(ScriptStep::Settle { slot })
}

// The slot, if it is the only part.
pub(crate) fn slot_alone(parts: &[Value]) -> Option<u8>
    ensures { MatchOption result ((step : ℕ → move.Move) → spec.slot_step_of step (map view parts.now) ≡ None) (λ slot. (step : ℕ → move.Move) → spec.slot_step_of step (map view parts.now) ≡ Some (step slot)) }
{
    let [slot] = parts else {
        return None;
    };
    slot_of(slot)
}

// The number, such as a mark, if it is the only part.
pub(crate) fn number_alone(parts: &[Value]) -> Option<u32>
    ensures { MatchOption result ((step : ℕ → move.Move) → spec.number_step_of step (map view parts.now) ≡ None) (λ number. (step : ℕ → move.Move) → spec.number_step_of step (map view parts.now) ≡ Some (step number)) }
{
    let [number] = parts else {
        return None;
    };
    number_of(number)
}

pub(crate) fn slot_of(value: &Value) -> Option<u8>
    ensures { result ≡ spec.slot_of (view value.now) }
{
    match whole_below(256, value) {
        Some(slot) => Some(slot as u8),
        None => None,
    }
}

// A whole number below 2^32, such as a domain or a mark.
pub(crate) fn number_of(value: &Value) -> Option<u32>
    ensures { result ≡ spec.number_of (view value.now) }
{
    match whole_below(1 << 32, value) {
        Some(number) => Some(number as u32),
        None => None,
    }
}

pub(crate) fn mode_of(value: &Value) -> Option<Mode>
    ensures { result ≡ spec.mode_of (view value.now) }
{
    match value.as_str()? {
        "ro" => Some(Mode::Ro),
        "wo" => Some(Mode::Wo),
        "rw" => Some(Mode::Rw),
        _ => None,
    }
}

pub(crate) fn store_of(value: &Value) -> Option<Store>
    ensures { result ≡ spec.store_of (view value.now) }
{
    match value.as_str()? {
        "config" => Some(Store::Config),
        "operational" => Some(Store::Oper),
        _ => None,
    }
}
