//! One step, from a JSON array.
ghost use Rattle.std.specs.Prelude.{◌≡◌, IfOk, map, option_map};
ghost use Rattle.serde_json.specs.View.{view};
ghost use Rattle.sal_owner.specs.declared.call.OwnerCall.TheVariants.{Register, State, Unregister, Watch};
ghost use Rattle.sal_owner_script.specs.Steps as spec;

use sal_owner::{Entity, OwnerCall};
use sal_types::{NoMemory, Str};
use serde_json::Value;
use std::alloc::Global;

/// Client numbers are below this.
pub const MAX_CLIENTS: u64 = 16;

/// A call of a client.
#[derive(Drop)]
pub struct OwnerStep {
    pub client: u32,
    pub call: OwnerCall,
}

// The step that a JSON array denotes.
pub(crate) fn step_of(alloc: Global, value: &Value) -> Result<Option<OwnerStep>, NoMemory>
    ensures { IfOk result (λ found. found ≡ spec.step_of (view value.now)) }
{
    match value.as_array() {
        Some(list) => step_in(alloc, list.as_slice()),
        None => Ok(None),
    }
}

fn step_in(alloc: Global, parts: &[Value]) -> Result<Option<OwnerStep>, NoMemory>
    ensures { IfOk result (λ found. found ≡ spec.step_in (map view parts.now)) }
{
    let [client, word, parts @ ..] = parts else {
        return Ok(None);
    };
    let Some(client) = client_of(client) else {
        return Ok(None);
    };
    match word.as_str() {
        Some(word) => step_by(alloc, client, word, parts),
        None => Ok(None),
    }
}

// The step of a client with this word and these texts.
fn step_by(
    alloc: Global,
    client: u32,
    word: &str,
    parts: &[Value],
) -> Result<Option<OwnerStep>, NoMemory>
    ensures { IfOk result (λ found. found ≡ spec.step_by client word.now (map view parts.now)) }
{
    match call_of(alloc, word, parts)? {
        Some(call) => Ok(Some(OwnerStep { client, call })),
        None => Ok(None),
    }
}

fn client_of(value: &Value) -> Option<u32>
    ensures { result ≡ spec.client_of (view value.now) }
{
    match value.as_u64() {
        Some(number) if number < MAX_CLIENTS => Some(number as u32),
        _ => None,
    }
}

fn call_of(alloc: Global, word: &str, parts: &[Value]) -> Result<Option<OwnerCall>, NoMemory>
    ensures { IfOk result (λ found. found ≡ spec.call_of word.now (map view parts.now)) }
{
    match word {
        "register" => register_of(alloc, parts),
        "unregister" => unregister_of(alloc, parts),
        "state" => state_of(alloc, parts),
        "watch" => watch_of(alloc, parts),
        "changes" => Ok(changes_of(parts)),
        _ => Ok(None),
    }
}

fn register_of(alloc: Global, parts: &[Value]) -> Result<Option<OwnerCall>, NoMemory>
    ensures { IfOk result (λ found. found ≡ option_map Register (spec.entity_of (map view parts.now))) }
{
    match entity_of(alloc, parts)? {
        Some(entity) => Ok(Some(OwnerCall::Register(entity))),
        None => Ok(None),
    }
}

fn unregister_of(alloc: Global, parts: &[Value]) -> Result<Option<OwnerCall>, NoMemory>
    ensures { IfOk result (λ found. found ≡ option_map Unregister (spec.entity_of (map view parts.now))) }
{
    match entity_of(alloc, parts)? {
        Some(entity) => Ok(Some(OwnerCall::Unregister(entity))),
        None => Ok(None),
    }
}

fn state_of(alloc: Global, parts: &[Value]) -> Result<Option<OwnerCall>, NoMemory>
    ensures { IfOk result (λ found. found ≡ option_map State (spec.entity_of (map view parts.now))) }
{
    match entity_of(alloc, parts)? {
        Some(entity) => Ok(Some(OwnerCall::State(entity))),
        None => Ok(None),
    }
}

fn watch_of(alloc: Global, parts: &[Value]) -> Result<Option<OwnerCall>, NoMemory>
    ensures { IfOk result (λ found. found ≡ option_map Watch (spec.kind_of (map view parts.now))) }
{
    let [kind] = parts else {
        return Ok(None);
    };
    match kind.as_str() {
        Some(kind) => Ok(Some(OwnerCall::Watch(Str::new(alloc, kind)?))),
        None => Ok(None),
    }
}

fn changes_of(parts: &[Value]) -> Option<OwnerCall>
    ensures { result ≡ spec.changes_of (map view parts.now) }
{
    match parts {
        [] => Some(OwnerCall::Changes),
        _ => None,
    }
}

// The entity of a kind and an id.
fn entity_of(alloc: Global, parts: &[Value]) -> Result<Option<Entity>, NoMemory>
    ensures { IfOk result (λ found. found ≡ spec.entity_of (map view parts.now)) }
{
    let [kind, id] = parts else {
        return Ok(None);
    };
    let Some(kind) = kind.as_str() else {
        return Ok(None);
    };
    match id.as_str() {
        Some(id) => Ok(Some(named(alloc, kind, id)?)),
        None => Ok(None),
    }
}

fn named(alloc: Global, kind: &str, id: &str) -> Result<Entity, NoMemory>
    ensures { IfOk result (λ entity. entity ≡ record { kind = kind.now; id = id.now }) }
{
    let kind = Str::new(alloc, kind)?;
    let id = Str::new(alloc, id)?;
    Ok(Entity { kind, id })
}
