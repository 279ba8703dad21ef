//! Steps, read from JSON (RFC 8259).
ghost use Rattle.std.specs.Prelude.{◌≡◌, ◌≤◌, IfOk, IfSome, decimal, length, map, option_and_then, option_map};
ghost use Rattle.serde_json.specs.View.{view};
ghost use Rattle.sal_script.specs.Json.{list_of};
ghost use Rattle.sal_script.specs.Reading.{IsBadAt, Reads};
ghost use Rattle.sal_script.specs.Script.{at_most};
ghost use Rattle.sal_owner_script.specs.Steps as spec;

use crate::step::{OwnerStep, step_of};
use sal_script::fault::bad;
use sal_script::{ScriptFault, list_of, value_of};
use sal_types::Str;
use serde_json::Value;
use std::alloc::Global;

/// The largest number of steps.
pub const MAX_STEPS: usize = 60000;

/// The steps that bytes denote, or the first bad input: `json`, `script`, or the number of a step.
pub fn read_steps(alloc: Global, bytes: &[u8]) -> Result<Vec<OwnerStep>, ScriptFault>
    ensures steps { Reads (λ steps. steps.items) result (spec.steps_of bytes.now) }
    ensures few { IfOk result (λ steps. length steps.items ≤ 60000) }
{
    let value = value_of(alloc, bytes)?;
    let list = listed(alloc, &value)?;
    steps_of(alloc, list)
}

// The steps, not yet read.
fn listed(alloc: Global, value: &Value) -> Result<&[Value], ScriptFault>
    ensures list { Reads (λ list. map view list.now) result (spec.listed (view value.now)) }
    ensures few { IfOk result (λ list. length list.now ≤ 60000) }
{
    match at_most(MAX_STEPS, list_of(value)) {
        Some(list) => Ok(list),
        None => Err(bad(alloc, "script")),
    }
}

// The list, unless it is longer than the limit.
fn at_most(limit: usize, list: Option<&[Value]>) -> Option<&[Value]>
    ensures list { option_map (λ found. map view found.now) result ≡ option_and_then (at_most limit) (option_map (λ found. map view found.now) list.entry) }
    ensures few { IfSome result (λ found. length found.now ≤ limit) }
{
    match list {
        Some(found) if found.len() <= limit => Some(found),
        _ => None,
    }
}

fn steps_of(alloc: Global, list: &[Value]) -> Result<Vec<OwnerStep>, ScriptFault>
    ensures steps { Reads (λ steps. steps.items) result (spec.steps_from 0 (map view list.now)) }
    ensures count { IfOk result (λ steps. length steps.items ≡ length list.now) }
{
    let mut steps = Vec::new(alloc);
    for (number, value) in list.iter().enumerate() {
        match step_of(alloc, value)? {
            Some(step) => steps.push(step)?,
            None => return Err(bad_step(alloc, number)),
        }
    }
    Ok(steps)
}

// The fault with the number of this step.
fn bad_step(alloc: Global, number: usize) -> ScriptFault
    ensures { IsBadAt (decimal number) result }
{
    match format!(in alloc; "{number}") {
        Ok(place) => ScriptFault::BadScript {
            place: Str::from_string(place),
        },
        Err(_) => ScriptFault::NoMemory,
    }
}
