//! The steps of listeners, from the parts of JSON arrays.
ghost use Rattle.std.specs.Prelude.{◌≡◌, IfOk, MatchOption, Some, None, map, option_map};
ghost use Rattle.serde_json.specs.View.{view};
ghost use Rattle.sal_script.specs.Moves.{move_of};
ghost use Rattle.sal_script.specs.Moves as move;
ghost use Rattle.sal_script.specs.Steps as spec;

use crate::chain_step::chain_step_named;
use crate::script::ScriptStep;
use crate::step::{number_of, slot_alone, slot_of, store_of};
use sal_types::{NoMemory, Store, Str};
use serde_json::Value;
use std::alloc::Global;

// The step of a listener with this word and these parts, or else of a chain, a pump or a mark.
pub(crate) fn listener_step_named(
    alloc: Global,
    word: &str,
    parts: &[Value],
) -> Result<Option<ScriptStep>, NoMemory>
    ensures { IfOk result (λ found. option_map move_of found ≡ spec.listener_step_named word.now (map view parts.now)) }
{
    match word {
        "listen" => listen_of(alloc, parts),
        "take" => Ok(take_of(parts)),
        "unlisten" => Ok(unlisten_of(parts)),
        "mirror" => Ok(mirror_of(parts)),
        _ => Ok(chain_step_named(word, parts)),
    }
}

// The slot, the domain, the store and the text of a path.
fn listened_of(parts: &[Value]) -> Option<(u8, u32, Store, &str)>
    ensures { MatchOption result (spec.listen_of (map view parts.now) ≡ None) (λ at. spec.listen_of (map view parts.now) ≡ Some (move.Listen at.0 at.1 at.2 at.3.now)) }
{
    let [listener, domain, store, path] = parts else {
        return None;
    };
    let listener = slot_of(listener)?;
    let domain = number_of(domain)?;
    let store = store_of(store)?;
    let path = path.as_str()?;
    Some((listener, domain, store, path))
}

fn listen_of(alloc: Global, parts: &[Value]) -> Result<Option<ScriptStep>, NoMemory>
    ensures { IfOk result (λ found. option_map move_of found ≡ spec.listen_of (map view parts.now)) }
{
    let Some((listener, domain, store, text)) = listened_of(parts) else {
        return Ok(None);
    };
    let path = Str::new(alloc, text)?;
    Ok(Some(ScriptStep::Listen {
        listener,
        domain,
        store,
        path,
    }))
}

fn take_of(parts: &[Value]) -> Option<ScriptStep>
    ensures { option_map move_of result ≡ spec.slot_step_of move.Take (map view parts.now) }
{
    let listener = slot_alone(parts)?;
    Some(ScriptStep::Take { listener })
}

fn unlisten_of(parts: &[Value]) -> Option<ScriptStep>
    ensures { option_map move_of result ≡ spec.slot_step_of move.Unlisten (map view parts.now) }
{
    let listener = slot_alone(parts)?;
    Some(ScriptStep::Unlisten { listener })
}

fn mirror_of(parts: &[Value]) -> Option<ScriptStep>
    ensures { option_map move_of result ≡ spec.slot_step_of move.Mirror (map view parts.now) }
{
    let listener = slot_alone(parts)?;
    Some(ScriptStep::Mirror { listener })
}
