//! The steps of chains, pumps, marks and upgrades, from the parts of JSON arrays.
ghost use Rattle.std.specs.Prelude.{◌≡◌, map, option_map};
ghost use Rattle.serde_json.specs.View.{view};
ghost use Rattle.sal_script.specs.Moves.{move_of};
ghost use Rattle.sal_script.specs.Moves as move;
ghost use Rattle.sal_script.specs.Steps as spec;

use crate::script::{MAX_UPGRADES, ScriptStep};
use crate::step::{mode_of, number_alone, number_of, slot_alone, slot_of};
use crate::values::whole_below;
use serde_json::Value;

// The step of a chain, a pump, a mark or an upgrade with this word and these parts.
pub(crate) fn chain_step_named(word: &str, parts: &[Value]) -> Option<ScriptStep>
    ensures { option_map move_of result ≡ spec.chain_step_named word.now (map view parts.now) }
{
    match word {
        "chain" => open_chain_of(parts),
        "chain-begin" => chain_begin_of(parts),
        "close-chain" => close_chain_of(parts),
        "pump" => pump_of(parts),
        "mark" => mark_of(parts),
        "after" => after_of(parts),
        "upgrade" => upgrade_of(parts),
        _ => None,
    }
}

fn open_chain_of(parts: &[Value]) -> Option<ScriptStep>
    ensures { option_map move_of result ≡ spec.open_chain_of (map view parts.now) }
{
    let [chain, domain] = parts else {
        return None;
    };
    let chain = slot_of(chain)?;
    let domain = number_of(domain)?;
    Some(ScriptStep::OpenChain { chain, domain })
}

fn chain_begin_of(parts: &[Value]) -> Option<ScriptStep>
    ensures { option_map move_of result ≡ spec.chain_begin_of (map view parts.now) }
{
    let [chain, slot, mode] = parts else {
        return None;
    };
    let chain = slot_of(chain)?;
    let slot = slot_of(slot)?;
    let mode = mode_of(mode)?;
    Some(ScriptStep::ChainBegin { chain, slot, mode })
}

fn close_chain_of(parts: &[Value]) -> Option<ScriptStep>
    ensures { option_map move_of result ≡ spec.slot_step_of move.CloseChain (map view parts.now) }
{
    let chain = slot_alone(parts)?;
    Some(ScriptStep::CloseChain { chain })
}

fn pump_of(parts: &[Value]) -> Option<ScriptStep>
    ensures { option_map move_of result ≡ spec.pump_of (map view parts.now) }
{
    match parts {
        [] => Some(ScriptStep::Pump),
        _ => None,
    }
}

fn mark_of(parts: &[Value]) -> Option<ScriptStep>
    ensures { option_map move_of result ≡ spec.number_step_of move.Mark (map view parts.now) }
{
    let mark = number_alone(parts)?;
    Some(ScriptStep::Mark { mark })
}

fn after_of(parts: &[Value]) -> Option<ScriptStep>
    ensures { option_map move_of result ≡ spec.number_step_of move.After (map view parts.now) }
{
    let mark = number_alone(parts)?;
    Some(ScriptStep::After { mark })
}

fn upgrade_of(parts: &[Value]) -> Option<ScriptStep>
    ensures { option_map move_of result ≡ spec.upgrade_of (map view parts.now) }
{
    let [version] = parts else {
        return None;
    };
    let version = version_of(version)?;
    Some(ScriptStep::Upgrade { version })
}

// The version of an upgrade.
fn version_of(value: &Value) -> Option<u32>
    ensures { result ≡ spec.version_of (view value.now) }
{
    match whole_below(MAX_UPGRADES as u64 + 1, value) {
        Some(0) => None,
        Some(version) => Some(version as u32),
        None => None,
    }
}
