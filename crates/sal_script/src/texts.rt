//! The texts of modules in a script, and their lengths.
ghost use Rattle.std.specs.Prelude.{◌≡◌, ◌+◌, ◌<◌, length, map, option_map, MatchOption};
ghost use Rattle.std.specs.List.{sum_by};
ghost use Rattle.serde_json.specs.Find.{as_str};
ghost use Rattle.serde_json.specs.View.{view};
ghost use Rattle.sal_script.specs.Limits.{all_texts, are_short};
ghost use Rattle.sal_script.specs.Reading.{Reads};
ghost use Rattle.sal_script.specs.Script as spec;

use crate::fault::{ScriptFault, bad};
use crate::values::list_of;
use sal_types::{Seq, Str};
use serde_json::Value;
use std::alloc::Global;

/// The largest number of bytes of the texts of a domain's modules together.
const MAX_BYTES: usize = (1 << 32) - 1;

/// The texts in an array, in the member of this name.
pub(crate) fn listed_texts(
    alloc: Global,
    name: &str,
    value: &Value,
) -> Result<Vec<Str>, ScriptFault>
    ensures { Reads (λ texts. texts.items) result (spec.or_bad name.now (spec.texts_in (view value.now))) }
{
    match list_of(value) {
        Some(list) => texts_of(alloc, name, list),
        None => Err(bad(alloc, name)),
    }
}

// These texts.
fn texts_of(alloc: Global, name: &str, list: &[Value]) -> Result<Vec<Str>, ScriptFault>
    ensures { Reads (λ texts. texts.items) result (spec.or_bad name.now (spec.all_of as_str (map view list.now))) }
{
    let mut texts = Vec::with_capacity(alloc, list.len())?;
    for value in list {
        match text_of(value) {
            Some(text) => texts.push(Str::new(alloc, text)?)?,
            None => return Err(bad(alloc, name)),
        }
    }
    Ok(texts)
}

// The text of a module.
fn text_of(value: &Value) -> Option<&str>
    ensures text { option_map (λ text. text.now) result ≡ as_str (view value.now) }
{
    value.as_str()
}

/// Whether texts have fewer than 2^32 bytes together.
pub(crate) fn are_short(texts: &[Str]) -> bool
    ensures { result ≡ are_short texts.now }
{
    matches!(room_after(MAX_BYTES, texts), Some(_))
}

/// Whether the texts of modules and of all upgrades have fewer than 2^32 bytes together.
pub(crate) fn are_all_short(modules: &[Str], upgrades: &[Seq<Str>]) -> bool
    ensures { result ≡ are_short (all_texts modules.now upgrades.now) }
{
    let Some(mut room) = room_after(MAX_BYTES, modules) else {
        return false;
    };
    for texts in upgrades {
        match room_after(room, texts.items()) {
            Some(left) => room = left,
            None => return false,
        }
    }
    true
}

// The remaining room after these texts; none if they have more bytes.
fn room_after(room: usize, texts: &[Str]) -> Option<usize>
    ensures { MatchOption result (room < sum_by length texts.now) (λ left. sum_by length texts.now + left ≡ room) }
{
    let mut left = room;
    for text in texts {
        let bytes = text.as_str().len();
        if bytes > left {
            return None;
        }
        left -= bytes;
    }
    Some(left)
}
