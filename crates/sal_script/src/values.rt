//! Parts of JSON values, as in the definitions.
ghost use Rattle.std.specs.Prelude.{◌≡◌, option_and_then, option_map, map};
ghost use Rattle.std.specs.List.{list_any};
ghost use Rattle.serde_json.specs.View.{view, members_view};
ghost use Rattle.serde_json.specs.Find.{get_member};
ghost use Rattle.sal_script.specs.Json.{all_named, list_of, text_eq, whole_below};
ghost use Rattle.sal_script.specs.Script.{at_most, list_member, members_of};

use serde_json::{Map, Value};

/// The values of an array, in order; none of another value.
pub fn list_of(value: &Value) -> Option<&[Value]>
    ensures { option_map (λ list. map view list.now) result ≡ list_of (view value.now) }
{
    match value.as_array() {
        Some(list) => Some(list.as_slice()),
        None => None,
    }
}

// A whole number below the limit.
pub(crate) fn whole_below(limit: u64, value: &Value) -> Option<u64>
    ensures { result ≡ whole_below limit (view value.now) }
{
    match value.as_u64() {
        Some(number) if number < limit => Some(number),
        _ => None,
    }
}

// The members of an object that has only these.
pub(crate) fn members_of<'v>(value: &'v Value, names: &[&str]) -> Option<&'v Map<String, Value>>
    ensures { option_map (λ members. members_view members.now.entries) result ≡ members_of (map (λ name. name.now) names.now) (view value.now) }
{
    match value.as_object() {
        Some(members) if has_only(members, names) => Some(members),
        _ => None,
    }
}

// The member of this name.
pub(crate) fn member<'v>(members: &'v Map<String, Value>, name: &str) -> Option<&'v Value>
    ensures { option_map (λ found. view found.now) result ≡ get_member name.now (members_view members.now.entries) }
{
    members.get(name)
}

// The values of an array member; an absent one is empty.
pub(crate) fn list_member<'v>(members: &'v Map<String, Value>, name: &str) -> Option<&'v [Value]>
    ensures { option_map (λ list. map view list.now) result ≡ list_member name.now (members_view members.now.entries) }
{
    match member(members, name) {
        Some(value) => list_of(value),
        None => Some(&[]),
    }
}

// The list, unless it is longer than the limit.
pub(crate) fn at_most(limit: usize, list: Option<&[Value]>) -> Option<&[Value]>
    ensures { option_map (λ found. map view found.now) result ≡ option_and_then (at_most limit) (option_map (λ found. map view found.now) list.entry) }
{
    match list {
        Some(found) if found.len() <= limit => Some(found),
        _ => None,
    }
}

// Whether every member has one of the names.
pub(crate) fn has_only(members: &Map<String, Value>, names: &[&str]) -> bool
    ensures { result ≡ all_named (map (λ name. name.now) names.now) (members_view members.now.entries) }
{
    for (key, _) in members.iter() {
        if !is_among(key.as_str(), names) {
            return false;
        }
    }
    true
}

// Whether the name is one of these.
fn is_among(name: &str, names: &[&str]) -> bool
    ensures { result ≡ list_any (λ listed. text_eq name.now listed.now) names.now }
{
    names.iter().any(|listed| name == *listed)
}
