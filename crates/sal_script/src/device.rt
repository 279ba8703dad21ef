//! The modules and openings of domains, in the members of a script and of each device.
ghost use Rattle.std.specs.Prelude.{◌≡◌, ℕ, List, [], ◌∷◌, codes, map, option_and_then, option_map, IfOk, IfErr, IsTrue};
ghost use Rattle.std.specs.List.{list_all};
ghost use Rattle.serde_json.specs.Find.{get_member};
ghost use Rattle.serde_json.specs.View.{view, members_view};
ghost use Rattle.sal_json_laws.specs.Json.{HasJson, is_json};
ghost use Rattle.sal_script.specs.Reading.{Reads, device, devices};
ghost use Rattle.sal_script.specs.Limits.{are_few, are_short};
ghost use Rattle.sal_script.specs.Script as spec;
ghost use Rattle.sal_script.specs.declared.script.TheConstants.{PLAIN};

use crate::fault::{ScriptFault, bad, bad_device};
use crate::script::{MAX_DEVICES, PLAIN, ScriptDevice};
use crate::texts::{are_short, listed_texts};
use crate::values::{at_most, list_member, member, members_of};
use sal_types::{Seq, Str};
use serde_json::{Map, Value};
use std::alloc::Global;

// ---- modules

/// The texts of the modules of domain 0.
pub(crate) fn modules_of(
    alloc: Global,
    members: &Map<String, Value>,
) -> Result<Vec<Str>, ScriptFault>
    ensures texts { Reads (λ texts. texts.items) result (spec.or_bad (codes "modules") (spec.modules_member (members_view members.now.entries))) }
    ensures short { IfOk result (λ texts. IsTrue (are_short texts.items)) }
{
    match member(members, "modules") {
        None => plain(alloc),
        Some(value) => texts_in(alloc, value),
    }
}

// The text of the module `plain` alone.
fn plain(alloc: Global) -> Result<Vec<Str>, ScriptFault>
    ensures texts { IfOk result (λ texts. texts.items ≡ PLAIN.now ∷ []) }
    ensures short { IfOk result (λ texts. IsTrue (are_short texts.items)) }
    ensures fault { IfErr result (λ e. e ≡ ScriptFault.NoMemory) }
{
    let mut texts = Vec::new(alloc);
    texts.push(Str::new(alloc, PLAIN)?)?;
    Ok(texts)
}

// The texts of the modules in an array, of fewer than 2^32 bytes together.
fn texts_in(alloc: Global, value: &Value) -> Result<Vec<Str>, ScriptFault>
    ensures texts { Reads (λ texts. texts.items) result (spec.or_bad (codes "modules") (spec.texts_of (view value.now))) }
    ensures short { IfOk result (λ texts. IsTrue (are_short texts.items)) }
{
    match listed_texts(alloc, "modules", value) {
        Ok(texts) => short_texts(alloc, texts),
        Err(fault) => Err(fault),
    }
}

// These texts, if they have fewer than 2^32 bytes together.
fn short_texts(alloc: Global, texts: Vec<Str>) -> Result<Vec<Str>, ScriptFault>
    ensures texts { Reads (λ texts. texts.items) result (spec.or_bad (codes "modules") (spec.if_short texts.items)) }
    ensures short { IfOk result (λ texts. IsTrue (are_short texts.items)) }
{
    if !are_short(&texts) {
        return Err(bad(alloc, "modules"));
    }
    Ok(texts)
}

// ---- openings

/// The modules with the data of both openings.
pub(crate) fn with_openings(
    alloc: Global,
    members: &Map<String, Value>,
    modules: Vec<Str>,
) -> Result<ScriptDevice, ScriptFault>
    requires json { HasJson (members_view members.now.entries) }
    requires short { IsTrue (are_short modules.items) }
    ensures { Reads device result (spec.with_openings (members_view members.now.entries) modules.items) }
{
    let configured = with_config(alloc, members, modules)?;
    let opened = with_operational(alloc, members, configured)?;
    Ok(ScriptDevice {
        modules: Seq::from_items(opened.0),
        config: opened.1,
        operational: opened.2,
    })
}

// The modules with the data of the configuration.
fn with_config(
    alloc: Global,
    members: &Map<String, Value>,
    modules: Vec<Str>,
) -> Result<(Vec<Str>, Value), ScriptFault>
    requires { HasJson (members_view members.now.entries) }
    ensures config { Reads (λ read. view read.1) result (spec.or_bad (codes "config") (spec.opening_member (codes "config") (members_view members.now.entries))) }
    ensures json { IfOk result (λ read. IsTrue (is_json (view read.1))) }
    ensures modules { IfOk result (λ read. read.0 ≡ modules) }
{
    let config = opening_of(alloc, members, "config")?;
    Ok((modules, config))
}

// These with the operational data.
fn with_operational(
    alloc: Global,
    members: &Map<String, Value>,
    before: (Vec<Str>, Value),
) -> Result<(Vec<Str>, Value, Value), ScriptFault>
    requires { HasJson (members_view members.now.entries) }
    ensures operational { Reads (λ read. view read.2) result (spec.or_bad (codes "operational") (spec.opening_member (codes "operational") (members_view members.now.entries))) }
    ensures json { IfOk result (λ read. IsTrue (is_json (view read.2))) }
    ensures before { IfOk result (λ read. (read.0 ≡ before.0) × (read.1 ≡ before.1)) }
{
    let operational = opening_of(alloc, members, "operational")?;
    Ok((before.0, before.1, operational))
}

// The data of an opening tree, under the member of this name.
fn opening_of(alloc: Global, members: &Map<String, Value>, name: &str) -> Result<Value, ScriptFault>
    ensures { Reads view result (spec.or_bad name.now (spec.opening_member name.now (members_view members.now.entries))) }
{
    match member(members, name) {
        None => Ok(Value::Object(Map::new(alloc))),
        Some(value) if value.is_object() => Ok(value.clone()?),
        Some(_) => Err(bad(alloc, name)),
    }
}

/// Whether the openings are objects.
pub(crate) fn have_openings(alloc: Global, members: &Map<String, Value>) -> Result<(), ScriptFault>
    ensures { (texts : List (List ℕ)) → Reads (λ _. spec.with_opened (members_view members.now.entries) texts) result (spec.with_openings (members_view members.now.entries) texts) }
{
    has_opening(alloc, members, "config")?;
    has_opening(alloc, members, "operational")
}

// Whether the opening under the member of this name is an object.
fn has_opening(alloc: Global, members: &Map<String, Value>, name: &str) -> Result<(), ScriptFault>
    ensures { Reads (λ _. spec.opened name.now (members_view members.now.entries)) result (spec.or_bad name.now (spec.opening_member name.now (members_view members.now.entries))) }
{
    match member(members, name) {
        None => Ok(()),
        Some(value) if value.is_object() => Ok(()),
        Some(_) => Err(bad(alloc, name)),
    }
}

/// The data of both openings, taken out of the members. An absent one is empty.
pub(crate) fn openings_in(alloc: Global, members: Map<String, Value>) -> (Value, Value)
    ensures config { view result.0 ≡ spec.opened (codes "config") (members_view members.entries) }
    ensures operational { view result.1 ≡ spec.opened (codes "operational") (members_view members.entries) }
{
    let mut members = members;
    let config = taken(alloc, &mut members, "config");
    let operational = taken(alloc, &mut members, "operational");
    (config, operational)
}

// The data of the member of this name, taken out of the members. The other members stay.
fn taken(alloc: Global, members: &mut Map<String, Value>, name: &str) -> Value
    ensures value { view result ≡ spec.opened name.now (members_view members.old.entries) }
    ensures others { (other : List ℕ) → (other ≡ name.now → ⊥) → get_member other (members_view members.new.entries) ≡ get_member other (members_view members.old.entries) }
{
    match removed(members, name) {
        Some(value) => value,
        None => Value::Object(Map::new(alloc)),
    }
}

// The member of this name, removed from the members.
fn removed(members: &mut Map<String, Value>, name: &str) -> Option<Value>
    ensures value { option_map view result ≡ get_member name.now (members_view members.old.entries) }
    ensures others { (other : List ℕ) → (other ≡ name.now → ⊥) → get_member other (members_view members.new.entries) ≡ get_member other (members_view members.old.entries) }
{
    members.remove(name)
}

// ---- devices

/// The devices.
pub(crate) fn devices_in(
    alloc: Global,
    members: &Map<String, Value>,
) -> Result<Vec<ScriptDevice>, ScriptFault>
    requires { HasJson (members_view members.now.entries) }
    ensures devices { Reads (λ read. devices read.items) result (spec.devices_member (members_view members.now.entries)) }
    ensures few { IfOk result (λ read. IsTrue (are_few read.items)) }
{
    let listed = listed_devices(alloc, members)?;
    let devices = devices_of(alloc, listed)?;
    Ok(devices)
}

// The devices, not yet read.
fn listed_devices<'v>(
    alloc: Global,
    members: &'v Map<String, Value>,
) -> Result<&'v [Value], ScriptFault>
    ensures { Reads (λ list. map view list.now) result (spec.or_bad (codes "devices") (option_and_then (spec.at_most 63) (spec.list_member (codes "devices") (members_view members.now.entries)))) }
{
    match at_most(MAX_DEVICES, list_member(members, "devices")) {
        Some(list) => Ok(list),
        None => Err(bad(alloc, "devices")),
    }
}

// Each device of these.
fn devices_of(alloc: Global, list: &[Value]) -> Result<Vec<ScriptDevice>, ScriptFault>
    requires { IsTrue (list_all is_json (map view list.now)) }
    ensures { Reads (λ read. devices read.items) result (spec.devices_from 0 (map view list.now)) }
{
    let mut devices = Vec::new(alloc);
    for (number, value) in list.iter().enumerate() {
        let device = device_at(alloc, number, value)?;
        devices.push(device)?;
    }
    Ok(devices)
}

// The device of this number; the place of any fault in it is that of the device.
fn device_at(alloc: Global, number: usize, value: &Value) -> Result<ScriptDevice, ScriptFault>
    requires { IsTrue (is_json (view value.now)) }
    ensures { Reads device result (spec.placed (spec.device_place number) (spec.device_of (view value.now))) }
{
    match device_of(alloc, value) {
        Ok(device) => Ok(device),
        Err(ScriptFault::NoMemory) => Err(ScriptFault::NoMemory),
        Err(ScriptFault::BadScript { .. }) => Err(bad_device(alloc, number)),
    }
}

// A device.
fn device_of(alloc: Global, value: &Value) -> Result<ScriptDevice, ScriptFault>
    requires { IsTrue (is_json (view value.now)) }
    ensures { Reads device result (spec.device_of (view value.now)) }
{
    let members = device_members(alloc, value)?;
    let modules = device_modules(alloc, members)?;
    let device = with_openings(alloc, members, modules)?;
    Ok(device)
}

// The members of the object of a device, if it has only allowed ones.
fn device_members(alloc: Global, value: &Value) -> Result<&Map<String, Value>, ScriptFault>
    ensures { Reads (λ members. members_view members.now.entries) result (spec.or_bad (codes "devices") (spec.members_of spec.device_names (view value.now))) }
{
    match members_of(value, &["modules", "config", "operational"]) {
        Some(members) => Ok(members),
        None => Err(bad(alloc, "devices")),
    }
}

// The texts of a device's modules.
fn device_modules(alloc: Global, members: &Map<String, Value>) -> Result<Vec<Str>, ScriptFault>
    ensures texts { Reads (λ texts. texts.items) result (spec.or_bad (codes "modules") (option_and_then spec.texts_of (get_member (codes "modules") (members_view members.now.entries)))) }
    ensures short { IfOk result (λ texts. IsTrue (are_short texts.items)) }
{
    match member(members, "modules") {
        Some(value) => texts_in(alloc, value),
        None => Err(bad(alloc, "modules")),
    }
}
