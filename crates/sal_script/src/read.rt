//! Scripts, read from JSON (RFC 8259).
ghost use Rattle.std.specs.Prelude.{◌≡◌, codes, map, option_and_then, option_map, IfOk, IsTrue};
ghost use Rattle.serde_json.specs.Data.{object};
ghost use Rattle.serde_json.specs.Find.{as_str};
ghost use Rattle.serde_json.specs.View.{view, members_view};
ghost use Rattle.sal_json_laws.specs.Json.{HasJson};
ghost use Rattle.sal_script.specs.JsonMoves.{have_json_moves, is_json_move};
ghost use Rattle.sal_script.specs.Json.{data_of};
ghost use Rattle.sal_script.specs.Reading.{Reads, ReadsScript, devices, ending, parts};
ghost use Rattle.sal_script.specs.Steps.{number_of};
ghost use Rattle.sal_script.specs.Moves.{clients_of, move_of, moves_of};
ghost use Rattle.sal_script.specs.Limits.{are_few, within_limits};
ghost use Rattle.sal_script.specs.Script as spec;

use crate::checked::{step_with, with_reads};
use crate::device::{devices_in, openings_in};
use crate::fault::{ScriptFault, bad, bad_client, bad_step};
use crate::script::{
    MAX_CLIENTS, MAX_PROGRAM, OwnDomain, Program, Script, ScriptDevice, ScriptStep,
};
use crate::step::step_of;
use crate::upgrades::own_of;
use crate::values::{at_most, has_only, list_member, list_of, member, members_of, whole_below};
use sal_rows::Rules;
use sal_types::Seq;
use serde_json::{Map, Value};
use std::alloc::Global;

/// The script that bytes denote, or the first fault: of the bytes as JSON, the object's members, `modules`, `upgrades`, `config`,
/// `operational`, `devices` and each device, `clients` and each client, the steps of each client, `order`, `rules`, `reads`.
pub fn read_script(alloc: Global, bytes: &[u8]) -> Result<Script, ScriptFault>
    ensures { ReadsScript result (spec.script_of bytes.now) }
{
    let value = value_of(alloc, bytes)?;
    let members = script_members(alloc, value)?;
    parts_of(alloc, members)
}

/// The JSON value that bytes denote.
pub fn value_of(alloc: Global, bytes: &[u8]) -> Result<Value, ScriptFault>
    ensures { Reads view result (spec.or_bad (codes "json") (data_of bytes.now)) }
{
    let Ok(text) = str::from_utf8(bytes) else {
        return Err(bad(alloc, "json"));
    };
    match Value::from_str(alloc, text) {
        Ok(value) => Ok(value),
        Err(error) if error.is_memory() => Err(ScriptFault::NoMemory),
        Err(_) => Err(bad(alloc, "json")),
    }
}

/// The single step that bytes denote: JSON in the form of a client's steps, in a script whose reads are checked or not. The place of a
/// fault is `step`.
pub fn read_step(alloc: Global, checked: bool, bytes: &[u8]) -> Result<ScriptStep, ScriptFault>
    ensures reads { Reads move_of result (spec.one_step checked bytes.now) }
    ensures json { IfOk result (λ step. IsTrue (is_json_move (move_of step))) }
{
    let step = bare_step(alloc, bytes)?;
    Ok(step_with(checked, step))
}

// The step as it is written.
fn bare_step(alloc: Global, bytes: &[u8]) -> Result<ScriptStep, ScriptFault>
    ensures reads { Reads move_of result (spec.bare_step bytes.now) }
    ensures json { IfOk result (λ step. IsTrue (is_json_move (move_of step))) }
{
    let value = value_of(alloc, bytes)?;
    match step_of(alloc, &value)? {
        Some(step) => Ok(step),
        None => Err(bad(alloc, "step")),
    }
}

// The members of the object of a script, if it has only allowed ones.
fn script_members(alloc: Global, value: Value) -> Result<Map<String, Value>, ScriptFault>
    ensures { Reads (λ members. members_view members.entries) result (spec.or_bad (codes "script") (spec.members_of spec.names (view value))) }
{
    match value {
        Value::Object(members) => named_members(alloc, members),
        _ => Err(bad(alloc, "script")),
    }
}

// These members, if a script may have all of them.
fn named_members(
    alloc: Global,
    members: Map<String, Value>,
) -> Result<Map<String, Value>, ScriptFault>
    ensures { Reads (λ named. members_view named.entries) result (spec.or_bad (codes "script") (spec.members_of spec.names (object (members_view members.entries)))) }
{
    let names = &[
        "modules",
        "upgrades",
        "config",
        "operational",
        "devices",
        "clients",
        "order",
        "rules",
        "reads",
    ];
    if has_only(&members, names) {
        return Ok(members);
    }
    Err(bad(alloc, "script"))
}

// The members of a script before its order.
#[derive(Drop)]
struct Beginning {
    own: OwnDomain,
    devices: Vec<ScriptDevice>,
    clients: Vec<Program>,
}

// The members after the clients.
#[derive(Drop)]
struct Ending {
    order: Vec<u32>,
    rules: Rules,
    checked_reads: bool,
}

// Each part is read after those before it, which are passed by value: after a fault there is one value to drop.
fn parts_of(alloc: Global, members: Map<String, Value>) -> Result<Script, ScriptFault>
    requires { HasJson (members_view members.entries) }
    ensures { Reads parts result (spec.parts_of (members_view members.entries)) }
{
    let own = own_of(alloc, &members)?;
    let domains = with_devices(alloc, &members, own)?;
    let beginning = with_clients(alloc, &members, domains)?;
    let ending = ending_of(alloc, &members)?;
    let clients = with_reads(alloc, ending.checked_reads, beginning.clients);
    let own = beginning.own;
    let (config, operational) = openings_in(alloc, members);
    Ok(Script {
        modules: own.modules,
        upgrades: own.upgrades,
        config,
        operational,
        devices: Seq::from_items(beginning.devices),
        clients: Seq::from_items(clients),
        order: Seq::from_items(ending.order),
        rules: ending.rules,
        checked_reads: ending.checked_reads,
    })
}

// This with the devices.
fn with_devices(
    alloc: Global,
    members: &Map<String, Value>,
    own: OwnDomain,
) -> Result<(OwnDomain, Vec<ScriptDevice>), ScriptFault>
    requires { HasJson (members_view members.now.entries) }
    ensures devices { Reads (λ read. devices read.1.items) result (spec.devices_member (members_view members.now.entries)) }
    ensures few { IfOk result (λ read. IsTrue (are_few read.1.items)) }
    ensures own { IfOk result (λ read. read.0 ≡ own) }
{
    let devices = devices_in(alloc, members)?;
    Ok((own, devices))
}

// These with the clients.
fn with_clients(
    alloc: Global,
    members: &Map<String, Value>,
    domains: (OwnDomain, Vec<ScriptDevice>),
) -> Result<Beginning, ScriptFault>
    requires { HasJson (members_view members.now.entries) }
    ensures clients { Reads (λ read. clients_of read.clients.items) result (spec.clients_member (members_view members.now.entries)) }
    ensures limits { IfOk result (λ read. IsTrue (within_limits read.clients.items)) }
    ensures json { IfOk result (λ read. IsTrue (have_json_moves (clients_of read.clients.items))) }
    ensures domains { IfOk result (λ read. (read.own ≡ domains.0) × (read.devices ≡ domains.1)) }
{
    let clients = clients_in(alloc, members)?;
    Ok(Beginning {
        own: domains.0,
        devices: domains.1,
        clients,
    })
}

// The clients.
fn clients_in(alloc: Global, members: &Map<String, Value>) -> Result<Vec<Program>, ScriptFault>
    requires { HasJson (members_view members.now.entries) }
    ensures clients { Reads (λ clients. clients_of clients.items) result (spec.clients_member (members_view members.now.entries)) }
    ensures limits { IfOk result (λ clients. IsTrue (within_limits clients.items)) }
    ensures json { IfOk result (λ clients. IsTrue (have_json_moves (clients_of clients.items))) }
{
    let listed = listed_clients(alloc, members)?;
    let programs = programs_of(alloc, listed)?;
    let clients = clients_of(alloc, &programs)?;
    Ok(clients)
}

// The clients, not yet read.
fn listed_clients<'v>(
    alloc: Global,
    members: &'v Map<String, Value>,
) -> Result<&'v [Value], ScriptFault>
    ensures { Reads (λ clients. map view clients.now) result (spec.or_bad (codes "clients") (option_and_then (spec.at_most 16) (spec.list_member (codes "clients") (members_view members.now.entries)))) }
{
    match at_most(MAX_CLIENTS, list_member(members, "clients")) {
        Some(clients) => Ok(clients),
        None => Err(bad(alloc, "clients")),
    }
}

// Each client's steps, not yet read.
fn programs_of<'v>(alloc: Global, clients: &'v [Value]) -> Result<Vec<&'v [Value]>, ScriptFault>
    ensures { Reads (λ programs. map (λ program. map view program.now) programs.items) result (spec.programs_from 0 (map view clients.now)) }
{
    let mut programs = Vec::new(alloc);
    for (client, value) in clients.iter().enumerate() {
        match program_of(value) {
            Some(program) => programs.push(program)?,
            None => return Err(bad_client(alloc, client)),
        }
    }
    Ok(programs)
}

// A client's steps, not yet read.
fn program_of(value: &Value) -> Option<&[Value]>
    ensures { option_map (λ list. map view list.now) result ≡ spec.program_of (view value.now) }
{
    let members = members_of(value, &["steps"])?;
    let steps = member(members, "steps")?;
    at_most(MAX_PROGRAM, list_of(steps))
}

// The steps of each client.
fn clients_of(alloc: Global, programs: &[&[Value]]) -> Result<Vec<Program>, ScriptFault>
    ensures { Reads (λ clients. clients_of clients.items) result (spec.clients_from 0 (map (λ program. map view program.now) programs.now)) }
{
    let mut clients = Vec::new(alloc);
    for (client, program) in programs.iter().enumerate() {
        let steps = steps_of(alloc, client, program)?;
        clients.push(Seq::from_items(steps))?;
    }
    Ok(clients)
}

// The steps of one client.
fn steps_of(alloc: Global, client: usize, program: &[Value]) -> Result<Vec<ScriptStep>, ScriptFault>
    ensures { Reads (λ steps. moves_of steps.items) result (spec.steps_from client 0 (map view program.now)) }
{
    let mut steps = Vec::new(alloc);
    for (number, value) in program.iter().enumerate() {
        match step_of(alloc, value)? {
            Some(step) => steps.push(step)?,
            None => return Err(bad_step(alloc, client, number)),
        }
    }
    Ok(steps)
}

// The order, the version rules, and whether reads are checked.
fn ending_of(alloc: Global, members: &Map<String, Value>) -> Result<Ending, ScriptFault>
    ensures { Reads ending result (spec.ending_of (members_view members.now.entries)) }
{
    let order = order_of(alloc, members)?;
    let rules = rules_of(alloc, members)?;
    let checked_reads = reads_of(alloc, members)?;
    Ok(Ending {
        order,
        rules,
        checked_reads,
    })
}

// Whether reads are checked; they are not if the script does not have the member.
fn reads_of(alloc: Global, members: &Map<String, Value>) -> Result<bool, ScriptFault>
    ensures { Reads (λ checked. checked) result (spec.or_bad (codes "reads") (spec.reads_member (members_view members.now.entries))) }
{
    match reads_member(members) {
        Some(checked) => Ok(checked),
        None => Err(bad(alloc, "reads")),
    }
}

fn reads_member(members: &Map<String, Value>) -> Option<bool>
    ensures { result ≡ spec.reads_member (members_view members.now.entries) }
{
    match member(members, "reads") {
        None => Some(false),
        Some(value) => reads_in(value),
    }
}

fn reads_in(value: &Value) -> Option<bool>
    ensures { result ≡ option_and_then spec.checked_by (as_str (view value.now)) }
{
    match value.as_str() {
        Some("checked") => Some(true),
        _ => None,
    }
}

// The version rules, which are 1 if the script does not have the member.
fn rules_of(alloc: Global, members: &Map<String, Value>) -> Result<Rules, ScriptFault>
    ensures { Reads (λ rules. rules) result (spec.or_bad (codes "rules") (spec.rules_member (members_view members.now.entries))) }
{
    match rules_member(members) {
        Some(rules) => Ok(rules),
        None => Err(bad(alloc, "rules")),
    }
}

fn rules_member(members: &Map<String, Value>) -> Option<Rules>
    ensures { result ≡ spec.rules_member (members_view members.now.entries) }
{
    match member(members, "rules") {
        None => Some(Rules::One),
        Some(value) => rules_in(value),
    }
}

// The version rules of this number.
fn rules_in(value: &Value) -> Option<Rules>
    ensures { result ≡ option_and_then spec.rules_by (number_of (view value.now)) }
{
    match whole_below(1 << 32, value) {
        None => None,
        Some(number) => rules_by(number),
    }
}

fn rules_by(number: u64) -> Option<Rules>
    ensures { result ≡ spec.rules_by number }
{
    if number == 1 {
        Some(Rules::One)
    } else if number == 2 {
        Some(Rules::Two)
    } else {
        None
    }
}

// The client numbers of the order.
fn order_of(alloc: Global, members: &Map<String, Value>) -> Result<Vec<u32>, ScriptFault>
    ensures { Reads (λ numbers. numbers.items) result (spec.or_bad (codes "order") (option_and_then spec.numbers_of (spec.list_member (codes "order") (members_view members.now.entries)))) }
{
    match list_member(members, "order") {
        Some(list) => numbers_of(alloc, list),
        None => Err(bad(alloc, "order")),
    }
}

// Whole numbers below 2^32.
fn numbers_of(alloc: Global, list: &[Value]) -> Result<Vec<u32>, ScriptFault>
    ensures { Reads (λ numbers. numbers.items) result (spec.or_bad (codes "order") (spec.numbers_of (map view list.now))) }
{
    let mut numbers = Vec::with_capacity(alloc, list.len())?;
    for value in list {
        match whole_below(1 << 32, value) {
            Some(number) => numbers.push(number as u32)?,
            None => return Err(bad(alloc, "order")),
        }
    }
    Ok(numbers)
}
