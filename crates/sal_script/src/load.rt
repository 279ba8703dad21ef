//! The script of a load: four clients that put entries into one list in rounds, each its own entries.
ghost use Rattle.std.specs.Prelude.{◌≡◌, ◌<◌, ◌≤◌, ◌++◌, false, [], ◌∷◌, IfOk, IsTrue};
ghost use Rattle.serde_json.specs.Data.{no_members, object};
ghost use Rattle.serde_json.specs.View.{view};
ghost use Rattle.sal_rows.specs.declared.clash.Rules.TheVariants.{One};
ghost use Rattle.sal_script.specs.JsonMoves.{have_json_moves};
ghost use Rattle.sal_script.specs.Limits.{are_short, within_limits};
ghost use Rattle.sal_script.specs.Load as spec;
ghost use Rattle.sal_script.specs.Moves as move;
ghost use Rattle.sal_script.specs.Moves.{clients_of, move_of, moves_of};
ghost use Rattle.sal_script.specs.Reading.{parts};
ghost use Rattle.sal_script.specs.declared.load.TheConstants.{LOAD_MODULE};

use crate::script::{Program, Script, ScriptStep};
use sal_rows::{Mode, Rules};
use sal_types::{NoMemory, Seq, Store, Str};
use serde_json::{Map, Value, json};
use std::alloc::Global;

/// The module of a load: a list of numbers by their keys.
pub const LOAD_MODULE: &str =
    "module load { namespace \"urn:load\"; prefix l; list cell { key k; leaf k { type uint32; } leaf v { type uint32; } } }";

/// The largest number of rounds of a load.
pub const MAX_ROUNDS: u32 = 10000;

/// The largest start value of a load.
pub const MAX_START: u32 = 65536;

/// The number of clients of a load.
pub const LOAD_CLIENTS: u32 = 4;

/// The script of a load of this many rounds, over the module `LOAD_MODULE` and empty trees. In each round each of its four clients puts
/// one entry in its own transaction, and settles it. The entries have the numbers after `start`, each once. There is no order.
pub fn load_script(alloc: Global, rounds: u32, start: u32) -> Result<Script, NoMemory>
    requires rounds { rounds ≤ 10000 }
    requires start { start ≤ 65536 }
    ensures { IfOk result (λ script. parts script ≡ spec.parts_of rounds start) }
{
    let clients = clients(alloc, rounds, start)?;
    over_nothing(alloc, clients)
}

// The script of these clients.
fn over_nothing(alloc: Global, clients: Vec<Program>) -> Result<Script, NoMemory>
    requires limits { IsTrue (within_limits clients.items) }
    requires json { IsTrue (have_json_moves (clients_of clients.items)) }
    ensures { IfOk result (λ script. parts script ≡ record { modules = LOAD_MODULE.now ∷ []; upgrades = []; config = object no_members; operational = object no_members; devices = []; clients = clients_of clients.items; order = []; rules = One; checked = false }) }
{
    let modules = modules(alloc)?;
    Ok(Script {
        modules: Seq::from_items(modules),
        upgrades: Seq::new(alloc),
        config: Value::Object(Map::new(alloc)),
        operational: Value::Object(Map::new(alloc)),
        devices: Seq::new(alloc),
        clients: Seq::from_items(clients),
        order: Seq::new(alloc),
        rules: Rules::One,
        checked_reads: false,
    })
}

// The text of the module alone.
fn modules(alloc: Global) -> Result<Vec<Str>, NoMemory>
    ensures texts { IfOk result (λ texts. texts.items ≡ LOAD_MODULE.now ∷ []) }
    ensures short { IfOk result (λ texts. IsTrue (are_short texts.items)) }
{
    let mut texts = Vec::new(alloc);
    texts.push(Str::new(alloc, LOAD_MODULE)?)?;
    Ok(texts)
}

// The programs of the four clients: short ones, whose values are JSON.
fn clients(alloc: Global, rounds: u32, start: u32) -> Result<Vec<Program>, NoMemory>
    requires rounds { rounds ≤ 10000 }
    requires start { start ≤ 65536 }
    ensures programs { IfOk result (λ clients. clients_of clients.items ≡ spec.clients_of rounds start) }
    ensures limits { IfOk result (λ clients. IsTrue (within_limits clients.items)) }
    ensures json { IfOk result (λ clients. IsTrue (have_json_moves (clients_of clients.items))) }
{
    let clients = programs(alloc, rounds, start)?;
    Ok(clients)
}

fn programs(alloc: Global, rounds: u32, start: u32) -> Result<Vec<Program>, NoMemory>
    requires rounds { rounds ≤ 10000 }
    requires start { start ≤ 65536 }
    ensures { IfOk result (λ clients. clients_of clients.items ≡ spec.clients_of rounds start) }
{
    let mut clients = Vec::new(alloc);
    for client in 0..LOAD_CLIENTS {
        clients.push(program(alloc, client, rounds, start)?)?;
    }
    Ok(clients)
}

// The program of a client.
fn program(alloc: Global, client: u32, rounds: u32, start: u32) -> Result<Program, NoMemory>
    requires client { client < 4 }
    requires rounds { rounds ≤ 10000 }
    requires start { start ≤ 65536 }
    ensures { IfOk result (λ steps. moves_of steps ≡ spec.program_of start client rounds) }
{
    let mut steps = Vec::with_capacity(alloc, rounds as usize * 4)?;
    for round in 0..rounds {
        let key = u64::from(client) * 1000000 + u64::from(round);
        let value = u64::from(start) + 4 * u64::from(round) + u64::from(client) + 1;
        push_round(alloc, &mut steps, key, value)?;
    }
    Ok(Seq::from_items(steps))
}

// One more round: a transaction that puts one entry.
fn push_round(
    alloc: Global,
    steps: &mut Vec<ScriptStep>,
    key: u64,
    value: u64,
) -> Result<(), NoMemory>
    ensures { IfOk result (λ _. moves_of steps.new.items ≡ moves_of steps.old.items ++ spec.round_of key value) }
{
    let put = put(alloc, key, value)?;
    push_steps(steps, put)
}

// A transaction of this one write, after the others.
fn push_steps(steps: &mut Vec<ScriptStep>, write: ScriptStep) -> Result<(), NoMemory>
    ensures { IfOk result (λ _. moves_of steps.new.items ≡ moves_of steps.old.items ++ move.Begin 0 0 Mode.Rw ∷ move_of write ∷ move.Submit 0 ∷ move.Settle 0 ∷ []) }
{
    let begin = ScriptStep::Begin {
        slot: 0,
        domain: 0,
        mode: Mode::Rw,
    };
    push_step(steps, begin)?;
    push_step(steps, write)?;
    push_step(steps, ScriptStep::Submit { slot: 0 })?;
    push_step(steps, ScriptStep::Settle { slot: 0 })
}

fn push_step(steps: &mut Vec<ScriptStep>, step: ScriptStep) -> Result<(), NoMemory>
    ensures { IfOk result (λ _. steps.new.items ≡ steps.old.items ++ step ∷ []) }
{
    steps.push(step)?;
    Ok(())
}

// The put of the entry with this key and this number.
fn put(alloc: Global, key: u64, value: u64) -> Result<ScriptStep, NoMemory>
    ensures { IfOk result (λ step. move_of step ≡ move.Put 0 Store.Config (spec.entry_path key) (spec.entry_data key value)) }
{
    let path = entry_path(alloc, key)?;
    let value = entry(alloc, key, value)?;
    Ok(ScriptStep::Put {
        slot: 0,
        store: Store::Config,
        path,
        value,
    })
}

fn entry_path(alloc: Global, key: u64) -> Result<Str, NoMemory>
    ensures { IfOk result (λ path. path ≡ spec.entry_path key) }
{
    let mut path = String::new(alloc);
    write!(path, "/load:cell[k='{key}']")?;
    Ok(Str::from_string(path))
}

fn entry(alloc: Global, key: u64, value: u64) -> Result<Value, NoMemory>
    ensures { IfOk result (λ entry. view entry ≡ spec.entry_data key value) }
{
    let entry = json!(in alloc; {"k": key, "v": value})?;
    Ok(entry)
}
