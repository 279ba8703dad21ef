//! One single step of one client.
ghost use Rattle.std.specs.Prelude.{◌≡◌, IfErr, IsTrue, List, OnOk};
ghost use Rattle.sal_client.specs.Clients.{IsSound, client_of};
ghost use Rattle.sal_client.specs.Runs.{MakesNext};
ghost use Rattle.sal_client.specs.Wishes.{CanMake, GrowsAtMost, ReadBy};
ghost use Rattle.sal_script.specs.JsonMoves.{is_json_move};
ghost use Rattle.sal_script.specs.Moves.{move_of};
ghost use Rattle.sal_script.specs.Tables.{Versions, versions_of};
ghost use Rattle.sal_embed.specs.Answers.{IsAnswered, Refuses, Stops};

use sal_client::{ClientRun, Readers, RunFault, Wish};
use sal_hub::{Hub, MAX_ENTRIES};
use sal_io::OpenGate;
use sal_script::ScriptStep;
use sal_types::NoMemory;
use std::alloc::Global;
use std::slice;

/// Makes one step of the client, with its shared call if it has one. If the log is full and the step has a call, hub and client are
/// unchanged. If memory runs out, the client must not be used again, and the hub may or may not have the call's entry.
pub(crate) fn step_client(
    alloc: Global,
    readers: &Readers,
    hub: &mut Hub,
    run: &mut ClientRun,
    step: &ScriptStep,
) -> Result<(), RunFault>
    requires sound { IsSound hub.old run.old.client }
    requires tables { readers.now ≡ versions_of hub.old.world }
    requires json { IsTrue (is_json_move (move_of step.now)) }
    ensures answers { OnOk result (IsAnswered readers.now (move_of step.now) hub.old run.old.client hub.new run.new.client) }
    ensures sound { OnOk result (IsSound hub.new run.new.client) }
    ensures number { OnOk result (run.new.client.number ≡ run.old.client.number) }
    ensures grows { GrowsAtMost run.old.client.number hub.old hub.new }
    ensures stops { IfErr result (Stops hub.old run.old.client hub.new run.new.client) }
{
    run.at = 0;
    match run.next(alloc, readers, slice::from_ref(step), &OpenGate) {
        Ok(None) => Ok(()),
        Ok(Some(wish)) => make_call(alloc, hub, run, wish),
        Err(NoMemory) => Err(RunFault::NoMemory),
    }
}

// Makes the call, unless the log is full: then nothing has changed.
fn make_call(alloc: Global, hub: &mut Hub, run: &mut ClientRun, wish: Wish) -> Result<(), RunFault>
    requires sound { IsSound hub.old run.old.client }
    requires can { CanMake wish run.old.client }
    requires read { ReadBy (versions_of hub.old.world) wish }
    ensures makes { OnOk result ((tables : List Versions) → ReadBy tables wish → MakesNext tables run.old.client.number hub.old wish (client_of run.old.client) hub.new (client_of run.new.client)) }
    ensures sound { OnOk result (IsSound hub.new run.new.client) }
    ensures number { OnOk result (run.new.client.number ≡ run.old.client.number) }
    ensures grows { GrowsAtMost run.old.client.number hub.old hub.new }
    ensures refuses { IfErr result (Refuses hub.old run.old hub.new run.new) }
{
    if hub.log().len() >= MAX_ENTRIES {
        return Err(RunFault::HistoryFull);
    }
    match run.make(alloc, hub, wish) {
        Ok(()) => Ok(()),
        Err(RunFault::NoMemory) => Err(RunFault::NoMemory),
        Err(RunFault::HistoryFull) => unreachable!(),
    }
}
