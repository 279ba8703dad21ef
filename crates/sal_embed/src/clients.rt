//! The clients of an embedded broker over its hub.
ghost use Rattle.std.specs.Prelude.{◌≡◌, ◌≤◌, ◌<◌, IfOk, IsTrue, OnOk, length, map, nat_lt};
ghost use Rattle.std.specs.List.{flat_map};
ghost use Rattle.sal_prepare.specs.Scripted.{tables_in};
ghost use Rattle.sal_script.specs.JsonMoves.{is_json_move};
ghost use Rattle.sal_script.specs.Moves.{move_of};
ghost use Rattle.sal_script.specs.Tables.{tables_of, versions_of};
ghost use Rattle.sal_embed.specs.Broker.{AllFollow, AreCallers, AreNear, AreTold, joined, lines_in, report_with};
ghost use Rattle.sal_embed.specs.Outcomes.{IsPlacing, Makes, Reports, broken_if};
ghost use Rattle.sal_embed.specs.Waiting.{Waits};

use crate::caller::Caller;
use crate::fault::StepFault;
use crate::waiting::{Waiting, waiting_before};
use sal_client::Readers;
use sal_hub::{Hub, laws};
use sal_prepare::plays::trees_of;
use sal_report::report_of_lines;
use sal_schema::Schema;
use sal_script::ScriptStep;
use sal_types::{NoMemory, Str};
use std::alloc::Global;
use std::sync::Arc;

/// The hub, the clients that have a place, by number, and whether their reads are checked.
pub struct Clients {
    pub(crate) hub: Hub,
    pub(crate) callers: Vec<Caller>,
    pub(crate) checked_reads: bool,
}

impl Drop for Clients {
    fn drop(self) {
        let Clients {
            hub: _,
            callers: _,
            checked_reads: _,
        } = self;
    }
}

impl Clients {
    /// The hub. The clients are dropped, with the lines of their steps.
    pub(crate) fn into_hub(self) -> Hub
        ensures { result ≡ self.hub }
    {
        let Clients {
            hub,
            callers: _,
            checked_reads: _,
        } = self;
        hub
    }

    /// Makes a place for the client, and for each of a lower number.
    pub(crate) fn place(&mut self, alloc: Global, client: u32) -> Result<(), NoMemory>
        requires callers { AreCallers self.old.hub self.old.callers.items }
        requires client { client < 65536 }
        requires few { length self.old.callers.items ≤ 65536 }
        ensures placing { IsPlacing self.old self.new }
        ensures callers { AreCallers self.new.hub self.new.callers.items }
        ensures few { length self.new.callers.items ≤ 65536 }
        ensures placed { OnOk result (client < length self.new.callers.items) }
        ensures reads { self.new.checked_reads ≡ self.old.checked_reads }
    {
        for number in self.callers.len()..client as usize + 1 {
            self.callers.push(Caller::new(alloc, number as u32))?;
        }
        Ok(())
    }

    /// Makes the step of a client that has a place.
    pub(crate) fn make(
        &mut self,
        alloc: Global,
        readers: &Readers,
        schemas: &[Arc<Schema>],
        client: u32,
        step: &ScriptStep,
    ) -> Result<Str, StepFault>
        requires callers { AreCallers self.old.hub self.old.callers.items }
        requires placed { client < length self.old.callers.items }
        requires readers { readers.now ≡ versions_of self.old.hub.world }
        requires schemas { tables_in schemas.now ≡ tables_of self.old.hub.world }
        requires json { IsTrue (is_json_move (move_of step.now)) }
        ensures makes { Makes self.old self.new client (move_of step.now) result }
        ensures callers { AreCallers self.new.hub self.new.callers.items }
        ensures long { length self.new.callers.items ≡ length self.old.callers.items }
        ensures world { self.new.hub.world ≡ self.old.hub.world }
        ensures reads { self.new.checked_reads ≡ self.old.checked_reads }
    {
        laws::tokens_last();
        let calls = self.hub.log().len();
        let caller = &mut self.callers[client as usize];
        let made = caller.step(alloc, readers, schemas, &mut self.hub, step);
        broken_if(has_grown(&self.hub, calls), made)
    }

    /// What waits for the client at this number of its slots.
    pub(crate) fn waits(&self, client: u32, slot: u8) -> Waiting
        requires { AreCallers self.now.hub self.now.callers.items }
        ensures { Waits self.now client slot result }
    {
        match self.callers.get(client as usize) {
            Some(caller) => caller.waits(&self.hub, slot),
            None => waiting_before(&self.hub, client, slot),
        }
    }

    /// The report of all steps so far.
    pub(crate) fn report(&mut self, alloc: Global, schemas: &[Arc<Schema>]) -> Result<Str, NoMemory>
        requires callers { AreCallers self.old.hub self.old.callers.items }
        requires schemas { tables_in schemas.now ≡ tables_of self.old.hub.world }
        requires few { length schemas.now ≤ 64 }
        ensures reports { Reports self.old self.new result }
        ensures callers { AreCallers self.new.hub self.new.callers.items }
        ensures long { length self.new.callers.items ≡ length self.old.callers.items }
        ensures hub { self.new.hub ≡ self.old.hub }
        ensures reads { self.new.checked_reads ≡ self.old.checked_reads }
    {
        tell_all(alloc, &mut self.callers, schemas)?;
        told_report(alloc, schemas, &self.hub, &self.callers)
    }
}

// Whether the log has more calls than these.
fn has_grown(hub: &Hub, calls: usize) -> bool
    ensures { result ≡ nat_lt calls (length hub.now.log) }
{
    hub.log().len() > calls
}

// The result of a step. `NoMemory` with a log that has grown is reported as such.
fn broken_if(grown: bool, made: Result<Str, StepFault>) -> Result<Str, StepFault>
    ensures { result ≡ broken_if grown made }
{
    match made {
        Err(StepFault::NoMemory) if grown => Err(StepFault::Broken),
        told => told,
    }
}

// Writes each reply that is not written yet.
fn tell_all(
    alloc: Global,
    callers: &mut Vec<Caller>,
    schemas: &[Arc<Schema>],
) -> Result<(), NoMemory>
    requires { AreNear callers.old.items }
    ensures follow { AllFollow (tables_in schemas.now) callers.old.items callers.new.items }
    ensures told { OnOk result (AreTold callers.new.items) }
{
    for i in 0..callers.len() {
        let caller = &mut callers[i];
        caller.tell(alloc, schemas)?;
    }
    Ok(())
}

// The report, if all replies are written.
fn told_report(
    alloc: Global,
    schemas: &[Arc<Schema>],
    hub: &Hub,
    callers: &[Caller],
) -> Result<Str, NoMemory>
    requires schemas { tables_in schemas.now ≡ tables_of hub.now.world }
    requires few { length schemas.now ≤ 64 }
    ensures { IfOk result (λ text. text ≡ report_with hub.now (map lines_in callers.now)) }
{
    let lines = lines_of(alloc, callers)?;
    let trees = trees_of(alloc, hub, schemas.len() as u32)?;
    report_of_lines(alloc, schemas, hub.log(), &lines, &trees)
}

// The lines of all clients.
fn lines_of(alloc: Global, callers: &[Caller]) -> Result<Vec<&str>, NoMemory>
    ensures { IfOk result (λ lines. flat_map (λ line. line.now) lines.items ≡ joined (map lines_in callers.now)) }
{
    lines_of_each(alloc, callers)
}

// The same, by client.
fn lines_of_each(alloc: Global, callers: &[Caller]) -> Result<Vec<&str>, NoMemory>
    ensures { IfOk result (λ lines. map (λ line. line.now) lines.items ≡ map lines_in callers.now) }
{
    let mut lines = Vec::with_capacity(alloc, callers.len())?;
    for caller in callers {
        lines.push(caller.lines.as_str())?;
    }
    Ok(lines)
}
