//! A script played in an order, on one thread.
ghost use Rattle.std.specs.Prelude.{◌≡◌, ◌<◌, [], IfOk, IsTrue, map};
ghost use Rattle.sal_script.specs.Limits.{within_limits};
ghost use Rattle.sal_script.specs.Tables.{versions_of};
ghost use Rattle.sal_hub.specs.HubHistory.{HubHistory};
ghost use Rattle.sal_script.specs.JsonMoves.{have_json_moves};
ghost use Rattle.sal_script.specs.Moves.{clients_of};
ghost use Rattle.sal_script.specs.Play as play_spec;
ghost use Rattle.sal_client.specs.Runs.{replies_in, stand_of, AreRuns, Begins, Ends, Follows, PlaysAs, Advances};

use crate::readers::Readers;
use crate::run::ClientRun;
use sal_hub::{Hub, laws};
use sal_io::Gate;
use sal_script::{Program, Script, StepReply};
use sal_types::{NoMemory, Seq};
use std::alloc::Global;
use thiserror::Error;

/// Why an order was not played to its end.
#[derive(Clone, Copy, Debug, PartialEq, Eq, Error)]
pub enum PlayFault {
    /// It fails at this index: it names a client without a shared call left, or ends while one is left.
    #[error("the order fails at index {index}: no shared call of that client is left, or the order ends too early")]
    BadOrder { index: u64 },
    /// Memory ran out.
    #[error("out of memory")]
    NoMemory,
}

/// The result of a script: the hub, and each client's replies to its steps.
#[derive(Drop)]
pub struct Played {
    pub hub: Hub,
    pub replies: Seq<Seq<StepReply>>,
}

// The hub and the clients.
#[derive(Drop)]
pub(crate) struct Simulation {
    pub(crate) hub: Hub,
    pub(crate) runs: Vec<ClientRun>,
}

// The clients before their first steps.
fn new_runs(alloc: Global, programs: &[Program]) -> Result<Vec<ClientRun>, NoMemory>
    requires limits { IsTrue (within_limits programs.now) }
    requires json { IsTrue (have_json_moves (clients_of programs.now)) }
    ensures stand { IfOk result (λ runs. stand_of programs.now [] runs.items ≡ play_spec.start (clients_of programs.now)) }
    ensures runs { IfOk result (λ runs. (known : HubHistory) → known.log ≡ [] → AreRuns known programs.now runs.items) }
{
    let mut runs = Vec::new(alloc);
    for i in 0..programs.len() {
        runs.push(ClientRun::new(alloc, i as u32))?;
    }
    Ok(runs)
}

// The replies of each client.
fn into_replies(alloc: Global, runs: Vec<ClientRun>) -> Result<Seq<Seq<StepReply>>, NoMemory>
    ensures { IfOk result (λ replies. replies ≡ map replies_in runs.items) }
{
    let mut replies = Vec::new(alloc);
    for run in runs {
        replies.push(run.into_replies())?;
    }
    Ok(Seq::from_items(replies))
}

impl Simulation {
    // One number of the order: false if no client has it, or if that client has no shared call left.
    fn advance<G: Gate>(
        &mut self,
        alloc: Global,
        readers: &Readers,
        programs: &[Program],
        client: u32,
        gate: &G,
    ) -> Result<bool, NoMemory>
        requires runs { AreRuns self.old.hub programs.now self.old.runs.items }
        requires tables { readers.now ≡ versions_of self.old.hub.world }
        ensures { IfOk result (λ made. Advances readers.now made programs.now client self.old.hub self.old.runs.items self.new.hub self.new.runs.items) }
    {
        laws::tokens_last();
        let index = client as usize;
        if index >= self.runs.len() {
            return Ok(false);
        }
        let run = &mut self.runs[index];
        let made = run.go(alloc, readers, &mut self.hub, programs[index].items(), gate)?;
        Ok(made)
    }

    // Plays the numbers of the order, one after another.
    fn follow<G: Gate>(
        &mut self,
        alloc: Global,
        readers: &Readers,
        programs: &[Program],
        order: &[u32],
        gate: &G,
    ) -> Result<(), PlayFault>
        requires runs { AreRuns self.old.hub programs.now self.old.runs.items }
        requires tables { readers.now ≡ versions_of self.old.hub.world }
        ensures { Follows readers.now programs.now order.now self.old.hub self.old.runs.items self.new.hub self.new.runs.items result }
    {
        for i in 0..order.len() {
            match self.advance(alloc, readers, programs, order[i], gate) {
                Ok(true) => {}
                Ok(false) => return Err(PlayFault::BadOrder { index: i as u64 }),
                Err(NoMemory) => return Err(PlayFault::NoMemory),
            }
        }
        Ok(())
    }

    // Does the remaining steps of each client: false if one has a shared call left.
    fn finish<G: Gate>(
        &mut self,
        alloc: Global,
        readers: &Readers,
        programs: &[Program],
        gate: &G,
    ) -> Result<bool, NoMemory>
        requires runs { AreRuns self.old.hub programs.now self.old.runs.items }
        requires tables { readers.now ≡ versions_of self.old.hub.world }
        ensures { IfOk result (λ ended. Ends readers.now ended programs.now self.old.hub self.old.runs.items self.new.hub self.new.runs.items) }
    {
        for i in 0..self.runs.len() {
            let run = &mut self.runs[i];
            if run.go(alloc, readers, &mut self.hub, programs[i].items(), gate)? {
                return Ok(false);
            }
        }
        Ok(true)
    }
}

// The hub, with clients before their first steps.
fn beginning(alloc: Global, hub: Hub, programs: &[Program]) -> Result<Simulation, PlayFault>
    requires limits { IsTrue (within_limits programs.now) }
    requires json { IsTrue (have_json_moves (clients_of programs.now)) }
    requires fresh { hub.log ≡ [] }
    ensures { Begins hub programs.now result }
{
    match new_runs(alloc, programs) {
        Ok(runs) => Ok(Simulation { hub, runs }),
        Err(NoMemory) => Err(PlayFault::NoMemory),
    }
}

/// Plays the script in its order over a hub without calls, whose domains have the readers' schemas. The gate is passed
/// before each step.
pub fn play<G: Gate>(
    alloc: Global,
    readers: &Readers,
    script: &Script,
    hub: Hub,
    gate: &G,
) -> Result<Played, PlayFault>
    requires tables { readers.now ≡ versions_of hub.world }
    requires fresh { hub.log ≡ [] }
    ensures { PlaysAs hub.world result (play_spec.play hub.world (clients_of script.now.clients) script.now.order) }
{
    let programs = script.clients.items();
    let order = script.order.items();
    let mut simulation = beginning(alloc, hub, programs)?;
    simulation.follow(alloc, readers, programs, order, gate)?;
    end(
        alloc,
        readers,
        simulation,
        programs,
        order.len() as u64,
        gate,
    )
}

// The replies after the order, or its failure at its end.
fn end<G: Gate>(
    alloc: Global,
    readers: &Readers,
    mut simulation: Simulation,
    programs: &[Program],
    index: u64,
    gate: &G,
) -> Result<Played, PlayFault>
    requires runs { AreRuns simulation.hub programs.now simulation.runs.items }
    requires tables { readers.now ≡ versions_of simulation.hub.world }
    ensures { PlaysAs simulation.hub.world result (play_spec.play_from readers.now simulation.hub.world index (stand_of programs.now simulation.hub.log simulation.runs.items) []) }
{
    match simulation.finish(alloc, readers, programs, gate) {
        Ok(true) => {}
        Ok(false) => return Err(PlayFault::BadOrder { index }),
        Err(NoMemory) => return Err(PlayFault::NoMemory),
    }
    let Simulation { hub, runs } = simulation;
    match into_replies(alloc, runs) {
        Ok(replies) => Ok(Played { hub, replies }),
        Err(NoMemory) => Err(PlayFault::NoMemory),
    }
}
