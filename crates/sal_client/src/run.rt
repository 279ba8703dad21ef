//! A client's run through its program, from one shared call to the next.
ghost use Rattle.std.specs.Prelude.{◌≡◌, ◌<◌, List, IfOk, IfErr, OnOk, length};
ghost use Rattle.sal_hub.specs.Answers.{limit};
ghost use Rattle.sal_hub.specs.HubHistory.{HubHistory};
ghost use Rattle.sal_script.specs.Play.{new_client};
ghost use Rattle.sal_script.specs.Tables.{Versions, versions_of};

use crate::client::ClientState;
use crate::readers::Readers;
use crate::wish::{RunFault, Wish};
use sal_hub::Hub;
use sal_io::Gate;
use sal_script::{ScriptStep, StepReply};
use sal_types::{NoMemory, Seq};
use std::alloc::Global;

/// A client, and the index of its next step.
#[derive(Drop)]
pub struct ClientRun {
    pub client: ClientState,
    pub at: usize,
}

impl ClientRun {
    ghost use Rattle.sal_client.specs.Clients.{client_of, HasSchema, IsSound, StaysSound};
    ghost use Rattle.sal_client.specs.Runs.{Comes, Goes, IsProgram, IsRun, MakesNext, replies_in};
    ghost use Rattle.sal_client.specs.Wishes.{CanMake, GrowsAtMost, ReadBy, Stops};

    /// A client at the beginning of its program.
    pub fn new(alloc: Global, number: u32) -> Self
        ensures number { result.client.number ≡ number }
        ensures at { result.at ≡ 0 }
        ensures client { client_of result.client ≡ new_client }
        ensures schema { (tables : List Versions) → HasSchema tables result.client }
        ensures sound { (known : HubHistory) → IsSound known result.client }
    {
        ClientRun {
            client: ClientState::new(alloc, number),
            at: 0,
        }
    }

    /// Its replies so far, in the order of its steps.
    pub fn replies(&self) -> &[StepReply]
        ensures { result.now ≡ replies_in self.now }
    {
        &self.client.replies
    }

    /// The same, at the end of its program.
    pub fn into_replies(self) -> Seq<StepReply>
        ensures { result ≡ replies_in self }
    {
        let client = self.client;
        Seq::from_items(client.replies)
    }

    /// Does the local steps up to the next shared call, and returns that; none if the program ends first. It takes
    /// no turn at a hub: over each log for which the client is sound, these steps have the same replies. The gate is passed
    /// before each step, also that of the call.
    pub fn next<G: Gate>(
        &mut self,
        alloc: Global,
        readers: &Readers,
        steps: &[ScriptStep],
        gate: &G,
    ) -> Result<Option<Wish>, NoMemory>
        requires program { IsProgram steps.now self.old }
        requires schema { HasSchema readers.now self.old.client }
        ensures comes { IfOk result (λ wish. Comes readers.now steps.now self.old wish self.new) }
        ensures sound { OnOk result (StaysSound self.old.client self.new.client) }
        ensures schema { OnOk result (HasSchema readers.now self.new.client) }
        ensures program { OnOk result (IsProgram steps.now self.new) }
        ensures number { OnOk result (self.new.client.number ≡ self.old.client.number) }
    {
        for i in self.at..steps.len() {
            gate.pass(self.client.number, i as u32);
            let met = self.client.meet(alloc, readers, &steps[i])?;
            self.at = i + 1;
            match met {
                Some(wish) => return Ok(Some(wish)),
                None => {}
            }
        }
        Ok(None)
    }

    /// Makes the shared call that `next` returned, on the hub, and takes its reply. If the log is full, neither has changed.
    /// If memory runs out, the run must not be used again, and the hub may or may not have the call's entry.
    pub fn make(&mut self, alloc: Global, hub: &mut Hub, wish: Wish) -> Result<(), RunFault>
        requires sound { IsSound hub.old self.old.client }
        requires can { CanMake wish self.old.client }
        requires read { ReadBy (versions_of hub.old.world) wish }
        ensures makes { OnOk result ((tables : List Versions) → ReadBy tables wish → MakesNext tables self.old.client.number hub.old wish (client_of self.old.client) hub.new (client_of self.new.client)) }
        ensures sound { OnOk result (IsSound hub.new self.new.client) }
        ensures at { OnOk result (self.new.at ≡ self.old.at) }
        ensures number { OnOk result (self.new.client.number ≡ self.old.client.number) }
        ensures grows { GrowsAtMost self.old.client.number hub.old hub.new }
        ensures stops { IfErr result (Stops self.old.client.number hub.old hub.new) }
    {
        let reply = self.client.call(alloc, hub, wish)?;
        self.client.keep(reply)?;
        Ok(())
    }

    /// Proceeds to the next shared call and makes it. False if the program ended first.
    pub(crate) fn go<G: Gate>(
        &mut self,
        alloc: Global,
        readers: &Readers,
        hub: &mut Hub,
        steps: &[ScriptStep],
        gate: &G,
    ) -> Result<bool, NoMemory>
        requires run { IsRun hub.old steps.now self.old }
        requires tables { readers.now ≡ versions_of hub.old.world }
        requires room { length hub.old.log < limit }
        ensures goes { IfOk result (λ made. Goes readers.now made self.old.client.number hub.old steps.now self.old hub.new self.new) }
        ensures run { OnOk result (IsRun hub.new steps.now self.new) }
        ensures number { OnOk result (self.new.client.number ≡ self.old.client.number) }
    {
        match self.next(alloc, readers, steps, gate)? {
            None => Ok(false),
            Some(wish) => match self.make(alloc, hub, wish) {
                Ok(()) => Ok(true),
                Err(RunFault::NoMemory) => Err(NoMemory),
                Err(RunFault::HistoryFull) => unreachable!(),
            },
        }
    }
}
