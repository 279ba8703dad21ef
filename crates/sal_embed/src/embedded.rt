//! A broker inside another program.
ghost use Rattle.std.specs.Prelude.{◌≡◌, ◌≤◌, [], codes, length};
ghost use Rattle.sal_prepare.specs.Scripted.{tables_in};
ghost use Rattle.sal_script.specs.Tables.{tables_of, versions_of};
ghost use Rattle.sal_script.specs.Reading.{parts};
ghost use Rattle.sal_embed.specs.Opening.{HasNone, IsBadAt, IsBareOr, IsBegun};
ghost use Rattle.sal_embed.specs.Waiting.{Waits};

use crate::caller::Caller;
use crate::clients::Clients;
use crate::fault::StepFault;
use crate::waiting::Waiting;
use sal_client::Readers;
use sal_hub::Hub;
use sal_prepare::scripted::{Prepared, ReadScript, prepare};
use sal_prepare::status::Status;
use sal_schema::Schema;
use sal_script::{Script, read_step};
use sal_types::{NoMemory, Str};
use std::alloc::Global;
use std::marker::Model;
use std::sync::Arc;

/// Client numbers are below this.
pub const CLIENTS: u32 = 65536;

/// A broker: the hub over a script's opening trees with the clients that made steps, and the readers and schemas of its
/// domains. A contract sees the hub and the clients.
pub struct Embedded {
    clients: Clients,
    schemas: Vec<Arc<Schema>>,
    readers: Readers,
}

impl Drop for Embedded {
    fn drop(self) {
        let Embedded {
            clients: _,
            schemas: _,
            readers: _,
        } = self;
    }
}

/// The hub of a broker, with the schemas and the readers of its world, and whether reads are checked.
#[derive(Drop)]
pub struct OpenHub {
    pub hub: Hub,
    pub schemas: Vec<Arc<Schema>>,
    pub readers: Readers,
    pub checked_reads: bool,
}

impl Model for Embedded {
    ghost use Rattle.sal_embed.specs.declared.clients.Clients.{Clients as Seen};
    ghost use Rattle.sal_embed.specs.contracts.clients.Clients as e;

    ghost Value = { Seen };

    ghost coded = { e.the_row.coded };

    ghost use Rattle.sal_prepare.specs.Scripted.{tables_in};
    ghost use Rattle.sal_embed.specs.Whole.{IsWhole};

    ghost view = { λ e. e.clients };

    ghost invariant = { λ e. IsWhole e.clients (tables_in e.schemas.items) e.readers };
}

impl Embedded {
    ghost use Rattle.std.specs.Prelude.{IfOk};
    ghost use Rattle.sal_embed.specs.Opening.{IsBegun, opened, reads_of, world_of};
    ghost use Rattle.sal_embed.specs.Outcomes.{Reports, Steps};
    ghost use Rattle.sal_prepare.specs.Scripted as prepared;

    /// Opens the broker of a script that has no clients and no order; or returns the first fault.
    pub fn open(alloc: Global, script: &[u8]) -> Result<Embedded, Status>
        ensures opens { prepared.Comes (λ e. e.hub.world) (world_of (opened script.now)) result }
        ensures reads { prepared.Comes (λ e. e.checked_reads) (reads_of (opened script.now)) result }
        ensures begun { IfOk result IsBegun }
    {
        let prepared = prepare(alloc, script)?;
        bare(alloc, &prepared)?;
        Ok(prepared_over(alloc, prepared))
    }

    /// A broker over this hub without calls, with the schemas and the readers of its world. No step was made.
    pub fn over(
        alloc: Global,
        hub: Hub,
        schemas: Vec<Arc<Schema>>,
        readers: Readers,
        checked_reads: bool,
    ) -> Embedded
        requires schemas { tables_in schemas.items ≡ tables_of hub.world }
        requires few { length schemas.items ≤ 64 }
        requires readers { readers ≡ versions_of hub.world }
        requires fresh { hub.log ≡ [] }
        ensures hub { result.hub ≡ hub }
        ensures reads { result.checked_reads ≡ checked_reads }
        ensures begun { IsBegun result }
    {
        let callers: Vec<Caller> = Vec::new(alloc);
        Embedded {
            clients: Clients {
                hub,
                callers,
                checked_reads,
            },
            schemas,
            readers,
        }
    }

    /// The hub. It takes no memory.
    pub fn hub(&self) -> &Hub
        ensures { result.now ≡ self.now.hub }
    {
        &self.clients.hub
    }

    /// The schemas of the domains, each of its last version. It takes no memory.
    pub fn schemas(&self) -> &[Arc<Schema>]
        ensures tables { tables_in result.now ≡ tables_of self.now.hub.world }
        ensures few { length result.now ≤ 64 }
    {
        &self.schemas
    }

    /// The readers of the domains. It takes no memory.
    pub fn readers(&self) -> &Readers
        ensures { result.now ≡ versions_of self.now.hub.world }
    {
        &self.readers
    }

    /// The hub, with the schemas and readers of its world. The clients are dropped, with the lines of their steps. It takes no memory.
    pub fn into_hub(self) -> OpenHub
        ensures hub { result.hub ≡ self.hub }
        ensures schemas { tables_in result.schemas.items ≡ tables_of self.hub.world }
        ensures few { length result.schemas.items ≤ 64 }
        ensures readers { result.readers ≡ versions_of self.hub.world }
        ensures reads { result.checked_reads ≡ self.checked_reads }
    {
        let Embedded {
            clients,
            schemas,
            readers,
        } = self;
        let checked_reads = clients.checked_reads;
        OpenHub {
            hub: clients.into_hub(),
            schemas,
            readers,
            checked_reads,
        }
    }

    /// Makes the client's next step, and returns the text of its reply.
    pub fn step(&mut self, alloc: Global, client: u32, step: &[u8]) -> Result<Str, StepFault>
        ensures steps { Steps self.old self.new client step.now result }
        ensures reads { self.new.checked_reads ≡ self.old.checked_reads }
    {
        if client >= CLIENTS {
            return Err(StepFault::BadClient);
        }
        let step = read_step(alloc, self.clients.checked_reads, step)?;
        self.clients.place(alloc, client)?;
        self.clients
            .make(alloc, &self.readers, &self.schemas, client, &step)
    }

    /// What waits for the client at this number of its slots: a look, without a step. It takes no memory.
    pub fn waits(&self, client: u32, slot: u8) -> Waiting
        ensures { Waits self.now client slot result }
    {
        self.clients.waits(client, slot)
    }

    /// The report of all steps so far.
    pub fn report(&mut self, alloc: Global) -> Result<Str, NoMemory>
        ensures reports { Reports self.old self.new result }
        ensures reads { self.new.checked_reads ≡ self.old.checked_reads }
    {
        self.clients.report(alloc, &self.schemas)
    }
}

// The broker over a prepared script.
fn prepared_over(alloc: Global, prepared: Prepared) -> Embedded
    requires schemas { tables_in prepared.read.schemas.items ≡ tables_of prepared.hub.world }
    requires few { length prepared.read.schemas.items ≤ 64 }
    requires readers { prepared.read.readers ≡ versions_of prepared.hub.world }
    requires fresh { prepared.hub.log ≡ [] }
    ensures hub { result.hub ≡ prepared.hub }
    ensures reads { result.checked_reads ≡ (parts prepared.read.script).checked }
    ensures begun { IsBegun result }
{
    let Prepared { read, hub } = prepared;
    let ReadScript {
        script,
        schemas,
        readers,
    } = read;
    Embedded::over(alloc, hub, schemas, readers, script.checked_reads)
}

// Whether the script has no clients and no order.
fn bare(alloc: Global, it: &Prepared) -> Result<(), Status>
    ensures { IsBareOr it.now result }
{
    no_clients(alloc, &it.read.script)?;
    no_order(alloc, &it.read.script)
}

/// Whether the script has no clients, as one that a broker is opened from.
pub fn no_clients(alloc: Global, script: &Script) -> Result<(), Status>
    ensures { HasNone (codes "clients") (parts script.now).clients result }
{
    if script.clients.items().is_empty() {
        return Ok(());
    }
    Err(bad(alloc, "clients"))
}

/// Whether the script has no order, as one that a broker is opened from.
pub fn no_order(alloc: Global, script: &Script) -> Result<(), Status>
    ensures { HasNone (codes "order") (parts script.now).order result }
{
    if script.order.items().is_empty() {
        return Ok(());
    }
    Err(bad(alloc, "order"))
}

// The status of a script with a bad member, or `NoMemory`.
fn bad(alloc: Global, place: &str) -> Status
    ensures { IsBadAt place.now result }
{
    match Str::new(alloc, place) {
        Ok(place) => Status::BadScript { place },
        Err(NoMemory) => Status::NoMemory,
    }
}
