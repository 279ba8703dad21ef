//! The upgrade of the controller's own domain to the next version of its schema.
ghost use Rattle.std.specs.Prelude.{◌≡◌, ◌<◌, ◌≤◌, IfOk, Some, length};
ghost use Rattle.sal_graft.specs.Kept.{AreKept};
ghost use Rattle.sal_history.specs.declared.call.Call.TheVariants.{Upgrade};
ghost use Rattle.sal_history.specs.declared.reply.Reply.TheVariants.{Accepted};
ghost use Rattle.sal_history.specs.History.{upgrade_refusal};
ghost use Rattle.sal_hub.specs.Answers.{Calls, CallsOver, limit};
ghost use Rattle.sal_hub.specs.Current.{IsKept, answers, known_of};
ghost use Rattle.sal_hub.specs.HubHistory.{entry_of};
ghost use Rattle.sal_hub.specs.PipelineView.{queue_of, world_in};
ghost use Rattle.sal_hub.specs.Upgrades as spec;

use crate::hub::Hub;
use crate::journal::Journal;
use crate::pipeline::Pipeline;
use sal_commit::{Domain, DomainFault, NextVersion};
use sal_history::Call;
use sal_rows::CallFault;
use sal_types::NoMemory;
use std::alloc::Global;

impl Hub {
    /// Makes the next version of the schema of the controller's own domain the present one, unless a newest tree would break a structural rule
    /// of it. The version is one of those of the hub's opening. It costs one check of both newest trees of that domain, and
    /// nothing that grows with the log or the commits.
    pub fn upgrade(&mut self, alloc: Global, client: u32, version: u32) -> Result<(), CallFault>
        requires low { 1 ≤ version }
        requires high { version ≤ spec.upgrades_of self.old.world }
        ensures answer { Calls self.old self.new (entry_of self.old client (Upgrade version)) (λ _. Accepted) result }
    {
        if self.journal.is_full() {
            return Err(CallFault::HistoryFull);
        }
        upgrade(
            alloc,
            &mut self.pipeline,
            &mut self.journal,
            client,
            version,
        )
    }
}

// Makes the version the present one, unless that is refused, and adds the entry. All memory is taken before the domain changes.
fn upgrade(
    alloc: Global,
    pipeline: &mut Pipeline,
    journal: &mut Journal,
    client: u32,
    version: u32,
) -> Result<(), CallFault>
    requires kept { IsKept journal.old pipeline.old }
    requires room { length journal.old.log < limit }
    requires low { 1 ≤ version }
    requires high { version ≤ spec.upgrades_of (world_in (queue_of pipeline.old).domains) }
    ensures kept { IsKept journal.new pipeline.new }
    ensures answer { Calls (known_of journal.old pipeline.old) (known_of journal.new pipeline.new) (entry_of (known_of journal.old pipeline.old) client (Upgrade version)) (λ _. Accepted) result }
{
    let next = match ready(alloc, &pipeline.domains[0], version) {
        Ok(Ok(next)) => next,
        Ok(Err(fault)) => return refuse(pipeline, journal, client, version, fault),
        Err(NoMemory) => return Err(CallFault::NoMemory),
    };
    match journal.add(client, Call::Upgrade { version }) {
        Ok(()) => {}
        Err(NoMemory) => return Err(CallFault::NoMemory),
    }
    pipeline.upgrade(next);
    Ok(())
}

// The version with the plan of its rules, or why it is refused. It takes the memory of the upgrade.
fn ready(
    alloc: Global,
    domain: &Domain,
    version: u32,
) -> Result<Result<NextVersion, CallFault>, NoMemory>
    requires kept { AreKept domain.now.commits.items }
    requires low { 1 ≤ version }
    requires high { version ≤ length domain.now.upgrades.items }
    ensures { IfOk result (spec.IsReady domain.now version) }
{
    let have = domain.version;
    if have != version - 1 {
        return Ok(Err(CallFault::WrongVersion { have }));
    }
    match domain.next_version(alloc, version) {
        Ok(next) => Ok(Ok(next)),
        Err(DomainFault::Broken { store, breach }) => Ok(Err(CallFault::UpgradeBreach {
            store,
            path: breach.path,
            rule: breach.rule,
        })),
        Err(DomainFault::NoMemory) => Err(NoMemory),
    }
}

// Adds the entry of an upgrade that is refused.
fn refuse(
    pipeline: &Pipeline,
    journal: &mut Journal,
    client: u32,
    version: u32,
    fault: CallFault,
) -> Result<(), CallFault>
    requires kept { IsKept journal.old pipeline.now }
    requires room { length journal.old.log < limit }
    requires refused { upgrade_refusal (world_in (queue_of pipeline.now).domains) (answers journal.old.log (queue_of pipeline.now)) version ≡ Some fault }
    ensures kept { IsKept journal.new pipeline.now }
    ensures answer { CallsOver pipeline.now journal.old journal.new client (Upgrade version) (λ _. Accepted) result }
{
    match journal.add(client, Call::Upgrade { version }) {
        Ok(()) => Err(fault),
        Err(NoMemory) => Err(CallFault::NoMemory),
    }
}
