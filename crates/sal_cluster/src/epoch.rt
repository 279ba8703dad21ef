//! The next epoch of a leader.
ghost use Rattle.std.specs.Prelude.{◌≡◌, ◌≤◌, ◌<◌, ◌+◌, ◌-◌, ◌^◌, ℕ, length, min};
ghost use Rattle.sal_hub.specs.Epochs.{OpensAtTheNewest, next_hub};
ghost use Rattle.sal_history.specs.World.{rules_of};
ghost use Rattle.sal_prepare.specs.Scripted.{tables_in};
ghost use Rattle.sal_script.specs.Tables.{tables_of, versions_of};
ghost use Rattle.sal_embed.specs.Opening.{IsBegun};
ghost use Rattle.sal_cluster.specs.Leaders.{Begins, IsNext, are_newest, base_of, epoch_fault, number_of, version_of};

use crate::bases::Bases;
use crate::fault::EpochFault;
use crate::leader::Leader;
use crate::numbers::{are_newest, moved_on};
use sal_embed::{Embedded, OpenHub};
use sal_epoch::next_hub;
use sal_hub::Hub;
use sal_prepare::laws::epochs_read_on;
use sal_rows::Rules;
use std::alloc::Global;

impl Leader {
    /// Why the next epoch does not begin with these numbers of the newest commits, if it does not: they are those of the first domains, from the
    /// controller's own on.
    pub fn epoch_fault(&self, newest: &[u64]) -> Option<EpochFault>
        ensures { result ≡ epoch_fault self.now.broker.hub self.now.bases newest.now }
    {
        if self.broker.hub().pending() > 0 {
            return Some(EpochFault::Pending);
        }
        if self.are_newest(newest) {
            return None;
        }
        Some(EpochFault::NotNewest)
    }

    // Whether the newest commits have these numbers.
    fn are_newest(&self, newest: &[u64]) -> bool
        ensures { result ≡ are_newest self.now.broker.hub self.now.bases 0 newest.now }
    {
        self.are_few();
        are_newest(self.broker.hub(), &self.bases, newest)
    }

    // Does nothing; its contract is that there are at most 64 domains.
    fn are_few(&self)
        ensures { length self.now.broker.hub.world ≤ 64 }
    {
        let _ = self.broker.schemas();
    }

    /// The leader of the next epoch, if no submission is pending and these are the numbers of the newest commits of the first domains, whose frames
    /// the caller has: it begins with the newest trees of all domains. Clients with their transactions, chains and listeners end, and so do mounts.
    /// Else the leader is returned as it was. It takes no memory.
    ///
    /// A host that keeps the frames of each domain gives all numbers. Commits of a domain without a number in `newest` may have no frame, and then
    /// they are in the next snapshot alone.
    pub fn next_epoch(self, alloc: Global, newest: &[u64]) -> Result<Leader, (Leader, EpochFault)>
        ensures { Begins self newest.now result }
    {
        match self.epoch_fault(newest) {
            Some(fault) => Err((self, fault)),
            None => Ok(self.begun(alloc)),
        }
    }

    // The numbers of the newest commits.
    fn moved_on(&self) -> Bases
        requires { length self.now.broker.hub.world ≤ 64 }
        ensures { (n : ℕ) → n < length self.now.broker.hub.world → base_of result n ≡ min (number_of self.now.broker.hub self.now.bases n) (2 ^ 64 - 1) }
    {
        moved_on(self.broker.hub(), &self.bases)
    }

    // The present version of the schema of domain 0, and its version rules.
    pub(crate) fn past(&self) -> Past
        ensures version { result.version ≡ version_of self.now.broker.hub }
        ensures rules { result.rules ≡ rules_of self.now.broker.hub.world 0 }
    {
        past_of(self.broker.hub())
    }

    // The leader of the next epoch.
    fn begun(self, alloc: Global) -> Leader
        ensures { IsNext self result }
    {
        self.are_few();
        let version = self.present();
        let bases = self.moved_on();
        let past = self.past();
        let broker = begun_anew(alloc, self.broker.into_hub(), past);
        Leader {
            broker,
            bases,
            version,
        }
    }
}

// The present version of the schema of domain 0, and its version rules.
#[derive(Clone, Copy, Drop)]
pub(crate) struct Past {
    pub(crate) version: u32,
    pub(crate) rules: Rules,
}

fn past_of(hub: &Hub) -> Past
    ensures version { result.version ≡ version_of hub.now }
    ensures rules { result.rules ≡ rules_of hub.now.world 0 }
{
    hub.stays_lawful();
    let domain = &hub.domains()[0];
    Past {
        version: domain.version,
        rules: domain.rules,
    }
}

/// A version after others; the largest number if it has more than 32 bits.
pub(crate) fn later(version: u32, past: u32) -> u32
    ensures { result ≡ min (version + past) (2 ^ 32 - 1) }
{
    version.saturating_add(past)
}

// The broker of the next epoch.
fn begun_anew(alloc: Global, ended: OpenHub, past: Past) -> Embedded
    requires schemas { tables_in ended.schemas.items ≡ tables_of ended.hub.world }
    requires few { length ended.schemas.items ≤ 64 }
    requires readers { ended.readers ≡ versions_of ended.hub.world }
    requires past { past.version ≡ version_of ended.hub }
    ensures hub { result.hub ≡ next_hub past.rules ended.hub }
    ensures newest { OpensAtTheNewest ended.hub result.hub.world }
    ensures reads { result.checked_reads ≡ ended.checked_reads }
    ensures begun { IsBegun result }
{
    let OpenHub {
        hub,
        schemas,
        mut readers,
        checked_reads,
    } = ended;
    hub.stays_lawful();
    epochs_read_on();
    readers.begin_with(past.version);
    let next = next_hub(alloc, hub, past.rules);
    Embedded::over(alloc, next, schemas, readers, checked_reads)
}
