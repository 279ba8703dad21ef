//! A hub without calls.
ghost use Rattle.std.specs.Prelude.{◌≡◌, ◌≤◌, List, [], length, map};
ghost use Rattle.sal_history.specs.World.{Domain as World, OneIsUpgraded};
ghost use Rattle.sal_history_laws.specs.Logs.{AreSound};
ghost use Rattle.sal_hub.specs.Opened.{AreFirst};
ghost use Rattle.sal_hub.specs.PipelineView.{AllKept, shown, world_in};
ghost use Rattle.sal_hub.specs.Services.{AreServed};

use crate::chains::Chains;
use crate::hub::Hub;
use crate::journal::Journal;
use crate::listeners::Listeners;
use crate::marks::Marks;
use crate::pipeline::Pipeline;
use crate::services::Services;
use sal_commit::Domain;
use sal_mount::Mounts;
use sal_note::Notes;
use sal_rpc::Router;
use std::alloc::Global;
use std::collections::VecDeque;

/// A hub without calls over the domains, which have no commits. It takes no memory.
pub(crate) fn hub_of(alloc: Global, domains: Vec<Domain>) -> Hub
    requires kept { AllKept domains.items }
    requires first { AreFirst (map shown domains.items) }
    requires sound { AreSound (world_in (map shown domains.items)) }
    requires only { OneIsUpgraded (world_in (map shown domains.items)) }
    requires few { length domains.items ≤ 64 }
    ensures { result ≡ record { world = world_in (map shown domains.items); log = [] } }
{
    let services = services_of(alloc, domains.len() as u32);
    let pipeline = pipeline_of(alloc, domains);
    let journal = Journal::new(alloc);
    let chains = Chains::new(alloc);
    let marks = Marks::new(alloc);
    let listeners = Listeners::new(alloc);
    Hub {
        pipeline,
        journal,
        chains,
        marks,
        listeners,
        services,
    }
}

// Nothing is pending, and nothing is decided.
fn pipeline_of(alloc: Global, domains: Vec<Domain>) -> Pipeline
    ensures domains { result.domains ≡ domains }
    ensures gone { result.gone ≡ 0 }
    ensures waiting { result.waiting.items ≡ [] }
    ensures outcomes { result.outcomes.items ≡ [] }
    ensures failures { result.failures.items ≡ [] }
{
    Pipeline {
        domains,
        gone: 0,
        waiting: VecDeque::new(alloc),
        outcomes: Vec::new(alloc),
        failures: Vec::new(alloc),
    }
}

// Nothing is mounted, called or subscribed.
fn services_of(alloc: Global, domains: u32) -> Services
    ensures { (world : List World) → domains ≡ length world → AreServed (record { world = world; log = [] }) result }
{
    Services {
        mounts: Mounts::new(alloc, domains),
        router: Router::new(alloc),
        notes: Notes::new(alloc),
    }
}
