//! The result of a played script: its report, the trees at the end, or the status of a failure.
ghost use Rattle.std.specs.Prelude.{◌≡◌, ◌<◌, ◌≤◌, All, IfOk, length, map};
ghost use Rattle.sal_script.specs.Report as spec;
ghost use Rattle.sal_script.specs.Tables.{tables_of};
ghost use Rattle.sal_prepare.specs.Plays.{play_status};
ghost use Rattle.sal_prepare.specs.Scripted.{tables_in};

use crate::status::Status;
use sal_client::{PlayFault, Played};
use sal_hub::Hub;
use sal_report::{DomainEnd, report, told_domains};
use sal_schema::Schema;
use sal_types::{NoMemory, Str};
use std::alloc::Global;
use std::sync::Arc;

/// The status of a play's fault.
pub fn play_status(fault: PlayFault) -> Status
    ensures { result ≡ play_status fault }
{
    match fault {
        PlayFault::BadOrder { index } => Status::BadOrder { index },
        PlayFault::NoMemory => Status::NoMemory,
    }
}

/// The report of a play, by the last versions of the schemas of its domains.
pub fn report_of(alloc: Global, schemas: &[Arc<Schema>], played: &Played) -> Result<Str, NoMemory>
    requires schemas { tables_in schemas.now ≡ tables_of played.now.hub.world }
    requires few { length schemas.now ≤ 64 }
    ensures { IfOk result (λ text. text ≡ spec.report played.now.hub.world (record { log = played.now.hub.log; replies = played.now.replies })) }
{
    let trees = trees_of(alloc, &played.hub, schemas.len() as u32)?;
    report(
        alloc,
        schemas,
        played.hub.log(),
        played.replies.items(),
        &trees,
    )
}

/// The trees at the end of each of these domains that the report shows.
pub fn trees_of<'a>(
    alloc: Global,
    hub: &'a Hub,
    domains: u32,
) -> Result<Vec<DomainEnd<'a>>, NoMemory>
    requires { «domains» ≡ length hub.now.world }
    ensures { IfOk result (λ trees. trees.items ≡ map (spec.trees_in hub.entry.now.world hub.entry.now.log) (spec.told_domains hub.entry.now.world hub.entry.now.log)) }
{
    let told = told_domains(alloc, domains, hub.log())?;
    trees_in(alloc, hub, &told)
}

// The trees at the end of these domains.
fn trees_in<'a>(
    alloc: Global,
    hub: &'a Hub,
    domains: &[u32],
) -> Result<Vec<DomainEnd<'a>>, NoMemory>
    requires { All (λ d. d < length hub.now.world) domains.now }
    ensures { IfOk result (λ trees. trees.items ≡ map (spec.trees_in hub.entry.now.world hub.entry.now.log) domains.now) }
{
    let mut trees = Vec::with_capacity(alloc, domains.len())?;
    for domain in domains {
        trees.push(domain_trees(hub, *domain))?;
    }
    Ok(trees)
}

// The trees at the end of a domain.
fn domain_trees(hub: &Hub, domain: u32) -> DomainEnd
    requires { domain < length hub.now.world }
    ensures { result ≡ spec.trees_in hub.now.world hub.now.log domain }
{
    DomainEnd {
        domain,
        commits: hub.newest_of(domain),
        trees: hub.trees_of(domain),
    }
}
