//! The versions of a domain's schema: the preparation of an upgrade, and the upgrade.
ghost use Rattle.std.specs.Prelude.{◌≡◌, ◌+◌, ◌≤◌, None, IfOk, MatchResult, length};
ghost use Rattle.sal_types.specs.declared.value.Store.{Store as Of};
ghost use Rattle.sal_rows.specs.Clash.{tip};
ghost use Rattle.sal_graft.specs.Kept.{AreKept, opening_in, ops_of, rows_in};
ghost use Rattle.sal_commit.specs.Versions as spec;

use crate::domain::Domain;
use crate::fault::DomainFault;
use crate::opening::fault_in;
use sal_check::Plan;
use sal_schema::Schema;
use sal_tree::{Commit, Pair};
use sal_types::NoMemory;
use std::alloc::Global;
use std::sync::Arc;

/// A version of a domain's schema with the plan of its rules, prepared and not yet the present one.
#[derive(Drop)]
pub struct NextVersion {
    pub number: u32,
    pub schema: Arc<Schema>,
    pub(crate) plan: Plan,
    pub ghost planned: { plan.schema.value ≡ schema.value },
}

impl Domain {
    /// The last version of the schema.
    pub fn last_schema(&self) -> &Arc<Schema>
        ensures { result.now.value ≡ spec.last_in self.now }
    {
        let count = self.upgrades.len();
        if count == 0 {
            return &self.first;
        }
        &self.upgrades[count - 1]
    }

    /// The next version with the plan of its rules, unless a newest tree breaks one of these; the configuration is checked first.
    /// It takes all memory of the upgrade, and changes nothing. It goes over both newest trees once.
    pub fn next_version(&self, alloc: Global, number: u32) -> Result<NextVersion, DomainFault>
        requires kept { AreKept self.now.commits.items }
        requires low { 1 ≤ number }
        requires high { number ≤ length self.now.upgrades.items }
        ensures next { IfOk result (λ next. (next.number ≡ number) × (next.schema.value ≡ spec.version_in self.now number)) }
        ensures fault { MatchResult result (λ _. spec.upgrade_fault self.now number ≡ None) (spec.IsUpgradeFault self.now number) }
    {
        let next = planned(alloc, number, &self.upgrades[number as usize - 1])?;
        match fault_in(alloc, &next.plan, newest_trees(&self.commits))? {
            None => Ok(next),
            Some(fault) => Err(fault),
        }
    }

    /// Makes the version the present one; the newest trees break no rule of it. It takes no memory.
    pub fn upgrade(&mut self, next: NextVersion)
        requires kept { AreKept self.old.commits.items }
        requires version { next.schema.value ≡ spec.version_in self.old next.number }
        requires sound { spec.upgrade_fault self.old next.number ≡ None }
        ensures { spec.Upgrades self.old next.number self.new }
    {
        self.version = next.number;
        self.schema = next.schema;
        self.plan = next.plan;
        self.since = self.commits.len() as u64 - 1;
    }
}

// The newest trees.
fn newest_trees(commits: &[Commit]) -> &Pair
    requires { AreKept commits.now }
    ensures { (s : Of) → rows_in result.now s ≡ tip (opening_in commits.now) (ops_of commits.now) s }
{
    &commits[commits.len() - 1].trees
}

// The version with the plan of its rules.
fn planned(alloc: Global, number: u32, schema: &Arc<Schema>) -> Result<NextVersion, NoMemory>
    ensures number { IfOk result (λ next. next.number ≡ number) }
    ensures schema { IfOk result (λ next. next.schema.value ≡ schema.now.value) }
{
    let plan = Plan::of(alloc, schema)?;
    let schema = shared(schema)?;
    Ok(NextVersion {
        number,
        schema,
        plan,
    })
}

/// The schema, shared.
pub(crate) fn shared(schema: &Arc<Schema>) -> Result<Arc<Schema>, NoMemory>
    ensures { IfOk result (λ it. it.value ≡ schema.now.value) }
{
    let schema = Arc::try_clone(schema)?;
    Ok(schema)
}

/// The versions, shared.
pub(crate) fn shared_all(
    alloc: Global,
    versions: &[Arc<Schema>],
) -> Result<Vec<Arc<Schema>>, NoMemory>
    ensures { IfOk result (λ list. spec.tables_of list.items ≡ spec.tables_of versions.now) }
{
    let mut list = Vec::new(alloc);
    for version in versions {
        list.push(shared(version)?)?;
    }
    Ok(list)
}
