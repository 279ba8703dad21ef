//! A domain with its commits.
ghost use Rattle.std.specs.Prelude.{◌≡◌, ◌+◌, ◌≤◌, ◌<◌, [], ◌∷◌, None, IfOk, MatchResult, OnOk, length, take};
ghost use Rattle.std.specs.Coded.{codes};
ghost use Rattle.sal_node.specs.Code.{tree_code};
ghost use Rattle.sal_graft.specs.Following.{AreFollowing};
ghost use Rattle.sal_graft.specs.Kept.{AreKept, chains_of, opening_in, ops_of};
ghost use Rattle.sal_commit.specs.Opening.{fault_of, IsFaultOf, opening_of_device};
ghost use Rattle.sal_commit.specs.Sound.{AreSoundSince};
ghost use Rattle.sal_commit.specs.Stamps.{receipts_of};

use crate::fault::DomainFault;
use crate::opening::{first_commits, sound_trees};
use crate::versions::{shared, shared_all};
use sal_check::Plan;
use sal_history::Device;
use sal_rows::Rules;
use sal_schema::Schema;
use sal_tree::Commit;
use sal_types::NoMemory;
use std::alloc::Global;
use std::sync::Arc;

/// A domain: a pair of stores with one schema in several versions, one of which is the present one, and its commits, the opening first.
/// Commit `k` is at index `k`. From the newest commit at the last upgrade on, no tree of a commit breaks a structural rule
/// of the present version; the plan of rules is that of this version. Each commit was made from the one before it: the nodes that its
/// operations touch have the stamp of its receipt, and every other node is the same. So if nodes of two neighbouring commits have one
/// path and one stamp, they are equal. The domain's version rules decide its submissions.
#[derive(Drop)]
pub struct Domain {
    pub number: u32,
    /// Whether the domain takes transactions and makes commits; a device's does from its mount to its unmount.
    pub live: bool,
    /// The present version of the schema.
    pub schema: Arc<Schema>,
    /// Version 0.
    pub first: Arc<Schema>,
    /// The versions from 1 on.
    pub upgrades: Vec<Arc<Schema>>,
    /// The number of the present version.
    pub version: u32,
    /// The number of the newest commit at the last upgrade, 0 before the first one.
    pub since: u64,
    pub rules: Rules,
    pub commits: Vec<Commit>,
    pub(crate) plan: Plan,
    pub ghost planned: { plan.schema.value ≡ schema.value },
    pub ghost sound: { AreSoundSince since schema.value commits.items },
    pub ghost reached: { since < length commits.items },
    pub ghost following: { AreFollowing commits.items } by { Prim.hlevel (codes, tree_code) },
}

impl Domain {
    ghost use Rattle.sal_commit.specs.Domains.{IsSame, is_roomy};
    ghost use Rattle.sal_commit.specs.Versions.{tables_of};

    /// The domain of this number over the versions and the opening trees of a device, with these version rules, unless one of the trees
    /// breaks a structural rule of version 0, which is then the present one.
    pub fn open(
        alloc: Global,
        number: u32,
        device: &Device,
        live: bool,
        rules: Rules,
    ) -> Result<Domain, DomainFault>
        ensures parts { IfOk result (λ d. (d.number ≡ number) × (d.live ≡ live) × (d.schema.value ≡ device.now.schema.value)) }
        ensures first { IfOk result (λ d. (d.first.value ≡ device.now.schema.value) × (d.version ≡ 0) × (d.since ≡ 0)) }
        ensures rules { IfOk result (λ d. d.rules ≡ rules) }
        ensures upgrades { IfOk result (λ d. tables_of d.upgrades.items ≡ tables_of device.now.upgrades.items) }
        ensures kept { IfOk result (λ d. AreKept d.commits.items) }
        ensures commits { IfOk result (λ d. ops_of d.commits.items ≡ []) }
        ensures chains { IfOk result (λ d. chains_of d.commits.items ≡ []) }
        ensures receipts { IfOk result (λ d. receipts_of d.commits.items ≡ 0 ∷ []) }
        ensures opening { IfOk result (λ d. opening_in d.commits.items ≡ opening_of_device device.now) }
        ensures fault { MatchResult result (λ _. fault_of device.now ≡ None) (IsFaultOf device.now) }
    {
        let plan = Plan::of(alloc, &device.schema)?;
        let trees = sound_trees(alloc, device, &plan)?;
        let commits = first_commits(alloc, trees)?;
        let schema = shared(&device.schema)?;
        let first = shared(&device.schema)?;
        let upgrades = shared_all(alloc, &device.upgrades)?;
        Ok(Domain {
            number,
            live,
            schema,
            first,
            upgrades,
            version: 0,
            since: 0,
            rules,
            commits,
            plan,
        })
    }

    /// Makes room for one more commit.
    pub fn reserve(&mut self) -> Result<(), NoMemory>
        ensures room { OnOk result (is_roomy self.new) }
        ensures same { IsSame self.old self.new }
        ensures commits { self.new.commits.items ≡ self.old.commits.items }
    {
        self.commits.reserve(1)?;
        Ok(())
    }

    /// Drops the commits after this one, which is not before the last upgrade. It takes no memory.
    pub fn cut_to(&mut self, number: u64)
        requires since { self.old.since ≤ number }
        ensures same { IsSame self.old self.new }
        ensures commits { self.new.commits.items ≡ take (number + 1) self.old.commits.items }
    {
        let last = number as usize;
        if last < self.commits.len() {
            self.commits.truncate(last + 1);
        }
    }
}
