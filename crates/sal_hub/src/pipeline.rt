//! The domains with their commits, the pending submissions, and the outcomes.
ghost use Rattle.std.specs.Prelude.{◌≡◌, ℕ, ◌+◌, ◌-◌, ◌<◌, ◌≤◌, false, true, IfOk, MatchOption, OnErr, OnOk, Some, drop, length, map, slice_get, take};
ghost use Rattle.sal_graft.specs.Kept.{AreKept};
ghost use Rattle.sal_commit.specs.declared.domain.Domain.{Domain as Stored};
ghost use Rattle.sal_commit.specs.Versions.{upgrade_fault, version_in};
ghost use Rattle.sal_hub.specs.Upgrades.{set_version};
ghost use Rattle.sal_hub.specs.Answers.{limit};
ghost use Rattle.sal_hub.specs.Failures as failing;
ghost use Rattle.sal_hub.specs.Journals.{jotted, mark_at};
ghost use Rattle.sal_hub.specs.PipelineView.{AllKept, Decides, HasGrown, HasSents, Reach, counts_of, cut_all, is_live_in, queue_of, set_live, shown};

use crate::failures::{cut_failures, failure_of, is_done, note_failure};
use crate::journal::Journal;
use sal_commit::{Domain, NextVersion, decide};
use sal_history::Call;
use sal_rows::Outcome;
use sal_tx::Submission;
use sal_types::{Duplicate, NoMemory};
use std::alloc::Global;
use std::collections::VecDeque;

/// The domains with their commits, the submissions by receipt without the first ones, which were decided and dropped, the
/// outcomes of all decided ones, and for each chain the receipt at which it failed.
#[derive(Drop)]
pub(crate) struct Pipeline {
    pub(crate) domains: Vec<Domain>,
    /// The number of dropped submissions.
    pub(crate) gone: usize,
    pub(crate) waiting: VecDeque<Submission>,
    pub(crate) outcomes: Vec<Outcome>,
    pub(crate) failures: Vec<Option<u64>>,
}

impl Pipeline {
    /// The domain of the number, if it is live.
    pub(crate) fn live(&self, domain: u32) -> Option<&Domain>
        requires { AllKept self.now.domains.items }
        ensures live { MatchOption result (is_live_in (queue_of self.now).domains domain ≡ false) (λ found. is_live_in (queue_of self.now).domains domain ≡ true) }
        ensures found { MatchOption result (Unit {0}) (λ found. slice_get (map shown self.now.domains.items) domain ≡ Some (shown found.now)) }
        ensures kept { MatchOption result (Unit {0}) (λ found. AreKept found.now.commits.items) }
    {
        let index = domain as usize;
        if index >= self.domains.len() {
            return None;
        }
        let found = &self.domains[index];
        if found.live { Some(found) } else { None }
    }

    /// Whether the domain of the number is live.
    pub(crate) fn is_live(&self, domain: u32) -> bool
        requires { AllKept self.now.domains.items }
        ensures { result ≡ is_live_in (queue_of self.now).domains domain }
    {
        match self.live(domain) {
            None => false,
            Some(_) => true,
        }
    }

    /// Sets whether the domain of the number is live.
    pub(crate) fn set_live(&mut self, domain: u32, live: bool)
        requires kept { AllKept self.old.domains.items }
        requires there { domain < length self.old.domains.items }
        ensures kept { AllKept self.new.domains.items }
        ensures queue { queue_of self.new ≡ set_live (queue_of self.old) domain live }
    {
        self.domains[domain as usize].live = live;
    }

    /// Makes the version the present one of the controller's own domain, whose newest trees break no rule of it. It takes no memory.
    pub(crate) fn upgrade(&mut self, next: NextVersion)
        requires kept { AllKept self.old.domains.items }
        requires there { 0 < length self.old.domains.items }
        requires next { (d : Stored) → slice_get self.old.domains.items 0 ≡ Some d → (next.schema.value ≡ version_in d next.number) × (upgrade_fault d next.number ≡ None) }
        ensures kept { AllKept self.new.domains.items }
        ensures queue { queue_of self.new ≡ set_version (queue_of self.old) next.number }
    {
        self.domains[0].upgrade(next);
    }

    // Decides the submission at the index, which is the next one. If memory runs out, nothing visible changes.
    fn decide_one(&mut self, alloc: Global, index: usize) -> Result<(), NoMemory>
        requires kept { AllKept self.old.domains.items }
        requires sound { HasSents (queue_of self.old) }
        requires next { index ≡ length self.old.outcomes.items }
        requires given { index < self.old.gone + length self.old.waiting.items }
        requires few { self.old.gone + length self.old.waiting.items ≤ limit }
        ensures kept { AllKept self.new.domains.items }
        ensures ok { OnOk result (Decides (queue_of self.old) 1 (queue_of self.new)) }
        ensures count { OnOk result (length self.new.outcomes.items ≡ length self.old.outcomes.items + 1) }
        ensures grown { HasGrown (queue_of self.old) (queue_of self.new) }
    {
        self.outcomes.reserve(1)?;
        let submission = &self.waiting[index - self.gone];
        let failed = failure_of(&self.failures, submission.chain);
        let domain = &mut self.domains[submission.domain as usize];
        let receipt = index as u64 + 1;
        let outcome = decide(alloc, submission, domain, failed)?;
        let done = is_done(&outcome);
        note_failure(&mut self.failures, submission.chain, receipt, done);
        self.outcomes.push(outcome).unwrap();
        Ok(())
    }

    // Decides the next submissions, up to `upto` in all, and returns the outcome of the last of these. If memory runs out,
    // some may be decided.
    fn decide_upto(&mut self, alloc: Global, upto: usize) -> Result<Outcome, NoMemory>
        requires kept { AllKept self.old.domains.items }
        requires sound { HasSents (queue_of self.old) }
        requires some { 0 < upto }
        requires given { upto ≤ self.old.gone + length self.old.waiting.items }
        requires few { self.old.gone + length self.old.waiting.items ≤ limit }
        ensures kept { AllKept self.new.domains.items }
        ensures outcome { IfOk result (λ o. slice_get self.new.outcomes.items (upto - 1) ≡ Some o) }
        ensures decided { OnOk result (Decides (queue_of self.old) (upto - length self.old.outcomes.items) (queue_of self.new)) }
        ensures grown { HasGrown (queue_of self.old) (queue_of self.new) }
    {
        for index in self.outcomes.len()..upto {
            self.decide_one(alloc, index)?;
        }
        let outcome = outcome_at(&self.outcomes, upto - 1)?;
        Ok(outcome)
    }

    /// Keeps the first `outcomes` outcomes, and of each domain as many commits as `counts` has for it. It takes no memory.
    fn cut_back(&mut self, outcomes: usize, counts: &[u64])
        requires kept { AllKept self.old.domains.items }
        requires long { length counts.now ≡ length self.old.domains.items }
        requires reach { Reach (map shown self.old.domains.items) counts.now }
        ensures kept { AllKept self.new.domains.items }
        ensures domains { map shown self.new.domains.items ≡ cut_all (map shown self.old.domains.items) counts.now }
        ensures gone { self.new.gone ≡ self.old.gone }
        ensures waiting { self.new.waiting.items ≡ self.old.waiting.items }
        ensures outcomes { self.new.outcomes.items ≡ take outcomes self.old.outcomes.items }
        ensures failures { self.new.failures.items ≡ failing.cut_failures outcomes self.old.failures.items }
    {
        cut_domains(&mut self.domains, counts);
        cut_failures(&mut self.failures, outcomes as u64);
        self.outcomes.truncate(outcomes);
    }

    /// Decides the pending submissions up to the receipt, adds the entry of the call, and returns the outcome. Decided submissions
    /// are dropped. If memory runs out, nothing visible changes.
    pub(crate) fn settle(
        &mut self,
        alloc: Global,
        journal: &mut Journal,
        client: u32,
        call: Call,
        receipt: usize,
    ) -> Result<Outcome, NoMemory>
        requires kept { AllKept self.old.domains.items }
        requires sound { HasSents (queue_of self.old) }
        requires some { 0 < receipt }
        requires given { receipt ≤ self.old.gone + length self.old.waiting.items }
        requires few { self.old.gone + length self.old.waiting.items ≤ limit }
        requires room { length journal.old.log < limit }
        ensures kept { AllKept self.new.domains.items }
        ensures outcome { IfOk result (λ o. slice_get self.new.outcomes.items (receipt - 1) ≡ Some o) }
        ensures decided { OnOk result (Decides (queue_of self.old) (receipt - length self.old.outcomes.items) (queue_of self.new)) }
        ensures gone { OnOk result (self.new.gone ≡ length self.new.outcomes.items) }
        ensures same { OnErr result (queue_of self.new ≡ queue_of self.old) }
        ensures log { OnOk result (journal.new.log ≡ jotted journal.old.log client call) }
        ensures marks { OnOk result ((k : ℕ) → mark_at journal.new.marks k ≡ mark_at journal.old.marks k) }
        ensures journal { OnErr result (journal.new ≡ journal.old) }
    {
        let outcomes = self.outcomes.len();
        let counts = counts_of(alloc, &self.domains)?;
        journal.add(client, call)?;
        match self.decide_upto(alloc, receipt) {
            Ok(outcome) => {
                let_go(&mut self.waiting, &mut self.gone, self.outcomes.len());
                Ok(outcome)
            }
            Err(NoMemory) => {
                journal.take_back();
                self.cut_back(outcomes, &counts);
                Err(NoMemory)
            }
        }
    }
}

// Drops the first submissions, up to the receipt `decided`. It takes no memory.
fn let_go(waiting: &mut VecDeque<Submission>, gone: &mut usize, decided: usize)
    requires { gone.old ≤ decided }
    ensures waiting { waiting.new.items ≡ drop (decided - gone.old) waiting.old.items }
    ensures gone { gone.new ≡ decided }
{
    drop_first(waiting, decided - *gone);
    *gone = decided;
}

// Drops the first `count` ones. It takes no memory.
fn drop_first(waiting: &mut VecDeque<Submission>, count: usize)
    ensures { waiting.new.items ≡ drop count waiting.old.items }
{
    for _ in 0..count {
        drop(waiting.pop_front());
    }
}

// A copy of the outcome at the index.
fn outcome_at(outcomes: &[Outcome], index: usize) -> Result<Outcome, NoMemory>
    requires { index < length outcomes.now }
    ensures { IfOk result (λ o. slice_get outcomes.now index ≡ Some o) }
{
    let outcome = outcomes[index].copy()?;
    Ok(outcome)
}

// The number of commits of each domain after its opening.
fn counts_of(alloc: Global, domains: &[Domain]) -> Result<Vec<u64>, NoMemory>
    requires { AllKept domains.now }
    ensures { IfOk result (λ counts. counts.items ≡ counts_of (map shown domains.now)) }
{
    let mut counts = Vec::with_capacity(alloc, domains.len())?;
    for domain in domains {
        counts.push(domain.commits.len() as u64 - 1)?;
    }
    Ok(counts)
}

// Cuts each domain back to this many commits after its opening.
fn cut_domains(domains: &mut [Domain], counts: &[u64])
    requires kept { AllKept domains.old }
    requires long { length counts.now ≡ length domains.old }
    requires reach { Reach (map shown domains.old) counts.now }
    ensures kept { AllKept domains.new }
    ensures cut { map shown domains.new ≡ cut_all (map shown domains.old) counts.now }
{
    for i in 0..counts.len() {
        domains[i].cut_to(counts[i]);
    }
}
