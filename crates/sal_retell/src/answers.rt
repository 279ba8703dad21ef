//! The reply to an entry, from the records of those before it.
ghost use Rattle.std.specs.Prelude.{◌≡◌, [], None, IfOk, List};
ghost use Rattle.sal_history.specs.Services.{mount_call};
ghost use Rattle.std.specs.Option.{option_copied};
ghost use Rattle.sal_history.specs.declared.reply.Reply.TheVariants as replies;
ghost use Rattle.sal_rows.specs.declared.outcome.CallFault.TheVariants as faults;
ghost use Rattle.sal_mount.specs.declared.call.MountCall.{MountCall};
ghost use Rattle.sal_mount.specs.Register.{IsOf};
ghost use Rattle.sal_history.specs.History.{refused_or};
ghost use Rattle.sal_retell.specs.Light as spec;

use crate::front::{Footing, Front};
use crate::queries::{
    commits_of, domain_on, failing, front_of, has, has_number, is_unspent, last_begun,
    last_receipt, later_than, outcome_by, outcome_of, sent_as, sent_by, sent_of,
};
use sal_history::{Call, Reply};
use sal_rows::{CallFault, Outcome};
use sal_types::{Duplicate, NoMemory};
use std::alloc::Global;

/// The largest number of pending submissions.
const MAX_PENDING: usize = 4096;

// The reply that begins a transaction on the commit, if the domain is live.
fn begun(live: bool, domain: u32, commit: u64) -> Reply
    ensures { result ≡ spec.begun_on live domain commit }
{
    if live {
        Reply::Begun { commit, on: None }
    } else {
        no_domain(domain)
    }
}

fn no_domain(id: u32) -> Reply
    ensures { result ≡ replies.Refused (faults.NoDomain id) }
{
    Reply::Refused {
        fault: CallFault::NoDomain { id },
    }
}

// A refusal, or this reply.
fn refused_or(fault: Option<CallFault>, good: Reply) -> Reply
    ensures { result ≡ refused_or fault good }
{
    match fault {
        None => good,
        Some(fault) => Reply::Refused { fault },
    }
}

fn settled(footing: Option<Footing>, outcome: Option<&Outcome>) -> Result<Reply, NoMemory>
    ensures { IfOk result (λ r. r ≡ spec.settled_on footing (option_copied outcome.entry)) }
{
    match (footing, outcome) {
        (Some(footing), Some(outcome)) => Ok(Reply::Settled {
            domain: footing.domain,
            outcome: outcome.copy()?,
        }),
        _ => Ok(Reply::Receipt { number: 0 }),
    }
}

// The receipt up to which all are decided after a settle.
fn settled_upto(receipt: u64, decided: usize, sent: usize) -> usize
    ensures { result ≡ spec.settled_upto receipt decided sent }
{
    usize::max(decided, usize::min(receipt as usize, sent))
}

fn pumped(
    receipt: u64,
    footing: Option<Footing>,
    outcome: Option<&Outcome>,
) -> Result<Reply, NoMemory>
    ensures { IfOk result (λ r. r ≡ spec.pumped_on receipt footing (option_copied outcome.entry)) }
{
    match (footing, outcome) {
        (Some(footing), Some(outcome)) => Ok(Reply::Decided {
            receipt,
            domain: footing.domain,
            outcome: outcome.copy()?,
        }),
        _ => Ok(Reply::Nothing),
    }
}

impl Front {
    // At the newest commit of the domain.
    fn newest_on(&self, outcomes: &[Outcome], domain: u32, chain: Option<u64>) -> Footing
        ensures { result ≡ spec.newest_on (spec.light_in self.now []) outcomes.now domain chain }
    {
        Footing {
            domain,
            commit: commits_of(domain, &self.sent, front_of(outcomes, self.decided)),
            chain,
        }
    }

    fn pending_on(&self, chain: u64) -> Option<u64>
        ensures { result ≡ spec.pending_on (spec.light_in self.now []) chain }
    {
        later_than(self.decided, last_receipt(chain, &self.sent))
    }

    fn chained_on(&self, outcomes: &[Outcome], chain: u64) -> Footing
        ensures { result ≡ spec.chained_on (spec.light_in self.now []) outcomes.now chain }
    {
        match sent_of(&self.sent, self.pending_on(chain)) {
            None => self.newest_on(outcomes, domain_on(&self.chains, chain), Some(chain)),
            Some(on) => Footing {
                domain: on.domain,
                commit: on.commit,
                chain: Some(chain),
            },
        }
    }

    /// The base of the transaction that the call begins.
    pub(crate) fn asked_on(&self, outcomes: &[Outcome], call: &Call) -> Footing
        ensures { result ≡ spec.asked_on (spec.light_in self.now []) outcomes.now call.now }
    {
        match call {
            Call::Begin { domain, .. } => self.newest_on(outcomes, *domain, None),
            Call::ChainBegin { chain, .. } => self.chained_on(outcomes, *chain),
            _ => Footing {
                domain: 0,
                commit: 0,
                chain: None,
            },
        }
    }

    // Why no transaction begins in the chain, for a live domain or not.
    fn refusal_on(&self, outcomes: &[Outcome], chain: u64, live: bool) -> Option<CallFault>
        ensures { result ≡ spec.refusal_with (spec.light_in self.now []) outcomes.now live chain }
    {
        if has(&self.closed, chain) {
            return Some(CallFault::ChainClosed);
        }
        if let Some(receipt) = failing(chain, &self.sent, front_of(outcomes, self.decided)) {
            return Some(CallFault::ChainFailed { receipt });
        }
        if is_unspent(&self.spent, last_begun(chain, &self.began)) {
            return Some(CallFault::PreviousOpen);
        }
        if !live {
            return Some(CallFault::NoDomain {
                id: domain_on(&self.chains, chain),
            });
        }
        None
    }

    fn chain_begin(&self, outcomes: &[Outcome], chain: u64, commit: u64) -> Reply
        ensures { (calls : List MountCall) → IsOf calls self.now.mounts → commit ≡ (spec.chained_on (spec.light_in self.now []) outcomes.now chain).commit → result ≡ spec.chain_begun (spec.light_in self.now calls) outcomes.now chain }
    {
        let live = self.mounts.is_live(domain_on(&self.chains, chain));
        let refusal = self.refusal_on(outcomes, chain, live);
        let on = self.pending_on(chain);
        refused_or(refusal, Reply::Begun { commit, on })
    }

    fn open_chain(&self, domain: u32) -> Reply
        ensures { (calls : List MountCall) → IsOf calls self.now.mounts → result ≡ spec.chain_opened (spec.light_in self.now calls) domain }
    {
        if self.mounts.is_live(domain) {
            return Reply::Chain {
                id: self.chains.len() as u64 + 1,
            };
        }
        no_domain(domain)
    }

    fn begin(&self, domain: u32, commit: u64) -> Reply
        ensures { (calls : List MountCall) → IsOf calls self.now.mounts → result ≡ spec.begun_on (spec.live (spec.light_in self.now calls) domain) domain commit }
    {
        begun(self.mounts.is_live(domain), domain, commit)
    }

    fn close_chain(&self, chain: u64) -> Reply
        ensures { result ≡ spec.chain_closed (spec.light_in self.now []) chain }
    {
        if has(&self.closed, chain) {
            return Reply::Refused {
                fault: CallFault::ChainClosed,
            };
        }
        Reply::Accepted
    }

    fn submit(&self, place: u64) -> Reply
        ensures { result ≡ spec.submitted_on (spec.light_in self.now []) place }
    {
        if self.sent.len().saturating_sub(self.decided) >= MAX_PENDING {
            return Reply::Refused {
                fault: CallFault::PipelineFull,
            };
        }
        if has(&self.spent, place) {
            return Reply::Refused {
                fault: CallFault::TxSpent,
            };
        }
        Reply::Receipt {
            number: self.sent.len() as u64 + 1,
        }
    }

    fn settle(&self, outcomes: &[Outcome], receipt: u64) -> Result<Reply, NoMemory>
        ensures { IfOk result (λ r. r ≡ spec.settled_in (spec.light_in self.now []) outcomes.now receipt) }
    {
        let decided = settled_upto(receipt, self.decided, self.sent.len());
        let outcome = outcome_of(front_of(outcomes, decided), receipt);
        settled(sent_as(&self.sent, receipt), outcome)
    }

    fn pump(&self, outcomes: &[Outcome]) -> Result<Reply, NoMemory>
        ensures { IfOk result (λ r. r ≡ spec.pumped_in (spec.light_in self.now []) outcomes.now) }
    {
        let outcome = outcome_by(outcomes, self.decided);
        if self.decided >= self.sent.len() {
            return Ok(Reply::Nothing);
        }
        pumped(
            self.decided as u64 + 1,
            sent_by(&self.sent, self.decided),
            outcome,
        )
    }

    fn after(&self, mark: u32) -> Reply
        ensures { result ≡ spec.looked (spec.light_in self.now []) mark }
    {
        if has_number(&self.marks, mark) {
            Reply::Found
        } else {
            Reply::Late
        }
    }

    /// The reply to a call that is not on mounts, or `Nothing` if the reply needs data.
    pub(crate) fn answer(
        &self,
        outcomes: &[Outcome],
        footing: Footing,
        call: &Call,
    ) -> Result<Reply, NoMemory>
        ensures { (calls : List MountCall) → IsOf calls self.now.mounts → footing ≡ spec.asked_on (spec.light_in self.now []) outcomes.now call.now → mount_call call.now ≡ None → IfOk result (λ r. r ≡ spec.answer_on (spec.light_in self.now calls) outcomes.now call.now) }
    {
        match call {
            Call::Begin { domain, .. } => Ok(self.begin(*domain, footing.commit)),
            Call::OpenChain { domain } => Ok(self.open_chain(*domain)),
            Call::ChainBegin { chain, .. } => {
                Ok(self.chain_begin(outcomes, *chain, footing.commit))
            }
            Call::CloseChain { chain } => Ok(self.close_chain(*chain)),
            Call::Submit { place, .. } => Ok(self.submit(*place)),
            Call::Settle { receipt } => self.settle(outcomes, *receipt),
            Call::Pump => self.pump(outcomes),
            Call::After { mark } => Ok(self.after(*mark)),
            Call::Cancel { .. } | Call::Mark { .. } => Ok(Reply::Accepted),
            _ => Ok(Reply::Nothing),
        }
    }
}
