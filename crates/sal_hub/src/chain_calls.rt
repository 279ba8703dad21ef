//! The calls of chains.
ghost use Rattle.std.specs.Prelude.{◌≡◌, ℕ, ◌+◌, ◌-◌, ◌<◌, ◌≤◌, ◌∷◌, ◌++◌, [], not, true, None, Some, IfOk, OnErr, OnOk, length, set, slice_get};
ghost use Rattle.std.specs.Option.{option_map, option_or};
ghost use Rattle.sal_rows.specs.declared.outcome.CallFault.TheVariants.{ChainClosed, ChainFailed, NoDomain, PreviousOpen};
ghost use Rattle.sal_graft.specs.Kept.{AreKept};
ghost use Rattle.sal_tx.specs.declared.tx.Submission.{Submission as Pending};
ghost use Rattle.sal_tx.specs.declared.tx.Tx.{Tx as Token};
ghost use Rattle.sal_history.specs.declared.call.Call.TheVariants.{ChainBegin, CloseChain, OpenChain};
ghost use Rattle.sal_history.specs.declared.reply.Reply.TheVariants.{Begun as Answered, Chain as Opened};
ghost use Rattle.sal_history.specs.History.{chain_refusal, fault_if};
ghost use Rattle.sal_hub.specs.declared.chain.Chain.{Chain as Given};
ghost use Rattle.sal_hub.specs.Answers.{Calls, CallsOver, Made, limit};
ghost use Rattle.sal_hub.specs.Chains.{Adds, AreChains, AreSame, IsFooting, is_open, pending_of};
ghost use Rattle.sal_hub.specs.Current.{IsKept, answers, known_of};
ghost use Rattle.sal_hub.specs.Failures.{IsWithin, flag_in};
ghost use Rattle.sal_hub.specs.Journals.{jotted, mark_at};
ghost use Rattle.sal_hub.specs.HubHistory.{entry_of};
ghost use Rattle.sal_hub.specs.PipelineView.{CanBeSeen, queue_of, world_in};
ghost use Rattle.sal_hub.specs.Tokens.{IsChain, IsFresh, IsToken, begun_of};

use crate::chain::Chain;
use crate::chains::{Chains, note};
use crate::journal::Journal;
use crate::pipeline::Pipeline;
use crate::start::{Footing, Wish, enter, newest, on_pending};
use sal_commit::Domain;
use sal_history::Call;
use sal_rows::{CallFault, Mode};
use sal_tx::Tx;
use sal_types::NoMemory;
use std::alloc::Global;

/// A client's request: the next transaction of the chain, in the mode.
#[derive(Clone, Copy)]
pub(crate) struct NextAsk {
    pub(crate) client: u32,
    pub(crate) chain: Chain,
    pub(crate) mode: Mode,
}

/// Opens a chain over the domain, unless that is refused, and adds the entry.
pub(crate) fn open_chain(
    pipeline: &mut Pipeline,
    journal: &mut Journal,
    chains: &mut Chains,
    client: u32,
    domain: u32,
) -> Result<Chain, CallFault>
    requires kept { IsKept journal.old pipeline.old }
    requires chains { AreChains (known_of journal.old pipeline.old) chains.old }
    requires room { length journal.old.log < limit }
    ensures kept { IsKept journal.new pipeline.new }
    ensures chains { AreChains (known_of journal.new pipeline.new) chains.new }
    ensures answer { Calls (known_of journal.old pipeline.old) (known_of journal.new pipeline.new) (entry_of (known_of journal.old pipeline.old) client (OpenChain domain)) (λ (c : Given). Opened c.id) result }
    ensures given { IfOk result (IsChain (known_of journal.new pipeline.new)) }
    ensures domain { IfOk result (λ c. c.domain ≡ domain) }
{
    if !pipeline.is_live(domain) {
        return match journal.add(client, Call::OpenChain { domain }) {
            Ok(()) => Err(CallFault::NoDomain { id: domain }),
            Err(NoMemory) => Err(CallFault::NoMemory),
        };
    }
    match add_chain(&mut pipeline.failures, journal, chains, client, domain) {
        Ok(id) => Ok(Chain::of(id, domain)),
        Err(NoMemory) => Err(CallFault::NoMemory),
    }
}

// Adds a chain that has not failed, and the entry. If memory runs out, nothing visible changes.
fn add_chain(
    failures: &mut Vec<Option<u64>>,
    journal: &mut Journal,
    chains: &mut Chains,
    client: u32,
    domain: u32,
) -> Result<u64, NoMemory>
    requires room { length journal.old.log < limit }
    ensures id { IfOk result (λ id. id ≡ length chains.new.domains.items) }
    ensures failures { OnOk result (failures.new.items ≡ failures.old.items ++ None ∷ []) }
    ensures chains { OnOk result (Adds chains.old domain chains.new) }
    ensures log { OnOk result (journal.new.log ≡ jotted journal.old.log client (OpenChain domain)) }
    ensures marks { OnOk result ((k : ℕ) → mark_at journal.new.marks k ≡ mark_at journal.old.marks k) }
    ensures unfailing { OnErr result (failures.new.items ≡ failures.old.items) }
    ensures same { OnErr result (AreSame chains.old chains.new) }
    ensures journal { OnErr result (journal.new ≡ journal.old) }
{
    failures.reserve(1)?;
    chains.reserve()?;
    journal.add(client, Call::OpenChain { domain })?;
    failures.push(None).unwrap();
    chains.add(domain);
    Ok(chains.domains.len() as u64)
}

/// Begins the next transaction of the chain, unless that is refused, and adds the entry.
pub(crate) fn chain_begin(
    alloc: Global,
    pipeline: &Pipeline,
    journal: &mut Journal,
    chains: &mut Chains,
    ask: NextAsk,
) -> Result<Tx, CallFault>
    requires kept { IsKept journal.old pipeline.now }
    requires chains { AreChains (known_of journal.old pipeline.now) chains.old }
    requires room { length journal.old.log < limit }
    requires token { IsChain (known_of journal.old pipeline.now) ask.chain }
    ensures kept { IsKept journal.new pipeline.now }
    ensures chains { AreChains (known_of journal.new pipeline.now) chains.new }
    ensures answer { CallsOver pipeline.now journal.old journal.new ask.client (ChainBegin ask.chain.id ask.mode) (λ (tx : Token). Answered (begun_of tx).base_commit (begun_of tx).on) result }
    ensures token { IfOk result (IsToken (known_of journal.new pipeline.now)) }
    ensures fresh { IfOk result (IsFresh (known_of journal.old pipeline.now) ask.chain.domain (Some ask.chain.id) ask.mode) }
{
    let chain = ask.chain.id();
    let mode = ask.mode;
    match refusal(pipeline, journal, chains, &ask.chain) {
        Some(fault) => match journal.add(ask.client, Call::ChainBegin { chain, mode }) {
            Ok(()) => Err(fault),
            Err(NoMemory) => Err(CallFault::NoMemory),
        },
        None => match begin_next(alloc, pipeline, journal, chains, ask) {
            Ok(tx) => Ok(tx),
            Err(NoMemory) => Err(CallFault::NoMemory),
        },
    }
}

// Why no transaction begins in the chain.
fn refusal(
    pipeline: &Pipeline,
    journal: &Journal,
    chains: &Chains,
    chain: &Chain,
) -> Option<CallFault>
    requires kept { IsKept journal.now pipeline.now }
    requires chains { AreChains (known_of journal.now pipeline.now) chains.now }
    requires token { IsChain (known_of journal.now pipeline.now) chain.now }
    ensures { result ≡ chain_refusal (world_in (queue_of pipeline.now).domains) (answers journal.now.log (queue_of pipeline.now)) chain.now.id }
{
    let index = chain.id() as usize - 1;
    let closed = chains.closed[index];
    let failed = pipeline.failures[index];
    let has_open = is_open(journal, chains.begun[index]);
    let live = pipeline.is_live(chain.domain());
    refusal_by(closed, failed, has_open, live, chain.domain())
}

// The first reason that applies, from the look-ups.
fn refusal_by(
    closed: bool,
    failed: Option<u64>,
    has_open: bool,
    live: bool,
    domain: u32,
) -> Option<CallFault>
    ensures { result ≡ option_or (fault_if closed ChainClosed) (option_or (option_map ChainFailed failed) (option_or (fault_if has_open PreviousOpen) (fault_if (not live) (NoDomain domain)))) }
{
    if closed {
        return Some(CallFault::ChainClosed);
    }
    if let Some(receipt) = failed {
        return Some(CallFault::ChainFailed { receipt });
    }
    if has_open {
        return Some(CallFault::PreviousOpen);
    }
    if !live {
        return Some(CallFault::NoDomain { id: domain });
    }
    None
}

// Whether the transaction that began at the index, if any, is neither submitted nor cancelled.
fn is_open(journal: &Journal, begun: Option<u64>) -> bool
    ensures { result ≡ is_open journal.now.marks begun }
{
    match begun {
        None => false,
        Some(place) => !journal.is_spent(place as usize),
    }
}

// Begins the next transaction of the chain, and adds the entry. If memory runs out, nothing visible changes.
fn begin_next(
    alloc: Global,
    pipeline: &Pipeline,
    journal: &mut Journal,
    chains: &mut Chains,
    ask: NextAsk,
) -> Result<Tx, NoMemory>
    requires kept { IsKept journal.old pipeline.now }
    requires chains { AreChains (known_of journal.old pipeline.now) chains.old }
    requires room { length journal.old.log < limit }
    requires token { IsChain (known_of journal.old pipeline.now) ask.chain }
    requires allowed { chain_refusal (world_in (queue_of pipeline.now).domains) (answers journal.old.log (queue_of pipeline.now)) ask.chain.id ≡ None }
    ensures kept { IsKept journal.new pipeline.now }
    ensures chains { AreChains (known_of journal.new pipeline.now) chains.new }
    ensures answer { IfOk result (λ tx. Made (known_of journal.old pipeline.now) (known_of journal.new pipeline.now) (entry_of (known_of journal.old pipeline.now) ask.client (ChainBegin ask.chain.id ask.mode)) (Answered (begun_of tx).base_commit (begun_of tx).on)) }
    ensures token { IfOk result (IsToken (known_of journal.new pipeline.now)) }
    ensures fresh { IfOk result (IsFresh (known_of journal.old pipeline.now) ask.chain.domain (Some ask.chain.id) ask.mode) }
    ensures err { OnErr result (journal.new ≡ journal.old) }
{
    let chain = ask.chain;
    let member = Some(chain.id());
    let wish = Wish {
        client: ask.client,
        chain: member,
        mode: ask.mode,
    };
    let domain = &pipeline.domains[chain.domain() as usize];
    let sent = chains.sent[chain.id() as usize - 1];
    let footing = footing_in(alloc, pipeline, domain, sent)?;
    let place = journal.entries().len() as u64;
    let tx = enter(alloc, journal, domain, footing, wish)?;
    note(&mut chains.begun, member, place);
    Ok(tx)
}

// The start of a transaction that follows the submission with this receipt, if any.
fn footing_in(
    alloc: Global,
    pipeline: &Pipeline,
    domain: &Domain,
    sent: Option<u64>,
) -> Result<Footing, NoMemory>
    requires kept { AreKept domain.now.commits.items }
    requires given { IsWithin (pipeline.now.gone + length pipeline.now.waiting.items) sent }
    requires behind { pipeline.now.gone ≤ length pipeline.now.outcomes.items }
    requires seen { (i : ℕ) (s : Pending) → slice_get pipeline.now.waiting.items i ≡ Some s → CanBeSeen s }
    ensures { IfOk result (IsFooting (pending_of (length pipeline.now.outcomes.items) sent) pipeline.now domain.now) }
{
    match sent {
        None => newest(domain),
        Some(receipt) => {
            if pipeline.outcomes.len() < receipt as usize {
                let index = receipt as usize - 1 - pipeline.gone;
                on_pending(alloc, &pipeline.waiting[index], receipt)
            } else {
                newest(domain)
            }
        }
    }
}

/// Closes the chain, adds the entry, and returns whether the chain was closed before.
pub(crate) fn close_chain(
    journal: &mut Journal,
    closed: &mut [bool],
    client: u32,
    id: u64,
) -> Result<bool, NoMemory>
    requires room { length journal.old.log < limit }
    requires low { 0 < id }
    requires high { id ≤ length closed.old }
    ensures was { IfOk result (λ was. was ≡ flag_in closed.old id) }
    ensures closed { OnOk result (closed.new ≡ set closed.old (id - 1) true) }
    ensures log { OnOk result (journal.new.log ≡ jotted journal.old.log client (CloseChain id)) }
    ensures marks { OnOk result ((k : ℕ) → mark_at journal.new.marks k ≡ mark_at journal.old.marks k) }
    ensures same { OnErr result (closed.new ≡ closed.old) }
    ensures journal { OnErr result (journal.new ≡ journal.old) }
{
    let index = id as usize - 1;
    journal.add(client, Call::CloseChain { chain: id })?;
    let was = closed[index];
    closed[index] = true;
    Ok(was)
}
