//! Transactions that begin.
ghost use Rattle.std.specs.Prelude.{◌≡◌, ℕ, ◌-◌, ◌<◌, ◌^◌, IfOk, None, OnErr, OnOk, length};
ghost use Rattle.sal_types.specs.declared.value.Store.{Store as Of};
ghost use Rattle.sal_rows.specs.Clash.{tip};
ghost use Rattle.sal_graft.specs.Kept.{AreKept, opening_in, ops_of, rows_in};
ghost use Rattle.sal_tx.specs.declared.tx.Tx.{Tx as Token};
ghost use Rattle.sal_history.specs.declared.call.Call.TheVariants.{Begin};
ghost use Rattle.sal_history.specs.declared.reply.Reply.TheVariants.{Begun as Answered};
ghost use Rattle.sal_hub.specs.declared.start.Footing.{Footing as Place};
ghost use Rattle.sal_hub.specs.Answers.{CallsOver, limit};
ghost use Rattle.sal_hub.specs.Chains.{call_of};
ghost use Rattle.sal_hub.specs.Current.{IsKept, known_of};
ghost use Rattle.sal_hub.specs.Journals.{jotted, mark_at};
ghost use Rattle.sal_hub.specs.PipelineView.{CanBeSeen};
ghost use Rattle.sal_hub.specs.Starts.{IsNewest, IsOn, Starts};
ghost use Rattle.sal_hub.specs.Tokens.{IsFresh, IsToken, begun_of};

use crate::journal::Journal;
use crate::pipeline::Pipeline;
use sal_commit::Domain;
use sal_history::Call;
use sal_rows::{CallFault, Mode};
use sal_tree::{Commit, Pair};
use sal_tx::{Begun, ReadTx, Submission, Tx, WriteTx};
use sal_types::{Duplicate, NoMemory};
use std::alloc::Global;
use std::sync::Arc;

/// The start of a transaction: the number of its base commit, the pending receipt that it follows, if any, and the trees
/// that it sees.
#[derive(Drop)]
pub(crate) struct Footing {
    pub(crate) commit: u64,
    pub(crate) on: Option<u64>,
    pub(crate) trees: Pair,
}

/// A client's request: the next transaction of the chain, or one without a chain, in the mode.
#[derive(Clone, Copy)]
pub(crate) struct Wish {
    pub(crate) client: u32,
    pub(crate) chain: Option<u64>,
    pub(crate) mode: Mode,
}

/// The newest of the commits.
pub(crate) fn last_commit(commits: &[Commit]) -> &Commit
    requires { AreKept commits.now }
    ensures { (s : Of) → rows_in result.now.trees s ≡ tip (opening_in commits.now) (ops_of commits.now) s }
{
    &commits[commits.len() - 1]
}

/// The newest commit of the domain.
pub(crate) fn newest(domain: &Domain) -> Result<Footing, NoMemory>
    requires { AreKept domain.now.commits.items }
    ensures { IfOk result (IsNewest domain.now) }
{
    let trees = last_commit(&domain.commits).trees.copy()?;
    Ok(Footing {
        commit: domain.commits.len() as u64 - 1,
        on: None,
        trees,
    })
}

/// The submission, which is pending with this receipt.
pub(crate) fn on_pending(
    alloc: Global,
    submission: &Submission,
    receipt: u64,
) -> Result<Footing, NoMemory>
    requires { CanBeSeen submission.now }
    ensures { IfOk result (IsOn submission.now receipt) }
{
    let trees = submission.trees(alloc)?;
    Ok(Footing {
        commit: submission.base_commit,
        on: Some(receipt),
        trees,
    })
}

// A transaction of the domain with this start, as the entry at the index of the log.
fn start(
    alloc: Global,
    domain: &Domain,
    footing: Footing,
    wish: Wish,
    place: u64,
) -> Result<Tx, NoMemory>
    requires low { place < 2 ^ 63 - 1 }
    ensures { IfOk result (Starts domain.now footing wish.chain wish.mode place) }
{
    let begun = Begun {
        domain: domain.number,
        base_commit: footing.commit,
        on: footing.on,
        chain: wish.chain,
        place,
        version: domain.version,
        schema: Arc::try_clone(&domain.schema)?,
    };
    let base = footing.trees;
    match wish.mode {
        Mode::Ro => Ok(Tx::Read(ReadTx::open(begun, base))),
        Mode::Wo | Mode::Rw | Mode::Checked => {
            let tx = WriteTx::open(alloc, begun, base, wish.mode)?;
            Ok(Tx::Write(tx))
        }
    }
}

// The client's call.
fn call_of(domain: u32, wish: Wish) -> Call
    ensures { result ≡ call_of domain wish.chain wish.mode }
{
    let mode = wish.mode;
    match wish.chain {
        None => Call::Begin { domain, mode },
        Some(chain) => Call::ChainBegin { chain, mode },
    }
}

/// Begins a transaction of the domain with this start, and adds the entry.
pub(crate) fn enter(
    alloc: Global,
    journal: &mut Journal,
    domain: &Domain,
    footing: Footing,
    wish: Wish,
) -> Result<Tx, NoMemory>
    requires room { length journal.old.log < limit }
    ensures starts { IfOk result (Starts domain.now footing wish.chain wish.mode (length journal.old.log)) }
    ensures log { OnOk result (journal.new.log ≡ jotted journal.old.log wish.client (call_of domain.now.number wish.chain wish.mode)) }
    ensures marks { OnOk result ((k : ℕ) → mark_at journal.new.marks k ≡ mark_at journal.old.marks k) }
    ensures err { OnErr result (journal.new ≡ journal.old) }
{
    let place = journal.entries().len() as u64;
    let tx = start(alloc, domain, footing, wish, place)?;
    journal.add(wish.client, call_of(domain.number, wish))?;
    Ok(tx)
}

/// Begins a transaction of the domain in the mode, and adds the entry.
pub(crate) fn begin(
    alloc: Global,
    pipeline: &Pipeline,
    journal: &mut Journal,
    client: u32,
    domain: u32,
    mode: Mode,
) -> Result<Tx, CallFault>
    requires kept { IsKept journal.old pipeline.now }
    requires room { length journal.old.log < limit }
    ensures kept { IsKept journal.new pipeline.now }
    ensures answer { CallsOver pipeline.now journal.old journal.new client (Begin domain mode) (λ (tx : Token). Answered (begun_of tx).base_commit (begun_of tx).on) result }
    ensures token { IfOk result (IsToken (known_of journal.new pipeline.now)) }
    ensures fresh { IfOk result (IsFresh (known_of journal.old pipeline.now) domain None mode) }
{
    match pipeline.live(domain) {
        None => match journal.add(client, Call::Begin { domain, mode }) {
            Ok(()) => Err(CallFault::NoDomain { id: domain }),
            Err(NoMemory) => Err(CallFault::NoMemory),
        },
        Some(found) => match begin_in(alloc, journal, found, client, mode) {
            Ok(tx) => Ok(tx),
            Err(NoMemory) => Err(CallFault::NoMemory),
        },
    }
}

// Begins a transaction of this domain at its newest commit, and adds the entry.
fn begin_in(
    alloc: Global,
    journal: &mut Journal,
    domain: &Domain,
    client: u32,
    mode: Mode,
) -> Result<Tx, NoMemory>
    requires kept { AreKept domain.now.commits.items }
    requires room { length journal.old.log < limit }
    ensures starts { IfOk result (λ tx. (footing : Place) × IsNewest domain.now footing × Starts domain.now footing None mode (length journal.old.log) tx) }
    ensures log { OnOk result (journal.new.log ≡ jotted journal.old.log client (Begin domain.now.number mode)) }
    ensures marks { OnOk result ((k : ℕ) → mark_at journal.new.marks k ≡ mark_at journal.old.marks k) }
    ensures err { OnErr result (journal.new ≡ journal.old) }
{
    let footing = newest(domain)?;
    let wish = Wish {
        client,
        chain: None,
        mode,
    };
    let tx = enter(alloc, journal, domain, footing, wish)?;
    Ok(tx)
}
