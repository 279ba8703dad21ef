//! The hub.
ghost use Rattle.std.specs.Prelude.{◌≡◌, ◌<◌, ◌≤◌, None, Some, [], IfOk, IfSome, MatchResult, length};
ghost use Rattle.sal_types.specs.declared.value.Store.{Store as Of};
ghost use Rattle.sal_rows.specs.declared.batch.Batch.{Batch as Told};
ghost use Rattle.sal_rows.specs.declared.outcome.Outcome.{Outcome as Decided};
ghost use Rattle.sal_tx.specs.declared.tx.Tx.{Tx as Token};
ghost use Rattle.sal_tx.specs.Views.{rows_in};
ghost use Rattle.sal_history.specs.declared.call.Call.TheVariants.{After, Begin, Cancel, ChainBegin, CloseChain, Listen, Mark, OpenChain, Pump, Settle, Submit, Take, Unlisten};
ghost use Rattle.sal_history.specs.declared.reply.Reply.TheVariants.{Accepted, Batch as Tells, Begun, Chain as Opened, Receipt as Numbered, Settled};
ghost use Rattle.sal_history.specs.History.{commits, history, newest_tree};
ghost use Rattle.sal_history.specs.World.{AreVersions};
ghost use Rattle.sal_hub.specs.declared.chain.Chain.{Chain as ChainToken};
ghost use Rattle.sal_hub.specs.declared.receipt.Receipt.{Receipt as Given};
ghost use Rattle.sal_hub.specs.Answers.{Calls, CallsOr};
ghost use Rattle.sal_hub.specs.Domains.{AreDomains};
ghost use Rattle.sal_hub.specs.HubHistory.{entry_of};
ghost use Rattle.sal_hub.specs.Listeners.{IsMade, listener_reply};
ghost use Rattle.sal_hub.specs.Marks.{has_mark};
ghost use Rattle.sal_hub.specs.Openings.{AreClosedDevices, IsFaultOf, fault_of, world_of};
ghost use Rattle.sal_hub.specs.Seen.{LooksOnce, pump_reply, seen_reply};
ghost use Rattle.sal_hub.specs.Tokens.{IsBegun, IsChain, IsFresh, IsGiven, IsListener, IsToken, begun_of};

use crate::chain::Chain;
use crate::chain_calls::{NextAsk, chain_begin, close_chain, open_chain};
use crate::chains::{Chains, note};
use crate::devices::{have_tables, open_all};
use crate::first::hub_of;
use crate::journal::Journal;
use crate::listener::ListenerId;
use crate::listener_calls::Ask;
use crate::listeners::Listeners;
use crate::marks::{Marks, leave};
use crate::opening::OpenFault;
use crate::pipeline::Pipeline;
use crate::pump::pump;
use crate::receipt::Receipt;
use crate::seen::Seen;
use crate::services::Services;
use crate::start::{begin, last_commit};
use crate::submit::submit;
use sal_commit::Domain;
use sal_history::{Call, Device, Entry};
use sal_rows::{Batch, CallFault, Mode, Outcome, Rules};
use sal_tree::Pair;
use sal_tx::{Tx, WriteTx};
use sal_types::{NoMemory, Path, Store};
use std::alloc::Global;
use std::marker::Model;

/// The largest number of entries of the log.
pub const MAX_ENTRIES: usize = 1000000;

/// The largest number of pending submissions.
pub const MAX_PENDING: usize = 4096;

/// The hub: the log of the calls, and its state. A contract sees the opening trees of the domains and the log.
pub struct Hub {
    pub(crate) pipeline: Pipeline,
    pub(crate) journal: Journal,
    pub(crate) chains: Chains,
    pub(crate) marks: Marks,
    pub(crate) listeners: Listeners,
    pub(crate) services: Services,
}

impl Hub {
    ghost use Rattle.sal_hub.specs.Current.{IsKept, known_of};

    // The log and the pipeline. All else is dropped.
    pub(crate) fn into_parts(self) -> (Journal, Pipeline)
        ensures known { known_of result.0 result.1 ≡ self }
        ensures kept { IsKept result.0 result.1 }
    {
        let Hub {
            pipeline,
            journal,
            chains: _,
            marks: _,
            listeners: _,
            services: _,
        } = self;
        (journal, pipeline)
    }
}

impl Drop for Hub {
    fn drop(self) {
        let Hub {
            pipeline: _,
            journal: _,
            chains: _,
            marks: _,
            listeners: _,
            services: _,
        } = self;
    }
}

impl Model for Hub {
    ghost use Rattle.sal_hub.specs.HubHistory.{HubHistory};
    ghost use Rattle.std.specs.Coded.{codes};
    ghost use Rattle.sal_restrict.specs.contracts.yang_type.YangType as e;

    ghost Value = { HubHistory };

    ghost coded = { Prim.hlevel (codes, e.the_row.coded) };

    ghost use Rattle.sal_hub.specs.Current.{known_of};
    ghost use Rattle.sal_hub.specs.Whole.{IsWhole};

    ghost view = { λ h. known_of h.journal h.pipeline };

    ghost invariant = { λ h. IsWhole h.journal h.pipeline h.chains h.marks h.listeners h.services };
}

// The index of the entry that began the transaction.
fn place_of(tx: &Tx) -> u64
    ensures { result ≡ (begun_of tx.now).place }
{
    match tx {
        Tx::Read(tx) => tx.begun().place,
        Tx::Write(tx) => tx.begun().place,
    }
}

impl Hub {
    /// A hub without calls over the devices, of which the first is the controller's own domain, under the version rules. The opening trees of each
    /// fit at the root by version 0 of its schema, as data read there does, and as `fits_rows` of `sal_data` tests; so all committed
    /// trees do by the present version (`stays_closed`). Each version of a schema extends the one before (`Schema::extends`), and only the
    /// first device has more than one.
    pub fn open(alloc: Global, devices: Vec<Device>, rules: Rules) -> Result<Hub, OpenFault>
        requires some { 1 ≤ length devices.items }
        requires few { length devices.items ≤ 64 }
        requires closed { AreClosedDevices devices.items }
        requires versions { AreVersions (world_of rules devices.items) }
        ensures { MatchResult result (λ hub. (fault_of (world_of rules devices.items) ≡ None) × (hub ≡ record { world = world_of rules devices.items; log = [] })) (IsFaultOf (world_of rules devices.items)) }
    {
        have_tables(&devices);
        let domains = open_all(alloc, &devices, rules)?;
        Ok(hub_of(alloc, domains))
    }

    /// The log of the calls so far.
    pub fn log(&self) -> &[Entry]
        ensures { result.now ≡ self.now.log }
    {
        self.journal.entries()
    }

    /// The domains, by number.
    pub fn domains(&self) -> &[Domain]
        ensures { AreDomains self.now result.now }
    {
        &self.pipeline.domains
    }

    /// The number of commits of the controller's own domain.
    pub fn newest(&self) -> u64
        ensures { result ≡ length (commits (history self.now.world self.now.log) 0) }
    {
        self.pipeline.domains[0].commits.len() as u64 - 1
    }

    /// The newest trees of the controller's own domain.
    pub fn trees(&self) -> &Pair
        ensures { (s : Of) → rows_in result.now s ≡ newest_tree self.now.world self.now.log 0 s }
    {
        &last_commit(&self.pipeline.domains[0].commits).trees
    }

    /// The number of commits of the domain.
    pub fn newest_of(&self, domain: u32) -> u64
        requires { domain < length self.now.world }
        ensures { result ≡ length (commits (history self.now.world self.now.log) domain) }
    {
        self.pipeline.domains[domain as usize].commits.len() as u64 - 1
    }

    /// The newest trees of the domain.
    pub fn trees_of(&self, domain: u32) -> &Pair
        requires { domain < length self.now.world }
        ensures { (s : Of) → rows_in result.now s ≡ newest_tree self.now.world self.now.log domain s }
    {
        &last_commit(&self.pipeline.domains[domain as usize].commits).trees
    }

    /// Begins a transaction of the domain in the mode.
    pub fn begin(
        &mut self,
        alloc: Global,
        client: u32,
        domain: u32,
        mode: Mode,
    ) -> Result<Tx, CallFault>
        ensures answer { Calls self.old self.new (entry_of self.old client (Begin domain mode)) (λ (tx : Token). Begun (begun_of tx).base_commit (begun_of tx).on) result }
        ensures token { IfOk result (IsToken self.new) }
        ensures fresh { IfOk result (IsFresh self.old domain None mode) }
    {
        if self.journal.is_full() {
            return Err(CallFault::HistoryFull);
        }
        begin(
            alloc,
            &self.pipeline,
            &mut self.journal,
            client,
            domain,
            mode,
        )
    }

    /// Submits the transaction; it is then pending. A refused transaction is returned.
    pub fn submit(
        &mut self,
        alloc: Global,
        client: u32,
        tx: WriteTx,
    ) -> Result<Receipt, (WriteTx, CallFault)>
        requires token { IsBegun self.old tx.begun tx.mode tx.base }
        ensures answer { CallsOr self.old self.new (entry_of self.old client (Submit tx.begun.place tx.changes)) (λ (receipt : Given). Numbered receipt.number) tx result }
        ensures given { IfOk result (IsGiven self.new) }
    {
        if self.journal.is_full() {
            return Err((tx, CallFault::HistoryFull));
        }
        let chain = tx.begun().chain;
        match submit(alloc, &mut self.pipeline, &mut self.journal, client, tx) {
            Ok(receipt) => {
                note(&mut self.chains.sent, chain, receipt.number());
                Ok(receipt)
            }
            Err(back) => Err(back),
        }
    }

    /// Cancels the transaction.
    pub fn cancel(&mut self, alloc: Global, client: u32, tx: Tx) -> Result<(), (Tx, CallFault)>
        requires token { IsToken self.old tx }
        ensures answer { CallsOr self.old self.new (entry_of self.old client (Cancel (begun_of tx).place)) (λ _. Accepted) tx result }
    {
        if self.journal.is_full() {
            return Err((tx, CallFault::HistoryFull));
        }
        let place = place_of(&tx);
        match self.journal.add(client, Call::Cancel { place }) {
            Ok(()) => {}
            Err(NoMemory) => return Err((tx, CallFault::NoMemory)),
        }
        self.journal.spend(place as usize);
        Ok(())
    }

    /// Decides all pending receipts up to this one, and returns its outcome. If memory runs out, all stay pending.
    pub fn settle(
        &mut self,
        alloc: Global,
        client: u32,
        receipt: Receipt,
    ) -> Result<Outcome, CallFault>
        requires given { IsGiven self.old receipt }
        ensures answer { Calls self.old self.new (entry_of self.old client (Settle receipt.number)) (λ (o : Decided). Settled receipt.domain o) result }
    {
        if self.journal.is_full() {
            return Err(CallFault::HistoryFull);
        }
        let number = receipt.number();
        let call = Call::Settle { receipt: number };
        match self
            .pipeline
            .settle(alloc, &mut self.journal, client, call, number as usize)
        {
            Ok(outcome) => Ok(outcome),
            Err(NoMemory) => Err(CallFault::NoMemory),
        }
    }

    /// Decides the first pending receipt, and returns it with its outcome, or none if no receipt is pending. If memory runs
    /// out, it stays pending.
    pub fn pump(
        &mut self,
        alloc: Global,
        client: u32,
    ) -> Result<Option<(Receipt, Outcome)>, CallFault>
        ensures answer { Calls self.old self.new (entry_of self.old client Pump) pump_reply result }
        ensures given { IfOk result (λ decided. IfSome decided (λ d. IsGiven self.new d.0)) }
    {
        if self.journal.is_full() {
            return Err(CallFault::HistoryFull);
        }
        pump(alloc, &mut self.pipeline, &mut self.journal, client)
    }

    /// Opens a transaction chain over the domain.
    pub fn open_chain(
        &mut self,
        alloc: Global,
        client: u32,
        domain: u32,
    ) -> Result<Chain, CallFault>
        ensures answer { Calls self.old self.new (entry_of self.old client (OpenChain domain)) (λ (c : ChainToken). Opened c.id) result }
        ensures given { IfOk result (IsChain self.new) }
        ensures domain { IfOk result (λ c. c.domain ≡ domain) }
    {
        if self.journal.is_full() {
            return Err(CallFault::HistoryFull);
        }
        open_chain(
            &mut self.pipeline,
            &mut self.journal,
            &mut self.chains,
            client,
            domain,
        )
    }

    /// Begins the next transaction of the chain in the mode: it follows the last submission of the chain while that is pending, and
    /// else its base is the newest commit.
    pub fn chain_begin(
        &mut self,
        alloc: Global,
        client: u32,
        chain: &Chain,
        mode: Mode,
    ) -> Result<Tx, CallFault>
        requires token { IsChain self.old chain.now }
        ensures answer { Calls self.old self.new (entry_of self.old client (ChainBegin chain.now.id mode)) (λ (tx : Token). Begun (begun_of tx).base_commit (begun_of tx).on) result }
        ensures token { IfOk result (IsToken self.new) }
        ensures fresh { IfOk result (IsFresh self.old chain.now.domain (Some chain.now.id) mode) }
    {
        if self.journal.is_full() {
            return Err(CallFault::HistoryFull);
        }
        let ask = NextAsk {
            client,
            chain: *chain,
            mode,
        };
        chain_begin(
            alloc,
            &self.pipeline,
            &mut self.journal,
            &mut self.chains,
            ask,
        )
    }

    /// Closes the chain: no transaction begins in it any more.
    pub fn close_chain(
        &mut self,
        alloc: Global,
        client: u32,
        chain: &Chain,
    ) -> Result<(), CallFault>
        requires token { IsChain self.old chain.now }
        ensures answer { Calls self.old self.new (entry_of self.old client (CloseChain chain.now.id)) (λ _. Accepted) result }
    {
        if self.journal.is_full() {
            return Err(CallFault::HistoryFull);
        }
        match close_chain(
            &mut self.journal,
            &mut self.chains.closed,
            client,
            chain.id(),
        ) {
            Ok(true) => return Err(CallFault::ChainClosed),
            Ok(false) => {}
            Err(NoMemory) => return Err(CallFault::NoMemory),
        }
        Ok(())
    }

    /// Makes a listener at the path of a store of the domain, and returns the rows at and below it at the newest commit.
    pub fn listen(
        &mut self,
        alloc: Global,
        client: u32,
        domain: u32,
        store: Store,
        path: &Path,
    ) -> Result<(ListenerId, sal_rows::Opened), CallFault>
        ensures answer { Calls self.old self.new (entry_of self.old client (Listen domain store path.now)) (listener_reply domain path.now) result }
        ensures given { IfOk result (λ given. IsListener self.new given.0) }
        ensures domain { IfOk result (λ given. given.0.domain ≡ domain) }
        ensures made { IfOk result (λ given. IsMade self.new given.0 (record { client = client; domain = domain; store = store; path = path.now })) }
    {
        if self.journal.is_full() {
            return Err(CallFault::HistoryFull);
        }
        let ask = Ask {
            client,
            domain,
            store,
            path,
        };
        self.listeners
            .listen(alloc, &self.pipeline, &mut self.journal, &ask)
    }

    /// Takes the batch of the client's listener: the changes of each commit since its opening, or since its last batch.
    pub fn take(&mut self, alloc: Global, client: u32, id: ListenerId) -> Result<Batch, CallFault>
        requires token { IsListener self.old id }
        ensures answer { Calls self.old self.new (entry_of self.old client (Take id.number)) (λ (b : Told). Tells id.domain b) result }
    {
        if self.journal.is_full() {
            return Err(CallFault::HistoryFull);
        }
        self.listeners
            .take(alloc, &self.pipeline, &mut self.journal, client, id)
    }

    /// Removes the client's listener.
    pub fn unlisten(&mut self, alloc: Global, client: u32, id: ListenerId) -> Result<(), CallFault>
        requires token { IsListener self.old id }
        ensures answer { Calls self.old self.new (entry_of self.old client (Unlisten id.number)) (λ _. Accepted) result }
    {
        if self.journal.is_full() {
            return Err(CallFault::HistoryFull);
        }
        self.listeners
            .unlisten(&self.pipeline, &mut self.journal, client, id)
    }

    /// Sets the mark in the log.
    pub fn mark(&mut self, alloc: Global, client: u32, mark: u32) -> Result<(), CallFault>
        ensures answer { Calls self.old self.new (entry_of self.old client (Mark mark)) (λ _. Accepted) result }
    {
        if self.journal.is_full() {
            return Err(CallFault::HistoryFull);
        }
        match leave(&mut self.journal, &mut self.marks, client, mark) {
            Ok(()) => {}
            Err(NoMemory) => return Err(CallFault::NoMemory),
        }
        Ok(())
    }

    /// Asks once whether the mark was set.
    pub fn after(&mut self, alloc: Global, client: u32, mark: u32) -> Result<Seen, CallFault>
        ensures answer { Calls self.old self.new (entry_of self.old client (After mark)) seen_reply result }
        ensures once { IfOk result (LooksOnce (length self.old.log)) }
    {
        if self.journal.is_full() {
            return Err(CallFault::HistoryFull);
        }
        let front = self.journal.entries().len() as u64;
        match self.journal.add(client, Call::After { mark }) {
            Ok(()) => {}
            Err(NoMemory) => return Err(CallFault::NoMemory),
        }
        if self.marks.has(mark) {
            return Ok(Seen::Found);
        }
        Ok(Seen::Late { looks: 1, front })
    }

    /// Whether the mark was set in the log. It takes no memory, and does not go through the log.
    pub fn has_mark(&self, mark: u32) -> bool
        ensures { result ≡ has_mark self.now.log mark }
    {
        self.marks.has(mark)
    }
}
