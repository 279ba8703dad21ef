//! The calls of listeners.
ghost use Rattle.std.specs.Prelude.{◌≡◌, ℕ, ◌-◌, ◌<◌, ◌≤◌, IfOk, OnErr, OnOk, length};
ghost use Rattle.sal_rows.specs.declared.batch.Batch.{Batch as Told};
ghost use Rattle.sal_graft.specs.Kept.{AreKept};
ghost use Rattle.sal_history.specs.declared.call.Call.TheVariants.{Take, Unlisten};
ghost use Rattle.sal_history.specs.declared.reply.Reply.TheVariants.{Accepted, Batch as Tells};
ghost use Rattle.sal_hub.specs.Answers.{CallsOver, limit};
ghost use Rattle.sal_hub.specs.Current.{IsKept, known_of};
ghost use Rattle.sal_hub.specs.Journals.{jotted, mark_at};
ghost use Rattle.sal_hub.specs.PipelineView.{AllKept, is_live_in, queue_of};
ghost use Rattle.sal_hub.specs.Listeners as spec;
ghost use Rattle.sal_hub.specs.Tokens.{IsListener};
ghost use Rattle.sal_hub.specs.Waiting.{would_give};

use crate::journal::Journal;
use crate::listener::{Listener, ListenerId};
use crate::listeners::{Listeners, MAX_LISTENERS};
use crate::pipeline::Pipeline;
use sal_commit::Domain;
use sal_history::Call;
use sal_listen::{Listened, batch, opened};
use sal_rows::{Batch, CallFault, Opened};
use sal_types::{Duplicate, NoMemory, Path, Store};
use std::alloc::Global;

/// The store and the path to which a client wants to listen.
#[derive(Clone, Copy)]
pub(crate) struct Ask<'a> {
    pub(crate) client: u32,
    pub(crate) domain: u32,
    pub(crate) store: Store,
    pub(crate) path: &'a Path,
}

impl Listeners {
    /// Makes a listener, unless that is refused, and adds the entry.
    pub(crate) fn listen(
        &mut self,
        alloc: Global,
        pipeline: &Pipeline,
        journal: &mut Journal,
        ask: &Ask,
    ) -> Result<(ListenerId, Opened), CallFault>
        requires kept { IsKept journal.old pipeline.now }
        requires listeners { spec.AreListeners (known_of journal.old pipeline.now) self.old }
        requires room { length journal.old.log < limit }
        ensures kept { IsKept journal.new pipeline.now }
        ensures listeners { spec.AreListeners (known_of journal.new pipeline.now) self.new }
        ensures answer { CallsOver pipeline.now journal.old journal.new ask.now.client (spec.call_of ask.now) (spec.listener_reply ask.now.domain ask.now.path.now) result }
        ensures given { IfOk result (λ given. IsListener (known_of journal.new pipeline.now) given.0) }
        ensures domain { IfOk result (λ given. given.0.domain ≡ ask.now.domain) }
        ensures made { IfOk result (λ given. spec.IsMade (known_of journal.new pipeline.now) given.0 (record { client = ask.now.client; domain = ask.now.domain; store = ask.now.store; path = ask.now.path.now })) }
    {
        match self.refusal(pipeline, ask.domain) {
            Some(fault) => match enter(journal, ask) {
                Ok(()) => Err(fault),
                Err(NoMemory) => Err(CallFault::NoMemory),
            },
            None => match self.make(alloc, &pipeline.domains[ask.domain as usize], journal, ask) {
                Ok(opened) => {
                    let number = self.list.len() as u64;
                    Ok((ListenerId::of(number, ask.domain), opened))
                }
                Err(NoMemory) => Err(CallFault::NoMemory),
            },
        }
    }

    // Why the domain gets no further listener: the first that applies.
    fn refusal(&self, pipeline: &Pipeline, domain: u32) -> Option<CallFault>
        requires { AllKept pipeline.now.domains.items }
        ensures { result ≡ spec.refusal_by (is_live_in (queue_of pipeline.now).domains domain) domain self.now.live }
    {
        if !pipeline.is_live(domain) {
            return Some(CallFault::NoDomain { id: domain });
        }
        if self.live >= MAX_LISTENERS {
            return Some(CallFault::TooManyListeners);
        }
        None
    }

    // Makes a listener of this domain, and adds the entry. If memory runs out, nothing visible changes.
    fn make(
        &mut self,
        alloc: Global,
        domain: &Domain,
        journal: &mut Journal,
        ask: &Ask,
    ) -> Result<Opened, NoMemory>
        requires kept { AreKept domain.now.commits.items }
        requires room { length journal.old.log < limit }
        requires few { self.old.live < 256 }
        ensures opened { IfOk result (λ o. o ≡ spec.opened_in domain.now ask.now) }
        ensures made { IfOk result (λ o. spec.Adds self.old (spec.new_of ask.now o.version) self.new) }
        ensures log { OnOk result (journal.new.log ≡ jotted journal.old.log ask.now.client (spec.call_of ask.now)) }
        ensures marks { OnOk result ((k : ℕ) → mark_at journal.new.marks k ≡ mark_at journal.old.marks k) }
        ensures same { OnErr result (spec.AreSame self.old self.new) }
        ensures journal { OnErr result (journal.new ≡ journal.old) }
    {
        let opened = opened(alloc, &domain.commits, ask.store, ask.path)?;
        self.add(journal, ask, opened.version)?;
        Ok(opened)
    }

    // Adds the listener, at the version of this commit, and the entry. If memory runs out, nothing visible changes.
    fn add(&mut self, journal: &mut Journal, ask: &Ask, version: u64) -> Result<(), NoMemory>
        requires room { length journal.old.log < limit }
        requires few { self.old.live < 256 }
        ensures made { OnOk result (spec.Adds self.old (spec.new_of ask.now version) self.new) }
        ensures log { OnOk result (journal.new.log ≡ jotted journal.old.log ask.now.client (spec.call_of ask.now)) }
        ensures marks { OnOk result ((k : ℕ) → mark_at journal.new.marks k ≡ mark_at journal.old.marks k) }
        ensures same { OnErr result (spec.AreSame self.old self.new) }
        ensures journal { OnErr result (journal.new ≡ journal.old) }
    {
        self.list.reserve(1)?;
        let listener = new_of(ask, version)?;
        enter(journal, ask)?;
        self.list.push(listener).unwrap();
        self.live += 1;
        Ok(())
    }

    /// Takes the batch of the client's listener, unless that is refused, and adds the entry.
    pub(crate) fn take(
        &mut self,
        alloc: Global,
        pipeline: &Pipeline,
        journal: &mut Journal,
        client: u32,
        id: ListenerId,
    ) -> Result<Batch, CallFault>
        requires kept { IsKept journal.old pipeline.now }
        requires listeners { spec.AreListeners (known_of journal.old pipeline.now) self.old }
        requires room { length journal.old.log < limit }
        requires token { IsListener (known_of journal.old pipeline.now) id }
        ensures kept { IsKept journal.new pipeline.now }
        ensures listeners { spec.AreListeners (known_of journal.new pipeline.now) self.new }
        ensures answer { CallsOver pipeline.now journal.old journal.new client (Take id.number) (λ (b : Told). Tells id.domain b) result }
    {
        let number = id.number();
        if !self.has(client, number) {
            return match journal.add(client, Call::Take { id: number }) {
                Ok(()) => Err(CallFault::NoListener { id: number }),
                Err(NoMemory) => Err(CallFault::NoMemory),
            };
        }
        match self.tell(alloc, pipeline, journal, client, number) {
            Ok(batch) => Ok(batch),
            Err(NoMemory) => Err(CallFault::NoMemory),
        }
    }

    /// Whether the batch of the client's listener would go beyond the one before. It takes no memory.
    pub(crate) fn has_commits(
        &self,
        pipeline: &Pipeline,
        journal: &Journal,
        client: u32,
        id: ListenerId,
    ) -> bool
        requires kept { IsKept journal.now pipeline.now }
        requires listeners { spec.AreListeners (known_of journal.now pipeline.now) self.now }
        requires token { IsListener (known_of journal.now pipeline.now) id }
        ensures { result ≡ would_give (known_of journal.now pipeline.now) client (Take id.number) }
    {
        let number = id.number();
        if !self.has(client, number) {
            return false;
        }
        let listener = &self.list[number as usize - 1];
        let domain = &pipeline.domains[listener.domain as usize];
        listener.version < domain.commits.len() as u64 - 1
    }

    // Whether the client has the listener of this number, and the listener is live.
    fn has(&self, client: u32, number: u64) -> bool
        requires low { 0 < number }
        requires high { number ≤ length self.now.list.items }
        ensures { result ≡ spec.has_in self.now.list.items client (number - 1) }
    {
        let listener = &self.list[number as usize - 1];
        listener.client == client && listener.live
    }

    // Takes the batch of the listener of this number, and adds the entry. If memory runs out, nothing visible
    // changes.
    fn tell(
        &mut self,
        alloc: Global,
        pipeline: &Pipeline,
        journal: &mut Journal,
        client: u32,
        number: u64,
    ) -> Result<Batch, NoMemory>
        requires kept { IsKept journal.old pipeline.now }
        requires listeners { spec.AreListeners (known_of journal.old pipeline.now) self.old }
        requires room { length journal.old.log < limit }
        requires low { 0 < number }
        requires high { number ≤ length self.old.list.items }
        ensures batch { IfOk result (spec.IsBatchFor pipeline.now.domains.items self.old.list.items (number - 1)) }
        ensures told { IfOk result (λ b. spec.Tells self.old (number - 1) b.to self.new) }
        ensures log { OnOk result (journal.new.log ≡ jotted journal.old.log client (Take number)) }
        ensures marks { OnOk result ((k : ℕ) → mark_at journal.new.marks k ≡ mark_at journal.old.marks k) }
        ensures same { OnErr result (spec.AreSame self.old self.new) }
        ensures journal { OnErr result (journal.new ≡ journal.old) }
    {
        let index = number as usize - 1;
        let listener = &self.list[index];
        let domain = &pipeline.domains[listener.domain as usize];
        let batch = batch_for(alloc, domain, listener)?;
        journal.add(client, Call::Take { id: number })?;
        self.list[index].version = batch.to;
        Ok(batch)
    }

    /// Removes the client's listener, unless that is refused, and adds the entry.
    pub(crate) fn unlisten(
        &mut self,
        pipeline: &Pipeline,
        journal: &mut Journal,
        client: u32,
        id: ListenerId,
    ) -> Result<(), CallFault>
        requires kept { IsKept journal.old pipeline.now }
        requires listeners { spec.AreListeners (known_of journal.old pipeline.now) self.old }
        requires room { length journal.old.log < limit }
        requires token { IsListener (known_of journal.old pipeline.now) id }
        ensures kept { IsKept journal.new pipeline.now }
        ensures listeners { spec.AreListeners (known_of journal.new pipeline.now) self.new }
        ensures answer { CallsOver pipeline.now journal.old journal.new client (Unlisten id.number) (λ _. Accepted) result }
    {
        let number = id.number();
        match journal.add(client, Call::Unlisten { id: number }) {
            Ok(()) => {}
            Err(NoMemory) => return Err(CallFault::NoMemory),
        }
        if !self.has(client, number) {
            return Err(CallFault::NoListener { id: number });
        }
        self.take_out(number as usize - 1);
        Ok(())
    }

    // Removes the listener at the index, which is live. It takes no memory.
    fn take_out(&mut self, index: usize)
        requires within { index < length self.old.list.items }
        requires some { 0 < self.old.live }
        ensures { spec.Removes self.old index self.new }
    {
        self.list[index].live = false;
        self.live -= 1;
    }
}

// The record of a new listener, at the version of this commit.
fn new_of(ask: &Ask, version: u64) -> Result<Listener, NoMemory>
    ensures { IfOk result (λ l. l ≡ spec.new_of ask.now version) }
{
    let path = ask.path.copy()?;
    Ok(Listener {
        client: ask.client,
        domain: ask.domain,
        store: ask.store,
        path,
        version,
        live: true,
    })
}

// Adds the entry of a listen.
fn enter(journal: &mut Journal, ask: &Ask) -> Result<(), NoMemory>
    requires { length journal.old.log < limit }
    ensures log { OnOk result (journal.new.log ≡ jotted journal.old.log ask.now.client (spec.call_of ask.now)) }
    ensures marks { OnOk result ((k : ℕ) → mark_at journal.new.marks k ≡ mark_at journal.old.marks k) }
    ensures err { OnErr result (journal.new ≡ journal.old) }
{
    let path = ask.path.copy()?;
    journal.add(
        ask.client,
        Call::Listen {
            domain: ask.domain,
            store: ask.store,
            path,
        },
    )
}

// The changes for the listener by the commits of its domain since its version.
fn batch_for(alloc: Global, domain: &Domain, listener: &Listener) -> Result<Batch, NoMemory>
    requires kept { AreKept domain.now.commits.items }
    requires told { listener.now.version < length domain.now.commits.items }
    ensures { IfOk result (λ b. b ≡ spec.batch_in domain.now listener.now) }
{
    let listened = Listened {
        store: listener.store,
        path: &listener.path,
        own: domain.last_schema().has_own_row(&listener.path),
    };
    batch(alloc, &listened, &domain.commits, listener.version)
}
