//! What an entry shows in addition to its texts. Each function appends to `acts`.
ghost use Rattle.std.specs.Prelude.{◌≡◌, ◌+◌, ◌-◌, ◌++◌, ◌∷◌, [], ℕ, None, IfOk, OnOk, map, slice_index_or, unwrap_or};
ghost use Rattle.std.specs.List.{flat_map};
ghost use Rattle.sal_history.specs.Numbered.{numbered};
ghost use Rattle.sal_draw.specs.Acts as spec;
ghost use Rattle.sal_shapes.specs.declared.scene.Made.{Made as Maker};

use sal_history::{Call, Reply};
use sal_note::Note;
use sal_rows::{CallFault, Outcome, Part};
use sal_shapes::{Act, Made, Pin, Style};
use sal_types::{NoMemory, append};
use std::alloc::Global;
use std::collections::BTreeMap;

type Acts = Vec<Act>;

fn join(acts: &mut Acts, style: Style, pin: Pin) -> Result<(), NoMemory>
    ensures { OnOk result (acts.new.items ≡ acts.old.items ++ Act.Joins style pin ∷ []) }
{
    append(acts, Act::Joins { style, pin })
}

fn set(acts: &mut Acts, pin: Pin) -> Result<(), NoMemory>
    ensures { OnOk result (acts.new.items ≡ acts.old.items ++ Act.Sets pin ∷ []) }
{
    append(acts, Act::Sets { pin })
}

fn span(acts: &mut Acts, place: u64) -> Result<(), NoMemory>
    ensures { OnOk result (acts.new.items ≡ acts.old.items ++ Act.Spans place ∷ []) }
{
    append(acts, Act::Spans { place })
}

// ---- by the reply

fn add_outcome(acts: &mut Acts, domain: u32, outcome: &Outcome) -> Result<(), NoMemory>
    ensures { OnOk result (acts.new.items ≡ acts.old.items ++ spec.outcome_acts domain outcome.now) }
{
    match outcome {
        Outcome::Done { commit } => join(acts, Style::Told, commit_pin(domain, *commit)),
        Outcome::Conflict { commit, .. } => join(acts, Style::Clash, commit_pin(domain, *commit)),
        Outcome::Invalid { .. } => Ok(()),
        Outcome::ChainFailed { receipt } => {
            join(acts, Style::Fails, Pin::Receipt { number: *receipt })
        }
        Outcome::Unmounted { domain } => join(acts, Style::Fails, Pin::Gone { domain: *domain }),
    }
}

fn commit_pin(domain: u32, number: u64) -> Pin
    ensures { result ≡ Pin.Commit domain number }
{
    Pin::Commit { domain, number }
}

fn base_pin(domain: u32, commit: u64, on: Option<u64>) -> Pin
    ensures { result ≡ spec.base_pin domain commit on }
{
    match on {
        None => commit_pin(domain, commit),
        Some(number) => Pin::Receipt { number },
    }
}

// The domain of the chain, or 0 if there is none.
fn domain_of(chains: &[u32], chain: u64) -> u32
    ensures { result ≡ unwrap_or (numbered chains.now chain) 0 }
{
    if chain == 0 {
        return 0;
    }
    match chains.get(chain as usize - 1) {
        Some(domain) => *domain,
        None => 0,
    }
}

fn add_begun(acts: &mut Acts, chains: &[u32], call: &Call, on: Base) -> Result<(), NoMemory>
    ensures { OnOk result (acts.new.items ≡ acts.old.items ++ spec.begun_acts chains.now call.now on.commit on.receipt) }
{
    match call {
        Call::Begin { domain, .. } => {
            join(
                acts,
                Style::Stands,
                base_pin(*domain, on.commit, on.receipt),
            )
        }
        Call::ChainBegin { chain, .. } => {
            let domain = domain_of(chains, *chain);
            join(acts, Style::Chained, Pin::Chain { id: *chain })?;
            set(acts, Pin::Chain { id: *chain })?;
            join(acts, Style::Stands, base_pin(domain, on.commit, on.receipt))
        }
        _ => Ok(()),
    }
}

// The base of a transaction: a commit, or a pending receipt.
#[derive(Clone, Copy)]
pub struct Base {
    pub commit: u64,
    pub receipt: Option<u64>,
}

fn add_sent(acts: &mut Acts, call: &Call, number: u64) -> Result<(), NoMemory>
    ensures { OnOk result (acts.new.items ≡ acts.old.items ++ spec.sent_acts call.now number) }
{
    match call {
        Call::Submit { place, .. } => {
            span(acts, *place)?;
            set(acts, Pin::Receipt { number })
        }
        _ => Ok(()),
    }
}

fn add_accepted(acts: &mut Acts, call: &Call) -> Result<(), NoMemory>
    ensures { OnOk result (acts.new.items ≡ acts.old.items ++ spec.accepted_acts call.now) }
{
    match call {
        Call::Cancel { place } => span(acts, *place),
        Call::Answer { id, .. } => set(acts, Pin::Output { id: *id }),
        Call::Mount { device, .. } => set(acts, commit_pin(*device, 0)),
        Call::Unmount { domain } => set(acts, Pin::Gone { domain: *domain }),
        Call::Mark { mark } => set(acts, Pin::Mark { mark: *mark }),
        _ => Ok(()),
    }
}

fn add_found(acts: &mut Acts, call: &Call) -> Result<(), NoMemory>
    ensures { OnOk result (acts.new.items ≡ acts.old.items ++ spec.found_acts call.now) }
{
    match call {
        Call::After { mark } => join(acts, Style::Found, Pin::Mark { mark: *mark }),
        _ => Ok(()),
    }
}

fn add_output(acts: &mut Acts, call: &Call) -> Result<(), NoMemory>
    ensures { OnOk result (acts.new.items ≡ acts.old.items ++ spec.output_acts call.now) }
{
    match call {
        Call::Collect { id } => join(acts, Style::Hands, Pin::Output { id: *id }),
        _ => Ok(()),
    }
}

fn add_refused(acts: &mut Acts, fault: &CallFault) -> Result<(), NoMemory>
    ensures { OnOk result (acts.new.items ≡ acts.old.items ++ spec.refused_acts fault.now) }
{
    match fault {
        CallFault::ChainFailed { receipt } => {
            join(acts, Style::Fails, Pin::Receipt { number: *receipt })
        }
        _ => Ok(()),
    }
}

// A line from the commit of each part of a batch.
fn add_parts(acts: &mut Acts, domain: u32, parts: &[Part]) -> Result<(), NoMemory>
    ensures { OnOk result (acts.new.items ≡ acts.old.items ++ map (spec.part_act domain) parts.now) }
{
    for part in parts {
        join(acts, Style::Gives, commit_pin(domain, part.commit))?;
    }
    Ok(())
}

fn add_reply(acts: &mut Acts, chains: &[u32], call: &Call, reply: &Reply) -> Result<(), NoMemory>
    ensures { OnOk result (acts.new.items ≡ acts.old.items ++ spec.reply_acts chains.now call.now reply.now) }
{
    match reply {
        Reply::Begun { commit, on } => {
            let on = Base {
                commit: *commit,
                receipt: *on,
            };
            add_begun(acts, chains, call, on)
        }
        Reply::Chain { id } => set(acts, Pin::Chain { id: *id }),
        Reply::Accepted => add_accepted(acts, call),
        Reply::Receipt { number } => add_sent(acts, call, *number),
        Reply::Settled { domain, outcome } => add_outcome(acts, *domain, outcome),
        Reply::Decided {
            domain,
            outcome,
            ..
        } => add_outcome(acts, *domain, outcome),
        Reply::Listener { domain, opened, .. } => {
            join(acts, Style::Stands, commit_pin(*domain, opened.version))
        }
        Reply::Batch { domain, batch } => add_parts(acts, *domain, batch.lists.items()),
        Reply::CallMade { id } => set(acts, Pin::Request { id: *id }),
        Reply::Request { request } => join(acts, Style::Hands, Pin::Request { id: request.id }),
        Reply::Output { .. } => add_output(acts, call),
        Reply::Found => add_found(acts, call),
        Reply::Refused { fault } => add_refused(acts, fault),
        Reply::Nothing
        | Reply::Offered { .. }
        | Reply::Notes { .. }
        | Reply::MountAt { .. }
        | Reply::Late => Ok(()),
    }
}

// ---- decisions

// The receipt that the call settles.
fn settled_receipt(call: &Call) -> u64
    ensures { result ≡ spec.settled_receipt call.now }
{
    match call {
        Call::Settle { receipt } => *receipt,
        _ => 0,
    }
}

// The receipt up to which all are decided.
fn decided_upto(call: &Call, reply: &Reply, before: u64) -> u64
    ensures { result ≡ spec.decided_upto call.now reply.now before }
{
    match reply {
        Reply::Settled { .. } => u64::max(before, settled_receipt(call)),
        Reply::Decided { receipt, .. } => u64::max(before, *receipt),
        _ => before,
    }
}

fn add_made(acts: &mut Acts, made: Option<Made>) -> Result<(), NoMemory>
    ensures { OnOk result (acts.new.items ≡ acts.old.items ++ spec.made_acts made) }
{
    match made {
        None => Ok(()),
        Some(made) => {
            let pin = commit_pin(made.domain, made.number);
            set(acts, pin)?;
            join(acts, Style::Makes, pin)
        }
    }
}

fn made_at(made: &[Option<Made>], i: u64) -> Option<Made>
    ensures { result ≡ spec.made_in made.now i }
{
    match made.get(i as usize) {
        Some(made) => *made,
        None => None,
    }
}

// The commits of the receipts after this one, up to the other.
fn add_decided(
    acts: &mut Acts,
    made: &[Option<Made>],
    before: u64,
    upto: u64,
) -> Result<(), NoMemory>
    ensures { OnOk result (acts.new.items ≡ acts.old.items ++ spec.decided_acts (spec.made_in made.now) before upto) }
{
    for i in before..upto {
        add_made(acts, made_at(made, i))?;
    }
    Ok(())
}

// ---- notifications

// The number of accepted offers of each notification.
type Offers = BTreeMap<u32, u64>;

fn offers_of(offers: &Offers, note: u32) -> u64
    ensures { result ≡ spec.offers_of offers.now.entries note }
{
    offers.get(&note).copied().unwrap_or(0)
}

// Counts one more offer. `NoMemory` if there are more offers than numbers.
fn add_one(offers: &mut Offers, note: u32) -> Result<(), NoMemory>
    ensures { OnOk result (offers.new.entries ≡ spec.one_more offers.old.entries note) }
{
    let count = offers_of(offers, note);
    if count == u64::MAX {
        return Err(NoMemory);
    }
    offers.insert(note, count + 1)?;
    Ok(())
}

fn note_offer(offers: &mut Offers, said: Said) -> Result<(), NoMemory>
    ensures { OnOk result (offers.new.entries ≡ spec.offers_after offers.old.entries said.entry.call.now said.entry.reply.now) }
{
    match (said.call, said.reply) {
        (Call::Offer { note, .. }, Reply::Offered { .. }) => add_one(offers, *note),
        _ => Ok(()),
    }
}

// How often the notification is among these.
fn times(note: u32, notes: &[Note]) -> usize
    ensures { result ≡ spec.times note notes.now }
{
    let mut count = 0;
    for i in 0..notes.len() {
        if notes[i].note == note {
            count += 1;
        }
    }
    count
}

// The pin of the offer of the first of these, which were taken.
fn taken_pin(offers: &Offers, note: u32, rest: &[Note]) -> Pin
    ensures { result ≡ Pin.Offer note (spec.offers_of offers.now.entries note - spec.times note rest.now) }
{
    let number = offers_of(offers, note).saturating_sub(times(note, rest) as u64);
    Pin::Offer { note, number }
}

// A line from the offer of each notification.
fn add_taken(acts: &mut Acts, offers: &Offers, notes: &[Note]) -> Result<(), NoMemory>
    ensures { OnOk result (acts.new.items ≡ acts.old.items ++ spec.taken_acts offers.now.entries notes.now) }
{
    for i in 0..notes.len() {
        let pin = taken_pin(offers, notes[i].note, &notes[i..]);
        join(acts, Style::Hands, pin)?;
    }
    Ok(())
}

fn add_offer(acts: &mut Acts, offers: &Offers, call: &Call) -> Result<(), NoMemory>
    ensures { OnOk result (acts.new.items ≡ acts.old.items ++ spec.offer_acts offers.now.entries call.now) }
{
    match call {
        Call::Offer { note, .. } => {
            let number = offers_of(offers, *note);
            set(
                acts,
                Pin::Offer {
                    note: *note,
                    number,
                },
            )
        }
        _ => Ok(()),
    }
}

fn add_notes(acts: &mut Acts, offers: &Offers, said: Said) -> Result<(), NoMemory>
    ensures { OnOk result (acts.new.items ≡ acts.old.items ++ spec.note_acts offers.now.entries said.entry.call.now said.entry.reply.now) }
{
    match said.reply {
        Reply::Offered { .. } => add_offer(acts, offers, said.call),
        Reply::Notes { list } => add_taken(acts, offers, list.items()),
        _ => Ok(()),
    }
}

// ---- along a log

/// The state after some entries: the receipt up to which all are decided, the domain of each chain, and the number of accepted offers of each
/// notification.
#[derive(Drop)]
pub struct Track {
    pub decided: u64,
    pub chains: Vec<u32>,
    pub offers: BTreeMap<u32, u64>,
}

impl Track {
    /// No entries.
    pub fn new(alloc: Global) -> Track
        ensures { spec.track_of result ≡ spec.new_track }
    {
        Track {
            decided: 0,
            chains: Vec::new(alloc),
            offers: BTreeMap::new(alloc),
        }
    }

    /// What the entry at this index shows.
    pub fn acts(
        &self,
        alloc: Global,
        made: &[Option<Made>],
        place: u64,
        said: Said,
    ) -> Result<Vec<Act>, NoMemory>
        ensures { IfOk result (λ acts. acts.items ≡ spec.entry_acts (spec.made_in made.now) (spec.track_of self.now) place said.entry.call.now said.entry.reply.now) }
    {
        let mut acts = Vec::new(alloc);
        let upto = decided_upto(said.call, said.reply, self.decided);
        set(&mut acts, Pin::Entry { place })?;
        add_decided(&mut acts, made, self.decided, upto)?;
        add_reply(&mut acts, &self.chains, said.call, said.reply)?;
        add_notes(&mut acts, &self.offers, said)?;
        Ok(acts)
    }

    /// Adds one entry.
    pub fn note(&mut self, said: Said) -> Result<(), NoMemory>
        ensures { OnOk result (spec.track_of self.new ≡ spec.track_after (spec.track_of self.old) said.entry.call.now said.entry.reply.now) }
    {
        self.decided = decided_upto(said.call, said.reply, self.decided);
        note_offer(&mut self.offers, said)?;
        match (said.call, said.reply) {
            (Call::OpenChain { domain }, Reply::Chain { .. }) => {
                append(&mut self.chains, *domain)
            }
            _ => Ok(()),
        }
    }
}

/// A shared call with its reply.
#[derive(Clone, Copy)]
pub struct Said<'a> {
    pub call: &'a Call,
    pub reply: &'a Reply,
}
