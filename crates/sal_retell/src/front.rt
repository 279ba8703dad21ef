//! The records of the entries so far.
ghost use Rattle.std.specs.Prelude.{◌≡◌, ◌++◌, [], OnOk, length};
ghost use Rattle.std.specs.Option.{option_to_list};
ghost use Rattle.sal_history.specs.History.{opened_chain};
ghost use Rattle.sal_mount.specs.Register.{IsOf};
ghost use Rattle.sal_retell.specs.Light as spec;

use sal_history::{Call, Reply};
use sal_mount::Mounts;
use sal_types::{NoMemory, append};
use std::alloc::Global;

/// The base of a transaction without its trees: its domain, the number of its base commit, and its chain.
#[derive(Clone, Copy)]
pub struct Footing {
    pub domain: u32,
    pub commit: u64,
    pub chain: Option<u64>,
}

/// The base of each entry's transaction, and of each receipt's; the domains of the chains; the chains that were closed, the indexes of transactions
/// that were spent, and the marks; how many receipts are decided; and the mounts.
#[derive(Drop)]
pub struct Front {
    pub began: Vec<Option<Footing>>,
    pub sent: Vec<Footing>,
    pub chains: Vec<u32>,
    pub closed: Vec<u64>,
    pub spent: Vec<u64>,
    pub marks: Vec<u32>,
    pub decided: usize,
    pub mounts: Mounts,
}

fn append_some<T: Drop>(list: &mut Vec<T>, item: Option<T>) -> Result<(), NoMemory>
    ensures { OnOk result (list.new.items ≡ list.old.items ++ option_to_list item) }
{
    match item {
        None => Ok(()),
        Some(item) => append(list, item),
    }
}

// The index of the transaction that the call spent.
fn spent_by(call: &Call, reply: &Reply) -> Option<u64>
    ensures { result ≡ spec.spent_by call.now reply.now }
{
    match call {
        Call::Submit { place, .. } => match reply {
            Reply::Receipt { .. } => Some(*place),
            _ => None,
        },
        Call::Cancel { place } => Some(*place),
        _ => None,
    }
}

fn closed_by(call: &Call, reply: &Reply) -> Option<u64>
    ensures { result ≡ spec.closed_by call.now reply.now }
{
    match call {
        Call::CloseChain { chain } => match reply {
            Reply::Accepted => Some(*chain),
            _ => None,
        },
        _ => None,
    }
}

fn marked_by(call: &Call) -> Option<u32>
    ensures { result ≡ spec.marked_by call.now }
{
    match call {
        Call::Mark { mark } => Some(*mark),
        _ => None,
    }
}

fn opened_by(call: &Call, reply: &Reply) -> Option<u32>
    ensures { result ≡ opened_chain call.now reply.now }
{
    match call {
        Call::OpenChain { domain } => match reply {
            Reply::Chain { .. } => Some(*domain),
            _ => None,
        },
        _ => None,
    }
}

fn began_with(footing: Footing, call: &Call, reply: &Reply) -> Option<Footing>
    ensures { result ≡ spec.began_with footing call.now reply.now }
{
    match call {
        Call::Begin { .. } | Call::ChainBegin { .. } => match reply {
            Reply::Begun { .. } => Some(footing),
            _ => None,
        },
        _ => None,
    }
}

fn footing_at(began: &[Option<Footing>], place: u64) -> Footing
    ensures { result ≡ spec.footing_at began.now place }
{
    match began.get(place as usize) {
        Some(Some(footing)) => *footing,
        _ => Footing {
            domain: 0,
            commit: 0,
            chain: None,
        },
    }
}

fn sent_with(began: &[Option<Footing>], call: &Call, reply: &Reply) -> Option<Footing>
    ensures { result ≡ spec.sent_with began.now call.now reply.now }
{
    match call {
        Call::Submit { place, .. } => match reply {
            Reply::Receipt { .. } => Some(footing_at(began, *place)),
            _ => None,
        },
        _ => None,
    }
}

fn decided_after(call: &Call, decided: usize, sent: usize) -> usize
    ensures { result ≡ spec.decided_after call.now decided sent }
{
    match call {
        Call::Settle { receipt } => usize::max(decided, usize::min(*receipt as usize, sent)),
        Call::Pump => { if decided < sent { decided + 1 } else { decided } }
        _ => decided,
    }
}

impl Front {
    /// No entries, over this many domains.
    pub(crate) fn new(alloc: Global, domains: u32) -> Front
        ensures lists { spec.light_in result [] ≡ record { began = []; sent = []; chains = []; closed = []; spent = []; marks = []; decided = 0; devices = domains; calls = [] } }
        ensures mounts { IsOf [] result.mounts }
    {
        Front {
            began: Vec::new(alloc),
            sent: Vec::new(alloc),
            chains: Vec::new(alloc),
            closed: Vec::new(alloc),
            spent: Vec::new(alloc),
            marks: Vec::new(alloc),
            decided: 0,
            mounts: Mounts::new(alloc, domains),
        }
    }

    // The submission, and how many are then decided.
    fn note_sent(&mut self, call: &Call, reply: &Reply) -> Result<(), NoMemory>
        ensures { OnOk result ((self.new.sent.items ≡ self.old.sent.items ++ option_to_list (spec.sent_with self.old.began.items call.now reply.now)) × (self.new.began.items ≡ self.old.began.items) × (self.new.chains.items ≡ self.old.chains.items) × (self.new.closed.items ≡ self.old.closed.items) × (self.new.spent.items ≡ self.old.spent.items) × (self.new.marks.items ≡ self.old.marks.items) × (self.new.mounts ≡ self.old.mounts) × (self.new.decided ≡ spec.decided_after call.now self.old.decided (length self.old.sent.items))) }
    {
        self.decided = decided_after(call, self.decided, self.sent.len());
        let sent = sent_with(&self.began, call, reply);
        append_some(&mut self.sent, sent)
    }

    /// Adds one entry, of this call with this reply and this footing. The mounts have the call already.
    pub(crate) fn note(
        &mut self,
        footing: Footing,
        call: &Call,
        reply: &Reply,
    ) -> Result<(), NoMemory>
        ensures lists { OnOk result (spec.light_in self.new [] ≡ record (spec.more_light (spec.light_in self.old []) footing call.now reply.now) { calls = [] }) }
        ensures mounts { OnOk result (self.new.mounts ≡ self.old.mounts) }
    {
        self.note_sent(call, reply)?;
        append(&mut self.began, began_with(footing, call, reply))?;
        append_some(&mut self.chains, opened_by(call, reply))?;
        append_some(&mut self.closed, closed_by(call, reply))?;
        append_some(&mut self.spent, spent_by(call, reply))?;
        append_some(&mut self.marks, marked_by(call))
    }
}
