//! A client: its slots, and its local steps.
ghost use Rattle.std.specs.Prelude.{◌≡◌, List, None, IfOk, OnOk, IsTrue, true};
ghost use Rattle.sal_hub.specs.Tokens.{mode_of};
ghost use Rattle.sal_client.specs.Clients.{is_local, standing_in};
ghost use Rattle.sal_script.specs.JsonMoves.{is_json_move};
ghost use Rattle.sal_script.specs.Moves.{move_of};
ghost use Rattle.sal_script.specs.Play.{new_client};
ghost use Rattle.sal_script.specs.Tables.{Versions};

use crate::fault::{LocalResult, StepFault, refusal_reply};
use crate::follower::Follower;
use crate::looks::Look;
use crate::operations::{JsonAct, place_at};
use crate::readers::Readers;
use crate::rpcs::Invocation;
use crate::slots::{Slots, empty_slots, look_at};
use crate::wish::Wish;
use sal_hub::{CallId, Chain, Receipt};
use sal_script::{ScriptStep, StepRefusal, StepReply};
use sal_tx::Tx;
use sal_types::NoMemory;
use std::alloc::Global;

/// What a transaction slot can be used for.
#[derive(Clone, Copy, Debug, PartialEq, Eq)]
pub enum Standing {
    Empty,
    ReadOnly,
    Writable,
}

/// A client of this number: its slots, and the replies to its steps so far.
#[derive(Drop)]
pub struct ClientState {
    pub number: u32,
    pub transactions: Slots<Tx>,
    pub receipts: Slots<Receipt>,
    pub chains: Slots<Chain>,
    pub listeners: Slots<Follower>,
    /// The requests that it made.
    pub invoked: Slots<CallId>,
    /// The requests that it took.
    pub handed: Slots<Invocation>,
    pub replies: Vec<StepReply>,
}

pub(crate) fn refused(refusal: StepRefusal) -> StepReply
    ensures { result ≡ StepReply.Refused refusal }
{
    StepReply::Refused { refusal }
}

// Whether the step is local: it uses only the client's transactions, or a listener's mirror.
fn is_local(step: &ScriptStep) -> bool
    ensures { result ≡ is_local (move_of step.now) }
{
    matches!(
        step,
        ScriptStep::Put { .. }
            | ScriptStep::Merge { .. }
            | ScriptStep::Delete { .. }
            | ScriptStep::Read { .. }
            | ScriptStep::Exists { .. }
            | ScriptStep::Mirror { .. }
    )
}

// What a transaction can be used for.
fn standing_of(tx: &Tx) -> Standing
    ensures { result ≡ standing_in (mode_of tx.now) }
{
    match tx {
        Tx::Read(_) => Standing::ReadOnly,
        Tx::Write(tx) => {
            let _ = tx.ops();
            Standing::Writable
        }
    }
}

impl ClientState {
    ghost use Rattle.sal_client.specs.Clients.{client_of, opened, HasSchema, IsSound};
    ghost use Rattle.sal_client.specs.Clients as spec;
    ghost use Rattle.sal_client.specs.Meeting.{IsAnswered, IsMet, IsRefusedBy, IsReplied};
    ghost use Rattle.sal_hub.specs.HubHistory.{HubHistory};

    /// A client at its beginning.
    pub fn new(alloc: Global, number: u32) -> Self
        ensures client { client_of result ≡ new_client }
        ensures number { result.number ≡ number }
        ensures schema { (tables : List Versions) → HasSchema tables result }
        ensures sound { (known : HubHistory) → IsSound known result }
    {
        ClientState {
            number,
            transactions: empty_slots(alloc),
            receipts: empty_slots(alloc),
            chains: empty_slots(alloc),
            listeners: empty_slots(alloc),
            invoked: empty_slots(alloc),
            handed: empty_slots(alloc),
            replies: Vec::new(alloc),
        }
    }

    /// What the transaction slot can be used for.
    pub(crate) fn standing(&self, slot: u8) -> Standing
        ensures { result ≡ spec.standing_of (opened self.now slot) }
    {
        match look_at(&self.transactions, slot) {
            None => Standing::Empty,
            Some(tx) => standing_of(tx),
        }
    }

    /// Answers a local step, or refuses it; or returns its shared call, and
    /// changes nothing.
    pub(crate) fn meet(
        &mut self,
        alloc: Global,
        readers: &Readers,
        step: &ScriptStep,
    ) -> Result<Option<Wish>, NoMemory>
        requires schema { HasSchema readers.now self.old }
        requires json { IsTrue (is_json_move (move_of step.now)) }
        ensures { IfOk result (λ wish. IsMet readers.now self.old (move_of step.now) wish self.new) }
    {
        if is_local(step) {
            self.answer(alloc, readers, step)?;
            return Ok(None);
        }
        match self.wish_of(alloc, readers, step) {
            Ok(wish) => Ok(Some(wish)),
            Err(fault) => {
                self.refuse(fault)?;
                Ok(None)
            }
        }
    }

    /// Adds the reply to the client's.
    pub(crate) fn keep(&mut self, reply: StepReply) -> Result<(), NoMemory>
        ensures { OnOk result (IsReplied reply self.old self.new) }
    {
        self.replies.push(reply)?;
        Ok(())
    }

    // Refuses a step, unless memory ran out.
    fn refuse(&mut self, fault: StepFault) -> Result<(), NoMemory>
        ensures { OnOk result (IsRefusedBy fault self.old self.new) }
    {
        let reply = refusal_reply(fault)?;
        self.keep(reply)
    }

    // Answers a write or a read in one of the client's transactions, or a look at a listener's mirror.
    fn answer(
        &mut self,
        alloc: Global,
        readers: &Readers,
        step: &ScriptStep,
    ) -> Result<(), NoMemory>
        requires schema { HasSchema readers.now self.old }
        requires json { IsTrue (is_json_move (move_of step.now)) }
        requires local { is_local (move_of step.now) ≡ true }
        ensures { OnOk result (IsMet readers.now self.old (move_of step.now) None self.new) }
    {
        let reply = self.meet_local(alloc, readers, step)?;
        self.keep(reply)
    }

    // The same; the reply is not yet among the replies.
    fn meet_local(&mut self, alloc: Global, readers: &Readers, step: &ScriptStep) -> LocalResult
        requires schema { HasSchema readers.now self.old }
        requires json { IsTrue (is_json_move (move_of step.now)) }
        requires local { is_local (move_of step.now) ≡ true }
        ensures { IfOk result (λ r. IsAnswered readers.now self.old (move_of step.now) r self.new) }
    {
        match step {
            ScriptStep::Put {
                slot,
                store,
                path,
                value,
            } => self.write(
                alloc,
                readers,
                place_at(*slot, *store, path),
                JsonAct::Put(value),
            ),
            ScriptStep::Merge {
                slot,
                store,
                path,
                value,
            } => self.write(
                alloc,
                readers,
                place_at(*slot, *store, path),
                JsonAct::Merge(value),
            ),
            ScriptStep::Delete { slot, store, path } => self.write(
                alloc,
                readers,
                place_at(*slot, *store, path),
                JsonAct::Delete,
            ),
            ScriptStep::Read { slot, store, path } => {
                self.look(alloc, readers, place_at(*slot, *store, path), Look::Read)
            }
            ScriptStep::Exists { slot, store, path } => {
                self.look(alloc, readers, place_at(*slot, *store, path), Look::Exists)
            }
            ScriptStep::Mirror { listener } => self.mirror(readers, *listener),
            _ => unreachable!(),
        }
    }
}
