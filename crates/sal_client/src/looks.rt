//! Reads in a transaction.
ghost use Rattle.std.specs.Prelude.{◌≡◌, IfOk, OnOk};
ghost use Rattle.sal_hub.specs.Tokens.{begun_of};
ghost use Rattle.sal_client.specs.Clients.{IsOfSchema};
ghost use Rattle.sal_client.specs.Looks.{IsLooked, IsSeen, after_look, look_move};

use crate::client::{ClientState, refused};
use crate::fault::{LocalResult, refusal_reply};
use crate::operations::{Place, path_of};
use crate::readers::Readers;
use crate::slots::{fill_slot, take_slot};
use sal_script::{StepRefusal, StepReply};
use sal_tx::{Tx, TxFault};
use sal_types::{NoMemory, Path, Store};
use std::alloc::Global;

/// The kind of a read.
#[derive(Clone, Copy)]
pub(crate) enum Look {
    /// The rows at a path and below it.
    Read,
    /// Whether there are any.
    Exists,
}

/// The domain of a transaction.
pub(crate) fn domain_of(tx: &Tx) -> u32
    ensures { result ≡ (begun_of tx.now).domain }
{
    match tx {
        Tx::Read(tx) => tx.domain(),
        Tx::Write(tx) => tx.domain(),
    }
}

/// The version of its domain's schema by which a transaction reads and writes: the one that was present at its begin.
pub(crate) fn version_of(tx: &Tx) -> u32
    ensures { result ≡ (begun_of tx.now).version }
{
    match tx {
        Tx::Read(tx) => tx.begun().version,
        Tx::Write(tx) => tx.begun().version,
    }
}

// The refusal of a transaction of the domain that only writes.
fn only_writes(domain: u32) -> StepReply
    ensures { result ≡ StepReply.Refused (StepRefusal.Write domain TxFault.WriteOnly) }
{
    refused(StepRefusal::Write {
        domain,
        fault: TxFault::WriteOnly,
    })
}

// The rows that a transaction sees at and below the path. If its reads are checked, the read is recorded.
fn rows_seen(alloc: Global, tx: &mut Tx, store: Store, path: Path) -> LocalResult
    ensures seen { IfOk result (IsSeen tx.old store path Look.Read) }
    ensures after { OnOk result (tx.new ≡ after_look store path tx.old) }
{
    let domain = domain_of(tx);
    match tx {
        Tx::Read(tx) => {
            let rows = tx.read(alloc, store, &path)?;
            Ok(StepReply::Read { domain, path, rows })
        }
        Tx::Write(tx) => match tx.read(alloc, store, &path) {
            Ok(rows) => Ok(StepReply::Read { domain, path, rows }),
            Err(TxFault::WriteOnly) => Ok(only_writes(domain)),
            Err(TxFault::NoMemory) => Err(NoMemory),
            Err(_) => unreachable!(),
        },
    }
}

// Whether a transaction sees a row at or below the path.
fn found_seen(alloc: Global, tx: &mut Tx, store: Store, path: &Path) -> LocalResult
    ensures seen { IfOk result (IsSeen tx.old store path.now Look.Exists) }
    ensures after { OnOk result (tx.new ≡ after_look store path.now tx.old) }
{
    let own = domain_of(tx);
    match tx {
        Tx::Read(tx) => Ok(StepReply::Exists {
            found: tx.exists(store, path),
        }),
        Tx::Write(tx) => match tx.exists(alloc, store, path) {
            Ok(found) => Ok(StepReply::Exists { found }),
            Err(TxFault::WriteOnly) => Ok(only_writes(own)),
            Err(TxFault::NoMemory) => Err(NoMemory),
            Err(_) => unreachable!(),
        },
    }
}

// The reply to a read of the path in a transaction.
fn seen(alloc: Global, tx: &mut Tx, store: Store, path: Path, look: Look) -> LocalResult
    ensures seen { IfOk result (IsSeen tx.old store path look) }
    ensures after { OnOk result (tx.new ≡ after_look store path tx.old) }
{
    match look {
        Look::Read => rows_seen(alloc, tx, store, path),
        Look::Exists => found_seen(alloc, tx, store, &path),
    }
}

// The reply to a read of the text's path in the slot's transaction.
fn looked(alloc: Global, readers: &Readers, tx: &mut Tx, place: Place, look: Look) -> LocalResult
    requires { IsOfSchema readers.now tx.old }
    ensures { IfOk result (λ r. IsLooked readers.now place.entry.slot place.entry.store place.entry.text.now look tx.old r tx.new) }
{
    let reader = readers.reader(domain_of(tx), version_of(tx));
    match path_of(alloc, reader, place.text) {
        Ok(path) => seen(alloc, tx, place.store, path, look),
        Err(fault) => refusal_reply(fault),
    }
}

impl ClientState {
    ghost use Rattle.sal_client.specs.Clients.{HasSchema};
    ghost use Rattle.sal_client.specs.Meeting.{IsAnswered};

    /// Reads the text's path in the slot's transaction.
    pub(crate) fn look(
        &mut self,
        alloc: Global,
        readers: &Readers,
        place: Place,
        look: Look,
    ) -> LocalResult
        requires { HasSchema readers.now self.old }
        ensures { IfOk result (λ r. IsAnswered readers.now self.old (look_move place.entry.slot place.entry.store place.entry.text.now look) r self.new) }
    {
        let slot = place.slot;
        match take_slot(&mut self.transactions, slot) {
            None => Ok(refused(StepRefusal::EmptySlot)),
            Some(taken) => {
                let mut tx = taken;
                let reply = looked(alloc, readers, &mut tx, place, look);
                fill_slot(&mut self.transactions, slot, tx)?;
                reply
            }
        }
    }
}
