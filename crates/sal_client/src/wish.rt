//! The shared calls of steps.
use crate::fault::StepFault;
use crate::mounts::MountWish;
use crate::notes::NoteWish;
use crate::rpcs::RpcWish;
use sal_rows::Mode;
use sal_script::StepReply;
use sal_types::{NoMemory, Path, Store, Str};
use std::alloc::AllocFailed;
use std::snapshot::Snapshot;
use thiserror::Error;

/// The target of a listen: a store of the domain, and a path with the text from which it was read. Only contracts use
/// the text.
#[derive(Drop)]
pub struct Target {
    pub domain: u32,
    pub store: Store,
    pub text: Snapshot<Str>,
    pub path: Path,
}

/// A shared call that a client is ready to make. Values in slots, such as a transaction or a receipt, stay there until then.
#[derive(Drop)]
pub enum Wish {
    /// Begins a transaction of the domain into the slot.
    Begin { slot: u8, domain: u32, mode: Mode },
    /// Submits the slot's transaction, which may write.
    Submit { slot: u8 },
    /// Cancels the slot's transaction.
    Cancel { slot: u8 },
    /// Settles the receipt in the slot.
    Settle { slot: u8 },
    /// Opens a chain over the domain into the chain slot.
    OpenChain { chain: u8, domain: u32 },
    /// Begins the next transaction of the chain in the chain slot into the slot.
    ChainBegin { chain: u8, slot: u8, mode: Mode },
    /// Closes the chain in the chain slot.
    CloseChain { chain: u8 },
    /// Decides the first pending receipt.
    Pump,
    /// Listens there; the listener goes into the listener slot.
    Listen { slot: u8, target: Target },
    /// Takes the batch of the listener in the slot.
    Take { slot: u8 },
    /// Removes the listener in the slot.
    Unlisten { slot: u8 },
    /// A call for RPCs.
    Rpc(RpcWish),
    /// A call for notifications.
    Note(NoteWish),
    /// A call for mounts.
    Mount(MountWish),
    /// Sets the mark in the log.
    Mark { mark: u32 },
    /// Asks whether the mark was set.
    After { mark: u32 },
    /// Upgrades the schema of the controller's own domain to the version.
    Upgrade { version: u32 },
}

/// Why a client stops at a shared call.
#[derive(Clone, Copy, Debug, PartialEq, Eq, Error)]
pub enum RunFault {
    /// The log is full, and has no entry of the call.
    #[error("the log is full: it has 1,000,000 entries")]
    HistoryFull,
    /// Memory ran out, before the call or while its reply was kept.
    #[error("out of memory")]
    NoMemory,
}

/// The shared call of a step, or why the step is refused.
pub(crate) type Wished = Result<Wish, StepFault>;

/// The reply to a shared call, or why the client stops at it.
pub(crate) type CallResult = Result<StepReply, RunFault>;

impl From<NoMemory> for RunFault {
    ghost use Rattle.std.specs.Prelude.{◌≡◌};
    ghost use Rattle.sal_client.specs.declared.wish.RunFault.TheVariants.{NoMemory as Wanting};

    ghost from_gives = { λ _ e. e ≡ Wanting };

    fn from(_refused: NoMemory) -> RunFault {
        RunFault::NoMemory
    }
}

impl<T: Drop> From<AllocFailed<T>> for RunFault {
    ghost use Rattle.std.specs.Prelude.{◌≡◌};
    ghost use Rattle.sal_client.specs.declared.wish.RunFault.TheVariants.{NoMemory as Wanting};

    ghost from_gives = { λ _ e. e ≡ Wanting };

    fn from(_refused: AllocFailed<T>) -> RunFault {
        RunFault::NoMemory
    }
}
