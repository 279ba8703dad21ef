//! Scripts and their steps.
ghost use Rattle.std.specs.Prelude.{IsTrue, ◌&&◌};
ghost use Rattle.serde_json.specs.View.{view};
ghost use Rattle.sal_json_laws.specs.Json.{is_json};
ghost use Rattle.sal_script.specs.JsonMoves.{have_json_moves};
ghost use Rattle.sal_script.specs.Limits.{all_texts, are_few, are_short, within_limits};
ghost use Rattle.sal_script.specs.Moves.{clients_of};

use sal_rows::{Mode, Rules};
use sal_types::{Seq, Store, Str};
use serde_json::Value;

/// The largest number of clients of a script.
pub const MAX_CLIENTS: usize = 16;

/// The largest number of devices of a script.
pub const MAX_DEVICES: usize = 63;

/// The largest number of upgrades of domain 0.
pub const MAX_UPGRADES: usize = 16;

/// The largest number of steps of a client.
pub const MAX_PROGRAM: usize = 60000;

/// The default module of a script: a container with eight leafs.
pub const PLAIN: &str =
    "module plain { namespace \"urn:plain\"; prefix p; container box {\n leaf a { type string; } leaf b { type string; } leaf c { type string; } leaf d { type string; }\n leaf e { type string; } leaf f { type string; } leaf g { type string; } leaf h { type string; } } }\n";

/// One step of a client. Slots are the client's numbered places for transactions, for receipts, for chains, for listeners, for the
/// requests that it made and for those that it took, from 0 to 255. Names, paths and values are read by a schema when the
/// step is answered.
#[derive(Drop)]
pub enum ScriptStep {
    /// Begins a transaction of the domain into the slot.
    Begin {
        slot: u8,
        domain: u32,
        mode: Mode,
    },
    /// Puts the value at the path, in the slot's transaction: it replaces all at and below the path by the rows of the
    /// value.
    Put {
        slot: u8,
        store: Store,
        path: Str,
        value: Value,
    },
    /// Merges the value at the path, in the slot's transaction.
    Merge {
        slot: u8,
        store: Store,
        path: Str,
        value: Value,
    },
    /// Deletes all at and below the path, in the slot's transaction.
    Delete {
        slot: u8,
        store: Store,
        path: Str,
    },
    /// Reads the rows that the slot's transaction sees at and below the path.
    Read {
        slot: u8,
        store: Store,
        path: Str,
    },
    /// Asks whether the slot's transaction sees a row at or below the path.
    Exists {
        slot: u8,
        store: Store,
        path: Str,
    },
    /// Submits the slot's transaction; its receipt goes into the receipt slot of the same number.
    Submit {
        slot: u8,
    },
    /// Cancels the slot's transaction.
    Cancel {
        slot: u8,
    },
    /// Settles the receipt in the slot.
    Settle {
        slot: u8,
    },
    /// Opens a transaction chain over the domain into the chain slot.
    OpenChain {
        chain: u8,
        domain: u32,
    },
    /// Begins the next transaction of the chain in the chain slot into the slot.
    ChainBegin {
        chain: u8,
        slot: u8,
        mode: Mode,
    },
    /// Closes the chain in the chain slot.
    CloseChain {
        chain: u8,
    },
    /// Decides the first pending receipt, of any client.
    Pump,
    /// Listens to a store of the domain at the path and below it; the listener goes into the listener slot.
    Listen {
        listener: u8,
        domain: u32,
        store: Store,
        path: Str,
    },
    /// Takes the batch of the listener in the slot: the changes since its opening, or since its last batch.
    Take {
        listener: u8,
    },
    /// Removes the listener in the slot; the slot keeps it.
    Unlisten {
        listener: u8,
    },
    /// Shows the client's mirror of the listener in the slot: the rows that were committed at and below its path, at the version of its
    /// last batch.
    Mirror {
        listener: u8,
    },
    /// Registers the client as the provider of the RPC in the context, or without one.
    Provide {
        rpc: Str,
        context: Option<Str>,
    },
    /// Ends the client's registration.
    Withdraw {
        rpc: Str,
        context: Option<Str>,
    },
    /// Makes a request with this input; its id goes into the call slot.
    Invoke {
        call: u8,
        rpc: Str,
        context: Option<Str>,
        input: Value,
    },
    /// Takes the next request that waits for the client into the request slot.
    NextCall {
        request: u8,
    },
    /// Answers the request in the slot.
    Answer {
        request: u8,
        output: Value,
    },
    /// Asks for the answer to the request that was made into the call slot.
    Collect {
        call: u8,
    },
    /// Subscribes the client to the notification.
    Subscribe {
        note: Str,
    },
    /// Offers a notification with this value to its subscribers.
    Offer {
        note: Str,
        value: Value,
    },
    /// Takes all notifications that wait for the client.
    TakeNotes,
    /// Mounts the device at the path of domain 0. Its domain has the same number.
    Mount {
        device: u32,
        path: Str,
    },
    /// Unmounts the domain.
    Unmount {
        domain: u32,
    },
    /// Asks which domain is mounted at the path of domain 0.
    MountAt {
        path: Str,
    },
    /// Sets the mark in the log.
    Mark {
        mark: u32,
    },
    /// Asks whether the mark was set.
    After {
        mark: u32,
    },
    /// Upgrades the schema of domain 0 to the version, which is from 1 to 16.
    Upgrade {
        version: u32,
    },
}

/// The steps of a client, in order.
pub type Program = Seq<ScriptStep>;

/// A device that can be mounted: the texts of its modules, together shorter than 4 GiB, and the data of its opening trees.
#[derive(Drop)]
pub struct ScriptDevice {
    pub modules: Seq<Str>,
    pub config: Value,
    pub operational: Value,
    ghost short: { IsTrue (are_short modules) },
    ghost opening: { IsTrue (is_json (view config) && is_json (view operational)) },
}

/// The texts of domain 0: of its modules, and of those that each upgrade adds; all together are shorter than 4 GiB.
#[derive(Drop)]
pub(crate) struct OwnDomain {
    pub modules: Seq<Str>,
    pub upgrades: Seq<Seq<Str>>,
    ghost short: { IsTrue (are_short (all_texts modules upgrades)) },
}

/// A script: the texts of its modules and those that each upgrade of domain 0 adds, together shorter than 4 GiB, the data of its opening
/// trees, at most 63 devices, at most 16 clients with at most 60,000 steps each, the order of their shared calls, the version rules of
/// all domains, and whether reads are checked. The device at index `i` is domain `i + 1`; the upgrade at index `i` leads to version `i + 1`
/// of the schema of domain 0. If reads are checked, each step that says `rw` begins its transaction in `Mode::Checked`.
#[derive(Drop)]
pub struct Script {
    pub modules: Seq<Str>,
    pub upgrades: Seq<Seq<Str>>,
    pub config: Value,
    pub operational: Value,
    pub devices: Seq<ScriptDevice>,
    pub clients: Seq<Program>,
    pub order: Seq<u32>,
    pub rules: Rules,
    pub checked_reads: bool,
    ghost short: { IsTrue (are_short (all_texts modules upgrades)) },
    ghost few: { IsTrue (are_few devices) },
    ghost limits: { IsTrue (within_limits clients) },
    ghost opening: { IsTrue (is_json (view config) && is_json (view operational)) },
    ghost json: { IsTrue (have_json_moves (clients_of clients)) },
}
