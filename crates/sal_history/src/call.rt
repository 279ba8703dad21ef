//! The shared calls, and the log of them.
use crate::shared::SharedOps;
use sal_rows::{Mode, Rows};
use sal_types::{Path, Seq, Store};

/// A shared call: the request of one turn at the broker. Tokens are numbers.
#[derive(Drop)]
pub enum Call {
    /// Begins a transaction of the domain.
    Begin {
        domain: u32,
        mode: Mode,
    },
    /// Opens a transaction chain over the domain (`DOMTransactionChain`). Its id is the number of chains that were opened.
    OpenChain {
        domain: u32,
    },
    /// Begins the next transaction of the chain.
    ChainBegin {
        chain: u64,
        mode: Mode,
    },
    /// Closes the chain: no transaction begins in it any more. Those that began or were submitted stay valid.
    CloseChain {
        chain: u64,
    },
    /// Submits the transaction that the entry at this index of the log began, with its operations in order.
    Submit {
        place: u64,
        ops: SharedOps,
    },
    /// Cancels the transaction that the entry at this index of the log began.
    Cancel {
        place: u64,
    },
    /// Decides the pending submissions, up to and including this receipt.
    Settle {
        receipt: u64,
    },
    /// Decides the first receipt that is pending.
    Pump,
    /// Listens to a store of the domain at the path and below it (`registerDataTreeChangeListener`). The listener's id is the
    /// number of listeners that were made.
    Listen {
        domain: u32,
        store: Store,
        path: Path,
    },
    /// Takes the batch of the listener since its opening, or since its last batch.
    Take {
        id: u64,
    },
    /// Removes the listener.
    Unlisten {
        id: u64,
    },
    /// Registers the client as the provider of the RPC in the context, or without one (`DOMRpcProviderService`). RPCs and
    /// notifications are numbers of nodes of the controller's own schema, and contexts are paths of its own domain.
    Provide {
        rpc: u32,
        context: Option<Path>,
    },
    /// Ends the client's registration.
    Withdraw {
        rpc: u32,
        context: Option<Path>,
    },
    /// Makes a request (`DOMRpcService`). Its id is the number of requests that were made.
    Invoke {
        rpc: u32,
        context: Option<Path>,
        input: Rows,
    },
    /// Takes the next request that waits for the client.
    NextCall,
    /// Answers a request that the client took.
    Answer {
        id: u64,
        output: Rows,
    },
    /// Asks for the answer to a request that the client made.
    Collect {
        id: u64,
    },
    /// Subscribes the client to the notification (`DOMNotificationService`).
    Subscribe {
        note: u32,
    },
    /// Offers a notification to its subscribers (`DOMNotificationPublishService`).
    Offer {
        note: u32,
        rows: Rows,
    },
    /// Takes all notifications that wait for the client.
    TakeNotes,
    /// Mounts the device at the path of the controller's own domain (`DOMMountPointService`). Its domain has the same number.
    Mount {
        path: Path,
        device: u32,
    },
    /// Unmounts the domain.
    Unmount {
        domain: u32,
    },
    /// Asks which domain is mounted at the path.
    MountAt {
        path: Path,
    },
    /// Sets a mark in the log, by which clients can signal each other.
    Mark {
        mark: u32,
    },
    /// Asks whether the mark was set.
    After {
        mark: u32,
    },
    /// Upgrades the schema of the controller's own domain to this version, which is the next one.
    Upgrade {
        version: u32,
    },
}

/// A call in the log: the client that made it, the count of that client's earlier entries, and the call.
#[derive(Drop)]
pub struct Entry {
    pub client: u32,
    pub number: u32,
    pub call: Call,
}

/// The log: the shared calls in the order in which they were made.
pub type Log = Seq<Entry>;
