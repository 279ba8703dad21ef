//! The outcomes of submissions, and why calls are refused.
use sal_types::{Duplicate, NoMemory, Path, Store};
use thiserror::Error;

/// What a transaction may do: read, write, or both; and whether its reads are checked.
#[derive(Clone, Copy, Debug, PartialEq, Eq)]
pub enum Mode {
    /// Read only.
    Ro,
    /// Write only.
    Wo,
    /// Read and write.
    Rw,
    /// Read and write; its submission checks its reads.
    Checked,
}

/// How a path differs at the ends of a span over which it is not unchanged.
#[derive(Clone, Copy, Debug, PartialEq, Eq)]
pub enum ClashKind {
    /// Present at both ends, and touched between.
    Changed,
    /// Absent at the start.
    Created,
    /// Absent at the end.
    Deleted,
}

/// A structural rule that is broken, with the number of the node that states it. Rules are ordered as the variants
/// here, and then by number.
#[derive(Clone, Copy, Debug, PartialEq, Eq, PartialOrd, Ord)]
pub enum Rule {
    /// A mandatory leaf is absent, or a mandatory choice has no node (RFC 7950 sections 7.6.5 and 7.9.4).
    Mandatory(u32),
    /// A list or leaf-list has too few entries (RFC 7950 section 7.7.5).
    MinElements(u32),
    /// A list or leaf-list has too many entries (RFC 7950 section 7.7.6).
    MaxElements(u32),
    /// Two entries of a list agree in all leafs of a `unique` statement (RFC 7950 section 7.8.3).
    Unique(u32),
    /// Two cases of a choice have nodes (RFC 7950 section 7.9).
    TwoCases(u32),
}

/// A broken rule with its place. Breaches are ordered by path, then by rule.
#[derive(Debug, Drop, PartialEq, Eq, PartialOrd, Ord)]
pub struct Breach {
    /// The data parent's path for `Mandatory` and `TwoCases`, else that of the list or leaf-list.
    pub path: Path,
    pub rule: Rule,
}

/// The outcome of a submission.
#[derive(Debug, Drop, PartialEq, Eq)]
pub enum Outcome {
    /// It is the commit with this number; both stores changed together.
    Done {
        commit: u64,
    },
    /// It was refused, since a later commit touched a path that it writes or checks.
    Conflict {
        store: Store,
        path: Path,
        kind: ClashKind,
        commit: u64,
    },
    /// It was refused, since the store would break this rule at this path.
    Invalid {
        store: Store,
        path: Path,
        rule: Rule,
    },
    /// It was refused, since the submission of its chain with this receipt, a smaller one, has an outcome other than
    /// done.
    ChainFailed {
        receipt: u64,
    },
    /// It was refused, since its domain was unmounted.
    Unmounted {
        domain: u32,
    },
}

/// Why a shared call was refused. After `HistoryFull` and `NoMemory` nothing has changed; after any other refusal the log
/// has one more entry, and nothing else changed.
#[derive(Debug, Drop, PartialEq, Eq, Error)]
pub enum CallFault {
    /// The log has 1,000,000 entries.
    #[error("the history is full: its log has 1,000,000 entries")]
    HistoryFull,
    /// The most submissions that may be pending, 4,096, are.
    #[error("the pipeline is full: 4,096 submissions are pending")]
    PipelineFull,
    /// The domain is not live; for a mount: the device does not exist.
    #[error("no live domain {id}")]
    NoDomain {
        id: u32,
    },
    /// The client has no live listener of this id.
    #[error("no live listener {id} of this client")]
    NoListener {
        id: u64,
    },
    /// The most listeners that may be live, 256, are.
    #[error("256 listeners are live, and no more are allowed")]
    TooManyListeners,
    /// No client provides the RPC in the context or without one; for a withdrawal: the client does not provide it in this context.
    #[error("no provider of rpc {rpc}")]
    NoProvider {
        rpc: u32,
    },
    /// The RPC is provided in this context already.
    #[error("rpc {rpc} has a provider already")]
    ProviderTaken {
        rpc: u32,
    },
    /// For an answer: the client did not take the request, or it is answered. For a collection: the client did not make the request.
    #[error("no call {id} of this client")]
    NoCall {
        id: u64,
    },
    /// The most notifications that may wait for this subscriber, 64, do. It is the smallest such subscriber.
    #[error("the queue of subscriber {subscriber} is full")]
    NoteRejected {
        subscriber: u32,
    },
    /// This domain is mounted at the path.
    #[error("domain {id} is mounted at the path")]
    MountTaken {
        id: u32,
    },
    /// The device was mounted before. A device is mounted once at most.
    #[error("device {id} was mounted before")]
    DeviceUsed {
        id: u32,
    },
    /// The last transaction of the chain is neither submitted nor cancelled.
    #[error("the chain's previous transaction is neither submitted nor cancelled")]
    PreviousOpen,
    /// The submission of the chain with this receipt has an outcome other than done.
    #[error("the chain failed at receipt {receipt}")]
    ChainFailed {
        receipt: u64,
    },
    /// The chain was closed.
    #[error("the chain is closed")]
    ChainClosed,
    #[error("out of memory")]
    NoMemory,
    /// The transaction was submitted or cancelled before.
    #[error("the transaction was submitted or cancelled before")]
    TxSpent,
    /// For an upgrade: it does not follow the present version of the schema, which has this number.
    #[error("the schema has version {have}, and the upgrade is not to the next one")]
    WrongVersion {
        have: u32,
    },
    /// For an upgrade: the newest tree of this store would break this rule of the new version at this path.
    #[error("the newest {store} tree breaks a rule of the new version: {rule} at {path}")]
    UpgradeBreach {
        store: Store,
        path: Path,
        rule: Rule,
    },
}

impl Duplicate for Outcome {
    fn copy(&self) -> Result<Self, NoMemory> {
        match self {
            Outcome::Done { commit } => Ok(Outcome::Done { commit: *commit }),
            Outcome::Conflict {
                store,
                path,
                kind,
                commit,
            } => Ok(Outcome::Conflict {
                store: *store,
                path: path.copy()?,
                kind: *kind,
                commit: *commit,
            }),
            Outcome::Invalid { store, path, rule } => Ok(Outcome::Invalid {
                store: *store,
                path: path.copy()?,
                rule: *rule,
            }),
            Outcome::ChainFailed { receipt } => Ok(Outcome::ChainFailed { receipt: *receipt }),
            Outcome::Unmounted { domain } => Ok(Outcome::Unmounted { domain: *domain }),
        }
    }
}
