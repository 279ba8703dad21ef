//! The reply to a client's step.
use sal_data::DataFault;
use sal_history::Reply;
use sal_pathtext::PathTextFault;
use sal_rows::Rows;
use sal_rules::TxFault;
use sal_types::Path;

/// Why a client refused a step itself: it made no call.
#[derive(Drop)]
pub enum StepRefusal {
    /// No transaction, receipt, chain, listener or request is in the slot.
    EmptySlot,
    /// The transaction is read-only.
    ReadOnly,
    /// The script does not have the domain.
    NoDevice,
    /// Domain 0 does not have the version of its schema.
    NoUpgrade,
    /// Domain 0 has no RPC, or no notification, of this name.
    UnknownName,
    /// The text is no path of the schema.
    BadPath { fault: PathTextFault },
    /// The value is not data of the domain's schema at the path, or not an input, output or notification of it.
    BadData { domain: u32, fault: DataFault },
    /// The transaction of the domain refused the write, or the read because it only writes.
    Write { domain: u32, fault: TxFault },
}

/// The reply to a step: to a shared call, the one by the log; to a local step, the result in the client's own transaction or
/// mirror.
#[derive(Drop)]
pub enum StepReply {
    /// The reply to the shared call.
    Called {
        reply: Reply,
    },
    /// The write is one of the transaction's operations.
    Accepted,
    /// The rows at the path and below it, in the view of a transaction of the domain.
    Read {
        domain: u32,
        path: Path,
        rows: Rows,
    },
    /// Whether the view of a transaction has a row at the path or below it.
    Exists {
        found: bool,
    },
    /// The rows that were committed at and below a listener's path in a store of the domain, at the version of its last batch.
    Mirror {
        domain: u32,
        path: Path,
        version: u64,
        rows: Rows,
    },
    /// The step was refused.
    Refused {
        refusal: StepRefusal,
    },
}
