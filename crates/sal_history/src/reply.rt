//! The replies to shared calls.
use sal_note::NoteList;
use sal_rows::{Batch, CallFault, Opened, Outcome, Rows};
use sal_rpc::Request;
use sal_types::Path;

/// The reply to a shared call, as the log defines it.
#[derive(Drop)]
pub enum Reply {
    /// The transaction's base is this commit, and it follows the pending receipt, if any.
    Begun {
        commit: u64,
        on: Option<u64>,
    },
    /// The chain has this id.
    Chain {
        id: u64,
    },
    /// The call was done; there is no other result.
    Accepted,
    /// The submission has this receipt.
    Receipt {
        number: u64,
    },
    /// The outcome of a submission of the domain.
    Settled {
        domain: u32,
        outcome: Outcome,
    },
    /// This receipt, of a submission of the domain, was decided with this outcome.
    Decided {
        receipt: u64,
        domain: u32,
        outcome: Outcome,
    },
    /// No receipt is pending; no request waits; the request is not answered yet.
    Nothing,
    /// The listener has this id, and this snapshot of the path in the domain.
    Listener {
        id: u64,
        domain: u32,
        path: Path,
        opened: Opened,
    },
    /// A batch for a listener of the domain.
    Batch {
        domain: u32,
        batch: Batch,
    },
    /// The request has this id.
    CallMade {
        id: u64,
    },
    /// The next request that waits.
    Request {
        request: Request,
    },
    /// The rows with which a request of the RPC was answered.
    Output {
        rpc: u32,
        rows: Rows,
    },
    /// The number of subscribers that get the notification.
    Offered {
        count: u32,
    },
    /// The notifications that waited for the client, in order.
    Notes {
        list: NoteList,
    },
    /// The domain that is mounted at the path, if any.
    MountAt {
        mount: Option<u32>,
    },
    /// The mark was set before.
    Found,
    /// The mark was not set before.
    Late,
    /// The call was refused.
    Refused {
        fault: CallFault,
    },
}
