//! The hub's replies to calls on services, as replies to steps.
ghost use Rattle.std.specs.Prelude.{◌≡◌};
ghost use Rattle.sal_hub.specs.Routed.{collect_reply};
ghost use Rattle.sal_client.specs.Answers.{said, IsAnswer};

use crate::calls::{called, refused_call};
use crate::wish::CallResult;
use sal_history::Reply;
use sal_note::NoteList;
use sal_rows::{CallFault, Outcome, Rows};

/// The reply to a call, unless it stops the client.
pub(crate) fn answer_to(made: Result<Reply, CallFault>) -> CallResult
    ensures { IsAnswer made result }
{
    match made {
        Ok(reply) => Ok(called(reply)),
        Err(fault) => refused_call(fault),
    }
}

/// The reply to a call without another result.
pub(crate) fn accepted(made: Result<(), CallFault>) -> Result<Reply, CallFault>
    ensures { result ≡ said (λ _. Reply.Accepted) made }
{
    match made {
        Ok(()) => Ok(Reply::Accepted),
        Err(fault) => Err(fault),
    }
}

/// The outcome of a submission to the domain.
pub(crate) fn settled(domain: u32, made: Result<Outcome, CallFault>) -> Result<Reply, CallFault>
    ensures { result ≡ said (λ outcome. Reply.Settled domain outcome) made }
{
    match made {
        Ok(outcome) => Ok(Reply::Settled { domain, outcome }),
        Err(fault) => Err(fault),
    }
}

/// The answer to a request of the RPC.
pub(crate) fn output(rpc: u32, made: Result<Option<Rows>, CallFault>) -> Result<Reply, CallFault>
    ensures { result ≡ said (collect_reply rpc) made }
{
    match made {
        Ok(Some(rows)) => Ok(Reply::Output { rpc, rows }),
        Ok(None) => Ok(Reply::Nothing),
        Err(fault) => Err(fault),
    }
}

/// The number of subscribers that got a notification.
pub(crate) fn offered(made: Result<u32, CallFault>) -> Result<Reply, CallFault>
    ensures { result ≡ said (λ count. Reply.Offered count) made }
{
    match made {
        Ok(count) => Ok(Reply::Offered { count }),
        Err(fault) => Err(fault),
    }
}

/// The notifications that waited.
pub(crate) fn notes(made: Result<NoteList, CallFault>) -> Result<Reply, CallFault>
    ensures { result ≡ said (λ list. Reply.Notes list) made }
{
    match made {
        Ok(list) => Ok(Reply::Notes { list }),
        Err(fault) => Err(fault),
    }
}

/// The domain that is mounted at a path, if any.
pub(crate) fn mounted(made: Result<Option<u32>, CallFault>) -> Result<Reply, CallFault>
    ensures { result ≡ said (λ mount. Reply.MountAt mount) made }
{
    match made {
        Ok(mount) => Ok(Reply::MountAt { mount }),
        Err(fault) => Err(fault),
    }
}
