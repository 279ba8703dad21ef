//! The numbers of the statuses. Those below 21 are exit statuses of the command.
ghost use Rattle.std.specs.Prelude.{◌≡◌};
ghost use Rattle.sal_session.specs.Sessions as spec;
ghost use Rattle.sal_session.specs.Streams as streams;

use sal_cluster::EpochFault;
use sal_embed::StepFault;

/// The call succeeded.
pub const DONE: u32 = 0;
/// Memory ran out.
pub const NO_MEMORY: u32 = 10;
/// The bytes are no frames, or a frame is missing.
pub const BAD_STREAM: u32 = 12;
/// The text of a frame is too long.
pub const BAD_EXPORT: u32 = 13;
/// There is neither a broker nor a stand-by.
pub const NOT_OPEN: u32 = 21;
/// There is a broker or a stand-by.
pub const IS_OPEN: u32 = 22;
/// The bytes are no step; or no path, or the number is that of no store.
pub const BAD_STEP: u32 = 23;
/// The client's number is 65,536 or more.
pub const BAD_CLIENT: u32 = 24;
/// The log has 1,000,000 calls.
pub const FULL: u32 = 25;
/// The client is lost.
pub const LOST: u32 = 26;
/// The step was made, and its reply is not shown.
pub const UNTOLD: u32 = 27;
/// The broker was dropped.
pub const BROKEN: u32 = 28;
/// There is a stand-by, and the call is one of a broker.
pub const IS_STANDBY: u32 = 29;
/// The broker does not keep the commits of numbers that low.
pub const GONE: u32 = 30;
/// A submission is not decided.
pub const PENDING: u32 = 31;
/// The newest commit has another number.
pub const NOT_NEWEST: u32 = 32;
/// The stand-by has no frame yet.
pub const EMPTY: u32 = 33;
/// The script has no such version, or the trees are no trees of it.
pub const BAD_VERSION: u32 = 34;
/// There is no domain of this number.
pub const BAD_DOMAIN: u32 = 35;

/// The number of a step's fault.
pub(crate) fn number_of(fault: StepFault) -> u32
    ensures { result ≡ spec.number_of fault }
{
    match fault {
        StepFault::BadStep => BAD_STEP,
        StepFault::BadClient => BAD_CLIENT,
        StepFault::Full => FULL,
        StepFault::Lost => LOST,
        StepFault::NoMemory => NO_MEMORY,
        StepFault::Untold => UNTOLD,
        StepFault::Broken => BROKEN,
    }
}

/// The number of why the next epoch does not begin.
pub(crate) fn epoch_number(fault: EpochFault) -> u32
    ensures { result ≡ streams.epoch_fault fault }
{
    match fault {
        EpochFault::Pending => PENDING,
        EpochFault::NotNewest => NOT_NEWEST,
    }
}
