//! Why there are no frames, and why an epoch does not begin.
ghost use Rattle.std.specs.Prelude.{◌≡◌};
ghost use Rattle.sal_cluster.specs.Leaders.{as_frames};

use sal_follow::ExportFault;
use sal_types::Bytes;

/// Why there are no frames.
#[derive(Clone, Copy, Debug, PartialEq, Eq)]
pub enum FramesFault {
    /// The broker does not keep commits of numbers that low.
    Gone,
    /// The text of the frame of this number has more than 16,777,216 bytes.
    TooLong { number: u64 },
    /// Memory ran out, or a number has more than 64 bits.
    NoMemory,
}

/// Why the next epoch does not begin.
#[derive(Clone, Copy, Debug, PartialEq, Eq)]
pub enum EpochFault {
    /// A submission is not decided.
    Pending,
    /// The newest commit has another number.
    NotNewest,
}

/// The result of an export.
pub(crate) fn as_frames(told: Result<Bytes, ExportFault>) -> Result<Bytes, FramesFault>
    ensures { result ≡ as_frames told }
{
    match told {
        Ok(bytes) => Ok(bytes),
        Err(ExportFault::TooLong { commit }) => Err(FramesFault::TooLong { number: commit }),
        Err(ExportFault::NoMemory) => Err(FramesFault::NoMemory),
    }
}
