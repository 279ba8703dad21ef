//! Why a stream is not followed, and why commits are not exported.
use sal_types::NoMemory;
use thiserror::Error;

/// Why a piece of a stream was refused, or a follower does not continue.
#[derive(Clone, Copy, Debug, PartialEq, Eq, Error)]
pub enum FollowFault {
    /// The bytes from this offset of the stream on are not a frame, or the trees after it would not be trees of the schema.
    #[error("no frame begins at byte {at}")]
    BadFrame { at: u64 },
    /// The number of the frame is not the next one.
    #[error("commit {got} came where commit {want} was next")]
    Gap { want: u64, got: u64 },
    #[error("out of memory")]
    NoMemory,
}

/// Why commits were not exported.
#[derive(Clone, Copy, Debug, PartialEq, Eq, Error)]
pub enum ExportFault {
    /// The text of this commit's frame has more than 16,777,216 bytes.
    #[error("the frame of commit {commit} is too long")]
    TooLong { commit: u64 },
    #[error("out of memory")]
    NoMemory,
}

impl From<NoMemory> for ExportFault {
    ghost use Rattle.std.specs.Prelude.{◌≡◌};
    ghost use Rattle.sal_follow.specs.declared.fault.ExportFault.TheVariants.{NoMemory as Wanting};

    ghost from_gives = { λ _ e. e ≡ Wanting };

    fn from(_refused: NoMemory) -> ExportFault {
        ExportFault::NoMemory
    }
}
