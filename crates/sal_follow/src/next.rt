//! Where a stream continues.

/// The next frame of a stream: its commit, and its number in the stream.
#[derive(Clone, Copy, Drop)]
pub struct NextFrame {
    pub commit: u64,
    pub number: u64,
}
