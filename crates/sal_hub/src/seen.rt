//! The result of a look for a mark.

/// Whether a mark was set.
#[derive(Clone, Copy, Debug, PartialEq, Eq)]
pub enum Seen {
    /// It was set before.
    Found,
    /// It was not, after `looks` looks; the log had `front` entries at the last of them.
    Late { looks: u32, front: u64 },
}
