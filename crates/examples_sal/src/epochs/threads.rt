//! The controller and the stand-by on their threads.
use super::controller::{Piece, lead};
use super::standby::{Seen, follow};
use crossbeam_channel::{Receiver, Sender, bounded};
use std::alloc::Global;
use std::sync::Wait;
use std::thread::{Threads, join};

// The largest number of waiting pieces.
const WAITING: usize = 4;

/// The result when both are done.
#[derive(Drop)]
pub(crate) struct End {
    /// The last number that the controller counted.
    pub(crate) last: u64,
    /// The state of the stand-by.
    pub(crate) seen: Seen,
}

/// Lets the controller count through its epochs, at the same time as the stand-by.
pub(crate) fn run<R: Threads + Wait + Sync>(rt: &R, alloc: Global) -> anyhow::Result<End> {
    let (to, from) = bounded(alloc, WAITING)?;
    both(rt, alloc, to, from)
}

// Both at the same time, until the controller is done and all its pieces were taken.
fn both<R: Threads + Wait + Sync>(
    rt: &R,
    alloc: Global,
    to: Sender<Piece, Global>,
    from: Receiver<Piece, Global>,
) -> anyhow::Result<End> {
    let (last, seen) = join(
        rt,
        move || lead(rt, alloc, to),
        move || follow(rt, alloc, from),
    );
    Ok(End {
        last: last?,
        seen: seen?,
    })
}
