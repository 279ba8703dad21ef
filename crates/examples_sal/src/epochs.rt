//! A controller that runs for three epochs, and a stand-by that follows it through them.
//!
//! The log of a hub ends at 1,000,000 entries. Before that, the controller replaces the hub by the next one, which begins with the
//! newest trees. It counts in a leaf of its configuration, and sends the frames of its commits as bytes through a channel. The stand-by, on a
//! separate thread, feeds them to a follower. The frames of the next hub have the next numbers, so the stand-by does not notice the end of an epoch.
//!
//! The domain and the client that counts in it are those of `counter`.
//!
//! | file | content |
//! |---|---|
//! | `controller` | epochs: a hub, the frames of its commits, and the next hub |
//! | `standby` | one follower over all epochs |
//! | `threads` | both, joined by a channel |

mod controller;
mod standby;
mod threads;

use std::sync::Wait;
use std::thread::Threads;

/// Runs both, and prints the result.
pub(crate) fn show<R: Threads + Wait + Sync>(rt: &HostRuntime, runtime: &R) -> anyhow::Result<()> {
    let end = threads::run(runtime, rt.alloc())?;
    println!(rt; "the controller counted to {}", end.last)?;
    println!(rt; "the stand-by holds frame {}", end.seen.frame)?;
    println!(rt; "the number there is {}", end.seen.number)?;
    Ok(())
}
