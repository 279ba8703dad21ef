//! Two applications of a controller share a data broker, each on a separate thread.
//!
//! Both give numbers to tunnels, from one leaf of the configuration with the last number given. An application begins a
//! transaction, reads the leaf, puts the next number, and submits. If the other one was faster, the outcome is a conflict, and
//! the application begins again. Before they start, the program itself listens to the whole configuration; when both are done, it
//! takes the changes of every commit into its mirror. Its output is the same for any schedule of the two threads.
//!
//! The domain and its counter are those of `counter`.
//!
//! | file | content |
//! |---|---|
//! | `application` | begin, read, put, submit, settle, and again after a conflict |
//! | `listener` | a listener, and a mirror of the committed tree |
//! | `threads` | a seat for each application; close |

mod application;
mod listener;
mod threads;

use std::sync::Wait;
use std::thread::Threads;

/// Runs both applications, and prints the result.
pub(crate) fn show<R: Threads + Wait + Sync>(rt: &HostRuntime, runtime: &R) -> anyhow::Result<()> {
    let end = threads::share(runtime, rt.alloc())?;
    println!(rt; "the last number is {}", end.last)?;
    println!(rt; "it was counted up by {} commits", end.commits)?;
    println!(rt; "the listener was told of {} commits", end.told)?;
    let word = if end.is_mirrored { "is" } else { "is not" };
    println!(rt; "the mirror {word} the committed tree")?;
    Ok(())
}
