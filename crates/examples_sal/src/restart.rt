//! A second controller continues from the frames of a first one that stopped.
//!
//! The first controller counts to 3 in a leaf of its configuration, and keeps the frames of its commits. They are bytes: an
//! application would write them to a file, or send them. A follower takes them. The second controller begins with the follower's
//! trees, and counts on to 6.
//!
//! The domain and the client that counts in it are those of `counter`.
use crate::counter::{Counter, LAST_NUMBER, count, device, number_in, schema};
use anyhow::bail;
use sal::{Bytes, Follower, Hub, Patterns, Rules, Schema, Store, follower_of, frames_of, resume};
use std::alloc::Global;
use std::sync::Arc;

// How far each controller counts.
const HALF: u64 = 3;

// The result when both controllers are done.
#[derive(Drop)]
struct End {
    // How many bytes the frames of the first one have.
    bytes: usize,
    // The follower's commit.
    held: u64,
    // How many commits the second one made.
    commits: u64,
    // The number in the counter.
    last: u64,
}

/// Runs both controllers, and prints the result.
pub(crate) fn show(rt: &HostRuntime) -> anyhow::Result<()> {
    let end = run(rt.alloc())?;
    println!(rt; "the first controller left {} bytes", end.bytes)?;
    println!(rt; "the follower holds commit {}", end.held)?;
    println!(rt; "the second controller made {} commits", end.commits)?;
    println!(rt; "the last number is {}", end.last)?;
    Ok(())
}

// Counts with one controller, then on with the next one.
fn run(alloc: Global) -> anyhow::Result<End> {
    let schema = Arc::new(alloc, schema(alloc)?)?;
    let counter = Counter::at(alloc, &schema, LAST_NUMBER)?;
    let stream = first_half(alloc, &schema, &counter)?;
    let follower = follow(alloc, schema, stream.items())?;
    second_half(alloc, stream.items().len(), follower, &counter)
}

// The frames of the first controller.
fn first_half(alloc: Global, schema: &Arc<Schema>, counter: &Counter) -> anyhow::Result<Bytes> {
    let mut hub = open(alloc, schema)?;
    count(alloc, &mut hub, counter, HALF)?;
    frames(alloc, &hub)
}

// A hub over the domain.
fn open(alloc: Global, schema: &Arc<Schema>) -> anyhow::Result<Hub> {
    let devices = vec![in alloc; device(alloc, schema)?]?;
    Ok(Hub::open(alloc, devices, Rules::Two)?)
}

// The frames of the hub's first domain.
fn frames(alloc: Global, hub: &Hub) -> anyhow::Result<Bytes> {
    if hub.domains().is_empty() {
        bail!("the hub has no domain");
    }
    Ok(frames_of(alloc, hub, 0)?)
}

// A follower that has taken the stream.
fn follow(alloc: Global, schema: Arc<Schema>, stream: &[u8]) -> anyhow::Result<Follower> {
    let patterns = Patterns::of(alloc, &schema)?;
    Ok(follower_of(alloc, schema, patterns, stream)?)
}

// The second controller, from the trees of the follower.
fn second_half(
    alloc: Global,
    bytes: usize,
    follower: Follower,
    counter: &Counter,
) -> anyhow::Result<End> {
    let Some(held) = follower.version() else {
        bail!("no frame came");
    };
    let mut hub = resume(alloc, follower, Rules::Two)?;
    count(alloc, &mut hub, counter, HALF)?;
    let rows = hub.trees().config.rows(alloc, counter.path())?;
    Ok(End {
        bytes,
        held,
        commits: hub.newest(),
        last: number_in(&rows),
    })
}
