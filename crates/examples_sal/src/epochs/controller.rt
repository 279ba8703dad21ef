//! The controller: it counts, sends its commits, and continues with the next hub.
ghost use Rattle.std.specs.Prelude.{◌≡◌, ◌≤◌, true, length};

use crate::counter::{Counter, LAST_NUMBER, count, device, number_in, schema};
use anyhow::bail;
use crossbeam_channel::Sender;
use sal::{Bytes, Hub, NextFrame, Rules, frames_on, next_hub};
use std::alloc::Global;
use std::sync::{Arc, Wait};

/// The number of epochs.
pub(crate) const EPOCHS: u64 = 3;

// How often frames are sent in an epoch.
const SENDINGS: u64 = 4;

// The number of commits between two sendings.
const COMMITS: u64 = 250;

/// Some bytes of frames.
pub(crate) type Piece = Vec<u8>;

/// The channel for the frames, and the next frame.
#[derive(Drop)]
struct Stream {
    to: Sender<Piece, Global>,
    next: NextFrame,
}

/// Counts through all epochs, and returns the last number.
pub(crate) fn lead<R: Wait>(
    rt: &R,
    alloc: Global,
    to: Sender<Piece, Global>,
) -> anyhow::Result<u64> {
    let schema = Arc::new(alloc, schema(alloc)?)?;
    let counter = Counter::at(alloc, &schema, LAST_NUMBER)?;
    let devices = vec![in alloc; device(alloc, &schema)?]?;
    let hub = Hub::open(alloc, devices, Rules::Two)?;
    let next = NextFrame {
        commit: 0,
        number: 0,
    };
    let hub = all_epochs(rt, alloc, Stream { to, next }, hub, &counter)?;
    last(alloc, &hub, &counter)
}

// One epoch after another.
fn all_epochs<R: Wait>(
    rt: &R,
    alloc: Global,
    mut stream: Stream,
    mut hub: Hub,
    counter: &Counter,
) -> anyhow::Result<Hub> {
    epoch(rt, alloc, &mut stream, &mut hub, counter)?;
    for _ in 1..EPOCHS {
        hub = next_epoch(rt, alloc, &mut stream, hub, counter)?;
    }
    Ok(hub)
}

// The epoch of the next hub. Its opening has no frame: the last frame led to it.
fn next_epoch<R: Wait>(
    rt: &R,
    alloc: Global,
    stream: &mut Stream,
    hub: Hub,
    counter: &Counter,
) -> anyhow::Result<Hub> {
    let mut hub = next(alloc, hub)?;
    stream.next.commit = 1;
    epoch(rt, alloc, stream, &mut hub, counter)?;
    Ok(hub)
}

// The hub that begins with the newest trees of this one.
fn next(alloc: Global, hub: Hub) -> anyhow::Result<Hub> {
    if !has_few_domains(&hub) {
        bail!("the hub has too many domains");
    }
    Ok(next_hub(alloc, hub, Rules::Two))
}

// Whether there are no more domains than a hub may have.
fn has_few_domains(hub: &Hub) -> bool
    ensures { result ≡ true → length hub.now.world ≤ 64 }
{
    hub.domains().len() <= 64
}

// Counts, and sends the frames of the commits since the last sending.
fn epoch<R: Wait>(
    rt: &R,
    alloc: Global,
    stream: &mut Stream,
    hub: &mut Hub,
    counter: &Counter,
) -> anyhow::Result<()> {
    for _ in 0..SENDINGS {
        count(alloc, hub, counter, COMMITS)?;
        let bytes = frames(alloc, hub, stream.next)?;
        send(rt, &stream.to, bytes.into_items())?;
        stream.next = after(stream.next, hub.newest());
    }
    Ok(())
}

// The next frame, once those up to the newest commit were sent.
fn after(next: NextFrame, newest: u64) -> NextFrame {
    let commit = newest.saturating_add(1);
    let sent = commit.saturating_sub(next.commit);
    NextFrame {
        commit,
        number: next.number.saturating_add(sent),
    }
}

// The frames from the next one on.
fn frames(alloc: Global, hub: &Hub, next: NextFrame) -> anyhow::Result<Bytes> {
    if hub.domains().is_empty() {
        bail!("the hub has no domain");
    }
    Ok(frames_on(alloc, hub, 0, next)?)
}

fn send<R: Wait>(rt: &R, to: &Sender<Piece, Global>, piece: Piece) -> anyhow::Result<()> {
    match to.send(rt, piece) {
        Ok(()) => Ok(()),
        Err(_) => bail!("the stand-by has ended"),
    }
}

// The number in the counter.
fn last(alloc: Global, hub: &Hub, counter: &Counter) -> anyhow::Result<u64> {
    let rows = hub.trees().config.rows(alloc, counter.path())?;
    Ok(number_in(&rows))
}
