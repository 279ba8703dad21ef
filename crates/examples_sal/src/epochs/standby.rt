//! The stand-by: one follower through all epochs.
ghost use Rattle.std.specs.Prelude.{◌≡◌, ◌+◌, ◌<◌, ◌^◌, IfOk, length};
ghost use Rattle.sal.specs.Fed.{IsFedBy};

use super::controller::Piece;
use crate::counter::{number_in, schema};
use anyhow::bail;
use crossbeam_channel::Receiver;
use sal::{FollowFault, Follower, Patterns, Store, places_count_bytes};
use std::alloc::Global;
use std::sync::{Arc, Wait};

/// The state of the stand-by.
#[derive(Drop)]
pub(crate) struct Seen {
    /// The number of the last frame.
    pub(crate) frame: u64,
    /// The number in the counter.
    pub(crate) number: u64,
}

// A follower, with the largest number of bytes that it may have received.
#[derive(Drop)]
struct Standing {
    follower: Follower,
    fed: u64,
}

/// Takes all pieces, to the end.
pub(crate) fn follow<R: Wait>(
    rt: &R,
    alloc: Global,
    from: Receiver<Piece, Global>,
) -> anyhow::Result<Seen> {
    let mut standing = begin(alloc)?;
    for _ in rt.forever() {
        let Ok(piece) = from.recv(rt) else {
            break;
        };
        feed(&mut standing, &piece)?;
    }
    seen_by(&standing)
}

// A follower before the stream.
fn begin(alloc: Global) -> anyhow::Result<Standing>
    ensures { IfOk result (λ s. IsFedBy s.fed s.follower) }
{
    let schema = Arc::new(alloc, schema(alloc)?)?;
    let patterns = Patterns::of(alloc, &schema)?;
    let follower = Follower::new(alloc, schema, patterns)?;
    Ok(Standing { follower, fed: 0 })
}

// Feeds the piece to the follower.
fn feed(standing: &mut Standing, piece: &[u8]) -> Result<(), FollowFault>
    requires { IsFedBy standing.old.fed standing.old.follower }
    ensures { IsFedBy standing.new.fed standing.new.follower }
{
    let Some(after) = standing.fed.checked_add(piece.len() as u64) else {
        return Err(FollowFault::NoMemory);
    };
    let fed = feed_behind(&mut standing.follower, standing.fed, piece);
    standing.fed = after;
    fed
}

// Feeds a piece to a follower that has received at most `before` bytes.
fn feed_behind(follower: &mut Follower, before: u64, piece: &[u8]) -> Result<(), FollowFault>
    requires fed { IsFedBy before follower.old }
    requires few { before + length piece.now < 2 ^ 64 }
    ensures { IsFedBy (before + length piece.now) follower.new }
{
    places_count_bytes();
    match follower.feed(piece) {
        Ok(_) => Ok(()),
        Err(fault) => Err(fault),
    }
}

// The state of a follower.
fn seen_by(standing: &Standing) -> anyhow::Result<Seen> {
    let Some(frame) = standing.follower.version() else {
        bail!("no frame came");
    };
    let number = number_in(&standing.follower.rows(Store::Config)?);
    Ok(Seen { frame, number })
}
