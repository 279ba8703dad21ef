//! The frames of a leader, cut in two at every place.
ghost use Rattle.std.specs.Prelude.{◌≡◌, ◌≤◌, ◌<◌, ◌^◌, length};
ghost use Rattle.sal_follow.specs.Fed.{IsFedBy};

use super::Unmade;
use super::follower::{feed, follower_of, holds};
use super::leader::{FRAMES, SCRIPT, frames};
use sal_follow::Follower;
use std::alloc::Global;

// The number of bytes of the first frame.
const FIRST: usize = 51;

// Whether the follower has the right commit between the two pieces: none before the first frame is complete, then its commit.
fn holds_front(follower: &Follower, cut: usize) -> bool {
    let version = if cut < FIRST {
        None
    } else if cut < FRAMES.len() {
        Some(0)
    } else {
        Some(1)
    };
    follower.version() == version
}

// Whether a stream in two pieces is followed.
fn is_followed(alloc: Global, stream: &[u8], cut: usize) -> Result<bool, Unmade>
    requires { cut ≤ length stream.now }
{
    let mut follower = follower_of(alloc, SCRIPT.as_bytes())?;
    Ok(takes_both(&mut follower, stream, cut))
}

// Whether a new follower takes both pieces.
fn takes_both(follower: &mut Follower, stream: &[u8], cut: usize) -> bool
    requires new { IsFedBy 0 follower.old }
    requires cut { cut ≤ length stream.now }
{
    let Ok(_) = feed(follower, 0, &stream[..cut]) else {
        return false;
    };
    if !holds_front(follower, cut) {
        return false;
    }
    let Ok(_) = feed(follower, cut as u64, &stream[cut..]) else {
        return false;
    };
    holds(follower, 1, 1)
}

/// Whether the leader writes these frames, and they are followed in two pieces, wherever they are cut.
pub(crate) fn cut_in_two_at_every_place(alloc: Global) -> bool {
    match frames(alloc) {
        Ok(frames) => are_followed(alloc, frames.items()),
        Err(_) => false,
    }
}

fn are_followed(alloc: Global, stream: &[u8]) -> bool {
    if stream != FRAMES.as_bytes() {
        return false;
    }
    for cut in 0..stream.len() + 1 {
        if !matches!(is_followed(alloc, stream, cut), Ok(true)) {
            return false;
        }
    }
    true
}
