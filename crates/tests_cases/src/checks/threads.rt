//! A leader and a follower on two threads, joined by a channel of bytes that are cut anywhere.
ghost use Rattle.std.specs.Prelude.{◌≡◌};
ghost use Rattle.sal_follow.specs.Fed.{IsFedBy};

use super::follower::{feed, follower_of, holds};
use super::leader::{SCRIPT, frames};
use crossbeam_channel::{Receiver, Sender, bounded};
use sal_follow::Follower;
use std::alloc::Global;
use std::sync::Wait;
use std::thread;
use std::thread::Threads;

type Piece = Vec<u8>;

// The largest number of waiting pieces.
const WAITING: usize = 4;

fn copied(alloc: Global, bytes: &[u8]) -> Option<Piece> {
    let mut piece = Vec::new(alloc);
    match piece.extend_from_slice(bytes) {
        Ok(()) => Some(piece),
        Err(_) => None,
    }
}

// Sends the bytes in pieces of one byte, two bytes and so on, up to seven, and then of one again. It returns whether all were sent.
fn send_all<R: Wait>(rt: &R, alloc: Global, to: &Sender<Piece, Global>, bytes: &[u8]) -> bool {
    let mut rest = bytes;
    for number in 0..bytes.len() {
        if rest.is_empty() {
            return true;
        }
        let len = rest.len().min(number % 7 + 1);
        let (piece, more) = rest.split_at(len);
        let Some(piece) = copied(alloc, piece) else {
            return false;
        };
        if to.send(rt, piece).is_err() {
            return false;
        }
        rest = more;
    }
    true
}

// The leader: it plays its script, and sends the frames.
fn lead<R: Wait>(rt: &R, alloc: Global, to: Sender<Piece, Global>) -> bool {
    match frames(alloc) {
        Ok(frames) => send_all(rt, alloc, &to, frames.items()),
        Err(_) => false,
    }
}

// The follower: it takes all pieces, to the end. It returns whether it has the leader's last commit.
fn follow<R: Wait>(rt: &R, mut follower: Follower, from: Receiver<Piece, Global>) -> bool
    requires { IsFedBy 0 follower }
{
    let mut fed = 0u64;
    for _ in rt.forever() {
        let Ok(piece) = from.recv(rt) else {
            break;
        };
        let Some(after) = fed.checked_add(piece.len() as u64) else {
            return false;
        };
        if feed(&mut follower, fed, &piece).is_err() {
            return false;
        }
        fed = after;
    }
    holds(&follower, 1, 1)
}

// Both at the same time.
fn both<R: Threads + Wait + Sync>(
    rt: &R,
    alloc: Global,
    follower: Follower,
    to: Sender<Piece, Global>,
    from: Receiver<Piece, Global>,
) -> (bool, bool)
    requires { IsFedBy 0 follower }
{
    thread::join(
        rt,
        move || lead(rt, alloc, to),
        move || -> bool
            requires { IsFedBy 0 follower }
        { follow(rt, follower, from) },
    )
}

// Whether all was sent and the last commit is held, by this follower.
fn are_joined<R: Threads + Wait + Sync>(rt: &R, alloc: Global, follower: Follower) -> bool
    requires { IsFedBy 0 follower }
{
    match bounded(alloc, WAITING) {
        Ok((to, from)) => both(rt, alloc, follower, to, from) == (true, true),
        Err(_) => false,
    }
}

/// Whether the leader sends all its frames, and the follower ends with its last commit.
pub(crate) fn a_leader_and_a_follower<R: Threads + Wait + Sync>(rt: &R, alloc: Global) -> bool {
    match follower_of(alloc, SCRIPT.as_bytes()) {
        Ok(follower) => are_joined(rt, alloc, follower),
        Err(_) => false,
    }
}
