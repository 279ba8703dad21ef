//! A commit whose text is too long to be a frame, and a large one that is taken in one piece.
ghost use Rattle.std.specs.Prelude.{◌≡◌, ◌<◌, ◌^◌, length};
ghost use Rattle.sal_follow.specs.Fed.{IsFedBy};

use super::follower::{feed, follower_of, holds};
use super::leader;
use sal_follow::Follower;
use sal_follow_script::export_text;
use sal_prepare::status::Status;
use std::alloc::Global;
use std::io;

// The number of letters of the leaf.
const LETTERS: usize = 16777216;

// The same of a commit that has a frame.
const FEWER: usize = 1000000;

// The number of bytes of both frames of its stream: 51, and 61 beside the letters.
const STREAM: usize = 1000112;

// A script of one commit that puts this many letters into one leaf.
fn script(alloc: Global, letters: usize) -> io::Result<String> {
    let mut text = String::new(alloc);
    text.push_str(
        "{\"clients\":[{\"steps\":[[\"begin\",0,0,\"rw\"],[\"put\",0,\"config\",\"/plain:box/a\",\"",
    )?;
    for _ in 0..letters {
        text.push('x')?;
    }
    text.push_str("\"],[\"submit\",0],[\"settle\",0]]}],\"order\":[0,0,0]}")?;
    Ok(text)
}

/// Whether commit 1 is not exported.
pub(crate) fn a_text_is_too_long(alloc: Global) -> bool {
    match script(alloc, LETTERS) {
        Ok(script) => matches!(
            export_text(alloc, script.as_bytes()),
            Err(Status::BadExport { commit: 1 })
        ),
        Err(_) => false,
    }
}

// Whether the follower takes both frames at once.
fn takes(mut follower: Follower, stream: &[u8]) -> bool
    requires new { IsFedBy 0 follower }
    requires few { length stream.now < 2 ^ 64 }
{
    matches!(feed(&mut follower, 0, stream), Ok(Some(1))) && holds(&follower, 1, 1)
}

fn is_taken(alloc: Global, stream: &[u8]) -> bool {
    match follower_of(alloc, leader::SCRIPT.as_bytes()) {
        Ok(follower) => stream.len() == STREAM && takes(follower, stream),
        Err(_) => false,
    }
}

/// Whether a stream with a commit of a million letters is taken in one piece.
pub(crate) fn a_large_piece_is_taken(alloc: Global) -> bool {
    match script(alloc, FEWER) {
        Ok(script) => match export_text(alloc, script.as_bytes()) {
            Ok(frames) => is_taken(alloc, frames.items()),
            Err(_) => false,
        },
        Err(_) => false,
    }
}
