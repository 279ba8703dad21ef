//! Checks that no script can make: a full history, frames that are cut or sent from one thread to another, and calls of the library on the hub of a
//! script.
//!
//! | file | content |
//! |---|---|
//! | `full` | a client at a history without room |
//! | `leader`, `follower` | a script that is exported, and what follows its frames |
//! | `cuts` | the frames in two pieces, cut at each place |
//! | `threads` | a leader and a follower, joined by a channel |
//! | `long` | a commit whose text is too long for a frame, and a large one in one piece |
//! | `played` | scripts that are played, for the checks below |
//! | `streams` | the frames of two domains from any commit on, and a hub of their follower |
//! | `epochs` | the hub of the next epoch, moved and copied |
//! | `shown` | the picture of a log, the places of a schema, the log of a book of owners |
mod cuts;
mod epochs;
mod follower;
mod full;
mod leader;
mod long;
mod played;
mod shown;
mod streams;
mod threads;

use std::alloc::Global;
use std::fmt::Debug;
use std::io;
use std::sync::Wait;
use std::thread::Threads;

/// A check that could not be made, for want of memory or after a fault. Each error converts to it.
#[derive(Drop)]
pub(crate) struct Unmade;

impl<E: Debug + Drop> From<E> for Unmade {
    fn from(_error: E) -> Unmade {
        Unmade
    }
}

/// Makes the checks that the text names, one a line, and prints whether each holds.
pub(crate) fn make_each<R: Threads + Wait + Sync>(
    rt: &HostRuntime,
    threads: &R,
    names: &str,
) -> io::Result<()> {
    for name in names.lines() {
        let word = if holds(threads, rt.alloc(), name) {
            "holds"
        } else {
            "does not hold"
        };
        println!(rt; "{name}: {word}")?;
    }
    Ok(())
}

// Whether the check of this name holds; one that is not known does not.
fn holds<R: Threads + Wait + Sync>(rt: &R, alloc: Global, name: &str) -> bool {
    match name {
        "a_client_behind_a_million_marks_is_stopped" => {
            full::a_client_behind_a_million_marks_is_stopped(rt, alloc)
        }
        "cut_in_two_at_every_place" => cuts::cut_in_two_at_every_place(alloc),
        "a_leader_and_a_follower" => threads::a_leader_and_a_follower(rt, alloc),
        "a_text_is_too_long" => long::a_text_is_too_long(alloc),
        "a_large_piece_is_taken" => long::a_large_piece_is_taken(alloc),
        "frames_of_two_domains" => streams::frames_of_two_domains(alloc),
        "an_epoch_of_two_domains" => epochs::an_epoch_of_two_domains(alloc),
        "pictures_of_logs" => shown::pictures_of_logs(alloc),
        "places_of_a_schema" => shown::places_of_a_schema(alloc),
        "the_log_of_a_book" => shown::the_log_of_a_book(alloc),
        _ => false,
    }
}
