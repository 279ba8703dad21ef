//! The text of a feed.
ghost use Rattle.std.specs.Prelude.{◌≡◌, ◌≤◌, IfOk};
ghost use Rattle.sal_feed_script.specs.Feeding as spec;

use crate::rounds::sum_taken;
use sal_types::{NoMemory, Str};
use std::alloc::Global;
use std::sync::Wait;
use std::thread::Threads;

/// The largest number of notifications.
pub const MAX_NOTES: u32 = 100000;

/// The largest number of waiting notifications.
pub const MAX_CAPACITY: u32 = 4096;

/// Passes notifications with the numbers from 0 to `notes - 1` through a feed in which at most `capacity` wait. The text has how many were taken,
/// and the sum of their numbers.
pub fn feed_text<R: Threads + Wait + Sync>(
    rt: &R,
    alloc: Global,
    notes: u32,
    capacity: u32,
) -> Result<Str, NoMemory>
    requires notes { notes ≤ 100000 }
    requires some { 1 ≤ capacity }
    requires few { capacity ≤ 4096 }
    ensures { IfOk result (λ text. text ≡ spec.feed_text notes capacity) }
{
    let sum = sum_taken(rt, alloc, notes, capacity)?;
    let mut text = String::new(alloc);
    write!(text, "feed {notes} {capacity}\ntaken {notes}\nsum {sum}\n")?;
    Ok(Str::from_string(text))
}
