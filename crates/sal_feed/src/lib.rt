//! A feed: notifications pass from one thread to another, in order and each once, through a queue of fixed capacity.
//!
//! | item | what it is |
//! |---|---|
//! | `Feed` | the queue between two seats; a contract sees its identity and its capacity |
//! | `OfferSeat` | the right to offer; a contract sees the notifications whose `offer` succeeded |
//! | `TakeSeat` | the right to take; a contract sees the notifications that were taken |
//! | `Full` | why a notification was returned |
//! | `Invariant`, `NoInvariant` | what a program says of each moment of its feed, of the notifications offered and taken so far; nothing |
//! | `Log` | what the queue's rule knows of a seat; no value of it exists at run time |
//!
//! The queue's rule holds at each step of both threads: the notifications taken, then those that wait, are those offered (`specs/Rule`). Each
//! seat knows only its own list, so no clause compares the two while they are separate. `finish` has both: it returns the remaining
//! notifications, and says that those taken, then those remaining, are those offered.
//!
//! `offer` returns a notification, and `take` none, after a step of the queue at which it was full, or empty: the clause says it by the invariant,
//! of which the call knows only that each step keeps it (`specs/Seats`, `WasFull`, `WasEmpty`).
//!
//! ```
//! let (feed, mut offers, mut takes) = Feed::<NoInvariant>::open(rt, alloc, 64)?;
//! let offered = feed.offer(rt, &mut offers, note);
//! let next = feed.take(rt, &mut takes);
//! let left = feed.finish(rt, alloc, offers, takes)?;
//! ```
//!
//! | call | cost |
//! |---|---|
//! | `open` | the memory of the queue, a few integers for each notification |
//! | `offer`, `take` | one notification is moved; no memory |
//! | `finish` | the memory of a list of the feed's capacity, before anything else; then each remaining notification is moved |
//!
//! A call may wait only for a step of another thread that is inside a call. A thread that stops inside a call can make the
//! other one wait.
#![tactic(auto)]

mod feed;
mod rule;

pub use feed::{Feed, Full, OfferSeat, TakeSeat};
pub use rule::{Invariant, Log, NoInvariant};
