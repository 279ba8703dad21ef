//! `feed N C` of the command: notifications that go from one thread to another through a feed.
//!
//! | call | what it is |
//! |---|---|
//! | `feed_text` | passes this many notifications through a feed of this capacity; the text has how many were taken, and the sum of their numbers |
//!
//! In each round two halves of a join run: one offers the notifications in their order until the feed is full or all are offered, the other takes
//! until the feed is empty, and adds up their numbers. The rounds end when all were taken. The sum is proved from the contract of `finish` of
//! `sal_feed`: the notifications taken, then those remaining, are those offered.
//!
//! ```
//! let text = feed_text(rt, alloc, 5, 2)?;
//! // feed 5 2
//! // taken 5
//! // sum 10
//! ```
//!
//! Cost: a thread for each round; each round but the last moves at least as many notifications as fit the feed. Memory is that of the feed.
//! No clause says that the rounds end, nor that both halves run at the same time.
#![tactic(auto)]

mod rounds;
mod text;

pub use text::{MAX_CAPACITY, MAX_NOTES, feed_text};
