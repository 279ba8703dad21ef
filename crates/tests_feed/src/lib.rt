//! The tests of the feed: one thread that fills it and finishes it, and two threads that pass notifications.
#![tactic(auto)]

#[cfg(test)]
mod full;
#[cfg(test)]
mod threads;
