//! The tests of the lowest crates: that the calls of the turn lock return, on one thread and on two, and the value's entries afterwards; and of
//! sources and sinks over readers and writers of std.
#![tactic(auto)]

#[cfg(test)]
mod crowd;
#[cfg(test)]
mod io;
#[cfg(test)]
mod seats;
#[cfg(test)]
mod tape;
#[cfg(test)]
mod threads;
