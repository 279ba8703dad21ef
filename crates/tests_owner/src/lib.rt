//! The tests of entity ownership: two threads that register and unregister one entity over and over, with a client's copy compared with the
//! log; and a full log.
#![tactic(auto)]

#[cfg(test)]
mod full;
#[cfg(test)]
mod threads;
