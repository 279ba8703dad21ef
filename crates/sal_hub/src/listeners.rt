//! The hub's records of listeners.
ghost use Rattle.std.specs.Prelude.{◌≡◌, []};

use crate::listener::Listener;
use std::alloc::Global;

/// The largest number of live listeners.
pub const MAX_LISTENERS: u32 = 256;

/// The listeners, by number from 1 on, and how many of them are live.
pub(crate) struct Listeners {
    pub(crate) list: Vec<Listener>,
    pub(crate) live: u32,
}

impl Drop for Listeners {
    fn drop(self) {
        let Listeners { list: _, live: _ } = self;
    }
}

impl Listeners {
    /// No listeners. It takes no memory.
    pub(crate) fn new(alloc: Global) -> Listeners
        ensures list { result.list.items ≡ [] }
        ensures live { result.live ≡ 0 }
    {
        Listeners {
            list: Vec::new(alloc),
            live: 0,
        }
    }
}
