//! Listeners.
ghost use Rattle.std.specs.Prelude.{◌≡◌};

use sal_types::{Path, Store};

/// The token of a listener (MD-SAL `ListenerRegistration`). Listeners are numbered from 1, over all domains and clients.
#[derive(Clone, Copy, Debug, PartialEq, Eq)]
pub struct ListenerId {
    number: u64,
    domain: u32,
}

impl ListenerId {
    pub(crate) fn of(number: u64, domain: u32) -> ListenerId
        ensures { result ≡ record { number = number; domain = domain } }
    {
        ListenerId { number, domain }
    }

    /// Its number.
    pub fn number(&self) -> u64
        ensures { result ≡ self.now.number }
    {
        self.number
    }

    /// Its domain.
    pub fn domain(&self) -> u32
        ensures { result ≡ self.now.domain }
    {
        self.domain
    }
}

/// The record of a listener: its client, its path and store, the number of the commit up to which it has taken, and
/// whether it was not removed yet.
pub(crate) struct Listener {
    pub(crate) client: u32,
    pub(crate) domain: u32,
    pub(crate) store: Store,
    pub(crate) path: Path,
    pub(crate) version: u64,
    pub(crate) live: bool,
}

impl Drop for Listener {
    fn drop(self) {
        let Listener {
            client: _,
            domain: _,
            store: _,
            path: _,
            version: _,
            live: _,
        } = self;
    }
}
