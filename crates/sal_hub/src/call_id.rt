//! Requests.
ghost use Rattle.std.specs.Prelude.{◌≡◌};

/// The token of a request. Requests are numbered from 1, over all RPCs and clients.
#[derive(Clone, Copy, Debug, PartialEq, Eq)]
pub struct CallId {
    number: u64,
    rpc: u32,
}

impl CallId {
    pub(crate) fn of(number: u64, rpc: u32) -> CallId
        ensures { result ≡ record { number = number; rpc = rpc } }
    {
        CallId { number, rpc }
    }

    /// Its number.
    pub fn number(&self) -> u64
        ensures { result ≡ self.now.number }
    {
        self.number
    }

    /// Its RPC.
    pub fn rpc(&self) -> u32
        ensures { result ≡ self.now.rpc }
    {
        self.rpc
    }
}
