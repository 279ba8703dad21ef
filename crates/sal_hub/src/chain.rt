//! Transaction chains.
ghost use Rattle.std.specs.Prelude.{◌≡◌};

/// The token of a transaction chain (MD-SAL `DOMTransactionChain`). Chains are numbered from 1, over all domains and clients.
#[derive(Clone, Copy, Debug, PartialEq, Eq)]
pub struct Chain {
    id: u64,
    domain: u32,
}

impl Chain {
    pub(crate) fn of(id: u64, domain: u32) -> Chain
        ensures { result ≡ record { id = id; domain = domain } }
    {
        Chain { id, domain }
    }

    /// Its id.
    pub fn id(&self) -> u64
        ensures { result ≡ self.now.id }
    {
        self.id
    }

    /// The domain of its transactions.
    pub fn domain(&self) -> u32
        ensures { result ≡ self.now.domain }
    {
        self.domain
    }
}
