//! Receipts.
ghost use Rattle.std.specs.Prelude.{◌≡◌};

/// The token of a submission. Receipts are numbered from 1, over all domains and clients.
#[derive(Clone, Copy, Debug, PartialEq, Eq)]
pub struct Receipt {
    number: u64,
    domain: u32,
}

impl Receipt {
    pub(crate) fn of(number: u64, domain: u32) -> Receipt
        ensures { result ≡ record { number = number; domain = domain } }
    {
        Receipt { number, domain }
    }

    /// Its number.
    pub fn number(&self) -> u64
        ensures { result ≡ self.now.number }
    {
        self.number
    }

    /// The domain of the submission.
    pub fn domain(&self) -> u32
        ensures { result ≡ self.now.domain }
    {
        self.domain
    }
}
