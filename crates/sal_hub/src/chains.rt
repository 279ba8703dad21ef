//! The hub's records of chains.
ghost use Rattle.std.specs.Prelude.{◌≡◌, ◌-◌, [], Some, OnOk, length};
ghost use Rattle.sal_hub.specs.Chains as spec;
ghost use Rattle.sal_hub.specs.Failures.{IsWithin, noted_with};

use sal_types::NoMemory;
use std::alloc::Global;

/// For each chain, by id from 1 on: its domain, whether it is closed, the index of the entry that began its last transaction,
/// and its last receipt.
pub(crate) struct Chains {
    pub(crate) domains: Vec<u32>,
    pub(crate) closed: Vec<bool>,
    pub(crate) begun: Vec<Option<u64>>,
    pub(crate) sent: Vec<Option<u64>>,
}

impl Drop for Chains {
    fn drop(self) {
        let Chains {
            domains: _,
            closed: _,
            begun: _,
            sent: _,
        } = self;
    }
}

impl Chains {
    /// No chains. It takes no memory.
    pub(crate) fn new(alloc: Global) -> Chains
        ensures domains { result.domains.items ≡ [] }
        ensures closed { result.closed.items ≡ [] }
        ensures begun { result.begun.items ≡ [] }
        ensures sent { result.sent.items ≡ [] }
    {
        Chains {
            domains: Vec::new(alloc),
            closed: Vec::new(alloc),
            begun: Vec::new(alloc),
            sent: Vec::new(alloc),
        }
    }

    /// Makes room for one more.
    pub(crate) fn reserve(&mut self) -> Result<(), NoMemory>
        ensures room { OnOk result (spec.AreRoomy self.new) }
        ensures same { spec.AreSame self.old self.new }
    {
        self.domains.reserve(1)?;
        self.closed.reserve(1)?;
        self.begun.reserve(1)?;
        self.sent.reserve(1)?;
        Ok(())
    }

    /// Adds a chain of the domain. It takes no memory.
    pub(crate) fn add(&mut self, domain: u32)
        requires { spec.AreRoomy self.old }
        ensures { spec.Adds self.old domain self.new }
    {
        self.domains.push(domain).unwrap();
        self.closed.push(false).unwrap();
        self.begun.push(None).unwrap();
        self.sent.push(None).unwrap();
    }
}

/// Records a number for the chain, if any. It takes no memory.
pub(crate) fn note(notes: &mut [Option<u64>], chain: Option<u64>, number: u64)
    requires { IsWithin (length notes.old) chain }
    ensures { notes.new ≡ noted_with notes.old chain number }
{
    match chain {
        None => {}
        Some(chain) => notes[chain as usize - 1] = Some(number),
    }
}
