//! Counts of entries, by client.
ghost use Rattle.std.specs.Prelude.{◌≡◌, ◌+◌, ◌-◌, ◌<◌, ◌^◌, ℕ, OnErr, OnOk, if◌then◌else◌, nat_eq};
ghost use Rattle.sal_types.specs.Counts.{count_in};

use crate::memory::NoMemory;
use std::alloc::Global;
use std::collections::BTreeMap;

/// A count for each client, 0 at first.
#[derive(Drop)]
pub struct Counts {
    pub map: BTreeMap<u32, u32>,
}

impl Counts {
    /// No client has an entry. It takes no memory.
    pub fn new(alloc: Global) -> Counts
        ensures { (client : ℕ) → count_in result.map client ≡ 0 }
    {
        Counts {
            map: BTreeMap::new(alloc),
        }
    }

    /// The client's count. It takes no memory.
    pub fn of(&self, client: u32) -> u32
        ensures { result ≡ count_in self.now.map client }
    {
        self.map.get(&client).copied().unwrap_or(0)
    }

    /// Counts one more entry of the client.
    pub fn add(&mut self, client: u32) -> Result<(), NoMemory>
        requires { count_in self.old.map client < 2 ^ 32 - 1 }
        ensures ok { OnOk result ((c : ℕ) → count_in self.new.map c ≡ count_in self.old.map c + (if nat_eq client c then 1 else 0)) }
        ensures err { OnErr result ((c : ℕ) → count_in self.new.map c ≡ count_in self.old.map c) }
    {
        let count = self.of(client) + 1;
        self.map.insert(client, count)?;
        Ok(())
    }

    /// Counts one entry of the client less, unless it has none. It takes no memory.
    pub fn take_back(&mut self, client: u32)
        ensures { (c : ℕ) → count_in self.new.map c ≡ count_in self.old.map c - (if nat_eq client c then 1 else 0) }
    {
        if let Some(count) = self.map.get_mut(&client) {
            *count = less_one(*count);
        }
    }
}

fn less_one(count: u32) -> u32
    ensures { result ≡ count - 1 }
{
    if count == 0 { 0 } else { count - 1 }
}
