//! The log, with its look-ups.
ghost use Rattle.std.specs.Prelude.{◌≡◌, ◌<◌, ◌≤◌, ◌↔◌, ◌||◌, ℕ, [], IsTrue, OnErr, OnOk, length, nat_eq};
ghost use Rattle.sal_hub.specs.Answers.{limit};
ghost use Rattle.sal_hub.specs.Journals.{jotted, mark_at, taken_back};

use crate::hub::MAX_ENTRIES;
use sal_history::{Call, Entry};
use sal_types::{Counts, NoMemory};
use std::alloc::Global;
use std::marker::Model;

/// The log, a flag at each index whose transaction is spent, and the counts of the clients' entries. A contract sees the
/// log and the flags.
pub(crate) struct Journal {
    entries: Vec<Entry>,
    marks: Vec<bool>,
    counts: Counts,
}

impl Drop for Journal {
    fn drop(self) {
        let Journal {
            entries: _,
            marks: _,
            counts: _,
        } = self;
    }
}

impl Model for Journal {
    ghost use Rattle.sal_hub.specs.Journals.{IsNoted, Noted};

    ghost Value = { Noted };

    ghost view = { λ j. record { log = j.entries.items; marks = j.marks.items } };

    ghost invariant = { λ j. IsNoted j.entries.items j.marks.items j.counts.map };
}

impl Journal {
    /// The empty log. It takes no memory.
    pub(crate) fn new(alloc: Global) -> Journal
        ensures { result ≡ record { log = []; marks = [] } }
    {
        Journal {
            entries: Vec::new(alloc),
            marks: Vec::new(alloc),
            counts: Counts::new(alloc),
        }
    }

    /// The entries.
    pub(crate) fn entries(&self) -> &[Entry]
        ensures { result.now ≡ self.now.log }
    {
        &self.entries
    }

    /// Whether the log has as many entries as it may have.
    pub(crate) fn is_full(&self) -> bool
        ensures { IsTrue result ↔ (limit ≤ length self.now.log) }
    {
        self.entries.len() >= MAX_ENTRIES
    }

    /// Whether the transaction that began at the index is spent.
    pub(crate) fn is_spent(&self, place: usize) -> bool
        ensures { result ≡ mark_at self.now.marks place }
    {
        self.marks.get(place).copied().unwrap_or(false)
    }

    /// Adds an entry of the client. `take_back` undoes it.
    pub(crate) fn add(&mut self, client: u32, call: Call) -> Result<(), NoMemory>
        requires { length self.old.log < limit }
        ensures log { OnOk result (self.new.log ≡ jotted self.old.log client call) }
        ensures marks { OnOk result ((k : ℕ) → mark_at self.new.marks k ≡ mark_at self.old.marks k) }
        ensures undo { OnOk result (taken_back self.new ≡ self.old) }
        ensures err { OnErr result (self.new ≡ self.old) }
    {
        self.entries.reserve(1)?;
        self.marks.reserve(1)?;
        let number = self.counts.of(client);
        self.counts.add(client)?;
        self.marks.push(false).unwrap();
        self.entries
            .push(Entry {
                client,
                number,
                call,
            })
            .unwrap();
        Ok(())
    }

    /// Removes the last entry, if there is one. It takes no memory.
    pub(crate) fn take_back(&mut self)
        ensures { self.new ≡ taken_back self.old }
    {
        let count = self.entries.len();
        if count == 0 {
            return;
        }
        let client = self.entries[count - 1].client;
        self.counts.take_back(client);
        self.entries.truncate(count - 1);
        self.marks.truncate(count - 1);
    }

    /// Flags the transaction that began at the index as spent. It takes no memory.
    pub(crate) fn spend(&mut self, place: usize)
        requires { place < length self.old.log }
        ensures log { self.new.log ≡ self.old.log }
        ensures marks { (k : ℕ) → mark_at self.new.marks k ≡ (nat_eq place k || mark_at self.old.marks k) }
    {
        self.marks[place] = true;
    }
}
