//! Counts that fail when memory runs out.
ghost use Rattle.std.specs.Prelude.{◌≡◌, ◌+◌, IfOk};

use sal_types::{NoMemory, append};
use std::alloc::Global;
use std::marker::Model;

/// A count; a contract sees its number. Each item takes a byte of memory, so memory runs out before the count
/// exceeds every number.
#[derive(Drop)]
pub(crate) struct Tally {
    marks: Vec<u8>,
}

impl Model for Tally {
    ghost use Rattle.std.specs.Prelude.{ℕ, length};

    ghost Value = { ℕ };

    ghost view = { λ a. length a.marks.items };
}

impl Tally {
    pub(crate) fn new(alloc: Global) -> Tally
        ensures { result ≡ 0 }
    {
        Tally {
            marks: Vec::new(alloc),
        }
    }

    /// Counts one more.
    pub(crate) fn add(&mut self) -> Result<(), NoMemory>
        ensures { IfOk result (λ _. self.new ≡ self.old + 1) }
    {
        append(&mut self.marks, 0)
    }

    pub(crate) fn number(&self) -> usize
        ensures { result ≡ self.now }
    {
        self.marks.len()
    }
}
