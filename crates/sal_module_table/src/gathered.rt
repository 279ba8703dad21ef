//! Numbers, each once, in the order in which they came.
ghost use Rattle.std.specs.Prelude.{◌≡◌, ◌==◌, [], IfOk, slice_set};
ghost use Rattle.std.specs.List.{list_any};
ghost use Rattle.sal_module_table.specs.Identities.{with_number};
ghost use Rattle.sal_module_table.specs.Marks.{IsMarked};

use sal_types::NoMemory;
use std::alloc::Global;
use std::marker::Model;
use std::mem;

fn is_among(numbers: &[u32], k: u32) -> bool
    ensures { result ≡ list_any (λ j. j == k) numbers.now }
{
    numbers.iter().any(|j| *j == k)
}

/// As many marks, none of which is set.
fn unmarked(alloc: Global, size: usize) -> Result<Vec<bool>, NoMemory>
    ensures { IfOk result (λ marks. IsMarked marks.items []) }
{
    let marks = vec![in alloc; false; size]?;
    Ok(marks)
}

/// Sets or clears the mark of a number, if it has one.
fn set_mark(marks: &mut [bool], k: usize, mark: bool)
    ensures { marks.new ≡ slice_set marks.old k mark }
{
    if k < marks.len() {
        marks[k] = mark;
    }
}

/// Clears the marks of these numbers.
fn unmark(marks: &mut [bool], numbers: &[u32])
    requires { IsMarked marks.old numbers.now }
    ensures { IsMarked marks.new [] }
{
    for k in numbers {
        set_mark(marks, *k as usize, false);
    }
}

/// Numbers, each once, in the order in which they came. A contract sees their list.
///
/// A number below a size is found by its mark, any other by a search.
pub(crate) struct Gathered {
    // For each number below the size, whether it is one of them.
    marks: Vec<bool>,
    numbers: Vec<u32>,
}

impl Drop for Gathered {
    fn drop(self) {
        let Gathered {
            marks: _,
            numbers: _,
        } = self;
    }
}

impl Model for Gathered {
    ghost use Rattle.std.specs.Prelude.{List, ℕ};
    ghost use Rattle.sal_module_table.specs.Marks.{IsMarked};

    ghost Value = { List ℕ };

    ghost view = { λ a. a.numbers.items };

    ghost invariant = { λ a. IsMarked a.marks.items a.numbers.items };
}

impl Gathered {
    /// No numbers, with marks for those below the size.
    pub(crate) fn new(alloc: Global, size: usize) -> Result<Gathered, NoMemory>
        ensures { IfOk result (λ made. made ≡ []) }
    {
        let marks = unmarked(alloc, size)?;
        Ok(Gathered {
            marks,
            numbers: Vec::new(alloc),
        })
    }

    fn has(&self, k: u32) -> bool
        ensures { result ≡ list_any (λ j. j == k) self.now }
    {
        match self.marks.get(k as usize) {
            Some(mark) => *mark,
            None => is_among(&self.numbers, k),
        }
    }

    /// Appends the number, unless it is one of them.
    pub(crate) fn add(&mut self, k: u32) -> Result<(), NoMemory>
        ensures { IfOk result (λ _. self.new ≡ with_number self.old k) }
    {
        if !self.has(k) {
            self.numbers.push(k)?;
            set_mark(&mut self.marks, k as usize, true);
        }
        Ok(())
    }

    /// Hands out the numbers, and has none of them from then on. It takes no memory.
    pub(crate) fn take(&mut self) -> Vec<u32>
        ensures row { result.items ≡ self.old }
        ensures empty { self.new ≡ [] }
    {
        let alloc = *self.numbers.allocator();
        unmark(&mut self.marks, &self.numbers);
        mem::replace(&mut self.numbers, Vec::new(alloc))
    }
}
