//! Ranges: the numbers of a type, or the lengths of its texts (RFC 7950 sections 9.2.4 and 9.4.4).
ghost use Rattle.std.specs.Prelude.{◌≡◌, IfOk, IsTrue};
ghost use Rattle.std.specs.Cmp.Lexicographic.{pointwise, lists_per, lists_equiv};
ghost use Rattle.sal_restrict.specs.contracts.ranges.PartPartialEq.TheImpl as part_partial_eq;
ghost use Rattle.sal_restrict.specs.contracts.ranges.PartPartialEq.TheImpl.Laws as part_partial_eq_laws;
ghost use Rattle.sal_restrict.specs.contracts.ranges.PartEq.TheImpl.Laws as part_eq_laws;
ghost use Rattle.sal_restrict.specs.Ranges.{is_ascending, holds};

use sal_types::{Duplicate, NoMemory};
use std::alloc::Global;
use std::marker::Model;

/// The whole numbers from `low` to `high`, both included.
#[derive(Clone, Copy, PartialEq, Eq)]
pub struct Part {
    pub low: i128,
    pub high: i128,
}

/// Parts of the whole numbers, ascending and disjoint. A contract sees the list.
#[derive(Drop)]
pub struct Ranges {
    list: Vec<Part>,
}

impl Model for Ranges {
    ghost use Rattle.std.specs.Prelude.{List, IsTrue};
    ghost use Rattle.sal_restrict.specs.declared.ranges.Part.{Part};
    ghost use Rattle.sal_restrict.specs.Ranges.{is_ascending};

    ghost Value = { List Part };

    ghost view = { λ a. a.list.items };

    ghost invariant = { λ a. IsTrue (is_ascending a.list.items) };
}

impl Ranges {
    /// The ranges of these parts. It takes no memory.
    pub fn from_items(list: Vec<Part>) -> Self
        requires { IsTrue (is_ascending list.items) }
        ensures { result ≡ list.items }
    {
        Ranges { list }
    }

    /// The parts, from the lowest on.
    pub fn items(&self) -> &[Part]
        ensures all { result.now ≡ self.now }
        ensures order { IsTrue (is_ascending self.now) }
    {
        &self.list
    }

    /// Whether a part contains the number.
    pub fn holds(&self, number: i128) -> bool
        ensures { result ≡ holds self.now number }
    {
        self.list
            .iter()
            .any(|part| part.low <= number && number <= part.high)
    }
}

/// A copy of the parts.
fn parts_of(alloc: Global, parts: &[Part]) -> Result<Vec<Part>, NoMemory>
    ensures { IfOk result (λ list. list.items ≡ parts.now) }
{
    let mut list = Vec::with_capacity(alloc, parts.len())?;
    for part in parts {
        list.push(*part)?;
    }
    Ok(list)
}

impl Duplicate for Ranges {
    fn copy(&self) -> Result<Self, NoMemory> {
        let list = parts_of(*self.list.allocator(), &self.list)?;
        Ok(Ranges { list })
    }
}

impl PartialEq for Ranges {
    ghost eq = { pointwise (part_partial_eq.ghosts).eq };

    ghost laws = { lists_per part_partial_eq_laws.laws-law };

    fn eq(&self, other: &Self) -> bool {
        self.list == other.list
    }
}

impl Eq for Ranges {
    ghost laws = { lists_equiv part_eq_laws.laws-law };
}
