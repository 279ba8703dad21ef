//! Numbers of changes of owners.
ghost use Rattle.std.specs.Prelude.{◌≡◌, ◌&&◌, ◌||◌, [], ◌∷◌, ◌++◌, ℕ, false, nat_eq, nat_le, length, IfOk, OnErr, OnOk};
ghost use Rattle.std.specs.List.{fold, list_any};
ghost use Rattle.std.specs.List.Sorted.{IsNonDecreasing};
ghost use Rattle.sal_owner.specs.Shifts.{is_due};

use sal_types::NoMemory;
use std::alloc::Global;
use std::collections::BTreeMap;
use std::marker::Model;

/// Numbers of changes, in order. A contract sees their list.
#[derive(Drop)]
pub(crate) struct Numbers {
    list: Vec<usize>,
}

impl Model for Numbers {
    ghost use Rattle.std.specs.Prelude.{List, ℕ};

    ghost Value = { List ℕ };

    ghost view = { λ a. a.list.items };
}

impl Numbers {
    /// One number.
    pub(crate) fn one(alloc: Global, number: usize) -> Result<Numbers, NoMemory>
        ensures { IfOk result (λ numbers. numbers ≡ number ∷ []) }
    {
        let mut list = Vec::new(alloc);
        list.push(number)?;
        Ok(Numbers { list })
    }

    /// Appends the number.
    pub(crate) fn add(&mut self, number: usize) -> Result<(), NoMemory>
        ensures ok { OnOk result (self.new ≡ self.old ++ number ∷ []) }
        ensures err { OnErr result (self.new ≡ self.old) }
    {
        self.list.push(number)?;
        Ok(())
    }

    /// The numbers.
    pub(crate) fn items(&self) -> &[usize]
        ensures { result.now ≡ self.now }
    {
        &self.list
    }
}

/// Adds the numbers that are at least `from` to `due`.
pub(crate) fn add_from(
    due: &mut BTreeMap<usize, ()>,
    numbers: &[usize],
    from: usize,
) -> Result<(), NoMemory>
    requires { IsNonDecreasing numbers.now }
    ensures { OnOk result ((n : ℕ) → is_due due.new.entries n ≡ (is_due due.old.entries n || (nat_le from n && list_any (nat_eq n) numbers.now))) }
{
    let first = numbers.partition_point(|number| *number < from);
    add_all(due, &numbers[first..])
}

fn add_all(due: &mut BTreeMap<usize, ()>, numbers: &[usize]) -> Result<(), NoMemory>
    ensures { OnOk result ((n : ℕ) → is_due due.new.entries n ≡ fold (λ b x. nat_eq x n || b) (is_due due.old.entries n) numbers.now) }
{
    for number in numbers {
        add_one(due, *number)?;
    }
    Ok(())
}

fn add_one(due: &mut BTreeMap<usize, ()>, number: usize) -> Result<(), NoMemory>
    ensures { OnOk result ((n : ℕ) → is_due due.new.entries n ≡ (nat_eq number n || is_due due.old.entries n)) }
{
    due.insert(number, ())?;
    Ok(())
}
