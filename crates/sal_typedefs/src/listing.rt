//! Look-ups among the names of an enumeration or of bits.
ghost use Rattle.std.specs.Prelude.{◌≡◌, ◌≤ℤ◌, ◌++◌, ◌∷◌, [], ◌<◌, length, is_some, IfOk};
ghost use Rattle.std.specs.Option.{option_copied};
ghost use Rattle.std.specs.List.{slice_get};
ghost use Rattle.sal_typedefs.specs.Entries as entries_spec;
ghost use Rattle.sal_typedefs.specs.Listings as spec;

use crate::block::{Numbers, define};
use crate::entry::Entry;
use crate::numbering::next_after;
use sal_types::{NoMemory, append};
use std::alloc::Global;
use std::collections::{BTreeMap, BTreeSet};
use std::marker::Model;

/// The index of the first of these entries with each name.
fn names_of<'e>(alloc: Global, entries: &'e [Entry]) -> Result<Numbers<'e>, NoMemory>
    ensures { IfOk result (λ names. spec.AreNames entries.now names) }
{
    let mut names = BTreeMap::new(alloc);
    for (k, entry) in entries.iter().enumerate() {
        define(&mut names, entry.name.as_str(), k)?;
    }
    Ok(names)
}

fn entry_at(entries: &[Entry], k: usize) -> Option<&Entry>
    ensures { option_copied result ≡ slice_get entries.now k }
{
    entries.get(k)
}

/// The names from which a statement chooses, by name. A contract sees their list.
#[derive(Drop)]
pub(crate) struct Choices<'e> {
    entries: &'e [Entry],
    names: Numbers<'e>,
}

impl<'e> Model for Choices<'e> {
    ghost use Rattle.std.specs.Prelude.{List};
    ghost use Rattle.sal_typedefs.specs.declared.entry.Entry.{Entry as One};
    ghost use Rattle.sal_typedefs.specs.Listings.{AreNames};

    ghost Value = { List One };

    ghost view = { λ a. a.entries.now };

    ghost invariant = { λ a. AreNames a.entries.now a.names };
}

impl<'e> Choices<'e> {
    /// The same entries by name. It takes time and memory linear in them, with the logarithm of their count for each.
    pub(crate) fn new(alloc: Global, entries: &'e [Entry]) -> Result<Choices<'e>, NoMemory>
        ensures { IfOk result (λ choices. choices ≡ entries.now) }
    {
        let names = names_of(alloc, entries)?;
        Ok(Choices { entries, names })
    }

    /// The first entry with this name.
    pub(crate) fn named(&self, name: &str) -> Option<&'e Entry>
        ensures { option_copied result ≡ entries_spec.named name.now self.now }
    {
        match self.names.get(name) {
            None => None,
            Some(k) => entry_at(self.entries, *k),
        }
    }
}

/// Entries of statements, and the index of the first one with each name.
#[derive(Drop)]
pub(crate) struct Named<'s> {
    pub(crate) entries: Vec<Entry>,
    pub(crate) names: Numbers<'s>,
}

impl<'s> Named<'s> {
    pub(crate) fn new(alloc: Global) -> Named<'s>
        ensures none { result.entries.items ≡ [] }
        ensures names { spec.AreNames result.entries.items result.names }
    {
        Named {
            entries: Vec::new(alloc),
            names: BTreeMap::new(alloc),
        }
    }

    /// Whether an entry has this name.
    pub(crate) fn has_name(&self, name: &str) -> bool
        requires { spec.AreNames self.now.entries.items self.now.names }
        ensures { result ≡ entries_spec.has_name name.now self.now.entries.items }
    {
        self.names.contains_key(name)
    }

    /// Appends an entry with this name.
    pub(crate) fn push(&mut self, name: &'s str, entry: Entry) -> Result<(), NoMemory>
        requires names { spec.AreNames self.old.entries.items self.old.names }
        requires named { entry.name ≡ name.now }
        ensures entries { IfOk result (λ _. self.new.entries.items ≡ self.old.entries.items ++ entry ∷ []) }
        ensures names { IfOk result (λ _. spec.AreNames self.new.entries.items self.new.names) }
    {
        define(&mut self.names, name, self.entries.len())?;
        append(&mut self.entries, entry)?;
        Ok(())
    }
}

/// Entries that a statement defines, with look-ups of their names and numbers, and the next number.
#[derive(Drop)]
pub(crate) struct Listing<'s> {
    pub(crate) named: Named<'s>,
    pub(crate) numbers: BTreeSet<i128>,
    pub(crate) next: i128,
}

impl<'s> Listing<'s> {
    pub(crate) fn new(alloc: Global) -> Listing<'s>
        ensures none { result.named.entries.items ≡ [] }
        ensures listing { spec.IsListing result }
    {
        Listing {
            named: Named::new(alloc),
            numbers: BTreeSet::new(alloc),
            next: 0,
        }
    }

    /// Whether an entry has this number.
    pub(crate) fn has_number(&self, number: i128) -> bool
        requires { spec.IsListing self.now }
        ensures { result ≡ entries_spec.has_number number self.now.named.entries.items }
    {
        self.numbers.contains(&number)
    }

    /// Appends an entry with this name.
    pub(crate) fn push(&mut self, name: &'s str, entry: Entry) -> Result<(), NoMemory>
        requires listing { spec.IsListing self.old }
        requires named { entry.name ≡ name.now }
        requires small { entry.number ≤ℤ entries_spec.bound (length self.old.named.entries.items) }
        ensures entries { IfOk result (λ _. self.new.named.entries.items ≡ self.old.named.entries.items ++ entry ∷ []) }
        ensures listing { IfOk result (λ _. spec.IsListing self.new) }
    {
        let next = next_after(self.named.entries.as_slice(), self.next, &entry);
        self.numbers.insert(entry.number)?;
        self.named.push(name, entry)?;
        self.next = next;
        Ok(())
    }
}
