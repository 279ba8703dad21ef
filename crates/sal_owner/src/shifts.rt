//! The changes of owners, kept once for all clients.
ghost use Rattle.std.specs.Prelude.{◌≡◌, ◌&&◌, ◌||◌, [], ◌∷◌, ◌++◌, ℕ, List, false, drop, length, if◌then◌else◌, nat_le, IfOk, OnErr, OnOk};
ghost use Rattle.std.specs.BTreeMap.{is_at};
ghost use Rattle.std.specs.List.{fold};
ghost use Rattle.std.specs.List.Sorted.{IsNonDecreasing, IsStrictlySortedBy};
ghost use Rattle.std.specs.Map.{keys_of};
ghost use Rattle.std.specs.Ordering.{nat_cmp};
ghost use Rattle.sal_owner.specs.Kept.{shift_for, text_cmp, told_from};
ghost use Rattle.sal_owner.specs.Shifts.{due_by, has_number, is_due, numbers_at, told_at, told_over};

use crate::entity::{Entity, OwnerChange};
use crate::numbers::{Numbers, add_from};
use crate::shift::Shift;
use crate::watched::Watched;
use sal_types::{Duplicate, NoMemory, Str};
use std::alloc::Global;
use std::collections::BTreeMap;
use std::marker::Model;

/// The changes of owners, in order. A contract sees their list.
#[derive(Drop)]
pub(crate) struct Shifts {
    list: Vec<Shift>,
    // The numbers of the changes of each kind.
    numbers: BTreeMap<Str, Numbers>,
}

impl Model for Shifts {
    ghost use Rattle.std.specs.Prelude.{List};
    ghost use Rattle.sal_owner.specs.declared.shift.Shift.{Shift};
    ghost use Rattle.sal_owner.specs.Shifts.{IsNumbered};

    ghost Value = { List Shift };

    ghost view = { λ a. a.list.items };

    ghost invariant = { λ a. IsNumbered a.list.items a.numbers.entries };
}

impl Shifts {
    /// No changes. It takes no memory.
    pub(crate) fn new(alloc: Global) -> Shifts
        ensures { result ≡ [] }
    {
        Shifts {
            list: Vec::new(alloc),
            numbers: BTreeMap::new(alloc),
        }
    }

    /// How many changes there are. It takes no memory.
    pub(crate) fn len(&self) -> usize
        ensures { result ≡ length self.now }
    {
        self.list.len()
    }

    /// Adds a change, if the two owners differ.
    pub(crate) fn note(
        &mut self,
        alloc: Global,
        entity: &Entity,
        before: Option<u32>,
        after: Option<u32>,
    ) -> Result<(), NoMemory>
        ensures ok { OnOk result (self.new ≡ self.old ++ shift_for entity.now before after) }
        ensures err { OnErr result (self.new ≡ self.old) }
    {
        if before == after {
            return Ok(());
        }
        let entity = entity.copy()?;
        self.add(
            alloc,
            Shift {
                entity,
                before,
                after,
            },
        )
    }

    // Adds the change.
    fn add(&mut self, alloc: Global, shift: Shift) -> Result<(), NoMemory>
        ensures ok { OnOk result (self.new ≡ self.old ++ shift ∷ []) }
        ensures err { OnErr result (self.new ≡ self.old) }
    {
        self.list.reserve(1)?;
        number(
            alloc,
            &mut self.numbers,
            &shift.entity.kind,
            self.list.len(),
        )?;
        self.list.push(shift).unwrap();
        Ok(())
    }

    /// How the client, which watches these kinds, sees the changes from this number on.
    pub(crate) fn told(
        &self,
        alloc: Global,
        kinds: &Watched,
        client: u32,
        from: usize,
    ) -> Result<Vec<OwnerChange>, NoMemory>
        ensures { IfOk result (λ list. list.items ≡ told_from kinds.now client from (drop from self.now)) }
    {
        let due = due_of(alloc, &self.numbers, kinds.starts(), from)?;
        told_all(alloc, &self.list, &due, client)
    }
}

// Adds a number to the kind's list.
fn number(
    alloc: Global,
    numbers: &mut BTreeMap<Str, Numbers>,
    kind: &Str,
    n: usize,
) -> Result<(), NoMemory>
    ensures ok { OnOk result ((k : List ℕ) → numbers_at numbers.new.entries k ≡ (if is_at (text_cmp kind.now) k then numbers_at numbers.old.entries kind.now ++ n ∷ [] else numbers_at numbers.old.entries k)) }
    ensures err { OnErr result (numbers.new.entries ≡ numbers.old.entries) }
{
    if let Some(of_kind) = numbers.get_mut(kind) {
        return of_kind.add(n);
    }
    let of_kind = Numbers::one(alloc, n)?;
    let key = kind.copy()?;
    numbers.insert(key, of_kind)?;
    Ok(())
}

// The numbers from this one on of the changes of these kinds, for each kind from its start on.
fn due_of(
    alloc: Global,
    numbers: &BTreeMap<Str, Numbers>,
    kinds: &BTreeMap<Str, usize>,
    from: usize,
) -> Result<BTreeMap<usize, ()>, NoMemory>
    requires { (k : List ℕ) → IsNonDecreasing (numbers_at numbers.now.entries k) }
    ensures due { IfOk result (λ due. (n : ℕ) → is_due due.entries n ≡ due_by numbers.now.entries from n kinds.now.entries false) }
    ensures kinds_ordered { IsStrictlySortedBy text_cmp (keys_of kinds.now.entries) }
{
    let mut due = BTreeMap::new(alloc);
    for (kind, start) in kinds {
        add_kind(&mut due, numbers, kind, *start, from)?;
    }
    Ok(due)
}

// Adds the numbers of the changes of the kind that are at least both of these.
fn add_kind(
    due: &mut BTreeMap<usize, ()>,
    numbers: &BTreeMap<Str, Numbers>,
    kind: &Str,
    start: usize,
    from: usize,
) -> Result<(), NoMemory>
    requires { IsNonDecreasing (numbers_at numbers.now.entries kind.now) }
    ensures { OnOk result ((n : ℕ) → is_due due.new.entries n ≡ (is_due due.old.entries n || has_number numbers.now.entries from n (kind.now, start))) }
{
    match numbers.get(kind) {
        None => Ok(()),
        Some(of_kind) => add_from(due, of_kind.items(), later(start, from)),
    }
}

fn later(a: usize, b: usize) -> usize
    ensures { (n : ℕ) → nat_le result n ≡ (nat_le a n && nat_le b n) }
{
    if a < b { b } else { a }
}

// How the client sees the changes with these numbers.
fn told_all(
    alloc: Global,
    shifts: &[Shift],
    due: &BTreeMap<usize, ()>,
    client: u32,
) -> Result<Vec<OwnerChange>, NoMemory>
    ensures list { IfOk result (λ list. list.items ≡ told_over client shifts.now [] due.now.entries) }
    ensures ordered { IsStrictlySortedBy nat_cmp (keys_of due.now.entries) }
{
    let mut list = Vec::new(alloc);
    for (n, _) in due {
        add_told(&mut list, shifts, *n, client)?;
    }
    Ok(list)
}

// Adds the change with this number, as the client sees it, if there is one.
fn add_told(
    list: &mut Vec<OwnerChange>,
    shifts: &[Shift],
    n: usize,
    client: u32,
) -> Result<(), NoMemory>
    ensures { OnOk result (list.new.items ≡ list.old.items ++ told_at client shifts.now n) }
{
    if n >= shifts.len() {
        return Ok(());
    }
    let change = shifts[n].told(client)?;
    list.push(change)?;
    Ok(())
}
