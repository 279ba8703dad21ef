//! The indexes of the first operations at their paths, for both stores.
ghost use Rattle.std.specs.Prelude.{◌≡◌, ◌&&◌, [], List, OnOk, OnErr};
ghost use Rattle.std.specs.FinMap.{find};
ghost use Rattle.sal_types.specs.Order.{path_cmp, path_eq};
ghost use Rattle.sal_types.specs.declared.value.Step.{Step};
ghost use Rattle.sal_types.specs.declared.value.Store.{Store as StoreOf};
ghost use Rattle.sal_mod.specs.Covers.{noted, noted_at};
ghost use Rattle.sal_mod.specs.Early.{any_prefix, is_early};
ghost use Rattle.sal_mod.specs.Firsts.{places_in};

use crate::places::Places;
use sal_rows::Op;
use sal_types::{NoMemory, Path, Step, Store};
use std::alloc::Global;

/// The index of the first operation at each path, by store.
pub(crate) struct Firsts {
    pub(crate) config: Places,
    pub(crate) oper: Places,
}

impl Drop for Firsts {
    fn drop(self) {
        let Firsts { config: _, oper: _ } = self;
    }
}

impl Firsts {
    /// No indexes. It takes no memory.
    pub(crate) fn new(alloc: Global) -> Firsts
        ensures { (s : StoreOf) → places_in result s ≡ [] }
    {
        Firsts {
            config: Places::new(alloc),
            oper: Places::new(alloc),
        }
    }

    /// Whether the store has an index less than `before` at a prefix of the path. It takes no memory.
    pub(crate) fn is_early(&self, store: Store, path: &Path, before: usize) -> bool
        ensures { result ≡ any_prefix (λ q. is_early before (find path_cmp q (places_in self.now store))) path.now }
    {
        match store {
            Store::Config => is_early_on(&self.config, path.steps(), before),
            Store::Oper => is_early_on(&self.oper, path.steps(), before),
        }
    }

    /// Records the index of the operation, unless its path has one. If memory runs out, nothing changes.
    pub(crate) fn note(&mut self, alloc: Global, op: &Op, place: usize) -> Result<(), NoMemory>
        ensures ok { OnOk result ((s : StoreOf) (p : List Step) → find path_cmp p (places_in self.new s) ≡ noted s op.now place p (find path_cmp p (places_in self.old s))) }
        ensures err { OnErr result (self.new ≡ self.old) }
    {
        match op.store {
            Store::Config => note_at(alloc, &mut self.config, op.path.steps(), place),
            Store::Oper => note_at(alloc, &mut self.oper, op.path.steps(), place),
        }
    }
}

// Records the index at the path, unless it has one.
fn note_at(alloc: Global, places: &mut Places, steps: &[Step], place: usize) -> Result<(), NoMemory>
    ensures ok { OnOk result ((p : List Step) → find path_cmp p places.new ≡ noted_at steps.now place p (find path_cmp p places.old)) }
    ensures err { OnErr result (places.new ≡ places.old) }
{
    if places.at(steps).is_some() {
        return Ok(());
    }
    places.set(alloc, steps, place)?;
    Ok(())
}

// Whether the number at the steps is less than `before`, or that at a prefix of them.
fn is_early_on(places: &Places, steps: &[Step], before: usize) -> bool
    ensures { result ≡ any_prefix (λ q. is_early before (find path_cmp q places.now)) steps.now }
{
    for depth in 0..steps.len() {
        if is_early_at(places, &steps[..depth], before) {
            return true;
        }
    }
    is_early_at(places, steps, before)
}

fn is_early_at(places: &Places, steps: &[Step], before: usize) -> bool
    ensures { result ≡ is_early before (find path_cmp steps.now places.now) }
{
    match places.at(steps) {
        None => false,
        Some(place) => place < before,
    }
}
