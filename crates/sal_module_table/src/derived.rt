//! The identities from which identities are derived.
ghost use Rattle.std.specs.Prelude.{◌≡◌, ◌∷◌, ◌<◌, ◌^◌, ℕ, [], All, fold, length, IfOk, slice_index_or, if◌then◌else◌, ◌==◌};
ghost use Rattle.sal_grouping.specs.Indexes.{lists};
ghost use Rattle.sal_module_table.specs.Orders.{rows, IsOrdered};
ghost use Rattle.sal_module_table.specs.Identities as spec;

use crate::gathered::Gathered;
use crate::order::{Order, order_of, out_of, stands_at};
use sal_types::{NoMemory, append};
use std::alloc::Global;

fn add_all(gathered: &mut Gathered, numbers: &[u32]) -> Result<(), NoMemory>
    ensures { IfOk result (λ _. gathered.new ≡ fold spec.with_number gathered.old numbers.now) }
{
    for k in numbers {
        gathered.add(*k)?;
    }
    Ok(())
}

fn row_at(all: &[Vec<u32>], k: usize) -> &[u32]
    ensures { result.now ≡ slice_index_or (rows all.now) k [] }
{
    if k < all.len() { &all[k] } else { &[] }
}

/// Adds a base, and the identities from which it is derived.
fn add_with(gathered: &mut Gathered, base: usize, above: &[u32]) -> Result<(), NoMemory>
    requires { base < 2 ^ 32 }
    ensures { IfOk result (λ _. gathered.new ≡ fold spec.with_number gathered.old (base ∷ above.now)) }
{
    gathered.add(base as u32)?;
    add_all(gathered, above)
}

/// Adds bases, each with the identities from which it is derived.
fn join(gathered: &mut Gathered, all: &[Vec<u32>], bases: &[usize]) -> Result<(), NoMemory>
    requires none { gathered.old ≡ [] }
    requires small { All (λ b. b < 2 ^ 32) bases.now }
    ensures { IfOk result (λ _. gathered.new ≡ spec.joined (λ b. slice_index_or (rows all.now) b []) bases.now) }
{
    for base in bases {
        add_with(gathered, *base, row_at(all, *base))?;
    }
    Ok(())
}

/// Computes the list of this number from those before it.
fn place_row(
    all: &mut Vec<Vec<u32>>,
    gathered: &mut Gathered,
    edges: &[Vec<usize>],
    i: usize,
) -> Result<(), NoMemory>
    requires none { gathered.old ≡ [] }
    requires count { length (rows all.old.items) ≡ length (lists edges.now) }
    requires small { spec.AreSmall (lists edges.now) }
    ensures none { IfOk result (λ _. gathered.new ≡ []) }
    ensures count { IfOk result (λ _. length (rows all.new.items) ≡ length (rows all.old.items)) }
    ensures each { IfOk result (λ _. (k : ℕ) → k < length (lists edges.now) → slice_index_or (rows all.new.items) k [] ≡
        (if i == k then spec.joined (λ b. slice_index_or (rows all.old.items) b []) (slice_index_or (lists edges.now) k []) else slice_index_or (rows all.old.items) k [])) }
{
    if i < edges.len() {
        join(gathered, all, out_of(edges, i))?;
        all[i] = gathered.take();
    }
    Ok(())
}

fn empty_rows(alloc: Global, count: usize) -> Result<Vec<Vec<u32>>, NoMemory>
    ensures { IfOk result (λ all. length (rows all.items) ≡ count) }
{
    let mut all = Vec::with_capacity(alloc, count)?;
    for i in 0..count {
        append(&mut all, Vec::new(alloc))?;
    }
    Ok(all)
}

/// The identities from which each identity is derived, by an order in which its bases come before it.
fn derived_by(alloc: Global, edges: &[Vec<usize>], order: &Order) -> Result<Vec<Vec<u32>>, NoMemory>
    requires order { IsOrdered (lists edges.now) order.now.ranks.items order.now.order.items }
    requires small { spec.AreSmall (lists edges.now) }
    ensures count { IfOk result (λ all. length (rows all.items) ≡ length (lists edges.now)) }
    ensures each { IfOk result (λ all. (k : ℕ) → k < length (lists edges.now) → slice_index_or (rows all.items) k [] ≡ spec.derived_from (lists edges.now) k) }
{
    let mut all = empty_rows(alloc, edges.len())?;
    let mut gathered = Gathered::new(alloc, edges.len())?;
    for r in 0..order.order.len() {
        let i = stands_at(&order.order, r, edges.len());
        place_row(&mut all, &mut gathered, edges, i)?;
    }
    Ok(all)
}

/// The identities from which one is derived in at most this many steps.
fn derived_in(
    alloc: Global,
    edges: &[Vec<usize>],
    steps: usize,
    i: usize,
) -> Result<Vec<u32>, NoMemory>
    requires { spec.AreSmall (lists edges.now) }
    ensures { IfOk result (λ row. row.items ≡ spec.derived steps (lists edges.now) i) }
{
    if steps == 0 {
        return Ok(Vec::new(alloc));
    }
    let mut gathered = Gathered::new(alloc, 0)?;
    for base in out_of(edges, i) {
        let above = derived_in(alloc, edges, steps - 1, *base)?;
        add_with(&mut gathered, *base, &above)?;
    }
    Ok(gathered.take())
}

/// The same for each identity, for edges that may have cycles.
fn derived_slowly(alloc: Global, edges: &[Vec<usize>]) -> Result<Vec<Vec<u32>>, NoMemory>
    requires { spec.AreSmall (lists edges.now) }
    ensures count { IfOk result (λ all. length (rows all.items) ≡ length (lists edges.now)) }
    ensures each { IfOk result (λ all. (k : ℕ) → k < length (lists edges.now) → slice_index_or (rows all.items) k [] ≡ spec.derived_from (lists edges.now) k) }
{
    let mut all = Vec::with_capacity(alloc, edges.len())?;
    for i in 0..edges.len() {
        append(&mut all, derived_in(alloc, edges, edges.len(), i)?)?;
    }
    Ok(all)
}

/// The identities from which each identity is derived: its bases, and those from which they are derived.
///
/// Each is computed once, after its bases. If a path leads into a cycle, which is a fault found before, each
/// path is followed by itself.
pub(crate) fn derived_of(alloc: Global, edges: &[Vec<usize>]) -> Result<Vec<Vec<u32>>, NoMemory>
    requires { spec.AreSmall (lists edges.now) }
    ensures count { IfOk result (λ all. length (rows all.items) ≡ length (lists edges.now)) }
    ensures each { IfOk result (λ all. (k : ℕ) → k < length (lists edges.now) → slice_index_or (rows all.items) k [] ≡ spec.derived_from (lists edges.now) k) }
{
    match order_of(alloc, edges)? {
        None => derived_slowly(alloc, edges),
        Some(order) => derived_by(alloc, edges, &order),
    }
}
