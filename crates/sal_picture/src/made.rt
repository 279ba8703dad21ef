//! The commits of a hub by their receipts.
ghost use Rattle.std.specs.Prelude.{◌≡◌, ◌-◌, ◌<◌, ◌^◌, ℕ, None, Some, IfOk, OnOk, if◌then◌else◌, length, map, nat_eq};
ghost use Rattle.std.specs.Option.{option_or};
ghost use Rattle.sal_commit.specs.Stamps.{first_receipt, receipts_of};
ghost use Rattle.sal_draw.specs.Acts.{made_in};
ghost use Rattle.sal_picture.specs.Made as spec;

use sal_commit::Domain;
use sal_hub::Hub;
use sal_shapes::Made;
use sal_tree::Commit;
use sal_types::NoMemory;
use std::alloc::Global;

type Table = Vec<Option<Made>>;

/// The largest number of submissions of a table; with more, the result is `NoMemory`.
const MAX_RECEIPTS: usize = 4611686018427387904;

// Extends the table to the index.
fn reach(table: &mut Table, index: usize) -> Result<(), NoMemory>
    requires { index < 2 ^ 62 }
    ensures long { OnOk result (index < length table.new.items) }
    ensures same { OnOk result ((i : ℕ) → made_in table.new.items i ≡ made_in table.old.items i) }
{
    if index < table.len() {
        return Ok(());
    }
    table.resize(index + 1, None)?;
    Ok(())
}

// Sets the commit, unless the receipt has one.
fn put(table: &mut Table, index: usize, made: Made)
    requires { index < length table.old.items }
    ensures { (i : ℕ) → made_in table.new.items i ≡ option_or (made_in table.old.items i) (if nat_eq index i then Some made else None) }
{
    if let None = table[index] {
        table[index] = Some(made);
    }
}

fn add_commit(table: &mut Table, receipt: u64, made: Made) -> Result<(), NoMemory>
    ensures { OnOk result ((i : ℕ) → made_in table.new.items i ≡ option_or (made_in table.old.items i) (spec.here made.domain made.number receipt i)) }
{
    if receipt == 0 {
        return Ok(());
    }
    let index = receipt as usize - 1;
    if index >= MAX_RECEIPTS {
        return Err(NoMemory);
    }
    reach(table, index)?;
    put(table, index, made);
    Ok(())
}

// The receipt of the opening, from which those of the commits are counted.
fn first_receipt(commits: &[Commit]) -> u64
    ensures { result ≡ first_receipt commits.now }
{
    match commits.first() {
        Some(opening) => opening.receipt,
        None => 0,
    }
}

fn add_domain(table: &mut Table, domain: u32, commits: &[Commit]) -> Result<(), NoMemory>
    ensures { OnOk result ((i : ℕ) → made_in table.new.items i ≡ option_or (made_in table.old.items i) (spec.made_from «domain» 0 (receipts_of commits.now) i)) }
{
    let first = first_receipt(commits);
    add_since(table, domain, commits, first)
}

// The receipt, counted from the first one on.
fn since(receipt: u64, first: u64) -> u64
    ensures { result ≡ receipt - first }
{
    receipt.saturating_sub(first)
}

// The commits by their receipts, counted from this one on.
fn add_since(table: &mut Table, domain: u32, commits: &[Commit], first: u64) -> Result<(), NoMemory>
    ensures { OnOk result ((i : ℕ) → made_in table.new.items i ≡ option_or (made_in table.old.items i) (spec.made_from «domain» 0 (spec.receipts_since first commits.now) i)) }
{
    for (number, commit) in commits.iter().enumerate() {
        let made = Made {
            domain,
            number: number as u64,
        };
        let receipt = since(commit.receipt, first);
        add_commit(table, receipt, made)?;
    }
    Ok(())
}

// The commits of these domains.
fn made_among(alloc: Global, domains: &[Domain]) -> Result<Table, NoMemory>
    requires { spec.AreNumbered domains.now }
    ensures { IfOk result (λ table. (i : ℕ) → made_in table.items i ≡ spec.made_among 0 (map spec.receipts_in domains.now) i) }
{
    let mut table = Vec::new(alloc);
    for domain in domains {
        add_domain(&mut table, domain.number, &domain.commits)?;
    }
    Ok(table)
}

/// The commits of a hub by their receipts, from index 0 on.
pub fn made_of(alloc: Global, hub: &Hub) -> Result<Vec<Option<Made>>, NoMemory>
    ensures { IfOk result (λ table. (i : ℕ) → made_in table.items i ≡ spec.made_at hub.now i) }
{
    made_among(alloc, hub.domains())
}
