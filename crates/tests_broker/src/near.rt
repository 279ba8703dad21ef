ghost use Rattle.std.specs.Prelude.{IfOk};
ghost use Rattle.sal_graft.specs.Kept.{AreKept};

use crate::commit::{changed, decided, opened};
use crate::entries::{add, add_entries, text_row};
use crate::ops::Wish;
use crate::schemas::{Shape, container, leaf, list};
use sal_commit::Domain;
use sal_graft::{conflict, foreign_spans};
use sal_mod::Mod;
use sal_rows::{Clash, Rules};
use sal_types::{NoMemory, Row};
use std::alloc::Global;
use std::test::Fail;

// The number of entries of the opening, and of repetitions of a decision and a conflict. If a decision looked at all rows, or a conflict
// at all commits, neither would end in the time of a test.
const CELLS: u64 = 200_000;

const TIMES: u64 = 100_000;

// The list 0 with its key 1 and the mandatory leaf 2, and the container 3 with the leafs 4 and 5.
fn shapes() -> [Shape; 6] {
    [
        list("cell", 1),
        leaf(0, "k", false),
        leaf(0, "v", true),
        container("box"),
        leaf(3, "a", false),
        leaf(3, "b", false),
    ]
}

// ---- an opening with many entries, and many commits of one leaf beside them

fn add_all(rows: &mut Vec<Row>, alloc: Global) -> Result<(), NoMemory> {
    add_entries(rows, alloc, CELLS)?;
    add(rows, text_row(alloc, 5, "o")?)
}

fn many(alloc: Global) -> Result<Domain, Fail>
    ensures { IfOk result (λ d. AreKept d.commits.items) }
{
    let mut rows = Vec::new(alloc);
    add_all(&mut rows, alloc)?;
    opened(alloc, &shapes(), rows)
}

// Whether `count` merges of the first leaf are done, one after another.
fn all_are_next(domain: &mut Domain, alloc: Global, count: u64) -> Result<bool, Fail>
    requires { AreKept domain.old.commits.items }
    ensures { IfOk result (λ b. AreKept domain.new.commits.items) }
{
    for _ in 0..count {
        let next = domain.commits.len() as u64;
        if decided(domain, alloc, Wish::Merge(4, "x"))? != next {
            return Ok(false);
        }
    }
    Ok(true)
}

// ---- conflicts over all of them

fn clash(alloc: Global, domain: &Domain, changes: &Mod) -> Result<Option<Clash>, Fail>
    requires { AreKept domain.now.commits.items }
{
    let spans = foreign_spans(alloc, 0, None, &domain.commits)?;
    let base = &domain.commits[0].trees;
    let found = conflict(changes, base, &spans, &domain.commits, Rules::One);
    Ok(found)
}

// Whether these changes never have a conflict.
fn is_free(alloc: Global, domain: &Domain, changes: &Mod, times: u64) -> Result<bool, Fail>
    requires { AreKept domain.now.commits.items }
{
    for _ in 0..times {
        if clash(alloc, domain, changes)?.is_some() {
            return Ok(false);
        }
    }
    Ok(true)
}

// Whether a put of the second leaf, which no commit touched, never has one.
fn is_second_free(alloc: Global, domain: &Domain) -> Result<bool, Fail>
    requires { AreKept domain.now.commits.items }
{
    let changes = changed(alloc, Wish::Put(5, "y"))?;
    is_free(alloc, domain, &changes, TIMES)
}

fn commit_of(clash: &Option<Clash>) -> u64 {
    match clash {
        None => 0,
        Some(found) => found.commit,
    }
}

// The commit that these changes are in conflict with, or 0.
fn named(alloc: Global, domain: &Domain, changes: &Mod) -> Result<u64, Fail>
    requires { AreKept domain.now.commits.items }
{
    let clash = clash(alloc, domain, changes)?;
    Ok(commit_of(&clash))
}

// The commit that a put of the first leaf is in conflict with.
fn named_by_first(alloc: Global, domain: &Domain) -> Result<u64, Fail>
    requires { AreKept domain.now.commits.items }
{
    let changes = changed(alloc, Wish::Put(4, "y"))?;
    named(alloc, domain, &changes)
}

fn asked(domain: &mut Domain, alloc: Global) -> Result<(bool, bool, u64), Fail>
    requires { AreKept domain.old.commits.items }
{
    let done = all_are_next(domain, alloc, TIMES)?;
    let free = is_second_free(alloc, domain)?;
    let named = named_by_first(alloc, domain)?;
    Ok((done, free, named))
}

fn decided_and_asked(alloc: Global) -> Result<(bool, bool, u64), Fail> {
    let mut domain = many(alloc)?;
    asked(&mut domain, alloc)
}

#[test]
fn near_and_stamps(rt: HostRuntime) -> Result<(), Fail> {
    assert_eq!(rt; decided_and_asked(rt.alloc())?, (true, true, TIMES));
    Ok(())
}
