ghost use Rattle.std.specs.Prelude.{◌+◌, ◌*◌, ◌≤◌, IfOk};
ghost use Rattle.sal_graft.specs.Kept.{AreKept};
ghost use Rattle.sal_commit.specs.Deciding.{IsFor};
ghost use Rattle.sal_commit.specs.Stamps.{IsNewReceipt};

use crate::commit::{opened, prepared, submission};
use crate::entries::add_entries;
use crate::ops::Wish;
use crate::schemas::{Shape, leaf, list};
use sal_commit::Domain;
use sal_node::Child;
use sal_tree::Root;
use sal_tx::Submission;
use sal_types::NoMemory;
use std::alloc::Global;
use std::test::Fail;

// The list 0 with its key 1 and the leaf 2, as a load has it.
fn shapes() -> [Shape; 3] {
    [list("cell", 1), leaf(0, "k", false), leaf(0, "v", false)]
}

// ---- the nodes of a tree

fn add_children<'a>(
    nodes: &mut Vec<&'a Child>,
    alloc: Global,
    child: &'a Child,
) -> Result<(), NoMemory> {
    nodes.append(&mut child.node.children(alloc)?)?;
    Ok(())
}

// Adds all nodes below those that are listed, one level after another.
fn add_below(nodes: &mut Vec<&Child>, alloc: Global) -> Result<(), NoMemory> {
    for place in 0..1_000_000usize {
        let Some(&child) = nodes.get(place) else {
            return Ok(());
        };
        add_children(nodes, alloc, child)?;
    }
    Ok(())
}

// How many of them have the stamp.
fn count(nodes: &[&Child], stamp: u64) -> usize {
    let mut count = 0usize;
    for child in nodes {
        if child.node.stamp() == stamp {
            count = count.saturating_add(1);
        }
    }
    count
}

// The stamp of the root; of the nodes below it how many have the stamp of the first receipt, and how many that of the opening; and the number
// of all.
fn counts(alloc: Global, root: &Root) -> Result<[usize; 4], NoMemory> {
    let mut nodes = root.node().children(alloc)?;
    add_below(&mut nodes, alloc)?;
    let (made, kept) = (count(&nodes, 3), count(&nodes, 0));
    Ok([root.node().stamp() as usize, made, kept, nodes.len()])
}

fn many(alloc: Global) -> Result<Domain, Fail>
    ensures { IfOk result (λ d. AreKept d.commits.items) }
{
    let mut rows = Vec::new(alloc);
    add_entries(&mut rows, alloc, 10_000)?;
    opened(alloc, &shapes(), rows)
}

// The nodes of the configuration after the submission.
fn counted(alloc: Global, domain: &Domain, sub: &Submission) -> Result<[usize; 4], Fail>
    requires given { IsFor domain.now sub.now }
    requires later { IsNewReceipt domain.now.commits.items sub.now.receipt }
{
    let prepared = prepared(alloc, domain, sub)?;
    Ok(counts(alloc, &prepared.commit.trees.config)?)
}

// Those after one entry more is put.
fn put_in(alloc: Global, domain: &Domain) -> Result<[usize; 4], Fail>
    requires { AreKept domain.now.commits.items }
{
    let sub = submission(alloc, domain, Wish::PutEntry(10_000))?;
    counted(alloc, domain, &sub)
}

fn one_more(alloc: Global) -> Result<[usize; 4], Fail> {
    let domain = many(alloc)?;
    put_in(alloc, &domain)
}

// The put has three rows, and the paths to each of them have at most 33 nodes, the root and one for each of at most 32 steps: so a
// decision makes at most 99 of the 30,005 nodes. It makes five: the root, and below it the list, the entry, its key and its leaf. All others
// are those of the opening.
#[test]
fn a_decision_makes_the_nodes_on_the_way(rt: HostRuntime) -> Result<(), Fail> {
    assert_eq!(rt; one_more(rt.alloc())?, [3, 4, 30_000, 30_004]);
    Ok(())
}
