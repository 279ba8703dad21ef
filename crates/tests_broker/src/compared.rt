ghost use Rattle.std.specs.Prelude.{◌≡◌, ◌+◌, ◌<◌, IfOk, length, slice_index_or};
ghost use Rattle.sal_delta.specs.Agreed.{AreAgreed};
ghost use Rattle.sal_graft.specs.Kept.{AreKept};

use crate::commit::{decided, opened, outcome_of};
use crate::entries::{add_entries, entry};
use crate::ops::{Wish, lies_below, op_of};
use crate::schemas::{Shape, container, leaf, list};
use sal_check::check_all;
use sal_commit::Domain;
use sal_delta::changes;
use sal_listen::{Listened, batch};
use sal_rows::{Breach, Change, ChangeList, Op, Outcome, Rows, Rule, apply};
use sal_tree::{Commit, Root};
use sal_tx::edited;
use sal_types::{NoMemory, Path, Store};
use std::alloc::Global;
use std::test::Fail;

// Calls that no other crate makes, or that find the broker's results in another way: each compared with the other way.

// The list 0 with its key 1 and the mandatory leaf 2, and the container 3 with the leaf 4.
fn shapes() -> [Shape; 5] {
    [
        list("cell", 1),
        leaf(0, "k", false),
        leaf(0, "v", true),
        container("box"),
        leaf(3, "a", false),
    ]
}

// A domain with ten entries.
fn ten(alloc: Global) -> Result<Domain, Fail>
    ensures { IfOk result (λ d. AreKept d.commits.items) }
{
    let mut rows = Vec::new(alloc);
    add_entries(&mut rows, alloc, 10)?;
    opened(alloc, &shapes(), rows)
}

// ---- structural rules: the check of a whole tree, and that of what a decision changes

// The newest configuration after the operation.
fn tree_after(alloc: Global, domain: &Domain, op: &Op) -> Result<Root, Fail> {
    let Some(newest) = domain.commits.last() else {
        return Err("no opening".into());
    };
    if !lies_below(op) {
        return Err("rows beside the path".into());
    }
    Ok(edited(alloc, &newest.trees.config, op, 9)?)
}

// The breach of the whole tree after the operation.
fn whole(alloc: Global, domain: &Domain, wish: Wish) -> Result<Option<Breach>, Fail> {
    let op = op_of(alloc, wish)?;
    let tree = tree_after(alloc, domain, &op)?;
    Ok(check_all(alloc, &domain.schema, Store::Config, &tree)?)
}

// The number of the leaf that is missing at the path; 0 if no rule is broken, and 9 if another one is.
fn missing_in(breach: &Option<Breach>, path: &Path) -> u32 {
    match breach {
        None => 0,
        Some(breach) => missing(breach.rule, &breach.path, path),
    }
}

fn missing_by(outcome: &Outcome, path: &Path) -> u32 {
    match outcome {
        Outcome::Done { .. } => 0,
        Outcome::Invalid {
            store: Store::Config,
            path: at,
            rule,
        } => missing(*rule, at, path),
        _ => 9,
    }
}

fn missing(rule: Rule, at: &Path, path: &Path) -> u32 {
    match rule {
        Rule::Mandatory(node) if at == path => node,
        _ => 9,
    }
}

// The missing leaf by the check of the whole tree, and by the decision.
fn both_missing(domain: &mut Domain, alloc: Global, wish: Wish) -> Result<[u32; 2], Fail>
    requires { AreKept domain.old.commits.items }
    ensures { IfOk result (λ o. AreKept domain.new.commits.items) }
{
    let path = entry(alloc, 10)?;
    let whole = missing_in(&whole(alloc, domain, wish)?, &path);
    let near = missing_by(&outcome_of(domain, alloc, wish)?, &path);
    Ok([whole, near])
}

fn checked(domain: &mut Domain, alloc: Global) -> Result<[[u32; 2]; 2], Fail>
    requires { AreKept domain.old.commits.items }
{
    let without = both_missing(domain, alloc, Wish::PutBare(10))?;
    let with = both_missing(domain, alloc, Wish::PutEntry(10))?;
    Ok([without, with])
}

fn checked_ten(alloc: Global) -> Result<[[u32; 2]; 2], Fail> {
    let mut domain = ten(alloc)?;
    checked(&mut domain, alloc)
}

#[test]
fn whole_and_near_check_agree(rt: HostRuntime) -> Result<(), Fail> {
    assert_eq!(rt; checked_ten(rt.alloc())?, [[2, 2], [0, 0]]);
    Ok(())
}

// ---- changes: those of both trees, and those that a commit's operations find

fn commit_at(commits: &[Commit], number: usize) -> &Commit
    requires { number < length commits.now }
    ensures { result.now ≡ slice_index_or commits.now number result.now }
{
    &commits[number]
}

// The changes of the commit after the one of this number at the path, by both trees.
fn by_trees(
    alloc: Global,
    commits: &[Commit],
    number: usize,
    path: &Path,
) -> Result<ChangeList, NoMemory>
    requires number { number + 1 < length commits.now }
    requires agreed { AreAgreed commits.now }
{
    let before = commit_at(commits, number);
    let after = commit_at(commits, number + 1);
    changes(alloc, &before.trees.config, &after.trees.config, path)
}

fn is_same(one: &Change, other: &Change) -> bool {
    (one.path == other.path && one.before == other.before) && one.after == other.after
}

// The number of changes, if both lists have the same; else none.
fn count_same(by_trees: &[Change], by_ops: &[Change]) -> usize {
    let mut count = 0usize;
    for (one, other) in by_trees.iter().zip(by_ops) {
        if is_same(one, other) {
            count = count.saturating_add(1);
        }
    }
    if count == by_trees.len() && count == by_ops.len() {
        count
    } else {
        0
    }
}

// The same by the commit's operations, which a listener's batch uses: the number of changes by both ways.
fn found_twice(
    alloc: Global,
    commits: &[Commit],
    number: usize,
    path: &Path,
) -> Result<usize, NoMemory>
    requires number { number + 1 < length commits.now }
    requires kept { AreKept commits.now }
    requires agreed { AreAgreed commits.now }
{
    let by_trees = by_trees(alloc, commits, number, path)?;
    let listened = Listened {
        store: Store::Config,
        path,
        own: false,
    };
    let batch = batch(alloc, &listened, commits, number as u64)?;
    match batch.lists.items() {
        [part] => Ok(count_same(by_trees.items(), part.list.items())),
        _ => Ok(0),
    }
}

// The changes of the newest commit.
fn newest_found(alloc: Global, domain: &Domain) -> Result<usize, Fail>
    requires { AreKept domain.now.commits.items }
{
    if domain.commits.len() < 2 {
        return Err("no commit".into());
    }
    let before = domain.commits.len() - 2;
    let root = Path::root(alloc);
    Ok(found_twice(alloc, &domain.commits, before, &root)?)
}

// The same, after a decision.
fn found_after(domain: &mut Domain, alloc: Global, wish: Wish) -> Result<usize, Fail>
    requires { AreKept domain.old.commits.items }
    ensures { IfOk result (λ o. AreKept domain.new.commits.items) }
{
    decided(domain, alloc, wish)?;
    newest_found(alloc, domain)
}

fn found(domain: &mut Domain, alloc: Global) -> Result<[usize; 3], Fail>
    requires { AreKept domain.old.commits.items }
{
    let entry = found_after(domain, alloc, Wish::PutEntry(10))?;
    let merged = found_after(domain, alloc, Wish::Merge(4, "x"))?;
    let put = found_after(domain, alloc, Wish::Put(4, "y"))?;
    Ok([entry, merged, put])
}

fn found_in_ten(alloc: Global) -> Result<[usize; 3], Fail> {
    let mut domain = ten(alloc)?;
    found(&mut domain, alloc)
}

#[test]
fn trees_and_operations_find_the_same_changes(rt: HostRuntime) -> Result<(), Fail> {
    assert_eq!(rt; found_in_ten(rt.alloc())?, [3, 1, 1]);
    Ok(())
}

// ---- operations: on rows, and on a tree

fn add_op(ops: &mut Vec<Op>, op: Op) -> Result<(), NoMemory> {
    ops.push(op)?;
    Ok(())
}

// Entries are put, and one of them once more with fewer rows; a leaf is merged and put.
fn add_ops(ops: &mut Vec<Op>, alloc: Global) -> Result<(), Fail> {
    for key in 0..20u64 {
        add_op(ops, op_of(alloc, Wish::PutEntry(key))?)?;
    }
    for wish in [Wish::PutBare(7), Wish::Merge(4, "x"), Wish::Put(4, "y")] {
        add_op(ops, op_of(alloc, wish)?)?;
    }
    Ok(())
}

fn next(alloc: Global, tree: &Root, op: &Op) -> Result<Root, Fail> {
    if !lies_below(op) {
        return Err("rows beside the path".into());
    }
    Ok(edited(alloc, tree, op, 9)?)
}

fn tree_by(alloc: Global, ops: &[Op]) -> Result<Root, Fail> {
    let mut tree = Root::empty(alloc)?;
    for op in ops {
        tree = next(alloc, &tree, op)?;
    }
    Ok(tree)
}

fn rows_by(alloc: Global, ops: &[Op]) -> Result<Rows, NoMemory> {
    apply(alloc, &Rows::new(alloc), Store::Config, ops)
}

fn rows_in_tree(alloc: Global, ops: &[Op]) -> Result<Rows, Fail> {
    let tree = tree_by(alloc, ops)?;
    Ok(tree.rows(alloc, &Path::root(alloc))?)
}

// The number of rows, if both ways give the same; else none.
fn applied(alloc: Global, ops: &[Op]) -> Result<usize, Fail> {
    let rows = rows_by(alloc, ops)?;
    let other = rows_in_tree(alloc, ops)?;
    if rows.items() == other.items() {
        Ok(rows.items().len())
    } else {
        Ok(0)
    }
}

fn all_applied(alloc: Global) -> Result<usize, Fail> {
    let mut ops = Vec::new(alloc);
    add_ops(&mut ops, alloc)?;
    applied(alloc, &ops)
}

#[test]
fn rows_and_trees_have_the_same_operations(rt: HostRuntime) -> Result<(), Fail> {
    assert_eq!(rt; all_applied(rt.alloc())?, 60);
    Ok(())
}
