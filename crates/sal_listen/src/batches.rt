//! The batches of a listener.
ghost use Rattle.std.specs.Prelude.{◌≡◌, ◌+◌, ◌-◌, ◌<◌, ◌++◌, length, IfOk, OnOk};
ghost use Rattle.sal_rows.specs.Apply.{apply_ops};
ghost use Rattle.sal_rows.specs.Batches as spec;
ghost use Rattle.sal_tree.specs.Follows.{Agree};
ghost use Rattle.sal_tree.specs.Rows.{rows_of};
ghost use Rattle.sal_delta.specs.Agreed.{AreAgreed};
ghost use Rattle.sal_graft.specs.Kept.{AreKept};
ghost use Rattle.sal_listen.specs.Given.{any_part, filled, trees_of};

use crate::commits::commit_at;
use sal_delta::{StoreCommit, changes_by, kind_at};
use sal_rows::{Batch, Part};
use sal_tree::{Commit, tree_of};
use sal_types::{NoMemory, Path, Seq, Store};
use std::alloc::Global;

/// The scope of a listener: a store, and all at and below a path.
#[derive(Drop)]
pub struct Listened<'a> {
    pub store: Store,
    pub path: &'a Path,
    /// Whether the node at the path has its own row by its kind.
    pub own: bool,
}

/// The changes of each commit after `from`, up to the newest.
///
/// `commits` are those of a domain, from its opening to the newest. A commit that did not change the store costs one look
/// at two roots.
pub fn batch(
    alloc: Global,
    listened: &Listened,
    commits: &[Commit],
    from: u64,
) -> Result<Batch, NoMemory>
    requires kept { AreKept commits.now }
    requires agreed { AreAgreed commits.now }
    requires from { from < length commits.now }
    ensures { IfOk result (λ b. b ≡ spec.batch listened.now.own (trees_of commits.now listened.now.store) listened.now.path.now from (length commits.now - 1)) }
{
    let parts = parts(alloc, listened, commits, from)?;
    Ok(Batch {
        from,
        to: commits.len() as u64 - 1,
        lists: Seq::from_items(parts),
    })
}

// The parts of the commits after `from`.
fn parts(
    alloc: Global,
    listened: &Listened,
    commits: &[Commit],
    from: u64,
) -> Result<Vec<Part>, NoMemory>
    requires kept { AreKept commits.now }
    requires agreed { AreAgreed commits.now }
    requires from { from < length commits.now }
    ensures { IfOk result (λ v. v.items ≡ spec.parts_after listened.now.own (trees_of commits.now listened.now.store) listened.now.path.now from (length commits.now - 1 - from)) }
{
    let mut list = Vec::new(alloc);
    for past in 0..commits.len() as u64 - 1 - from {
        add_next(&mut list, listened, commits, from + past)?;
    }
    Ok(list)
}

// Appends the part of the commit after this one, if that commit changed anything.
fn add_next(
    into: &mut Vec<Part>,
    listened: &Listened,
    commits: &[Commit],
    number: u64,
) -> Result<(), NoMemory>
    requires kept { AreKept commits.now }
    requires agreed { AreAgreed commits.now }
    requires inside { number + 1 < length commits.now }
    ensures { OnOk result (into.new.items ≡ into.old.items ++ spec.part listened.now.own (trees_of commits.now listened.now.store number) (trees_of commits.now listened.now.store (number + 1)) listened.now.path.now (number + 1)) }
{
    let before = commit_at(commits, number);
    let after = commit_at(commits, number + 1);
    let commit = StoreCommit {
        before: tree_of(&before.trees, listened.store),
        after: tree_of(&after.trees, listened.store),
        store: listened.store,
        ops: after.ops.items(),
    };
    add_part(into, listened, &commit, number + 1)
}

// Appends the part of the commit, which has this number, if it changed anything.
fn add_part(
    into: &mut Vec<Part>,
    listened: &Listened,
    commit: &StoreCommit,
    number: u64,
) -> Result<(), NoMemory>
    requires agree { Agree commit.now.before.now commit.now.after.now }
    requires made { rows_of commit.now.after.now ≡ apply_ops (rows_of commit.now.before.now) commit.now.store commit.now.ops.now }
    ensures { OnOk result (into.new.items ≡ into.old.items ++ spec.part listened.now.own (rows_of commit.now.before.now) (rows_of commit.now.after.now) listened.now.path.now number) }
{
    let before = commit.before.node();
    let after = commit.after.node();
    if before.stamp() == after.stamp() {
        return Ok(());
    }
    let part = part_of(*into.allocator(), listened, commit, number)?;
    add_filled(into, part)
}

// The changes of the commit, even if there are none.
fn part_of(
    alloc: Global,
    listened: &Listened,
    commit: &StoreCommit,
    number: u64,
) -> Result<Part, NoMemory>
    requires agree { Agree commit.now.before.now commit.now.after.now }
    requires made { rows_of commit.now.after.now ≡ apply_ops (rows_of commit.now.before.now) commit.now.store commit.now.ops.now }
    ensures { IfOk result (λ part. part ≡ any_part listened.now.own (rows_of commit.now.before.now) (rows_of commit.now.after.now) listened.now.path.now number) }
{
    let path = listened.path;
    let list = changes_by(alloc, commit, path)?;
    let kind = kind_at(&list, path, listened.own, commit.before, commit.after);
    Ok(Part {
        commit: number,
        kind,
        list,
    })
}

// Appends the part, if it has changes.
fn add_filled(into: &mut Vec<Part>, part: Part) -> Result<(), NoMemory>
    ensures { OnOk result (into.new.items ≡ into.old.items ++ filled part) }
{
    if part.list.items().is_empty() {
        return Ok(());
    }
    into.push(part)?;
    Ok(())
}
