//! The changes of a commit, found by its operations.
ghost use Rattle.std.specs.Prelude.{◌≡◌, ◌++◌, IfOk, OnOk};
ghost use Rattle.sal_rows.specs.Apply.{apply_ops};
ghost use Rattle.sal_rows.specs.Changes.{changes_under};
ghost use Rattle.sal_tree.specs.Follows.{Agree};
ghost use Rattle.sal_tree.specs.Rows.{rows_of};
ghost use Rattle.sal_delta.specs.ByOps.{found_at, found_at_rows, found_below, found_by, found_by_all, found_of_op, found_of_row};

use crate::find::add_changes;
use crate::ordered::in_order;
use crate::walk::note_cells;
use sal_rows::{Act, Change, ChangeList, Op, same_store};
use sal_tree::{Root, is_alike};
use sal_types::{NoMemory, Path, Row, Seq, Store};
use std::alloc::Global;

/// A commit of one store: the trees before it and after it, and its operations.
#[derive(Drop)]
pub struct StoreCommit<'a> {
    pub before: &'a Root,
    pub after: &'a Root,
    pub store: Store,
    pub ops: &'a [Op],
}

/// The changes of a commit at the path and below it: those that `changes` finds, without a look at lists that the
/// operations do not touch.
pub fn changes_by(alloc: Global, commit: &StoreCommit, path: &Path) -> Result<ChangeList, NoMemory>
    requires agree { Agree commit.now.before.now commit.now.after.now }
    requires made { rows_of commit.now.after.now ≡ apply_ops (rows_of commit.now.before.now) commit.now.store commit.now.ops.now }
    ensures { IfOk result (λ l. l ≡ changes_under (rows_of commit.now.before.now) (rows_of commit.now.after.now) path.now) }
{
    // For the proof alone: `node` says that the trees are whole.
    let _ = commit.before.node();
    let _ = commit.after.node();
    if is_alike(commit.before, commit.after, path) {
        return Ok(Seq::new(alloc));
    }
    let list = gathered(alloc, commit, path)?;
    let list = in_order(alloc, list)?;
    Ok(Seq::from_items(list))
}

// The changes that the operations of the store lead to, one after another.
fn gathered(alloc: Global, commit: &StoreCommit, path: &Path) -> Result<Vec<Change>, NoMemory>
    requires { Agree commit.now.before.now commit.now.after.now }
    ensures { IfOk result (λ v. v.items ≡ found_by_all (rows_of commit.now.before.now) (rows_of commit.now.after.now) commit.now.store path.now commit.now.ops.now) }
{
    let mut list = Vec::new(alloc);
    for op in commit.ops {
        add_of_op(&mut list, commit, op, path)?;
    }
    Ok(list)
}

// Appends the changes of an operation, if it is of the store.
fn add_of_op(
    into: &mut Vec<Change>,
    commit: &StoreCommit,
    op: &Op,
    path: &Path,
) -> Result<(), NoMemory>
    requires { Agree commit.now.before.now commit.now.after.now }
    ensures { OnOk result (into.new.items ≡ into.old.items ++ found_of_op (rows_of commit.now.before.now) (rows_of commit.now.after.now) commit.now.store path.now op.now) }
{
    if same_store(op.store, commit.store) {
        add_by(into, commit, op, path)
    } else {
        Ok(())
    }
}

// Appends the changes of an operation of the store.
fn add_by(
    into: &mut Vec<Change>,
    commit: &StoreCommit,
    op: &Op,
    path: &Path,
) -> Result<(), NoMemory>
    requires { Agree commit.now.before.now commit.now.after.now }
    ensures { OnOk result (into.new.items ≡ into.old.items ++ found_by (rows_of commit.now.before.now) (rows_of commit.now.after.now) path.now op.now.path op.now.act) }
{
    match &op.act {
        Act::Put(_) => add_below(into, commit, &op.path, path),
        Act::Merge(rows) => add_at_rows(into, commit, rows.items(), path),
        Act::Delete => add_below(into, commit, &op.path, path),
        Act::Read => Ok(()),
    }
}

// Appends the changes that are both at or below the path `top` and at or below `path`.
fn add_below(
    into: &mut Vec<Change>,
    commit: &StoreCommit,
    top: &Path,
    path: &Path,
) -> Result<(), NoMemory>
    requires { Agree commit.now.before.now commit.now.after.now }
    ensures { OnOk result (into.new.items ≡ into.old.items ++ found_below (rows_of commit.now.before.now) (rows_of commit.now.after.now) path.now top.now) }
{
    if top.is_prefix_of(path) {
        add_changes(into, commit.before, commit.after, path)
    } else if path.is_prefix_of(top) {
        add_changes(into, commit.before, commit.after, top)
    } else {
        Ok(())
    }
}

// Appends the changes at the paths of those rows that are at or below the path.
fn add_at_rows(
    into: &mut Vec<Change>,
    commit: &StoreCommit,
    rows: &[Row],
    path: &Path,
) -> Result<(), NoMemory>
    ensures { OnOk result (into.new.items ≡ into.old.items ++ found_at_rows (rows_of commit.now.before.now) (rows_of commit.now.after.now) path.now rows.now) }
{
    for row in rows {
        add_of_row(into, commit, row, path)?;
    }
    Ok(())
}

// Appends the change at the path of a row, if that is at or below the path.
fn add_of_row(
    into: &mut Vec<Change>,
    commit: &StoreCommit,
    row: &Row,
    path: &Path,
) -> Result<(), NoMemory>
    ensures { OnOk result (into.new.items ≡ into.old.items ++ found_of_row (rows_of commit.now.before.now) (rows_of commit.now.after.now) path.now row.now) }
{
    if path.is_prefix_of(&row.path) {
        add_at(into, commit, &row.path)
    } else {
        Ok(())
    }
}

// Appends the change at the path itself, if the cells differ there.
fn add_at(into: &mut Vec<Change>, commit: &StoreCommit, path: &Path) -> Result<(), NoMemory>
    ensures { OnOk result (into.new.items ≡ into.old.items ++ found_at (rows_of commit.now.before.now) (rows_of commit.now.after.now) path.now) }
{
    // For the proof alone: `node` says that the trees are whole.
    let _ = commit.before.node();
    let _ = commit.after.node();
    note_cells(into, path, commit.before.get(path), commit.after.get(path))?;
    Ok(())
}
