//! The changes of a domain's commits, as frames.
ghost use Rattle.std.specs.Prelude.{◌≡◌, ◌<◌, [], length, map, IfOk};
ghost use Rattle.sal_tree.specs.Follows.{Agree};
ghost use Rattle.sal_tree.specs.Rows.{rows_of};
ghost use Rattle.sal_delta.specs.Agreed.{AgreeBoth, AreAgreed};
ghost use Rattle.sal_types.specs.declared.value.Store.{Store as Of};
ghost use Rattle.sal_rows.specs.Apply.{apply_ops};
ghost use Rattle.sal_graft.specs.Kept.{AreKept, rows_in};
ghost use Rattle.sal_follow.specs.Exporting.{patch_of, frame_at};
ghost use Rattle.sal_follow.specs.Framed as spec;

use crate::frame::Frame;
use sal_delta::{Change, ChangeList, StoreCommit, changes, changes_by};
use sal_rows::{Patch, Rows};
use sal_tree::{Commit, Pair, Root, tree_of};
use sal_types::{Duplicate, NoMemory, Path, Row, Seq, Store, append};
use std::alloc::Global;

// The patches of the changes.
fn patches_by(alloc: Global, list: ChangeList) -> Result<Seq<Patch>, NoMemory>
    ensures { IfOk result (λ ps. ps ≡ map spec.patch_by list) }
{
    let items = list.into_items();
    let mut patches = Vec::with_capacity(alloc, items.len())?;
    for change in items {
        append(&mut patches, patch_by(change))?;
    }
    Ok(Seq::from_items(patches))
}

// The patch of a change.
fn patch_by(change: Change) -> Patch
    ensures { result ≡ spec.patch_by change }
{
    Patch {
        path: change.path,
        cell: change.after,
    }
}

// The patches from one tree to the next.
fn patches_between(alloc: Global, before: &Root, after: &Root) -> Result<Seq<Patch>, NoMemory>
    requires { Agree before.now after.now }
    ensures { IfOk result (λ ps. ps ≡ spec.patches (rows_of before.now) (rows_of after.now)) }
{
    let list = changes(alloc, before, after, &Path::root(alloc))?;
    let patches = patches_by(alloc, list)?;
    Ok(patches)
}

// The patch that sets a row.
fn patch_of(row: &Row) -> Result<Patch, NoMemory>
    ensures { IfOk result (λ p. p ≡ patch_of row.now) }
{
    let Row { path, cell } = row.copy()?;
    Ok(Patch {
        path,
        cell: Some(cell),
    })
}

// The patches that set each row.
fn patches_of(alloc: Global, rows: &Rows) -> Result<Seq<Patch>, NoMemory>
    ensures { IfOk result (λ ps. ps ≡ map patch_of rows.now) }
{
    let items = rows.items();
    let mut patches = Vec::with_capacity(alloc, items.len())?;
    for row in items {
        append(&mut patches, patch_of(row)?)?;
    }
    Ok(Seq::from_items(patches))
}

// The patches from no rows to these.
fn all_patches(alloc: Global, rows: &Rows) -> Result<Seq<Patch>, NoMemory>
    ensures { IfOk result (λ ps. ps ≡ spec.patches [] rows.now) }
{
    // For the proof alone: it says that the rows ascend.
    let _ = rows.items();
    let patches = patches_of(alloc, rows)?;
    Ok(patches)
}

// The patches from no rows to the first tree.
fn opening_patches(alloc: Global, root: &Root) -> Result<Seq<Patch>, NoMemory>
    ensures { IfOk result (λ ps. ps ≡ spec.patches [] (rows_of root.now)) }
{
    let rows = root.rows(alloc, &Path::root(alloc))?;
    let patches = all_patches(alloc, &rows)?;
    Ok(patches)
}

/// The frame with all rows of these trees, and this number.
pub(crate) fn frame_of_rows(
    alloc: Global,
    commit: u64,
    config: &Rows,
    oper: &Rows,
) -> Result<Frame, NoMemory>
    ensures { IfOk result (λ f. f ≡ spec.snapshot commit (record { config = config.now; oper = oper.now })) }
{
    let config = all_patches(alloc, config)?;
    let oper = all_patches(alloc, oper)?;
    Ok(Frame {
        commit,
        config,
        oper,
    })
}

/// The same for the trees of a commit.
pub(crate) fn snapshot_frame(alloc: Global, commit: u64, trees: &Pair) -> Result<Frame, NoMemory>
    ensures { IfOk result (λ f. f ≡ spec.snapshot commit (spec.trees_of_pair trees.now)) }
{
    let config = opening_patches(alloc, &trees.config)?;
    let oper = opening_patches(alloc, &trees.oper)?;
    Ok(Frame {
        commit,
        config,
        oper,
    })
}

// The frame of the commit with this number, from the trees before and after it.
fn frame_between(alloc: Global, commit: u64, before: &Pair, after: &Pair) -> Result<Frame, NoMemory>
    requires { AgreeBoth before.now after.now }
    ensures { IfOk result (λ f. f ≡ spec.frame_of commit (spec.trees_of_pair before.now) (spec.trees_of_pair after.now)) }
{
    let config = patches_between(alloc, &before.config, &after.config)?;
    let oper = patches_between(alloc, &before.oper, &after.oper)?;
    Ok(Frame {
        commit,
        config,
        oper,
    })
}

/// The frame of the commit with this number.
pub(crate) fn frame_at(alloc: Global, commits: &[Commit], number: u64) -> Result<Frame, NoMemory>
    requires agreed { AreAgreed commits.now }
    requires inside { number < length commits.now }
    ensures { IfOk result (λ f. f ≡ frame_at (map spec.trees_of commits.now) number) }
{
    let at = number as usize;
    let after = &commits[at].trees;
    if at == 0 {
        snapshot_frame(alloc, 0, after)
    } else {
        frame_between(alloc, number, &commits[at - 1].trees, after)
    }
}

// The patches of a store from the tree before a commit to that after it, by its operations.
fn patches_made(
    alloc: Global,
    before: &Commit,
    after: &Commit,
    store: Store,
) -> Result<Seq<Patch>, NoMemory>
    requires agree { AgreeBoth before.now.trees after.now.trees }
    requires made { rows_in after.now.trees store ≡ apply_ops (rows_in before.now.trees store) store after.now.ops.value }
    ensures { IfOk result (λ ps. ps ≡ spec.patches (rows_in before.now.trees store) (rows_in after.now.trees store)) }
{
    let commit = StoreCommit {
        before: tree_of(&before.trees, store),
        after: tree_of(&after.trees, store),
        store,
        ops: after.ops.items(),
    };
    let list = changes_by(alloc, &commit, &Path::root(alloc))?;
    let patches = patches_by(alloc, list)?;
    Ok(patches)
}

// The frame of the commit with this number, by its operations.
fn frame_made(
    alloc: Global,
    number: u64,
    before: &Commit,
    after: &Commit,
) -> Result<Frame, NoMemory>
    requires agree { AgreeBoth before.now.trees after.now.trees }
    requires made { (s : Of) → rows_in after.now.trees s ≡ apply_ops (rows_in before.now.trees s) s after.now.ops.value }
    ensures { IfOk result (λ f. f ≡ spec.frame_of number (spec.trees_of before.now) (spec.trees_of after.now)) }
{
    let config = patches_made(alloc, before, after, Store::Config)?;
    let oper = patches_made(alloc, before, after, Store::Oper)?;
    Ok(Frame {
        commit: number,
        config,
        oper,
    })
}

/// The frame of the commit with this number, for commits that a domain keeps.
pub(crate) fn frame_kept(alloc: Global, commits: &[Commit], number: u64) -> Result<Frame, NoMemory>
    requires agreed { AreAgreed commits.now }
    requires kept { AreKept commits.now }
    requires inside { number < length commits.now }
    ensures { IfOk result (λ f. f ≡ frame_at (map spec.trees_of commits.now) number) }
{
    let at = number as usize;
    let after = &commits[at];
    if at == 0 {
        snapshot_frame(alloc, 0, &after.trees)
    } else {
        frame_made(alloc, number, &commits[at - 1], after)
    }
}
