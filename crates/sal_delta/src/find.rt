//! The changes between two trees.
ghost use Rattle.std.specs.Prelude.{◌≡◌, ◌++◌, List, None, IfOk, OnOk, if◌then◌else◌};
ghost use Rattle.sal_types.specs.declared.value.Step.{Step};
ghost use Rattle.sal_types.specs.Prefix.{is_prefix};
ghost use Rattle.sal_types.specs.Tree.{cell};
ghost use Rattle.sal_tree.specs.Follows.{Agree};
ghost use Rattle.sal_tree.specs.Rows.{rows_of};
ghost use Rattle.sal_rows.specs.Changes.{changes_under, change_at, differing};

use crate::walk::walk;
use sal_rows::{Change, ChangeList};
use sal_tree::{Root, is_alike};
use sal_types::{NoMemory, Path, Seq};
use std::alloc::Global;

/// The paths at and below the given one at which two trees have different cells, in path order, each with both cells.
///
/// Two nodes at one path with one stamp must be the same, as they are in trees of one history.
pub fn changes(
    alloc: Global,
    before: &Root,
    after: &Root,
    path: &Path,
) -> Result<ChangeList, NoMemory>
    requires { Agree before.now after.now }
    ensures list { IfOk result (λ l. l ≡ changes_under (rows_of before.now) (rows_of after.now) path.now) }
    ensures places { IfOk result (λ l. (r : List Step) → change_at l r ≡ (if is_prefix path.now r then differing (cell (rows_of before.now) r) (cell (rows_of after.now) r) else None)) }
{
    let mut list = Vec::new(alloc);
    add_changes(&mut list, before, after, path)?;
    // For the proof alone: `node` says that the trees are whole.
    let _ = before.node();
    let _ = after.node();
    Ok(Seq::from_items(list))
}

/// Appends the changes at the path and below it.
pub(crate) fn add_changes(
    into: &mut Vec<Change>,
    before: &Root,
    after: &Root,
    path: &Path,
) -> Result<(), NoMemory>
    requires { Agree before.now after.now }
    ensures { OnOk result (into.new.items ≡ into.old.items ++ changes_under (rows_of before.now) (rows_of after.now) path.now) }
{
    // For the proof alone: `node` says that the trees are whole, and `steps` that a path is short.
    let _ = before.node();
    let _ = after.node();
    let _ = path.steps();
    if is_alike(before, after, path) {
        return Ok(());
    }
    walk(into, path, before.get(path), after.get(path))?;
    Ok(())
}
