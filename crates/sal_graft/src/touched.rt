//! What operations set and touch at a prefix of a path.
ghost use Rattle.std.specs.Prelude.{◌≡◌, is_some};
ghost use Rattle.std.specs.List.{list_any};
ghost use Rattle.sal_types.specs.Order.{path_eq};
ghost use Rattle.sal_types.specs.Prefix.{is_prefix};
ghost use Rattle.sal_types.specs.Tree.{has};
ghost use Rattle.sal_rows.specs.Apply.{act_setting};
ghost use Rattle.sal_rows.specs.Touch.{op_touches, touches};
ghost use Rattle.sal_tree.specs.Rows.{rows_of};
ghost use Rattle.sal_graft.specs.Rows.{is_cleared, is_set};

use crate::standing::stands;
use sal_rows::{Act, Op, same_store};
use sal_tree::Root;
use sal_types::{Row, Step, Store};

/// Whether the commit of these operations touches the steps in the store; `before` is the store's tree before it.
pub(crate) fn is_touched(before: &Root, store: Store, ops: &[Op], steps: &[Step]) -> bool
    ensures { result ≡ touches (rows_of before.now) store ops.now steps.now }
{
    ops.iter().any(|op| same_store(op.store, store) && op_touches(before, op, steps))
}

fn op_touches(before: &Root, op: &Op, steps: &[Step]) -> bool
    ensures { result ≡ op_touches (rows_of before.now) op.now steps.now }
{
    // For the proof alone: `node` says that the tree is whole.
    let _ = before.node();
    match &op.act {
        Act::Put(rows) => {
            lies_under(rows.items(), steps) || is_cleared(before, op.path.steps(), steps)
        }
        Act::Merge(rows) => lies_under(rows.items(), steps),
        Act::Delete => is_cleared(before, op.path.steps(), steps),
        Act::Read => false,
    }
}

// Whether there is a row at or below the steps that a put or delete at `path` removes.
fn is_cleared(before: &Root, path: &[Step], steps: &[Step]) -> bool
    ensures { result ≡ is_cleared (rows_of before.now) path.now steps.now }
{
    (begins(path, steps) && stands(before, steps)) || (begins(steps, path) && stands(before, path))
}

/// Whether an operation of the store sets the steps.
pub(crate) fn is_set(ops: &[Op], store: Store, steps: &[Step]) -> bool
    ensures { result ≡ is_set ops.now store steps.now }
{
    ops.iter()
        .any(|op| same_store(op.store, store) && sets(op, steps))
}

fn sets(op: &Op, steps: &[Step]) -> bool
    ensures { result ≡ is_some (act_setting op.now.path op.now.act steps.now) }
{
    match &op.act {
        Act::Put(_) => begins(op.path.steps(), steps),
        Act::Merge(rows) => stands_at(rows.items(), steps),
        Act::Delete => begins(op.path.steps(), steps),
        Act::Read => false,
    }
}

// Whether one of the rows has the steps as its path.
fn stands_at(rows: &[Row], steps: &[Step]) -> bool
    ensures { result ≡ list_any (λ row. path_eq steps.now row.path) rows.now }
{
    rows.iter().any(|row| is_same(steps, row.path.steps()))
}

fn is_same(first: &[Step], other: &[Step]) -> bool
    ensures { result ≡ path_eq first.now other.now }
{
    first == other
}

// Whether there is a row at or below the steps.
fn lies_under(rows: &[Row], steps: &[Step]) -> bool
    ensures { result ≡ has rows.now steps.now }
{
    rows.iter().any(|row| begins(steps, row.path.steps()))
}

// Whether the first steps are a prefix of the second.
fn begins(first: &[Step], steps: &[Step]) -> bool
    ensures { result ≡ is_prefix first.now steps.now }
{
    steps.starts_with(first)
}
