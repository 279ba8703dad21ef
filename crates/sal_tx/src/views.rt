//! The trees after operations.
ghost use Rattle.std.specs.Prelude.{◌≡◌, List, ◌∷◌, ◌++◌, [], IfOk};
ghost use Rattle.sal_types.specs.declared.value.Step.{Step};
ghost use Rattle.sal_types.specs.Tree.{cell, under};
ghost use Rattle.sal_rows.specs.Apply.{act_setting, cell_by, rows_of_act};
ghost use Rattle.sal_rows.specs.declared.op.Op.{Op as Operation};
ghost use Rattle.sal_tree.specs.Follows.{Follows, exactly};
ghost use Rattle.sal_tree.specs.Rows.{rows_of};
ghost use Rattle.sal_tree.specs.Touched.{act_touches};
ghost use Rattle.sal_tx.specs.Views.{IsSeen, LieBelow, with_tree};

use sal_rows::{Act, Op};
use sal_tree::{Pair, Root, tree_of};
use sal_types::{Duplicate, NoMemory, Store};
use std::alloc::Global;

/// The tree after the operation, whose touched nodes get the stamp.
pub fn edited(alloc: Global, tree: &Root, op: &Op, stamp: u64) -> Result<Root, NoMemory>
    requires { under (rows_of_act op.now.act) op.now.path ≡ rows_of_act op.now.act }
    ensures cells { IfOk result (λ r. (q : List Step) → cell (rows_of r) q ≡ cell_by (act_setting op.now.path op.now.act q) (cell (rows_of tree.now) q)) }
    ensures stamps { IfOk result (λ r. Follows (exactly stamp) (act_touches (rows_of tree.now) op.now.path op.now.act) tree.now r) }
{
    match &op.act {
        Act::Put(rows) => tree.put(alloc, &op.path, rows, stamp),
        Act::Merge(rows) => tree.merge(alloc, &op.path, rows, stamp),
        Act::Delete => tree.delete(alloc, &op.path, stamp),
        Act::Read => tree.copy(),
    }
}

/// The tree of its store after one more operation, if the view is the base after some.
pub(crate) fn next_tree(
    alloc: Global,
    base: &Pair,
    view: &Pair,
    op: &Op,
    stamp: u64,
) -> Result<Root, NoMemory>
    requires { under (rows_of_act op.now.act) op.now.path ≡ rows_of_act op.now.act }
    ensures { IfOk result (λ next. (ops : List Operation) → IsSeen stamp ops base.now view.now → IsSeen stamp (ops ++ op.now ∷ []) base.now (with_tree view.now op.now.store next)) }
{
    let from = tree_of(base, op.store);
    let tree = tree_of(view, op.store);
    // For the proof alone: `node` says that the trees are whole.
    let _ = from.node();
    let _ = tree.node();
    let next = edited(alloc, tree, op, stamp)?;
    let _ = next.node();
    Ok(next)
}

/// The base after the operations; touched nodes get the stamp.
pub(crate) fn viewed(alloc: Global, base: &Pair, ops: &[Op], stamp: u64) -> Result<Pair, NoMemory>
    requires { LieBelow ops.now }
    ensures { IfOk result (IsSeen stamp ops.now base.now) }
{
    // For the proof alone: `node` says that the trees are whole.
    let _ = base.config.node();
    let _ = base.oper.node();
    let mut view = base.copy()?;
    for op in ops {
        let tree = next_tree(alloc, base, &view, op, stamp)?;
        set_tree(&mut view, op.store, tree);
    }
    Ok(view)
}

/// Replaces the tree of a store.
pub(crate) fn set_tree(pair: &mut Pair, store: Store, tree: Root)
    ensures { pair.new ≡ with_tree pair.old store tree }
{
    match store {
        Store::Config => pair.config = tree,
        Store::Oper => pair.oper = tree,
    }
}
