//! The parts of a transaction that writes, and one more operation.
ghost use Rattle.std.specs.Prelude.{◌≡◌, ◌⊎◌, ◌+◌, ◌*◌, ◌-◌, ◌<◌, ◌^◌, [], None, Some, IfOk, MatchResult, OnOk, OnErr};
ghost use Rattle.sal_rows.specs.Apply.{apply_ops};
ghost use Rattle.sal_rows.specs.Reads.{read_of};
ghost use Rattle.sal_tree.specs.Rows.{rows_of};
ghost use Rattle.sal_tx.specs.Views as spec;
ghost use Rattle.sal_tx.specs.Views.{IsRight, IsSeen, stamp_of};
ghost use Rattle.sal_rules.specs.Writes.{IsForSchema};

use crate::begun::Begun;
use crate::refusal::check;
use crate::views::{next_tree, set_tree};
use sal_mod::Mod;
use sal_rows::{Act, Mode, Op};
use sal_rules::TxFault;
use sal_schema::Schema;
use sal_tree::{Pair, Root, tree_of};
use sal_types::{Duplicate, NoMemory, Path, Store};
use std::alloc::Global;

/// The parts of a transaction that writes: its base, and its operations.
#[derive(Drop)]
pub struct Writing {
    pub begun: Begun,
    pub mode: Mode,
    pub base: Pair,
    pub changes: Mod,
}

// Whether a transaction of the mode records its reads.
fn records_reads(mode: Mode) -> bool
    ensures { result ≡ spec.records_reads mode }
{
    match mode {
        Mode::Checked => true,
        _ => false,
    }
}

/// Records a read of the path, in mode `Checked`, if it is not known. If memory runs out, nothing changes.
pub(crate) fn record_read(
    alloc: Global,
    parts: &mut Writing,
    store: Store,
    path: &Path,
) -> Result<(), NoMemory>
    ensures ok { OnOk result (parts.new ≡ spec.after_read store path.now parts.old) }
    ensures err { OnErr result (parts.new ≡ parts.old) }
{
    if !(records_reads(parts.mode) && !parts.changes.knows(store, path)) {
        return Ok(());
    }
    let op = read_of(store, path)?;
    match parts.changes.add(alloc, op) {
        Ok(()) => Ok(()),
        Err(_) => Err(NoMemory),
    }
}

// The read of the path.
fn read_of(store: Store, path: &Path) -> Result<Op, NoMemory>
    ensures { IfOk result (λ op. op ≡ read_of store path.now) }
{
    Ok(Op {
        store,
        path: path.copy()?,
        act: Act::Read,
    })
}

/// The refusal of a write to the store. In mode `Checked` a missing parent is recorded as read; if memory runs out for that, the
/// refusal is `NoMemory`.
pub(crate) fn refuse(alloc: Global, parts: &mut Writing, store: Store, fault: TxFault) -> TxFault
    ensures parts { parts.new ≡ spec.after_refusal result store parts.old }
    ensures fault { (result ≡ TxFault.NoMemory) ⊎ (result ≡ fault) }
{
    let recorded = match &fault {
        TxFault::ParentMissing { path } => record_read(alloc, parts, store, path),
        _ => Ok(()),
    };
    match recorded {
        Ok(()) => fault,
        Err(NoMemory) => TxFault::NoMemory,
    }
}

/// The stamp of the nodes that this transaction makes.
pub(crate) fn stamp_of(begun: &Begun) -> u64
    requires { begun.now.place < 2 ^ 63 - 1 }
    ensures { result ≡ stamp_of begun.now.place }
{
    begun.place * 2 + 2
}

/// The first operation, unless it is refused. It needs no view: it is checked over the base.
pub(crate) fn push_first(alloc: Global, parts: &mut Writing, op: Op) -> Result<(), TxFault>
    requires right { IsRight parts.old }
    requires none { parts.old.changes ≡ [] }
    requires for_schema { IsForSchema parts.old.begun.schema.value op }
    ensures outcome { spec.IsOutcome parts.old op parts.new result }
    ensures err { OnErr result (parts.new ≡ parts.old) }
{
    match first_checked(alloc, parts, &op) {
        Ok(()) => {}
        Err(fault) => return Err(fault),
    }
    match parts.changes.add(alloc, op) {
        Ok(()) => {}
        Err(_) => return Err(TxFault::NoMemory),
    }
    Ok(())
}

// Refuses a first operation for its first cause, if there is one.
fn first_checked(alloc: Global, parts: &Writing, op: &Op) -> Result<(), TxFault>
    requires { parts.now.changes ≡ [] }
    ensures { MatchResult result (λ _. spec.refused parts.now op.now ≡ None) (λ e. (e ≡ TxFault.NoMemory) ⊎ (spec.refused parts.now op.now ≡ Some e)) }
{
    let base = tree_of(&parts.base, op.store);
    // For the proof alone: `node` says that the tree is whole.
    let _ = base.node();
    checked(alloc, parts, base, op)
}

// Refuses an operation for its first cause over the transaction's view, if there is one.
fn checked(alloc: Global, parts: &Writing, tree: &Root, op: &Op) -> Result<(), TxFault>
    requires { rows_of tree.now ≡ apply_ops (spec.rows_in parts.now.base op.now.store) op.now.store parts.now.changes }
    ensures { MatchResult result (λ _. spec.refused parts.now op.now ≡ None) (λ e. (e ≡ TxFault.NoMemory) ⊎ (spec.refused parts.now op.now ≡ Some e)) }
{
    check(alloc, schema_of(&parts.begun), tree, op)
}

fn schema_of(begun: &Begun) -> &Schema
    ensures { result.now ≡ begun.now.schema.value }
{
    &begun.schema
}

/// One more operation, unless it is refused, with the view after it.
pub(crate) fn push(
    alloc: Global,
    parts: &mut Writing,
    view: &mut Pair,
    op: Op,
) -> Result<(), TxFault>
    requires right { IsRight parts.old }
    requires seen { IsSeen (stamp_of parts.old.begun.place) parts.old.changes parts.old.base view.old }
    requires for_schema { IsForSchema parts.old.begun.schema.value op }
    ensures outcome { spec.IsOutcome parts.old op parts.new result }
    ensures seen { IsSeen (stamp_of parts.new.begun.place) parts.new.changes parts.new.base view.new }
    ensures err { OnErr result (parts.new ≡ parts.old) }
{
    let tree = match written(alloc, parts, view, &op) {
        Ok(tree) => tree,
        Err(fault) => return Err(fault),
    };
    let store = op.store;
    match parts.changes.add(alloc, op) {
        Ok(()) => {
            set_tree(view, store, tree);
            Ok(())
        }
        Err(_) => Err(TxFault::NoMemory),
    }
}

// The tree of its store after one more operation, unless it is refused.
fn written(alloc: Global, parts: &Writing, view: &Pair, op: &Op) -> Result<Root, TxFault>
    requires right { IsRight parts.now }
    requires seen { IsSeen (stamp_of parts.now.begun.place) parts.now.changes parts.now.base view.now }
    requires for_schema { IsForSchema parts.now.begun.schema.value op.now }
    ensures { MatchResult result (spec.IsNext parts.now view.now op.now) (λ e. (e ≡ TxFault.NoMemory) ⊎ (spec.refused parts.now op.now ≡ Some e)) }
{
    checked(alloc, parts, tree_of(view, op.store), op)?;
    let stamp = stamp_of(&parts.begun);
    let tree = next_tree(alloc, &parts.base, view, op, stamp)?;
    Ok(tree)
}
