//! Transactions.
ghost use Rattle.std.specs.Prelude.{◌≡◌, ◌≢◌, ◌⊎◌, ◌↔◌, ◌-◌, ◌<◌, ◌^◌, [], IfSome, IsTrue, IfOk, IfErr, OnOk, OnErr, MatchResult};
ghost use Rattle.sal_types.specs.Tree.{has, under};
ghost use Rattle.sal_rows.specs.Apply.{apply_ops};
ghost use Rattle.sal_rows.specs.declared.op.Act.TheVariants.{Put as SetAll, Merge as SetSome, Delete as ClearAll};
ghost use Rattle.sal_tx.specs.Views as spec;
ghost use Rattle.sal_rules.specs.Writes.{IsForSchema};

use crate::begun::Begun;
use crate::views::viewed;
use crate::writing::{Writing, push, push_first, record_read, refuse, stamp_of};
use sal_mod::Mod;
use sal_rows::{Act, Mode, Op, Ops, Rows};
use sal_rules::TxFault;
use sal_schema::Schema;
use sal_tree::{Pair, Root, tree_of};
use sal_types::{Duplicate, NoMemory, Path, Store};
use std::alloc::Global;
use std::marker::Model;
use std::sync::Arc;

/// A transaction that only reads: it sees its base.
pub struct ReadTx {
    begun: Begun,
    base: Pair,
}

impl Drop for ReadTx {
    fn drop(self) {
        let ReadTx { begun: _, base: _ } = self;
    }
}

/// A transaction that writes: it sees its base with its own writes applied. A contract sees its parts.
pub struct WriteTx {
    parts: Writing,
    /// Its base with its operations applied, once it was needed: by a read, or by a second write.
    view: Option<Pair>,
}

impl Drop for WriteTx {
    fn drop(self) {
        let WriteTx { parts: _, view: _ } = self;
    }
}

impl Model for WriteTx {
    ghost use Rattle.sal_tx.specs.declared.writing.Writing.{Writing as Parts};
    ghost use Rattle.sal_tx.specs.contracts.writing.Writing as e;

    ghost Value = { Parts };

    ghost coded = { e.the_row.coded };

    ghost use Rattle.std.specs.Prelude.{IfSome};
    ghost use Rattle.sal_tx.specs.Views.{IsRight, IsView};

    ghost view = { λ a. a.parts };

    ghost invariant = { λ a. IsRight a.parts × IfSome a.view (IsView a.parts) };
}

/// A transaction.
#[derive(Drop)]
pub enum Tx {
    Read(ReadTx),
    Write(WriteTx),
}

/// A submitted transaction, the input of the decision.
#[derive(Drop)]
pub struct Submission {
    pub receipt: u64,
    pub domain: u32,
    pub chain: Option<u64>,
    pub base_commit: u64,
    pub base: Pair,
    /// Its base with its operations applied, if that was made.
    pub view: Option<Pair>,
    /// The stamp of the nodes that its operations make there.
    pub stamp: u64,
    pub changes: Mod,
}

impl Submission {
    /// Its base with its operations applied.
    pub fn trees(&self, alloc: Global) -> Result<Pair, NoMemory>
        requires below { spec.LieBelow self.now.changes }
        requires view { IfSome self.now.view (spec.Shows self.now.base self.now.changes) }
        ensures { IfOk result (spec.Shows self.now.base self.now.changes) }
    {
        match &self.view {
            Some(view) => view.copy(),
            None => viewed(alloc, &self.base, self.changes.ops(), self.stamp),
        }
    }
}

impl ReadTx {
    /// The transaction on this base. It takes no memory.
    pub fn open(begun: Begun, base: Pair) -> ReadTx
        ensures { result ≡ record { begun = begun; base = base } }
    {
        ReadTx { begun, base }
    }

    /// How it began.
    pub fn begun(&self) -> &Begun
        ensures { result.now ≡ self.now.begun }
    {
        &self.begun
    }

    /// The domain that it belongs to.
    pub fn domain(&self) -> u32
        ensures { result ≡ self.now.begun.domain }
    {
        self.begun.domain
    }

    /// The number of its base commit.
    pub fn base_commit(&self) -> u64
        ensures { result ≡ self.now.begun.base_commit }
    {
        self.begun.base_commit
    }

    /// The pending receipt that it follows, if any.
    pub fn on(&self) -> Option<u64>
        ensures { result ≡ self.now.begun.on }
    {
        self.begun.on
    }

    /// The schema of its domain when it began.
    pub fn schema(&self) -> &Schema
        ensures { result.now ≡ self.now.begun.schema.value }
    {
        &self.begun.schema
    }

    // The tree that it sees of a store: that of its base, to which it applies no operations.
    fn view_of(&self, store: Store) -> &Root
        ensures tree { result.now ≡ spec.tree_in self.now.base store }
        ensures rows { spec.rows_in self.now.base store ≡ apply_ops (spec.rows_in self.now.base store) store [] }
    {
        let tree = tree_of(&self.base, store);
        // For the proof alone: `node` says that the tree is whole.
        let _ = tree.node();
        tree
    }

    /// The rows at and below the path: of its base, to which it applies no operations.
    pub fn read(&self, alloc: Global, store: Store, path: &Path) -> Result<Rows, NoMemory>
        ensures rows { IfOk result (λ rows. rows ≡ under (spec.rows_in self.now.base store) path.now) }
        ensures view { IfOk result (λ rows. rows ≡ under (apply_ops (spec.rows_in self.now.base store) store []) path.now) }
    {
        let rows = self.view_of(store).rows(alloc, path)?;
        Ok(rows)
    }

    /// Whether there is a row at or below the path. It takes no memory.
    pub fn exists(&self, store: Store, path: &Path) -> bool
        ensures rows { result ≡ has (spec.rows_in self.now.base store) path.now }
        ensures view { result ≡ has (apply_ops (spec.rows_in self.now.base store) store []) path.now }
    {
        self.view_of(store).exists(path)
    }
}

impl WriteTx {
    /// The transaction on this base, without operations.
    pub fn open(alloc: Global, begun: Begun, base: Pair, mode: Mode) -> Result<WriteTx, NoMemory>
        requires writes { mode ≢ Mode.Ro }
        requires low { begun.place < 2 ^ 63 - 1 }
        ensures { IfOk result (λ tx. tx ≡ record { begun = begun; mode = mode; base = base; changes = [] }) }
    {
        Ok(WriteTx {
            parts: Writing {
                begun,
                mode,
                base,
                changes: Mod::new(alloc),
            },
            view: None,
        })
    }

    /// How it began.
    pub fn begun(&self) -> &Begun
        ensures { result.now ≡ self.now.begun }
    {
        &self.parts.begun
    }

    /// The domain that it belongs to.
    pub fn domain(&self) -> u32
        ensures { result ≡ self.now.begun.domain }
    {
        self.parts.begun.domain
    }

    /// The number of its base commit.
    pub fn base_commit(&self) -> u64
        ensures { result ≡ self.now.begun.base_commit }
    {
        self.parts.begun.base_commit
    }

    /// The pending receipt that it follows, if any.
    pub fn on(&self) -> Option<u64>
        ensures { result ≡ self.now.begun.on }
    {
        self.parts.begun.on
    }

    /// The schema of its domain when it began.
    pub fn schema(&self) -> &Schema
        ensures { result.now ≡ self.now.begun.schema.value }
    {
        &self.parts.begun.schema
    }

    /// Its operations, in order.
    pub fn ops(&self) -> &[Op]
        ensures ops { result.now ≡ self.now.changes }
        ensures right { spec.IsRight self.now }
    {
        self.parts.changes.ops()
    }

    /// The list of its operations, to be shared with the log: no copy of it is made.
    pub fn share_ops(&mut self, alloc: Global) -> Result<Arc<Ops>, NoMemory>
        ensures same { self.new ≡ self.old }
        ensures list { IfOk result (λ list. list.value ≡ self.old.changes) }
    {
        self.parts.changes.share(alloc)
    }

    /// The list of its operations, or a copy of it if it is not shared.
    pub fn shared_ops(&self, alloc: Global) -> Result<Arc<Ops>, NoMemory>
        ensures { IfOk result (λ list. list.value ≡ self.now.changes) }
    {
        self.parts.changes.shared(alloc)
    }

    fn only_writes(&self) -> bool
        ensures { IsTrue result ↔ (self.now.mode ≡ Mode.Wo) }
    {
        match self.parts.mode {
            Mode::Wo => true,
            _ => false,
        }
    }

    // Takes out its base with its operations applied, which is made if it was not.
    fn take_view(&mut self, alloc: Global) -> Result<Pair, NoMemory>
        ensures same { self.new ≡ self.old }
        ensures view { IfOk result (spec.IsView self.old) }
    {
        match self.view.take() {
            Some(view) => Ok(view),
            None => {
                let stamp = stamp_of(&self.parts.begun);
                viewed(alloc, &self.parts.base, self.parts.changes.ops(), stamp)
            }
        }
    }

    /// The rows at and below the path, with its own writes applied. A transaction that only writes refuses. In mode `Checked` the read is
    /// recorded. Its view may be made for the read, which no contract sees. If memory runs out, the transaction stays the same.
    pub fn read(&mut self, alloc: Global, store: Store, path: &Path) -> Result<Rows, TxFault>
        ensures rows { IfOk result (λ rows. rows ≡ under (apply_ops (spec.rows_in self.old.base store) store self.old.changes) path.now) }
        ensures cause { MatchResult result (λ _. self.old.mode ≢ Mode.Wo) (λ e. (e ≡ TxFault.NoMemory) ⊎ ((e ≡ TxFault.WriteOnly) × (self.old.mode ≡ Mode.Wo))) }
        ensures ok { OnOk result (self.new ≡ spec.after_read store path.now self.old) }
        ensures err { OnErr result (self.new ≡ self.old) }
    {
        if self.only_writes() {
            return Err(TxFault::WriteOnly);
        }
        let view = self.take_view(alloc)?;
        let rows = tree_of(&view, store).rows(alloc, path);
        self.view = Some(view);
        match rows {
            Ok(rows) => self.recorded(alloc, store, path, rows),
            Err(NoMemory) => Err(TxFault::NoMemory),
        }
    }

    /// Whether there is a row at or below the path, with its own writes applied. A transaction that only writes refuses. As with `read`, in
    /// mode `Checked` this is recorded, and the view may be made.
    pub fn exists(&mut self, alloc: Global, store: Store, path: &Path) -> Result<bool, TxFault>
        ensures found { IfOk result (λ b. b ≡ has (apply_ops (spec.rows_in self.old.base store) store self.old.changes) path.now) }
        ensures cause { MatchResult result (λ _. self.old.mode ≢ Mode.Wo) (λ e. (e ≡ TxFault.NoMemory) ⊎ ((e ≡ TxFault.WriteOnly) × (self.old.mode ≡ Mode.Wo))) }
        ensures ok { OnOk result (self.new ≡ spec.after_read store path.now self.old) }
        ensures err { OnErr result (self.new ≡ self.old) }
    {
        if self.only_writes() {
            return Err(TxFault::WriteOnly);
        }
        let view = self.take_view(alloc)?;
        let found = tree_of(&view, store).exists(path);
        self.view = Some(view);
        self.recorded(alloc, store, path, found)
    }

    // The result of a read, which is recorded.
    fn recorded<A: Drop>(
        &mut self,
        alloc: Global,
        store: Store,
        path: &Path,
        answer: A,
    ) -> Result<A, TxFault>
        ensures answer { MatchResult result (λ it. it ≡ answer) (λ e. e ≡ TxFault.NoMemory) }
        ensures ok { OnOk result (self.new ≡ spec.after_read store path.now self.old) }
        ensures err { OnErr result (self.new ≡ self.old) }
    {
        match record_read(alloc, &mut self.parts, store, path) {
            Ok(()) => Ok(answer),
            Err(NoMemory) => Err(TxFault::NoMemory),
        }
    }

    /// Replaces all at and below the path by the rows.
    pub fn put(
        &mut self,
        alloc: Global,
        store: Store,
        path: Path,
        rows: Rows,
    ) -> Result<(), TxFault>
        requires { IsForSchema self.old.begun.schema.value (record { store = store; path = path; act = SetAll rows }) }
        ensures outcome { spec.IsOutcome self.old (record { store = store; path = path; act = SetAll rows }) self.new result }
        ensures err { IfErr result (λ e. self.new ≡ spec.after_refusal e store self.old) }
    {
        self.write(
            alloc,
            Op {
                store,
                path,
                act: Act::Put(rows),
            },
        )
    }

    /// Sets only these rows.
    pub fn merge(
        &mut self,
        alloc: Global,
        store: Store,
        path: Path,
        rows: Rows,
    ) -> Result<(), TxFault>
        requires { IsForSchema self.old.begun.schema.value (record { store = store; path = path; act = SetSome rows }) }
        ensures outcome { spec.IsOutcome self.old (record { store = store; path = path; act = SetSome rows }) self.new result }
        ensures err { IfErr result (λ e. self.new ≡ spec.after_refusal e store self.old) }
    {
        self.write(
            alloc,
            Op {
                store,
                path,
                act: Act::Merge(rows),
            },
        )
    }

    /// Removes all at and below the path. If there is nothing, only the list of operations changes.
    pub fn delete(&mut self, alloc: Global, store: Store, path: Path) -> Result<(), TxFault>
        requires { IsForSchema self.old.begun.schema.value (record { store = store; path = path; act = ClearAll }) }
        ensures outcome { spec.IsOutcome self.old (record { store = store; path = path; act = ClearAll }) self.new result }
        ensures err { IfErr result (λ e. self.new ≡ spec.after_refusal e store self.old) }
    {
        self.write(
            alloc,
            Op {
                store,
                path,
                act: Act::Delete,
            },
        )
    }

    /// One operation: a put, a merge or a delete. After a refused write the transaction is unchanged, except that in mode
    /// `Checked` a missing parent is recorded as read.
    pub fn write(&mut self, alloc: Global, op: Op) -> Result<(), TxFault>
        requires { IsForSchema self.old.begun.schema.value op }
        ensures outcome { spec.IsOutcome self.old op self.new result }
        ensures err { IfErr result (λ e. self.new ≡ spec.after_refusal e op.store self.old) }
    {
        let store = op.store;
        match self.pushed(alloc, op) {
            Ok(()) => Ok(()),
            Err(fault) => Err(refuse(alloc, &mut self.parts, store, fault)),
        }
    }

    // One operation. If it is refused, nothing changes.
    fn pushed(&mut self, alloc: Global, op: Op) -> Result<(), TxFault>
        requires { IsForSchema self.old.begun.schema.value op }
        ensures outcome { spec.IsOutcome self.old op self.new result }
        ensures err { OnErr result (self.new ≡ self.old) }
    {
        if self.parts.changes.ops().is_empty() {
            self.view = None;
            return push_first(alloc, &mut self.parts, op);
        }
        let mut view = self.take_view(alloc)?;
        let done = push(alloc, &mut self.parts, &mut view, op);
        self.view = Some(view);
        done
    }

    /// The submission of this receipt: the transaction's chain, base and operations, and its view if it was made. It takes no
    /// memory.
    pub fn into_submission(self, receipt: u64) -> Submission
        ensures submission { result ≡ record { receipt = receipt; domain = self.begun.domain; chain = self.begun.chain; base_commit = self.begun.base_commit; base = self.base; view = result.view; stamp = spec.stamp_of self.begun.place; changes = self.changes } }
        ensures view { IfSome result.view (spec.Shows self.base self.changes) }
        ensures right { spec.IsRight self }
    {
        let WriteTx { parts, view } = self;
        let stamp = stamp_of(&parts.begun);
        Submission {
            receipt,
            domain: parts.begun.domain,
            chain: parts.begun.chain,
            base_commit: parts.begun.base_commit,
            base: parts.base,
            view,
            stamp,
            changes: parts.changes,
        }
    }
}
