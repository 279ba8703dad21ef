//! The operations of a transaction.
ghost use Rattle.std.specs.Prelude.{◌≡◌, ◌+◌, ◌≤◌, [], ◌∷◌, ◌++◌, OnOk, OnErr, IfErr, IfOk, take};
ghost use Rattle.std.specs.Vec.{vec_capacity, vec_len};
ghost use Rattle.std.specs.List.{list_any};
ghost use Rattle.sal_rows.specs.Apply.{is_read};
ghost use Rattle.sal_rows.specs.Reads.{is_known};
ghost use Rattle.sal_mod.specs.Covers.{is_covered, stands_over};
ghost use Rattle.sal_mod.specs.Firsts.{AreFirstIn};
ghost use Rattle.sal_mod.specs.Held.{has_reads};

use crate::covers::{Covers, any_covers, any_reads, note_next};
use crate::held::Held;
use sal_rows::{Op, Ops};
use sal_types::{NoMemory, Path, Store};
use std::alloc::{AllocError, Global};
use std::marker::Model;
use std::sync::Arc;

/// The operations of a transaction, in the order in which they were added.
pub struct Mod {
    list: Held,
    /// None while the operations are few.
    covers: Option<Covers>,
    /// Whether one of them is a read.
    has_reads: bool,
}

impl Drop for Mod {
    fn drop(self) {
        let Mod {
            list: _,
            covers: _,
            has_reads: _,
        } = self;
    }
}

impl Model for Mod {
    ghost use Rattle.std.specs.Prelude.{List};
    ghost use Rattle.sal_rows.specs.declared.op.Op.{Op};
    ghost use Rattle.sal_mod.specs.Firsts.{AreFirstIn};
    ghost use Rattle.std.specs.Prelude.{◌≡◌};
    ghost use Rattle.sal_mod.specs.Held.{has_reads as any_read, held};

    ghost Value = { List Op };

    ghost view = { λ a. held a.list };

    ghost invariant = { λ a. AreFirstIn (held a.list) a.covers × (a.has_reads ≡ any_read (held a.list)) };
}

impl Mod {
    /// No operations. It takes no memory.
    pub fn new(alloc: Global) -> Mod
        ensures { result ≡ [] }
    {
        Mod {
            list: Held::Own(Vec::new(alloc)),
            covers: None,
            has_reads: false,
        }
    }

    /// Appends an operation. If memory runs out, the operation is returned, and the others are unchanged.
    pub fn add(&mut self, alloc: Global, op: Op) -> Result<(), (Op, NoMemory)>
        ensures ok { OnOk result (self.new ≡ self.old ++ op ∷ []) }
        ensures returned { IfErr result (λ e. e.0 ≡ op) }
        ensures err { OnErr result (self.new ≡ self.old) }
    {
        let mut list = match self.list.take(alloc) {
            Ok(list) => list,
            Err(refused) => return Err((op, refused)),
        };
        let has_reads = self.has_reads || op.act.is_read();
        let added = add_to(alloc, &mut list, &mut self.covers, op);
        self.list = Held::Own(list);
        if added.is_ok() {
            self.has_reads = has_reads;
        }
        added
    }

    /// The operations, in order. It takes no memory.
    pub fn ops(&self) -> &[Op]
        ensures { result.now ≡ self.now }
    {
        self.list.ops()
    }

    /// Their list, to be shared with the log and a commit: no copy of it is made. An operation that is added later is added to a copy.
    pub fn share(&mut self, alloc: Global) -> Result<Arc<Ops>, NoMemory>
        ensures same { self.new ≡ self.old }
        ensures list { IfOk result (λ list. list.value ≡ self.old) }
    {
        self.list.share(alloc)
    }

    /// Their list, or a copy of it if it is not shared.
    pub fn shared(&self, alloc: Global) -> Result<Arc<Ops>, NoMemory>
        ensures { IfOk result (λ list. list.value ≡ self.now) }
    {
        self.list.list(alloc)
    }

    /// Whether an operation of the store before the index is a put or delete at a prefix of the path. It
    /// takes no memory.
    pub fn covered(&self, store: Store, path: &Path, before: usize) -> bool
        ensures { result ≡ is_covered store self.now path.now before }
    {
        match &self.covers {
            Some(covers) => covers.is_covered(self.list.ops(), store, path, before),
            None => any_covers(first_of(self.list.ops(), before), store, path),
        }
    }

    /// Whether one of the operations is a read. It takes no memory.
    pub fn has_reads(&self) -> bool
        ensures { result ≡ has_reads self.now }
    {
        self.has_reads
    }

    /// Whether another read of the path in the store adds nothing: one of the operations puts, deletes or reads a prefix of it.
    /// It takes no memory.
    pub fn knows(&self, store: Store, path: &Path) -> bool
        ensures { result ≡ is_known self.now store path.now }
    {
        self.covered(store, path, self.ops().len()) || self.was_read(store, path)
    }

    fn was_read(&self, store: Store, path: &Path) -> bool
        ensures { result ≡ list_any (stands_over is_read store path.now) self.now }
    {
        if !self.has_reads {
            return false;
        }
        match &self.covers {
            Some(covers) => covers.was_read(self.list.ops(), store, path),
            None => any_reads(self.list.ops(), store, path),
        }
    }
}

// Appends an operation to the list. If memory runs out, the operation is returned, and the others are unchanged.
fn add_to(
    alloc: Global,
    list: &mut Vec<Op>,
    covers: &mut Option<Covers>,
    op: Op,
) -> Result<(), (Op, NoMemory)>
    requires { AreFirstIn list.old.items covers.old }
    ensures ok { OnOk result (list.new.items ≡ list.old.items ++ op ∷ []) }
    ensures covers { OnOk result (AreFirstIn list.new.items covers.new) }
    ensures returned { IfErr result (λ e. e.0 ≡ op) }
    ensures err { OnErr result (list.new.items ≡ list.old.items) }
    ensures same { OnErr result (covers.new ≡ covers.old) }
{
    if make_room(list).is_err() {
        return Err((op, NoMemory));
    }
    match note_next(alloc, covers, list, &op) {
        Ok(()) => {
            list.push(op).unwrap();
            Ok(())
        }
        Err(refused) => Err((op, refused)),
    }
}

// Makes room for one more operation: exactly one if the list is empty, as most transactions have just one.
fn make_room(list: &mut Vec<Op>) -> Result<(), AllocError>
    ensures items { list.new.items ≡ list.old.items }
    ensures len { vec_len list.new ≡ vec_len list.old }
    ensures room { OnOk result (vec_len list.new + 1 ≤ vec_capacity list.new) }
{
    if list.is_empty() {
        list.reserve_exact(1)
    } else {
        list.reserve(1)
    }
}

// The operations before the index.
fn first_of(ops: &[Op], before: usize) -> &[Op]
    ensures { result.now ≡ take before ops.now }
{
    if before < ops.len() {
        &ops[..before]
    } else {
        ops
    }
}
