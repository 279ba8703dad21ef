//! The index of the first put or delete at each path, and of the first read, for look-ups by prefix.
ghost use Rattle.std.specs.Prelude.{◌≡◌, ◌++◌, ◌∷◌, [], IfOk, OnOk, OnErr};
ghost use Rattle.std.specs.List.{list_any};
ghost use Rattle.sal_rows.specs.Apply.{is_read};
ghost use Rattle.sal_mod.specs.Covers as spec;
ghost use Rattle.sal_mod.specs.Firsts.{AreFirst, AreFirstIn};

use crate::firsts::Firsts;
use sal_rows::{Op, same_store};
use sal_types::{NoMemory, Path, Store};
use std::alloc::Global;

/// Up to this number the operations are searched one by one.
const FEW: usize = 8;

/// The index of the first put or delete at each path, and that of the first read.
pub(crate) struct Covers {
    pub(crate) writes: Firsts,
    pub(crate) reads: Firsts,
}

impl Drop for Covers {
    fn drop(self) {
        let Covers {
            writes: _,
            reads: _,
        } = self;
    }
}

impl Covers {
    fn new(alloc: Global) -> Covers
        ensures { AreFirst [] result }
    {
        Covers {
            writes: Firsts::new(alloc),
            reads: Firsts::new(alloc),
        }
    }

    /// Whether an operation of the store before the index is a put or delete at a prefix of the path. It
    /// takes no memory.
    pub(crate) fn is_covered(&self, ops: &[Op], store: Store, path: &Path, before: usize) -> bool
        requires { AreFirst ops.now self.now }
        ensures { result ≡ spec.is_covered store ops.now path.now before }
    {
        self.writes.is_early(store, path, before)
    }

    /// Whether an operation of the store reads a prefix of the path. It takes no memory.
    pub(crate) fn was_read(&self, ops: &[Op], store: Store, path: &Path) -> bool
        requires { AreFirst ops.now self.now }
        ensures { result ≡ list_any (spec.stands_over is_read store path.now) ops.now }
    {
        self.reads.is_early(store, path, ops.len())
    }

    /// Records the operation that follows these. If memory runs out, nothing changes.
    fn note_behind(&mut self, alloc: Global, ops: &[Op], op: &Op) -> Result<(), NoMemory>
        requires { AreFirst ops.now self.old }
        ensures ok { OnOk result (AreFirst (ops.now ++ op.now ∷ []) self.new) }
        ensures err { OnErr result (self.new ≡ self.old) }
    {
        if op.act.checks_path() {
            return self.writes.note(alloc, op, ops.len());
        }
        if op.act.is_read() {
            return self.reads.note(alloc, op, ops.len());
        }
        Ok(())
    }
}

/// Records the operation that follows these, if it is not among the few. If memory runs out, nothing changes.
pub(crate) fn note_next(
    alloc: Global,
    covers: &mut Option<Covers>,
    ops: &[Op],
    op: &Op,
) -> Result<(), NoMemory>
    requires { AreFirstIn ops.now covers.old }
    ensures ok { OnOk result (AreFirstIn (ops.now ++ op.now ∷ []) covers.new) }
    ensures err { OnErr result (covers.new ≡ covers.old) }
{
    match covers {
        Some(covers) => covers.note_behind(alloc, ops, op),
        None => {
            if ops.len() < FEW {
                return Ok(());
            }
            *covers = Some(with_next(alloc, ops, op)?);
            Ok(())
        }
    }
}

// The indexes of these operations and one more.
fn with_next(alloc: Global, ops: &[Op], op: &Op) -> Result<Covers, NoMemory>
    ensures { IfOk result (λ covers. AreFirst (ops.now ++ op.now ∷ []) covers) }
{
    let mut covers = of_all(alloc, ops)?;
    covers.note_behind(alloc, ops, op)?;
    Ok(covers)
}

fn of_all(alloc: Global, ops: &[Op]) -> Result<Covers, NoMemory>
    ensures { IfOk result (λ covers. AreFirst ops.now covers) }
{
    let mut covers = Covers::new(alloc);
    for (place, op) in ops.iter().enumerate() {
        covers.note_behind(alloc, &ops[..place], op)?;
    }
    Ok(covers)
}

/// Whether one of the operations covers the path. It takes no memory.
pub(crate) fn any_covers(ops: &[Op], store: Store, path: &Path) -> bool
    ensures { result ≡ list_any (spec.covers store path.now) ops.now }
{
    ops.iter().any(|op| covers_path(op, store, path))
}

fn covers_path(op: &Op, store: Store, path: &Path) -> bool
    ensures { result ≡ spec.covers store path.now op.now }
{
    same_store(op.store, store) && (op.act.checks_path() && op.path.is_prefix_of(path))
}

/// Whether one of the operations reads a prefix of the path. It takes no memory.
pub(crate) fn any_reads(ops: &[Op], store: Store, path: &Path) -> bool
    ensures { result ≡ list_any (spec.stands_over is_read store path.now) ops.now }
{
    ops.iter().any(|op| reads_path(op, store, path))
}

fn reads_path(op: &Op, store: Store, path: &Path) -> bool
    ensures { result ≡ spec.stands_over is_read store path.now op.now }
{
    same_store(op.store, store) && (op.act.is_read() && op.path.is_prefix_of(path))
}
