//! The list of a transaction's operations: owned or shared.
ghost use Rattle.std.specs.Prelude.{◌≡◌, IfOk, OnErr};
ghost use Rattle.sal_mod.specs.Held.{held};

use sal_rows::{Op, Ops};
use sal_types::{Duplicate, NoMemory, Seq};
use std::alloc::Global;
use std::mem;
use std::sync::Arc;

/// The operations, in order. They are shared once the log or a commit has the same list.
#[derive(Drop)]
pub(crate) enum Held {
    Own(Vec<Op>),
    Shared(Arc<Ops>),
}

impl Held {
    /// The operations. It takes no memory.
    pub(crate) fn ops(&self) -> &[Op]
        ensures { result.now ≡ held self.now }
    {
        match self {
            Held::Own(list) => list,
            Held::Shared(list) => list.items(),
        }
    }

    /// Takes the operations out, as an owned list. It copies them if they are shared.
    pub(crate) fn take(&mut self, alloc: Global) -> Result<Vec<Op>, NoMemory>
        ensures list { IfOk result (λ list. list.items ≡ held self.old) }
        ensures err { OnErr result (held self.new ≡ held self.old) }
    {
        match self {
            Held::Own(list) => Ok(mem::replace(list, Vec::new(alloc))),
            Held::Shared(list) => copied(alloc, list.items()),
        }
    }

    /// Returns the list, which is shared from now on, without a copy.
    pub(crate) fn share(&mut self, alloc: Global) -> Result<Arc<Ops>, NoMemory>
        ensures same { held self.new ≡ held self.old }
        ensures list { IfOk result (λ list. list.value ≡ held self.old) }
    {
        self.become_shared(alloc)?;
        self.list(alloc)
    }

    fn become_shared(&mut self, alloc: Global) -> Result<(), NoMemory>
        ensures { held self.new ≡ held self.old }
    {
        let own = match self {
            Held::Shared(_) => return Ok(()),
            Held::Own(list) => mem::replace(list, Vec::new(alloc)),
        };
        match Arc::new(alloc, Seq::from_items(own)) {
            Ok(list) => {
                *self = Held::Shared(list);
                Ok(())
            }
            Err(failed) => {
                *self = Held::Own(failed.value.into_items());
                Err(NoMemory)
            }
        }
    }

    /// The list, or a copy of it if it is not shared.
    pub(crate) fn list(&self, alloc: Global) -> Result<Arc<Ops>, NoMemory>
        ensures { IfOk result (λ list. list.value ≡ held self.now) }
    {
        match self {
            Held::Own(list) => copied_to_share(alloc, list),
            Held::Shared(list) => {
                let list = Arc::try_clone(list)?;
                Ok(list)
            }
        }
    }
}

fn copied(alloc: Global, ops: &[Op]) -> Result<Vec<Op>, NoMemory>
    ensures { IfOk result (λ copy. copy.items ≡ ops.now) }
{
    let mut list = Vec::with_capacity(alloc, ops.len())?;
    for op in ops {
        list.push(op.copy()?)?;
    }
    Ok(list)
}

fn copied_to_share(alloc: Global, ops: &[Op]) -> Result<Arc<Ops>, NoMemory>
    ensures { IfOk result (λ copy. copy.value ≡ ops.now) }
{
    let list = copied(alloc, ops)?;
    let shared = Arc::new(alloc, Seq::from_items(list))?;
    Ok(shared)
}
