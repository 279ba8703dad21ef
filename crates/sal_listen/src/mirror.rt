//! A copy of a listener's rows.
ghost use Rattle.std.specs.Prelude.{◌≡◌, ◌≢◌, ◌↔◌, IsErrOf, IfOk, IfErr, OnOk, OnErr};
ghost use Rattle.sal_types.specs.Tree.{IsAscending};
ghost use Rattle.sal_rows.specs.Patch.{with_changes, with_parts};
ghost use Rattle.sal_listen.specs.Mirrors.{CarriesOn};

use sal_rows::{Batch, Change, Opened, Part, Rows};
use sal_rowtree::RowTree;
use sal_types::{Duplicate, NoMemory};
use std::alloc::Global;
use thiserror::Error;

/// Why a batch was not taken.
#[derive(Clone, Copy, Debug, PartialEq, Eq, Error)]
pub enum MirrorFault {
    /// The batch begins at another commit than the mirror's.
    #[error("the mirror is at commit {have}, and the batch begins at commit {from}")]
    Gap { have: u64, from: u64 },
    #[error("out of memory")]
    NoMemory,
}

/// A copy of a listener's rows, with the number of the commit that they are of.
pub struct Mirror {
    version: u64,
    rows: RowTree,
}

impl Drop for Mirror {
    fn drop(self) {
        let Mirror {
            version: _,
            rows: _,
        } = self;
    }
}

impl Mirror {
    /// The rows of the listener's opening.
    pub fn open(alloc: Global, opened: &Opened) -> Result<Mirror, NoMemory>
        ensures { IfOk result (λ m. m ≡ record { version = opened.now.version; rows = opened.now.rows }) }
    {
        let rows = RowTree::from_rows(alloc, &opened.rows)?;
        Ok(Mirror {
            version: opened.version,
            rows,
        })
    }

    /// Advances to the end of the batch. After a refused batch the mirror is unchanged.
    pub fn take(&mut self, alloc: Global, batch: &Batch) -> Result<(), MirrorFault>
        ensures version { OnOk result (self.new.version ≡ batch.now.to) }
        ensures rows { OnOk result (self.new.rows ≡ with_parts self.old.rows batch.now.lists) }
        ensures committed { OnOk result (CarriesOn batch.now self.old.rows self.new.rows) }
        ensures ascending { IsAscending self.old.rows }
        ensures gap { IsErrOf result (MirrorFault.Gap self.old.version batch.now.from) ↔ (self.old.version ≢ batch.now.from) }
        ensures memory { self.old.version ≡ batch.now.from → IfErr result (λ e. e ≡ MirrorFault.NoMemory) }
        ensures kept { OnErr result (self.new ≡ self.old) }
    {
        // For the proof alone: it says that the rows ascend.
        let _ = self.rows.root();
        if self.version != batch.from {
            return Err(MirrorFault::Gap {
                have: self.version,
                from: batch.from,
            });
        }
        let Ok(rows) = after_parts(alloc, &self.rows, batch.lists.items()) else {
            return Err(MirrorFault::NoMemory);
        };
        self.rows = rows;
        self.version = batch.to;
        Ok(())
    }

    /// The number of the commit that the rows are of. It takes no memory.
    pub fn version(&self) -> u64
        ensures { result ≡ self.now.version }
    {
        self.version
    }

    /// The rows.
    pub fn rows(&self, alloc: Global) -> Result<Rows, NoMemory>
        ensures { IfOk result (λ rows. rows ≡ self.now.rows) }
    {
        self.rows.rows(alloc)
    }
}

// The rows after the parts of a batch.
fn after_parts(alloc: Global, rows: &RowTree, parts: &[Part]) -> Result<RowTree, NoMemory>
    ensures { IfOk result (λ after. after ≡ with_parts rows.now parts.now) }
{
    let mut rows = rows.copy()?;
    for part in parts {
        rows = after_changes(alloc, rows, part.list.items())?;
    }
    Ok(rows)
}

// The rows after the changes.
fn after_changes(alloc: Global, rows: RowTree, list: &[Change]) -> Result<RowTree, NoMemory>
    ensures { IfOk result (λ after. after ≡ with_changes rows list.now) }
{
    let mut rows = rows;
    for change in list {
        rows = rows.with_cell(alloc, &change.path, &change.after)?;
    }
    Ok(rows)
}
