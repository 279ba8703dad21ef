//! A counter leaf.
ghost use Rattle.std.specs.Prelude.{◌≡◌};

use anyhow::bail;
use sal::{
    Atom, Cell, Duplicate, NoMemory, Path, Patterns, Row, Rows, Schema, Store, Value, WriteTx,
    is_for, read_path,
};
use std::alloc::Global;

/// The leaf of the configuration with the last number given. It is absent if none was given.
#[derive(Drop)]
pub struct Counter {
    path: Path,
}

impl Counter {
    /// The counter at the path of the text.
    pub fn at(alloc: Global, schema: &Schema, text: &str) -> anyhow::Result<Counter> {
        let patterns = Patterns::of(alloc, schema)?;
        let path = read_path(alloc, schema, &patterns, text)?;
        Ok(Counter { path })
    }

    /// The path of the leaf.
    pub fn path(&self) -> &Path {
        &self.path
    }

    /// Puts the number after the last one, as the transaction sees it.
    pub fn count_up(&self, alloc: Global, tx: &mut WriteTx) -> anyhow::Result<()>
        ensures begun { tx.new.begun ≡ tx.old.begun }
        ensures mode { tx.new.mode ≡ tx.old.mode }
        ensures base { tx.new.base ≡ tx.old.base }
    {
        let last = self.last(alloc, tx)?;
        self.put(alloc, tx, last.saturating_add(1))
    }

    // The last number given.
    fn last(&self, alloc: Global, tx: &mut WriteTx) -> anyhow::Result<u64>
        ensures begun { tx.new.begun ≡ tx.old.begun }
        ensures mode { tx.new.mode ≡ tx.old.mode }
        ensures base { tx.new.base ≡ tx.old.base }
    {
        let rows = tx.read(alloc, Store::Config, &self.path)?;
        Ok(number_in(&rows))
    }

    // Puts the last number given.
    fn put(&self, alloc: Global, tx: &mut WriteTx, number: u64) -> anyhow::Result<()>
        ensures begun { tx.new.begun ≡ tx.old.begun }
        ensures mode { tx.new.mode ≡ tx.old.mode }
        ensures base { tx.new.base ≡ tx.old.base }
    {
        let rows = leaf_with(alloc, &self.path, number)?;
        if !is_for(tx.schema(), Store::Config, &self.path, &rows) {
            bail!("{number} is no number of the counter");
        }
        let path = self.path.copy()?;
        Ok(tx.put(alloc, Store::Config, path, rows)?)
    }
}

/// The leaf at the path with this number, and no other row.
pub fn leaf_with(alloc: Global, path: &Path, number: u64) -> Result<Rows, NoMemory> {
    let value = Value {
        member: 0,
        atom: Atom::Unsigned(number),
    };
    let row = Row {
        path: path.copy()?,
        cell: Cell::Leaf(value),
    };
    Rows::of_one(alloc, row)
}

/// The number in the rows of the leaf.
pub fn number_in(rows: &Rows) -> u64 {
    match rows.items() {
        [row, ..] => match &row.cell {
            Cell::Leaf(value) => number_of(value),
            Cell::Mark => 0,
        },
        [] => 0,
    }
}

fn number_of(value: &Value) -> u64 {
    match &value.atom {
        Atom::Unsigned(number) => *number,
        _ => 0,
    }
}
