//! Rows, of which trees are made.
use crate::memory::{Duplicate, NoMemory};
use crate::path::Path;
use crate::value::Cell;

/// A row: a cell at a path.
#[derive(Debug, Drop, PartialEq, Eq, PartialOrd, Ord)]
pub struct Row {
    pub path: Path,
    pub cell: Cell,
}

impl Duplicate for Row {
    fn copy(&self) -> Result<Self, NoMemory> {
        let path = self.path.copy()?;
        let cell = self.cell.copy()?;
        Ok(Row { path, cell })
    }
}
