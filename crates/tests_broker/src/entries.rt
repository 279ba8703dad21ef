// Rows of the list 0, whose entries have their key, node 1, and a leaf, node 2, and rows of the leafs 4 and 5 of the container 3.
use sal_types::{Atom, Cell, NoMemory, Path, Row, Seq, Shared, Step, Str, Value};
use std::alloc::Global;

fn number(value: u64) -> Value {
    Value {
        member: 0,
        atom: Atom::Unsigned(value),
    }
}

fn text(alloc: Global, text: &str) -> Result<Value, NoMemory> {
    let atom = Atom::Text(Str::new(alloc, text)?);
    Ok(Value { member: 0, atom })
}

// ---- paths, of at most three steps

fn below(path: Path, step: Step) -> Result<Path, NoMemory> {
    let mut path = path;
    match path.push(step) {
        Ok(()) => Ok(path),
        Err(_) => Err(NoMemory),
    }
}

/// The path of a node at the top.
pub(crate) fn top(alloc: Global, node: u32) -> Result<Path, NoMemory> {
    below(Path::root(alloc), Step::Node(node))
}

/// The entry of the list with this key.
pub(crate) fn entry(alloc: Global, key: u64) -> Result<Path, NoMemory> {
    let values = vec![in alloc; number(key)]?;
    let keys = Shared::new(alloc, Seq::from_items(values))?;
    below(top(alloc, 0)?, Step::Key(keys))
}

/// A leaf of the container.
pub(crate) fn leaf(alloc: Global, node: u32) -> Result<Path, NoMemory> {
    below(top(alloc, 3)?, Step::Node(node))
}

// ---- rows

fn mark(alloc: Global, key: u64) -> Result<Row, NoMemory> {
    Ok(Row {
        path: entry(alloc, key)?,
        cell: Cell::Mark,
    })
}

fn number_row(alloc: Global, key: u64, node: u32, value: u64) -> Result<Row, NoMemory> {
    let path = below(entry(alloc, key)?, Step::Node(node))?;
    Ok(Row {
        path,
        cell: Cell::Leaf(number(value)),
    })
}

/// The row of a leaf of the container.
pub(crate) fn text_row(alloc: Global, node: u32, value: &str) -> Result<Row, NoMemory> {
    let value = text(alloc, value)?;
    Ok(Row {
        path: leaf(alloc, node)?,
        cell: Cell::Leaf(value),
    })
}

/// Appends a row.
pub(crate) fn add(rows: &mut Vec<Row>, row: Row) -> Result<(), NoMemory> {
    rows.push(row)?;
    Ok(())
}

/// Appends the rows of an entry without its leaf.
pub(crate) fn add_bare(rows: &mut Vec<Row>, alloc: Global, key: u64) -> Result<(), NoMemory> {
    add(rows, mark(alloc, key)?)?;
    add(rows, number_row(alloc, key, 1, key)?)
}

/// Appends the rows of an entry.
pub(crate) fn add_entry(rows: &mut Vec<Row>, alloc: Global, key: u64) -> Result<(), NoMemory> {
    add_bare(rows, alloc, key)?;
    add(rows, number_row(alloc, key, 2, 0)?)
}

/// Appends the rows of the entries with the keys below a number.
pub(crate) fn add_entries(rows: &mut Vec<Row>, alloc: Global, count: u64) -> Result<(), NoMemory> {
    for key in 0..count {
        add_entry(rows, alloc, key)?;
    }
    Ok(())
}
