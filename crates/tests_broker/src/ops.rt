// Operations on the configuration.
ghost use Rattle.std.specs.Prelude.{◌≡◌, IsTrue};
ghost use Rattle.sal_types.specs.Tree.{under};
ghost use Rattle.sal_rows.specs.Apply.{rows_of_act};

use crate::entries::{add_bare, add_entry, entry, leaf, text_row};
use sal_rows::{Act, Op, Rows};
use sal_tree::lie_under;
use sal_types::{NoMemory, Path, Row, Store};
use std::alloc::Global;
use std::test::Fail;

/// The put of an entry of the list, with its leaf or without it, or the put or merge of a leaf of the container.
#[derive(Clone, Copy)]
pub(crate) enum Wish {
    PutEntry(u64),
    PutBare(u64),
    Put(u32, &'static str),
    Merge(u32, &'static str),
}

fn rows_in(list: Vec<Row>) -> Result<Rows, Fail> {
    match Rows::from_list(list) {
        Ok(rows) => Ok(rows),
        Err(_) => Err("rows out of order".into()),
    }
}

fn entry_rows(alloc: Global, key: u64) -> Result<Vec<Row>, NoMemory> {
    let mut rows = Vec::new(alloc);
    add_entry(&mut rows, alloc, key)?;
    Ok(rows)
}

fn bare_rows(alloc: Global, key: u64) -> Result<Vec<Row>, NoMemory> {
    let mut rows = Vec::new(alloc);
    add_bare(&mut rows, alloc, key)?;
    Ok(rows)
}

fn leaf_rows(alloc: Global, node: u32, value: &str) -> Result<Rows, NoMemory> {
    Rows::of_one(alloc, text_row(alloc, node, value)?)
}

fn act_of(alloc: Global, wish: Wish) -> Result<Act, Fail> {
    match wish {
        Wish::PutEntry(key) => Ok(Act::Put(rows_in(entry_rows(alloc, key)?)?)),
        Wish::PutBare(key) => Ok(Act::Put(rows_in(bare_rows(alloc, key)?)?)),
        Wish::Put(node, value) => Ok(Act::Put(leaf_rows(alloc, node, value)?)),
        Wish::Merge(node, value) => Ok(Act::Merge(leaf_rows(alloc, node, value)?)),
    }
}

fn path_of(alloc: Global, wish: Wish) -> Result<Path, NoMemory> {
    match wish {
        Wish::PutEntry(key) => entry(alloc, key),
        Wish::PutBare(key) => entry(alloc, key),
        Wish::Put(node, _) => leaf(alloc, node),
        Wish::Merge(node, _) => leaf(alloc, node),
    }
}

/// The operation.
pub(crate) fn op_of(alloc: Global, wish: Wish) -> Result<Op, Fail> {
    let act = act_of(alloc, wish)?;
    Ok(Op {
        store: Store::Config,
        path: path_of(alloc, wish)?,
        act,
    })
}

/// Whether the rows of an operation are at and below its path.
pub(crate) fn lies_below(op: &Op) -> bool
    ensures { IsTrue result → under (rows_of_act op.now.act) op.now.path ≡ rows_of_act op.now.act }
{
    match &op.act {
        Act::Put(rows) => lie_under(rows, &op.path),
        Act::Merge(rows) => lie_under(rows, &op.path),
        Act::Delete => true,
        Act::Read => true,
    }
}
