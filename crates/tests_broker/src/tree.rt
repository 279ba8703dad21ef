use crate::entries::top;
use crate::ops::{Wish, lies_below, op_of};
use sal_node::Paging;
use sal_rows::{Op, Rows};
use sal_tree::{Root, is_alike};
use sal_tx::edited;
use sal_types::{Duplicate, NoMemory, Path};
use std::alloc::Global;
use std::sync::Arc;
use std::test::Fail;

fn after(alloc: Global, root: &Root, op: &Op) -> Result<Root, Fail> {
    if !lies_below(op) {
        return Err("rows beside the path".into());
    }
    Ok(edited(alloc, root, op, 9)?)
}

// The tree with one entry more.
fn with_entry(alloc: Global, root: &Root, key: u64) -> Result<Root, Fail> {
    let op = op_of(alloc, Wish::PutEntry(key))?;
    after(alloc, root, &op)
}

fn put_in_order(alloc: Global) -> Result<Root, Fail> {
    let mut root = Root::empty(alloc)?;
    for key in 0..200u64 {
        root = with_entry(alloc, &root, key)?;
    }
    Ok(root)
}

// The number of pages of the list, if they are not in sheets.
fn pages(root: &Root, list: &Path) -> usize {
    match root.get(list) {
        Some(node) => match &node.paging {
            Paging::Few(_) => 0,
            Paging::Pages(pages) => pages.len(),
            Paging::Sheets(_) => 0,
        },
        None => 0,
    }
}

// The tree over the root node of another one.
fn over(root: &Root) -> Result<Root, NoMemory> {
    Ok(Root::from_node(Arc::try_clone(root.node())?))
}

// Whether a copy shares the list.
fn is_copy_alike(root: &Root, list: &Path) -> Result<bool, NoMemory> {
    let copy = over(&root.copy()?)?;
    Ok(is_alike(root, &copy, list))
}

fn is_same(alloc: Global, root: &Root, rows: &Rows) -> Result<bool, NoMemory> {
    let path = Path::root(alloc);
    Ok(root.rows(alloc, &path)?.items() == rows.items())
}

// Whether the tree made of these rows shares the list, and whether it has them.
fn again(alloc: Global, root: &Root, list: &Path, rows: &Rows) -> Result<[usize; 2], NoMemory> {
    let again = Root::from_rows(alloc, rows, 0)?;
    let is_same = is_same(alloc, &again, rows)?;
    Ok([is_alike(root, &again, list) as usize, is_same as usize])
}

// The same for the tree made of a tree's own rows.
fn made_again(alloc: Global, root: &Root, list: &Path) -> Result<[usize; 2], NoMemory> {
    let rows = root.rows(alloc, list)?;
    again(alloc, root, list, &rows)
}

// How many pages the list has; whether a copy shares it; whether the tree made again does, and has its rows.
fn seen_at(alloc: Global, root: &Root, list: &Path) -> Result<[usize; 4], NoMemory> {
    let is_shared = is_copy_alike(root, list)?;
    let [again, same] = made_again(alloc, root, list)?;
    Ok([pages(root, list), is_shared as usize, again, same])
}

fn seen(alloc: Global, root: &Root) -> Result<[usize; 4], NoMemory> {
    let list = top(alloc, 0)?;
    seen_at(alloc, root, &list)
}

fn seen_in_order(alloc: Global) -> Result<[usize; 4], Fail> {
    let root = put_in_order(alloc)?;
    Ok(seen(alloc, &root)?)
}

// Entries put in ascending order leave full pages.
#[test]
fn trees_are_made_again_of_their_rows(rt: HostRuntime) -> Result<(), Fail> {
    assert_eq!(rt; seen_in_order(rt.alloc())?, [4, 1, 0, 1]);
    Ok(())
}
