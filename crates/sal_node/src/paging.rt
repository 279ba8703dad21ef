//! The children of a node, alone, in pages or in sheets.
ghost use Rattle.std.specs.Prelude.{◌≡◌, ◌≤◌, ◌++◌, ◌↔◌, IsTrue, length, IfOk, OnOk, T};
ghost use Rattle.sal_types.specs.Order.{step_cmp};
ghost use Rattle.std.specs.FinMap.{find, is_sorted};
ghost use Rattle.sal_node.specs.Tree.{change, grove, is_filled};
ghost use Rattle.std.specs.Prelude.{None};
ghost use Rattle.sal_node.specs.Shape.{row_of, listed, sheeted, paged, ArePages, AreSheets, ArePaged, tree_in, tree_at, seen};
ghost use Rattle.sal_node.specs.Shape.{AreFrom, made_by};

use crate::node::{Child, Node, Page, Paging, Sheet};
use crate::pages::{
    PAGE, add_pages, changed, changed_pages, child_at, copy_children, found, least, page_of,
    parting, push_children, push_made, push_made_pages, push_pages, room_after, share_pages,
};
use crate::sheets::{
    add_sheets, changed_sheets, child_in, push_made_sheets, push_sheets, room_after_sheets,
    share_sheets, sheet_of, sheet_parting,
};
use sal_types::{NoMemory, Step};
use std::alloc::Global;
use std::sync::Arc;

// The children, in two pages if they are more than 64.
fn few_of(alloc: Global, children: Vec<Arc<Child>>, parting: usize) -> Result<Paging, NoMemory>
    requires few { length children.items ≤ 65 }
    requires low { 32 ≤ parting }
    requires high { parting ≤ 64 }
    ensures list { IfOk result (λ k. paged k ≡ row_of children.items) }
    ensures pages { IfOk result (λ k. ArePaged k) }
{
    if children.len() <= PAGE {
        return Ok(Paging::Few(children));
    }
    let mut pages = Vec::with_capacity(alloc, 2)?;
    add_pages(alloc, &mut pages, page_of(children), parting)?;
    Ok(Paging::Pages(pages))
}

// The pages, in sheets if they are more than 64.
fn paging_of(alloc: Global, pages: Vec<Arc<Page>>, parting: usize) -> Result<Paging, NoMemory>
    requires pages { ArePages pages.items }
    requires few { length pages.items ≤ 65 }
    requires low { 32 ≤ parting }
    requires high { parting ≤ 64 }
    ensures list { IfOk result (λ k. paged k ≡ listed pages.items) }
    ensures pages { IfOk result (λ k. ArePaged k) }
{
    if pages.len() <= PAGE {
        return Ok(Paging::Pages(pages));
    }
    let mut sheets = Vec::new(alloc);
    add_sheets(alloc, &mut sheets, sheet_of(pages), parting)?;
    Ok(Paging::Sheets(sheets))
}

/// The pages, directly if there are no sheets, and else as the last sheet.
pub(crate) fn joined(
    alloc: Global,
    sheets: Vec<Arc<Sheet>>,
    pages: Vec<Arc<Page>>,
) -> Result<Paging, NoMemory>
    requires sheets { AreSheets sheets.items }
    requires pages { ArePages pages.items }
    requires few { length pages.items ≤ 64 }
    ensures list { IfOk result (λ k. paged k ≡ sheeted sheets.items ++ listed pages.items) }
    ensures pages { IfOk result (λ k. ArePaged k) }
{
    if sheets.is_empty() {
        return Ok(Paging::Pages(pages));
    }
    let mut sheets = sheets;
    add_sheets(alloc, &mut sheets, sheet_of(pages), PAGE)?;
    Ok(Paging::Sheets(sheets))
}

/// The children with another one at the step, or with none there.
pub(crate) fn changed_paging(
    alloc: Global,
    paging: &Paging,
    step: &Step,
    node: Option<Arc<Node>>,
) -> Result<Paging, NoMemory>
    requires old { ArePaged paging.now }
    requires sorted { T (is_sorted step_cmp (paged paging.now)) }
    ensures list { IfOk result (λ k. paged k ≡ change step.now (tree_in node) (paged paging.now)) }
    ensures pages { IfOk result (λ k. ArePaged k) }
{
    match paging {
        Paging::Few(children) => {
            let children = changed(alloc, children, step, node)?;
            let parting = parting(&children, step);
            let paging = few_of(alloc, children, parting)?;
            Ok(paging)
        }
        Paging::Pages(pages) => {
            let pages = changed_pages(alloc, pages, step, node)?;
            let parting = sheet_parting(&pages, step);
            let paging = paging_of(alloc, pages, parting)?;
            Ok(paging)
        }
        Paging::Sheets(sheets) => {
            let sheets = changed_sheets(alloc, sheets, step, node)?;
            Ok(Paging::Sheets(sheets))
        }
    }
}

/// The same children, shared.
pub(crate) fn shared_paging(alloc: Global, paging: &Paging) -> Result<Paging, NoMemory>
    requires { ArePaged paging.now }
    ensures list { IfOk result (λ k. paged k ≡ paged paging.now) }
    ensures pages { IfOk result (λ k. ArePaged k) }
{
    match paging {
        Paging::Few(children) => {
            let mut list = Vec::with_capacity(alloc, children.len())?;
            copy_children(&mut list, children)?;
            Ok(Paging::Few(list))
        }
        Paging::Pages(pages) => {
            let mut list = Vec::with_capacity(alloc, pages.len())?;
            share_pages(&mut list, pages)?;
            Ok(Paging::Pages(list))
        }
        Paging::Sheets(sheets) => {
            let mut list = Vec::with_capacity(alloc, sheets.len())?;
            share_sheets(&mut list, sheets)?;
            Ok(Paging::Sheets(list))
        }
    }
}

/// The child at the step.
pub(crate) fn child_of<'a>(paging: &'a Paging, step: &Step) -> Option<&'a Arc<Node>>
    requires old { ArePaged paging.now }
    requires sorted { T (is_sorted step_cmp (paged paging.now)) }
    ensures { tree_at result ≡ find step_cmp step.now (paged paging.now) }
{
    match paging {
        Paging::Few(children) => found(children, step),
        Paging::Pages(pages) => child_at(pages, step),
        Paging::Sheets(sheets) => child_in(sheets, step),
    }
}

/// Whether there are at most so many children, by the lengths of their pages.
pub(crate) fn are_at_most(paging: &Paging, most: usize) -> bool
    ensures { IsTrue result ↔ (length (paged paging.now) ≤ most) }
{
    match paging {
        Paging::Few(children) => children.len() <= most,
        Paging::Pages(pages) => room_after(pages, most).is_some(),
        Paging::Sheets(sheets) => room_after_sheets(sheets, most).is_some(),
    }
}

/// Whether there are children.
pub(crate) fn has_children(paging: &Paging) -> bool
    requires { ArePaged paging.now }
    ensures { result ≡ is_filled None (grove (paged paging.now)) }
{
    match paging {
        Paging::Few(children) => !children.is_empty(),
        Paging::Pages(pages) => !pages.is_empty(),
        Paging::Sheets(sheets) => !sheets.is_empty(),
    }
}

/// The children, in order.
pub(crate) fn all_children<'a>(
    alloc: Global,
    paging: &'a Paging,
) -> Result<Vec<&'a Child>, NoMemory>
    ensures { IfOk result (λ v. seen v.items ≡ paged paging.entry.now) }
{
    let mut list = Vec::new(alloc);
    push_paging(&mut list, paging)?;
    Ok(list)
}

fn push_paging<'a>(into: &mut Vec<&'a Child>, paging: &'a Paging) -> Result<(), NoMemory>
    ensures { OnOk result (seen into.new.items ≡ seen into.old.items ++ paged paging.entry.now) }
{
    match paging {
        Paging::Few(children) => push_children(into, children),
        Paging::Pages(pages) => push_pages(into, pages),
        Paging::Sheets(sheets) => push_sheets(into, sheets),
    }
}

/// The children with one of the stamps, in order.
pub(crate) fn made_children<'a>(
    alloc: Global,
    paging: &'a Paging,
    stamps: &[u64],
) -> Result<Vec<&'a Child>, NoMemory>
    requires { ArePaged paging.now }
    ensures { IfOk result (λ v. seen v.items ≡ made_by stamps.now (paged paging.entry.now)) }
{
    let mut list = Vec::new(alloc);
    push_made_paging(&mut list, paging, stamps, least(stamps))?;
    Ok(list)
}

fn push_made_paging<'x, 'a>(
    into: &'x mut Vec<&'a Child>,
    paging: &'a Paging,
    stamps: &[u64],
    least: u64,
) -> Result<(), NoMemory>
    requires pages { ArePaged paging.now }
    requires least { AreFrom least stamps.now }
    ensures { OnOk result (seen into.new.items ≡ seen into.old.items ++ made_by stamps.now (paged paging.entry.now)) }
{
    match paging {
        Paging::Few(children) => push_made(into, children, stamps),
        Paging::Pages(pages) => push_made_pages(into, pages, stamps, least),
        Paging::Sheets(sheets) => push_made_sheets(into, sheets, stamps, least),
    }
}
