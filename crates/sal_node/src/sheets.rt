//! The sheets of a node of many children.
ghost use Rattle.std.specs.Prelude.{◌≡◌, ◌+◌, ◌<◌, ◌≤◌, ◌++◌, length, IfOk, MatchOption, OnOk, take, drop};
ghost use Rattle.sal_types.specs.Order.{step_cmp};
ghost use Rattle.std.specs.Prelude.{T};
ghost use Rattle.std.specs.FinMap.{find, is_sorted};
ghost use Rattle.sal_node.specs.Tree.{change, one_of};
ghost use Rattle.sal_node.specs.Shape.{listed, sheeted, ArePages, AreSheets, sheet_after, tree_in, tree_at, seen};
ghost use Rattle.sal_node.specs.Places.{IsPlaced};
ghost use Rattle.sal_node.specs.Shape.{UpTo, AreFrom, made_by};

use crate::node::{Child, Node, Page, Sheet};
use crate::pages::{
    PAGE, changed_pages, child_at, first_page, is_after, larger, newest_with, parting,
    push_made_pages, push_pages, room_after,
};
use sal_types::{NoMemory, Step};
use std::alloc::Global;
use std::sync::Arc;

/// Appends the sheets, shared.
pub(crate) fn share_sheets(
    into: &mut Vec<Arc<Sheet>>,
    sheets: &[Arc<Sheet>],
) -> Result<(), NoMemory>
    requires old { AreSheets into.old.items }
    requires given { AreSheets sheets.now }
    ensures list { OnOk result (sheeted into.new.items ≡ sheeted into.old.items ++ sheeted sheets.now) }
    ensures sheets { OnOk result (AreSheets into.new.items) }
{
    for sheet in sheets {
        let sheet = Arc::try_clone(sheet)?;
        into.push(sheet)?;
    }
    Ok(())
}

// The index of the sheet for the step: the sheet that has it, or in which it would be inserted.
fn target_sheet(sheets: &[Arc<Sheet>], step: &Step) -> usize
    requires { 0 < length sheets.now }
    ensures { IsPlaced sheets.now step.now result }
{
    let mut low = 0;
    let mut high = sheets.len();
    while high - low > 1 {
        let middle = low + (high - low) / 2;
        if is_sheet_after(&sheets[middle].pages, step) {
            high = middle;
        } else {
            low = middle;
        }
    }
    low
}

// Whether the sheet begins after the step.
fn is_sheet_after(pages: &[Arc<Page>], step: &Step) -> bool
    ensures { result ≡ sheet_after step.now pages.now }
{
    match pages {
        [] => false,
        [first, ..] => is_after(&first.children, step),
    }
}

/// The index at which to split the pages of an overfull sheet: after a full sheet if the step is the last one, and else
/// in the middle.
pub(crate) fn sheet_parting(pages: &[Arc<Page>], step: &Step) -> usize
    ensures low { 32 ≤ result }
    ensures high { result ≤ 64 }
{
    match pages {
        [.., last] => parting(&last.children, step),
        _ => PAGE / 2,
    }
}

/// Appends the sheet, or two sheets if it has 65 pages: it is split at the given index, and both keep the bound on
/// their stamps.
pub(crate) fn add_sheets(
    alloc: Global,
    into: &mut Vec<Arc<Sheet>>,
    sheet: Sheet,
    parting: usize,
) -> Result<(), NoMemory>
    requires old { AreSheets into.old.items }
    requires pages { ArePages sheet.pages.items }
    requires few { length sheet.pages.items ≤ 65 }
    requires newest { UpTo sheet.newest (listed sheet.pages.items) }
    requires low { 32 ≤ parting }
    requires high { parting ≤ 64 }
    ensures list { OnOk result (sheeted into.new.items ≡ sheeted into.old.items ++ listed sheet.pages.items) }
    ensures sheets { OnOk result (AreSheets into.new.items) }
{
    if sheet.pages.is_empty() {
        return Ok(());
    }
    if sheet.pages.len() <= PAGE {
        return add_sheet(alloc, into, sheet);
    }
    let newest = sheet.newest;
    let mut pages = sheet.pages;
    let last = pages.split_off(parting)?;
    add_sheet(alloc, into, Sheet { newest, pages })?;
    let pages = last;
    add_sheet(alloc, into, Sheet { newest, pages })?;
    Ok(())
}

/// Appends the sheet.
pub(crate) fn add_sheet(
    alloc: Global,
    into: &mut Vec<Arc<Sheet>>,
    sheet: Sheet,
) -> Result<(), NoMemory>
    requires old { AreSheets into.old.items }
    requires pages { ArePages sheet.pages.items }
    requires some { 1 ≤ length sheet.pages.items }
    requires few { length sheet.pages.items ≤ 64 }
    requires newest { UpTo sheet.newest (listed sheet.pages.items) }
    ensures list { OnOk result (sheeted into.new.items ≡ sheeted into.old.items ++ listed sheet.pages.items) }
    ensures sheets { AreSheets into.new.items }
{
    let sheet = Arc::new(alloc, sheet)?;
    into.push(sheet)?;
    Ok(())
}

/// A sheet of the pages, with the largest of their stamps.
pub(crate) fn sheet_of(pages: Vec<Arc<Page>>) -> Sheet
    requires { ArePages pages.items }
    ensures list { listed result.pages.items ≡ listed pages.items }
    ensures pages { ArePages result.pages.items }
    ensures count { length result.pages.items ≡ length pages.items }
    ensures newest { UpTo result.newest (listed result.pages.items) }
{
    let newest = newest_page(&pages);
    Sheet { newest, pages }
}

// The sheets with another one in place of one of them.
fn resheeted(
    alloc: Global,
    sheets: &[Arc<Sheet>],
    at: usize,
    sheet: Sheet,
    parting: usize,
) -> Result<Vec<Arc<Sheet>>, NoMemory>
    requires old { AreSheets sheets.now }
    requires in_bounds { at < length sheets.now }
    requires pages { ArePages sheet.pages.items }
    requires few { length sheet.pages.items ≤ 65 }
    requires newest { UpTo sheet.newest (listed sheet.pages.items) }
    requires low { 32 ≤ parting }
    requires high { parting ≤ 64 }
    ensures list { IfOk result (λ v. sheeted v.items ≡ sheeted (take at sheets.now) ++ (listed sheet.pages.items ++ sheeted (drop (at + 1) sheets.now))) }
    ensures sheets { IfOk result (λ v. AreSheets v.items) }
{
    let mut list = Vec::with_capacity(alloc, sheets.len())?;
    share_sheets(&mut list, &sheets[..at])?;
    add_sheets(alloc, &mut list, sheet, parting)?;
    share_sheets(&mut list, &sheets[at + 1..])?;
    Ok(list)
}

// The sheet with another child at the step, or with none there: with up to 65 pages, until it is split.
fn changed_sheet(
    alloc: Global,
    sheet: &Sheet,
    step: &Step,
    node: Option<Arc<Node>>,
) -> Result<Sheet, NoMemory>
    requires pages { ArePages sheet.now.pages.items }
    requires newest { UpTo sheet.now.newest (listed sheet.now.pages.items) }
    requires sorted { T (is_sorted step_cmp (listed sheet.now.pages.items)) }
    ensures list { IfOk result (λ s. listed s.pages.items ≡ change step.now (tree_in node) (listed sheet.now.pages.items)) }
    ensures pages { IfOk result (λ s. ArePages s.pages.items) }
    ensures count { IfOk result (λ s. length s.pages.items ≤ length sheet.now.pages.items + 1) }
    ensures newest { IfOk result (λ s. UpTo s.newest (listed s.pages.items)) }
{
    let newest = newest_with(sheet.newest, &node);
    let pages = changed_pages(alloc, &sheet.pages, step, node)?;
    Ok(Sheet { newest, pages })
}

/// The sheets with another child at the step, or with none there.
pub(crate) fn changed_sheets(
    alloc: Global,
    sheets: &[Arc<Sheet>],
    step: &Step,
    node: Option<Arc<Node>>,
) -> Result<Vec<Arc<Sheet>>, NoMemory>
    requires old { AreSheets sheets.now }
    requires sorted { T (is_sorted step_cmp (sheeted sheets.now)) }
    ensures list { IfOk result (λ v. sheeted v.items ≡ change step.now (tree_in node) (sheeted sheets.now)) }
    ensures sheets { IfOk result (λ v. AreSheets v.items) }
{
    if sheets.is_empty() {
        let list = first_sheet(alloc, step, node)?;
        return Ok(list);
    }
    let at = target_sheet(sheets, step);
    let sheet = changed_sheet(alloc, &sheets[at], step, node)?;
    let parting = sheet_parting(&sheet.pages, step);
    let list = resheeted(alloc, sheets, at, sheet, parting)?;
    Ok(list)
}

// The sheets of a node whose only child is this one, if there is one.
fn first_sheet(
    alloc: Global,
    step: &Step,
    node: Option<Arc<Node>>,
) -> Result<Vec<Arc<Sheet>>, NoMemory>
    ensures list { IfOk result (λ v. sheeted v.items ≡ one_of step.now (tree_in node)) }
    ensures sheets { IfOk result (λ v. AreSheets v.items) }
{
    let pages = first_page(alloc, step, node)?;
    let mut list = Vec::new(alloc);
    add_sheets(alloc, &mut list, sheet_of(pages), PAGE)?;
    Ok(list)
}

/// The child at the step.
pub(crate) fn child_in<'a>(sheets: &'a [Arc<Sheet>], step: &Step) -> Option<&'a Arc<Node>>
    requires old { AreSheets sheets.now }
    requires sorted { T (is_sorted step_cmp (sheeted sheets.now)) }
    ensures { tree_at result ≡ find step_cmp step.now (sheeted sheets.now) }
{
    if sheets.is_empty() {
        return None;
    }
    let at = target_sheet(sheets, step);
    let sheet = &sheets[at];
    child_at(&sheet.pages, step)
}

/// Appends references to the children of the sheets, in order.
pub(crate) fn push_sheets<'a>(
    into: &mut Vec<&'a Child>,
    sheets: &'a [Arc<Sheet>],
) -> Result<(), NoMemory>
    ensures { OnOk result (seen into.new.items ≡ seen into.old.items ++ sheeted sheets.entry.now) }
{
    for sheet in sheets {
        push_pages(into, &sheet.pages)?;
    }
    Ok(())
}

// The largest stamp of the children of the pages.
fn newest_page(pages: &[Arc<Page>]) -> u64
    requires { ArePages pages.now }
    ensures { UpTo result (listed pages.now) }
{
    let mut newest = 0;
    for page in pages {
        newest = larger(newest, page.newest);
    }
    newest
}

/// Appends references to the children of the sheets that have one of the stamps, in order.
pub(crate) fn push_made_sheets<'x, 'a>(
    into: &'x mut Vec<&'a Child>,
    sheets: &'a [Arc<Sheet>],
    stamps: &[u64],
    least: u64,
) -> Result<(), NoMemory>
    requires sheets { AreSheets sheets.now }
    requires least { AreFrom least stamps.now }
    ensures { OnOk result (seen into.new.items ≡ seen into.old.items ++ made_by stamps.now (sheeted sheets.entry.now)) }
{
    for sheet in sheets {
        if sheet.newest < least {
            continue;
        }
        push_made_pages(into, &sheet.pages, stamps, least)?;
    }
    Ok(())
}

/// How many more children than those of the sheets fit into the room; none if they do not fit themselves.
pub(crate) fn room_after_sheets(sheets: &[Arc<Sheet>], room: usize) -> Option<usize>
    ensures { MatchOption result (room < length (sheeted sheets.now)) (λ left. left + length (sheeted sheets.now) ≡ room) }
{
    let mut left = room;
    for sheet in sheets {
        match room_after(&sheet.pages, left) {
            None => return None,
            Some(rest) => left = rest,
        }
    }
    Some(left)
}
