//! The pages of a node.
ghost use Rattle.std.specs.Prelude.{◌≡◌, ◌+◌, ◌-◌, ◌<◌, ◌≤◌, ◌⊎◌, ℕ, [], ◌++◌, ◌∷◌, length, IfOk, MatchOption, OnOk, take, drop};
ghost use Rattle.std.specs.List.{position};
ghost use Rattle.sal_types.specs.Order.{step_cmp};
ghost use Rattle.std.specs.Ordering.{is_le};
ghost use Rattle.std.specs.Prelude.{T, Option, Some, None, if◌then◌else◌};
ghost use Rattle.std.specs.Option.{option_map};
ghost use Rattle.std.specs.FinMap.{find, is_sorted};
ghost use Rattle.sal_node.specs.Tree.{Tree, place, after, change, one_of};
ghost use Rattle.sal_node.specs.Shape.{row_of, listed, ArePages, begins_after, tree_in, tree_at, seen};
ghost use Rattle.sal_node.specs.Places.{IsTarget};
ghost use Rattle.sal_node.specs.Shape.{UpTo, AreFrom, made_by};
ghost use Rattle.std.specs.Prelude.{nat_eq, IfSome};
ghost use Rattle.std.specs.List.{list_any};

use crate::node::{Child, Node, Page};
use sal_types::{Duplicate, NoMemory, Step};
use std::alloc::Global;
use std::sync::Arc;

/// The largest number of children of a page.
pub(crate) const PAGE: usize = 64;

/// Appends copies of the children.
pub(crate) fn copy_children(
    into: &mut Vec<Arc<Child>>,
    children: &[Arc<Child>],
) -> Result<(), NoMemory>
    ensures { OnOk result (row_of into.new.items ≡ row_of into.old.items ++ row_of children.now) }
{
    for child in children {
        let child = Arc::try_clone(child)?;
        into.push(child)?;
    }
    Ok(())
}

/// Appends the pages, shared.
pub(crate) fn share_pages(into: &mut Vec<Arc<Page>>, pages: &[Arc<Page>]) -> Result<(), NoMemory>
    requires old { ArePages into.old.items }
    requires given { ArePages pages.now }
    ensures list { OnOk result (listed into.new.items ≡ listed into.old.items ++ listed pages.now) }
    ensures pages { OnOk result (ArePages into.new.items) }
    ensures count { OnOk result (length into.new.items ≡ length into.old.items + length pages.now) }
{
    for page in pages {
        let page = Arc::try_clone(page)?;
        into.push(page)?;
    }
    Ok(())
}

// The index of the page for the step: the page that has it, or in which it would be inserted.
fn target(pages: &[Arc<Page>], step: &Step) -> usize
    requires { 0 < length pages.now }
    ensures { IsTarget pages.now step.now result }
{
    let mut low = 0;
    let mut high = pages.len();
    while high - low > 1 {
        let middle = low + (high - low) / 2;
        if is_after(&pages[middle].children, step) {
            high = middle;
        } else {
            low = middle;
        }
    }
    low
}

/// Whether the page begins after the step.
pub(crate) fn is_after(children: &[Arc<Child>], step: &Step) -> bool
    ensures { result ≡ begins_after step.now children.now }
{
    match children {
        [] => false,
        [first, ..] => first.step.cmp(step).is_gt(),
    }
}

// How many children have smaller steps, by a binary search.
fn place(children: &[Arc<Child>], step: &Step) -> usize
    requires { T (is_sorted step_cmp (row_of children.now)) }
    ensures value { result ≡ place step.now (row_of children.now) }
    ensures bound { result ≤ length children.now }
{
    let mut low = 0;
    let mut high = children.len();
    while low < high {
        let middle = low + (high - low) / 2;
        if step.cmp(&children[middle].step).is_gt() {
            low = middle + 1;
        } else {
            high = middle;
        }
    }
    low
}

// The index of the first child after the step; `at` is the step's own index.
fn past(children: &[Arc<Child>], step: &Step, at: usize) -> usize
    requires { at ≡ place step.now (row_of children.now) }
    ensures value { row_of (drop result children.now) ≡ after step.now (row_of children.now) }
    ensures bound { result ≤ length children.now }
{
    if at < children.len() && step.cmp(&children[at].step).is_eq() {
        at + 1
    } else {
        at
    }
}

// Appends the child, if there is one.
fn push_child(
    alloc: Global,
    into: &mut Vec<Arc<Child>>,
    step: &Step,
    node: Option<Arc<Node>>,
) -> Result<(), NoMemory>
    ensures { OnOk result (row_of into.new.items ≡ row_of into.old.items ++ one_of step.now (tree_in node)) }
{
    match node {
        None => Ok(()),
        Some(node) => {
            let step = step.copy()?;
            let child = Arc::new(alloc, Child { step, node })?;
            into.push(child)?;
            Ok(())
        }
    }
}

/// The children with another one at the step, or with none there.
pub(crate) fn changed(
    alloc: Global,
    children: &[Arc<Child>],
    step: &Step,
    node: Option<Arc<Node>>,
) -> Result<Vec<Arc<Child>>, NoMemory>
    requires { T (is_sorted step_cmp (row_of children.now)) }
    ensures { IfOk result (λ v. row_of v.items ≡ change step.now (tree_in node) (row_of children.now)) }
{
    let at = place(children, step);
    let next = past(children, step, at);
    let mut list = Vec::with_capacity(alloc, children.len() + 1)?;
    copy_children(&mut list, &children[..at])?;
    push_child(alloc, &mut list, step, node)?;
    copy_children(&mut list, &children[next..])?;
    Ok(list)
}

// The page with another child at the step, or with none there: with up to 65 children, until it is split.
fn changed_page(
    alloc: Global,
    page: &Page,
    step: &Step,
    node: Option<Arc<Node>>,
) -> Result<Page, NoMemory>
    requires newest { UpTo page.now.newest (row_of page.now.children.items) }
    requires sorted { T (is_sorted step_cmp (row_of page.now.children.items)) }
    ensures list { IfOk result (λ p. row_of p.children.items ≡ change step.now (tree_in node) (row_of page.now.children.items)) }
    ensures newest { IfOk result (λ p. UpTo p.newest (row_of p.children.items)) }
{
    let newest = newest_with(page.newest, &node);
    let children = changed(alloc, &page.children, step, node)?;
    Ok(Page { newest, children })
}

/// A bound on stamps that also includes the node's stamp.
pub(crate) fn newest_with(newest: u64, node: &Option<Arc<Node>>) -> u64
    ensures old { newest ≤ result }
    ensures node { IfSome (tree_in node.now) (λ t. t.stamp ≤ result) }
{
    match node {
        None => newest,
        Some(node) => larger(newest, node.stamp()),
    }
}

/// The child at the step.
pub(crate) fn found<'a>(children: &'a [Arc<Child>], step: &Step) -> Option<&'a Arc<Node>>
    requires { T (is_sorted step_cmp (row_of children.now)) }
    ensures { tree_at result ≡ find step_cmp step.now (row_of children.now) }
{
    let at = place(children, step);
    if at < children.len() && step.cmp(&children[at].step).is_eq() {
        Some(&children[at].node)
    } else {
        None
    }
}

/// The index at which to split the children of an overfull page: after a full page if the step is the last one, so that
/// steps in ascending order give full pages, and else in the middle.
pub(crate) fn parting(children: &[Arc<Child>], step: &Step) -> usize
    ensures low { 32 ≤ result }
    ensures high { result ≤ 64 }
{
    match children {
        [.., last] if last.step.cmp(step).is_eq() => PAGE,
        _ => PAGE / 2,
    }
}

/// Appends the page, or two pages if it has 65 children: it is split at the given index, and both keep the bound on
/// their stamps.
pub(crate) fn add_pages(
    alloc: Global,
    into: &mut Vec<Arc<Page>>,
    page: Page,
    parting: usize,
) -> Result<(), NoMemory>
    requires old { ArePages into.old.items }
    requires few { length page.children.items ≤ 65 }
    requires newest { UpTo page.newest (row_of page.children.items) }
    requires low { 32 ≤ parting }
    requires high { parting ≤ 64 }
    ensures list { OnOk result (listed into.new.items ≡ listed into.old.items ++ row_of page.children.items) }
    ensures pages { OnOk result (ArePages into.new.items) }
    ensures count { OnOk result (length into.new.items ≤ length into.old.items + 2) }
{
    if page.children.is_empty() {
        return Ok(());
    }
    if page.children.len() <= PAGE {
        return add_page(alloc, into, page);
    }
    let newest = page.newest;
    let mut children = page.children;
    let last = children.split_off(parting)?;
    add_page(alloc, into, Page { newest, children })?;
    let children = last;
    add_page(alloc, into, Page { newest, children })?;
    Ok(())
}

/// Appends the page.
pub(crate) fn add_page(alloc: Global, into: &mut Vec<Arc<Page>>, page: Page) -> Result<(), NoMemory>
    requires old { ArePages into.old.items }
    requires some { 1 ≤ length page.children.items }
    requires few { length page.children.items ≤ 64 }
    requires newest { UpTo page.newest (row_of page.children.items) }
    ensures list { OnOk result (listed into.new.items ≡ listed into.old.items ++ row_of page.children.items) }
    ensures pages { ArePages into.new.items }
    ensures count { OnOk result (length into.new.items ≡ length into.old.items + 1) }
{
    let page = Arc::new(alloc, page)?;
    into.push(page)?;
    Ok(())
}

/// A page of the children, with the largest of their stamps.
pub(crate) fn page_of(children: Vec<Arc<Child>>) -> Page
    ensures list { row_of result.children.items ≡ row_of children.items }
    ensures count { length result.children.items ≡ length children.items }
    ensures newest { UpTo result.newest (row_of result.children.items) }
{
    let newest = newest(&children);
    Page { newest, children }
}

// The pages with another one in place of one of them.
fn repaged(
    alloc: Global,
    pages: &[Arc<Page>],
    at: usize,
    page: Page,
    parting: usize,
) -> Result<Vec<Arc<Page>>, NoMemory>
    requires old { ArePages pages.now }
    requires in_bounds { at < length pages.now }
    requires few { length page.children.items ≤ 65 }
    requires newest { UpTo page.newest (row_of page.children.items) }
    requires low { 32 ≤ parting }
    requires high { parting ≤ 64 }
    ensures list { IfOk result (λ v. listed v.items ≡ listed (take at pages.now) ++ (row_of page.children.items ++ listed (drop (at + 1) pages.now))) }
    ensures pages { IfOk result (λ v. ArePages v.items) }
    ensures count { IfOk result (λ v. length v.items ≤ length pages.now + 1) }
{
    let mut list = Vec::with_capacity(alloc, pages.len())?;
    share_pages(&mut list, &pages[..at])?;
    add_pages(alloc, &mut list, page, parting)?;
    share_pages(&mut list, &pages[at + 1..])?;
    Ok(list)
}

/// The pages with another child at the step, or with none there.
pub(crate) fn changed_pages(
    alloc: Global,
    pages: &[Arc<Page>],
    step: &Step,
    node: Option<Arc<Node>>,
) -> Result<Vec<Arc<Page>>, NoMemory>
    requires old { ArePages pages.now }
    requires sorted { T (is_sorted step_cmp (listed pages.now)) }
    ensures list { IfOk result (λ v. listed v.items ≡ change step.now (tree_in node) (listed pages.now)) }
    ensures pages { IfOk result (λ v. ArePages v.items) }
    ensures count { IfOk result (λ v. length v.items ≤ length pages.now + 1) }
{
    if pages.is_empty() {
        let list = first_page(alloc, step, node)?;
        return Ok(list);
    }
    let at = target(pages, step);
    let page = changed_page(alloc, &pages[at], step, node)?;
    let parting = parting(&page.children, step);
    let list = repaged(alloc, pages, at, page, parting)?;
    Ok(list)
}

/// The pages of a node whose only child is this one, if there is one.
pub(crate) fn first_page(
    alloc: Global,
    step: &Step,
    node: Option<Arc<Node>>,
) -> Result<Vec<Arc<Page>>, NoMemory>
    ensures list { IfOk result (λ v. listed v.items ≡ one_of step.now (tree_in node)) }
    ensures pages { IfOk result (λ v. ArePages v.items) }
    ensures count { IfOk result (λ v. length v.items ≤ 1) }
{
    let mut children = Vec::new(alloc);
    push_child(alloc, &mut children, step, node)?;
    let mut list = Vec::new(alloc);
    if !children.is_empty() {
        add_page(alloc, &mut list, page_of(children))?;
    }
    Ok(list)
}

/// The child at the step.
pub(crate) fn child_at<'a>(pages: &'a [Arc<Page>], step: &Step) -> Option<&'a Arc<Node>>
    requires old { ArePages pages.now }
    requires sorted { T (is_sorted step_cmp (listed pages.now)) }
    ensures { tree_at result ≡ find step_cmp step.now (listed pages.now) }
{
    if pages.is_empty() {
        return None;
    }
    let at = target(pages, step);
    let page = &pages[at];
    found(&page.children, step)
}

/// Appends references to the children.
pub(crate) fn push_children<'a>(
    into: &mut Vec<&'a Child>,
    children: &'a [Arc<Child>],
) -> Result<(), NoMemory>
    ensures { OnOk result (seen into.new.items ≡ seen into.old.items ++ row_of children.entry.now) }
{
    for child in children {
        let child: &Child = child;
        into.push(child)?;
    }
    Ok(())
}

/// Appends references to the children of the pages, in order.
pub(crate) fn push_pages<'a>(
    into: &mut Vec<&'a Child>,
    pages: &'a [Arc<Page>],
) -> Result<(), NoMemory>
    ensures { OnOk result (seen into.new.items ≡ seen into.old.items ++ listed pages.entry.now) }
{
    for page in pages {
        push_children(into, &page.children)?;
    }
    Ok(())
}

// The largest stamp of the children.
fn newest(children: &[Arc<Child>]) -> u64
    ensures { UpTo result (row_of children.now) }
{
    let mut newest = 0;
    for child in children {
        newest = larger(newest, child.node.stamp());
    }
    newest
}

/// The larger stamp.
pub(crate) fn larger(one: u64, other: u64) -> u64
    ensures one { one ≤ result }
    ensures other { other ≤ result }
{
    if one < other { other } else { one }
}

/// The least of the stamps.
pub(crate) fn least(stamps: &[u64]) -> u64
    ensures { AreFrom result stamps.now }
{
    let mut least = u64::MAX;
    for stamp in stamps {
        if least <= *stamp {
            continue;
        }
        least = *stamp;
    }
    least
}

// Whether the stamp is one of these.
fn is_among(stamp: u64, stamps: &[u64]) -> bool
    ensures { result ≡ list_any (nat_eq stamp) stamps.now }
{
    stamps.iter().any(|other| stamp == *other)
}

/// Appends references to the children that have one of the stamps.
pub(crate) fn push_made<'x, 'a>(
    into: &'x mut Vec<&'a Child>,
    children: &'a [Arc<Child>],
    stamps: &[u64],
) -> Result<(), NoMemory>
    ensures { OnOk result (seen into.new.items ≡ seen into.old.items ++ made_by stamps.now (row_of children.entry.now)) }
{
    for child in children {
        if !is_among(child.node.stamp(), stamps) {
            continue;
        }
        let child: &Child = child;
        into.push(child)?;
    }
    Ok(())
}

/// Appends references to the children of the pages that have one of the stamps, in order. It skips pages
/// whose children all have smaller stamps.
pub(crate) fn push_made_pages<'x, 'a>(
    into: &'x mut Vec<&'a Child>,
    pages: &'a [Arc<Page>],
    stamps: &[u64],
    least: u64,
) -> Result<(), NoMemory>
    requires pages { ArePages pages.now }
    requires least { AreFrom least stamps.now }
    ensures { OnOk result (seen into.new.items ≡ seen into.old.items ++ made_by stamps.now (listed pages.entry.now)) }
{
    for page in pages {
        if page.newest < least {
            continue;
        }
        push_made(into, &page.children, stamps)?;
    }
    Ok(())
}

/// How many more children than those of the pages fit into the room; none if they do not fit themselves.
pub(crate) fn room_after(pages: &[Arc<Page>], room: usize) -> Option<usize>
    ensures { MatchOption result (room < length (listed pages.now)) (λ left. left + length (listed pages.now) ≡ room) }
{
    let mut left = room;
    for page in pages {
        let count = page.children.len();
        if left < count {
            return None;
        }
        left -= count;
    }
    Some(left)
}
