//! Builds a node from its children in order.
ghost use Rattle.std.specs.Prelude.{◌≡◌, ◌<◌, ◌≤◌, [], ◌∷◌, ◌++◌, length, IfOk};
ghost use Rattle.sal_node.specs.Shape.{row_of, listed, sheeted, paged, ArePages, AreSheets, ArePaged};
ghost use Rattle.sal_node.specs.Tree.{Tree, grove};

use crate::node::{Child, Node, Page, Paging, Sheet};
use crate::pages::{PAGE, add_page, page_of};
use crate::paging::joined;
use crate::sheets::{add_sheet, sheet_of};
use sal_types::{Cell, NoMemory, Step};
use std::alloc::Global;
use std::marker::Model;
use std::sync::Arc;

/// Children that were added one after another.
#[derive(Drop)]
pub struct Builder {
    sheets: Vec<Arc<Sheet>>,
    pages: Vec<Arc<Page>>,
    last: Vec<Arc<Child>>,
}

impl Model for Builder {
    ghost use Rattle.std.specs.Prelude.{List, ◌++◌, ◌<◌, length};
    ghost use Rattle.sal_types.specs.declared.value.Step.{Step};
    ghost use Rattle.sal_node.specs.Tree.{Tree};
    ghost use Rattle.sal_node.specs.Code.{entries_code};

    ghost Value = { List (Step × Tree) };

    ghost coded = { entries_code };

    ghost use Rattle.sal_node.specs.Shape.{row_of, listed, sheeted, ArePages, AreSheets};

    ghost view = { λ a. sheeted a.sheets.items ++ (listed a.pages.items ++ row_of a.last.items) };

    ghost invariant = { λ a. AreSheets a.sheets.items × ArePages a.pages.items × (length a.pages.items < 64) × (length a.last.items < 64) };
}

impl Builder {
    /// No children. It takes no memory.
    pub fn new(alloc: Global) -> Builder
        ensures { result ≡ [] }
    {
        Builder {
            sheets: Vec::new(alloc),
            pages: Vec::new(alloc),
            last: Vec::new(alloc),
        }
    }

    /// The children with one more at the end. The builder is lost if memory runs out.
    pub fn push(self, alloc: Global, step: Step, node: Arc<Node>) -> Result<Builder, NoMemory>
        ensures { IfOk result (λ more. more ≡ self ++ (step, node.value) ∷ []) }
    {
        let sheets = self.sheets;
        let mut pages = self.pages;
        let mut last = self.last;
        let child = Arc::new(alloc, Child { step, node })?;
        last.push(child)?;
        if last.len() < PAGE {
            return Ok(Builder {
                sheets,
                pages,
                last,
            });
        }
        add_page(alloc, &mut pages, page_of(last))?;
        let builder = with_pages(alloc, sheets, pages)?;
        Ok(builder)
    }

    /// The node with these children.
    pub fn finish(self, alloc: Global, cell: Option<Cell>, stamp: u64) -> Result<Node, NoMemory>
        ensures { IfOk result (λ n. n ≡ record { stamp = stamp; cell = cell; kids = grove self }) }
    {
        let sheets = self.sheets;
        let paging = paging_of(alloc, sheets, self.pages, self.last)?;
        Ok(Node {
            stamp,
            cell,
            paging,
        })
    }
}

// The builder of these pages, which become a sheet if they are 64.
fn with_pages(
    alloc: Global,
    sheets: Vec<Arc<Sheet>>,
    pages: Vec<Arc<Page>>,
) -> Result<Builder, NoMemory>
    requires sheets { AreSheets sheets.items }
    requires pages { ArePages pages.items }
    requires few { length pages.items ≤ 64 }
    ensures { IfOk result (λ b. b ≡ sheeted sheets.items ++ listed pages.items) }
{
    let last = Vec::new(alloc);
    if pages.len() < PAGE {
        return Ok(Builder {
            sheets,
            pages,
            last,
        });
    }
    let mut sheets = sheets;
    add_sheet(alloc, &mut sheets, sheet_of(pages))?;
    let pages = Vec::new(alloc);
    Ok(Builder {
        sheets,
        pages,
        last,
    })
}

// The children of a builder, without pages if no page is full yet.
fn paging_of(
    alloc: Global,
    sheets: Vec<Arc<Sheet>>,
    pages: Vec<Arc<Page>>,
    last: Vec<Arc<Child>>,
) -> Result<Paging, NoMemory>
    requires sheets { AreSheets sheets.items }
    requires pages { ArePages pages.items }
    requires few { length pages.items < 64 }
    requires less { length last.items < 64 }
    ensures list { IfOk result (λ k. paged k ≡ sheeted sheets.items ++ (listed pages.items ++ row_of last.items)) }
    ensures pages { IfOk result (λ k. ArePaged k) }
{
    if sheets.is_empty() && pages.is_empty() {
        return Ok(Paging::Few(last));
    }
    let pages = all_pages(alloc, pages, last)?;
    let paging = joined(alloc, sheets, pages)?;
    Ok(paging)
}

// The pages with one more page of the last children, if there are any.
fn all_pages(
    alloc: Global,
    pages: Vec<Arc<Page>>,
    last: Vec<Arc<Child>>,
) -> Result<Vec<Arc<Page>>, NoMemory>
    requires pages { ArePages pages.items }
    requires few { length pages.items < 64 }
    requires less { length last.items < 64 }
    ensures list { IfOk result (λ v. listed v.items ≡ listed pages.items ++ row_of last.items) }
    ensures pages { IfOk result (λ v. ArePages v.items) }
    ensures count { IfOk result (λ v. length v.items ≤ 64) }
{
    let mut pages = pages;
    if last.is_empty() {
        return Ok(pages);
    }
    add_page(alloc, &mut pages, page_of(last))?;
    Ok(pages)
}
