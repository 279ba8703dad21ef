//! Type statements with the blocks around them.
ghost use Rattle.std.specs.Prelude.{◌≡◌, ◌≤◌, IfOk, IfSome, option_map, reverse, length, find};
ghost use Rattle.std.specs.Option.{option_copied};
ghost use Rattle.sal_module.specs.Statements.{subs_of};
ghost use Rattle.sal_typedefs.specs.Scopes as scopes;
ghost use Rattle.sal_typedefs.specs.Scopes.{is_typedef_of};
ghost use Rattle.sal_typedefs.specs.Spots as spec;

use crate::block::{Block, typedef_among};
use sal_module::{Keyword, has_named};
use sal_stmt::Stmt;
use sal_types::{NoMemory, append};
use std::alloc::Global;
use std::marker::Model;

/// A block inside those of the caller, and whether it has no typedef. A contract sees the statement.
#[derive(Drop)]
pub(crate) struct Inner<'a> {
    stmt: &'a Stmt,
    bare: bool,
}

impl<'a> Model for Inner<'a> {
    ghost use Rattle.std.specs.Prelude.{◌≡◌, true, None, List, ℕ, find};
    ghost use Rattle.sal_stmt.specs.declared.stmt.Stmt.{Stmt as Statement};
    ghost use Rattle.sal_stmt.specs.contracts.stmt.Stmt as e;
    ghost use Rattle.sal_module.specs.Statements.{subs_of};
    ghost use Rattle.sal_typedefs.specs.Scopes.{is_typedef_of};

    ghost Value = { Statement };

    ghost coded = { e.the_row.coded };

    ghost view = { λ a. a.stmt.now };

    ghost invariant = { λ a. a.bare ≡ true → (name : List ℕ) → find (is_typedef_of name) (subs_of a.stmt.now) ≡ None };
}

impl<'a> Inner<'a> {
    /// The block of a statement. It takes time linear in the statements there.
    pub(crate) fn new(stmt: &'a Stmt) -> Inner<'a>
        ensures { result ≡ stmt.now }
    {
        Inner {
            stmt,
            bare: !has_named(Keyword::Typedef, stmt.subs.items()),
        }
    }

    fn copy(&self) -> Inner<'a>
        ensures { result ≡ self.now }
    {
        Inner {
            stmt: self.stmt,
            bare: self.bare,
        }
    }

    pub(crate) fn stmt(&self) -> &'a Stmt
        ensures { result.now ≡ self.now }
    {
        self.stmt
    }

    /// The first typedef of this name in the block.
    fn typedef(&self, name: &str) -> Option<&'a Stmt>
        ensures { option_copied result ≡ find (is_typedef_of name.now) (subs_of self.now) }
    {
        if self.bare {
            return None;
        }
        typedef_among(self.stmt.subs.items(), name)
    }
}

/// A statement and the blocks around it, from the outermost inwards: first those of the caller, then the inner ones.
#[derive(Drop)]
pub(crate) struct Spot<'x, 'a> {
    pub(crate) module: u32,
    pub(crate) stmt: &'a Stmt,
    pub(crate) outer: &'x [Block<'a>],
    pub(crate) inner: Vec<Inner<'a>>,
}

fn copies<'a>(alloc: Global, list: &[Inner<'a>]) -> Result<Vec<Inner<'a>>, NoMemory>
    ensures { IfOk result (λ copy. copy.items ≡ list.now) }
{
    let mut copy = Vec::with_capacity(alloc, list.len())?;
    for block in list {
        append(&mut copy, block.copy())?;
    }
    Ok(copy)
}

/// The typedef of a name in the innermost of these blocks that has one, and how many of the blocks are around it.
fn closest_outer<'a>(number: u32, blocks: &[Block<'a>], name: &str) -> Option<(usize, &'a Stmt)>
    ensures value { option_map (spec.seen_in number blocks.now) result ≡ scopes.closest number name.now (reverse blocks.now) }
    ensures within { IfSome result (λ found. found.0 ≤ length blocks.now) }
{
    let mut n = blocks.len();
    'closest: while n > 0 {
        if let Some(stmt) = blocks[n - 1].typedef(name) {
            return Some((n, stmt));
        }
        n -= 1;
    }
    None
}

/// The same for inner blocks.
pub(crate) fn closest_inner<'a>(
    number: u32,
    list: &[Inner<'a>],
    name: &str,
) -> Option<(usize, &'a Stmt)>
    ensures value { option_map (spec.seen_in number list.now) result ≡ scopes.closest number name.now (reverse list.now) }
    ensures within { IfSome result (λ found. found.0 ≤ length list.now) }
{
    let mut n = list.len();
    'closest: while n > 0 {
        if let Some(stmt) = list[n - 1].typedef(name) {
            return Some((n, stmt));
        }
        n -= 1;
    }
    None
}

/// A statement in the last of these blocks.
fn spot_in<'x, 'a>(
    alloc: Global,
    number: u32,
    blocks: &'x [Block<'a>],
    found: Option<(usize, &'a Stmt)>,
) -> Option<Spot<'x, 'a>>
    requires { IfSome found (λ found. found.0 ≤ length blocks.now) }
    ensures { option_map spec.site_of result ≡ option_map (spec.seen_in number blocks.now) found.entry }
{
    match found {
        None => None,
        Some((n, stmt)) => Some(Spot {
            module: number,
            stmt,
            outer: &blocks[..n],
            inner: Vec::new(alloc),
        }),
    }
}

/// The typedef of a name in the closest of these blocks that has one.
pub(crate) fn typedef_in<'x, 'a>(
    alloc: Global,
    number: u32,
    blocks: &'x [Block<'a>],
    name: &str,
) -> Option<Spot<'x, 'a>>
    ensures { option_map spec.site_of result ≡ scopes.closest number name.now (reverse blocks.now) }
{
    let found = closest_outer(number, blocks, name);
    spot_in(alloc, number, blocks, found)
}

impl<'x, 'a> Spot<'x, 'a> {
    /// A statement in the last of these blocks.
    pub(crate) fn new(
        alloc: Global,
        number: u32,
        around: &'x [Block<'a>],
        stmt: &'a Stmt,
    ) -> Spot<'x, 'a>
        ensures value { spec.site_of result ≡ spec.site_in number around.now stmt.now }
        ensures outer { result.outer.now ≡ around.now }
        ensures number { result.module ≡ number }
    {
        Spot {
            module: number,
            stmt,
            outer: around,
            inner: Vec::new(alloc),
        }
    }

    /// The typedef of a name in the closest block around that has one.
    pub(crate) fn typedef(
        &self,
        alloc: Global,
        name: &str,
    ) -> Result<Option<Spot<'x, 'a>>, NoMemory>
        ensures { IfOk result (λ found. option_map spec.site_of found ≡ scopes.closest self.now.module name.now (spec.site_of self.now).around) }
    {
        match closest_inner(self.module, self.inner.as_slice(), name) {
            None => Ok(typedef_in(alloc, self.module, self.outer, name)),
            Some((n, stmt)) => Ok(Some(Spot {
                module: self.module,
                stmt,
                outer: self.outer,
                inner: copies(alloc, &self.inner[..n])?,
            })),
        }
    }

    /// A copy of the statement with its blocks.
    pub(crate) fn copy(&self, alloc: Global) -> Result<Spot<'x, 'a>, NoMemory>
        ensures { IfOk result (λ spot. spec.site_of spot ≡ spec.site_of self.now) }
    {
        Ok(Spot {
            module: self.module,
            stmt: self.stmt,
            outer: self.outer,
            inner: copies(alloc, self.inner.as_slice())?,
        })
    }

    /// A statement in the block of this one, which is given.
    pub(crate) fn within(
        &self,
        alloc: Global,
        block: &Inner<'a>,
        sub: &'a Stmt,
    ) -> Result<Spot<'x, 'a>, NoMemory>
        requires { block.now ≡ self.now.stmt.now }
        ensures value { IfOk result (λ spot. spec.site_of spot ≡ scopes.within (spec.site_of self.now) sub.now) }
        ensures outer { IfOk result (λ spot. spot.outer.now ≡ self.now.outer.now) }
        ensures number { IfOk result (λ spot. spot.module ≡ self.now.module) }
    {
        let mut inner = copies(alloc, self.inner.as_slice())?;
        append(&mut inner, block.copy())?;
        Ok(Spot {
            module: self.module,
            stmt: sub,
            outer: self.outer,
            inner,
        })
    }
}
