//! Blocks of statements, with their typedefs by name.
ghost use Rattle.std.specs.Prelude.{◌≡◌, ◌<◌, ℕ, List, IfOk, find};
ghost use Rattle.std.specs.Option.{option_copied};
ghost use Rattle.std.specs.List.{slice_get, position_from};
ghost use Rattle.sal_module.specs.Keywords.{same};
ghost use Rattle.sal_module.specs.Statements.{subs_of};
ghost use Rattle.sal_typedefs.specs.Scopes.{is_typedef_of};
ghost use Rattle.sal_typedefs.specs.Blocks as spec;

use sal_module::{Keyword, argument_of, is_named};
use sal_stmt::Stmt;
use sal_types::NoMemory;
use std::alloc::Global;
use std::collections::BTreeMap;
use std::marker::Model;

/// The number of each name. No name is copied.
pub(crate) type Numbers<'s> = BTreeMap<&'s str, usize>;

/// Sets the number of the name, if it has none.
pub(crate) fn define<'s>(map: &mut Numbers<'s>, name: &'s str, k: usize) -> Result<(), NoMemory>
    ensures { IfOk result (λ _. (q : List ℕ) → spec.get_by_name map.new q ≡ spec.with_first (spec.get_by_name map.old q) (same name.now q) k) }
{
    if !map.contains_key(name) {
        map.insert(name, k)?;
    }
    Ok(())
}

fn define_typedef<'s>(map: &mut Numbers<'s>, sub: &'s Stmt, k: usize) -> Result<(), NoMemory>
    ensures { IfOk result (λ _. (q : List ℕ) → spec.get_by_name map.new q ≡ spec.with_first (spec.get_by_name map.old q) (is_typedef_of q sub.now) k) }
{
    if is_named(Keyword::Typedef, sub) {
        define(map, argument_of(sub), k)?;
    }
    Ok(())
}

/// The index of the first typedef of each name.
fn typedefs_in<'s>(alloc: Global, subs: &'s [Stmt]) -> Result<Numbers<'s>, NoMemory>
    ensures { IfOk result (λ map. spec.AreTypedefs subs.now map) }
{
    let mut map = BTreeMap::new(alloc);
    for (k, sub) in subs.iter().enumerate() {
        define_typedef(&mut map, sub, k)?;
    }
    Ok(map)
}

/// The first typedef of this name among these statements.
pub(crate) fn typedef_among<'s>(subs: &'s [Stmt], name: &str) -> Option<&'s Stmt>
    ensures { option_copied result ≡ find (is_typedef_of name.now) subs.now }
{
    for sub in subs {
        if is_named(Keyword::Typedef, sub) && argument_of(sub) == name {
            return Some(sub);
        }
    }
    None
}

fn stmt_at(subs: &[Stmt], k: usize) -> Option<&Stmt>
    ensures { option_copied result ≡ slice_get subs.now k }
{
    subs.get(k)
}

/// A statement with an index of the typedefs in its block. A contract sees the statement.
#[derive(Drop)]
pub struct Block<'a> {
    stmt: &'a Stmt,
    typedefs: Numbers<'a>,
}

impl<'a> Model for Block<'a> {
    ghost use Rattle.sal_stmt.specs.declared.stmt.Stmt.{Stmt as Statement};
    ghost use Rattle.sal_stmt.specs.contracts.stmt.Stmt as e;
    ghost use Rattle.sal_module.specs.Statements.{subs_of};
    ghost use Rattle.sal_typedefs.specs.Blocks.{AreTypedefs};

    ghost Value = { Statement };

    ghost coded = { e.the_row.coded };

    ghost view = { λ a. a.stmt.now };

    ghost invariant = { λ a. AreTypedefs (subs_of a.stmt.now) a.typedefs };
}

impl<'a> Block<'a> {
    /// The block of a statement. It takes time linear in the statements there, and memory in its typedefs.
    pub fn new(alloc: Global, stmt: &'a Stmt) -> Result<Block<'a>, NoMemory>
        ensures { IfOk result (λ block. block ≡ stmt.now) }
    {
        let typedefs = typedefs_in(alloc, stmt.subs.items())?;
        Ok(Block { stmt, typedefs })
    }

    pub(crate) fn stmt(&self) -> &'a Stmt
        ensures { result.now ≡ self.now }
    {
        self.stmt
    }

    /// Whether a typedef is in the block.
    pub(crate) fn has_typedefs(&self) -> bool {
        !self.typedefs.is_empty()
    }

    /// The index in the block of the first typedef of this name.
    pub(crate) fn slot(&self, name: &str) -> Option<usize>
        ensures { result ≡ position_from (is_typedef_of name.now) 0 (subs_of self.now) }
    {
        match self.typedefs.get(name) {
            None => None,
            Some(k) => Some(*k),
        }
    }

    /// The first typedef of this name in the block.
    pub(crate) fn typedef(&self, name: &str) -> Option<&'a Stmt>
        ensures { option_copied result ≡ find (is_typedef_of name.now) (subs_of self.now) }
    {
        match self.typedefs.get(name) {
            None => None,
            Some(k) => stmt_at(self.stmt.subs.items(), *k),
        }
    }
}
