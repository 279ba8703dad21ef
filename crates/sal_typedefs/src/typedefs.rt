//! Indexes for look-ups in all modules.
ghost use Rattle.std.specs.Prelude.{◌≡◌, ◌<◌, ◌^◌, ◌∷◌, [], IfOk, IfSome, option_map};
ghost use Rattle.std.specs.List.{slice_get};
ghost use Rattle.sal_stmt.specs.declared.stmt.Stmt.{Stmt as Statement};
ghost use Rattle.std.specs.Borrow.{Bor};
ghost use Rattle.std.specs.Prelude.{List, option_and_then};
ghost use Rattle.sal_typedefs.specs.Ready.{AreIdentities};
ghost use Rattle.sal_typedefs.specs.Names.{steps_of};
ghost use Rattle.sal_typedefs.specs.Scopes as spec;

use crate::block::{Block, Numbers};
use crate::count::steps_of;
use crate::identities::identities_of;
use crate::name::{local, module_of};
use sal_module::Modules;
use sal_stmt::Stmt;
use sal_types::{NoMemory, append};
use std::alloc::Global;
use std::marker::Model;

/// Modules with indexes of their top-level typedefs and their identities by name. A contract sees the list of their statements, of
/// which there are fewer than 2^32.
#[derive(Drop)]
pub struct Typedefs<'a> {
    modules: &'a Modules,
    tops: Vec<Block<'a>>,
    identities: Vec<Numbers<'a>>,
    steps: usize,
}

impl<'a> Model for Typedefs<'a> {
    ghost use Rattle.std.specs.Prelude.{List};
    ghost use Rattle.sal_stmt.specs.declared.stmt.Stmt.{Stmt as Statement};
    ghost use Rattle.sal_stmt.specs.contracts.stmt.Stmt as e;
    ghost use Rattle.std.specs.Coded.{codes};
    ghost use Rattle.sal_typedefs.specs.Ready.{AreReady};

    ghost Value = { List Statement };

    ghost coded = { Prim.hlevel (codes, e.the_row.coded) };

    ghost view = { λ a. a.modules.now };

    ghost invariant = { λ a. AreReady a.modules.now a.tops.items a.identities.items a.steps };
}

fn tops_of<'a>(alloc: Global, stmts: &'a [Stmt]) -> Result<Vec<Block<'a>>, NoMemory>
    ensures { IfOk result (λ tops. tops.items ≡ stmts.now) }
{
    let mut tops = Vec::with_capacity(alloc, stmts.len())?;
    for stmt in stmts {
        append(&mut tops, Block::new(alloc, stmt)?)?;
    }
    Ok(tops)
}

fn number_in(all: &[Numbers], number: u32, name: &str) -> Option<usize>
    ensures { (stmts : List Statement) → AreIdentities stmts all.now →
        result ≡ option_and_then (spec.identity_in stmts name.now number) (slice_get stmts number) }
{
    let k = number as usize;
    if k >= all.len() {
        return None;
    }
    all[k].get(name).copied()
}

impl<'a> Typedefs<'a> {
    /// The indexes of these modules. It takes time and memory linear in their statements, and the logarithm of a block's
    /// typedefs for each.
    pub fn new(alloc: Global, modules: &'a Modules) -> Result<Typedefs<'a>, NoMemory>
        requires { steps_of modules.now < 2 ^ 32 }
        ensures { IfOk result (λ typedefs. typedefs ≡ modules.now) }
    {
        let stmts = modules.items();
        let tops = tops_of(alloc, stmts)?;
        let identities = identities_of(alloc, stmts)?;
        let steps = steps_of(alloc, stmts)?;
        Ok(Typedefs {
            modules,
            tops,
            identities,
            steps,
        })
    }

    /// How many statements the modules have.
    pub(crate) fn steps(&self) -> usize
        ensures { result ≡ steps_of self.now }
    {
        self.steps
    }

    /// The modules have fewer than 2^32 statements. A call does nothing: its clause is the law.
    pub fn are_counted(&self)
        ensures { steps_of self.now < 2 ^ 32 }
    {
        let _ = &self.modules;
    }

    /// The module that a name in a module refers to.
    pub(crate) fn module_of(&self, number: u32, name: &str) -> Option<u32>
        ensures { result ≡ spec.module_of self.now number name.now }
    {
        module_of(self.modules, number, name)
    }

    /// The module that a prefix names in a module.
    pub(crate) fn imported(&self, number: u32, prefix: &str) -> Option<u32> {
        self.modules.imported(number, prefix)
    }

    /// The statements of the modules.
    pub(crate) fn stmts(&self) -> &'a [Stmt]
        ensures { result.now ≡ self.now }
    {
        self.modules.items()
    }

    /// The block of a module.
    pub(crate) fn top(&self, number: u32) -> Option<&[Block<'a>]>
        ensures { option_map (λ (blocks : Bor (List Statement)). blocks.now) result ≡ option_map (λ stmt. stmt ∷ []) (slice_get self.now number) }
    {
        let k = number as usize;
        if k >= self.tops.len() {
            return None;
        }
        Some(&self.tops[k..k + 1])
    }

    fn found(&self, number: u32, name: &str) -> Option<usize>
        ensures { result ≡ spec.identity_of self.now number name.now }
    {
        match module_of(self.modules, number, name) {
            None => None,
            Some(m) => number_in(&self.identities, m, local(name)),
        }
    }

    /// The number of the identity that a name in a module refers to.
    pub fn identity_of(&self, number: u32, name: &str) -> Option<usize>
        ensures value { result ≡ spec.identity_of self.now number name.now }
        ensures small { IfSome result (λ k. k < 2 ^ 32) }
    {
        self.are_counted();
        self.found(number, name)
    }
}
