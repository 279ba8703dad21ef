//! Blocks that are opened around a statement: their typedefs are settled at once, in an order in which most find those that they name.
ghost use Rattle.std.specs.Prelude.{◌≡◌, ◌++◌, ◌∷◌, [], ℕ, List, IfOk, IfSome, Some, reverse};
ghost use Rattle.std.specs.Option.{option_copied};
ghost use Rattle.sal_stmt.specs.declared.stmt.Stmt.{Stmt as Statement};
ghost use Rattle.std.specs.Prelude.{take};
ghost use Rattle.sal_typedefs.specs.Scopes.{Site, place_of};
ghost use Rattle.sal_typedefs.specs.Names.{types_in};
ghost use Rattle.sal_typedefs.specs.Settled as settled;
ghost use Rattle.sal_typedefs.specs.Spots.{site_in};
ghost use Rattle.sal_typedefs.specs.Opened as spec;

use crate::block::Block;
use crate::kept::{Settled, inserted};
use crate::ordering::order_in;
use crate::ranks::rank_in;
use crate::scope::{MAX_BLOCKS, Scope, settle};
use crate::spot::{Inner, Spot};
use sal_module::{Keyword, first_named};
use sal_stmt::Stmt;
use sal_types::{NoMemory, append};
use std::alloc::Global;
use std::collections::BTreeMap;

/// The settled type of a typedef in the innermost block.
fn settle_typedef<'s, 'x, 'a>(
    scope: &'s Scope<'x, 'a>,
    typedef: &'a Stmt,
) -> Result<Option<Settled>, NoMemory>
    requires { spec.IsOpen scope.now }
    ensures { IfOk result (λ found. IfSome found (settled.IsTypedefSettled (spec.world scope.now) (site_in scope.now.number scope.now.around.items typedef.now))) }
{
    let Some(sub) = first_named(Keyword::Type, typedef.subs.items()) else {
        return Ok(None);
    };
    let home = Spot::new(scope.alloc, scope.number, scope.around.as_slice(), typedef);
    let block = Inner::new(typedef);
    let spot = home.within(scope.alloc, &block, sub)?;
    let found = settle(scope, MAX_BLOCKS, &spot)?;
    Ok(above(scope, typedef.at, found))
}

/// The settled type of a typedef at this offset, with a rank above that of the typedef.
fn above(scope: &Scope, at: u32, found: Option<Settled>) -> Option<Settled>
    ensures { (typedef : Site) (type : Site) (more : List Site) → typedef.module ≡ scope.now.number → place_of typedef ≡ at → take 1 (types_in typedef) ≡ type ∷ more
        → IfSome found (settled.IsSettled (spec.world scope.now) type) → IfSome result (settled.IsTypedefSettled (spec.world scope.now) typedef) }
{
    let rank = rank_in(scope.ranks, scope.number, at);
    match found {
        Some(one) if rank < scope.typedefs.steps() => Some(Settled {
            judgement: one.judgement,
            depth: one.depth,
            rank: one.rank,
            plain: one.plain,
            above: rank + 1,
        }),
        _ => None,
    }
}

fn innermost<'b, 'a>(around: &'b [Block<'a>]) -> Option<&'a Stmt>
    ensures { (block : Statement) (outer : List Statement) → reverse around.now ≡ block ∷ outer → option_copied result ≡ Some block }
{
    match around.last() {
        None => None,
        Some(block) => Some(block.stmt()),
    }
}

/// The settled type of the typedef at an index of the innermost block.
fn settle_at<'s, 'x, 'a>(scope: &'s Scope<'x, 'a>, k: usize) -> Result<Option<Settled>, NoMemory>
    requires { spec.IsOpen scope.now }
    ensures { IfOk result (λ found. IfSome found (settled.IsAt (spec.world scope.now) scope.now.number (reverse scope.now.around.items) k)) }
{
    let Some(block) = innermost(scope.around.as_slice()) else {
        return Ok(None);
    };
    match block.subs.items().get(k) {
        None => Ok(None),
        Some(typedef) => settle_typedef(scope, typedef),
    }
}

impl<'x, 'a> Scope<'x, 'a> {
    /// Keeps the settled type of a typedef of the innermost block.
    fn keep(&mut self, k: usize, one: Settled) -> Result<(), NoMemory>
        requires ready { spec.IsOpen self.old }
        requires is { settled.IsAt (spec.world self.old) self.old.number (reverse self.old.around.items) k one }
        ensures { IfOk result (λ _. spec.IsStill self.old self.new) }
    {
        match self.kept.pop() {
            None => Ok(()),
            Some(slots) => {
                let slots = inserted(slots, k, one)?;
                append(&mut self.kept, slots)?;
                Ok(())
            }
        }
    }

    /// Settles the typedef at an index of the innermost block, if what it names is settled.
    fn settle_next(&mut self, k: usize) -> Result<(), NoMemory>
        requires ready { spec.IsOpen self.old }
        ensures { IfOk result (λ _. spec.IsStill self.old self.new) }
    {
        match settle_at(self, k)? {
            None => Ok(()),
            Some(one) => self.keep(k, one),
        }
    }

    /// Settles these typedefs of the innermost block.
    fn settle_all(&mut self, order: &[usize]) -> Result<(), NoMemory>
        requires ready { spec.IsOpen self.old }
        ensures { IfOk result (λ _. spec.IsStill self.old self.new) }
    {
        for k in order {
            self.settle_next(*k)?;
        }
        Ok(())
    }

    /// Adds the block without a settled typedef.
    fn push(&mut self, stmt: &'a Stmt) -> Result<(), NoMemory>
        requires ready { spec.IsOpen self.old }
        ensures { IfOk result (λ _. spec.IsGrown self.old self.new (stmt.now ∷ [])) }
    {
        append(&mut self.around, Block::new(self.alloc, stmt)?)?;
        append(&mut self.kept, BTreeMap::new(self.alloc))
    }

    /// Opens the block of a statement inside those that are open. It takes time linear in the statements there, with the logarithm of the
    /// typedefs for each, and judges each typedef once.
    pub fn enter(&mut self, stmt: &'a Stmt) -> Result<(), NoMemory>
        requires ready { spec.IsOpen self.old }
        ensures { IfOk result (λ _. spec.IsGrown self.old self.new (stmt.now ∷ [])) }
    {
        self.push(stmt)?;
        let order = order_in(self.alloc, self.typedefs, self.number, &self.around)?;
        self.settle_all(order.as_slice())?;
        Ok(())
    }

    /// Closes the innermost block.
    pub fn leave(&mut self)
        requires ready { spec.IsOpen self.old }
        ensures { (modules : List Statement) (m : ℕ) (around : List Statement) (block : Statement) → spec.IsIn modules m (around ++ block ∷ []) self.old → spec.IsIn modules m around self.new }
    {
        let _block = self.around.pop();
        let _slots = self.kept.pop();
    }
}
