//! The typedefs of all modules, settled.
ghost use Rattle.std.specs.Prelude.{◌≡◌, ◌∷◌, [], ℕ, List, IfOk, reverse};
ghost use Rattle.sal_stmt.specs.declared.stmt.Stmt.{Stmt as Statement};
ghost use Rattle.sal_typedefs.specs.Settled as settled;
ghost use Rattle.sal_typedefs.specs.Opened as spec;

use crate::kept::Slots;
use crate::ordering::module_order;
use crate::pattern::Look;
use crate::ranks::{Ranks, ranks_of};
use crate::scope::Scope;
use crate::typedefs::Typedefs;
use sal_stmt::Stmt;
use sal_types::{NoMemory, append};
use std::alloc::Global;
use std::collections::BTreeMap;
use std::marker::Model;

/// Modules with the settled types of their top-level typedefs. A contract sees the list of their statements.
#[derive(Drop)]
pub struct Tops<'x, 'a> {
    alloc: Global,
    look: Look,
    typedefs: &'x Typedefs<'a>,
    ranks: Vec<Ranks>,
    kept: Vec<Slots>,
}

impl<'x, 'a> Model for Tops<'x, 'a> {
    ghost use Rattle.std.specs.Prelude.{List};
    ghost use Rattle.sal_stmt.specs.declared.stmt.Stmt.{Stmt as Statement};
    ghost use Rattle.sal_stmt.specs.contracts.stmt.Stmt as e;
    ghost use Rattle.std.specs.Coded.{codes};
    ghost use Rattle.sal_typedefs.specs.Settled.{World, AreTops};

    ghost Value = { List Statement };

    ghost coded = { Prim.hlevel (codes, e.the_row.coded) };

    ghost view = { λ a. a.typedefs.now };

    ghost invariant = { λ a. AreTops (record { modules = a.typedefs.now; ranks = a.ranks.items }) a.kept.items };
}

/// How type statements are judged, and the ranks of their typedefs.
#[derive(Clone, Copy)]
struct Means<'x, 'a> {
    alloc: Global,
    look: Look,
    typedefs: &'x Typedefs<'a>,
    ranks: &'x [Ranks],
}

/// A module without open blocks.
fn scope_over<'t, 'a>(means: Means<'t, 'a>, tops: &'t [Slots], number: u32) -> Scope<'t, 'a>
    requires { settled.AreTops (spec.world_of means) tops.now }
    ensures ready { spec.IsOpen result }
    ensures modules { result.typedefs.now ≡ means.entry.typedefs.now }
    ensures ranks { result.ranks.now ≡ means.entry.ranks.now }
    ensures number { result.number ≡ number }
    ensures around { result.around.items ≡ [] }
{
    Scope {
        alloc: means.alloc,
        look: means.look,
        typedefs: means.typedefs,
        ranks: means.ranks,
        tops,
        number,
        around: Vec::new(means.alloc),
        kept: Vec::new(means.alloc),
    }
}

/// No slots for each module.
fn empty_slots(alloc: Global, stmts: &[Stmt]) -> Result<Vec<Slots>, NoMemory>
    ensures { IfOk result (λ kept. (w : settled.World) → w.modules ≡ stmts.now → settled.AreTops w kept.items) }
{
    let mut kept = Vec::with_capacity(alloc, stmts.len())?;
    for _stmt in stmts {
        append(&mut kept, BTreeMap::new(alloc))?;
    }
    Ok(kept)
}

/// The last of these slots, or none.
fn last_slots(alloc: Global, kept: Vec<Slots>) -> Slots
    ensures { (w : settled.World) (m : ℕ) (block : Statement) → settled.AreKept w m (block ∷ []) (reverse kept.items) → settled.AreIn w m block [] result }
{
    let mut kept = kept;
    match kept.pop() {
        None => BTreeMap::new(alloc),
        Some(slots) => slots,
    }
}

/// The slots of the block of this module.
fn slots_of<'t, 'x, 'a>(
    means: &'t Means<'x, 'a>,
    kept: &'t [Slots],
    number: u32,
    stmt: &'a Stmt,
) -> Result<Slots, NoMemory>
    requires { settled.AreTops (spec.world_of means.now) kept.now }
    ensures { IfOk result (λ slots. settled.AreIn (spec.world_of means.now) number stmt.now [] slots) }
{
    let mut scope = scope_over(*means, kept, number);
    scope.enter(stmt)?;
    Ok(last_slots(means.alloc, scope.into_kept()))
}

/// Settles the typedefs of a module.
fn settle_module<'x, 'a>(
    kept: Vec<Slots>,
    means: &Means<'x, 'a>,
    m: usize,
) -> Result<Vec<Slots>, NoMemory>
    requires { settled.AreTops (spec.world_of means.now) kept.items }
    ensures { IfOk result (λ kept. settled.AreTops (spec.world_of means.now) kept.items) }
{
    let mut kept = kept;
    let stmts = means.typedefs.stmts();
    if m >= stmts.len() || m >= kept.len() {
        return Ok(kept);
    }
    let Ok(number) = u32::try_from(m) else {
        return Ok(kept);
    };
    let slots = slots_of(means, kept.as_slice(), number, &stmts[m])?;
    kept[m] = slots;
    Ok(kept)
}

/// Settles the typedefs of all modules.
fn settle_modules<'x, 'a>(means: &Means<'x, 'a>, order: &[usize]) -> Result<Vec<Slots>, NoMemory>
    ensures { IfOk result (λ kept. settled.AreTops (spec.world_of means.now) kept.items) }
{
    let mut kept = empty_slots(means.alloc, means.typedefs.stmts())?;
    for m in order {
        kept = settle_module(kept, means, *m)?;
    }
    Ok(kept)
}

impl<'x, 'a> Tops<'x, 'a> {
    fn with(alloc: Global, look: Look, typedefs: &'x Typedefs<'a>) -> Result<Tops<'x, 'a>, NoMemory>
        ensures { IfOk result (λ tops. tops ≡ typedefs.now) }
    {
        let order = module_order(alloc, typedefs, typedefs.stmts())?;
        let ranks = ranks_of(alloc, typedefs)?;
        let means = Means {
            alloc,
            look,
            typedefs,
            ranks: ranks.as_slice(),
        };
        let kept = settle_modules(&means, order.as_slice())?;
        Ok(Tops {
            alloc,
            look,
            typedefs,
            ranks,
            kept,
        })
    }

    /// The typedefs of these modules, each judged once. Patterns are parsed, and not compiled.
    pub fn read(alloc: Global, typedefs: &'x Typedefs<'a>) -> Result<Tops<'x, 'a>, NoMemory>
        ensures { IfOk result (λ tops. tops ≡ typedefs.now) }
    {
        Tops::with(alloc, Look::Read, typedefs)
    }

    /// The same where patterns are compiled: one that is too large for `regex` counts as memory that ran out.
    pub fn build(alloc: Global, typedefs: &'x Typedefs<'a>) -> Result<Tops<'x, 'a>, NoMemory>
        ensures { IfOk result (λ tops. tops ≡ typedefs.now) }
    {
        Tops::with(alloc, Look::Build, typedefs)
    }

    /// A module without open blocks.
    pub fn scope<'t>(&'t self, number: u32) -> Scope<'t, 'a>
        ensures ready { spec.IsOpen result }
        ensures modules { result.typedefs.now ≡ self.now }
        ensures number { result.number ≡ number }
        ensures around { result.around.items ≡ [] }
    {
        let means = Means {
            alloc: self.alloc,
            look: self.look,
            typedefs: self.typedefs,
            ranks: self.ranks.as_slice(),
        };
        scope_over(means, self.kept.as_slice(), number)
    }
}
