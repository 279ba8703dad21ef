//! Open blocks with their typedefs settled, and type statements in them.
ghost use Rattle.std.specs.Prelude.{◌≡◌, ◌≤◌, None, true, not, IfOk, IfSome, codes, take};
ghost use Rattle.std.specs.List.{slice_get};
ghost use Rattle.std.specs.Option.{option_copied, option_to_list};
ghost use Rattle.sal_module.specs.Keywords.{same};
ghost use Rattle.sal_module.specs.Statements.{argument_of as argument};
ghost use Rattle.sal_typedefs.specs.Builtins.{builtin_of as builtin};
ghost use Rattle.sal_typedefs.specs.Names as names;
ghost use Rattle.sal_typedefs.specs.Scopes as scopes;
ghost use Rattle.sal_typedefs.specs.Settled as settled;
ghost use Rattle.sal_typedefs.specs.Spots.{site_of};
ghost use Rattle.sal_typedefs.specs.Opened as spec;

use crate::block::Block;
use crate::builtin::builtin_of;
use crate::kept::{Parts, Settled, Slots, both, settled_outer, top_slots};
use crate::name::local;
use crate::pattern::Look;
use crate::ranks::Ranks;
use crate::site_judge::judge_next;
use crate::spot::{Inner, Spot, closest_inner};
use crate::typedefs::Typedefs;
use sal_module::{Keyword, argument_of, is_named};
use sal_stmt::Stmt;
use sal_types::NoMemory;
use std::alloc::Global;

/// The largest depth of nested blocks of a statement.
pub(crate) const MAX_BLOCKS: u32 = 64;

/// The blocks around a statement of a module, from the module inwards, with their settled typedefs and those of all modules.
#[derive(Drop)]
pub struct Scope<'x, 'a> {
    pub(crate) alloc: Global,
    pub(crate) look: Look,
    pub(crate) typedefs: &'x Typedefs<'a>,
    pub(crate) ranks: &'x [Ranks],
    pub(crate) tops: &'x [Slots],
    pub(crate) number: u32,
    pub(crate) around: Vec<Block<'a>>,
    pub(crate) kept: Vec<Slots>,
}

impl<'x, 'a> Scope<'x, 'a> {
    /// The slots of the open blocks.
    pub(crate) fn into_kept(self) -> Vec<Slots>
        ensures { result.items ≡ self.entry.kept.items }
    {
        self.kept
    }
}

/// The settled type of the typedef of this name in the blocks around a statement.
fn own<'s, 'x, 'a>(scope: &'s Scope<'x, 'a>, spot: &Spot<'s, 'a>, name: &str) -> Option<&'s Settled>
    requires ready { spec.IsOpen scope.now }
    requires outer { spot.now.outer.now ≡ scope.now.around.items }
    requires number { spot.now.module ≡ scope.now.number }
    ensures { IfSome (option_copied result) (settled.IsTargetSettled (spec.world scope.now) (scopes.closest spot.now.module name.now (site_of spot.now).around)) }
{
    match closest_inner(spot.module, spot.inner.as_slice(), name) {
        None => settled_outer(scope.number, &scope.around, &scope.kept, name),
        Some(_inner) => None,
    }
}

/// The same in another module.
fn foreign<'s, 'x, 'a>(scope: &'s Scope<'x, 'a>, number: u32, name: &str) -> Option<&'s Settled>
    requires { spec.IsOpen scope.now }
    ensures { IfSome (option_copied result) (settled.IsTargetSettled (spec.world scope.now)
        (scopes.closest number name.now (option_to_list (slice_get scope.now.typedefs.now number)))) }
{
    match scope.typedefs.top(number) {
        None => None,
        Some(blocks) => settled_outer(number, blocks, top_slots(scope.tops, number), name),
    }
}

/// The settled type of the typedef that a type statement names.
pub(crate) fn named<'s, 'x, 'a>(
    scope: &'s Scope<'x, 'a>,
    spot: &Spot<'s, 'a>,
) -> Option<&'s Settled>
    requires ready { spec.IsOpen scope.now }
    requires outer { spot.now.outer.now ≡ scope.now.around.items }
    requires number { spot.now.module ≡ scope.now.number }
    ensures { IfSome (option_copied result) (settled.IsTargetSettled (spec.world scope.now) (scopes.typedef_of scope.now.typedefs.now (site_of spot.now) (argument spot.now.stmt.now))) }
{
    let name = argument_of(spot.stmt);
    match scope.typedefs.module_of(spot.module, name) {
        None => None,
        Some(number) => {
            if number == spot.module {
                own(scope, spot, local(name))
            } else {
                foreign(scope, number, local(name))
            }
        }
    }
}

/// Whether a type statement is no leafref.
fn is_plain(stmt: &Stmt) -> bool
    ensures { result ≡ not (same (argument stmt.now) (codes "leafref")) }
{
    argument_of(stmt) != "leafref"
}

/// What is settled of a statement over those that it depends on, if it takes no more steps than there are statements. The rank has to be
/// above that of the typedef that the statement names.
fn over<'x, 'a>(
    scope: &Scope<'x, 'a>,
    spot: &Spot,
    parts: Parts,
) -> Result<Option<Settled>, NoMemory>
    requires parts { settled.AreParts (spec.world scope.now) (names.rests_on scope.now.typedefs.now (site_of spot.now)) parts }
    requires low { settled.is_low (spec.world scope.now) parts.rank (site_of spot.now) ≡ true }
    ensures { IfOk result (λ found. IfSome found (settled.IsSettled (spec.world scope.now) (site_of spot.now))) }
{
    let Parts {
        below,
        depth,
        rank,
        plain,
    } = parts;
    if depth >= scope.typedefs.steps() {
        return Ok(None);
    }
    let judgement = judge_next(scope.alloc, scope.look, scope.typedefs, spot, below)?;
    Ok(Some(Settled {
        judgement,
        depth: depth + 1,
        rank,
        plain: both(plain, is_plain(spot.stmt)),
        above: 0,
    }))
}

/// What a statement over the type of a typedef depends on.
fn parts_of(alloc: Global, one: &Settled) -> Result<Parts, NoMemory>
    ensures parts { IfOk result (λ parts. (w : settled.World) (typedef : scopes.Site) → settled.IsTypedefSettled w typedef one.now
        → settled.AreParts w (take 1 (names.types_in typedef)) parts) }
    ensures rank { IfOk result (λ parts. one.now.above ≤ parts.rank) }
{
    let copy = one.copy()?;
    let parts = Parts::new(alloc).with(copy)?;
    Ok(parts.raised(one.above))
}

/// What is settled of a statement that names a typedef, if the typedef is settled.
fn settle_named<'s, 'x, 'a>(
    scope: &'s Scope<'x, 'a>,
    spot: &Spot<'s, 'a>,
) -> Result<Option<Settled>, NoMemory>
    requires ready { spec.IsOpen scope.now }
    requires outer { spot.now.outer.now ≡ scope.now.around.items }
    requires number { spot.now.module ≡ scope.now.number }
    requires other { builtin (argument spot.now.stmt.now) ≡ None }
    ensures { IfOk result (λ found. IfSome found (settled.IsSettled (spec.world scope.now) (site_of spot.now))) }
{
    match named(scope, spot) {
        None => Ok(None),
        Some(one) => {
            let parts = parts_of(scope.alloc, one)?;
            over(scope, spot, parts)
        }
    }
}

/// What is settled of a type statement, if what it depends on is settled. Unions are nested at most `levels` deep.
pub(crate) fn settle<'s, 'x, 'a>(
    scope: &'s Scope<'x, 'a>,
    levels: u32,
    spot: &Spot<'s, 'a>,
) -> Result<Option<Settled>, NoMemory>
    requires ready { spec.IsOpen scope.now }
    requires outer { spot.now.outer.now ≡ scope.now.around.items }
    requires number { spot.now.module ≡ scope.now.number }
    ensures { IfOk result (λ found. IfSome found (settled.IsSettled (spec.world scope.now) (site_of spot.now))) }
{
    let name = argument_of(spot.stmt);
    if builtin_of(name).is_none() {
        return settle_named(scope, spot);
    }
    if name != "union" {
        return over(scope, spot, Parts::new(scope.alloc));
    }
    if levels == 0 {
        return Ok(None);
    }
    let block = Inner::new(spot.stmt);
    let mut parts = Parts::new(scope.alloc);
    for sub in spot.stmt.subs.items() {
        if !is_named(Keyword::Type, sub) {
            continue;
        }
        let member = spot.within(scope.alloc, &block, sub)?;
        let Some(one) = settle(scope, levels - 1, &member)? else {
            return Ok(None);
        };
        parts = parts.with(one)?;
    }
    over(scope, spot, parts)
}
