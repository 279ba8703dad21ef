//! Faults of the names in one type statement (RFC 7950 sections 5.5, 7.3 and 9.9.2).
ghost use Rattle.std.specs.Prelude.{◌≡◌, ◌≤◌, None, true, false, is_none, IfOk};
ghost use Rattle.std.specs.List.{flat_map, list_any};
ghost use Rattle.sal_module.specs.Faults.{least};
ghost use Rattle.sal_module.specs.Statements.{argument_of as argument, subs_of};
ghost use Rattle.sal_typedefs.specs.Builtins.{builtin_of as builtin};
ghost use Rattle.sal_typedefs.specs.Opened.{IsOpen};
ghost use Rattle.sal_typedefs.specs.Spots.{site_of, site_in};
ghost use Rattle.sal_typedefs.specs.Scopes.{module_of};
ghost use Rattle.sal_typedefs.specs.Names as spec;

use crate::below::target;
use crate::builtin::builtin_of;
use crate::circle::{goes_in_circle, typedef_around};
use crate::entries::with_fault;
use crate::kept::Settled;
use crate::path::path_names;
use crate::ranks::rank_in;
use crate::scope::{Scope, named};
use crate::spot::Spot;
use crate::typedefs::Typedefs;
use crate::whole::lone_builtin;
use sal_module::{Cause, Found, Keyword, argument_of, is_named, value_of};
use sal_stmt::Stmt;
use sal_types::{NoMemory, Str};
use std::alloc::Global;

/// The first of this fault and that of a name that no typedef has.
fn with_unknown<'x, 'a>(
    best: Option<Found>,
    alloc: Global,
    typedefs: &'x Typedefs<'a>,
    spot: &Spot<'x, 'a>,
) -> Result<Option<Found>, NoMemory>
    ensures { IfOk result (λ it. it ≡ least best (spec.unknown_faults typedefs.now (site_of spot.now))) }
{
    let is_builtin = builtin_of(argument_of(spot.stmt)).is_some();
    let found = target(alloc, typedefs, spot)?;
    let bad = !is_builtin && found.is_none();
    Ok(with_fault(best, bad, Cause::UnknownName, spot.module, spot.stmt))
}

/// Whether it is known that the typedef around a statement depends on itself through the name in it not: the typedef that it names has a
/// lower rank, and so have those on which that depends.
fn is_below<'s, 'x, 'a>(scope: &'s Scope<'x, 'a>, spot: &Spot<'s, 'a>) -> bool
    requires ready { IsOpen scope.now }
    requires outer { spot.now.outer.now ≡ scope.now.around.items }
    requires number { spot.now.module ≡ scope.now.number }
    requires other { builtin (argument spot.now.stmt.now) ≡ None }
    ensures { result ≡ true → spec.goes_in_circle (spec.steps_of scope.now.typedefs.now) scope.now.typedefs.now (site_of spot.now) ≡ false }
{
    let Some(typedef) = typedef_around(spot) else {
        return false;
    };
    match named(scope, spot) {
        None => false,
        Some(one) => is_lower(one, rank_in(scope.ranks, spot.module, typedef.at)),
    }
}

fn is_lower(one: &Settled, rank: usize) -> bool
    ensures { result ≡ true → (one.now.rank ≤ rank) × (one.now.above ≤ rank) }
{
    one.rank <= rank && one.above <= rank
}

/// The first of this fault and that of a name through which the typedef around it depends on itself.
fn with_circle<'s, 'x, 'a>(
    best: Option<Found>,
    scope: &'s Scope<'x, 'a>,
    spot: &Spot<'s, 'a>,
) -> Result<Option<Found>, NoMemory>
    requires ready { IsOpen scope.now }
    requires outer { spot.now.outer.now ≡ scope.now.around.items }
    requires number { spot.now.module ≡ scope.now.number }
    ensures { IfOk result (λ it. it ≡ least best (spec.cycle_faults (spec.steps_of scope.now.typedefs.now) scope.now.typedefs.now (site_of spot.now))) }
{
    if builtin_of(argument_of(spot.stmt)).is_some() || is_below(scope, spot) {
        return Ok(best);
    }
    with_search(best, scope.alloc, scope.typedefs, spot)
}

/// The same by a search.
fn with_search<'x, 'a>(
    best: Option<Found>,
    alloc: Global,
    typedefs: &'x Typedefs<'a>,
    spot: &Spot<'x, 'a>,
) -> Result<Option<Found>, NoMemory>
    ensures { IfOk result (λ it. it ≡ least best (spec.cycle_faults (spec.steps_of typedefs.now) typedefs.now (site_of spot.now))) }
{
    let found = target(alloc, typedefs, spot)?;
    if found.is_none() {
        return Ok(best);
    }
    let bad = goes_in_circle(alloc, typedefs, spot)?;
    Ok(with_fault(best, bad, Cause::NameCycle, spot.module, spot.stmt))
}

fn with_base(best: Option<Found>, typedefs: &Typedefs, number: u32, sub: &Stmt) -> Option<Found>
    ensures { result ≡ least best (spec.base_fault typedefs.now number sub.now) }
{
    let bad = is_named(Keyword::Base, sub)
        && typedefs.identity_of(number, argument_of(sub)).is_none();
    with_fault(best, bad, Cause::UnknownName, number, sub)
}

/// The first of this fault and those of bases that name no identity.
fn with_each_base(
    best: Option<Found>,
    typedefs: &Typedefs,
    number: u32,
    stmt: &Stmt,
) -> Option<Found>
    ensures { result ≡ least best (flat_map (spec.base_fault typedefs.now number) (subs_of stmt.now)) }
{
    let mut best = best;
    for sub in stmt.subs.items() {
        best = with_base(best, typedefs, number, sub);
    }
    best
}

/// The same for an identityref: no other type has bases.
fn with_bases<'x, 'a>(
    best: Option<Found>,
    typedefs: &Typedefs,
    spot: &Spot<'x, 'a>,
) -> Option<Found>
    ensures { result ≡ least best (spec.base_faults typedefs.now (site_of spot.now)) }
{
    if argument_of(spot.stmt) != "identityref" {
        return best;
    }
    with_each_base(best, typedefs, spot.module, spot.stmt)
}

/// Whether one of these names has a prefix that no import has.
fn has_unknown(typedefs: &Typedefs, number: u32, names: &[Str]) -> bool
    ensures { result ≡ list_any (λ name. is_none (module_of typedefs.now number name)) names.now }
{
    names
        .iter()
        .any(|name| typedefs.module_of(number, name.as_str()).is_none())
}

/// The first of this fault and that of an unknown prefix in the path of a leafref.
fn with_path<'x, 'a>(
    best: Option<Found>,
    alloc: Global,
    typedefs: &Typedefs,
    spot: &Spot<'x, 'a>,
) -> Result<Option<Found>, NoMemory>
    ensures { IfOk result (λ it. it ≡ least best (spec.path_faults typedefs.now (site_of spot.now))) }
{
    if argument_of(spot.stmt) != "leafref" {
        return Ok(best);
    }
    let names = path_names(alloc, value_of(Keyword::Path, spot.stmt))?;
    let bad = has_unknown(typedefs, spot.module, names.as_slice());
    Ok(with_fault(best, bad, Cause::UnknownName, spot.module, spot.stmt))
}

/// The first of this fault and those of the names in one type statement.
fn with_names<'s, 'x, 'a>(
    best: Option<Found>,
    scope: &'s Scope<'x, 'a>,
    spot: &Spot<'s, 'a>,
) -> Result<Option<Found>, NoMemory>
    requires ready { IsOpen scope.now }
    requires outer { spot.now.outer.now ≡ scope.now.around.items }
    requires number { spot.now.module ≡ scope.now.number }
    ensures { IfOk result (λ it. it ≡ least best (spec.name_faults (spec.steps_of scope.now.typedefs.now) scope.now.typedefs.now (site_of spot.now))) }
{
    let best = with_unknown(best, scope.alloc, scope.typedefs, spot)?;
    let best = with_circle(best, scope, spot)?;
    let best = with_bases(best, scope.typedefs, spot);
    let best = with_path(best, scope.alloc, scope.typedefs, spot)?;
    Ok(best)
}

/// The least fault of the names in one `type` statement of the open blocks: an unknown typedef, base or prefix of a path
/// (`UnknownName`), or a typedef that depends on itself through this name (`NameCycle`).
///
/// It takes the logarithm of a block's typedefs, unless the typedef that it names is not settled. If that leads into a cycle of other
/// typedefs, a search follows it for as many steps as there are statements.
pub fn name_fault_at<'s, 'x, 'a>(
    scope: &'s Scope<'x, 'a>,
    stmt: &'a Stmt,
) -> Result<Option<Found>, NoMemory>
    requires { IsOpen scope.now }
    ensures { IfOk result (λ found. found ≡ least None (spec.name_faults (spec.steps_of scope.now.typedefs.now) scope.now.typedefs.now (site_in scope.now.number scope.now.around.items stmt.now))) }
{
    match lone_builtin(stmt) {
        None => {
            let around = scope.around.as_slice();
            let spot = Spot::new(scope.alloc, scope.number, around, stmt);
            with_names(None, scope, &spot)
        }
        Some(_builtin) => Ok(None),
    }
}
