//! The type statements that a type statement depends on: that of the typedef that it names, or the members of a union.
ghost use Rattle.std.specs.Prelude.{◌≡◌, IfOk, map, option_map, take};
ghost use Rattle.std.specs.List.{flat_map};
ghost use Rattle.std.specs.Option.{option_to_list};
ghost use Rattle.sal_typedefs.specs.Scopes as scopes;
ghost use Rattle.sal_typedefs.specs.Names as spec;
ghost use Rattle.sal_typedefs.specs.Spots.{site_of};

use crate::builtin::builtin_of;
use crate::name::local;
use crate::spot::{Inner, Spot, typedef_in};
use crate::typedefs::Typedefs;
use sal_module::{Keyword, argument_of, first_named, is_named};
use sal_types::{NoMemory, append};
use std::alloc::Global;

/// The typedef of a name in a module, as visible at a statement.
fn typedef_of<'x, 'a>(
    alloc: Global,
    typedefs: &'x Typedefs<'a>,
    spot: &Spot<'x, 'a>,
    number: u32,
    name: &str,
) -> Result<Option<Spot<'x, 'a>>, NoMemory>
    ensures { IfOk result (λ found. option_map site_of found ≡ scopes.closest number name.now (scopes.blocks_of typedefs.now (site_of spot.now) number)) }
{
    if number == spot.module {
        return spot.typedef(alloc, name);
    }
    match typedefs.top(number) {
        None => Ok(None),
        Some(blocks) => Ok(typedef_in(alloc, number, blocks, name)),
    }
}

/// The typedef that a type statement names.
pub(crate) fn target<'x, 'a>(
    alloc: Global,
    typedefs: &'x Typedefs<'a>,
    spot: &Spot<'x, 'a>,
) -> Result<Option<Spot<'x, 'a>>, NoMemory>
    ensures { IfOk result (λ found. option_map site_of found ≡ spec.target typedefs.now (site_of spot.now)) }
{
    let name = argument_of(spot.stmt);
    if builtin_of(name).is_some() {
        return Ok(None);
    }
    match typedefs.module_of(spot.module, name) {
        None => Ok(None),
        Some(number) => typedef_of(alloc, typedefs, spot, number, local(name)),
    }
}

/// The `type` statements in the block of a statement.
fn types_in<'x, 'a>(alloc: Global, spot: &Spot<'x, 'a>) -> Result<Vec<Spot<'x, 'a>>, NoMemory>
    ensures { IfOk result (λ all. map site_of all.items ≡ spec.types_in (site_of spot.now)) }
{
    let mut all = Vec::new(alloc);
    let block = Inner::new(spot.stmt);
    for sub in spot.stmt.subs.items() {
        if is_named(Keyword::Type, sub) {
            append(&mut all, spot.within(alloc, &block, sub)?)?;
        }
    }
    Ok(all)
}

/// The first of them.
fn first_type<'x, 'a>(alloc: Global, spot: &Spot<'x, 'a>) -> Result<Vec<Spot<'x, 'a>>, NoMemory>
    ensures { IfOk result (λ all. map site_of all.items ≡ take 1 (spec.types_in (site_of spot.now))) }
{
    let mut all = Vec::new(alloc);
    match first_named(Keyword::Type, spot.stmt.subs.items()) {
        None => Ok(all),
        Some(sub) => {
            let block = Inner::new(spot.stmt);
            append(&mut all, spot.within(alloc, &block, sub)?)?;
            Ok(all)
        }
    }
}

/// The `type` statement of a typedef, if there is one.
fn type_of<'x, 'a>(
    alloc: Global,
    typedef: Option<Spot<'x, 'a>>,
) -> Result<Vec<Spot<'x, 'a>>, NoMemory>
    ensures { IfOk result (λ all. map site_of all.items
        ≡ flat_map (λ typedef. take 1 (spec.types_in typedef)) (option_to_list (option_map site_of typedef.entry))) }
{
    match typedef {
        None => Ok(Vec::new(alloc)),
        Some(typedef) => first_type(alloc, &typedef),
    }
}

/// The type statements that a type statement depends on.
pub(crate) fn rests_on<'x, 'a>(
    alloc: Global,
    typedefs: &'x Typedefs<'a>,
    spot: &Spot<'x, 'a>,
) -> Result<Vec<Spot<'x, 'a>>, NoMemory>
    ensures { IfOk result (λ all. map site_of all.items ≡ spec.rests_on typedefs.now (site_of spot.now)) }
{
    let name = argument_of(spot.stmt);
    if builtin_of(name).is_some() {
        if name == "union" {
            return types_in(alloc, spot);
        }
        return Ok(Vec::new(alloc));
    }
    let typedef = target(alloc, typedefs, spot)?;
    type_of(alloc, typedef)
}
