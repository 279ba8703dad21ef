//! Typedefs that depend on themselves.
ghost use Rattle.std.specs.Prelude.{◌≡◌, ◌<◌, ◌||◌, [], false, ⊤, IfOk, MatchOption, find, length, reverse};
ghost use Rattle.std.specs.List.{list_any};
ghost use Rattle.std.specs.Option.{option_copied, option_to_list};
ghost use Rattle.sal_module.specs.declared.keyword.Keyword.TheVariants as word;
ghost use Rattle.sal_module.specs.Statements.{is_named};
ghost use Rattle.sal_typedefs.specs.Spots.{site_of};
ghost use Rattle.sal_typedefs.specs.Names as spec;
ghost use Rattle.sal_typedefs.specs.Walks as walks;

use crate::below::target;
use crate::block::Block;
use crate::spot::{Inner, Spot};
use crate::typedefs::Typedefs;
use crate::walk::{Way, next, start};
use sal_module::{Keyword, is_named};
use sal_stmt::Stmt;
use sal_types::NoMemory;
use std::alloc::Global;

fn closest_outer<'a>(list: &[Block<'a>]) -> Option<&'a Stmt>
    ensures { option_copied result ≡ find (is_named word.Typedef) (reverse list.now) }
{
    let mut n = list.len();
    'closest: while n > 0 {
        let stmt = list[n - 1].stmt();
        if is_named(Keyword::Typedef, stmt) {
            return Some(stmt);
        }
        n -= 1;
    }
    None
}

fn closest_inner<'a>(list: &[Inner<'a>]) -> Option<&'a Stmt>
    ensures { option_copied result ≡ find (is_named word.Typedef) (reverse list.now) }
{
    let mut n = list.len();
    'closest: while n > 0 {
        let stmt = list[n - 1].stmt();
        if is_named(Keyword::Typedef, stmt) {
            return Some(stmt);
        }
        n -= 1;
    }
    None
}

/// The closest typedef around a statement.
pub(crate) fn typedef_around<'x, 'a>(spot: &Spot<'x, 'a>) -> Option<&'a Stmt>
    ensures { option_copied result ≡ spec.typedef_around (site_of spot.now) }
{
    match closest_inner(spot.inner.as_slice()) {
        Some(stmt) => Some(stmt),
        None => closest_outer(spot.outer),
    }
}

/// Whether a type statement names this typedef of this module.
fn is_of<'x, 'a>(
    alloc: Global,
    typedefs: &'x Typedefs<'a>,
    number: u32,
    typedef: &Stmt,
    spot: &Spot<'x, 'a>,
) -> Result<bool, NoMemory>
    ensures { IfOk result (λ is. is ≡ spec.is_of typedefs.now (record { «module» = number; stmt = typedef.now; around = [] }) (site_of spot.now)) }
{
    match target(alloc, typedefs, spot)? {
        None => Ok(false),
        Some(found) => Ok(number == found.module && typedef.at == found.stmt.at),
    }
}

/// Whether the next statement, if any, names this typedef of this module.
fn next_is_of<'x, 'a>(
    ways: &mut Vec<Way<'x, 'a>>,
    alloc: Global,
    typedefs: &'x Typedefs<'a>,
    number: u32,
    typedef: &Stmt,
) -> Result<Option<bool>, NoMemory>
    ensures names { IfOk result (λ is. MatchOption is (walks.left_names typedefs.now (record { «module» = number; stmt = typedef.now; around = [] }) ways.old.items ≡ false)
        (λ is. walks.left_names typedefs.now (record { «module» = number; stmt = typedef.now; around = [] }) ways.old.items
        ≡ (is || walks.left_names typedefs.now (record { «module» = number; stmt = typedef.now; around = [] }) ways.new.items))) }
    ensures fewer { IfOk result (λ is. MatchOption is ⊤ (λ _. length (walks.left typedefs.now ways.new.items) < length (walks.left typedefs.now ways.old.items))) }
{
    match next(ways, alloc, typedefs)? {
        None => Ok(None),
        Some(gone) => Ok(Some(is_of(alloc, typedefs, number, typedef, &gone.spot)?)),
    }
}

/// Whether one of the pending statements names this typedef of this module.
fn one_is_of<'x, 'a>(
    ways: &mut Vec<Way<'x, 'a>>,
    alloc: Global,
    typedefs: &'x Typedefs<'a>,
    number: u32,
    typedef: &Stmt,
) -> Result<bool, NoMemory>
    ensures { IfOk result (λ is. is ≡ walks.left_names typedefs.now (record { «module» = number; stmt = typedef.now; around = [] }) ways.old.items) }
{
    'ways: while let Some(is) = next_is_of(ways, alloc, typedefs, number, typedef)? {
        if is {
            return Ok(true);
        }
    }
    Ok(false)
}

/// Whether a type statement, or one that it depends on, names this typedef of its module.
fn reaches<'x, 'a>(
    alloc: Global,
    typedefs: &'x Typedefs<'a>,
    spot: &Spot<'x, 'a>,
    typedef: &Stmt,
) -> Result<bool, NoMemory>
    ensures { IfOk result (λ does. does ≡ list_any (spec.is_of typedefs.now (record { «module» = spot.now.module; stmt = typedef.now; around = [] }))
        (spec.under (spec.steps_of typedefs.now) typedefs.now (site_of spot.now))) }
{
    let mut ways = start(alloc, typedefs, spot.copy(alloc)?)?;
    one_is_of(&mut ways, alloc, typedefs, spot.module, typedef)
}

/// Whether the typedef around a type statement depends on itself through the name in the statement.
pub(crate) fn goes_in_circle<'x, 'a>(
    alloc: Global,
    typedefs: &'x Typedefs<'a>,
    spot: &Spot<'x, 'a>,
) -> Result<bool, NoMemory>
    ensures { IfOk result (λ does. does ≡ list_any (λ typedef. list_any (spec.is_of typedefs.now (record { «module» = spot.now.module; stmt = typedef; around = [] }))
        (spec.under (spec.steps_of typedefs.now) typedefs.now (site_of spot.now))) (option_to_list (spec.typedef_around (site_of spot.now)))) }
{
    match typedef_around(spot) {
        None => Ok(false),
        Some(typedef) => reaches(alloc, typedefs, spot, typedef),
    }
}
