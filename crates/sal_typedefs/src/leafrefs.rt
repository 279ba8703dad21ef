//! Leafrefs in the type of a node (RFC 7950 section 9.9).
ghost use Rattle.std.specs.Prelude.{◌≡◌, ◌++◌, ◌∷◌, [], true, IfOk, map, filter};
ghost use Rattle.sal_typedefs.specs.Spots.{site_of, site_in};
ghost use Rattle.sal_typedefs.specs.Names as names;
ghost use Rattle.sal_typedefs.specs.Leafrefs as spec;
ghost use Rattle.sal_typedefs.specs.Opened.{IsOpen};

use crate::scope::{MAX_BLOCKS, Scope, settle};
use crate::spot::Spot;
use crate::typedefs::Typedefs;
use crate::walk::{next, start};
use crate::whole::whole_builtin;
use sal_module::argument_of;
use sal_stmt::Stmt;
use sal_types::{NoMemory, append};
use std::alloc::Global;

/// A `type leafref` statement.
#[derive(Drop)]
pub struct Leafref<'a> {
    /// The index of its module, whose prefixes the path uses.
    pub module: u32,
    /// The statement, which has the path.
    pub stmt: &'a Stmt,
}

/// Appends the statement, if it is a leafref.
fn push_leafref<'x, 'a>(all: &mut Vec<Leafref<'a>>, spot: &Spot<'x, 'a>) -> Result<(), NoMemory>
    ensures { IfOk result (λ _. map spec.leafref_seen all.new.items ≡ map spec.leafref_seen all.old.items ++ map spec.stmt_in (filter names.is_leafref (site_of spot.now ∷ []))) }
{
    if argument_of(spot.stmt) == "leafref" {
        append(
            all,
            Leafref {
                module: spot.module,
                stmt: spot.stmt,
            },
        )?;
    }
    Ok(())
}

/// `leafrefs_at` of the statement at a spot, by a search through all statements that it depends on.
fn leafrefs_by_way<'x, 'a>(
    alloc: Global,
    typedefs: &'x Typedefs<'a>,
    spot: Spot<'x, 'a>,
) -> Result<Vec<Leafref<'a>>, NoMemory>
    ensures { IfOk result (λ all. map spec.leafref_seen all.items ≡ map spec.stmt_in (names.leafrefs_of typedefs.now (site_of spot.entry))) }
{
    let mut all = Vec::new(alloc);
    let mut ways = start(alloc, typedefs, spot)?;
    'ways: while let Some(gone) = next(&mut ways, alloc, typedefs)? {
        push_leafref(&mut all, &gone.spot)?;
    }
    Ok(all)
}

/// Whether no leafref is among a type statement and those that it depends on, as far as that is settled.
fn is_plain<'s, 'x, 'a>(scope: &'s Scope<'x, 'a>, spot: &Spot<'s, 'a>) -> Result<bool, NoMemory>
    requires ready { IsOpen scope.now }
    requires outer { spot.now.outer.now ≡ scope.now.around.items }
    requires number { spot.now.module ≡ scope.now.number }
    ensures { IfOk result (λ plain. plain ≡ true → names.leafrefs_of scope.now.typedefs.now (site_of spot.now) ≡ []) }
{
    match settle(scope, MAX_BLOCKS, spot)? {
        None => Ok(false),
        Some(one) => Ok(one.plain),
    }
}

/// `leafrefs_at` of the statement at a spot of open blocks.
fn leafrefs_of_spot<'s, 'x, 'a>(
    scope: &'s Scope<'x, 'a>,
    spot: Spot<'s, 'a>,
) -> Result<Vec<Leafref<'a>>, NoMemory>
    requires ready { IsOpen scope.now }
    requires outer { spot.outer.now ≡ scope.now.around.items }
    requires number { spot.module ≡ scope.now.number }
    ensures { IfOk result (λ all. map spec.leafref_seen all.items ≡ map spec.stmt_in (names.leafrefs_of scope.now.typedefs.now (site_of spot.entry))) }
{
    if is_plain(scope, &spot)? {
        return Ok(Vec::new(scope.alloc));
    }
    leafrefs_by_way(scope.alloc, scope.typedefs, spot)
}

/// The leafrefs among a `type` statement of the open blocks and those that it depends on, each statement before those that it depends on.
///
/// It takes the time of `judge_at` if there is none, and else time linear in the statements that it depends on.
pub fn leafrefs_at<'s, 'x, 'a>(
    scope: &'s Scope<'x, 'a>,
    stmt: &'a Stmt,
) -> Result<Vec<Leafref<'a>>, NoMemory>
    requires { IsOpen scope.now }
    ensures { IfOk result (λ all. map spec.leafref_seen all.items ≡ map spec.stmt_in (names.leafrefs_of scope.now.typedefs.now (site_in scope.now.number scope.now.around.items stmt.now))) }
{
    match whole_builtin(stmt) {
        None => {
            let around = scope.around.as_slice();
            let spot = Spot::new(scope.alloc, scope.number, around, stmt);
            leafrefs_of_spot(scope, spot)
        }
        Some(_builtin) => Ok(Vec::new(scope.alloc)),
    }
}
