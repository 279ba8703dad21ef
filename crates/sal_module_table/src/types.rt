//! The first fault of type statements.
ghost use Rattle.std.specs.Prelude.{◌≡◌, ◌||◌, [], None, IfOk, codes};
ghost use Rattle.sal_stmt.specs.declared.stmt.Stmt.TheViews.{out-Stmt};
ghost use Rattle.sal_module.specs.Faults.{least};
ghost use Rattle.sal_module.specs.Keywords.{same};
ghost use Rattle.sal_typedefs.specs.Judgements.{merged};
ghost use Rattle.sal_typedefs.specs.Spots.{site_in};
ghost use Rattle.sal_typedefs.specs.Opened.{IsOpen, IsIn};
ghost use Rattle.sal_module_table.specs.Types as spec;

use sal_module::{Found, Keyword, Modules, better, is_named, keyword_of};
use sal_stmt::Stmt;
use sal_typedefs::{Scope, Tops, Typedefs, name_fault_at, other_fault_at};
use sal_types::NoMemory;
use std::alloc::Global;

/// Which faults of type statements are looked for.
#[derive(Clone, Copy, Debug, PartialEq, Eq)]
pub(crate) enum Asked {
    /// Faults of names.
    Names,
    /// Faults of restrictions and patterns.
    Others,
}

/// The largest depth of nested blocks of a statement.
const MAX_BLOCKS: u32 = 64;

fn is_leaf_or_type(stmt: &Stmt) -> bool
    ensures { result ≡ (same (out-Stmt stmt.now).keyword (codes "leaf") || same (out-Stmt stmt.now).keyword (codes "type")) }
{
    let word = stmt.keyword.as_str();
    word == "leaf" || word == "type"
}

/// Whether the content of a statement has a meaning. Most statements are leafs and types: these keywords are tried first.
fn is_read(stmt: &Stmt) -> bool
    ensures { result ≡ spec.is_read stmt.now }
{
    if is_leaf_or_type(stmt) {
        return true;
    }
    keyword_of(stmt.keyword.as_str()).is_some() && !is_named(Keyword::Extension, stmt)
}

fn merge(best: Option<Found>, found: Option<Found>) -> Option<Found>
    ensures { result ≡ merged best found }
{
    match found {
        None => best,
        Some(found) => better(best, found),
    }
}

/// A module whose type statements are checked, and which of their faults are looked for.
#[derive(Drop)]
struct Judge<'x, 'a> {
    typedefs: &'x Typedefs<'a>,
    asked: Asked,
    number: u32,
}

fn fault_at<'j, 'x, 'a>(
    asked: Asked,
    scope: &'j Scope<'x, 'a>,
    stmt: &'a Stmt,
) -> Result<Option<Found>, NoMemory>
    requires { IsOpen scope.now }
    ensures { IfOk result (λ found. found ≡ least None (spec.faults_at asked scope.now.typedefs.now (site_in scope.now.number scope.now.around.items stmt.now))) }
{
    match asked {
        Asked::Names => name_fault_at(scope, stmt),
        Asked::Others => other_fault_at(scope, stmt),
    }
}

/// The first of this fault and those of a statement, if it is a `type`.
fn with_here<'j, 'x, 'a>(
    best: Option<Found>,
    asked: Asked,
    scope: &'j Scope<'x, 'a>,
    stmt: &'a Stmt,
) -> Result<Option<Found>, NoMemory>
    requires { IsOpen scope.now }
    ensures { IfOk result (λ it. it ≡ least best (spec.faults_here asked scope.now.typedefs.now (site_in scope.now.number scope.now.around.items stmt.now))) }
{
    if !is_named(Keyword::Type, stmt) {
        return Ok(best);
    }
    let found = fault_at(asked, scope, stmt)?;
    Ok(merge(best, found))
}

/// The first of this fault and those of the type statements among a statement and those in `levels` levels below it.
///
/// The open blocks are those around the statement; afterwards they are the same again.
fn with_stmt<'x, 'a>(
    best: Option<Found>,
    judge: &Judge<'x, 'a>,
    scope: &mut Scope<'x, 'a>,
    levels: u32,
    stmt: &'a Stmt,
) -> Result<Option<Found>, NoMemory>
    requires { IsIn judge.now.typedefs.now judge.now.number scope.old.around.items scope.old }
    ensures value { IfOk result (λ it. it
        ≡ least best (spec.faults_in judge.now.asked levels judge.now.typedefs.now (site_in judge.now.number scope.old.around.items stmt.now))) }
    ensures around { IfOk result (λ _. IsIn judge.now.typedefs.now judge.now.number scope.old.around.items scope.new) }
{
    if !is_read(stmt) {
        return Ok(best);
    }
    let mut best = with_here(best, judge.asked, scope, stmt)?;
    if levels == 0 {
        return Ok(best);
    }
    scope.enter(stmt)?;
    for sub in stmt.subs.items() {
        best = with_stmt(best, judge, scope, levels - 1, sub)?;
    }
    scope.leave();
    Ok(best)
}

/// The least fault of this kind in a module, with this one.
fn with_module<'x, 't, 'a>(
    best: Option<Found>,
    typedefs: &'x Typedefs<'a>,
    tops: &'x Tops<'t, 'a>,
    asked: Asked,
    number: u32,
    stmt: &'a Stmt,
) -> Result<Option<Found>, NoMemory>
    requires { tops.now ≡ typedefs.now }
    ensures { IfOk result (λ it. it ≡ least best (spec.faults_in asked 64 typedefs.now (site_in number [] stmt.now))) }
{
    let judge = Judge {
        typedefs,
        asked,
        number,
    };
    let mut scope = tops.scope(number);
    with_stmt(best, &judge, &mut scope, MAX_BLOCKS, stmt)
}

/// The least fault of this kind of all type statements, or none.
fn type_fault<'x, 't, 'a>(
    modules: &'a Modules,
    typedefs: &'x Typedefs<'a>,
    tops: &'x Tops<'t, 'a>,
    asked: Asked,
) -> Result<Option<Found>, NoMemory>
    requires typedefs { typedefs.now ≡ modules.now }
    requires tops { tops.now ≡ modules.now }
    ensures { IfOk result (λ found. found ≡ least None (spec.faults_of asked modules.now)) }
{
    let stmts = modules.items();
    let mut best = None;
    for (m, stmt) in stmts.iter().enumerate() {
        best = with_module(best, typedefs, tops, asked, m as u32, stmt)?;
    }
    Ok(best)
}

/// The first fault of names in type statements, or none (RFC 7950 sections 5.5, 7.3 and 9.9.2).
///
/// It takes time linear in the statements, with the logarithm of the typedefs for each, unless typedefs have a cycle.
pub(crate) fn type_name_fault<'x, 't, 'a>(
    modules: &'a Modules,
    typedefs: &'x Typedefs<'a>,
    tops: &'x Tops<'t, 'a>,
) -> Result<Option<Found>, NoMemory>
    requires typedefs { typedefs.now ≡ modules.now }
    requires tops { tops.now ≡ modules.now }
    ensures { IfOk result (λ found. found ≡ least None (spec.name_faults modules.now)) }
{
    type_fault(modules, typedefs, tops, Asked::Names)
}

/// The first fault of restrictions and patterns in type statements, or none (RFC 7950 section 9).
///
/// It takes time linear in the statements, with the logarithm of the typedefs for each, unless typedefs have a cycle.
pub(crate) fn type_other_fault<'x, 'a>(
    alloc: Global,
    modules: &'a Modules,
    typedefs: &'x Typedefs<'a>,
) -> Result<Option<Found>, NoMemory>
    requires { typedefs.now ≡ modules.now }
    ensures { IfOk result (λ found. found ≡ least None (spec.other_faults modules.now)) }
{
    let tops = Tops::build(alloc, typedefs)?;
    others_over(modules, typedefs, &tops)
}

/// The same over typedefs that are settled.
fn others_over<'x, 't, 'a>(
    modules: &'a Modules,
    typedefs: &'x Typedefs<'a>,
    tops: &'x Tops<'t, 'a>,
) -> Result<Option<Found>, NoMemory>
    requires typedefs { typedefs.now ≡ modules.now }
    requires tops { tops.now ≡ modules.now }
    ensures { IfOk result (λ found. found ≡ least None (spec.other_faults modules.now)) }
{
    type_fault(modules, typedefs, tops, Asked::Others)
}
