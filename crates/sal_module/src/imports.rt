//! Modules by name, and their imports.
ghost use Rattle.std.specs.Prelude.{◌≡◌, ◌==◌, ◌^◌, ◌<◌, ◌≤◌, length, IfOk, IfSome};
ghost use Rattle.std.specs.List.{list_any, flat_map};
ghost use Rattle.sal_module.specs.Faults.{least};
ghost use Rattle.sal_module.specs.Imports as spec;

use crate::fault::{Cause, Found};
use crate::keyword::Keyword;
use crate::profile::with_fault;
use crate::reach::{is_marked, reaching};
use crate::statement::{argument_of, first_named, is_named};
use sal_stmt::Stmt;
use sal_types::NoMemory;
use std::alloc::Global;

fn position_of(stmts: &[Stmt], name: &str) -> Option<usize>
    ensures value { result ≡ spec.place_of stmts.now name.now }
    ensures within { IfSome result (λ place. place < length stmts.now) }
{
    stmts.iter().position(|stmt| argument_of(stmt) == name)
}

/// The index of the first module of this name.
pub(crate) fn place_of(stmts: &[Stmt], name: &str) -> Option<u32>
    requires { length stmts.now < 2 ^ 32 }
    ensures { result ≡ spec.place_of stmts.now name.now }
{
    match position_of(stmts, name) {
        Some(place) => Some(place as u32),
        None => None,
    }
}

fn has_name(stmts: &[Stmt], name: &str) -> bool
    ensures { result ≡ list_any (spec.has_name name.now) stmts.now }
{
    stmts.iter().any(|stmt| argument_of(stmt) == name)
}

/// Adds the fault of a module whose name an earlier one has.
pub(crate) fn with_name(
    best: Option<Found>,
    stmts: &[Stmt],
    number: u32,
    stmt: &Stmt,
) -> Option<Found>
    requires { number ≤ length stmts.now }
    ensures { result ≡ least best (spec.name_faults stmts.now number stmt.now) }
{
    if has_name(&stmts[..number as usize], argument_of(stmt)) {
        with_fault(best, Cause::DoubleNode, number, stmt.at)
    } else {
        best
    }
}

fn with_given(best: Option<Found>, stmts: &[Stmt], number: u32, one: &Stmt) -> Option<Found>
    requires { length stmts.now < 2 ^ 32 }
    ensures { result ≡ least best (spec.given_faults stmts.now number one.now) }
{
    if place_of(stmts, argument_of(one)).is_none() {
        with_fault(best, Cause::NoModule, number, one.at)
    } else {
        best
    }
}

/// Adds the faults of imports of modules that were not given.
pub(crate) fn with_all_given(
    best: Option<Found>,
    stmts: &[Stmt],
    number: u32,
    stmt: &Stmt,
) -> Option<Found>
    requires { length stmts.now < 2 ^ 32 }
    ensures { result ≡ least best (flat_map (spec.given_faults stmts.now number) (spec.imports_of stmt.now)) }
{
    let mut best = best;
    for sub in stmt.subs.items() {
        if is_named(Keyword::Import, sub) {
            best = with_given(best, stmts, number, sub);
        }
    }
    best
}

fn has_number(out: &[usize], number: usize) -> bool
    ensures { result ≡ list_any (λ j. j == number) out.now }
{
    out.iter().any(|k| *k == number)
}

fn push_new(out: &mut Vec<usize>, place: Option<usize>) -> Result<(), NoMemory>
    ensures { IfOk result (λ _. out.new.items ≡ spec.with_new out.old.items place) }
{
    if let Some(number) = place {
        if !has_number(out.as_slice(), number) {
            out.push(number)?;
        }
    }
    Ok(())
}

/// The modules that a module imports, each once.
fn imported_modules(alloc: Global, stmts: &[Stmt], stmt: &Stmt) -> Result<Vec<usize>, NoMemory>
    ensures { IfOk result (λ out. out.items ≡ spec.imported_modules stmts.now (spec.imports_of stmt.now)) }
{
    let mut out = Vec::new(alloc);
    for sub in stmt.subs.items() {
        if is_named(Keyword::Import, sub) {
            push_new(&mut out, position_of(stmts, argument_of(sub)))?;
        }
    }
    Ok(out)
}

pub(crate) fn edges_of(alloc: Global, stmts: &[Stmt]) -> Result<Vec<Vec<usize>>, NoMemory>
    ensures { IfOk result (λ edges. spec.plain edges.items ≡ spec.edges_of stmts.now) }
{
    let mut edges = Vec::with_capacity(alloc, stmts.len())?;
    for stmt in stmts {
        edges.push(imported_modules(alloc, stmts, stmt)?)?;
    }
    Ok(edges)
}

/// The first of this fault and that of a module that imports itself, at its first import.
pub(crate) fn with_cycle(
    best: Option<Found>,
    alloc: Global,
    edges: &[Vec<usize>],
    number: u32,
    stmt: &Stmt,
) -> Result<Option<Found>, NoMemory>
    ensures { IfOk result (λ found. found ≡ least best
        (spec.cycle_faults (spec.is_in_cycle (spec.plain edges.now) number) number (spec.first_import stmt.now))) }
{
    let marks = reaching(alloc, edges, number as usize, 64)?;
    let in_cycle = is_marked(marks.as_slice(), number as usize);
    Ok(with_first(best, in_cycle, number, stmt))
}

fn with_first(best: Option<Found>, in_cycle: bool, number: u32, stmt: &Stmt) -> Option<Found>
    ensures { result ≡ least best (spec.cycle_faults in_cycle number (spec.first_import stmt.now)) }
{
    if !in_cycle {
        return best;
    }
    match first_named(Keyword::Import, stmt.subs.items()) {
        Some(first) => with_fault(best, Cause::ImportCycle, number, first.at),
        None => best,
    }
}
