//! Modules within the profile whose imports are resolved.
ghost use Rattle.std.specs.Prelude.{◌≡◌, ◌<◌, ◌≤◌, ◌^◌, ◌∷◌, [], ℕ, List, length, IfOk, unwrap_or, None};
ghost use Rattle.std.specs.List.{list_all};
ghost use Rattle.std.specs.Option.{option_copied};
ghost use Rattle.std.specs.BTreeMap.{get_by_text};
ghost use Rattle.sal_stmt.specs.declared.stmt.Stmt.{Stmt as Statement};
ghost use Rattle.sal_types.specs.Reading.{GivesUnless};
ghost use Rattle.sal_module.specs.Faults.{least};
ghost use Rattle.sal_module.specs.Imports as imports;
ghost use Rattle.sal_module.specs.Places as places;
ghost use Rattle.sal_module.specs.Modules as spec;

use crate::fault::{BuildFault, Found, What};
use crate::imports::{edges_of, with_all_given, with_cycle, with_name};
use crate::places::{LAST_PLACE, find_anywhere, find_in_order, is_in_order};
use crate::prefixes::{Prefixes, prefixes_of};
use crate::profile::profile_fault;
use sal_stmt::Stmt;
use sal_types::NoMemory;
use std::alloc::Global;
use std::marker::Model;

/// The largest number of modules.
const MAX_MODULES: usize = 64;

/// The largest depth of nested blocks of a statement.
const MAX_BLOCKS: u32 = 64;

/// Modules within the profile, whose imports have no cycle. A contract sees the list of their statements.
pub struct Modules {
    list: Vec<Stmt>,
    prefixes: Vec<Prefixes>,
    in_order: bool,
}

impl Drop for Modules {
    fn drop(self) {
        let Modules {
            list: _,
            prefixes: _,
            in_order: _,
        } = self;
    }
}

impl Model for Modules {
    ghost use Rattle.std.specs.Prelude.{List};
    ghost use Rattle.sal_stmt.specs.declared.stmt.Stmt.{Stmt as Statement};
    ghost use Rattle.sal_stmt.specs.contracts.stmt.Stmt as e;
    ghost use Rattle.std.specs.Coded.{codes};

    ghost Value = { List Statement };

    ghost coded = { Prim.hlevel (codes, e.the_row.coded) };

    ghost use Rattle.sal_module.specs.Modules.{IsIndexed};

    ghost view = { λ a. a.list.items };

    ghost invariant = { λ a. IsIndexed a.list.items a.prefixes.items a.in_order };
}

fn copies(alloc: Global, stmts: &[Stmt]) -> Result<Vec<Stmt>, NoMemory>
    ensures { IfOk result (λ list. list.items ≡ stmts.now) }
{
    let mut list = Vec::with_capacity(alloc, stmts.len())?;
    for stmt in stmts {
        list.push(stmt.copy(alloc)?)?;
    }
    Ok(list)
}

fn all_in_order(stmts: &[Stmt]) -> bool
    ensures { result ≡ list_all (places.is_in_order 64 (2 ^ 32)) stmts.now }
{
    stmts
        .iter()
        .all(|stmt| is_in_order(MAX_BLOCKS, LAST_PLACE, stmt))
}

/// The prefixes of a module, and the first of this fault and those of its name and imports.
fn with_imports(
    best: Option<Found>,
    alloc: Global,
    stmts: &[Stmt],
    edges: &[Vec<usize>],
    number: u32,
    stmt: &Stmt,
) -> Result<(Prefixes, Option<Found>), NoMemory>
    requires few { length stmts.now < 65 }
    requires within { number ≤ length stmts.now }
    requires known { imports.plain edges.now ≡ imports.edges_of stmts.now }
    ensures names { IfOk result (λ p. (q : List ℕ) → get_by_text p.0 q ≡ imports.find_named (imports.named_prefixes stmts.now number stmt.now (imports.imports_of stmt.now)) q) }
    ensures fault { IfOk result (λ p. p.1 ≡ least best (imports.import_faults stmts.now number stmt.now)) }
{
    let best = with_name(best, stmts, number, stmt);
    let (prefixes, best) = prefixes_of(best, alloc, stmts, number, stmt)?;
    let best = with_all_given(best, stmts, number, stmt);
    let best = with_cycle(best, alloc, edges, number, stmt)?;
    Ok((prefixes, best))
}

/// The prefixes of each module, and the first fault of names and imports.
fn graph(alloc: Global, stmts: &[Stmt]) -> Result<(Vec<Prefixes>, Option<Found>), NoMemory>
    requires { length stmts.now < 65 }
    ensures count { IfOk result (λ p. length p.0.items ≡ length stmts.now) }
    ensures names { IfOk result (λ p. spec.AreNamed stmts.now p.0.items) }
    ensures fault { IfOk result (λ p. p.1 ≡ least None (imports.graph_faults stmts.now)) }
{
    let edges = edges_of(alloc, stmts)?;
    let mut all = Vec::with_capacity(alloc, stmts.len())?;
    let mut best = None;
    for (i, stmt) in stmts.iter().enumerate() {
        let (prefixes, found) = with_imports(best, alloc, stmts, edges.as_slice(), i as u32, stmt)?;
        best = found;
        all.push(prefixes)?;
    }
    Ok((all, best))
}

/// The prefixes of each module, or the first fault: of the profile, or, if it has none, of names and imports.
fn passed(alloc: Global, stmts: &[Stmt]) -> Result<Vec<Prefixes>, BuildFault>
    ensures given { GivesUnless BuildFault.NoMemory (λ _. stmts.now) result (spec.check stmts.now) }
    ensures few { IfOk result (λ _. length stmts.now < 65) }
    ensures count { IfOk result (λ prefixes. length prefixes.items ≡ length stmts.now) }
    ensures names { IfOk result (λ prefixes. spec.AreNamed stmts.now prefixes.items) }
{
    if stmts.len() > MAX_MODULES {
        return Err(BuildFault::TooMany {
            what: What::Modules,
        });
    }
    if let Some(found) = profile_fault(stmts) {
        return Err(found.fault(alloc)?);
    }
    let (prefixes, found) = graph(alloc, stmts)?;
    if let Some(found) = found {
        return Err(found.fault(alloc)?);
    }
    Ok(prefixes)
}

/// These statements with the prefixes of each module.
fn indexed(list: Vec<Stmt>, prefixes: Vec<Prefixes>) -> Modules
    requires few { length list.items < 65 }
    requires count { length prefixes.items ≡ length list.items }
    requires names { spec.AreNamed list.items prefixes.items }
    ensures { result ≡ list.items }
{
    let in_order = all_in_order(list.as_slice());
    Modules {
        list,
        prefixes,
        in_order,
    }
}

/// The modules, if they are within the profile and their imports name modules and have no cycle.
///
/// The first fault is of the profile, or, if it has none, of names and imports; within either, the fault with the smallest
/// module, then the smallest offset, then the smallest number. More than 64 modules are `TooMany`, before any other fault.
/// The statements are copied.
pub fn check(alloc: Global, stmts: &[Stmt]) -> Result<Modules, BuildFault>
    ensures { GivesUnless BuildFault.NoMemory (λ modules. modules) result (spec.check stmts.now) }
{
    let prefixes = passed(alloc, stmts)?;
    let list = copies(alloc, stmts)?;
    Ok(indexed(list, prefixes))
}

/// The same for statements that the modules then own: none is copied.
pub fn check_owned(alloc: Global, stmts: Vec<Stmt>) -> Result<Modules, BuildFault>
    ensures { GivesUnless BuildFault.NoMemory (λ modules. modules) result (spec.check stmts.items) }
{
    let prefixes = passed(alloc, &stmts)?;
    Ok(indexed(stmts, prefixes))
}

fn stmt_of<'s>(list: &'s [Stmt], in_order: bool, number: u32, at: u32) -> Option<&'s Stmt>
    requires { in_order ≡ list_all (places.is_in_order 64 (2 ^ 32)) list.now }
    ensures { option_copied result ≡ spec.stmt_at list.now number at }
{
    if number as usize >= list.len() {
        return None;
    }
    let stmt = &list[number as usize];
    if in_order {
        return find_in_order(MAX_BLOCKS, at, stmt);
    }
    find_anywhere(MAX_BLOCKS, at, stmt)
}

fn place_in(map: &Prefixes, prefix: &str) -> Option<u32>
    ensures { result ≡ unwrap_or (get_by_text map.now prefix.now) None }
{
    match map.get(prefix) {
        Some(place) => *place,
        None => None,
    }
}

impl Modules {
    /// The statements of the modules, in the order given: at most 64.
    pub fn items(&self) -> &[Stmt]
        ensures value { result.now ≡ self.now }
        ensures few { length result.now < 65 }
    {
        &self.list
    }

    /// The statement at this byte offset of a module, or none if no statement begins there.
    ///
    /// If the offsets of the statements ascend, as those read from a text do, the search takes the logarithm of the
    /// statements of each level; else it looks through all of them.
    pub fn stmt(&self, module: u32, at: u32) -> Option<&Stmt>
        ensures { option_copied result ≡ spec.stmt_at self.now «module» at }
    {
        stmt_of(&self.list, self.in_order, module, at)
    }

    /// The index of the module that a prefix names in a module, possibly itself. It takes the logarithm of the imports.
    pub fn imported(&self, module: u32, prefix: &str) -> Option<u32>
        ensures { result ≡ spec.imported self.now «module» prefix.now }
    {
        let number = module as usize;
        if number >= self.prefixes.len() {
            return None;
        }
        place_in(&self.prefixes[number], prefix)
    }
}
