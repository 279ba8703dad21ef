//! Identities: their list, their faults, and from which identities they are derived.
ghost use Rattle.std.specs.Prelude.{◌≡◌, ◌++◌, ◌<◌, ℕ, [], None, length, map, IfOk, slice_index_or};
ghost use Rattle.sal_module.specs.Faults.{least};
ghost use Rattle.sal_grouping.specs.Indexes.{lists};
ghost use Rattle.sal_module_table.specs.Orders.{rows};
ghost use Rattle.sal_module_table.specs.Identities as spec;

use crate::circles::{Circles, is_cyclic};
use crate::derived::derived_of;
use crate::lists::with_bad;
use sal_grouping::ranking;
use sal_module::{Cause, Found, Keyword, Modules, argument_of, is_named};
use sal_schema::IdentityInfo;
use sal_stmt::Stmt;
use sal_typedefs::Typedefs;
use sal_types::{NoMemory, Seq, Str, append};
use std::alloc::Global;

/// An identity: its module and its statement.
pub(crate) type Identity<'m> = (u32, &'m Stmt);

fn push_identity<'m>(
    all: &mut Vec<Identity<'m>>,
    module: u32,
    sub: &'m Stmt,
) -> Result<(), NoMemory>
    ensures { IfOk result (λ _. spec.seen all.new.items ≡ spec.seen all.old.items ++ spec.identity_here «module» sub.now) }
{
    if is_named(Keyword::Identity, sub) {
        append(all, (module, sub))?;
    }
    Ok(())
}

fn push_identities<'m>(
    all: &mut Vec<Identity<'m>>,
    module: u32,
    stmt: &'m Stmt,
) -> Result<(), NoMemory>
    ensures { IfOk result (λ _. spec.seen all.new.items ≡ spec.seen all.old.items ++ spec.identities_in «module» stmt.now) }
{
    for sub in stmt.subs.items() {
        push_identity(all, module, sub)?;
    }
    Ok(())
}

/// The identities of all modules, in the order of their texts.
pub(crate) fn identities_of<'m>(
    alloc: Global,
    stmts: &'m [Stmt],
) -> Result<Vec<Identity<'m>>, NoMemory>
    requires { length stmts.now < 65 }
    ensures { IfOk result (λ all. spec.seen all.items ≡ spec.identities_of stmts.now) }
{
    let mut all = Vec::new(alloc);
    for (m, stmt) in stmts.iter().enumerate() {
        push_identities(&mut all, m as u32, stmt)?;
    }
    Ok(all)
}

// ---- bases

fn push_base(
    bases: &mut Vec<usize>,
    typedefs: &Typedefs,
    module: u32,
    sub: &Stmt,
) -> Result<(), NoMemory>
    ensures { IfOk result (λ _. bases.new.items ≡ bases.old.items ++ spec.bases_in typedefs.now «module» sub.now) }
{
    if is_named(Keyword::Base, sub) {
        if let Some(base) = typedefs.identity_of(module, argument_of(sub)) {
            append(bases, base)?;
        }
    }
    Ok(())
}

fn bases_of(
    alloc: Global,
    typedefs: &Typedefs,
    module: u32,
    one: &Stmt,
) -> Result<Vec<usize>, NoMemory>
    ensures { IfOk result (λ bases. bases.items ≡ spec.bases_of typedefs.now («module», one.now)) }
{
    let mut bases = Vec::new(alloc);
    for sub in one.subs.items() {
        push_base(&mut bases, typedefs, module, sub)?;
    }
    Ok(bases)
}

/// The bases of each identity.
pub(crate) fn edges_of(
    alloc: Global,
    typedefs: &Typedefs,
    all: &[Identity],
) -> Result<Vec<Vec<usize>>, NoMemory>
    ensures { IfOk result (λ edges. lists edges.items ≡ map (spec.bases_of typedefs.now) (spec.seen all.now)) }
{
    let mut edges = Vec::with_capacity(alloc, all.len())?;
    for one in all {
        append(&mut edges, bases_of(alloc, typedefs, one.0, one.1)?)?;
    }
    Ok(edges)
}

// ---- faults

fn with_target(
    best: Option<Found>,
    circles: &Circles,
    i: usize,
    module: u32,
    sub: &Stmt,
    target: Option<usize>,
) -> Result<Option<Found>, NoMemory>
    ensures { IfOk result (λ found. found ≡ least best (spec.target_faults (lists circles.now.edges.now) i «module» sub.now target)) }
{
    let best = with_bad(best, target.is_none(), Cause::UnknownName, module, sub);
    let cyclic = is_cyclic(circles, i, target)?;
    Ok(with_bad(best, cyclic, Cause::NameCycle, module, sub))
}

fn with_base(
    best: Option<Found>,
    typedefs: &Typedefs,
    circles: &Circles,
    i: usize,
    module: u32,
    sub: &Stmt,
) -> Result<Option<Found>, NoMemory>
    ensures { IfOk result (λ found. found ≡ least best (spec.base_faults typedefs.now (lists circles.now.edges.now) i «module» sub.now)) }
{
    if !is_named(Keyword::Base, sub) {
        return Ok(best);
    }
    let target = typedefs.identity_of(module, argument_of(sub));
    with_target(best, circles, i, module, sub, target)
}

fn with_identity(
    best: Option<Found>,
    typedefs: &Typedefs,
    circles: &Circles,
    i: usize,
    module: u32,
    one: &Stmt,
) -> Result<Option<Found>, NoMemory>
    ensures { IfOk result (λ found. found ≡ least best (spec.faults_of typedefs.now (lists circles.now.edges.now) i («module», one.now))) }
{
    let mut best = best;
    for sub in one.subs.items() {
        best = with_base(best, typedefs, circles, i, module, sub)?;
    }
    Ok(best)
}

fn ranked_fault(
    typedefs: &Typedefs,
    all: &[Identity],
    circles: &Circles,
) -> Result<Option<Found>, NoMemory>
    requires all { spec.seen all.now ≡ spec.identities_of typedefs.now }
    requires edges { lists circles.now.edges.now ≡ spec.edges_of typedefs.now }
    ensures { IfOk result (λ found. found ≡ least None (spec.all_faults typedefs.now)) }
{
    let mut best = None;
    for (i, one) in all.iter().enumerate() {
        best = with_identity(best, typedefs, circles, i, one.0, one.1)?;
    }
    Ok(best)
}

/// The first fault of these identities.
fn identities_fault(
    alloc: Global,
    typedefs: &Typedefs,
    all: &[Identity],
    edges: &[Vec<usize>],
) -> Result<Option<Found>, NoMemory>
    requires all { spec.seen all.now ≡ spec.identities_of typedefs.now }
    requires edges { lists edges.now ≡ spec.edges_of typedefs.now }
    ensures { IfOk result (λ found. found ≡ least None (spec.all_faults typedefs.now)) }
{
    let ranks = ranking(alloc, edges)?;
    let circles = Circles {
        alloc,
        edges,
        ranks: &ranks,
    };
    ranked_fault(typedefs, all, &circles)
}

// ---- the table

fn row_copy(alloc: Global, all: &[Vec<u32>], i: usize) -> Result<Seq<u32>, NoMemory>
    ensures { IfOk result (λ row. row ≡ slice_index_or (rows all.now) i []) }
{
    let mut row = Vec::new(alloc);
    if i < all.len() {
        row.extend_from_slice(&all[i])?;
    }
    Ok(Seq::from_items(row))
}

fn info_of(
    alloc: Global,
    derived: &[Vec<u32>],
    i: usize,
    module: u32,
    one: &Stmt,
) -> Result<IdentityInfo, NoMemory>
    ensures { IfOk result (λ info. (edges : spec.Edges) → slice_index_or (rows derived.now) i [] ≡ spec.derived_from edges i → info ≡ spec.info_of edges i («module», one.now)) }
{
    Ok(IdentityInfo {
        name: Str::new(alloc, argument_of(one))?,
        module,
        derived_from: row_copy(alloc, derived, i)?,
    })
}

/// The identities of the table, each with all identities from which it is derived.
pub(crate) fn infos_of(
    alloc: Global,
    all: &[Identity],
    edges: &[Vec<usize>],
) -> Result<Vec<IdentityInfo>, NoMemory>
    requires count { length (lists edges.now) ≡ length all.now }
    requires small { spec.AreSmall (lists edges.now) }
    ensures { IfOk result (λ infos. infos.items ≡ spec.infos_from (lists edges.now) 0 (spec.seen all.now)) }
{
    let derived = derived_of(alloc, edges)?;
    let mut infos = Vec::with_capacity(alloc, all.len())?;
    for (i, one) in all.iter().enumerate() {
        append(&mut infos, info_of(alloc, &derived, i, one.0, one.1)?)?;
    }
    Ok(infos)
}

/// The first fault of identities, or none: a `base` that names no identity, or through which an identity is derived from itself
/// (RFC 7950 section 7.18.2).
///
/// Without a cycle it takes time linear in the statements, times the logarithm of the identities. With a
/// cycle, it takes, for each `base` from which a path leads into it, the time of all of them for each step of the longest path.
pub(crate) fn identity_fault(
    alloc: Global,
    modules: &Modules,
    typedefs: &Typedefs,
) -> Result<Option<Found>, NoMemory>
    requires { typedefs.now ≡ modules.now }
    ensures { IfOk result (λ found. found ≡ least None (spec.all_faults modules.now)) }
{
    let all = identities_of(alloc, modules.items())?;
    let edges = edges_of(alloc, typedefs, &all)?;
    identities_fault(alloc, typedefs, &all, &edges)
}

/// The identities of the table, in the order of modules and texts, each with all identities from which it is derived.
///
/// Each is computed once, after its bases, in time linear in their lists. If a path leads into a cycle, which `identity_fault`
/// finds, each path is followed by itself.
pub(crate) fn identity_infos(
    alloc: Global,
    modules: &Modules,
    typedefs: &Typedefs,
) -> Result<Seq<IdentityInfo>, NoMemory>
    requires { typedefs.now ≡ modules.now }
    ensures { IfOk result (λ infos. infos ≡ spec.infos_of modules.now) }
{
    typedefs.are_counted();
    let all = identities_of(alloc, modules.items())?;
    let edges = edges_of(alloc, typedefs, &all)?;
    Ok(Seq::from_items(infos_of(alloc, &all, &edges)?))
}
