//! The targets of the leafrefs of each node, and their faults (RFC 7950 section 9.9).
ghost use Rattle.std.specs.Prelude.{◌≡◌, ◌≤◌, ◌++◌, [], None, false, IfOk, map, length, slice_index_or};
ghost use Rattle.std.specs.List.{flat_map, list_any};
ghost use Rattle.std.specs.Option.{option_to_list};
ghost use Rattle.sal_module.specs.Faults.{least};
ghost use Rattle.sal_grouping.specs.Indexes.{lists};
ghost use Rattle.sal_typedefs.specs.Leafrefs as seeing;
ghost use Rattle.sal_module_table.specs.Leafrefs as spec;

use crate::circles::{Circles, is_cyclic};
use crate::lists::with_bad;
use crate::paths::Paths;
use crate::walk::{end_of, ways_of};
use sal_grouping::{Branch, ranking};
use sal_module::{Cause, Found, Keyword, Modules, first_named, value_of};
use sal_typedefs::{Leafref, count_up, path_names};
use sal_types::{NoMemory, append};
use std::alloc::Global;

/// The leafrefs of the node of this number.
fn leafrefs_at<'r, 'm>(all: &'r [Vec<Leafref<'m>>], k: usize) -> &'r [Leafref<'m>]
    ensures { spec.seen result.now ≡ slice_index_or (spec.seen_all all.now) k [] }
{
    if k < all.len() { &all[k] } else { &[] }
}

/// The leaf or leaf-list to which a leafref of a node leads.
fn target_of(
    paths: &Paths,
    k: u32,
    branch: &Branch,
    leafref: &Leafref,
) -> Result<Option<u32>, NoMemory>
    ensures { IfOk result (λ node. node ≡ spec.target_of paths.now.modules.now paths.now.forest.now k branch.now (seeing.leafref_seen leafref.now)) }
{
    let path = value_of(Keyword::Path, leafref.stmt);
    let names = path_names(paths.alloc, path)?;
    end_of(paths, k, branch, leafref.module, count_up(path), &names)
}

/// The targets of the leafrefs of a node, without those that have none.
fn targets_of(
    paths: &Paths,
    k: u32,
    branch: &Branch,
    leafrefs: &[Leafref],
) -> Result<Vec<usize>, NoMemory>
    ensures { IfOk result (λ targets. targets.items
        ≡ flat_map (λ one. option_to_list (spec.target_of paths.now.modules.now paths.now.forest.now k branch.now one)) (spec.seen leafrefs.now)) }
{
    let mut targets = Vec::new(paths.alloc);
    for leafref in leafrefs {
        let target = target_of(paths, k, branch, leafref)?;
        push_target(&mut targets, target)?;
    }
    Ok(targets)
}

fn push_target(targets: &mut Vec<usize>, target: Option<u32>) -> Result<(), NoMemory>
    ensures { IfOk result (λ _. targets.new.items ≡ targets.old.items ++ option_to_list target) }
{
    if let Some(node) = target {
        append(targets, node as usize)?;
    }
    Ok(())
}

/// The targets of the leafrefs of each node.
fn edges_of(paths: &Paths, leafrefs: &[Vec<Leafref>]) -> Result<Vec<Vec<usize>>, NoMemory>
    requires { spec.seen_all leafrefs.now ≡ map (spec.references_at paths.now.modules.now) paths.now.forest.now }
    ensures { IfOk result (λ edges. lists edges.items ≡ spec.edges_of paths.now.modules.now paths.now.forest.now) }
{
    let mut edges = Vec::with_capacity(paths.alloc, paths.forest.len())?;
    for (k, branch) in paths.forest.iter().enumerate() {
        let own = leafrefs_at(leafrefs, k);
        let targets = targets_of(paths, k as u32, branch, own)?;
        append(&mut edges, targets)?;
    }
    Ok(edges)
}

// ---- faults

fn with_path(best: Option<Found>, target: Option<u32>, leafref: &Leafref) -> Option<Found>
    ensures { result ≡ least best (spec.target_faults target (seeing.leafref_seen leafref.now)) }
{
    if target.is_some() {
        return best;
    }
    match first_named(Keyword::Path, leafref.stmt.subs.items()) {
        None => best,
        Some(path) => with_bad(best, true, Cause::BadTarget, leafref.module, path),
    }
}

fn with_target(
    best: Option<Found>,
    circles: &Circles,
    k: usize,
    target: Option<u32>,
    leafref: &Leafref,
) -> Result<Option<Found>, NoMemory>
    ensures { IfOk result (λ found. found ≡ least best (spec.faults_to (lists circles.now.edges.now) k target (seeing.leafref_seen leafref.now))) }
{
    let best = with_path(best, target, leafref);
    let cyclic = is_cyclic(circles, k, target.map(|n| n as usize))?;
    Ok(with_bad(best, cyclic, Cause::NameCycle, leafref.module, leafref.stmt))
}

fn with_leafref(
    best: Option<Found>,
    paths: &Paths,
    circles: &Circles,
    k: u32,
    branch: &Branch,
    leafref: &Leafref,
) -> Result<Option<Found>, NoMemory>
    ensures { IfOk result (λ found. found
        ≡ least best (spec.leafref_faults paths.now.modules.now paths.now.forest.now (lists circles.now.edges.now) k branch.now (seeing.leafref_seen leafref.now))) }
{
    let target = target_of(paths, k, branch, leafref)?;
    with_target(best, circles, k as usize, target, leafref)
}

fn with_leafrefs(
    best: Option<Found>,
    paths: &Paths,
    circles: &Circles,
    k: u32,
    branch: &Branch,
    leafrefs: &[Leafref],
) -> Result<Option<Found>, NoMemory>
    ensures { IfOk result (λ found. found
        ≡ least best (flat_map (spec.leafref_faults paths.now.modules.now paths.now.forest.now (lists circles.now.edges.now) k branch.now) (spec.seen leafrefs.now))) }
{
    let mut best = best;
    for leafref in leafrefs {
        best = with_leafref(best, paths, circles, k, branch, leafref)?;
    }
    Ok(best)
}

fn ranked_fault(
    paths: &Paths,
    circles: &Circles,
    leafrefs: &[Vec<Leafref>],
) -> Result<Option<Found>, NoMemory>
    requires leafrefs { spec.seen_all leafrefs.now ≡ map (spec.references_at paths.now.modules.now) paths.now.forest.now }
    requires edges { lists circles.now.edges.now ≡ spec.edges_of paths.now.modules.now paths.now.forest.now }
    ensures { IfOk result (λ found. found ≡ least None (spec.all_faults paths.now.modules.now paths.now.forest.now)) }
{
    let mut best = None;
    for (k, branch) in paths.forest.iter().enumerate() {
        let own = leafrefs_at(leafrefs, k);
        best = with_leafrefs(best, paths, circles, k as u32, branch, own)?;
    }
    Ok(best)
}

/// The first fault of leafrefs: a path that leads to no leaf or leaf-list, or a leafref through which a node's type depends on itself.
fn leafrefs_fault(
    paths: &Paths,
    leafrefs: &[Vec<Leafref>],
    edges: &[Vec<usize>],
) -> Result<Option<Found>, NoMemory>
    requires leafrefs { spec.seen_all leafrefs.now ≡ map (spec.references_at paths.now.modules.now) paths.now.forest.now }
    requires edges { lists edges.now ≡ spec.edges_of paths.now.modules.now paths.now.forest.now }
    ensures { IfOk result (λ found. found ≡ least None (spec.all_faults paths.now.modules.now paths.now.forest.now)) }
{
    let ranks = ranking(paths.alloc, edges)?;
    let circles = Circles {
        alloc: paths.alloc,
        edges,
        ranks: &ranks,
    };
    ranked_fault(paths, &circles, leafrefs)
}

// ---- both

/// The targets of the leafrefs of each node, and the first fault of leafrefs.
#[derive(Drop)]
pub(crate) struct Targets {
    /// The targets of each node's leafrefs, without those that have none.
    pub edges: Vec<Vec<usize>>,
    /// The first fault.
    pub fault: Option<Found>,
}

fn has_one(own: &[Leafref]) -> bool
    ensures { result ≡ spec.is_some_reference (spec.seen own.now) }
{
    match own.split_first() {
        None => false,
        Some((_one, _more)) => true,
    }
}

/// Whether a node has a leafref.
fn has_leafrefs(leafrefs: &[Vec<Leafref>]) -> bool
    ensures { result ≡ list_any spec.is_some_reference (spec.seen_all leafrefs.now) }
{
    for own in leafrefs {
        if has_one(own) {
            return true;
        }
    }
    false
}

/// No targets for each node.
fn no_edges(alloc: Global, forest: &[Branch]) -> Result<Vec<Vec<usize>>, NoMemory>
    ensures { IfOk result (λ edges. lists edges.items ≡ map spec.no_targets forest.now) }
{
    let mut edges = Vec::with_capacity(alloc, forest.len())?;
    for _branch in forest {
        append(&mut edges, Vec::new(alloc))?;
    }
    Ok(edges)
}

/// The same if no node has a leafref.
fn no_targets(
    alloc: Global,
    modules: &Modules,
    forest: &[Branch],
    leafrefs: &[Vec<Leafref>],
) -> Result<Targets, NoMemory>
    requires leafrefs { spec.seen_all leafrefs.now ≡ map (spec.references_at modules.now) forest.now }
    requires none { list_any spec.is_some_reference (spec.seen_all leafrefs.now) ≡ false }
    ensures edges { IfOk result (λ targets. lists targets.edges.items ≡ spec.edges_of modules.now forest.now) }
    ensures fault { IfOk result (λ targets. targets.fault ≡ least None (spec.all_faults modules.now forest.now)) }
{
    let edges = no_edges(alloc, forest)?;
    Ok(Targets { edges, fault: None })
}

/// The same by following the paths.
fn follow(paths: &Paths, leafrefs: &[Vec<Leafref>]) -> Result<Targets, NoMemory>
    requires { spec.seen_all leafrefs.now ≡ map (spec.references_at paths.now.modules.now) paths.now.forest.now }
    ensures edges { IfOk result (λ targets. lists targets.edges.items ≡ spec.edges_of paths.now.modules.now paths.now.forest.now) }
    ensures fault { IfOk result (λ targets. targets.fault ≡ least None (spec.all_faults paths.now.modules.now paths.now.forest.now)) }
{
    let edges = edges_of(paths, leafrefs)?;
    let fault = leafrefs_fault(paths, leafrefs, &edges)?;
    Ok(Targets { edges, fault })
}

/// The targets of these leafrefs. The indexes for paths are made only if there is one.
pub(crate) fn find_targets(
    alloc: Global,
    modules: &Modules,
    forest: &[Branch],
    leafrefs: &[Vec<Leafref>],
) -> Result<Targets, NoMemory>
    requires few { length forest.now ≤ 65536 }
    requires leafrefs { spec.seen_all leafrefs.now ≡ map (spec.references_at modules.now) forest.now }
    ensures edges { IfOk result (λ targets. lists targets.edges.items ≡ spec.edges_of modules.now forest.now) }
    ensures fault { IfOk result (λ targets. targets.fault ≡ least None (spec.all_faults modules.now forest.now)) }
{
    if !has_leafrefs(leafrefs) {
        return no_targets(alloc, modules, forest, leafrefs);
    }
    let ways = ways_of(alloc, modules, forest)?;
    let paths = Paths {
        alloc,
        modules,
        forest,
        ways: &ways,
    };
    follow(&paths, leafrefs)
}
