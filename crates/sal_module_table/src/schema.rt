//! All parts together: modules to the table of their schema, or to their first fault.
ghost use Rattle.std.specs.Prelude.{◌≡◌, ◌≤◌, ◌<◌, ◌^◌, ◌++◌, ◌∷◌, [], ℕ, List, None, IfOk, length, map, if◌then◌else◌};
ghost use Rattle.std.specs.Coded.{codes};
ghost use Rattle.sal_types.specs.Reading.{GivesUnless};
ghost use Rattle.sal_stmt.specs.contracts.stmt.Stmt as e;
ghost use Rattle.sal_module.specs.declared.fault.BuildFault.{BuildFault as Fault};
ghost use Rattle.sal_module.specs.declared.fault.Found.{Found as Hit};
ghost use Rattle.sal_module.specs.Faults.{least, fault_of};
ghost use Rattle.sal_module.specs.Statements.{argument_of as argument};
ghost use Rattle.sal_grouping.specs.Indexes.{lists};
ghost use Rattle.sal_typedefs.specs.Names.{steps_of};
ghost use Rattle.sal_module_table.specs.Filled as fillings;
ghost use Rattle.sal_module_table.specs.Leafrefs as leads;
ghost use Rattle.sal_module_table.specs.Build as spec;
ghost use Rattle.sal_module_table.specs.Identities as identities;
ghost use Rattle.sal_module_table.specs.Table.{infos_of};
ghost use Rattle.sal_module_table.specs.Typed.{AreTyped};
ghost use Rattle.sal_module_table.specs.Types as types;

use crate::fill::{filled_of, take_type};
use crate::identities::{identity_fault, identity_infos};
use crate::info::{infos_of as nodes_of, is_typed};
use crate::leafrefs::{Targets, find_targets};
use crate::lists::lists_fault;
use crate::nodes::Nodes;
use crate::old_bases::old_base_fault;
use crate::tables::tables_of;
use crate::typed::{NodeTypes, leafrefs_of_nodes, node_types, own_types};
use crate::types::{type_name_fault, type_other_fault};
use sal_grouping::{Branch, Forest, expand};
use sal_module::{BuildFault, Found, Modules, argument_of, better, check, check_owned};
use sal_restrict::YangType;
use sal_schema::{IdentityInfo, NodeInfo, SchemaTable};
use sal_stmt::Stmt;
use sal_typedefs::{Tops, Typedefs};
use sal_types::{NoMemory, Seq, Shared, Str, append};
use std::alloc::Global;

/// The first of two faults: of equals the one given first.
fn merged(best: Option<Found>, more: Option<Found>) -> Option<Found>
    ensures { (faults : List Hit) → more ≡ least None faults → result ≡ least best faults }
{
    match more {
        None => best,
        Some(found) => better(best, found),
    }
}

// ---- types

/// The types of the nodes that have one, in their order.
fn types_of(
    alloc: Global,
    modules: &Modules,
    forest: &[Branch],
    own: Vec<Shared<YangType>>,
    edges: &[Vec<usize>],
) -> Result<Vec<YangType>, NoMemory>
    requires own { own.items ≡ leads.own_types modules.now forest.now }
    requires edges { lists edges.now ≡ leads.edges_of modules.now forest.now }
    ensures { IfOk result (λ types. types.items ≡ leads.types_of modules.now forest.now) }
{
    let mut filled = filled_of(alloc, own, edges)?;
    let mut types = Vec::new(alloc);
    for (k, branch) in forest.iter().enumerate() {
        push_type(&mut types, &mut filled, is_typed(modules, branch), k)?;
    }
    Ok(types)
}

/// Moves the type of this number, if the node has one.
fn push_type(
    types: &mut Vec<YangType>,
    filled: &mut Vec<YangType>,
    typed: bool,
    k: usize,
) -> Result<(), NoMemory>
    ensures types { IfOk result (λ _. types.new.items ≡ types.old.items ++ (if typed then fillings.type_at filled.old.items k ∷ [] else [])) }
    ensures others { IfOk result (λ _. (j : ℕ) → k < j → fillings.type_at filled.new.items j ≡ fillings.type_at filled.old.items j) }
{
    if typed {
        append(types, take_type(filled, k))?;
    }
    Ok(())
}

// ---- the table

fn names_of(alloc: Global, stmts: &[Stmt]) -> Result<Vec<Str>, NoMemory>
    ensures { IfOk result (λ names. names.items ≡ map argument stmts.now) }
{
    let mut names = Vec::with_capacity(alloc, stmts.len())?;
    for stmt in stmts {
        append(&mut names, Str::new(alloc, argument_of(stmt))?)?;
    }
    Ok(names)
}

/// The types of the nodes that have one, with the targets of leafrefs resolved.
fn types_in(
    nodes: &Nodes,
    typed: &NodeTypes,
    edges: &[Vec<usize>],
) -> Result<Vec<YangType>, NoMemory>
    requires typed { AreTyped nodes.now.modules.now nodes.now.forest.now typed.now }
    requires edges { lists edges.now ≡ leads.edges_of nodes.now.modules.now nodes.now.forest.now }
    ensures { IfOk result (λ types. types.items ≡ leads.types_of nodes.now.modules.now nodes.now.forest.now) }
{
    let own = own_types(nodes.alloc, nodes.modules, typed, nodes.forest)?;
    types_of(nodes.alloc, nodes.modules, nodes.forest, own, edges)
}

/// The nodes and types of a table.
#[derive(Drop)]
struct NodeTable {
    nodes: Seq<NodeInfo>,
    types: Seq<YangType>,
}

fn node_table(nodes: &Nodes, typed: &NodeTypes, edges: &[Vec<usize>]) -> Result<NodeTable, NoMemory>
    requires typed { AreTyped nodes.now.modules.now nodes.now.forest.now typed.now }
    requires edges { lists edges.now ≡ leads.edges_of nodes.now.modules.now nodes.now.forest.now }
    ensures nodes { IfOk result (λ it. it.nodes ≡ infos_of nodes.now.modules.now nodes.now.forest.now) }
    ensures types { IfOk result (λ it. it.types ≡ leads.types_of nodes.now.modules.now nodes.now.forest.now) }
{
    let types = types_in(nodes, typed, edges)?;
    with_nodes(nodes, types)
}

fn with_nodes(nodes: &Nodes, types: Vec<YangType>) -> Result<NodeTable, NoMemory>
    ensures nodes { IfOk result (λ it. it.nodes ≡ infos_of nodes.now.modules.now nodes.now.forest.now) }
    ensures types { IfOk result (λ it. it.types ≡ types.items) }
{
    let infos = nodes_of(nodes)?;
    Ok(NodeTable {
        nodes: Seq::from_items(infos),
        types: Seq::from_items(types),
    })
}

/// The modules and identities of a table.
struct ModuleTable {
    modules: Seq<Str>,
    identities: Seq<IdentityInfo>,
}

fn module_table(
    alloc: Global,
    modules: &Modules,
    typedefs: &Typedefs,
) -> Result<ModuleTable, NoMemory>
    requires { typedefs.now ≡ modules.now }
    ensures modules { IfOk result (λ it. it.modules ≡ map argument modules.now) }
    ensures identities { IfOk result (λ it. it.identities ≡ identities.infos_of modules.now) }
{
    let names = names_of(alloc, modules.items())?;
    with_identities(alloc, modules, typedefs, names)
}

fn with_identities(
    alloc: Global,
    modules: &Modules,
    typedefs: &Typedefs,
    names: Vec<Str>,
) -> Result<ModuleTable, NoMemory>
    requires { typedefs.now ≡ modules.now }
    ensures modules { IfOk result (λ it. it.modules ≡ names.items) }
    ensures identities { IfOk result (λ it. it.identities ≡ identities.infos_of modules.now) }
{
    let identities = identity_infos(alloc, modules, typedefs)?;
    Ok(ModuleTable {
        modules: Seq::from_items(names),
        identities,
    })
}

/// The table of these nodes.
fn table_of(
    nodes: &Nodes,
    typedefs: &Typedefs,
    typed: &NodeTypes,
    edges: &[Vec<usize>],
) -> Result<SchemaTable, NoMemory>
    requires typedefs { typedefs.now ≡ nodes.now.modules.now }
    requires typed { AreTyped nodes.now.modules.now nodes.now.forest.now typed.now }
    requires edges { lists edges.now ≡ leads.edges_of nodes.now.modules.now nodes.now.forest.now }
    ensures { IfOk result (λ table. table ≡ spec.table_of nodes.now.modules.now nodes.now.forest.now) }
{
    let of_nodes = node_table(nodes, typed, edges)?;
    let of_modules = module_table(nodes.alloc, nodes.modules, typedefs)?;
    let NodeTable {
        nodes: infos,
        types,
    } = of_nodes;
    let ModuleTable {
        modules,
        identities,
    } = of_modules;
    Ok(SchemaTable {
        nodes: infos,
        types,
        modules,
        identities,
    })
}

// ---- faults

/// The input for a table: modules, their typedefs and the forest of their nodes. The modules before index `old` are those of an earlier version.
#[derive(Drop)]
struct Sources<'x, 't, 'a> {
    alloc: Global,
    modules: &'a Modules,
    typedefs: &'x Typedefs<'a>,
    tops: &'x Tops<'t, 'a>,
    forest: &'x [Branch],
    old: u32,
    ghost few: { length forest.now ≤ 65536 },
    ghost same: { typedefs.now ≡ modules.now } by { Prim.hlevel (codes, e.the_row.coded) },
    ghost settled: { tops.now ≡ modules.now } by { Prim.hlevel (codes, e.the_row.coded) },
}

/// The first fault of the names of types, identities and leafrefs.
fn name_fault(sources: &Sources, of_leafrefs: Option<Found>) -> Result<Option<Found>, NoMemory>
    requires { of_leafrefs ≡ least None (leads.all_faults sources.now.modules.now sources.now.forest.now) }
    ensures { IfOk result (λ found. found ≡ least None (spec.name_faults sources.now.modules.now sources.now.forest.now)) }
{
    let best = type_name_fault(sources.modules, sources.typedefs, sources.tops)?;
    let more = identity_fault(sources.alloc, sources.modules, sources.typedefs)?;
    Ok(merged(merged(best, more), of_leafrefs))
}

/// The fault as `BuildFault`.
fn fault_in(alloc: Global, found: Found) -> BuildFault
    ensures { (result ≡ Fault.NoMemory → ⊥) → result ≡ fault_of found }
{
    match found.fault(alloc) {
        Ok(fault) => fault,
        Err(_) => BuildFault::NoMemory,
    }
}

// The table is made a part at a time, and each function makes one value: several over early exits make a proof long.

/// The table of a forest whose names and types have no fault, or the first fault of lists.
fn judge_lists(
    nodes: &Nodes,
    typedefs: &Typedefs,
    typed: &NodeTypes,
    edges: &[Vec<usize>],
) -> Result<SchemaTable, BuildFault>
    requires typedefs { typedefs.now ≡ nodes.now.modules.now }
    requires typed { AreTyped nodes.now.modules.now nodes.now.forest.now typed.now }
    requires edges { lists edges.now ≡ leads.edges_of nodes.now.modules.now nodes.now.forest.now }
    ensures { GivesUnless Fault.NoMemory (λ table. table) result (spec.listed nodes.now.modules.now nodes.now.forest.now) }
{
    if let Some(found) = lists_fault(nodes)? {
        return Err(fault_in(nodes.alloc, found));
    }
    Ok(table_of(nodes, typedefs, typed, edges)?)
}

/// The first fault of types that is not one of names.
fn other_fault(sources: &Sources) -> Result<Option<Found>, NoMemory>
    ensures { IfOk result (λ found. found ≡ least None (spec.other_faults sources.now.old sources.now.modules.now)) }
{
    let best = type_other_fault(sources.alloc, sources.modules, sources.typedefs)?;
    let more = old_base_fault(
        sources.alloc,
        sources.modules,
        sources.typedefs,
        sources.old,
    )?;
    Ok(merged(best, more))
}

/// The table of a forest whose names have no fault, or the first other fault of types, then of lists.
fn judge_types(
    sources: &Sources,
    typed: &NodeTypes,
    edges: &[Vec<usize>],
) -> Result<SchemaTable, BuildFault>
    requires typed { AreTyped sources.now.modules.now sources.now.forest.now typed.now }
    requires edges { lists edges.now ≡ leads.edges_of sources.now.modules.now sources.now.forest.now }
    requires names { least None (spec.name_faults sources.now.modules.now sources.now.forest.now) ≡ None }
    ensures { GivesUnless Fault.NoMemory (λ table. table) result (spec.judged_on sources.now.old sources.now.modules.now sources.now.forest.now) }
{
    if let Some(found) = other_fault(sources)? {
        return Err(fault_in(sources.alloc, found));
    }
    let tables = tables_of(sources.alloc, sources.modules, sources.forest)?;
    let nodes = Nodes {
        alloc: sources.alloc,
        modules: sources.modules,
        forest: sources.forest,
        tables: &tables,
    };
    judge_lists(&nodes, sources.typedefs, typed, edges)
}

/// The table of a forest, or its first fault, from the targets of its leafrefs.
fn judge_names(
    sources: &Sources,
    typed: &NodeTypes,
    targets: &Targets,
) -> Result<SchemaTable, BuildFault>
    requires typed { AreTyped sources.now.modules.now sources.now.forest.now typed.now }
    requires edges { lists targets.now.edges.items ≡ leads.edges_of sources.now.modules.now sources.now.forest.now }
    requires fault { targets.now.fault ≡ least None (leads.all_faults sources.now.modules.now sources.now.forest.now) }
    ensures { GivesUnless Fault.NoMemory (λ table. table) result (spec.judged_on sources.now.old sources.now.modules.now sources.now.forest.now) }
{
    if let Some(found) = name_fault(sources, targets.fault)? {
        return Err(fault_in(sources.alloc, found));
    }
    judge_types(sources, typed, &targets.edges)
}

/// The targets of the leafrefs of each node, and their first fault.
fn targets_in(sources: &Sources, typed: &NodeTypes) -> Result<Targets, NoMemory>
    requires { AreTyped sources.now.modules.now sources.now.forest.now typed.now }
    ensures edges { IfOk result (λ targets. lists targets.edges.items ≡ leads.edges_of sources.now.modules.now sources.now.forest.now) }
    ensures fault { IfOk result (λ targets. targets.fault ≡ least None (leads.all_faults sources.now.modules.now sources.now.forest.now)) }
{
    let leafrefs = leafrefs_of_nodes(sources.alloc, sources.modules, typed, sources.forest)?;
    find_targets(sources.alloc, sources.modules, sources.forest, &leafrefs)
}

/// The table of a forest, or its first fault, from the types in its nodes' type statements.
fn judge_by_types(sources: &Sources, typed: &NodeTypes) -> Result<SchemaTable, BuildFault>
    requires { AreTyped sources.now.modules.now sources.now.forest.now typed.now }
    ensures { GivesUnless Fault.NoMemory (λ table. table) result (spec.judged_on sources.now.old sources.now.modules.now sources.now.forest.now) }
{
    let targets = targets_in(sources, typed)?;
    judge_names(sources, typed, &targets)
}

/// The table of a forest, or its first fault, from its typedefs.
fn judge_by_typedefs(sources: &Sources) -> Result<SchemaTable, BuildFault>
    ensures { GivesUnless Fault.NoMemory (λ table. table) result (spec.judged_on sources.now.old sources.now.modules.now sources.now.forest.now) }
{
    let typed = node_types(
        sources.alloc,
        sources.modules,
        sources.typedefs,
        sources.tops,
        sources.forest,
    )?;
    judge_by_types(sources, &typed)
}

/// The same over the modules' typedefs.
fn judge_over<'x, 'a>(
    alloc: Global,
    modules: &'a Modules,
    typedefs: &'x Typedefs<'a>,
    old: u32,
    forest: &'x Forest,
) -> Result<SchemaTable, BuildFault>
    requires few { length forest.now ≤ 65536 }
    requires same { typedefs.now ≡ modules.now }
    ensures { GivesUnless Fault.NoMemory (λ table. table) result (spec.judged_on old modules.now forest.now) }
{
    let tops = Tops::read(alloc, typedefs)?;
    let sources = Sources {
        alloc,
        modules,
        typedefs,
        tops: &tops,
        forest: forest.items(),
        old,
    };
    judge_by_typedefs(&sources)
}

/// The table of a forest, or the first fault of types, then of lists. The modules before index `old` are those of an earlier version.
pub(crate) fn judge_on(
    alloc: Global,
    modules: &Modules,
    old: u32,
    forest: &Forest,
) -> Result<SchemaTable, BuildFault>
    requires few { length forest.now ≤ 65536 }
    requires counted { steps_of modules.now < 2 ^ 32 }
    ensures { GivesUnless Fault.NoMemory (λ table. table) result (spec.judged_on old modules.now forest.now) }
{
    let typedefs = Typedefs::new(alloc, modules)?;
    judge_over(alloc, modules, &typedefs, old, forest)
}

/// The table of a forest, or the first fault of types, then of lists. No module is of an earlier version.
pub(crate) fn judge(
    alloc: Global,
    modules: &Modules,
    forest: &Forest,
) -> Result<SchemaTable, BuildFault>
    requires few { length forest.now ≤ 65536 }
    requires counted { steps_of modules.now < 2 ^ 32 }
    ensures { GivesUnless Fault.NoMemory (λ table. table) result (spec.judged modules.now forest.now) }
{
    judge_on(alloc, modules, 0, forest)
}

/// The table of the schema of these modules, or their first fault.
///
/// The checks run in this order, each only if those before it found nothing: the profile and the imports, groupings and augments
/// with the names of nodes (RFC 7950 sections 7.12, 7.13 and 7.17), the names of types, identities and leafrefs, the other faults
/// of types, and the keys, unique leafs and `config` of nodes. Within one check the fault with the smallest module, then the smallest
/// offset, then the smallest number is returned. Identity numbers have 32 bits, so there must be fewer than 2^32 statements.
pub fn table_of_modules(alloc: Global, stmts: &[Stmt]) -> Result<SchemaTable, BuildFault>
    requires { steps_of stmts.now < 2 ^ 32 }
    ensures { GivesUnless Fault.NoMemory (λ table. table) result (spec.build stmts.now) }
{
    let modules = check(alloc, stmts)?;
    let forest = expand(alloc, &modules)?;
    judge(alloc, &modules, &forest)
}

/// The same for statements that the function owns: none is copied.
pub fn table_of_owned(alloc: Global, stmts: Vec<Stmt>) -> Result<SchemaTable, BuildFault>
    requires { steps_of stmts.items < 2 ^ 32 }
    ensures { GivesUnless Fault.NoMemory (λ table. table) result (spec.build stmts.items) }
{
    let modules = check_owned(alloc, stmts)?;
    let forest = expand(alloc, &modules)?;
    judge(alloc, &modules, &forest)
}
