//! The type statements of nodes, and their types.
ghost use Rattle.std.specs.Prelude.{◌≡◌, ◌<◌, slice_index_or, ◌++◌, ◌∷◌, [], List, Some, IfOk, map, find, option_map, length, if◌then◌else◌};
ghost use Rattle.std.specs.BTreeMap.{get};
ghost use Rattle.std.specs.List.{slice_get};
ghost use Rattle.std.specs.Option.{option_copied};
ghost use Rattle.sal_stmt.specs.declared.stmt.Stmt.TheViews.{out-Stmt};
ghost use Rattle.sal_module.specs.declared.keyword.Keyword.TheVariants as word;
ghost use Rattle.sal_module.specs.Statements.{is_named, subs_of};
ghost use Rattle.sal_typedefs.specs.Leafrefs.{leafref_seen, stmt_in};
ghost use Rattle.sal_stmt.specs.declared.stmt.Stmt.{Stmt as Statement};
ghost use Rattle.sal_typedefs.specs.Spots.{site_in};
ghost use Rattle.sal_typedefs.specs.Opened.{IsOpen, IsIn};
ghost use Rattle.sal_module_table.specs.declared.typed.Place.{Place as Spot};
ghost use Rattle.sal_module_table.specs.Filled.{empty};
ghost use Rattle.sal_module_table.specs.Leafrefs as leafrefs;
ghost use Rattle.sal_module_table.specs.Typed as spec;

use crate::fill::empty_type;
use crate::info::is_typed;
use sal_grouping::Branch;
use sal_module::{Keyword, Modules, first_named};
use sal_restrict::YangType;
use sal_stmt::Stmt;
use sal_typedefs::{Leafref, Scope, Tops, Typedefs, judge_at, leafrefs_at};
use sal_types::{Duplicate, NoMemory, Shared, append};
use std::alloc::Global;
use std::collections::BTreeMap;

/// The place of a statement.
#[derive(Clone, Copy, Debug, PartialEq, Eq, PartialOrd, Ord)]
pub(crate) struct Place {
    /// The index of its module.
    pub source: u32,
    /// The byte offset in that module's text.
    pub at: u32,
}

/// The first number with each place.
type Places = BTreeMap<Place, usize>;

/// The type in a statement, with leafrefs as paths, and its leafrefs.
#[derive(Drop)]
pub(crate) struct Typing<'a> {
    pub place: Place,
    pub ty: Shared<YangType>,
    pub leafrefs: Vec<Leafref<'a>>,
}

/// The types of nodes, by the places of their statements.
#[derive(Drop)]
pub(crate) struct NodeTypes<'a> {
    pub all: Vec<Typing<'a>>,
    pub places: Places,
}

/// The largest depth of nested blocks of a statement.
const MAX_BLOCKS: u32 = 64;

// ---- places

fn place_at(number: u32, stmt: &Stmt) -> Place
    ensures { result ≡ spec.place number (out-Stmt stmt.now).at }
{
    Place {
        source: number,
        at: stmt.at,
    }
}

fn place_of_node(branch: &Branch) -> Place
    ensures { result ≡ spec.place_of_node branch.now }
{
    Place {
        source: branch.source,
        at: branch.at,
    }
}

/// Sets the number of the place, and replaces an earlier one.
fn put(map: &mut Places, place: Place, k: usize) -> Result<(), NoMemory>
    ensures { IfOk result (λ _. (q : Spot) → get spec.place_cmp map.new q ≡ (if spec.same_place q place then Some k else get spec.place_cmp map.old q)) }
{
    map.insert(place, k)?;
    Ok(())
}

/// The place of this number.
fn numbered(places: &[Place], k: usize) -> Place
    requires { k < length places.now }
    ensures { result ≡ slice_index_or places.now k result }
{
    places[k]
}

/// The numbers of these places: the first of each. From the last one to the first, so that the first is used.
fn by_place(alloc: Global, places: &[Place]) -> Result<Places, NoMemory>
    ensures { IfOk result (λ map. spec.AreFirst places.now map) }
{
    let mut map = BTreeMap::new(alloc);
    for done in 0..places.len() {
        let k = places.len() - 1 - done;
        let place = numbered(places, k);
        put(&mut map, place, k)?;
    }
    Ok(map)
}

/// The places of the statements of nodes.
fn node_places(alloc: Global, forest: &[Branch]) -> Result<Vec<Place>, NoMemory>
    ensures { IfOk result (λ places. places.items ≡ map spec.place_of_node forest.now) }
{
    let mut places = Vec::with_capacity(alloc, forest.len())?;
    for branch in forest {
        append(&mut places, place_of_node(branch))?;
    }
    Ok(places)
}

fn own_places(alloc: Global, all: &[Typing]) -> Result<Vec<Place>, NoMemory>
    ensures { IfOk result (λ places. places.items ≡ spec.places_of (spec.owns all.now)) }
{
    let mut places = Vec::with_capacity(alloc, all.len())?;
    for own in all {
        append(&mut places, own.place)?;
    }
    Ok(places)
}

// ---- one statement

/// A module whose statements are visited, and the places to keep.
#[derive(Drop)]
struct Keeper<'x, 'a> {
    typedefs: &'x Typedefs<'a>,
    wanted: &'x Places,
    number: u32,
}

/// The type of a type statement in the open blocks, or the empty type if it has a fault.
fn stated_type<'j, 'x, 'a>(
    scope: &'j Scope<'x, 'a>,
    stmt: Option<&'a Stmt>,
) -> Result<YangType, NoMemory>
    requires { IsOpen scope.now }
    ensures { IfOk result (λ ty. ty ≡ leafrefs.stated_type scope.now.typedefs.now (option_map (site_in scope.now.number scope.now.around.items) (option_copied stmt.entry))) }
{
    let Some(stmt) = stmt else {
        return Ok(empty_type());
    };
    let (fault, ty) = judge_at(scope, stmt)?;
    match fault {
        None => Ok(ty),
        Some(_found) => Ok(empty_type()),
    }
}

/// The same, to be shared by nodes.
fn shared_type<'j, 'x, 'a>(
    alloc: Global,
    scope: &'j Scope<'x, 'a>,
    stmt: Option<&'a Stmt>,
) -> Result<Shared<YangType>, NoMemory>
    requires { IsOpen scope.now }
    ensures { IfOk result (λ ty. ty ≡ leafrefs.stated_type scope.now.typedefs.now (option_map (site_in scope.now.number scope.now.around.items) (option_copied stmt.entry))) }
{
    let ty = stated_type(scope, stmt)?;
    let shared = Shared::new(alloc, ty)?;
    Ok(shared)
}

/// The leafrefs among a type statement in the open blocks and those that it depends on.
fn stated_leafrefs<'j, 'x, 'a>(
    alloc: Global,
    scope: &'j Scope<'x, 'a>,
    stmt: Option<&'a Stmt>,
) -> Result<Vec<Leafref<'a>>, NoMemory>
    requires { IsOpen scope.now }
    ensures { IfOk result (λ all. map leafref_seen all.items
        ≡ map stmt_in (leafrefs.stated_leafrefs scope.now.typedefs.now (option_map (site_in scope.now.number scope.now.around.items) (option_copied stmt.entry)))) }
{
    match stmt {
        None => Ok(Vec::new(alloc)),
        Some(stmt) => leafrefs_at(scope, stmt),
    }
}

/// The entry for a statement, whose own block is the innermost of the open ones.
fn own_at<'j, 'x, 'a>(
    alloc: Global,
    scope: &'j Scope<'x, 'a>,
    number: u32,
    stmt: &'a Stmt,
) -> Result<Typing<'a>, NoMemory>
    requires { IsOpen scope.now }
    ensures { IfOk result (λ own. spec.own_of own ≡ spec.own_with scope.now.typedefs.now (spec.place number (out-Stmt stmt.now).at)
        (option_map (site_in scope.now.number scope.now.around.items) (find (is_named word.Type) (subs_of stmt.now)))) }
{
    let sub = first_named(Keyword::Type, stmt.subs.items());
    let ty = shared_type(alloc, scope, sub)?;
    let leafrefs = stated_leafrefs(alloc, scope, sub)?;
    Ok(Typing {
        place: place_at(number, stmt),
        ty,
        leafrefs,
    })
}

/// Adds the entry for a statement, if it is wanted. Its own block is the innermost of the open ones.
fn push_here<'j, 'x, 'a>(
    all: &mut Vec<Typing<'a>>,
    keeper: &Keeper<'x, 'a>,
    scope: &'j Scope<'x, 'a>,
    stmt: &'a Stmt,
) -> Result<(), NoMemory>
    requires { IsOpen scope.now }
    ensures { IfOk result (λ _. (around : List Statement) → IsIn keeper.now.typedefs.now keeper.now.number (around ++ stmt.now ∷ []) scope.now
        → spec.owns all.new.items ≡ spec.owns all.old.items ++ spec.own_here keeper.now.wanted.now keeper.now.typedefs.now (site_in keeper.now.number around stmt.now)) }
{
    if !keeper.wanted.contains_key(&place_at(keeper.number, stmt)) {
        return Ok(());
    }
    let alloc = *all.allocator();
    let own = own_at(alloc, scope, keeper.number, stmt)?;
    append(all, own)?;
    Ok(())
}

// ---- all statements

/// Adds the entries for a statement and for those in `levels` levels below it, if they are wanted.
fn push_stmt<'x, 'a>(
    all: &mut Vec<Typing<'a>>,
    keeper: &Keeper<'x, 'a>,
    scope: &mut Scope<'x, 'a>,
    levels: u32,
    stmt: &'a Stmt,
) -> Result<(), NoMemory>
    requires { IsIn keeper.now.typedefs.now keeper.now.number scope.old.around.items scope.old }
    ensures value { IfOk result (λ _. spec.owns all.new.items
        ≡ spec.owns all.old.items ++ spec.owns_in keeper.now.wanted.now levels keeper.now.typedefs.now (site_in keeper.now.number scope.old.around.items stmt.now)) }
    ensures around { IfOk result (λ _. IsIn keeper.now.typedefs.now keeper.now.number scope.old.around.items scope.new) }
{
    scope.enter(stmt)?;
    push_here(all, keeper, scope, stmt)?;
    if levels == 0 {
        scope.leave();
        return Ok(());
    }
    for sub in stmt.subs.items() {
        push_stmt(all, keeper, scope, levels - 1, sub)?;
    }
    scope.leave();
    Ok(())
}

/// Adds the entries of a module.
fn push_module<'x, 't, 'a>(
    all: &mut Vec<Typing<'a>>,
    keeper: &Keeper<'x, 'a>,
    tops: &'x Tops<'t, 'a>,
    stmt: &'a Stmt,
) -> Result<(), NoMemory>
    requires { tops.now ≡ keeper.now.typedefs.now }
    ensures { IfOk result (λ _. spec.owns all.new.items
        ≡ spec.owns all.old.items ++ spec.owns_in keeper.now.wanted.now 64 keeper.now.typedefs.now (site_in keeper.now.number [] stmt.now)) }
{
    let mut scope = tops.scope(keeper.number);
    push_stmt(all, keeper, &mut scope, MAX_BLOCKS, stmt)
}

/// The wanted entries of all statements, in the order of the texts.
fn typings_of<'x, 't, 'a>(
    alloc: Global,
    modules: &'a Modules,
    typedefs: &'x Typedefs<'a>,
    tops: &'x Tops<'t, 'a>,
    wanted: &'x Places,
) -> Result<Vec<Typing<'a>>, NoMemory>
    requires typedefs { typedefs.now ≡ modules.now }
    requires tops { tops.now ≡ modules.now }
    ensures { IfOk result (λ all. spec.owns all.items ≡ spec.owns_of wanted.now modules.now) }
{
    let stmts = modules.items();
    let mut all = Vec::new(alloc);
    for (m, stmt) in stmts.iter().enumerate() {
        let keeper = Keeper {
            typedefs,
            wanted,
            number: m as u32,
        };
        push_module(&mut all, &keeper, tops, stmt)?;
    }
    Ok(all)
}

/// The types of these nodes' type statements, with leafrefs as paths.
///
/// It takes time linear in the statements and the nodes, times the logarithm of the nodes, and in what types with leafrefs depend on.
pub(crate) fn node_types<'x, 't, 'a>(
    alloc: Global,
    modules: &'a Modules,
    typedefs: &'x Typedefs<'a>,
    tops: &'x Tops<'t, 'a>,
    forest: &[Branch],
) -> Result<NodeTypes<'a>, NoMemory>
    requires typedefs { typedefs.now ≡ modules.now }
    requires tops { tops.now ≡ modules.now }
    ensures { IfOk result (λ types. spec.AreTyped modules.now forest.now types) }
{
    let wanted = by_place(alloc, &node_places(alloc, forest)?)?;
    let all = typings_of(alloc, modules, typedefs, tops, &wanted)?;
    let places = by_place(alloc, &own_places(alloc, &all)?)?;
    Ok(NodeTypes { all, places })
}

// ---- of a node

fn typing_at<'t, 'a>(all: &'t [Typing<'a>], i: usize) -> Option<&'t Typing<'a>>
    ensures { option_copied result ≡ slice_get all.now i }
{
    all.get(i)
}

/// The entry for the statement of a node.
fn typing_of<'t, 'a>(types: &'t NodeTypes<'a>, branch: &Branch) -> Option<&'t Typing<'a>>
    requires { spec.AreFirst (spec.places_of (spec.owns types.now.all.items)) types.now.places }
    ensures { option_map spec.own_of (option_copied result) ≡ spec.found_for (spec.owns types.now.all.items) branch.now }
{
    match types.places.get(&place_of_node(branch)) {
        None => None,
        Some(i) => typing_at(&types.all, *i),
    }
}

/// The type without values, to be shared.
fn shared_empty(alloc: Global) -> Result<Shared<YangType>, NoMemory>
    ensures { IfOk result (λ ty. ty ≡ empty) }
{
    let ty = empty_type();
    let shared = Shared::new(alloc, ty)?;
    Ok(shared)
}

fn type_of_node(
    alloc: Global,
    modules: &Modules,
    types: &NodeTypes,
    branch: &Branch,
) -> Result<Shared<YangType>, NoMemory>
    requires { spec.AreFirst (spec.places_of (spec.owns types.now.all.items)) types.now.places }
    ensures { IfOk result (λ ty. spec.found_for (spec.owns types.now.all.items) branch.now ≡ spec.own_of_node modules.now branch.now
        → ty ≡ leafrefs.stated_type modules.now (leafrefs.type_of modules.now branch.now)) }
{
    if !is_typed(modules, branch) {
        let ty = shared_empty(alloc)?;
        return Ok(ty);
    }
    match typing_of(types, branch) {
        None => {
            let ty = shared_empty(alloc)?;
            Ok(ty)
        }
        Some(own) => own.ty.copy(),
    }
}

/// A copy of the leafrefs.
fn copies<'a>(alloc: Global, list: &[Leafref<'a>]) -> Result<Vec<Leafref<'a>>, NoMemory>
    ensures { IfOk result (λ all. map leafref_seen all.items ≡ map leafref_seen list.now) }
{
    let mut all = Vec::with_capacity(alloc, list.len())?;
    for leafref in list {
        append(
            &mut all,
            Leafref {
                module: leafref.module,
                stmt: leafref.stmt,
            },
        )?;
    }
    Ok(all)
}

fn leafrefs_of_node<'a>(
    alloc: Global,
    modules: &Modules,
    types: &NodeTypes<'a>,
    branch: &Branch,
) -> Result<Vec<Leafref<'a>>, NoMemory>
    requires { spec.AreFirst (spec.places_of (spec.owns types.now.all.items)) types.now.places }
    ensures { IfOk result (λ all. spec.found_for (spec.owns types.now.all.items) branch.now ≡ spec.own_of_node modules.now branch.now
        → map leafref_seen all.items ≡ map stmt_in (leafrefs.leafrefs_at modules.now branch.now)) }
{
    if !is_typed(modules, branch) {
        return Ok(Vec::new(alloc));
    }
    match typing_of(types, branch) {
        None => Ok(Vec::new(alloc)),
        Some(own) => copies(alloc, &own.leafrefs),
    }
}

// ---- of all nodes

/// The type of each node's type statement, with leafrefs as paths; the empty type if a node has none, or one with a
/// fault.
///
/// It takes a search among the statements for each node.
pub(crate) fn own_types(
    alloc: Global,
    modules: &Modules,
    types: &NodeTypes,
    forest: &[Branch],
) -> Result<Vec<Shared<YangType>>, NoMemory>
    requires { spec.AreTyped modules.now forest.now types.now }
    ensures { IfOk result (λ own. own.items ≡ leafrefs.own_types modules.now forest.now) }
{
    let mut all = Vec::with_capacity(alloc, forest.len())?;
    for branch in forest {
        append(&mut all, type_of_node(alloc, modules, types, branch)?)?;
    }
    Ok(all)
}

/// The leafrefs of each node: those among its type statement and those that it depends on, in order.
///
/// It takes the time of `own_types`.
pub(crate) fn leafrefs_of_nodes<'x, 'a>(
    alloc: Global,
    modules: &Modules,
    types: &'x NodeTypes<'a>,
    forest: &[Branch],
) -> Result<Vec<Vec<Leafref<'a>>>, NoMemory>
    requires { spec.AreTyped modules.now forest.now types.now }
    ensures { IfOk result (λ all. spec.leafrefs_seen all.items ≡ map (λ b. map stmt_in (leafrefs.leafrefs_at modules.now b)) forest.now) }
{
    let mut all = Vec::with_capacity(alloc, forest.len())?;
    for branch in forest {
        append(&mut all, leafrefs_of_node(alloc, modules, types, branch)?)?;
    }
    Ok(all)
}
