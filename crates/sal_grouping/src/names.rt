//! The faults of names: unknown groupings and prefixes, groupings that use themselves, double definitions.
ghost use Rattle.std.specs.Prelude.{◌≡◌, ◌==◌, ◌<◌, ◌++◌, [], length, map, is_none, Some, None, IfOk, IfSome, if◌then◌else◌};
ghost use Rattle.std.specs.List.{list_any, slice_split};
ghost use Rattle.sal_module.specs.declared.keyword.Keyword.TheVariants as word;
ghost use Rattle.sal_module.specs.Faults.{least};
ghost use Rattle.sal_grouping.specs.Rows as rows_spec;
ghost use Rattle.sal_grouping.specs.Indexes as index;
ghost use Rattle.sal_grouping.specs.Groupings as groupings_spec;
ghost use Rattle.sal_grouping.specs.Reach.{IsRanked};
ghost use Rattle.sal_grouping.specs.Names as spec;
ghost use Rattle.sal_grouping.specs.Tables.{AreTables};

use crate::index::{Names as NameMap, empty_lists, pick};
use crate::look_up::{MAX_DEPTH, Step, around_of, first_of, local_name, module_of, named_by};
use crate::reach::{ranking, reaches};
use crate::rows::Row;
use crate::tables::Tables;
use sal_module::{Cause, Found, Keyword, Modules, better};
use sal_types::{NoMemory, Str};
use std::alloc::Global;

/// The first of this fault and one of this kind at a statement.
pub(crate) fn with_fault(best: Option<Found>, cause: Cause, row: &Row) -> Option<Found>
    ensures { result ≡ least best (spec.at_row cause row.now) }
{
    better(
        best,
        Found {
            cause,
            module: row.module,
            at: row.at,
        },
    )
}

// ---- paths

fn step_of(modules: &Modules, number: u32, text: &str, alloc: Global) -> Result<Step, NoMemory>
    ensures { IfOk result (λ step. step ≡ groupings_spec.step_of modules.now number text.now) }
{
    let name = Str::new(alloc, local_name(text))?;
    Ok((module_of(modules, number, text), name))
}

/// The names of a path, each after a `/`, except the first.
fn steps_of(
    alloc: Global,
    modules: &Modules,
    number: u32,
    text: &str,
) -> Result<Vec<Step>, NoMemory>
    ensures { IfOk result (λ path. path.items ≡ map (groupings_spec.step_of modules.now number) (slice_split (λ c. c == 47) text.now)) }
{
    let mut path = Vec::new(alloc);
    let mut rest = text;
    'steps: loop {
        match rest.split_once('/') {
            None => {
                path.push(step_of(modules, number, rest, alloc)?)?;
                return Ok(path);
            }
            Some((name, more)) => {
                path.push(step_of(modules, number, name, alloc)?)?;
                rest = more;
            }
        }
    }
}

/// The names in the path of an augment.
pub(crate) fn path_of(alloc: Global, modules: &Modules, row: &Row) -> Result<Vec<Step>, NoMemory>
    ensures { IfOk result (λ path. path.items ≡ groupings_spec.path_of modules.now row.now) }
{
    match row.name.as_str().split_once('/') {
        None => Ok(Vec::new(alloc)),
        Some((_, rest)) => steps_of(alloc, modules, row.module, rest),
    }
}

fn has_unknown(path: &[Step]) -> bool
    ensures { result ≡ list_any (λ (step : groupings_spec.Step). is_none step.0) path.now }
{
    path.iter().any(|step| step.0.is_none())
}

// ---- groupings

fn is_grouping(rows: &[Row], b: usize) -> bool
    ensures { result ≡ rows_spec.is_keyword word.Grouping (rows_spec.keyword_at rows.now b) }
{
    match rows.get(b) {
        Some(row) => row.keyword == Keyword::Grouping,
        None => false,
    }
}

/// The closest grouping, from this block outwards.
fn home(rows: &[Row], levels: u32, block: Option<usize>) -> Option<usize>
    ensures { result ≡ spec.home levels rows.now block }
{
    if levels == 0 {
        return None;
    }
    match block {
        None => None,
        Some(b) => {
            if is_grouping(rows, b) {
                Some(b)
            } else {
                home(rows, levels - 1, around_of(rows, b))
            }
        }
    }
}

/// The groupings that each grouping names.
fn edges_of(
    alloc: Global,
    modules: &Modules,
    rows: &[Row],
    tops: &[usize],
    groupings: &[NameMap],
) -> Result<Vec<Vec<usize>>, NoMemory>
    requires tops { index.AreTops modules.now tops.now }
    requires rows { rows.now ≡ rows_spec.rows_of modules.now }
    requires firsts { index.AreFirsts rows.now word.Grouping groupings.now }
    ensures count { IfOk result (λ edges. length edges.items ≡ length rows.now) }
    ensures each { IfOk result (λ edges. index.lists edges.items ≡ spec.edges_of modules.now rows.now) }
{
    let mut edges = empty_lists(alloc, rows.len())?;
    for row in rows {
        let used = named_by(modules, rows, tops, groupings, row);
        pick(&mut edges, home(rows, MAX_DEPTH, row.around), used)?;
    }
    Ok(edges)
}

// ---- the faults of a statement

fn with_unknown(best: Option<Found>, used: Option<usize>, row: &Row) -> Option<Found>
    ensures { result ≡ least best (if is_none used then spec.at_row Cause.UnknownName row.now else []) }
{
    if used.is_none() {
        with_fault(best, Cause::UnknownName, row)
    } else {
        best
    }
}

fn is_cyclic(
    alloc: Global,
    edges: &[Vec<usize>],
    ranks: &Option<Vec<usize>>,
    g: Option<usize>,
    used: Option<usize>,
) -> Result<bool, NoMemory>
    requires { IfSome ranks.now (λ ranks. IsRanked (index.lists edges.now) ranks.items) }
    ensures { IfOk result (λ b. b ≡ spec.reaches_home (index.lists edges.now) (length edges.now) g used) }
{
    match g {
        None => Ok(false),
        Some(g) => match used {
            None => Ok(false),
            Some(used) => reaches(alloc, edges, ranks, used, g),
        },
    }
}

fn with_path(
    best: Option<Found>,
    alloc: Global,
    modules: &Modules,
    row: &Row,
) -> Result<Option<Found>, NoMemory>
    ensures { IfOk result (λ found. found ≡ least best (spec.path_faults modules.now row.now)) }
{
    let path = path_of(alloc, modules, row)?;
    if has_unknown(path.as_slice()) {
        return Ok(with_fault(best, Cause::UnknownName, row));
    }
    Ok(best)
}

pub(crate) fn is_at(place: Option<usize>, k: usize) -> bool
    ensures { result ≡ rows_spec.is_block k place }
{
    match place {
        None => false,
        Some(j) => j == k,
    }
}

fn with_double(
    best: Option<Found>,
    rows: &[Row],
    keyword: Keyword,
    maps: &[NameMap],
    k: usize,
    row: &Row,
) -> Option<Found>
    requires firsts { index.AreFirsts rows.now keyword maps.now }
    requires same { keyword ≡ row.now.keyword }
    ensures { result ≡ least best (spec.double_faults rows.now k row.now row.now.around) }
{
    match row.around {
        None => best,
        Some(b) => {
            if is_at(first_of(rows, keyword, maps, b, row.name.as_str()), k) {
                best
            } else {
                with_fault(best, Cause::DoubleNode, row)
            }
        }
    }
}

/// The graph of groupings.
struct Graph {
    edges: Vec<Vec<usize>>,
    ranks: Option<Vec<usize>>,
}

impl Drop for Graph {
    fn drop(self) {
        let Graph { edges: _, ranks: _ } = self;
    }
}

fn graph_of(alloc: Global, modules: &Modules, t: &Tables) -> Result<Graph, NoMemory>
    requires { AreTables modules.now t.now }
    ensures count { IfOk result (λ g. length g.edges.items ≡ length t.now.rows.items) }
    ensures edges { IfOk result (λ g. index.lists g.edges.items ≡ spec.edges_of modules.now t.now.rows.items) }
    ensures ranks { IfOk result (λ g. IfSome g.ranks (λ ranks. IsRanked (index.lists g.edges.items) ranks.items)) }
{
    let edges = edges_of(alloc, modules, &t.rows, &t.tops, &t.groupings)?;
    let ranks = ranking(alloc, edges.as_slice())?;
    Ok(Graph { edges, ranks })
}

/// The first of this fault and that of a `uses` through which the grouping around it uses itself.
fn with_cycle(
    best: Option<Found>,
    alloc: Global,
    rows: &[Row],
    graph: &Graph,
    used: Option<usize>,
    row: &Row,
) -> Result<Option<Found>, NoMemory>
    requires count { length graph.now.edges.items ≡ length rows.now }
    requires ranks { IfSome graph.now.ranks (λ ranks. IsRanked (index.lists graph.now.edges.items) ranks.items) }
    ensures { IfOk result (λ found. found ≡ least best
        (if spec.reaches_home (index.lists graph.now.edges.items) (length rows.now) (spec.home_of rows.now row.now) used then spec.at_row Cause.NameCycle row.now else [])) }
{
    let g = home(rows, MAX_DEPTH, row.around);
    if is_cyclic(alloc, &graph.edges, &graph.ranks, g, used)? {
        return Ok(with_fault(best, Cause::NameCycle, row));
    }
    Ok(best)
}

/// The input for the faults of names: the statements of the modules with their references, and the graph of groupings.
#[derive(Clone, Copy)]
struct Judging<'x> {
    alloc: Global,
    modules: &'x Modules,
    tables: &'x Tables,
    graph: &'x Graph,
}

impl<'x> Judging<'x> {
    /// The first of this fault and those of a `uses`.
    fn with_uses(&self, best: Option<Found>, row: &Row) -> Result<Option<Found>, NoMemory>
        requires tables { AreTables self.now.modules.now self.now.tables.now }
        requires count { length self.now.graph.now.edges.items ≡ length self.now.tables.now.rows.items }
        requires edges { index.lists self.now.graph.now.edges.items ≡ spec.edges_of self.now.modules.now self.now.tables.now.rows.items }
        requires ranks { IfSome self.now.graph.now.ranks (λ ranks. IsRanked (index.lists self.now.graph.now.edges.items) ranks.items) }
        ensures { IfOk result (λ found. found ≡ least best
            (spec.unknown_faults self.now.modules.now self.now.tables.now.rows.items row.now ++ spec.cycle_faults self.now.modules.now self.now.tables.now.rows.items row.now)) }
    {
        let t = self.tables;
        let used = named_by(self.modules, &t.rows, &t.tops, &t.groupings, row);
        let best = with_unknown(best, used, row);
        with_cycle(best, self.alloc, &t.rows, self.graph, used, row)
    }

    /// The first of this fault and those of a statement.
    fn with_row(&self, best: Option<Found>, k: usize, row: &Row) -> Result<Option<Found>, NoMemory>
        requires tables { AreTables self.now.modules.now self.now.tables.now }
        requires count { length self.now.graph.now.edges.items ≡ length self.now.tables.now.rows.items }
        requires edges { index.lists self.now.graph.now.edges.items ≡ spec.edges_of self.now.modules.now self.now.tables.now.rows.items }
        requires ranks { IfSome self.now.graph.now.ranks (λ ranks. IsRanked (index.lists self.now.graph.now.edges.items) ranks.items) }
        ensures { IfOk result (λ found. found ≡ least best (spec.row_faults self.now.modules.now self.now.tables.now.rows.items k row.now row.now.keyword)) }
    {
        let t = self.tables;
        match row.keyword {
            Keyword::Uses => self.with_uses(best, row),
            Keyword::Augment => with_path(best, self.alloc, self.modules, row),
            Keyword::Typedef => Ok(with_double(best, &t.rows, row.keyword, &t.typedefs, k, row)),
            Keyword::Grouping => Ok(with_double(best, &t.rows, row.keyword, &t.groupings, k, row)),
            Keyword::Identity => Ok(with_double(best, &t.rows, row.keyword, &t.identities, k, row)),
            _ => Ok(best),
        }
    }
}

/// The first fault of names.
pub(crate) fn names_fault(
    alloc: Global,
    modules: &Modules,
    t: &Tables,
) -> Result<Option<Found>, NoMemory>
    requires { AreTables modules.now t.now }
    ensures { IfOk result (λ found. found ≡ least None (spec.name_faults modules.now t.now.rows.items)) }
{
    let graph = graph_of(alloc, modules, t)?;
    let judging = Judging {
        alloc,
        modules,
        tables: t,
        graph: &graph,
    };
    let mut best = None;
    for (k, row) in t.rows.iter().enumerate() {
        best = judging.with_row(best, k, row)?;
    }
    Ok(best)
}
