//! The tree of nodes, numbered depth first, as it grows.
ghost use Rattle.std.specs.Prelude.{◌≡◌, ◌<◌, ◌≤◌, ◌+◌, ◌*◌, ℕ, List, Option, Some, find, map, length, IfOk, true, false, MatchOption};
ghost use Rattle.sal_grouping.specs.declared.node.Node.{Node as Knot};
ghost use Rattle.sal_grouping.specs.Rows as rows_spec;
ghost use Rattle.sal_grouping.specs.Growth as growth;
ghost use Rattle.sal_grouping.specs.Plan.{IsPlan};
ghost use Rattle.sal_grouping.specs.Frames as spec;

use crate::forest::Implied;
use crate::node::Node;
use crate::nodes::{MAX_NODES, nodes_in};
use crate::plan::Plan;
use crate::rows::Row;
use sal_module::Keyword;
use sal_types::NoMemory;
use std::alloc::Global;

/// A node to be added: its statement, and the kind of an implied node.
pub(crate) type Seed = (usize, Option<Implied>);

pub(crate) fn keyword_at(rows: &[Row], k: usize) -> Option<Keyword>
    ensures { result ≡ rows_spec.keyword_at rows.now k }
{
    match rows.get(k) {
        None => None,
        Some(row) => Some(row.keyword),
    }
}

pub(crate) fn is_keyword(rows: &[Row], keyword: Keyword, k: usize) -> bool
    ensures { result ≡ rows_spec.is_keyword keyword (rows_spec.keyword_at rows.now k) }
{
    match rows.get(k) {
        None => false,
        Some(row) => row.keyword == keyword,
    }
}

// ---- the children of a node

fn in_choice(rows: &[Row], k: usize) -> Seed
    ensures { result ≡ growth.in_choice rows.now k }
{
    if is_keyword(rows, Keyword::Case, k) {
        (k, None)
    } else {
        (k, Some(Implied::Case))
    }
}

fn cases_of(alloc: Global, rows: &[Row], nodes: &[usize]) -> Result<Vec<Seed>, NoMemory>
    ensures { IfOk result (λ seeds. seeds.items ≡ map (growth.in_choice rows.now) nodes.now) }
{
    let mut seeds = Vec::with_capacity(alloc, nodes.len())?;
    for k in nodes {
        seeds.push(in_choice(rows, *k))?;
    }
    Ok(seeds)
}

fn plain_of(alloc: Global, nodes: &[usize]) -> Result<Vec<Seed>, NoMemory>
    ensures { IfOk result (λ seeds. seeds.items ≡ map growth.plain nodes.now) }
{
    let mut seeds = Vec::with_capacity(alloc, nodes.len())?;
    for k in nodes {
        seeds.push((*k, None))?;
    }
    Ok(seeds)
}

/// The nodes of a block, as children of a node of this kind, or none if they exceed the limit.
pub(crate) fn seeds_in(
    alloc: Global,
    plan: &Plan,
    kind: Option<Keyword>,
    block: usize,
) -> Result<Option<Vec<Seed>>, NoMemory>
    requires { IsPlan plan.now.rows.items plan.now.named.items plan.now }
    ensures { IfOk result (λ r. MatchOption r (65536 < length (growth.seeds_in plan.now.rows.items plan.now.named.items kind block))
        (λ seeds. seeds.items ≡ growth.seeds_in plan.now.rows.items plan.now.named.items kind block)) }
{
    let nodes = match nodes_in(alloc, plan, block)? {
        None => return Ok(None),
        Some(nodes) => nodes,
    };
    match kind {
        Some(Keyword::Choice) => Ok(Some(cases_of(alloc, &plan.rows, nodes.as_slice())?)),
        _ => Ok(Some(plain_of(alloc, nodes.as_slice())?)),
    }
}

fn find_keyword(rows: &[Row], keyword: Keyword, block: &[usize]) -> Option<usize>
    ensures { result ≡ find (λ k. rows_spec.is_keyword keyword (rows_spec.keyword_at rows.now k)) block.now }
{
    for k in block {
        if is_keyword(rows, keyword, *k) {
            return Some(*k);
        }
    }
    None
}

pub(crate) fn find_inside(plan: &Plan, keyword: Keyword, block: usize) -> Option<usize>
    requires { IsPlan plan.now.rows.items plan.now.named.items plan.now }
    ensures { result ≡ find (λ k. rows_spec.is_keyword keyword (rows_spec.keyword_at plan.now.rows.items k)) (rows_spec.inside plan.now.rows.items block) }
{
    if block >= plan.inside.len() {
        return None;
    }
    find_keyword(&plan.rows, keyword, plan.inside[block].as_slice())
}

/// The input or the output of an RPC, written or implied.
fn param(plan: &Plan, rpc: usize, keyword: Keyword, side: Implied) -> Seed
    requires { IsPlan plan.now.rows.items plan.now.named.items plan.now }
    ensures { result ≡ growth.param plan.now.rows.items rpc keyword side }
{
    match find_inside(plan, keyword, rpc) {
        None => (rpc, Some(side)),
        Some(k) => (k, None),
    }
}

fn params(alloc: Global, plan: &Plan, rpc: usize) -> Result<Vec<Seed>, NoMemory>
    requires { IsPlan plan.now.rows.items plan.now.named.items plan.now }
    ensures { IfOk result (λ seeds. seeds.items ≡ growth.params plan.now.rows.items rpc) }
{
    let mut seeds = Vec::new(alloc);
    seeds.push(param(plan, rpc, Keyword::Input, Implied::Input))?;
    seeds.push(param(plan, rpc, Keyword::Output, Implied::Output))?;
    Ok(seeds)
}

fn below_row(alloc: Global, plan: &Plan, k: usize) -> Result<Option<Vec<Seed>>, NoMemory>
    requires { IsPlan plan.now.rows.items plan.now.named.items plan.now }
    ensures { IfOk result (λ r. MatchOption r (65536 < length (growth.below_row plan.now.rows.items plan.now.named.items (rows_spec.keyword_at plan.now.rows.items k) k))
        (λ seeds. seeds.items ≡ growth.below_row plan.now.rows.items plan.now.named.items (rows_spec.keyword_at plan.now.rows.items k) k)) }
{
    let kind = keyword_at(&plan.rows, k);
    match kind {
        Some(Keyword::Rpc) => Ok(Some(params(alloc, plan, k)?)),
        _ => seeds_in(alloc, plan, kind, k),
    }
}

/// The children of a node, or none if they exceed the limit.
fn below(alloc: Global, plan: &Plan, seed: Seed) -> Result<Option<Vec<Seed>>, NoMemory>
    requires { IsPlan plan.now.rows.items plan.now.named.items plan.now }
    ensures { IfOk result (λ r. MatchOption r (65536 < length (growth.below plan.now.rows.items plan.now.named.items seed))
        (λ seeds. seeds.items ≡ growth.below plan.now.rows.items plan.now.named.items seed)) }
{
    match seed.1 {
        None => below_row(alloc, plan, seed.0),
        Some(Implied::Case) => {
            let mut seeds = Vec::new(alloc);
            seeds.push((seed.0, None))?;
            Ok(Some(seeds))
        }
        Some(_) => Ok(Some(Vec::new(alloc))),
    }
}

// ---- growth

/// Nodes that are still to be added: children of one node, from an index on, with `levels` levels below them.
#[derive(Drop)]
struct Frame {
    parent: Option<u32>,
    seeds: Vec<Seed>,
    next: usize,
    levels: usize,
}

fn node_of(owner: u32, parent: Option<u32>, seed: Seed) -> Node
    ensures { result ≡ growth.node_of owner parent seed }
{
    Node {
        parent,
        module: owner,
        row: seed.0,
        implied: seed.1,
    }
}

/// The children of a node are added next, if it may have any, unless they exceed the limit.
fn push_below(
    alloc: Global,
    plan: &Plan,
    frames: &mut Vec<Frame>,
    parent: Option<u32>,
    seed: Seed,
    levels: usize,
) -> Result<bool, NoMemory>
    requires { IsPlan plan.now.rows.items plan.now.named.items plan.now }
    ensures few { IfOk result (λ all. all ≡ true → (owner : ℕ) (forest : List Knot) →
        spec.with_frames plan.now.rows.items plan.now.named.items owner frames.new.items forest
        ≡ spec.with_frames plan.now.rows.items plan.now.named.items owner frames.old.items
        (growth.grow levels plan.now.rows.items plan.now.named.items owner parent forest (growth.below plan.now.rows.items plan.now.named.items seed))) }
    ensures many { IfOk result (λ all. all ≡ false → (0 < levels) × (65536 < length (growth.below plan.now.rows.items plan.now.named.items seed))) }
    ensures one { IfOk result (λ _. length frames.new.items ≤ length frames.old.items + 1) }
{
    if levels == 0 {
        return Ok(true);
    }
    match below(alloc, plan, seed)? {
        None => Ok(false),
        Some(seeds) => {
            frames.push(Frame {
                parent,
                seeds,
                next: 0,
                levels: levels - 1,
            })?;
            Ok(true)
        }
    }
}

/// Adds the next node of a frame, if any, and schedules its children, unless they exceed the limit. Each node added makes at
/// most two more frames than there were without this one.
fn grow_one(
    alloc: Global,
    plan: &Plan,
    owner: u32,
    frames: &mut Vec<Frame>,
    nodes: &mut Vec<Node>,
    frame: Frame,
) -> Result<bool, NoMemory>
    requires planned { IsPlan plan.now.rows.items plan.now.named.items plan.now }
    requires small { length nodes.old.items ≤ 65536 }
    ensures few { IfOk result (λ all. all ≡ true →
        spec.with_frames plan.now.rows.items plan.now.named.items owner frames.new.items nodes.new.items
        ≡ spec.with_frames plan.now.rows.items plan.now.named.items owner frames.old.items (spec.with_frame plan.now.rows.items plan.now.named.items owner frame nodes.old.items)) }
    ensures many { IfOk result (λ all. all ≡ false →
        65536 < length (spec.with_frames plan.now.rows.items plan.now.named.items owner frames.old.items (spec.with_frame plan.now.rows.items plan.now.named.items owner frame nodes.old.items))) }
    ensures paid { IfOk result (λ _. length frames.new.items + 2 * length nodes.old.items ≤ length frames.old.items + 2 * length nodes.new.items) }
{
    if frame.next >= frame.seeds.len() {
        return Ok(true);
    }
    let seed = frame.seeds[frame.next];
    let parent = frame.parent;
    let levels = frame.levels;
    let number = nodes.len() as u32;
    frames.push(Frame {
        parent,
        seeds: frame.seeds,
        next: frame.next + 1,
        levels,
    })?;
    nodes.push(node_of(owner, parent, seed))?;
    let all = push_below(alloc, plan, frames, Some(number), seed, levels)?;
    Ok(all)
}

/// Adds these nodes as children of one node, with all below them. The answer is false if the nodes exceed 65,536.
pub(crate) fn grow(
    alloc: Global,
    plan: &Plan,
    owner: u32,
    parent: Option<u32>,
    nodes: &mut Vec<Node>,
    seeds: Vec<Seed>,
) -> Result<bool, NoMemory>
    requires planned { IsPlan plan.now.rows.items plan.now.named.items plan.now }
    requires small { length nodes.old.items ≤ 65536 }
    ensures few { IfOk result (λ all. all ≡ true → nodes.new.items ≡ growth.grown plan.now.rows.items plan.now.named.items owner parent nodes.old.items seeds.items) }
    ensures fits { IfOk result (λ all. all ≡ true → length nodes.new.items ≤ 65536) }
    ensures many { IfOk result (λ all. all ≡ false → 65536 < length (growth.grown plan.now.rows.items plan.now.named.items owner parent nodes.old.items seeds.items)) }
{
    let levels = 2 * plan.rows.len();
    if levels == 0 {
        return Ok(true);
    }
    let mut frames = Vec::new(alloc);
    frames.push(Frame {
        parent,
        seeds,
        next: 0,
        levels: levels - 1,
    })?;
    'frames: while let Some(frame) = frames.pop() {
        let all = grow_one(alloc, plan, owner, &mut frames, nodes, frame)?;
        if !all {
            return Ok(false);
        }
        if nodes.len() > MAX_NODES {
            return Ok(false);
        }
    }
    Ok(true)
}
