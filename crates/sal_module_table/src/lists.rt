//! Keys and unique leafs of lists, and configuration under state data.
ghost use Rattle.std.specs.Prelude.{◌≡◌, ◌<◌, [], None, IfOk, map, nat_eq, if◌then◌else◌};
ghost use Rattle.std.specs.List.{list_any};
ghost use Rattle.sal_module.specs.Faults.{least};
ghost use Rattle.sal_module_table.specs.Inherited as inherited;
ghost use Rattle.sal_module_table.specs.Lists as spec;

use crate::child::child_named;
use crate::inherited::config_at;
use crate::node::{is_true, kind_of, own_stmt};
use crate::nodes::Nodes;
use crate::words::words_of;
use sal_grouping::Branch;
use sal_module::{Cause, Found, Keyword, Modules, argument_of, better, is_named};
use sal_schema::Kind;
use sal_stmt::Stmt;
use sal_typedefs::between_slashes;
use sal_types::{NoMemory, Str, append};
use std::alloc::Global;

pub(crate) fn is_list(kind: Kind) -> bool
    ensures { result ≡ spec.is_list_kind kind }
{
    match kind {
        Kind::List => true,
        _ => false,
    }
}

// ---- names

/// The leafs of a list that these names refer to, as keys.
fn key_leafs(
    nodes: &Nodes,
    k: u32,
    branch: &Branch,
    names: &[Str],
) -> Result<Vec<Option<u32>>, NoMemory>
    ensures { IfOk result (λ named. named.items ≡ map (spec.key_leaf nodes.now.modules.now nodes.now.forest.now k branch.now) names.now) }
{
    let mut named = Vec::with_capacity(nodes.alloc, names.len())?;
    for name in names {
        let leaf = child_named(nodes, branch, true, k, name.as_str())?;
        append(&mut named, leaf)?;
    }
    Ok(named)
}

/// The leafs of a list that the names in a text refer to, as keys.
pub(crate) fn keys_named(
    nodes: &Nodes,
    k: u32,
    branch: &Branch,
    text: &str,
) -> Result<Vec<Option<u32>>, NoMemory>
    ensures { IfOk result (λ named. named.items ≡ spec.keys_named nodes.now.modules.now nodes.now.forest.now k branch.now text.now) }
{
    let names = words_of(nodes.alloc, text)?;
    key_leafs(nodes, k, branch, &names)
}

/// The node of this number, if it is not a list.
fn unless_list(modules: &Modules, forest: &[Branch], node: Option<u32>) -> Option<u32>
    ensures { result ≡ spec.unless_list modules.now forest.now node }
{
    match node {
        None => None,
        Some(n) => match forest.get(n as usize) {
            None => Some(n),
            Some(branch) => {
                if is_list(kind_of(modules, branch)) {
                    None
                } else {
                    Some(n)
                }
            }
        },
    }
}

/// The leaf below a node at the end of these steps, through nodes that are not lists.
fn leaf_below(
    nodes: &Nodes,
    branch: &Branch,
    above: u32,
    steps: &[Str],
) -> Result<Option<u32>, NoMemory>
    ensures { IfOk result (λ leaf. leaf ≡ spec.leaf_below nodes.now.modules.now nodes.now.forest.now branch.now above steps.now) }
{
    let mut above = above;
    let mut rest = steps;
    'steps: loop {
        match rest.split_first() {
            None => return Ok(None),
            Some((step, more)) => {
                if more.is_empty() {
                    return child_named(nodes, branch, true, above, step.as_str());
                }
                let next = child_named(nodes, branch, false, above, step.as_str())?;
                match unless_list(nodes.modules, nodes.forest, next) {
                    None => return Ok(None),
                    Some(n) => {
                        above = n;
                        rest = more;
                    }
                }
            }
        }
    }
}

fn unique_leaf(nodes: &Nodes, k: u32, branch: &Branch, name: &str) -> Result<Option<u32>, NoMemory>
    ensures { IfOk result (λ leaf. leaf ≡ spec.unique_leaf nodes.now.modules.now nodes.now.forest.now k branch.now name.now) }
{
    let steps = between_slashes(nodes.alloc, name)?;
    leaf_below(nodes, branch, k, &steps)
}

/// The leafs below a list that these names refer to, for a `unique`.
fn unique_leafs(
    nodes: &Nodes,
    k: u32,
    branch: &Branch,
    names: &[Str],
) -> Result<Vec<Option<u32>>, NoMemory>
    ensures { IfOk result (λ named. named.items ≡ map (spec.unique_leaf nodes.now.modules.now nodes.now.forest.now k branch.now) names.now) }
{
    let mut named = Vec::with_capacity(nodes.alloc, names.len())?;
    for name in names {
        let leaf = unique_leaf(nodes, k, branch, name.as_str())?;
        append(&mut named, leaf)?;
    }
    Ok(named)
}

/// The leafs below a list that the names in a text refer to, for a `unique`.
pub(crate) fn uniques_named(
    nodes: &Nodes,
    k: u32,
    branch: &Branch,
    text: &str,
) -> Result<Vec<Option<u32>>, NoMemory>
    ensures { IfOk result (λ named. named.items ≡ spec.uniques_named nodes.now.modules.now nodes.now.forest.now k branch.now text.now) }
{
    let names = words_of(nodes.alloc, text)?;
    unique_leafs(nodes, k, branch, &names)
}

/// The numbers that exist.
pub(crate) fn given(alloc: Global, named: &[Option<u32>]) -> Result<Vec<u32>, NoMemory>
    ensures { IfOk result (λ list. list.items ≡ spec.given named.now) }
{
    let mut list = Vec::with_capacity(alloc, named.len())?;
    for leaf in named {
        if let Some(leaf) = leaf {
            append(&mut list, *leaf)?;
        }
    }
    Ok(list)
}

// ---- bad names

fn has_none(named: &[Option<u32>]) -> bool
    ensures { result ≡ spec.has_none named.now }
{
    named.iter().any(|leaf| leaf.is_none())
}

fn is_missing(named: &[Option<u32>]) -> bool
    ensures { result ≡ spec.is_missing named.now }
{
    named.is_empty() || has_none(named)
}

fn has_number(number: u32, numbers: &[u32]) -> bool
    ensures { result ≡ list_any (nat_eq number) numbers.now }
{
    numbers.iter().any(|other| number == *other)
}

/// Whether all numbers differ.
fn all_differ(numbers: &[u32]) -> bool
    ensures { result ≡ spec.all_differ nat_eq numbers.now }
{
    for i in 0..numbers.len() {
        if has_number(numbers[i], &numbers[i + 1..]) {
            return false;
        }
    }
    true
}

fn same_config(a: Option<bool>, b: Option<bool>) -> bool
    ensures { result ≡ spec.same_config a b }
{
    a == b
}

/// Whether a child of this parent would be configuration by default; at the top it is.
pub(crate) fn config_above(nodes: &Nodes, place: Option<u32>) -> Option<bool>
    ensures { result ≡ inherited.config_above nodes.now.modules.now nodes.now.forest.now place }
{
    config_at(nodes.modules, nodes.forest, &nodes.tables.configs, place)
}

fn differs(nodes: &Nodes, k: u32, leaf: u32) -> bool
    ensures { result ≡ spec.differs nodes.now.modules.now nodes.now.forest.now k leaf }
{
    !same_config(
        config_above(nodes, Some(leaf)),
        config_above(nodes, Some(k)),
    )
}

fn any_differs(nodes: &Nodes, k: u32, leafs: &[u32]) -> bool
    ensures { result ≡ list_any (spec.differs nodes.now.modules.now nodes.now.forest.now k) leafs.now }
{
    leafs.iter().any(|leaf| differs(nodes, k, *leaf))
}

fn are_bad_keys(nodes: &Nodes, k: u32, named: &[Option<u32>]) -> Result<bool, NoMemory>
    ensures { IfOk result (λ bad. bad ≡ spec.are_bad_keys nodes.now.modules.now nodes.now.forest.now k named.now) }
{
    let leafs = given(nodes.alloc, named)?;
    Ok(is_missing(named) || !all_differ(&leafs) || any_differs(nodes, k, &leafs))
}

fn is_bad_key(nodes: &Nodes, k: u32, branch: &Branch, text: &str) -> Result<bool, NoMemory>
    ensures { IfOk result (λ bad. bad ≡ spec.is_bad_key nodes.now.modules.now nodes.now.forest.now k branch.now text.now) }
{
    let named = keys_named(nodes, k, branch, text)?;
    are_bad_keys(nodes, k, &named)
}

fn is_bad_unique(nodes: &Nodes, k: u32, branch: &Branch, text: &str) -> Result<bool, NoMemory>
    ensures { IfOk result (λ bad. bad ≡ spec.is_bad_unique nodes.now.modules.now nodes.now.forest.now k branch.now text.now) }
{
    let named = uniques_named(nodes, k, branch, text)?;
    Ok(is_missing(&named))
}

// ---- faults

/// The first of this fault and one of this kind at a statement.
fn with_fault(best: Option<Found>, cause: Cause, module: u32, stmt: &Stmt) -> Option<Found>
    ensures { result ≡ least best (spec.at_stmt cause «module» stmt.now) }
{
    better(
        best,
        Found {
            cause,
            module,
            at: stmt.at,
        },
    )
}

pub(crate) fn with_bad(
    best: Option<Found>,
    is_bad: bool,
    cause: Cause,
    module: u32,
    stmt: &Stmt,
) -> Option<Found>
    ensures { result ≡ least best (if is_bad then spec.at_stmt cause «module» stmt.now else []) }
{
    if is_bad {
        with_fault(best, cause, module, stmt)
    } else {
        best
    }
}

/// The first of this fault and that of a statement in the block of a list.
fn with_sub(
    best: Option<Found>,
    nodes: &Nodes,
    k: u32,
    branch: &Branch,
    sub: &Stmt,
) -> Result<Option<Found>, NoMemory>
    ensures { IfOk result (λ found. found ≡ least best (spec.sub_faults nodes.now.modules.now nodes.now.forest.now k branch.now sub.now)) }
{
    if is_named(Keyword::Key, sub) {
        let bad = is_bad_key(nodes, k, branch, argument_of(sub))?;
        return Ok(with_bad(best, bad, Cause::BadKey, branch.source, sub));
    }
    if is_named(Keyword::Unique, sub) {
        let bad = is_bad_unique(nodes, k, branch, argument_of(sub))?;
        return Ok(with_bad(best, bad, Cause::BadKey, branch.source, sub));
    }
    Ok(best)
}

fn is_under_state(nodes: &Nodes, branch: &Branch) -> bool
    ensures { result ≡ spec.is_under_state nodes.now.modules.now nodes.now.forest.now branch.now }
{
    same_config(config_above(nodes, branch.parent), Some(false))
}

fn with_config(best: Option<Found>, nodes: &Nodes, branch: &Branch, sub: &Stmt) -> Option<Found>
    ensures { result ≡ least best (spec.config_fault nodes.now.modules.now nodes.now.forest.now branch.now sub.now) }
{
    let bad = is_named(Keyword::Config, sub)
        && is_true(argument_of(sub))
        && is_under_state(nodes, branch);
    with_bad(best, bad, Cause::ConfigUnderState, branch.source, sub)
}

fn with_list(
    best: Option<Found>,
    nodes: &Nodes,
    k: u32,
    branch: &Branch,
    subs: &[Stmt],
) -> Result<Option<Found>, NoMemory>
    ensures { IfOk result (λ found. found ≡ least best (spec.list_faults nodes.now.modules.now nodes.now.forest.now k branch.now subs.now)) }
{
    if !is_list(kind_of(nodes.modules, branch)) {
        return Ok(best);
    }
    let mut best = best;
    for sub in subs {
        best = with_sub(best, nodes, k, branch, sub)?;
    }
    Ok(best)
}

fn with_configs(best: Option<Found>, nodes: &Nodes, branch: &Branch, subs: &[Stmt]) -> Option<Found>
    ensures { result ≡ least best (spec.config_faults nodes.now.modules.now nodes.now.forest.now branch.now subs.now) }
{
    let mut best = best;
    for sub in subs {
        best = with_config(best, nodes, branch, sub);
    }
    best
}

/// The statements in the block of a node.
pub(crate) fn block_of<'m>(modules: &'m Modules, branch: &Branch) -> &'m [Stmt]
    ensures { result.now ≡ spec.block_of (spec.own_stmt modules.now branch.now) }
{
    match own_stmt(modules, branch) {
        None => &[],
        Some(stmt) => stmt.subs.items(),
    }
}

fn with_node(
    best: Option<Found>,
    nodes: &Nodes,
    k: u32,
    branch: &Branch,
) -> Result<Option<Found>, NoMemory>
    ensures { IfOk result (λ found. found ≡ least best (spec.node_faults nodes.now.modules.now nodes.now.forest.now k branch.now)) }
{
    let subs = block_of(nodes.modules, branch);
    let best = with_list(best, nodes, k, branch, subs)?;
    Ok(with_configs(best, nodes, branch, subs))
}

/// The first fault of keys, unique leafs and configuration.
pub(crate) fn lists_fault(nodes: &Nodes) -> Result<Option<Found>, NoMemory>
    ensures { IfOk result (λ found. found ≡ least None (spec.all_faults nodes.now.modules.now nodes.now.forest.now)) }
{
    let mut best = None;
    for (k, branch) in nodes.forest.iter().enumerate() {
        best = with_node(best, nodes, k as u32, branch)?;
    }
    Ok(best)
}
