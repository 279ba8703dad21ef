//! Nodes whose name is not unique in its scope.
ghost use Rattle.std.specs.Prelude.{◌≡◌, ◌+◌, ◌||◌, [], None, Some, IfOk, is_none, is_some, take, if◌then◌else◌};
ghost use Rattle.std.specs.List.{slice_get};
ghost use Rattle.std.specs.BTreeMap.{get};
ghost use Rattle.sal_module.specs.Faults.{least};
ghost use Rattle.sal_grouping.specs.declared.children.Key.{Key as Knot};
ghost use Rattle.sal_grouping.specs.Children as spec;

use crate::augments::{kind_of, name_of};
use crate::names::with_fault;
use crate::node::Node;
use crate::rows::Row;
use sal_module::{Cause, Found, Keyword};
use sal_types::{NoMemory, Str};
use std::alloc::Global;
use std::collections::BTreeMap;

fn is_choice(rows: &[Row], node: &Node) -> bool
    ensures { result ≡ spec.is_choice rows.now node.now }
{
    match kind_of(rows, node) {
        None => false,
        Some(kind) => kind == Keyword::Choice,
    }
}

fn is_case(rows: &[Row], node: &Node) -> bool
    ensures { result ≡ spec.is_case rows.now node.now }
{
    match kind_of(rows, node) {
        None => false,
        Some(kind) => kind == Keyword::Case,
    }
}

/// The parent of a choice or a case, if the node is one.
fn passed(rows: &[Row], nodes: &[Node], place: Option<u32>) -> Option<Option<u32>>
    ensures { result ≡ spec.passed rows.now nodes.now place }
{
    match place {
        None => None,
        Some(k) => match nodes.get(k as usize) {
            None => None,
            Some(node) => {
                if is_choice(rows, node) || is_case(rows, node) {
                    Some(node.parent)
                } else {
                    None
                }
            }
        },
    }
}

/// The closest node, from this one upwards, that is neither choice nor case.
fn data_parent(rows: &[Row], nodes: &[Node], levels: usize, place: Option<u32>) -> Option<u32>
    ensures { result ≡ spec.data_parent levels rows.now nodes.now place }
{
    let mut place = place;
    for _i in 0..levels {
        match passed(rows, nodes, place) {
            None => return place,
            Some(above) => place = above,
        }
    }
    place
}

fn scope_of(rows: &[Row], nodes: &[Node], node: &Node) -> Option<u32>
    ensures { result ≡ spec.scope_of rows.now nodes.now node.now }
{
    if is_case(rows, node) {
        node.parent
    } else {
        data_parent(rows, nodes, nodes.len(), node.parent)
    }
}

/// What must differ between two nodes.
#[derive(Drop, PartialEq, Eq, PartialOrd, Ord)]
pub(crate) struct Key {
    /// Whether it is a case.
    pub case: bool,
    /// Its scope: the choice of a case, or the closest data node above another node.
    pub scope: Option<u32>,
    /// The index of its module.
    pub module: u32,
    /// Its name.
    pub name: Str,
}

fn key_of(alloc: Global, rows: &[Row], nodes: &[Node], node: &Node) -> Result<Key, NoMemory>
    ensures { IfOk result (λ key. key ≡ spec.key_of rows.now nodes.now node.now) }
{
    let name = Str::new(alloc, name_of(rows, node))?;
    Ok(Key {
        case: is_case(rows, node),
        scope: scope_of(rows, nodes, node),
        module: node.module,
        name,
    })
}

/// Sets the number of the key. The answer is whether the key had none.
fn put_key(map: &mut BTreeMap<Key, usize>, key: Key, k: usize) -> Result<bool, NoMemory>
    ensures first { IfOk result (λ first. first ≡ is_none (get spec.key_cmp map.old key)) }
    ensures known { IfOk result (λ _. (q : Knot) → is_some (get spec.key_cmp map.new q) ≡ (is_some (get spec.key_cmp map.old q) || spec.same_key key q)) }
{
    let old = map.insert(key, k)?;
    Ok(old.is_none())
}

/// Adds the key of a node to the map of those before it. The answer is whether the node is a choice or the first with its key.
fn put_node(
    alloc: Global,
    rows: &[Row],
    nodes: &[Node],
    map: &mut BTreeMap<Key, usize>,
    k: usize,
    node: &Node,
) -> Result<bool, NoMemory>
    requires known { (q : Knot) → is_some (get spec.key_cmp map.old q) ≡ is_some (spec.first_with rows.now nodes.now q (take k nodes.now)) }
    requires place { slice_get nodes.now k ≡ Some node.now }
    ensures known { IfOk result (λ _. (q : Knot) → is_some (get spec.key_cmp map.new q) ≡ is_some (spec.first_with rows.now nodes.now q (take (k + 1) nodes.now))) }
    ensures first { IfOk result (λ first. first ≡ spec.is_first rows.now nodes.now k node.now) }
{
    if is_choice(rows, node) {
        return Ok(true);
    }
    let key = key_of(alloc, rows, nodes, node)?;
    let first = put_key(map, key, k)?;
    Ok(first)
}

/// The first of this fault and that of a node, if it is not the first with its key.
fn with_node(best: Option<Found>, rows: &[Row], node: &Node, first: bool) -> Option<Found>
    ensures { result ≡ least best (if first then [] else spec.fault_at (slice_get rows.now node.now.row)) }
{
    if first {
        return best;
    }
    match rows.get(node.row) {
        None => best,
        Some(row) => with_fault(best, Cause::DoubleNode, row),
    }
}

/// The first node whose key an earlier node has.
pub(crate) fn child_fault(
    alloc: Global,
    rows: &[Row],
    nodes: &[Node],
) -> Result<Option<Found>, NoMemory>
    ensures { IfOk result (λ found. found ≡ least None (spec.child_faults rows.now nodes.now)) }
{
    let mut map = BTreeMap::new(alloc);
    let mut best = None;
    for (k, node) in nodes.iter().enumerate() {
        let first = put_node(alloc, rows, nodes, &mut map, k, node)?;
        best = with_node(best, rows, node, first);
    }
    Ok(best)
}
