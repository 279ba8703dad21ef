//! Entries of a list that agree in the leafs of a `unique` statement (RFC 7950 section 7.8.3).
ghost use Rattle.std.specs.Prelude.{◌≡◌, ◌<◌, ◌++◌, length, map, Some, IfOk, OnOk};
ghost use Rattle.std.specs.Option.{option_map};
ghost use Rattle.sal_node.specs.Shape.{tree_at};
ghost use Rattle.sal_node.specs.Tree.{IsGrove};
ghost use Rattle.sal_tree.specs.Grow.{cell_in, kids_in, IsSound};
ghost use Rattle.sal_types.specs.declared.value.Cell.{Cell as CellValue};
ghost use Rattle.std.specs.Borrow.{Bor};
ghost use Rattle.sal_rules.specs.Contexts as contexts;
ghost use Rattle.sal_check.specs.Nodes.{seen_in};
ghost use Rattle.sal_rules.specs.Rules as spec;
ghost use Rattle.sal_check.specs.Uniques.{cells_in, all_cells_in, ways_in, combination, all_combinations};
ghost use Rattle.sal_rows.specs.declared.outcome.Rule.TheVariants.{Unique};

use crate::climb::way_in_entry;
use crate::walk::{Place, Walk};
use sal_node::{Child, Node};
use sal_schema::{Kind, Schema};
use sal_tree::{child_of, reached};
use sal_types::{Cell, NoMemory, Step};
use std::alloc::Global;
use std::collections::BTreeSet;
use std::sync::Arc;

// The cell at a node.
fn cell_of<'a>(node: Option<&'a Arc<Node>>) -> Option<&'a Cell>
    ensures { option_map (λ (c : Bor CellValue). c.now) result ≡ cell_in (tree_at node.entry) }
{
    match node {
        None => None,
        Some(node) => match &node.cell {
            None => None,
            Some(cell) => Some(cell),
        },
    }
}

/// The cells at these paths below an entry, if each path has one.
pub(crate) fn cells_at<'a>(
    alloc: Global,
    entry: &'a Arc<Node>,
    ways: &[Vec<Step>],
) -> Result<Option<Vec<&'a Cell>>, NoMemory>
    requires { IsGrove entry.now.value.kids }
    ensures { IfOk result (λ r. option_map (λ v. cells_in v.items) r ≡ spec.cells_at (seen_in (Some entry.now.value)) (ways_in ways.now)) }
{
    match ways {
        [] => Ok(Some(Vec::new(alloc))),
        [way, rest @ ..] => match cell_of(reached(Some(entry), way)) {
            None => Ok(None),
            Some(cell) => match cells_at(alloc, entry, rest)? {
                None => Ok(None),
                Some(cells) => {
                    let mut all = cells;
                    all.insert(0, cell)?;
                    Ok(Some(all))
                }
            },
        },
    }
}

// Appends the cells at these paths, if the child is an entry that has them all.
fn add_cells<'a>(
    alloc: Global,
    found: &mut Vec<Vec<&'a Cell>>,
    child: &'a Child,
    ways: &[Vec<Step>],
) -> Result<(), NoMemory>
    requires { IsGrove child.now.node.value.kids }
    ensures { OnOk result (all_cells_in found.new.items ≡ all_cells_in found.old.items ++ combination (ways_in ways.now) (child.now.step, child.now.node.value)) }
{
    if child.node.cell.is_none() {
        return Ok(());
    }
    match cells_at(alloc, &child.node, ways)? {
        None => Ok(()),
        Some(cells) => {
            found.push(cells)?;
            Ok(())
        }
    }
}

// The cells at these paths in each entry of the list that has them all.
fn combinations<'a>(
    alloc: Global,
    list: Option<&'a Arc<Node>>,
    ways: &[Vec<Step>],
) -> Result<Vec<Vec<&'a Cell>>, NoMemory>
    requires { IsSound (tree_at list) }
    ensures { IfOk result (λ v. all_cells_in v.items ≡ all_combinations (ways_in ways.now) (kids_in (tree_at list.entry))) }
{
    let mut found = Vec::new(alloc);
    let Some(list) = list else {
        return Ok(found);
    };
    let children = list.children(alloc)?;
    for child in &children {
        add_cells(alloc, &mut found, child, ways)?;
    }
    Ok(found)
}

/// Whether two of these are the same.
pub(crate) fn has_double(alloc: Global, combinations: &[Vec<&Cell>]) -> Result<bool, NoMemory>
    ensures { IfOk result (λ b. b ≡ spec.has_double (all_cells_in combinations.now)) }
{
    let mut seen = BTreeSet::new(alloc);
    for cells in combinations {
        if !seen.insert(cells.as_slice())? {
            return Ok(true);
        }
    }
    Ok(false)
}

/// The steps from an entry to each of these leafs.
pub(crate) fn ways_to(
    alloc: Global,
    schema: &Schema,
    leafs: &[u32],
) -> Result<Vec<Vec<Step>>, NoMemory>
    ensures { IfOk result (λ v. ways_in v.items ≡ map (contexts.way_in_entry schema.now) leafs.now) }
{
    let mut ways = Vec::with_capacity(alloc, leafs.len())?;
    for leaf in leafs {
        ways.push(way_in_entry(alloc, schema, *leaf)?)?;
    }
    Ok(ways)
}

// Whether two entries of a list agree in these leafs.
fn agree(walk: &Walk, node: &Arc<Node>, number: u32, leafs: &[u32]) -> Result<bool, NoMemory>
    requires { IsGrove node.now.value.kids }
    ensures { IfOk result (λ b. b ≡ spec.has_double (spec.combinations walk.now.schema.now (seen_in (Some node.now.value)) number leafs.now)) }
{
    let ways = ways_to(walk.alloc, walk.schema, leafs)?;
    let found = combinations(walk.alloc, child_of(Some(node), &Step::Node(number)), &ways)?;
    has_double(walk.alloc, &found)
}

/// Whether two entries of a list agree in all leafs of one of its `unique` statements.
pub(crate) fn repeats(walk: &Walk, place: &Place, number: u32) -> Result<bool, NoMemory>
    requires sound { IsGrove place.now.node.now.value.kids }
    requires number { number < length walk.now.schema.now.nodes }
    ensures { IfOk result (λ b. b ≡ spec.broken walk.now.schema.now (seen_in (Some place.now.node.now.value)) place.now.spot.node (Unique number)) }
{
    let schema = walk.schema;
    if schema.kind(number) != Kind::List || schema.data_parent(number) != place.spot.node {
        return Ok(false);
    }
    for leafs in schema.uniques(number) {
        if agree(walk, place.node, number, leafs.items())? {
            return Ok(true);
        }
    }
    Ok(false)
}
