//! Entries of a changed list that agree in the leafs of a `unique` statement, if none did before.
ghost use Rattle.std.specs.Prelude.{◌≡◌, ◌<◌, ◌++◌, ◌&&◌, List, [], length, map, Some, IfOk, OnOk, if◌then◌else◌};
ghost use Rattle.std.specs.List.{list_any, flat_map};
ghost use Rattle.std.specs.Option.{option_map};
ghost use Rattle.sal_node.specs.Shape.{tree_at};
ghost use Rattle.sal_node.specs.Tree.{IsGrove, pairs};
ghost use Rattle.sal_tree.specs.Grow as trees;
ghost use Rattle.sal_tree.specs.Grow.{IsSound};
ghost use Rattle.sal_types.specs.declared.value.Step.TheVariants.{Node as Toward};
ghost use Rattle.sal_types.specs.declared.value.Cell.{Cell as CellValue};
ghost use Rattle.sal_rules.specs.Contexts as contexts;
ghost use Rattle.sal_check.specs.Near as spec;
ghost use Rattle.sal_rules.specs.Rules.{same_cells};
ghost use Rattle.sal_check.specs.Uniques.{Holds, all_cells_in, cells_in, combination, ways_in};
ghost use Rattle.sal_rows.specs.declared.outcome.Rule.TheVariants.{Unique};

use crate::changed::{Near, is_new};
use crate::unique::{cells_at, has_double, ways_to};
use crate::walk::Place;
use sal_node::{Child, Node};
use sal_schema::Kind;
use sal_tree::child_of;
use sal_types::{Cell, NoMemory, Step};
use std::alloc::Global;
use std::collections::BTreeSet;
use std::sync::Arc;

/// Whether two entries of a list agree in all leafs of one of its `unique` statements, if none did before.
pub(crate) fn repeats_freshly(
    near: &Near,
    before: &Arc<Node>,
    place: &Place,
    number: u32,
) -> Result<bool, NoMemory>
    requires before { IsGrove before.now.value.kids }
    requires sound { IsGrove place.now.node.now.value.kids }
    requires number { number < length near.now.walk.schema.now.nodes }
    ensures { IfOk result (λ b. b ≡ spec.broken_near near.now.stamps.now near.now.walk.schema.now (Some before.now.value) place.now.node.now.value place.now.spot.node (Unique number)) }
{
    let schema = near.walk.schema;
    if schema.kind(number) != Kind::List || schema.data_parent(number) != place.spot.node {
        return Ok(false);
    }
    for leafs in schema.uniques(number) {
        if agree(near, before, place.node, number, leafs.items())? {
            return Ok(true);
        }
    }
    Ok(false)
}

// Whether two entries agree in these leafs.
fn agree(
    near: &Near,
    before: &Arc<Node>,
    node: &Arc<Node>,
    number: u32,
    leafs: &[u32],
) -> Result<bool, NoMemory>
    requires before { IsGrove before.now.value.kids }
    requires sound { IsGrove node.now.value.kids }
    ensures { IfOk result (λ b. b ≡ spec.agree_freshly near.now.stamps.now (map (contexts.way_in_entry near.now.walk.schema.now) leafs.now) (trees.kid (Some before.now.value) (Toward number)) (trees.kids_in (trees.kid (Some node.now.value) (Toward number)))) }
{
    let step = Step::Node(number);
    let Some(list) = child_of(Some(node), &step) else {
        return Ok(false);
    };
    let ways = ways_to(near.walk.alloc, near.walk.schema, leafs)?;
    let earlier = Earlier {
        alloc: near.walk.alloc,
        stamps: near.stamps,
        ways: &ways,
        list: child_of(Some(before), &step),
    };
    earlier.agree(list)
}

/// A list as it was before a change, with the steps from an entry to the leafs that are compared, and the stamps of the
/// change.
#[derive(Drop)]
struct Earlier<'a> {
    alloc: Global,
    stamps: &'a [u64],
    ways: &'a [Vec<Step>],
    list: Option<&'a Arc<Node>>,
}

impl<'e> Earlier<'e> {
    // Whether two entries of the list after the change agree, of which one is fresh.
    fn agree(&self, list: &Arc<Node>) -> Result<bool, NoMemory>
        requires before { IsSound (tree_at self.now.list) }
        requires sound { IsGrove list.now.value.kids }
        ensures { IfOk result (λ b. b ≡ spec.agree_freshly self.now.stamps.now (ways_in self.now.ways.now) (tree_at self.now.list) (pairs list.now.value.kids)) }
    {
        let fresh = self.fresh_cells(list)?;
        if fresh.is_empty() {
            return Ok(false);
        }
        self.agree_with(&fresh, list)
    }

    // Whether two of the fresh ones are the same, or another entry has the cells of one.
    fn agree_with<'a>(&self, fresh: &[Vec<&'a Cell>], list: &'a Arc<Node>) -> Result<bool, NoMemory>
        requires before { IsSound (tree_at self.now.list) }
        requires sound { IsGrove list.now.value.kids }
        requires fresh { all_cells_in fresh.now ≡ flat_map (spec.fresh_of self.now.stamps.now (ways_in self.now.ways.now) (tree_at self.now.list)) (pairs list.now.value.kids) }
        ensures { IfOk result (λ b. b ≡ spec.agree_freshly self.now.stamps.now (ways_in self.now.ways.now) (tree_at self.now.list) (pairs list.now.value.kids)) }
    {
        if has_double(self.alloc, fresh)? {
            return Ok(true);
        }
        self.occurs(fresh, list)
    }

    // The cells of the entries whose cells changed.
    fn fresh_cells<'a>(&self, list: &'a Arc<Node>) -> Result<Vec<Vec<&'a Cell>>, NoMemory>
        requires before { IsSound (tree_at self.now.list) }
        requires sound { IsGrove list.now.value.kids }
        ensures { IfOk result (λ v. all_cells_in v.items ≡ flat_map (spec.fresh_of self.now.stamps.now (ways_in self.now.ways.now) (tree_at self.now.list)) (pairs list.now.value.kids)) }
    {
        let mut found = Vec::new(self.alloc);
        let children = list.children_with(self.alloc, self.stamps)?;
        for child in &children {
            self.add_fresh(&mut found, child_of(self.list, &child.step), child)?;
        }
        Ok(found)
    }

    // Appends the cells of the child, if they differ from those of the entry before.
    fn add_fresh<'a>(
        &self,
        found: &mut Vec<Vec<&'a Cell>>,
        before: Option<&Arc<Node>>,
        child: &'a Child,
    ) -> Result<(), NoMemory>
        requires before { IsSound (tree_at before) }
        requires sound { IsGrove child.now.node.value.kids }
        ensures { OnOk result (all_cells_in found.new.items ≡ all_cells_in found.old.items ++ (if spec.differs (spec.leafs_of (ways_in self.now.ways.now) (tree_at before.entry)) (spec.leafs_of (ways_in self.now.ways.now) (Some child.now.node.value)) then combination (ways_in self.now.ways.now) (child.now.step, child.now.node.value) else [])) }
    {
        let Some(cells) = self.leafs_of(Some(&child.node))? else {
            return Ok(());
        };
        if self.differ(before, &cells)? {
            found.push(cells)?;
        }
        Ok(())
    }

    // The cells of the leafs in an entry, if it is one and has them all.
    fn leafs_of<'a>(&self, entry: Option<&'a Arc<Node>>) -> Result<Option<Vec<&'a Cell>>, NoMemory>
        requires { IsSound (tree_at entry) }
        ensures { IfOk result (λ r. option_map (λ v. cells_in v.items) r ≡ spec.leafs_of (ways_in self.now.ways.now) (tree_at entry.entry)) }
    {
        let Some(entry) = entry else {
            return Ok(None);
        };
        if entry.cell.is_none() {
            return Ok(None);
        }
        cells_at(self.alloc, entry, self.ways)
    }

    // Whether the cells differ from those of the entry before.
    fn differ(&self, before: Option<&Arc<Node>>, cells: &[&Cell]) -> Result<bool, NoMemory>
        requires { IsSound (tree_at before) }
        ensures { IfOk result (λ b. b ≡ spec.differs (spec.leafs_of (ways_in self.now.ways.now) (tree_at before.entry)) (Some (cells_in cells.now))) }
    {
        match self.leafs_of(before)? {
            None => Ok(true),
            Some(old) => Ok(!are_same(&old, cells)),
        }
    }

    // Whether another entry than the fresh ones has the cells of one of these.
    fn occurs<'a>(&self, fresh: &[Vec<&'a Cell>], list: &'a Arc<Node>) -> Result<bool, NoMemory>
        requires before { IsSound (tree_at self.now.list) }
        requires sound { IsGrove list.now.value.kids }
        ensures { IfOk result (λ b. b ≡ list_any (spec.is_among (all_cells_in fresh.now)) (flat_map (spec.other_of self.now.stamps.now (ways_in self.now.ways.now) (tree_at self.now.list)) (pairs list.now.value.kids))) }
    {
        let set = set_of(self.alloc, fresh)?;
        self.occurs_in(&set, list)
    }

    // Whether the set has the cells of another entry than the fresh ones.
    fn occurs_in<'x, 'a>(
        &self,
        set: &BTreeSet<&'x [&'a Cell]>,
        list: &'a Arc<Node>,
    ) -> Result<bool, NoMemory>
        requires before { IsSound (tree_at self.now.list) }
        requires sound { IsGrove list.now.value.kids }
        ensures { IfOk result (λ b. (xs : List (List CellValue)) → Holds set.now xs → b ≡ list_any (spec.is_among xs) (flat_map (spec.other_of self.now.stamps.now (ways_in self.now.ways.now) (tree_at self.now.list)) (pairs list.now.value.kids))) }
    {
        let children = list.children(self.alloc)?;
        for child in &children {
            if self.is_known(set, child)? {
                return Ok(true);
            }
        }
        Ok(false)
    }

    // Whether the child is another entry than the fresh ones, and the set has its cells.
    fn is_known<'x, 'a>(
        &self,
        set: &BTreeSet<&'x [&'a Cell]>,
        child: &'a Child,
    ) -> Result<bool, NoMemory>
        requires before { IsSound (tree_at self.now.list) }
        requires sound { IsGrove child.now.node.value.kids }
        ensures { IfOk result (λ b. (xs : List (List CellValue)) → Holds set.now xs → b ≡ list_any (spec.is_among xs) (spec.other_of self.now.stamps.now (ways_in self.now.ways.now) (tree_at self.now.list) (child.now.step, child.now.node.value))) }
    {
        let Some(cells) = self.leafs_of(Some(&child.node))? else {
            return Ok(false);
        };
        if self.is_fresh(child, &cells)? {
            return Ok(false);
        }
        Ok(set.contains(cells.as_slice()))
    }

    // Whether the child has a new stamp, and other cells than the entry before.
    fn is_fresh(&self, child: &Child, cells: &[&Cell]) -> Result<bool, NoMemory>
        requires { IsSound (tree_at self.now.list) }
        ensures { IfOk result (λ b. b ≡ (spec.is_new self.now.stamps.now child.now.node.value.stamp && spec.differs (spec.leafs_of (ways_in self.now.ways.now) (trees.kid (tree_at self.now.list) child.now.step)) (Some (cells_in cells.now)))) }
    {
        if !is_new(self.stamps, &child.node) {
            return Ok(false);
        }
        self.differ(child_of(self.list, &child.step), cells)
    }
}

fn are_same(some: &[&Cell], others: &[&Cell]) -> bool
    ensures { result ≡ same_cells (cells_in some.now) (cells_in others.now) }
{
    some.cmp(others).is_eq()
}

fn set_of<'x, 'a>(
    alloc: Global,
    fresh: &'x [Vec<&'a Cell>],
) -> Result<BTreeSet<&'x [&'a Cell]>, NoMemory>
    ensures { IfOk result (λ set. Holds set (all_cells_in fresh.now)) }
{
    let mut set = BTreeSet::new(alloc);
    for cells in fresh {
        let _ = set.insert(cells.as_slice())?;
    }
    Ok(set)
}
