//! The walk over two trees: the changes from the one to the other.
ghost use Rattle.std.specs.Prelude.{◌≡◌, ◌<◌, length, IfOk, Some};
ghost use Rattle.std.specs.List.{fold, flat_map};
ghost use Rattle.sal_node.specs.Shape.{tree_at};
ghost use Rattle.sal_node.specs.Tree.{IsGrove};
ghost use Rattle.sal_rules.specs.Breaches as breaches;
ghost use Rattle.sal_check.specs.Near as spec;
ghost use Rattle.sal_check.specs.Nodes.{steps_in};
ghost use Rattle.sal_rows.specs.declared.outcome.Rule.TheVariants.{MinElements, MaxElements, Unique};

use crate::climb::{context, way};
use crate::fresh::repeats_freshly;
use crate::rules::{has_minimum, is_demanded};
use crate::spot::after_step;
use crate::trail::longer;
use crate::walk::{Place, Walk, is_looked_at, rules_of};
use sal_node::Node;
use sal_rows::{Breach, Rule};
use sal_tree::{child_of, reached};
use sal_types::{NoMemory, Step};
use std::sync::Arc;

/// The input of a walk over two trees: that of a walk over the second, and the stamps of the change.
#[derive(Drop)]
pub(crate) struct Near<'a> {
    pub(crate) walk: Walk<'a>,
    pub(crate) stamps: &'a [u64],
}

/// Whether the node has one of these stamps.
pub(crate) fn is_new(stamps: &[u64], node: &Arc<Node>) -> bool
    ensures { result ≡ spec.is_new stamps.now node.now.value.stamp }
{
    match stamps {
        [] => false,
        [stamp, rest @ ..] => node.stamp() == *stamp || is_new(rest, node),
    }
}

// Whether a node is present that has none of these stamps.
fn is_kept(stamps: &[u64], node: Option<&Arc<Node>>) -> bool
    ensures { result ≡ spec.is_kept stamps.now (tree_at node.entry) }
{
    match node {
        None => false,
        Some(node) => !is_new(stamps, node),
    }
}

impl<'w> Near<'w> {
    // Whether the list at a place is the same as before.
    fn has_same_list(&self, before: &Arc<Node>, after: &Arc<Node>, number: u32) -> bool
        requires after { IsGrove after.now.value.kids }
        requires number { number < length self.now.walk.schema.now.nodes }
        ensures { result ≡ spec.is_settled self.now.stamps.now self.now.walk.schema.now (Some before.now.value) (Some after.now.value) (MaxElements number) }
    {
        if !self.walk.schema.kind(number).has_entries() {
            return false;
        }
        is_kept(self.stamps, child_of(Some(after), &Step::Node(number)))
    }

    // Whether the list below a place is the same as before, and at least this many entries were required then.
    fn has_same_minimum(
        &self,
        before: &Arc<Node>,
        after: &Arc<Node>,
        number: u32,
    ) -> Result<bool, NoMemory>
        requires before { IsGrove before.now.value.kids }
        requires after { IsGrove after.now.value.kids }
        requires number { number < length self.now.walk.schema.now.nodes }
        ensures { IfOk result (λ b. b ≡ spec.is_settled self.now.stamps.now self.now.walk.schema.now (Some before.now.value) (Some after.now.value) (MinElements number)) }
    {
        let schema = self.walk.schema;
        if !has_minimum(schema, number) {
            return Ok(false);
        }
        let mut steps = way(self.walk.alloc, schema, number)?;
        if !is_demanded(schema, Some(before), &steps, context(schema, number)) {
            return Ok(false);
        }
        steps.push(Step::Node(number))?;
        Ok(is_kept(self.stamps, reached(Some(after), &steps)))
    }

    // Whether the stamps show that a rule is still kept, if it was kept before.
    fn is_settled(
        &self,
        before: Option<&Arc<Node>>,
        node: &Arc<Node>,
        rule: Rule,
    ) -> Result<bool, NoMemory>
        requires trees { spec.AreGroves (tree_at before) node.now.value }
        requires number { breaches.node_of_rule rule < length self.now.walk.schema.now.nodes }
        ensures { IfOk result (λ b. b ≡ spec.is_settled self.now.stamps.now self.now.walk.schema.now (tree_at before.entry) (Some node.now.value) rule) }
    {
        let Some(old) = before else {
            return Ok(false);
        };
        match rule {
            Rule::Mandatory(_) | Rule::TwoCases(_) => Ok(false),
            Rule::MinElements(number) => self.has_same_minimum(old, node, number),
            Rule::MaxElements(number) => Ok(self.has_same_list(old, node, number)),
            Rule::Unique(number) => Ok(self.has_same_list(old, node, number)),
        }
    }

    // The least breach with that of one rule, unless it is settled.
    fn judge(
        &self,
        before: Option<&Arc<Node>>,
        place: &Place,
        rule: Rule,
        least: Option<Breach>,
    ) -> Result<Option<Breach>, NoMemory>
        requires trees { spec.AreGroves (tree_at before) place.now.node.now.value }
        requires number { breaches.node_of_rule rule < length self.now.walk.schema.now.nodes }
        ensures { IfOk result (λ r. r ≡ fold breaches.keep least (spec.near_of self.now.stamps.now self.now.walk.schema.now self.now.walk.store (steps_in place.now.trail.now) (tree_at before.entry) place.now.node.now.value place.now.spot.node rule)) }
    {
        if self.is_settled(before, place.node, rule)? {
            return Ok(least);
        }
        match before {
            None => self.walk.judge(place, rule, least),
            Some(old) => self.judge_again(old, place, rule, least),
        }
    }

    // The least breach with that of a rule that was kept before.
    fn judge_again(
        &self,
        before: &Arc<Node>,
        place: &Place,
        rule: Rule,
        least: Option<Breach>,
    ) -> Result<Option<Breach>, NoMemory>
        requires before { IsGrove before.now.value.kids }
        requires sound { IsGrove place.now.node.now.value.kids }
        requires number { breaches.node_of_rule rule < length self.now.walk.schema.now.nodes }
        ensures { IfOk result (λ r. r ≡ fold breaches.keep least (spec.breach_if self.now.walk.schema.now self.now.walk.store (steps_in place.now.trail.now) rule (spec.broken_near self.now.stamps.now self.now.walk.schema.now (Some before.now.value) place.now.node.now.value place.now.spot.node rule))) }
    {
        match rule {
            Rule::Unique(number) => self.judge_unique(before, place, number, least),
            Rule::Mandatory(_) => self.walk.judge(place, rule, least),
            Rule::MinElements(_) => self.walk.judge(place, rule, least),
            Rule::MaxElements(_) => self.walk.judge(place, rule, least),
            Rule::TwoCases(_) => self.walk.judge(place, rule, least),
        }
    }

    // The least breach with that of the `unique` statements of a list, which were kept before.
    fn judge_unique(
        &self,
        before: &Arc<Node>,
        place: &Place,
        number: u32,
        least: Option<Breach>,
    ) -> Result<Option<Breach>, NoMemory>
        requires before { IsGrove before.now.value.kids }
        requires sound { IsGrove place.now.node.now.value.kids }
        requires number { number < length self.now.walk.schema.now.nodes }
        ensures { IfOk result (λ r. r ≡ fold breaches.keep least (spec.breach_if self.now.walk.schema.now self.now.walk.store (steps_in place.now.trail.now) (Unique number) (spec.broken_near self.now.stamps.now self.now.walk.schema.now (Some before.now.value) place.now.node.now.value place.now.spot.node (Unique number)))) }
    {
        if !is_looked_at(self.walk.schema, self.walk.store, number) {
            return Ok(least);
        }
        if !repeats_freshly(self, before, place, number)? {
            return Ok(least);
        }
        self.walk.with_breach(place, Rule::Unique(number), least)
    }

    // The least breach with those of one node.
    fn judge_node(
        &self,
        before: Option<&Arc<Node>>,
        place: &Place,
        number: u32,
        least: Option<Breach>,
    ) -> Result<Option<Breach>, NoMemory>
        requires trees { spec.AreGroves (tree_at before) place.now.node.now.value }
        requires number { number < length self.now.walk.schema.now.nodes }
        ensures { IfOk result (λ r. r ≡ fold breaches.keep least (flat_map (spec.near_of self.now.stamps.now self.now.walk.schema.now self.now.walk.store (steps_in place.now.trail.now) (tree_at before.entry) place.now.node.now.value place.now.spot.node) (breaches.rules_of number))) }
    {
        let mut least = least;
        for rule in rules_of(number) {
            least = self.judge(before, place, rule, least)?;
        }
        Ok(least)
    }

    // The least breach with those of one place.
    fn judge_place(
        &self,
        before: Option<&Arc<Node>>,
        place: &Place,
        least: Option<Breach>,
    ) -> Result<Option<Breach>, NoMemory>
        requires { spec.AreGroves (tree_at before) place.now.node.now.value }
        ensures { IfOk result (λ r. r ≡ fold breaches.keep least (spec.near_at self.now.stamps.now self.now.walk.schema.now self.now.walk.store (steps_in place.now.trail.now) place.now.spot (tree_at before.entry) place.now.node.now.value)) }
    {
        if place.spot.wants_entry {
            return Ok(least);
        }
        let mut least = least;
        for number in self.walk.lists.judged(self.walk.schema, place.spot.node) {
            least = self.judge_node(before, place, *number, least)?;
        }
        Ok(least)
    }

    /// The least breach with those at a place and below it, without those that the tree before settles.
    pub(crate) fn over(
        &self,
        before: Option<&Arc<Node>>,
        place: &Place,
        least: Option<Breach>,
    ) -> Result<Option<Breach>, NoMemory>
        requires { spec.AreGroves (tree_at before) place.now.node.now.value }
        ensures { IfOk result (λ r. r ≡ fold breaches.keep least (spec.near self.now.stamps.now self.now.walk.schema.now self.now.walk.store (steps_in place.now.trail.now) place.now.spot (tree_at before.entry) place.now.node.now.value)) }
    {
        if !is_new(self.stamps, place.node) {
            return Ok(least);
        }
        let mut least = self.judge_place(before, place, least)?;
        let children = place.node.children_with(self.walk.alloc, self.stamps)?;
        for child in &children {
            let old = child_of(before, &child.step);
            let below = longer(self.walk.alloc, place.trail, &child.step)?;
            let next = Place {
                trail: &below,
                spot: after_step(self.walk.schema, place.spot, &child.step),
                node: &child.node,
            };
            least = self.over(old, &next, least)?;
        }
        Ok(least)
    }
}
