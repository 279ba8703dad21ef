//! The walk over a tree.
ghost use Rattle.std.specs.Prelude.{◌≡◌, ◌<◌, length, not, IfOk, Some};
ghost use Rattle.std.specs.List.{All, fold, flat_map, list_any};
ghost use Rattle.sal_node.specs.Tree.{IsGrove};
ghost use Rattle.sal_rules.specs.Breaches as spec;
ghost use Rattle.sal_check.specs.Near as near;
ghost use Rattle.sal_check.specs.Nodes.{seen_in, steps_in, states, found, found_at, AreJudged};
ghost use Rattle.sal_rules.specs.Rules.{broken};

use crate::breach::keep;
use crate::lists::Lists;
use crate::rules::{has_too_few, has_too_many, has_two_cases, is_missing};
use crate::spot::after_step;
use crate::trail::{longer, place_of};
use crate::unique::repeats;
use sal_node::Node;
use sal_rows::{Breach, Rule};
use sal_rules::Spot;
use sal_schema::Schema;
use sal_types::{NoMemory, Step, Store};
use std::alloc::Global;
use std::sync::Arc;

/// The input of a walk over a tree: a schema, the nodes that are checked at each place, and the store of the tree.
#[derive(Drop)]
pub(crate) struct Walk<'a> {
    pub(crate) alloc: Global,
    pub(crate) schema: &'a Schema,
    pub(crate) lists: &'a Lists,
    pub(crate) store: Store,
    ghost judged: { AreJudged schema.now lists.now.lists.items lists.now.any },
}

/// A place of a tree: the steps from the root to it, its schema node, and its node in the tree.
#[derive(Drop)]
pub(crate) struct Place<'t, 'a> {
    pub(crate) trail: &'t [&'a Step],
    pub(crate) spot: Spot,
    pub(crate) node: &'a Arc<Node>,
}

/// Whether the rules of the node are checked in the store.
pub(crate) fn is_looked_at(schema: &Schema, store: Store, number: u32) -> bool
    requires { number < length schema.now.nodes }
    ensures { result ≡ spec.is_looked_at schema.now store number }
{
    match store {
        Store::Config => schema.is_config(number) == Some(true),
        Store::Oper => schema.is_config(number).is_some(),
    }
}

fn node_of_rule(rule: Rule) -> u32
    ensures { result ≡ spec.node_of_rule rule }
{
    match rule {
        Rule::Mandatory(number) => number,
        Rule::MinElements(number) => number,
        Rule::MaxElements(number) => number,
        Rule::Unique(number) => number,
        Rule::TwoCases(number) => number,
    }
}

/// The rules that may be stated at a node.
pub(crate) fn rules_of(number: u32) -> [Rule; 5]
    ensures rules { result ≡ spec.rules_of number }
    ensures node { All (λ rule. spec.node_of_rule rule ≡ number) result }
{
    [
        Rule::Mandatory(number),
        Rule::MinElements(number),
        Rule::MaxElements(number),
        Rule::Unique(number),
        Rule::TwoCases(number),
    ]
}

impl<'w> Walk<'w> {
    /// A walk over the trees of a store.
    pub(crate) fn new(alloc: Global, schema: &'w Schema, lists: &'w Lists, store: Store) -> Walk<'w>
        requires { AreJudged schema.now lists.now.lists.items lists.now.any }
        ensures schema { result.schema.now ≡ schema.entry.now }
        ensures store { result.store ≡ store }
    {
        Walk {
            alloc,
            schema,
            lists,
            store,
        }
    }

    /// Whether no rule is stated in the schema: then no tree breaks one.
    pub(crate) fn is_bare(&self) -> bool
        ensures { result ≡ not (list_any (states self.now.schema.now) (spec.numbers self.now.schema.now)) }
    {
        !self.lists.any
    }

    fn is_broken(&self, place: &Place, rule: Rule) -> Result<bool, NoMemory>
        requires sound { IsGrove place.now.node.now.value.kids }
        requires number { spec.node_of_rule rule < length self.now.schema.now.nodes }
        ensures { IfOk result (λ b. b ≡ broken self.now.schema.now (seen_in (Some place.now.node.now.value)) place.now.spot.node rule) }
    {
        match rule {
            Rule::Mandatory(number) => is_missing(self, place, number),
            Rule::MinElements(number) => has_too_few(self, place, number),
            Rule::MaxElements(number) => has_too_many(self, place, number),
            Rule::Unique(number) => repeats(self, place, number),
            Rule::TwoCases(number) => Ok(has_two_cases(self, place, number)),
        }
    }

    /// The least breach with that of one rule.
    pub(crate) fn judge(
        &self,
        place: &Place,
        rule: Rule,
        least: Option<Breach>,
    ) -> Result<Option<Breach>, NoMemory>
        requires sound { IsGrove place.now.node.now.value.kids }
        requires number { spec.node_of_rule rule < length self.now.schema.now.nodes }
        ensures { IfOk result (λ r. r ≡ fold spec.keep least (spec.breach_of self.now.schema.now self.now.store (steps_in place.now.trail.now) (seen_in (Some place.now.node.now.value)) place.now.spot.node rule)) }
    {
        if !is_looked_at(self.schema, self.store, node_of_rule(rule)) {
            return Ok(least);
        }
        if !self.is_broken(place, rule)? {
            return Ok(least);
        }
        self.with_breach(place, rule, least)
    }

    /// The least breach with that of a rule that is broken at the place, unless the path is too long.
    pub(crate) fn with_breach(
        &self,
        place: &Place,
        rule: Rule,
        least: Option<Breach>,
    ) -> Result<Option<Breach>, NoMemory>
        requires { spec.node_of_rule rule < length self.now.schema.now.nodes }
        ensures { IfOk result (λ r. r ≡ fold spec.keep least (near.breach_there self.now.schema.now (steps_in place.now.trail.now) rule)) }
    {
        match place_of(self.alloc, self.schema, place.trail, rule)? {
            None => Ok(least),
            Some(path) => Ok(keep(least, Breach { path, rule })),
        }
    }

    // The least breach with those of one node.
    fn judge_node(
        &self,
        place: &Place,
        number: u32,
        least: Option<Breach>,
    ) -> Result<Option<Breach>, NoMemory>
        requires sound { IsGrove place.now.node.now.value.kids }
        requires number { number < length self.now.schema.now.nodes }
        ensures { IfOk result (λ r. r ≡ fold spec.keep least (flat_map (spec.breach_of self.now.schema.now self.now.store (steps_in place.now.trail.now) (seen_in (Some place.now.node.now.value)) place.now.spot.node) (spec.rules_of number))) }
    {
        let mut least = least;
        for rule in rules_of(number) {
            least = self.judge(place, rule, least)?;
        }
        Ok(least)
    }

    // The least breach with those of one place.
    fn judge_place(&self, place: &Place, least: Option<Breach>) -> Result<Option<Breach>, NoMemory>
        requires { IsGrove place.now.node.now.value.kids }
        ensures { IfOk result (λ r. r ≡ fold spec.keep least (found_at self.now.schema.now self.now.store (steps_in place.now.trail.now) place.now.spot place.now.node.now.value)) }
    {
        if place.spot.wants_entry {
            return Ok(least);
        }
        let mut least = least;
        for number in self.lists.judged(self.schema, place.spot.node) {
            least = self.judge_node(place, *number, least)?;
        }
        Ok(least)
    }

    /// The least breach with those at a place and below it.
    pub(crate) fn over(
        &self,
        place: &Place,
        least: Option<Breach>,
    ) -> Result<Option<Breach>, NoMemory>
        requires { IsGrove place.now.node.now.value.kids }
        ensures { IfOk result (λ r. r ≡ fold spec.keep least (found self.now.schema.now self.now.store (steps_in place.now.trail.now) place.now.spot place.now.node.now.value)) }
    {
        let mut least = self.judge_place(place, least)?;
        let children = place.node.children(self.alloc)?;
        for child in &children {
            let below = longer(self.alloc, place.trail, &child.step)?;
            let next = Place {
                trail: &below,
                spot: after_step(self.schema, place.spot, &child.step),
                node: &child.node,
            };
            least = self.over(&next, least)?;
        }
        Ok(least)
    }
}
