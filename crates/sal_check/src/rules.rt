//! The rules of one node, checked at a place of a tree.
ghost use Rattle.std.specs.Prelude.{◌≡◌, ◌<◌, ◌≤◌, ◌||◌, length, IfSome, IfOk, Option, Some, if◌then◌else◌};
ghost use Rattle.sal_node.specs.Shape.{tree_at};
ghost use Rattle.sal_node.specs.Tree.{IsGrove};
ghost use Rattle.sal_schema.specs.Kinds as kinds;
ghost use Rattle.sal_schema.specs.Table.{is_kind};
ghost use Rattle.sal_tree.specs.Grow.{IsSound};
ghost use Rattle.sal_check.specs.Nodes.{seen_in, states};
ghost use Rattle.sal_rules.specs.Rules as spec;
ghost use Rattle.sal_rows.specs.declared.outcome.Rule.TheVariants.{Mandatory, MinElements, MaxElements, TwoCases};

use crate::climb::{context, stand, way};
use crate::entries::{are_above, count};
use crate::walk::{Place, Walk};
use sal_node::Node;
use sal_schema::{Kind, Schema};
use sal_tree::{child_of, is_present, reached};
use sal_types::{NoMemory, Step};
use std::sync::Arc;

// ---- the data at a place

// A choice or a case is present if a node in it is. Choices and cases are nested at most `deep` levels.
fn is_there(schema: &Schema, node: Option<&Arc<Node>>, number: u32, deep: u32) -> bool
    requires sound { IsSound (tree_at node) }
    requires number { number < length schema.now.nodes }
    ensures { result ≡ spec.is_there schema.now (seen_in (tree_at node.entry)) deep number }
{
    if deep == 0 {
        return false;
    }
    if !schema.kind(number).is_choice_or_case() {
        return is_present(child_of(node, &Step::Node(number)));
    }
    for child in schema.children(Some(number)) {
        if is_there(schema, node, *child, deep - 1) {
            return true;
        }
    }
    false
}

fn stands(schema: &Schema, node: Option<&Arc<Node>>, number: u32) -> bool
    requires sound { IsSound (tree_at node) }
    requires number { number < length schema.now.nodes }
    ensures { result ≡ spec.stands schema.now (seen_in (tree_at node.entry)) number }
{
    is_there(schema, node, number, schema.len())
}

// ---- required nodes

// Whether a node with this context is required; `way` has the steps to it from there.
pub(crate) fn is_demanded(
    schema: &Schema,
    node: Option<&Arc<Node>>,
    way: &[Step],
    context: Option<u32>,
) -> bool
    requires sound { IsSound (tree_at node) }
    requires number { IfSome context (λ c. c < length schema.now.nodes) }
    ensures { result ≡ spec.is_demanded_by schema.now (seen_in (tree_at node.entry)) way.now context }
{
    match context {
        None => match way {
            [] => false,
            [container, ..] => is_present(child_of(node, container)),
        },
        Some(context) => !is_case(schema.kind(context)) || stands(schema, node, context),
    }
}

fn is_case(kind: Kind) -> bool
    ensures { result ≡ kinds.is_case kind }
{
    kind == Kind::Case
}

// ---- the statements of a node

fn is_required(schema: &Schema, number: u32) -> bool
    requires { number < length schema.now.nodes }
    ensures { result ≡ spec.is_required schema.now number }
{
    schema.is_mandatory(number) && is_leaf_or_choice(schema, number)
}

fn is_leaf_or_choice(schema: &Schema, number: u32) -> bool
    requires { number < length schema.now.nodes }
    ensures { result ≡ (is_kind kinds.is_leaf schema.now number || is_kind kinds.is_choice schema.now number) }
{
    match schema.kind(number) {
        Kind::Leaf | Kind::Choice => true,
        _ => false,
    }
}

pub(crate) fn has_minimum(schema: &Schema, number: u32) -> bool
    requires { number < length schema.now.nodes }
    ensures { result ≡ spec.has_minimum schema.now number }
{
    schema.kind(number).has_entries() && schema.min_elements(number) > 0
}

fn is_choice(kind: Kind) -> bool
    ensures { result ≡ kinds.is_choice kind }
{
    kind == Kind::Choice
}

/// Whether a rule is stated at the node.
pub(crate) fn states(schema: &Schema, number: u32) -> bool
    requires { number < length schema.now.nodes }
    ensures { result ≡ states schema.now number }
{
    is_required(schema, number)
        || has_minimum(schema, number)
        || schema.max_elements(number).is_some()
        || schema.uniques(number).len() > 0
        || is_choice(schema.kind(number))
}

// ---- the rules

/// Whether a mandatory leaf is absent, or a mandatory choice has no node.
pub(crate) fn is_missing(walk: &Walk, place: &Place, number: u32) -> Result<bool, NoMemory>
    requires sound { IsGrove place.now.node.now.value.kids }
    requires number { number < length walk.now.schema.now.nodes }
    ensures { IfOk result (λ b. b ≡ spec.broken walk.now.schema.now (seen_in (Some place.now.node.now.value)) place.now.spot.node (Mandatory number)) }
{
    let schema = walk.schema;
    if !is_required(schema, number) || stand(schema, number) != place.spot.node {
        return Ok(false);
    }
    let way = way(walk.alloc, schema, number)?;
    let demanded = is_demanded(schema, Some(place.node), &way, context(schema, number));
    let there = stands(schema, reached(Some(place.node), &way), number);
    Ok(demanded && !there)
}

/// Whether a list or leaf-list has too few entries.
pub(crate) fn has_too_few(walk: &Walk, place: &Place, number: u32) -> Result<bool, NoMemory>
    requires sound { IsGrove place.now.node.now.value.kids }
    requires number { number < length walk.now.schema.now.nodes }
    ensures { IfOk result (λ b. b ≡ spec.broken walk.now.schema.now (seen_in (Some place.now.node.now.value)) place.now.spot.node (MinElements number)) }
{
    let schema = walk.schema;
    if !has_minimum(schema, number) || stand(schema, number) != place.spot.node {
        return Ok(false);
    }
    let way = way(walk.alloc, schema, number)?;
    if !is_demanded(schema, Some(place.node), &way, context(schema, number)) {
        return Ok(false);
    }
    let list = child_of(reached(Some(place.node), &way), &Step::Node(number));
    let entries = count(walk.alloc, list)?;
    Ok(entries < schema.min_elements(number) as usize)
}

/// Whether a list or leaf-list has too many entries.
pub(crate) fn has_too_many(walk: &Walk, place: &Place, number: u32) -> Result<bool, NoMemory>
    requires sound { IsGrove place.now.node.now.value.kids }
    requires number { number < length walk.now.schema.now.nodes }
    ensures { IfOk result (λ b. b ≡ spec.broken walk.now.schema.now (seen_in (Some place.now.node.now.value)) place.now.spot.node (MaxElements number)) }
{
    let schema = walk.schema;
    if !schema.kind(number).has_entries() || schema.data_parent(number) != place.spot.node {
        return Ok(false);
    }
    let Some(most) = schema.max_elements(number) else {
        return Ok(false);
    };
    let list = child_of(Some(place.node), &Step::Node(number));
    are_above(walk.alloc, list, most as usize)
}

fn one_if_there(schema: &Schema, node: Option<&Arc<Node>>, number: u32) -> usize
    requires sound { IsSound (tree_at node) }
    requires number { number < length schema.now.nodes }
    ensures value { result ≡ (if spec.stands schema.now (seen_in (tree_at node.entry)) number then 1 else 0) }
    ensures few { result ≤ 1 }
{
    if stands(schema, node, number) { 1 } else { 0 }
}

/// Whether two cases of a choice have nodes.
pub(crate) fn has_two_cases(walk: &Walk, place: &Place, number: u32) -> bool
    requires sound { IsGrove place.now.node.now.value.kids }
    requires number { number < length walk.now.schema.now.nodes }
    ensures { result ≡ spec.broken walk.now.schema.now (seen_in (Some place.now.node.now.value)) place.now.spot.node (TwoCases number) }
{
    let schema = walk.schema;
    if schema.kind(number) != Kind::Choice || schema.data_parent(number) != place.spot.node {
        return false;
    }
    let mut present = 0;
    for case in schema.children(Some(number)) {
        present += one_if_there(schema, Some(place.node), *case);
    }
    present >= 2
}
