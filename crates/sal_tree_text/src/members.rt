//! Children of a node in the order of their names, as the members of an object.
ghost use Rattle.std.specs.Prelude.{◌≡◌, IfOk, OnOk, string_bytes};
ghost use Rattle.std.specs.BTreeMap.{values};
ghost use Rattle.sal_data.specs.Members as names;
ghost use Rattle.sal_node.specs.Shape.{seen};
ghost use Rattle.sal_tree_text.specs.Named.{AreNamed, members_named};
ghost use Rattle.sal_tree_text.specs.Trees.{Teller};
ghost use Rattle.sal_tree_text.specs.Trees as spec;

use sal_node::Child;
use sal_schema::Schema;
use sal_schema::lookups::{module_at, name_at, push_full_name};
use sal_types::{NoMemory, Step};
use std::alloc::Global;
use std::collections::BTreeMap;

/// Whether the node's name is written with its module below this parent, or in the top object.
pub(crate) fn is_qualified(schema: &Schema, parent: Option<u32>, node: u32) -> bool
    ensures { result ≡ names.is_qualified schema.now parent node }
{
    match parent {
        Some(parent) => module_at(schema, node) != module_at(schema, parent),
        None => true,
    }
}

/// The children that denote nodes in the order of their names below this parent, each name once.
pub(crate) fn in_name_order<'a>(
    alloc: Global,
    schema: &Schema,
    parent: Option<u32>,
    children: Vec<&'a Child>,
) -> Result<Vec<&'a Child>, NoMemory>
    ensures { (f : Teller) → IfOk result (λ list. spec.members_in schema.now parent f (seen list.items) ≡ spec.members_by_name schema.now parent f (seen children.entry.items)) }
{
    if do_names_rise(schema, &children) {
        return Ok(children);
    }
    by_name(alloc, schema, parent, &children)
}

/// Whether the children denote nodes of one module, in the order of their names.
fn do_names_rise(schema: &Schema, children: &[&Child]) -> bool
    ensures { result ≡ spec.do_names_rise schema.now (seen children.now) }
{
    for i in 1..children.len() {
        if !is_before(schema, &children[i - 1].step, &children[i].step) {
            return false;
        }
    }
    true
}

/// Whether the steps lead to nodes of one module, and the name of the first comes before that of the second.
fn is_before(schema: &Schema, first: &Step, second: &Step) -> bool
    ensures { result ≡ spec.is_before schema.now first.now second.now }
{
    match (first, second) {
        (Step::Node(a), Step::Node(b)) => {
            module_at(schema, *a) == module_at(schema, *b)
                && name_at(schema, *a).cmp(name_at(schema, *b)).is_lt()
        }
        _ => false,
    }
}

/// The children by their names: a later one replaces an earlier one of the same name.
fn by_name<'a>(
    alloc: Global,
    schema: &Schema,
    parent: Option<u32>,
    children: &[&'a Child],
) -> Result<Vec<&'a Child>, NoMemory>
    ensures { (f : Teller) → IfOk result (λ list. spec.members_in schema.now parent f (seen list.items) ≡ spec.members_by_name schema.now parent f (seen children.now)) }
{
    let mut named = BTreeMap::new(alloc);
    for child in children {
        add_child(alloc, &mut named, schema, parent, *child)?;
    }
    children_of(alloc, named)
}

/// The children of a map, in the order of their names.
fn children_of<'a>(
    alloc: Global,
    named: BTreeMap<String, &'a Child>,
) -> Result<Vec<&'a Child>, NoMemory>
    ensures { IfOk result (λ list. list.items ≡ values named.entry) }
{
    let list = named.into_values().collect(alloc)?;
    Ok(list)
}

fn add_child<'x, 'a>(
    alloc: Global,
    named: &'x mut BTreeMap<String, &'a Child>,
    schema: &Schema,
    parent: Option<u32>,
    child: &'a Child,
) -> Result<(), NoMemory>
    requires named { AreNamed schema.now parent named.old.entries }
    ensures named { OnOk result (AreNamed schema.now parent named.new.entries) }
    ensures members { (f : Teller) → OnOk result (members_named f named.new.entries ≡ spec.with_child schema.now parent f (members_named f named.old.entries) child.entry.now.step child.entry.now.node.value) }
{
    match &child.step {
        Step::Node(node) => {
            let name = member_name(alloc, schema, parent, *node)?;
            named.insert(name, child)?;
            Ok(())
        }
        _ => Ok(()),
    }
}

/// The name of the member for a node.
pub(crate) fn member_name(
    alloc: Global,
    schema: &Schema,
    parent: Option<u32>,
    node: u32,
) -> Result<String, NoMemory>
    ensures { IfOk result (λ name. string_bytes name ≡ names.member_name schema.now parent node) }
{
    let mut name = String::new(alloc);
    if is_qualified(schema, parent, node) {
        push_full_name(&mut name, schema, node)?;
    } else {
        name.push_str(name_at(schema, node))?;
    }
    Ok(name)
}
