//! The nodes of members' names, and the members of nodes.
ghost use Rattle.std.specs.Prelude.{◌≡◌, ◌<◌, Some, length, is_some, option_map, option_and_then, IfOk, string_bytes};
ghost use Rattle.serde_json.specs.View.{view, members_view};
ghost use Rattle.serde_json.specs.Find.{get_member};
ghost use Rattle.sal_types.specs.Reading.{GivesUnless};
ghost use Rattle.sal_schema.specs.Names.{child_of};
ghost use Rattle.sal_schema.specs.Table.{module_name};
ghost use Rattle.sal_schema.specs.Lookups as lookups;
ghost use Rattle.sal_data.specs.Members as spec;

use crate::fault::DataFault;
use sal_schema::Schema;
use sal_schema::lookups::{module_at, name_at, own_module, push_full_name};
use sal_types::{Duplicate, NoMemory, Path, Str};
use serde_json::{Map, Value as Json};
use std::alloc::Global;

/// Whether the node's name is written with its module below this parent, or in the top object.
pub(crate) fn is_qualified(schema: &Schema, parent: Option<u32>, node: u32) -> bool
    ensures { result ≡ spec.is_qualified schema.now parent node }
{
    match parent {
        Some(parent) => module_at(schema, node) != module_at(schema, parent),
        None => true,
    }
}

/// Whether the name is written with a module.
fn has_module(name: &str) -> bool
    ensures { result ≡ spec.has_module name.now }
{
    name.as_bytes().iter().any(|c| *c == b':')
}

/// The child of this name in a module, if the name must be written with its module.
fn qualified_child(schema: &Schema, parent: Option<u32>, module: &str, name: &str) -> Option<u32>
    ensures { result ≡ option_and_then (spec.if_qualified schema.now parent) (child_of schema.now parent «module».now name.now) }
{
    match schema.child(parent, module, name) {
        Some(node) if is_qualified(schema, parent, node) => Some(node),
        _ => None,
    }
}

/// The child of this name in the parent's own module.
fn plain_child(schema: &Schema, parent: Option<u32>, name: &str) -> Option<u32>
    ensures { result ≡ spec.plain_child schema.now parent name.now }
{
    match parent {
        Some(node) => schema.child(parent, own_module(schema, node), name),
        None => None,
    }
}

/// The child whose name in the right form this is.
fn child_called(schema: &Schema, parent: Option<u32>, name: &str) -> Option<u32>
    ensures { result ≡ spec.child_called schema.now parent name.now }
{
    match name.split_once(':') {
        Some((module, own)) => qualified_child(schema, parent, module, own),
        None => plain_child(schema, parent, name),
    }
}

/// Whether the module has a child of this name below the node.
fn has_child(schema: &Schema, node: u32, module: u32, name: &str) -> bool
    requires { «module» < length schema.now.modules }
    ensures { result ≡ is_some (child_of schema.now (Some node) (module_name schema.now «module») name.now) }
{
    schema
        .child(Some(node), schema.module_name(module), name)
        .is_some()
}

/// Whether some module has a child of this name below the node.
fn has_child_of_some(schema: &Schema, node: u32, name: &str) -> bool
    ensures { result ≡ spec.is_of_some_module schema.now (Some node) name.now }
{
    for module in 0..schema.modules() {
        if has_child(schema, node, module, name) {
            return true;
        }
    }
    false
}

/// Whether some module has a child of this name below the node, or in the top object any module may.
fn is_of_some_module(schema: &Schema, parent: Option<u32>, name: &str) -> bool
    ensures { result ≡ spec.is_of_some_module schema.now parent name.now }
{
    match parent {
        Some(node) => has_child_of_some(schema, node, name),
        None => true,
    }
}

/// Why the name is not a member of the object at the path.
fn name_fault(
    alloc: Global,
    schema: &Schema,
    parent: Option<u32>,
    path: &Path,
    name: &str,
) -> Result<DataFault, NoMemory>
    ensures { IfOk result (λ fault. fault ≡ spec.name_fault schema.now parent path.now name.now) }
{
    let path = path.copy()?;
    let text = Str::new(alloc, name)?;
    if !has_module(name) && is_of_some_module(schema, parent, name) {
        Ok(DataFault::NeedsModule { path, name: text })
    } else {
        Ok(DataFault::UnknownMember { path, name: text })
    }
}

/// The node that a member of the object at the path denotes.
pub(crate) fn member_node(
    alloc: Global,
    schema: &Schema,
    parent: Option<u32>,
    path: &Path,
    name: &str,
) -> Result<u32, DataFault>
    ensures { GivesUnless DataFault.NoMemory (λ n. n) result (spec.member_node schema.now parent path.now name.now) }
{
    match child_called(schema, parent, name) {
        Some(node) => Ok(node),
        None => Err(name_fault(alloc, schema, parent, path, name)?),
    }
}

/// The name of a node with its module.
pub(crate) fn full_name(alloc: Global, schema: &Schema, node: u32) -> Result<String, NoMemory>
    ensures { IfOk result (λ text. string_bytes text ≡ lookups.full_name schema.now node) }
{
    let mut text = String::new(alloc);
    push_full_name(&mut text, schema, node)?;
    Ok(text)
}

fn member_of<'v>(members: &'v Map<String, Json>, name: &str) -> Option<&'v Json>
    ensures { option_map (λ found. view found.now) result ≡ get_member name.now (members_view members.now.entries) }
{
    members.get(name)
}

/// The member that a node has below a parent.
pub(crate) fn member_for<'v>(
    alloc: Global,
    schema: &Schema,
    parent: Option<u32>,
    members: &'v Map<String, Json>,
    node: u32,
) -> Result<Option<&'v Json>, NoMemory>
    ensures { IfOk result (λ found. option_map (λ json. view json.now) found ≡ get_member (spec.member_name schema.now parent node) (members_view members.now.entries)) }
{
    if is_qualified(schema, parent, node) {
        let name = full_name(alloc, schema, node)?;
        return Ok(member_of(members, name.as_str()));
    }
    Ok(member_of(members, name_at(schema, node)))
}
