//! Paths, cells and rows, read from JSON values.
ghost use Rattle.std.specs.Prelude.{◌≡◌, ◌<◌, ◌≤◌, ◌++◌, ◌∷◌, [], codes, length, IfOk, OnOk, option_map};
ghost use Rattle.std.specs.Ordering.{is_lt};
ghost use Rattle.sal_types.specs.Order.{path_cmp};
ghost use Rattle.serde_json.specs.View.{view, number_view, items_view, members_view};
ghost use Rattle.sal_schema.specs.Paths.{node_from};
ghost use Rattle.sal_json.specs.Patterns.{patterns_of};
ghost use Rattle.sal_follow.specs.Frames as spec;

use crate::frame::Frame;
use crate::members::{count_of, data_in, item_of, member_of};
use sal_json::{Patterns, ScalarFault, read_scalar};
use sal_rows::Patch;
use sal_schema::Schema;
use sal_schema::lookups::{is_leaf, keys_at, module_at, type_at};
use sal_types::{Cell, NoMemory, Path, PathFault, Seq, Shared, Step, Value, append};
use serde_json::{Map, Number, Value as Json};
use std::alloc::Global;

/// The input for reading frames: a schema and its patterns.
#[derive(Drop)]
pub(crate) struct Reader<'a> {
    pub(crate) alloc: Global,
    pub(crate) schema: &'a Schema,
    pub(crate) patterns: &'a Patterns,
    ghost compiled: { patterns.now ≡ patterns_of schema.now },
}

fn push(path: &mut Path, step: Step) -> Result<(), NoMemory>
    requires { length path.old < 32 }
    ensures { OnOk result (path.new ≡ path.old ++ step ∷ []) }
{
    match path.push(step) {
        Ok(()) => Ok(()),
        Err(PathFault::NoMemory) => Err(NoMemory),
        Err(PathFault::TooDeep) => unreachable!(),
    }
}

// The step to a node.
fn node_in(number: &Number) -> Option<Step>
    ensures { result ≡ spec.number_step (number_view number.now) }
{
    match number.as_u64() {
        Some(node) if node < 4_294_967_296 => Some(Step::Node(node as u32)),
        _ => None,
    }
}

// The node after a step.
fn node_behind(here: Option<u32>, step: &Step) -> Option<u32>
    ensures { result ≡ node_from here (step.now ∷ []) }
{
    match step {
        Step::Node(node) => Some(*node),
        _ => here,
    }
}

// A mark, from an object without members.
fn mark_of(members: &Map<String, Json>) -> Option<Option<Cell>>
    ensures { result ≡ spec.mark_of (members_view members.now.entries) }
{
    if count_of(members) == 0 {
        Some(Some(Cell::Mark))
    } else {
        None
    }
}

fn mark_in(json: &Json) -> Option<Option<Cell>>
    ensures { result ≡ spec.mark_in (view json.now) }
{
    match json.as_object() {
        Some(members) => mark_of(members),
        None => None,
    }
}

impl<'a> Reader<'a> {
    pub(crate) fn new(alloc: Global, schema: &'a Schema, patterns: &'a Patterns) -> Self
        requires { patterns.now ≡ patterns_of schema.now }
        ensures { result.schema.now ≡ schema.entry.now }
    {
        Reader {
            alloc,
            schema,
            patterns,
        }
    }

    // The value of the type of a leaf or leaf-list, if it is one.
    fn value_at(&self, node: u32, json: &Json) -> Result<Option<Value>, NoMemory>
        ensures { IfOk result (λ o. o ≡ spec.value_at self.now.schema.now node (view json.now)) }
    {
        let Some(ty) = type_at(self.schema, node) else {
            return Ok(None);
        };
        let Some(module) = module_at(self.schema, node) else {
            return Ok(None);
        };
        match read_scalar(self.alloc, self.schema, self.patterns, ty, module, json) {
            Ok(value) => Ok(Some(value)),
            Err(ScalarFault::NoMemory) => Err(NoMemory),
            Err(_) => Ok(None),
        }
    }

    // The values of as many keys.
    fn values_in(&self, leafs: &[u32], items: &[Json]) -> Result<Option<Vec<Value>>, NoMemory>
        requires { length leafs.now ≡ length items.now }
        ensures { IfOk result (λ o. option_map (λ values. values.items) o ≡ spec.keys_in self.now.schema.now leafs.now (items_view items.now)) }
    {
        let mut values = Vec::with_capacity(self.alloc, leafs.len())?;
        for i in 0..leafs.len() {
            match self.value_at(leafs[i], &items[i])? {
                Some(value) => append(&mut values, value)?,
                None => return Ok(None),
            }
        }
        Ok(Some(values))
    }

    // The step to an entry of the list.
    fn key_step(&self, node: u32, items: &[Json]) -> Result<Option<Step>, NoMemory>
        ensures { IfOk result (λ o. o ≡ spec.key_step self.now.schema.now node (items_view items.now)) }
    {
        let leafs = keys_at(self.schema, node);
        if leafs.len() != items.len() {
            return Ok(None);
        }
        match self.values_in(leafs, items)? {
            Some(values) => Ok(Some(Step::Key(Shared::new(self.alloc, Seq::from_items(values))?))),
            None => Ok(None),
        }
    }

    // The step to an entry of the leaf-list.
    fn item_step(&self, node: u32, members: &Map<String, Json>) -> Result<Option<Step>, NoMemory>
        ensures { IfOk result (λ o. o ≡ spec.item_step self.now.schema.now node (members_view members.now.entries)) }
    {
        let Some(json) = item_of(members) else {
            return Ok(None);
        };
        match self.value_at(node, json)? {
            Some(value) => Ok(Some(Step::Item(Shared::new(self.alloc, value)?))),
            None => Ok(None),
        }
    }

    // The step after the node.
    fn step_in(&self, here: Option<u32>, json: &Json) -> Result<Option<Step>, NoMemory>
        ensures { IfOk result (λ o. o ≡ spec.step_in self.now.schema.now here (view json.now)) }
    {
        match (json, here) {
            (Json::Number(number), _) => Ok(node_in(number)),
            (Json::Array(items), Some(node)) => self.key_step(node, items.as_slice()),
            (Json::Object(members), Some(node)) => self.item_step(node, members),
            _ => Ok(None),
        }
    }

    // The steps of up to 32 items.
    fn steps_in(&self, items: &[Json]) -> Result<Option<Path>, NoMemory>
        requires { length items.now ≤ 32 }
        ensures { IfOk result (λ o. o ≡ spec.steps_in self.now.schema.now None (items_view items.now)) }
    {
        let mut path = Path::root(self.alloc);
        let mut here = None;
        for item in items {
            let Some(step) = self.step_in(here, item)? else {
                return Ok(None);
            };
            here = node_behind(here, &step);
            push(&mut path, step)?;
        }
        Ok(Some(path))
    }

    fn path_of(&self, items: &[Json]) -> Result<Option<Path>, NoMemory>
        ensures { IfOk result (λ o. o ≡ spec.path_of self.now.schema.now (items_view items.now)) }
    {
        if items.len() > 32 {
            return Ok(None);
        }
        match self.steps_in(items)? {
            Some(path) if self.schema.fits(&path) => Ok(Some(path)),
            _ => Ok(None),
        }
    }

    // The path of a JSON value.
    fn path_in(&self, json: &Json) -> Result<Option<Path>, NoMemory>
        ensures { IfOk result (λ o. o ≡ spec.path_in self.now.schema.now (view json.now)) }
    {
        match json.as_array() {
            Some(items) => self.path_of(items.as_slice()),
            None => Ok(None),
        }
    }

    // The cell of a leaf.
    fn leaf_in(&self, node: u32, json: &Json) -> Result<Option<Option<Cell>>, NoMemory>
        ensures { IfOk result (λ o. o ≡ option_map spec.leaf_cell (spec.value_at self.now.schema.now node (view json.now))) }
    {
        match self.value_at(node, json)? {
            Some(value) => Ok(Some(Some(Cell::Leaf(value)))),
            None => Ok(None),
        }
    }

    // A cell at the end of the path.
    fn some_cell(&self, path: &Path, json: &Json) -> Result<Option<Option<Cell>>, NoMemory>
        ensures { IfOk result (λ o. o ≡ spec.some_cell self.now.schema.now path.now (view json.now)) }
    {
        match path.steps().last() {
            Some(step) if self.schema.has_mark(step) => Ok(mark_in(json)),
            Some(Step::Node(node)) if is_leaf(self.schema, *node) => self.leaf_in(*node, json),
            _ => Ok(None),
        }
    }

    // A cell at the end of the path, or none.
    fn cell_in(&self, path: &Path, json: &Json) -> Result<Option<Option<Cell>>, NoMemory>
        ensures { IfOk result (λ o. o ≡ spec.cell_in self.now.schema.now path.now (view json.now)) }
    {
        if json.is_null() {
            if self.schema.has_own_row(path) {
                return Ok(Some(None));
            }
            return Ok(None);
        }
        self.some_cell(path, json)
    }
}

fn is_before(first: &Patch, second: &Patch) -> bool
    ensures { result ≡ is_lt (path_cmp first.now.path second.now.path) }
{
    first.path < second.path
}

// Whether each path is greater than the one before it.
fn is_ascending(patches: &[Patch]) -> bool
    ensures { result ≡ spec.is_ascending patches.now }
{
    for i in 1..patches.len() {
        if !is_before(&patches[i - 1], &patches[i]) {
            return false;
        }
    }
    true
}

impl<'a> Reader<'a> {
    // A row by its path and its cell.
    fn pair_in(&self, path: &Json, cell: &Json) -> Result<Option<Patch>, NoMemory>
        ensures { IfOk result (λ o. o ≡ spec.pair_of self.now.schema.now (view path.now) (view cell.now)) }
    {
        let Some(path) = self.path_in(path)? else {
            return Ok(None);
        };
        match self.cell_in(&path, cell)? {
            Some(cell) => Ok(Some(Patch { path, cell })),
            None => Ok(None),
        }
    }

    fn pair_of(&self, items: &[Json]) -> Result<Option<Patch>, NoMemory>
        ensures { IfOk result (λ o. o ≡ spec.pair_in self.now.schema.now (items_view items.now)) }
    {
        if items.len() < 2 {
            return Ok(None);
        }
        if items.len() > 2 {
            return Ok(None);
        }
        match items {
            [path, cell] => self.pair_in(path, cell),
            _ => unreachable!(),
        }
    }

    // A row.
    fn patch_in(&self, json: &Json) -> Result<Option<Patch>, NoMemory>
        ensures { IfOk result (λ o. o ≡ spec.patch_in self.now.schema.now (view json.now)) }
    {
        match json.as_array() {
            Some(items) => self.pair_of(items.as_slice()),
            None => Ok(None),
        }
    }

    // The rows of a store, in any order.
    fn patches_in(&self, items: &[Json]) -> Result<Option<Vec<Patch>>, NoMemory>
        ensures { IfOk result (λ o. option_map (λ patches. patches.items) o ≡ spec.patches_in self.now.schema.now (items_view items.now)) }
    {
        let mut patches = Vec::with_capacity(self.alloc, items.len())?;
        for item in items {
            match self.patch_in(item)? {
                Some(patch) => append(&mut patches, patch)?,
                None => return Ok(None),
            }
        }
        Ok(Some(patches))
    }

    // The rows of a store.
    fn rows_in(&self, items: &[Json]) -> Result<Option<Seq<Patch>>, NoMemory>
        ensures { IfOk result (λ o. o ≡ spec.rows_in self.now.schema.now (items_view items.now)) }
    {
        match self.patches_in(items)? {
            Some(patches) if is_ascending(&patches) => Ok(Some(Seq::from_items(patches))),
            _ => Ok(None),
        }
    }

    // The rows of the member of this name.
    fn store_in(
        &self,
        members: &Map<String, Json>,
        name: &str,
    ) -> Result<Option<Seq<Patch>>, NoMemory>
        ensures { IfOk result (λ o. o ≡ spec.named name.now (members_view members.now.entries) (spec.store_in self.now.schema.now)) }
    {
        let Some(json) = member_of(members, name) else {
            return Ok(None);
        };
        match json.as_array() {
            Some(items) => self.rows_in(items.as_slice()),
            None => Ok(None),
        }
    }

    // The frame of a commit with this number.
    fn stores_in(&self, members: &Map<String, Json>, commit: u64) -> Result<Option<Frame>, NoMemory>
        ensures { IfOk result (λ o. o ≡ spec.stores_in self.now.schema.now (members_view members.now.entries) commit) }
    {
        let Some(config) = self.store_in(members, "config")? else {
            return Ok(None);
        };
        match self.store_in(members, "operational")? {
            Some(oper) => Ok(Some(Frame {
                commit,
                config,
                oper,
            })),
            None => Ok(None),
        }
    }

    fn members_in(&self, members: &Map<String, Json>) -> Result<Option<Frame>, NoMemory>
        ensures { IfOk result (λ o. o ≡ spec.members_in self.now.schema.now (members_view members.now.entries)) }
    {
        if count_of(members) != 3 {
            return Ok(None);
        }
        match number_of(members) {
            Some(commit) => self.stores_in(members, commit),
            None => Ok(None),
        }
    }

    /// The frame of a text, if it is one.
    pub(crate) fn frame_in(&self, text: &[u8]) -> Result<Option<Frame>, NoMemory>
        ensures { IfOk result (λ o. o ≡ spec.frame_in self.now.schema.now text.now) }
    {
        let Some(json) = data_in(self.alloc, text)? else {
            return Ok(None);
        };
        match json.as_object() {
            Some(members) => self.members_in(members),
            None => Ok(None),
        }
    }
}

// The number of a commit.
fn number_of(members: &Map<String, Json>) -> Option<u64>
    ensures { result ≡ spec.named (codes "commit") (members_view members.now.entries) spec.number_in }
{
    match member_of(members, "commit") {
        Some(json) => json.as_u64(),
        None => None,
    }
}
