//! Rows written as a JSON value.
ghost use Rattle.std.specs.Prelude.{◌≡◌, ◌+◌, ◌*◌, ◌≤◌, ◌++◌, [], Some, IfOk, OnOk, map, option_map};
ghost use Rattle.serde_json.specs.Data.{array};
ghost use Rattle.serde_json.specs.View.{view, members_view, items_of};
ghost use Rattle.sal_types.specs.declared.value.Step.TheVariants.{Item};
ghost use Rattle.sal_schema.specs.Paths.{last_step};
ghost use Rattle.sal_data.specs.Written as spec;

use crate::ends::node_at_end;
use crate::runs::{first_run, step_of, under};
use crate::written_names::put_member;
use sal_json::write_scalar;
use sal_rows::Rows;
use sal_schema::Schema;
use sal_schema::lookups::{is_leaf, is_leaf_list, is_list, module_at, type_at};
use sal_types::{Cell, NoMemory, Path, Row, Step, Value};
use serde_json::{Map, Value as Json};
use std::alloc::Global;

/// The largest number of levels of nodes: a path has at most 32 steps.
const MAX_LEVELS: u32 = 32;

/// The JSON value of a value of a leaf, or of an entry of a leaf-list; null for a node that is neither.
///
/// It costs what `write_scalar` does.
#[tactic(auto, unfolding(crate::specs::Written::scalar_json))]
pub fn write_leaf(
    alloc: Global,
    schema: &Schema,
    node: u32,
    value: &Value,
) -> Result<Json, NoMemory>
    ensures { IfOk result (λ json. view json ≡ spec.scalar_json schema.now node value.now) }
{
    match (type_at(schema, node), module_at(schema, node)) {
        (Some(ty), Some(module)) => write_scalar(alloc, schema, ty, module, value),
        _ => Ok(Json::Null),
    }
}

/// The input for writing rows: a schema.
///
/// Below, `k` is the number of steps to a place, and `levels` the largest number of levels of nodes below it.
#[derive(Drop)]
struct Writer<'a> {
    alloc: Global,
    schema: &'a Schema,
}

impl<'a> Writer<'a> {
    /// The value of a leaf, from its row.
    fn leaf_json(&self, node: u32, rows: &[Row]) -> Result<Json, NoMemory>
        ensures { IfOk result (λ json. view json ≡ spec.leaf_json self.now.schema.now node rows.now) }
    {
        match rows {
            [] => Ok(Json::Null),
            [row, ..] => match &row.cell {
                Cell::Mark => Ok(Json::Null),
                Cell::Leaf(value) => write_leaf(self.alloc, self.schema, node, value),
            },
        }
    }

    /// One more item: the value of an entry of a leaf-list.
    fn push_item(
        &self,
        items: &mut Vec<Json>,
        node: u32,
        step: Option<&Step>,
    ) -> Result<(), NoMemory>
        ensures { OnOk result (map view items.new.items ≡ map view items.old.items ++ spec.item_json self.now.schema.now node (option_map (λ s. s.now) step.entry)) }
    {
        match step {
            Some(Step::Item(value)) => {
                let json = write_leaf(self.alloc, self.schema, node, value.value())?;
                items.push(json)?;
                Ok(())
            }
            _ => Ok(()),
        }
    }

    /// The values of the entries of a leaf-list.
    fn items_json(&self, node: u32, k: usize, rows: &[Row]) -> Result<Json, NoMemory>
        ensures { IfOk result (λ json. view json ≡ array (items_of (spec.items_json self.now.schema.now node k (spec.runs_of k rows.now)))) }
    {
        let mut items = Vec::new(self.alloc);
        let mut rest = rows;
        'runs: while !rest.is_empty() {
            let (run, behind) = first_run(rest, k);
            self.push_item(&mut items, node, step_of(run, k))?;
            rest = behind;
        }
        Ok(Json::Array(items))
    }

    /// The value of a node, below which rows are at most `levels` nodes deep.
    #[cycle(tree)]
    fn node_json(&self, levels: u32, node: u32, k: usize, rows: &[Row]) -> Result<Json, NoMemory>
        requires { k + 2 * levels ≤ 100 }
        ensures { IfOk result (λ json. view json ≡ spec.node_json levels self.now.schema.now node k rows.now) }
    {
        if levels == 0 {
            return Ok(Json::Null);
        }
        if is_leaf(self.schema, node) {
            self.leaf_json(node, rows)
        } else if is_leaf_list(self.schema, node) {
            self.items_json(node, k, rows)
        } else if is_list(self.schema, node) {
            self.entries_json(levels - 1, node, k, rows)
        } else {
            self.members_json(levels - 1, Some(node), k, rows)
        }
    }

    /// An object with a member for each child that has a row at it or below it.
    #[cycle(tree)]
    fn members_json(
        &self,
        levels: u32,
        parent: Option<u32>,
        k: usize,
        rows: &[Row],
    ) -> Result<Json, NoMemory>
        requires { k + 2 * levels + 1 ≤ 100 }
        ensures { IfOk result (λ json. view json ≡ spec.members_json self.now.schema.now parent (spec.node_json levels self.now.schema.now) k rows.now) }
    {
        let mut members = Map::new(self.alloc);
        let mut rest = rows;
        'runs: while !rest.is_empty() {
            let (run, behind) = first_run(rest, k);
            self.add_run(&mut members, levels, parent, k, run)?;
            rest = behind;
        }
        Ok(Json::Object(members))
    }

    /// The members with that of a run.
    #[cycle(tree)]
    fn add_run(
        &self,
        members: &mut Map<String, Json>,
        levels: u32,
        parent: Option<u32>,
        k: usize,
        run: &[Row],
    ) -> Result<(), NoMemory>
        requires { k + 2 * levels + 1 ≤ 100 }
        ensures { OnOk result (members_view members.new.entries ≡ spec.with_run self.now.schema.now parent (spec.node_json levels self.now.schema.now) k (members_view members.old.entries) run.now) }
    {
        match step_of(run, k) {
            Some(Step::Node(node)) => {
                let value = self.node_json(levels, *node, k + 1, run)?;
                put_member(members, self.alloc, self.schema, parent, *node, value)
            }
            _ => Ok(()),
        }
    }

    /// The values of the entries of a list.
    #[cycle(tree)]
    fn entries_json(&self, levels: u32, node: u32, k: usize, rows: &[Row]) -> Result<Json, NoMemory>
        requires { k + 2 * levels + 2 ≤ 100 }
        ensures { IfOk result (λ json. view json ≡ array (items_of (spec.entries_json self.now.schema.now node (spec.node_json levels self.now.schema.now) k (spec.runs_of k rows.now)))) }
    {
        let mut entries = Vec::new(self.alloc);
        let mut rest = rows;
        'runs: while !rest.is_empty() {
            let (run, behind) = first_run(rest, k);
            self.push_entry(&mut entries, levels, node, k, run)?;
            rest = behind;
        }
        Ok(Json::Array(entries))
    }

    /// One more item: the value of an entry of a list.
    #[cycle(tree)]
    fn push_entry(
        &self,
        entries: &mut Vec<Json>,
        levels: u32,
        node: u32,
        k: usize,
        run: &[Row],
    ) -> Result<(), NoMemory>
        requires { k + 2 * levels + 2 ≤ 100 }
        ensures { OnOk result (map view entries.new.items ≡ map view entries.old.items ++ spec.entry_json self.now.schema.now node (spec.node_json levels self.now.schema.now) k (spec.step_of k run.now) run.now) }
    {
        match step_of(run, k) {
            Some(Step::Key(_)) => {
                let json = self.members_json(levels, Some(node), k + 1, run)?;
                entries.push(json)?;
                Ok(())
            }
            _ => Ok(()),
        }
    }

    /// The value of an entry of a leaf-list.
    fn item_at(&self, path: &Path, value: &Value) -> Result<Json, NoMemory>
        ensures { IfOk result (λ json. view json ≡ spec.json_at self.now.schema.now path.now (Some (Item value.now)) []) }
    {
        match node_at_end(path.steps()) {
            Some(node) => write_leaf(self.alloc, self.schema, node, value),
            None => Ok(Json::Null),
        }
    }

    /// The value of these rows, which are at the path and below it.
    fn json_at(&self, path: &Path, rows: &[Row]) -> Result<Json, NoMemory>
        ensures { IfOk result (λ json. view json ≡ spec.json_at self.now.schema.now path.now (last_step path.now) rows.now) }
    {
        let k = path.steps().len();
        match path.steps().last() {
            None => self.members_json(MAX_LEVELS, None, 0, rows),
            Some(Step::Node(node)) => self.node_json(MAX_LEVELS, *node, k, rows),
            Some(Step::Key(_)) => self.members_json(MAX_LEVELS, node_at_end(path.steps()), k, rows),
            Some(Step::Item(value)) => self.item_at(path, value.value()),
        }
    }
}

/// The JSON value of the rows at the path and below it (RFC 7951 sections 4 to 6).
///
/// At the root it is the top object, at a node the value of its member, and at an entry of a list or leaf-list the item. It
/// takes time linear in the rows and the steps of their paths, and the cost of their values and the members' names. The other
/// rows of the tree are skipped.
pub fn write_data(
    alloc: Global,
    schema: &Schema,
    path: &Path,
    rows: &Rows,
) -> Result<Json, NoMemory>
    ensures { IfOk result (λ json. view json ≡ spec.write_data schema.now path.now rows.now) }
{
    let writer = Writer { alloc, schema };
    writer.json_at(path, under(rows.items(), path))
}
