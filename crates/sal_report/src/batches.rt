//! The parts of a listener's batch as JSON texts. Each function appends to the text, and copies no change.
ghost use Rattle.std.specs.Prelude.{◌≡◌, ◌∷◌, ◌++◌, ◌<◌, IfOk, IfSome, OnOk, length, option_map, string_bytes};
ghost use Rattle.serde_json.specs.View.{view};
ghost use Rattle.serde_json.specs.Written.{compact_text};
ghost use Rattle.sal_schema.specs.Paths.{last_step};
ghost use Rattle.sal_schema.specs.Table.{type_of};
ghost use Rattle.sal_data.specs.Written.{scalar_json};
ghost use Rattle.sal_script.specs.BatchData as spec;

use crate::arrays::{Item, push_array};
use crate::pieces::{Pushed, push_location};
use crate::words::candidate_word;
use sal_json::write_scalar;
use sal_rows::{Change, Part};
use sal_schema::Schema;
use sal_tree_text::push_value;
use sal_types::{Cell, NoMemory, Path, Step, Value, push_word};
use serde_json::Value as Json;
use std::alloc::Global;

// The changes of one commit.
impl Item for Part {
    ghost json = { spec.part_data };

    fn push_item(&self, alloc: Global, text: &mut String, schema: &Schema) -> Pushed {
        write!(text, "[{},", self.commit)?;
        text.push_str(candidate_word(self.kind))?;
        text.push(',')?;
        push_array(alloc, text, schema, self.list.items())?;
        push_word(text, "]")
    }
}

// The path of a change, with the cells before and after it.
impl Item for Change {
    ghost json = { spec.change_data };

    fn push_item(&self, alloc: Global, text: &mut String, schema: &Schema) -> Pushed {
        text.push('[')?;
        push_location(alloc, text, schema, &self.path)?;
        push_cell(alloc, text, schema, &self.path, &self.before)?;
        push_cell(alloc, text, schema, &self.path, &self.after)?;
        push_word(text, "]")
    }
}

// A comma and a cell at the path.
fn push_cell(
    alloc: Global,
    text: &mut String,
    schema: &Schema,
    path: &Path,
    cell: &Option<Cell>,
) -> Pushed
    ensures { OnOk result (string_bytes text.new ≡ string_bytes text.old ++ (44 ∷ compact_text (spec.cell_data schema.now path.now cell.now))) }
{
    match cell {
        None => push_word(text, ",null"),
        Some(Cell::Mark) => push_word(text, ",{}"),
        Some(Cell::Leaf(value)) => {
            text.push(',')?;
            push_leaf(alloc, text, schema, path, value)
        }
    }
}

// The value of a leaf at the end of the path.
fn push_leaf(
    alloc: Global,
    text: &mut String,
    schema: &Schema,
    path: &Path,
    value: &Value,
) -> Pushed
    ensures { OnOk result (string_bytes text.new ≡ string_bytes text.old ++ compact_text (spec.leaf_data schema.now (last_step path.now) value.now)) }
{
    let json = leaf_json(alloc, schema, path.steps().last(), value)?;
    push_value(alloc, text, &json)
}

// The value of a leaf whose path ends with this step.
fn leaf_json(
    alloc: Global,
    schema: &Schema,
    step: Option<&Step>,
    value: &Value,
) -> Result<Json, NoMemory>
    ensures { IfOk result (λ json. view json ≡ spec.leaf_data schema.now (option_map (λ s. s.now) step.entry) value.now) }
{
    match step {
        Some(Step::Node(node)) => node_json(alloc, schema, *node, value),
        _ => Ok(Json::Null),
    }
}

// The type of a leaf or leaf-list.
fn type_at(schema: &Schema, node: u32) -> Option<u32>
    ensures ty { result ≡ type_of schema.now node }
    ensures within { IfSome result (λ ty. ty < length schema.now.types) }
    ensures there { IfSome result (λ _. node < length schema.now.nodes) }
{
    if node < schema.len() {
        schema.type_of(node)
    } else {
        None
    }
}

// The value of a leaf of the schema.
#[tactic(auto, unfolding(sal_data::specs::Written::scalar_json))]
fn node_json(alloc: Global, schema: &Schema, node: u32, value: &Value) -> Result<Json, NoMemory>
    ensures { IfOk result (λ json. view json ≡ scalar_json schema.now node value.now) }
{
    match type_at(schema, node) {
        Some(ty) => write_scalar(alloc, schema, ty, schema.module_of(node), value),
        None => Ok(Json::Null),
    }
}
