//! Frames as text.
ghost use Rattle.std.specs.Prelude.{◌≡◌, ◌++◌, [], ◌∷◌, codes, map, IfOk, OnOk};
ghost use Rattle.serde_json.specs.Data.{array, object, member, no_members};
ghost use Rattle.serde_json.specs.View.{view, items_of};
ghost use Rattle.sal_schema.specs.Paths.{node_from, node_of};
ghost use Rattle.sal_follow.specs.Framed.{IsText};
ghost use Rattle.sal_follow.specs.Written as spec;

use crate::frame::Frame;
use sal_data::write_leaf;
use sal_rows::Patch;
use sal_schema::Schema;
use sal_schema::lookups::keys_at;
use sal_types::{Cell, NoMemory, Path, Step, Value};
use serde_json::{Map, Value as Json};
use std::alloc::Global;

/// The input for writing frames: a schema.
#[derive(Drop)]
pub(crate) struct Writer<'a> {
    pub(crate) alloc: Global,
    pub(crate) schema: &'a Schema,
}

fn push_json(items: &mut Vec<Json>, json: Json) -> Result<(), NoMemory>
    ensures { OnOk result (map view items.new.items ≡ map view items.old.items ++ view json ∷ []) }
{
    items.push(json)?;
    Ok(())
}

// The node after a step.
fn node_behind(here: Option<u32>, step: &Step) -> Option<u32>
    ensures { result ≡ node_from here (step.now ∷ []) }
{
    match step {
        Step::Node(node) => Some(*node),
        _ => here,
    }
}

impl<'a> Writer<'a> {
    // The values of keys.
    fn keys_json(&self, leafs: &[u32], values: &[Value]) -> Result<Json, NoMemory>
        ensures { IfOk result (λ json. view json ≡ array (items_of (spec.keys_json self.now.schema.now leafs.now values.now))) }
    {
        let mut items = Vec::with_capacity(self.alloc, values.len())?;
        for i in 0..leafs.len().min(values.len()) {
            let json = write_leaf(self.alloc, self.schema, leafs[i], &values[i])?;
            push_json(&mut items, json)?;
        }
        Ok(Json::Array(items))
    }

    // An object with the member `item`.
    fn item_json(&self, json: Json) -> Result<Json, NoMemory>
        ensures { IfOk result (λ it. view it ≡ object (member (codes "item") (view json) no_members)) }
    {
        let mut members = Map::new(self.alloc);
        serde_json::put(&mut members, self.alloc, "item", json)?;
        Ok(Json::Object(members))
    }

    // The value of an entry of a leaf-list.
    fn entry_json(&self, here: Option<u32>, value: &Value) -> Result<Json, NoMemory>
        ensures { IfOk result (λ json. view json ≡ spec.value_json self.now.schema.now here value.now) }
    {
        match here {
            Some(node) => write_leaf(self.alloc, self.schema, node, value),
            None => Ok(Json::Null),
        }
    }

    fn step_json(&self, here: Option<u32>, step: &Step) -> Result<Json, NoMemory>
        ensures { IfOk result (λ json. view json ≡ spec.step_json self.now.schema.now here step.now) }
    {
        match (step, here) {
            (Step::Node(node), _) => Ok(Json::from(u64::from(*node))),
            (Step::Key(values), Some(node)) => {
                self.keys_json(keys_at(self.schema, node), values.value().items())
            }
            (Step::Key(_), None) => Ok(Json::Array(Vec::new(self.alloc))),
            (Step::Item(value), _) => {
                let json = self.entry_json(here, value.value())?;
                self.item_json(json)
            }
        }
    }

    fn path_json(&self, path: &Path) -> Result<Json, NoMemory>
        ensures { IfOk result (λ json. view json ≡ spec.path_json self.now.schema.now path.now) }
    {
        let mut items = Vec::with_capacity(self.alloc, path.steps().len())?;
        let mut here = None;
        for step in path.steps() {
            let json = self.step_json(here, step)?;
            push_json(&mut items, json)?;
            here = node_behind(here, step);
        }
        Ok(Json::Array(items))
    }
}

impl<'a> Writer<'a> {
    // A cell at a node, or none.
    fn cell_json(&self, here: Option<u32>, cell: &Option<Cell>) -> Result<Json, NoMemory>
        ensures { IfOk result (λ json. view json ≡ spec.cell_json self.now.schema.now here cell.now) }
    {
        match cell {
            None => Ok(Json::Null),
            Some(Cell::Mark) => Ok(Json::Object(Map::new(self.alloc))),
            Some(Cell::Leaf(value)) => self.entry_json(here, value),
        }
    }

    // A path and a cell.
    fn pair_json(&self, path: Json, cell: Json) -> Result<Json, NoMemory>
        ensures { IfOk result (λ json. view json ≡ array (items_of (view path ∷ view cell ∷ []))) }
    {
        let mut items = Vec::with_capacity(self.alloc, 2)?;
        push_json(&mut items, path)?;
        push_json(&mut items, cell)?;
        Ok(Json::Array(items))
    }

    fn patch_json(&self, patch: &Patch) -> Result<Json, NoMemory>
        ensures { IfOk result (λ json. view json ≡ spec.patch_json self.now.schema.now patch.now) }
    {
        let cell = self.cell_json(node_at_end(patch.path.steps()), &patch.cell)?;
        let path = self.path_json(&patch.path)?;
        self.pair_json(path, cell)
    }

    fn store_json(&self, patches: &[Patch]) -> Result<Json, NoMemory>
        ensures { IfOk result (λ json. view json ≡ spec.store_json self.now.schema.now patches.now) }
    {
        let mut items = Vec::with_capacity(self.alloc, patches.len())?;
        for patch in patches {
            let json = self.patch_json(patch)?;
            push_json(&mut items, json)?;
        }
        Ok(Json::Array(items))
    }

    // The object of a frame.
    fn members_json(&self, commit: u64, config: Json, oper: Json) -> Result<Json, NoMemory>
        ensures { IfOk result (λ json. view json ≡ spec.members_json commit (view config) (view oper)) }
    {
        let mut members = Map::new(self.alloc);
        serde_json::put(&mut members, self.alloc, "commit", Json::from(commit))?;
        serde_json::put(&mut members, self.alloc, "config", config)?;
        serde_json::put(&mut members, self.alloc, "operational", oper)?;
        Ok(Json::Object(members))
    }

    fn frame_json(&self, frame: &Frame) -> Result<Json, NoMemory>
        ensures { IfOk result (λ json. view json ≡ spec.frame_json self.now.schema.now frame.now) }
    {
        let config = self.store_json(frame.config.items())?;
        let oper = self.store_json(frame.oper.items())?;
        self.members_json(frame.commit, config, oper)
    }

    /// The text of a frame.
    pub(crate) fn text(&self, frame: &Frame) -> Result<Vec<u8>, NoMemory>
        ensures text { IfOk result (λ b. b.items ≡ spec.frame_text self.now.schema.now frame.now) }
        ensures reads { IfOk result (λ _. IsText self.now.schema.now frame.now) }
    {
        let json = self.frame_json(frame)?;
        let text = json.to_vec(self.alloc)?;
        Ok(text)
    }
}

// The node at the end of these steps.
fn node_at_end(steps: &[Step]) -> Option<u32>
    ensures { result ≡ node_of steps.now }
{
    let mut here = None;
    for step in steps {
        here = node_behind(here, step);
    }
    here
}
