//! Rows from JSON values.
ghost use Rattle.std.specs.Prelude.{◌≡◌, IfOk};
ghost use Rattle.serde_json.specs.View.{view};
ghost use Rattle.sal_types.specs.Reading.{GivesUnless};
ghost use Rattle.sal_schema.specs.Paths.{last_step};
ghost use Rattle.sal_json.specs.Patterns.{patterns_of};
ghost use Rattle.sal_data.specs.Read as spec;

use crate::ends::node_at_end;
use crate::entries::{mark, path_of};
use crate::fault::DataFault;
use crate::order::in_order;
use crate::reader::Reader;
use sal_json::Patterns;
use sal_rows::Rows;
use sal_schema::Schema;
use sal_types::{Duplicate, NoMemory, Path, Row, Step};
use serde_json::Value as Json;
use std::alloc::Global;

/// The path of an entry of a list or leaf-list, and its last step.
#[derive(Drop)]
struct EntryAt<'p> {
    node: u32,
    path: &'p Path,
    step: &'p Step,
}

fn before_last(alloc: Global, path: &Path) -> Result<Path, NoMemory>
    ensures { IfOk result (λ front. front ≡ spec.before_last path.now) }
{
    let steps = path.steps();
    path_of(alloc, &steps[..steps.len().saturating_sub(1)])
}

/// Whether the step is the requested one.
fn is_asked(asked: &Step, step: Step) -> bool
    ensures { result ≡ spec.same_step step asked.now }
{
    step == *asked
}

impl<'a> Reader<'a> {
    /// The step to the list entry at the path, by the keys in the JSON value. The path of the list is made for a fault alone.
    fn entry_step(&self, node: u32, path: &Path, json: &Json) -> Result<Step, DataFault>
        ensures { GivesUnless DataFault.NoMemory (λ step. step) result (spec.key_step self.now.schema.now node (spec.before_last path.now) (view json.now)) }
    {
        if let Ok(step) = self.key_step(node, path, json) {
            return Ok(step);
        }
        let list = before_last(self.alloc, path)?;
        self.key_step(node, &list, json)
    }

    /// The step to the leaf-list entry at the path, by the JSON value. The path of the leaf-list is made for a fault alone.
    #[tactic(auto, using(crate::proofs::AnyPath::items_anywhere))]
    fn value_step(&self, node: u32, path: &Path, json: &Json) -> Result<Step, DataFault>
        ensures { GivesUnless DataFault.NoMemory (λ step. step) result (spec.item_step self.now.schema.now node (spec.before_last path.now) (view json.now)) }
    {
        if let Ok(step) = self.item_step(node, path, json) {
            return Ok(step);
        }
        let list = before_last(self.alloc, path)?;
        self.item_step(node, &list, json)
    }

    /// Appends the rows of the list entry at the path.
    fn entry_rows(&self, at: &EntryAt, json: &Json, out: &mut Vec<Row>) -> Result<(), DataFault>
        ensures { GivesUnless DataFault.NoMemory (λ _. out.new.items) result (spec.followed out.old.items (spec.entry_rows self.now.schema.now at.now.path.now at.now.step.now (view json.now) at.now.node)) }
    {
        let step = self.entry_step(at.node, at.path, json)?;
        if !is_asked(at.step, step) {
            return Err(DataFault::KeyDiffers {
                path: at.path.copy()?,
            });
        }
        mark(at.path, out)?;
        self.object_rows(Some(at.node), at.path, json, out)
    }

    /// Appends the row of the leaf-list entry at the path.
    fn item_rows(&self, at: &EntryAt, json: &Json, out: &mut Vec<Row>) -> Result<(), DataFault>
        ensures { GivesUnless DataFault.NoMemory (λ _. out.new.items) result (spec.followed out.old.items (spec.item_rows self.now.schema.now at.now.path.now at.now.step.now (view json.now) at.now.node)) }
    {
        let step = self.value_step(at.node, at.path, json)?;
        if !is_asked(at.step, step) {
            return Err(DataFault::KeyDiffers {
                path: at.path.copy()?,
            });
        }
        mark(at.path, out)?;
        Ok(())
    }

    /// Appends the rows of the data at the path.
    fn rows_at(&self, path: &Path, json: &Json, out: &mut Vec<Row>) -> Result<(), DataFault>
        ensures { GivesUnless DataFault.NoMemory (λ _. out.new.items) result (spec.followed out.old.items (spec.rows_at self.now.schema.now path.now (last_step path.now) (view json.now))) }
    {
        match (path.steps().last(), node_at_end(path.steps())) {
            (None, _) => self.object_rows(None, path, json, out),
            (Some(Step::Node(node)), _) => self.node_rows(*node, path.copy()?, json, out),
            (Some(step @ Step::Key(_)), Some(node)) => {
                self.entry_rows(&EntryAt { node, path, step }, json, out)
            }
            (Some(step @ Step::Item(_)), Some(node)) => {
                self.item_rows(&EntryAt { node, path, step }, json, out)
            }
            (Some(_), None) => Err(DataFault::WrongShape { path: path.copy()? }),
        }
    }
}

/// The rows that a JSON value at a path denotes, in the order of their paths, or its first fault.
///
/// It takes time linear in the JSON value and n log n comparisons of paths for n rows, a binary search for each name
/// and each entry, and the time of `read_scalar` for each value.
pub fn read_data(
    alloc: Global,
    schema: &Schema,
    patterns: &Patterns,
    path: &Path,
    json: &Json,
) -> Result<Rows, DataFault>
    requires { patterns.now ≡ patterns_of schema.now }
    ensures { GivesUnless DataFault.NoMemory (λ rows. rows) result (spec.read_data schema.now path.now (view json.now)) }
{
    let reader = Reader::new(alloc, schema, patterns);
    let mut rows = Vec::new(alloc);
    reader.rows_at(path, json, &mut rows)?;
    Ok(in_order(alloc, rows)?)
}
