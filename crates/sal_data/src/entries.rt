//! Entries of lists and leaf-lists: the steps to them.
ghost use Rattle.std.specs.Prelude.{◌≡◌, ◌≤◌, ◌∷◌, ◌++◌, [], IfOk, OnOk, length};
ghost use Rattle.serde_json.specs.View.{view, items_view, members_view};
ghost use Rattle.sal_types.specs.declared.value.Cell.TheVariants.{Mark};
ghost use Rattle.sal_types.specs.Reading.{GivesUnless};
ghost use Rattle.sal_data.specs.Read as spec;
ghost use Rattle.sal_data.specs.Walked.{HaveSame, new_entry};

use crate::fault::DataFault;
use crate::members::member_for;
use crate::reader::Reader;
use crate::seen::Seen;
use sal_schema::lookups::keys_at;
use sal_types::{Cell, Duplicate, NoMemory, Path, PathFault, Row, Seq, Shared, Step, Value};
use serde_json::{Map, Value as Json};
use std::alloc::Global;

/// The path with these steps, with a capacity that is little more than its steps.
pub(crate) fn path_of(alloc: Global, steps: &[Step]) -> Result<Path, NoMemory>
    requires { length steps.now ≤ 32 }
    ensures { IfOk result (λ path. path ≡ steps.now) }
{
    let mut path = Path::root(alloc);
    for step in steps {
        match path.push(step.copy()?) {
            Ok(()) => (),
            Err(PathFault::NoMemory) => return Err(NoMemory),
            Err(PathFault::TooDeep) => unreachable!(),
        }
    }
    Ok(path)
}

/// The path with one more step. A copy with one more pushed would have twice the capacity that it needs.
pub(crate) fn longer(alloc: Global, path: &Path, step: Step) -> Result<Path, DataFault>
    ensures { GivesUnless DataFault.NoMemory (λ below. below) result (spec.longer path.now step) }
{
    let mut below = path_of(alloc, path.steps())?;
    match below.push(step) {
        Ok(()) => Ok(below),
        Err(PathFault::TooDeep) => Err(DataFault::TooDeep { path: below }),
        Err(PathFault::NoMemory) => Err(DataFault::NoMemory),
    }
}

/// Appends the mark of the node or entry at the path.
pub(crate) fn mark(path: &Path, out: &mut Vec<Row>) -> Result<(), NoMemory>
    ensures { OnOk result (out.new.items ≡ out.old.items ++ record { path = path.now; cell = Mark } ∷ []) }
{
    out.push(Row {
        path: path.copy()?,
        cell: Cell::Mark,
    })?;
    Ok(())
}

fn append(values: &mut Vec<Value>, value: Value) -> Result<(), NoMemory>
    ensures { OnOk result (values.new.items ≡ values.old.items ++ value ∷ []) }
{
    values.push(value)?;
    Ok(())
}

fn longer_by(alloc: Global, path: &Path, step: &Step) -> Result<Path, DataFault>
    ensures { GivesUnless DataFault.NoMemory (λ below. below) result (spec.longer path.now step.now) }
{
    longer(alloc, path, step.copy()?)
}

/// The path of the entry, which must not be among those seen; it then is.
pub(crate) fn entered(
    alloc: Global,
    path: &Path,
    step: Step,
    seen: &mut Seen,
) -> Result<Path, DataFault>
    ensures value { GivesUnless DataFault.NoMemory (λ below. below) result (new_entry seen.old path.now step) }
    ensures one_more { OnOk result (HaveSame seen.new (step ∷ seen.old)) }
{
    let below = longer_by(alloc, path, &step)?;
    if seen.add(alloc, step)? {
        Ok(below)
    } else {
        Err(DataFault::DoubleEntry { path: below })
    }
}

impl<'a> Reader<'a> {
    fn key_value(
        &self,
        node: u32,
        path: &Path,
        members: &Map<String, Json>,
        leaf: u32,
    ) -> Result<Value, DataFault>
        ensures { GivesUnless DataFault.NoMemory (λ value. value) result (spec.key_value self.now.schema.now node path.now (members_view members.now.entries) leaf) }
    {
        match member_for(self.alloc, self.schema, Some(node), members, leaf) {
            Ok(Some(json)) => self.value_at(path, leaf, json),
            Ok(None) => Err(DataFault::MissingKey { path: path.copy()? }),
            Err(NoMemory) => Err(DataFault::NoMemory),
        }
    }

    /// The values of these keys, in order.
    fn key_values(
        &self,
        node: u32,
        path: &Path,
        members: &Map<String, Json>,
        keys: &[u32],
    ) -> Result<Vec<Value>, DataFault>
        ensures { GivesUnless DataFault.NoMemory (λ values. values.items) result (spec.key_values self.now.schema.now node path.now (members_view members.now.entries) keys.now) }
    {
        let mut values = Vec::with_capacity(self.alloc, keys.len())?;
        for key in keys {
            let value = self.key_value(node, path, members, *key)?;
            append(&mut values, value)?;
        }
        Ok(values)
    }

    /// The step to an entry of the list at the path.
    pub(crate) fn key_step(&self, node: u32, path: &Path, json: &Json) -> Result<Step, DataFault>
        ensures { GivesUnless DataFault.NoMemory (λ step. step) result (spec.key_step self.now.schema.now node path.now (view json.now)) }
    {
        let Some(members) = json.as_object() else {
            return Err(DataFault::WrongShape { path: path.copy()? });
        };
        let values = self.key_values(node, path, members, keys_at(self.schema, node))?;
        Ok(Step::Key(Shared::new(self.alloc, Seq::from_items(values))?))
    }

    /// The step to an entry of the leaf-list at the path.
    pub(crate) fn item_step(&self, node: u32, path: &Path, json: &Json) -> Result<Step, DataFault>
        ensures { GivesUnless DataFault.NoMemory (λ step. step) result (spec.item_step self.now.schema.now node path.now (view json.now)) }
    {
        let value = self.value_at(path, node, json)?;
        Ok(Step::Item(Shared::new(self.alloc, value)?))
    }

    /// Appends the entries of the leaf-list at the path; `seen` has the entries before these.
    pub(crate) fn items_rows(
        &self,
        node: u32,
        path: &Path,
        items: &Vec<Json>,
        seen: &mut Seen,
        out: &mut Vec<Row>,
    ) -> Result<(), DataFault>
        ensures { GivesUnless DataFault.NoMemory (λ _. out.new.items) result (spec.followed out.old.items (spec.items_rows self.now.schema.now node path.now seen.old (items_view items.now.items))) }
    {
        for item in items {
            let step = self.item_step(node, path, item)?;
            let below = entered(self.alloc, path, step, seen)?;
            mark(&below, out)?;
        }
        Ok(())
    }
}
