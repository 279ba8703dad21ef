//! Which nodes of a schema are checked at which places: a list for each place's node.
ghost use Rattle.std.specs.Prelude.{◌≡◌, ◌<◌, ◌+◌, ◌||◌, ◌++◌, ◌∷◌, [], ℕ, length, IfOk, OnOk, nat_eq, slice_index_or, if◌then◌else◌};
ghost use Rattle.std.specs.List.{All};
ghost use Rattle.std.specs.declared.alloc.Global.{Global as Heap};
ghost use Rattle.std.specs.declared.vec.Vec.{Vec as Vector};
ghost use Rattle.sal_check.specs.Nodes.{slot, judged, AreJudged};

use crate::climb::stand;
use crate::rules::states;
use sal_schema::{Schema, add_to_list, empty_lists};
use sal_types::NoMemory;
use std::alloc::Global;

/// For the root, and then for each node, the nodes that are checked at its place: those that state a rule.
#[derive(Drop)]
pub(crate) struct Lists {
    pub(crate) lists: Vec<Vec<u32>>,
    /// Whether one of them has a node.
    pub(crate) any: bool,
}

// Adds the number to two lists, or once if they are the same.
fn add_to_both(
    lists: &mut Vec<Vec<u32>>,
    at: usize,
    other: usize,
    number: u32,
) -> Result<(), NoMemory>
    requires at { at < length lists.old.items }
    requires other { other < length lists.old.items }
    ensures count { OnOk result (length lists.new.items ≡ length lists.old.items) }
    ensures added { OnOk result ((k : ℕ) (d : Vector ℕ Heap) → k < length lists.old.items → (slice_index_or lists.new.items k d).items ≡ (slice_index_or lists.old.items k d).items ++ (if nat_eq at k || nat_eq other k then number ∷ [] else [])) }
{
    add_to_list(lists, at, number)?;
    if other != at {
        add_to_list(lists, other, number)?;
    }
    Ok(())
}

fn slot(node: Option<u32>) -> usize
    ensures { result ≡ slot node }
{
    match node {
        None => 0,
        Some(node) => node as usize + 1,
    }
}

impl Lists {
    /// The lists of a schema.
    pub(crate) fn of(alloc: Global, schema: &Schema) -> Result<Lists, NoMemory>
        ensures { IfOk result (λ made. AreJudged schema.now made.lists.items made.any) }
    {
        let mut lists = empty_lists(alloc, schema.len() as usize + 1)?;
        let mut any = false;
        for number in 0..schema.len() {
            if !states(schema, number) {
                continue;
            }
            any = true;
            let stand = slot(stand(schema, number));
            let parent = slot(schema.data_parent(number));
            add_to_both(&mut lists, stand, parent, number)?;
        }
        Ok(Lists { lists, any })
    }

    /// The nodes that are checked at the place of this one.
    pub(crate) fn judged(&self, schema: &Schema, at: Option<u32>) -> &[u32]
        requires { AreJudged schema.now self.now.lists.items self.now.any }
        ensures numbers { result.now ≡ judged schema.now at }
        ensures within { All (λ n. n < length schema.now.nodes) result.now }
    {
        let slot = slot(at);
        if slot < self.lists.len() {
            &self.lists[slot]
        } else {
            &[]
        }
    }
}
