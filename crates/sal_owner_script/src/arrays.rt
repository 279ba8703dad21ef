//! Arrays of JSON. Each function appends to the text, and copies no item.
ghost use Rattle.std.specs.Prelude.{◌≡◌, ◌∷◌, ◌++◌, OnOk, map, string_bytes};
ghost use Rattle.std.specs.List.{flat_map};
ghost use Rattle.json.specs.Print.{quoted};
ghost use Rattle.serde_json.specs.Data.{Data, boolean};
ghost use Rattle.serde_json.specs.Written.{compact_text};
ghost use Rattle.sal_script.specs.BatchData.{list_data};
ghost use Rattle.sal_owner_script.specs.Replies as spec;

use crate::pieces::{push_string, push_truth};
use sal_owner::{Entity, Owned, OwnerChange};
use sal_types::{NoMemory, push_word};
use std::alloc::Global;

// The items of an array.
pub(crate) trait Item {
    // Its value as JSON data.
    ghost json: { Self → Data };

    // Its JSON text.
    fn push_item(&self, alloc: Global, text: &mut String) -> Result<(), NoMemory>
        ensures { OnOk result (string_bytes text.new ≡ string_bytes text.old ++ compact_text (json self.now)) };
}

// `[id,is_owner]`
impl Item for Owned {
    ghost json = { spec.owned_data };

    fn push_item(&self, alloc: Global, text: &mut String) -> Result<(), NoMemory> {
        push_word(text, "[")?;
        push_string(alloc, text, self.id.as_str())?;
        push_truth(text, self.is_owner)?;
        push_word(text, "]")
    }
}

// `[kind,id,was_owner,is_owner,has_owner]`
impl Item for OwnerChange {
    ghost json = { spec.change_data };

    fn push_item(&self, alloc: Global, text: &mut String) -> Result<(), NoMemory> {
        push_word(text, "[")?;
        push_entity(alloc, text, &self.entity)?;
        push_owners(text, self)?;
        push_word(text, "]")
    }
}

// A kind and an id.
fn push_entity(alloc: Global, text: &mut String, entity: &Entity) -> Result<(), NoMemory>
    ensures { OnOk result (string_bytes text.new ≡ string_bytes text.old ++ (quoted entity.now.kind ++ (44 ∷ quoted entity.now.id))) }
{
    push_string(alloc, text, entity.kind.as_str())?;
    push_word(text, ",")?;
    push_string(alloc, text, entity.id.as_str())
}

// Who owned the entity, and who owns it.
fn push_owners(text: &mut String, change: &OwnerChange) -> Result<(), NoMemory>
    ensures { OnOk result (string_bytes text.new ≡ string_bytes text.old ++ (44 ∷ (compact_text (boolean change.now.was_owner) ++ (44 ∷ (compact_text (boolean change.now.is_owner) ++ (44 ∷ compact_text (boolean change.now.has_owner))))))) }
{
    push_truth(text, change.was_owner)?;
    push_truth(text, change.is_owner)?;
    push_truth(text, change.has_owner)
}

// An array of these.
pub(crate) fn push_array<T: Item>(
    alloc: Global,
    text: &mut String,
    items: &[T],
) -> Result<(), NoMemory>
    ensures { OnOk result (string_bytes text.new ≡ string_bytes text.old ++ compact_text (list_data (map T.json items.now))) }
{
    let [first, more @ ..] = items else {
        return push_word(text, "[]");
    };
    push_word(text, "[")?;
    first.push_item(alloc, text)?;
    push_more(alloc, text, more)?;
    push_word(text, "]")
}

// A comma and an item, for each.
fn push_more<T: Item>(alloc: Global, text: &mut String, items: &[T]) -> Result<(), NoMemory>
    ensures { OnOk result (string_bytes text.new ≡ string_bytes text.old ++ flat_map (λ item. 44 ∷ compact_text (T.json item)) items.now) }
{
    for item in items {
        text.push(',')?;
        item.push_item(alloc, text)?;
    }
    Ok(())
}
