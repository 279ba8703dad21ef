//! Arrays of JSON. Each function appends to the text, and copies no item.
ghost use Rattle.std.specs.Prelude.{◌≡◌, ◌∷◌, ◌++◌, OnOk, map, string_bytes};
ghost use Rattle.std.specs.List.{flat_map};
ghost use Rattle.serde_json.specs.Data.{Data};
ghost use Rattle.serde_json.specs.Written.{compact_text};
ghost use Rattle.sal_schema.specs.declared.table.SchemaTable.{SchemaTable};
ghost use Rattle.sal_script.specs.BatchData.{list_data};

use crate::pieces::Pushed;
use sal_schema::Schema;
use sal_types::push_word;
use std::alloc::Global;

// The items of an array.
pub(crate) trait Item {
    // Its value as JSON data.
    ghost json: { SchemaTable → Self → Data };

    // Its JSON text.
    fn push_item(&self, alloc: Global, text: &mut String, schema: &Schema) -> Pushed
        ensures { OnOk result (string_bytes text.new ≡ string_bytes text.old ++ compact_text (json schema.now self.now)) };
}

// An array of these.
pub(crate) fn push_array<T: Item>(
    alloc: Global,
    text: &mut String,
    schema: &Schema,
    items: &[T],
) -> Pushed
    ensures { OnOk result (string_bytes text.new ≡ string_bytes text.old ++ compact_text (list_data (map (T.json schema.now) items.now))) }
{
    let [first, more @ ..] = items else {
        return push_word(text, "[]");
    };
    push_word(text, "[")?;
    first.push_item(alloc, text, schema)?;
    push_more(alloc, text, schema, more)?;
    push_word(text, "]")
}

// A comma and an item, for each.
fn push_more<T: Item>(alloc: Global, text: &mut String, schema: &Schema, items: &[T]) -> Pushed
    ensures { OnOk result (string_bytes text.new ≡ string_bytes text.old ++ flat_map (λ item. 44 ∷ compact_text (T.json schema.now item)) items.now) }
{
    for item in items {
        text.push(',')?;
        item.push_item(alloc, text, schema)?;
    }
    Ok(())
}
