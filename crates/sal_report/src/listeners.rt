//! The texts of replies to listeners' calls. Each function appends to the text.
ghost use Rattle.std.specs.Prelude.{◌≡◌, ◌∷◌, ◌++◌, OnOk, codes, string_bytes};
ghost use Rattle.serde_json.specs.Written.{compact_text};
ghost use Rattle.sal_script.specs.BatchData.{batch_data};
ghost use Rattle.sal_script.specs.Report as spec;

use crate::arrays::push_array;
use crate::pieces::{Pushed, push_data, push_number, push_numbered};
use sal_rows::{Batch, Opened, Rows};
use sal_schema::Schema;
use sal_types::{Path, push_word};
use std::alloc::Global;

// A new listener, with its snapshot.
pub(crate) fn push_listener(
    alloc: Global,
    text: &mut String,
    schema: &Schema,
    id: u64,
    path: &Path,
    opened: &Opened,
) -> Pushed
    ensures { OnOk result (string_bytes text.new ≡ string_bytes text.old ++ (codes "listener" ++ (spec.number id ++ (spec.number opened.now.version ++ spec.listened_text schema.now path.now opened.now.rows)))) }
{
    push_numbered(text, "listener", id)?;
    push_number(text, opened.version)?;
    push_shown(alloc, text, schema, path, &opened.rows)
}

// A batch of a listener.
pub(crate) fn push_batch(alloc: Global, text: &mut String, schema: &Schema, batch: &Batch) -> Pushed
    ensures { OnOk result (string_bytes text.new ≡ string_bytes text.old ++ (codes "batch" ++ (spec.number batch.now.from ++ (spec.number batch.now.to ++ (32 ∷ compact_text (batch_data schema.now batch.now)))))) }
{
    push_numbered(text, "batch", batch.from)?;
    push_number(text, batch.to)?;
    text.push(' ')?;
    push_array(alloc, text, schema, batch.lists.items())
}

// A client's mirror of its listener.
pub(crate) fn push_mirror(
    alloc: Global,
    text: &mut String,
    schema: &Schema,
    path: &Path,
    version: u64,
    rows: &Rows,
) -> Pushed
    ensures { OnOk result (string_bytes text.new ≡ string_bytes text.old ++ (codes "mirror" ++ (spec.number version ++ spec.listened_text schema.now path.now rows.now))) }
{
    push_numbered(text, "mirror", version)?;
    push_shown(alloc, text, schema, path, rows)
}

// A space, and the rows at the path of a listener.
fn push_shown(alloc: Global, text: &mut String, schema: &Schema, path: &Path, rows: &Rows) -> Pushed
    ensures { OnOk result (string_bytes text.new ≡ string_bytes text.old ++ spec.listened_text schema.now path.now rows.now) }
{
    match (path.steps(), rows.items()) {
        ([_, ..], []) => push_word(text, " absent"),
        _ => {
            text.push(' ')?;
            push_data(alloc, text, schema, path, rows)
        }
    }
}
