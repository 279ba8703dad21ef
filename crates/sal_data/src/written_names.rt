//! Members of an object, put under the names of their nodes.
ghost use Rattle.std.specs.Prelude.{◌≡◌, OnOk};
ghost use Rattle.serde_json.specs.Data.{put};
ghost use Rattle.serde_json.specs.View.{view, members_view};
ghost use Rattle.sal_data.specs.Members as spec;

use crate::members::{full_name, is_qualified};
use sal_schema::Schema;
use sal_schema::lookups::name_at;
use sal_types::NoMemory;
use serde_json::{Map, Value as Json};
use std::alloc::Global;

/// One more member: the value of the node, below a parent or in the top object.
pub(crate) fn put_member(
    members: &mut Map<String, Json>,
    alloc: Global,
    schema: &Schema,
    parent: Option<u32>,
    node: u32,
    value: Json,
) -> Result<(), NoMemory>
    ensures { OnOk result (members_view members.new.entries ≡ put (spec.member_name schema.now parent node) (view value) (members_view members.old.entries)) }
{
    if is_qualified(schema, parent, node) {
        let name = full_name(alloc, schema, node)?;
        serde_json::put(members, alloc, name.as_str(), value)?;
        return Ok(());
    }
    serde_json::put(members, alloc, name_at(schema, node), value)?;
    Ok(())
}
