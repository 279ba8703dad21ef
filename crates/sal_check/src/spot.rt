//! The schema node of a place of a tree.
ghost use Rattle.std.specs.Prelude.{◌≡◌, ◌<◌, Some};
ghost use Rattle.sal_schema.specs.Table.{is_kind};
ghost use Rattle.sal_schema.specs.Kinds as kinds;
ghost use Rattle.sal_rules.specs.Places as spec;

use sal_rules::Spot;
use sal_schema::Schema;
use sal_types::Step;

/// The place after a step.
pub(crate) fn after_step(schema: &Schema, spot: Spot, step: &Step) -> Spot
    ensures { result ≡ spec.after_step schema.now spot step.now }
{
    match step {
        Step::Node(node) => Spot {
            node: Some(*node),
            wants_entry: has_entries(schema, *node),
        },
        _ => Spot {
            node: spot.node,
            wants_entry: false,
        },
    }
}

fn has_entries(schema: &Schema, node: u32) -> bool
    ensures { result ≡ is_kind kinds.has_entries schema.now node }
{
    if node < schema.len() {
        schema.kind(node).has_entries()
    } else {
        false
    }
}
