//! Whether rows are closed near patches.
ghost use Rattle.std.specs.Prelude.{◌≡◌, ◌≤◌, ◌&&◌, true, not, length};
ghost use Rattle.sal_types.specs.Tree.{has};
ghost use Rattle.sal_schema.specs.Fitting.{is_in_message};
ghost use Rattle.sal_near.specs.Near as spec;

use crate::whole::is_whole_if_there;
use sal_data::shared;
use sal_rows::Patch;
use sal_rowtree::RowTree;
use sal_schema::Schema;
use sal_types::{Path, Step};

// Whether the entries and presence containers at a path and above it are whole, if those of the path `before` are.
fn is_whole_to(schema: &Schema, rows: &RowTree, before: &[Step], steps: &[Step]) -> bool
    requires whole { spec.is_whole_to schema.now rows.now before.now ≡ true }
    requires short { length steps.now ≤ 32 }
    ensures { result ≡ spec.is_whole_to schema.now rows.now steps.now }
{
    for len in shared(before, steps) + 1..steps.len() + 1 {
        if !is_whole_if_there(schema, rows, &steps[..len]) {
            return false;
        }
    }
    true
}

// Whether the tree has data at a path in an RPC or a notification.
fn is_message(schema: &Schema, rows: &RowTree, path: &Path) -> bool
    ensures { result ≡ (is_in_message schema.now path.now && has rows.now path.now) }
{
    schema.is_in_message(path) && rows.has(path.steps())
}

// Whether all near a patch is whole, if all near the path `before` is.
fn is_near(schema: &Schema, rows: &RowTree, before: &[Step], patch: &Patch) -> bool
    requires whole { spec.is_whole_to schema.now rows.now before.now ≡ true }
    ensures { result ≡ spec.is_near schema.now rows.now patch.now }
{
    !is_message(schema, rows, &patch.path) && is_whole_to(schema, rows, before, patch.path.steps())
}

/// Whether all near the patches is whole in rows that were patched.
///
/// If the rows were closed before, and the patches fit, they are closed now exactly if it is (`laws::near_is_closed`). It takes no memory.
pub fn are_near(schema: &Schema, rows: &RowTree, patches: &[Patch]) -> bool
    ensures { result ≡ spec.are_near schema.now rows.now patches.now }
{
    let mut before: &[Step] = &[];
    for patch in patches {
        if !is_near(schema, rows, before, patch) {
            return false;
        }
        before = patch.path.steps();
    }
    true
}
