//! Whether patches set state data.
ghost use Rattle.std.specs.Prelude.{◌≡◌};
ghost use Rattle.sal_near.specs.Near as spec;

use sal_rows::Patch;
use sal_rowtree::RowTree;
use sal_schema::Schema;

fn leaves_state(schema: &Schema, rows: &RowTree, patch: &Patch) -> bool
    ensures { result ≡ spec.leaves_state schema.now rows.now patch.now }
{
    schema.is_of_state(&patch.path) && rows.cell_at(patch.path.steps()).is_some()
}

/// Whether there is a row of a state node at the path of a patch, in rows that were patched.
///
/// If the rows had no state data before, they have some now exactly if it does (`laws::state_is_near`). It takes no memory.
pub fn leave_state(schema: &Schema, rows: &RowTree, patches: &[Patch]) -> bool
    ensures { result ≡ spec.leave_state schema.now rows.now patches.now }
{
    for patch in patches {
        if leaves_state(schema, rows, patch) {
            return true;
        }
    }
    false
}
