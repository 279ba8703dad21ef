//! Both trees, and the patches of frames.
ghost use Rattle.std.specs.Prelude.{◌≡◌, ◌&&◌, not, IfOk};
ghost use Rattle.sal_rows.specs.Patch.{patched};
ghost use Rattle.sal_near.specs.Near.{are_near, leave_state};
ghost use Rattle.sal_follow.specs.States.{FrameFits, IsSound, both_in, trees_after};

use crate::frame::Frame;
use crate::reader::Reader;
use crate::state::State;
use sal_near::{are_near, leave_state};
use sal_rows::Patch;
use sal_rowtree::RowTree;
use sal_schema::Schema;
use sal_types::{Duplicate, NoMemory};
use std::alloc::Global;

/// Both trees.
#[derive(Drop)]
pub(crate) struct Both {
    pub(crate) config: RowTree,
    pub(crate) oper: RowTree,
}

// The tree with the patches.
fn tree_patched(alloc: Global, rows: &RowTree, patches: &[Patch]) -> Result<RowTree, NoMemory>
    ensures { IfOk result (λ after. after ≡ patched rows.now patches.now) }
{
    let mut after = rows.copy()?;
    for patch in patches {
        after = after.with_cell(alloc, &patch.path, &patch.cell)?;
    }
    Ok(after)
}

// Both trees with the patches of a frame.
fn both_patched(alloc: Global, state: &State, frame: &Frame) -> Result<Both, NoMemory>
    ensures config { IfOk result (λ after. after.config ≡ patched state.now.config frame.now.config) }
    ensures oper { IfOk result (λ after. after.oper ≡ patched state.now.oper frame.now.oper) }
{
    let config = tree_patched(alloc, &state.config, frame.config.items())?;
    let oper = tree_patched(alloc, &state.oper, frame.oper.items())?;
    Ok(Both { config, oper })
}

// Whether the checks near the patches of the frame pass.
fn is_good_near(schema: &Schema, both: &Both, frame: &Frame) -> bool
    ensures { result ≡ ((are_near schema.now both.now.config frame.now.config && not (leave_state schema.now both.now.config frame.now.config)) && are_near schema.now both.now.oper frame.now.oper) }
{
    are_near(schema, &both.config, frame.config.items())
        && !leave_state(schema, &both.config, frame.config.items())
        && are_near(schema, &both.oper, frame.oper.items())
}

/// The trees after a frame, if they are trees of the schema.
pub(crate) fn trees_after(
    reader: &Reader,
    state: &State,
    frame: &Frame,
) -> Result<Option<Both>, NoMemory>
    requires sound { IsSound reader.now.schema.now state.now }
    requires fits { FrameFits reader.now.schema.now frame.now }
    ensures { IfOk result (λ o. o ≡ trees_after reader.now.schema.now (both_in state.now) frame.now.config frame.now.oper) }
{
    // For the proof alone: it says that the rows ascend.
    let _ = state.config.root();
    let _ = state.oper.root();
    let after = both_patched(reader.alloc, state, frame)?;
    if is_good_near(reader.schema, &after, frame) {
        Ok(Some(after))
    } else {
        Ok(None)
    }
}
