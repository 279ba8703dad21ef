//! Conflicts of the reads of a submission.
ghost use Rattle.std.specs.Prelude.{◌≡◌, ◌&&◌, [], not, take, All};
ghost use Rattle.sal_rows.specs.Apply.{is_read};
ghost use Rattle.sal_rows.specs.PathClash.{is_covered};
ghost use Rattle.sal_rows.specs.Clash.{read_clash, reads_from};
ghost use Rattle.sal_graft.specs.Following.{AreFollowing};
ghost use Rattle.sal_graft.specs.Kept.{AreKept, IsSpanOf, opening_in, ops_of};

use crate::ground::Ground;
use crate::search::path_conflict;
use sal_mod::Mod;
use sal_rows::{Clash, Op};

/// The conflict of the first read that has one. It takes no memory.
pub(crate) fn reads_clash(changes: &Mod, ground: &Ground) -> Option<Clash>
    requires kept { AreKept ground.now.commits.now }
    requires following { AreFollowing ground.now.commits.now }
    requires spans { All (IsSpanOf ground.now.commits.now) ground.now.spans.now }
    ensures { result ≡ reads_from (opening_in ground.now.commits.now) (ops_of ground.now.commits.now) ground.now.spans.now [] changes.now }
{
    if !changes.has_reads() {
        return None;
    }
    let ops = changes.ops();
    for at in 0..ops.len() {
        let looks = is_checked(changes, &ops[at], at);
        if let Some(found) = read_clash(&ops[..at], &ops[at], looks, ground) {
            return Some(found);
        }
    }
    None
}

// Whether the operation at the index is a read that no earlier put or delete covers.
fn is_checked(changes: &Mod, op: &Op, place: usize) -> bool
    ensures { result ≡ (is_read op.now.act && not (is_covered (take place changes.now) op.now.store op.now.path)) }
{
    op.act.is_read() && !changes.covered(op.store, &op.path, place)
}

// The conflict of one read, after the earlier operations.
fn read_clash(earlier: &[Op], op: &Op, looks: bool, ground: &Ground) -> Option<Clash>
    requires kept { AreKept ground.now.commits.now }
    requires following { AreFollowing ground.now.commits.now }
    requires spans { All (IsSpanOf ground.now.commits.now) ground.now.spans.now }
    requires looks { looks ≡ (is_read op.now.act && not (is_covered earlier.now op.now.store op.now.path)) }
    ensures { result ≡ read_clash (opening_in ground.now.commits.now) (ops_of ground.now.commits.now) ground.now.spans.now earlier.now op.now }
{
    if looks {
        path_conflict(earlier.len(), op, ground)
    } else {
        None
    }
}
