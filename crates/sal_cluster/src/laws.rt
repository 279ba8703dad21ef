//! A law of the definitions. The call does nothing: its clause is the law.
ghost use Rattle.sal_cluster.specs.Laws.{StandBysHoldTheLeadersTrees};

use sal_follow::laws::streams_begin_anywhere;

/// What was fed the snapshot of a leader, and then the frames above its number, has the leader's trees at its number.
pub fn stand_bys_hold_the_leaders_trees()
    ensures { StandBysHoldTheLeadersTrees }
{
    streams_begin_anywhere();
}
