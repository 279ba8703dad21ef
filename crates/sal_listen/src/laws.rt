//! Laws of snapshots and batches. Each function does nothing; its contract is the law.
ghost use Rattle.sal_listen.specs.Laws.{BatchesCarryTheOpening, BatchesLeaveNothingOut, BatchesStay};

/// The batches of a listener, applied in order to the rows of its opening, give the rows under its path at the commit at
/// which they end.
pub fn batches_carry_the_opening()
    ensures { BatchesCarryTheOpening }
{}

/// The consecutive batches of a listener have the parts of the one batch over all their commits: no commit is repeated or
/// omitted.
pub fn batches_leave_nothing_out()
    ensures { BatchesLeaveNothingOut }
{}

/// A batch is still the batch of its commits after later ones.
pub fn batches_stay()
    ensures { BatchesStay }
{}
