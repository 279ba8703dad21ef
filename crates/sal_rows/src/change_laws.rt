//! Laws of changes and batches. Each function does nothing; its contract is the law.
ghost use Rattle.sal_rows.specs.ChangeLaws.{ChangesAreWhereCellsDiffer, ChangesGiveTheRowsAfter, BatchesGiveTheRowsAfter, BatchesFollowOneAnother};

/// The changes at a path and below it name exactly the paths there at which the trees have different cells, each with both
/// cells.
pub fn changes_are_where_cells_differ()
    ensures { ChangesAreWhereCellsDiffer }
{}

/// The changes, applied to the rows before, give the rows after.
pub fn changes_give_the_rows_after()
    ensures { ChangesGiveTheRowsAfter }
{}

/// The parts of a batch, applied one after another to the rows at its start, give the rows at its end.
pub fn batches_give_the_rows_after()
    ensures { BatchesGiveTheRowsAfter }
{}

/// Two batches, the second of which begins where the first ends, have the parts of the batch over both: no commit is
/// repeated or omitted.
pub fn batches_follow_one_another()
    ensures { BatchesFollowOneAnother }
{}
