//! Laws of snapshot isolation. Each function does nothing; its contract is the law.
ghost use Rattle.sal_isolation_laws.specs.Epochs.{EpochsAreOneHistory};
ghost use Rattle.sal_isolation_laws.specs.IsolationLaws.{FirstCommitterWins, MergesConflictByValue, PathsAreAsSeen, SnapshotsAreRead};

/// In each log, each transaction, in any mode, submitted or not, reads one commit with its own chain's submissions on top: the trees after some
/// number of decided receipts, with the submissions of its chain after these receipts, in their order. Without a chain it is the commit alone.
pub fn transactions_read_one_commit()
    ensures { SnapshotsAreRead }
{}

/// In each log, under version rules 1 and 2: of two concurrent transactions that were done, the later one puts or deletes no path at or below which
/// the earlier one left a change. What the earlier one made there may have been deleted again before the later one was decided: that is no change.
/// Merges are outside.
///
/// `seen`: at and below each path that a done transaction puts or deletes, the trees that it saw have the cells of those just before its commit; under
/// version rules 2 also at each leaf that it merges.
pub fn the_first_committer_wins()
    ensures pairs { FirstCommitterWins }
    ensures seen { PathsAreAsSeen }
{}

/// In each log, version rules 2 are rules of values: a merge conflicts at the first of its leafs at which the transaction's base and the newest tree
/// have different cells, whatever was touched.
pub fn merges_conflict_by_value()
    ensures { MergesConflictByValue }
{}

/// Over any number of epochs, each with any upgrades in its log, of which each next one begins with the newest trees of a domain in the one before:
/// the done transactions of that domain in all epochs, applied one after another in the order of epochs and commits, leave the newest trees of the
/// last epoch. And each that an entry of its epoch began reads what it read in its epoch's log, as far as it recorded its reads; in mode `Checked` all
/// are recorded.
pub fn epochs_are_one_history()
    ensures { EpochsAreOneHistory }
{}
