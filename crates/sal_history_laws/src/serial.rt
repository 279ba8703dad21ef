//! Laws of checked reads. Each function does nothing; its contract is the law.
ghost use Rattle.sal_history_laws.specs.Laws.{WithoutConflictStaysLawful};
ghost use Rattle.sal_history_laws.specs.SerialLaws.{AcceptedWritesStand, EachReadStands, LogsAreSerialisable, ReadsStand, RecordedReadsAreKnown};

/// Each log is serialisable, of any world, with chains, mounts and upgrades: the done transactions of a domain, applied one
/// after another in the order of their commits, read what they read in the log, and give the trees of the log.
///
/// This holds for the reads that a transaction recorded among its operations, and for all below them or below its own puts and
/// deletes. In mode `Checked` each read is recorded; in the other modes none is. The other two clauses say the same for one receipt, and
/// for one of its reads: the result is the same over the trees just before its commit.
pub fn checked_runs_are_serialisable()
    ensures log { LogsAreSerialisable }
    ensures receipt { ReadsStand }
    ensures read { EachReadStands }
{}

/// In mode `Checked` a path is known once it was read, and recording a read changes nothing that the transaction sees.
pub fn recorded_reads_are_known()
    ensures { RecordedReadsAreKnown }
{}

/// Each write that was accepted, in a done transaction, would be accepted over the trees just before its commit: the parents that it
/// requires exist there too. So its answer is the same if the transactions are applied one after another. This holds in each mode.
pub fn accepted_writes_stand()
    ensures decision { WithoutConflictStaysLawful }
    ensures log { AcceptedWritesStand }
{}
