//! Laws of checked reads. A call does nothing: its clauses are the laws.
ghost use Rattle.sal_checked_laws.specs.Submitted.{PlayedReadsStand, ReadsAreSubmitted};

use sal_history_laws::serial;
use sal_script::laws;

/// Each read of a transaction with checked reads is in the operations that its client submits, at its index, for any steps of the client and
/// others in between. If that submission is done, the read would have the same result over the trees just before the commit.
pub fn checked_reads_stand()
    ensures submitted { ReadsAreSubmitted }
    ensures stand { PlayedReadsStand }
{
    laws::reads_are_known();
    serial::checked_runs_are_serialisable();
}
