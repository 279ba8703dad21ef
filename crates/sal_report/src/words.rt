//! The words of a report.
ghost use Rattle.std.specs.Prelude.{◌≡◌};
ghost use Rattle.json.specs.Print.{quoted};
ghost use Rattle.sal_script.specs.BatchData.{candidate_text};
ghost use Rattle.sal_script.specs.Report.{kind_text, scalar_text, store_text, truth_text};

use sal_json::ScalarFault;
use sal_rows::{CandidateKind, ClashKind};
use sal_types::Store;

/// The word of a store in reports.
pub fn store_word(store: Store) -> &'static str
    ensures { result.now ≡ store_text store }
{
    match store {
        Store::Config => "config",
        Store::Oper => "operational",
    }
}

pub(crate) fn kind_word(kind: ClashKind) -> &'static str
    ensures { result.now ≡ kind_text kind }
{
    match kind {
        ClashKind::Changed => "changed",
        ClashKind::Created => "created",
        ClashKind::Deleted => "deleted",
    }
}

// How a listened node changed, as a JSON text.
#[tactic(auto, unfolding(json::specs::Print::escape_byte))]
pub(crate) fn candidate_word(kind: CandidateKind) -> &'static str
    ensures { result.now ≡ quoted (candidate_text kind) }
{
    match kind {
        CandidateKind::Unmodified => "\"UNMODIFIED\"",
        CandidateKind::Write => "\"WRITE\"",
        CandidateKind::Delete => "\"DELETE\"",
        CandidateKind::SubtreeModified => "\"SUBTREE_MODIFIED\"",
        CandidateKind::Appeared => "\"APPEARED\"",
        CandidateKind::Disappeared => "\"DISAPPEARED\"",
    }
}

pub(crate) fn truth_word(truth: bool) -> &'static str
    ensures { result.now ≡ truth_text truth }
{
    if truth { "true" } else { "false" }
}

// Why a value is not of its type.
pub(crate) fn scalar_word(fault: ScalarFault) -> &'static str
    ensures { result.now ≡ scalar_text fault }
{
    match fault {
        ScalarFault::WrongKind => "wrong-kind",
        ScalarFault::OutOfRange => "out-of-range",
        ScalarFault::BadLength => "bad-length",
        ScalarFault::NoMatch => "no-match",
        ScalarFault::UnknownName => "unknown-name",
        ScalarFault::NoMemory => "no-memory",
    }
}
