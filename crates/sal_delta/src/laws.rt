//! Laws of the trees of commits. Each function does nothing; its contract is the law.
ghost use Rattle.sal_delta.specs.Laws.{ACommitAgrees};

/// The trees before and after a commit agree, as `changes` requires, if the tree before has none of the stamps that the
/// commit gives.
pub fn a_commit_agrees()
    ensures { ACommitAgrees }
{}
