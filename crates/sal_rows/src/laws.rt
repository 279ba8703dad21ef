//! Laws of the definitions. Each function does nothing; its contract is the law.
ghost use Rattle.sal_rows.specs.Named.{NamesALaterCommit};
ghost use Rattle.sal_rows.specs.Quiet.{NoClashIsQuiet, SameOrTouched};

/// If a transaction has no conflict, its base and the newest trees have the same rows at and below each path that it
/// puts or deletes, and at and below each path that it reads, unless an earlier put or delete covers it; and under version rules 2
/// the same cell at each leaf that it merges.
pub fn no_conflict_leaves_the_paths_alone()
    ensures { NoClashIsQuiet }
{}

/// At a path that no commit in the spans touched, the base and the newest trees have the same cell. So version rules 2
/// refuse a merge at its first leaf whose cell differs.
pub fn what_differs_was_touched()
    ensures { SameOrTouched }
{}

/// A conflict is of one of the operations, at a prefix of its path, or under version rules 2 at a leaf that it merges, and
/// names a commit of one of the spans that touched the place.
pub fn conflicts_name_a_later_commit()
    ensures { NamesALaterCommit }
{}
