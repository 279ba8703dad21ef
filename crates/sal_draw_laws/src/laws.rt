//! Laws of all pictures. Each function does nothing; its contract states the law.
ghost use Rattle.sal_draw_laws.specs.Laws.{CommitsHaveOnePoint, ConflictsHaveOneLine, PointsStandWhereDecided};

/// An entry that returns a conflict has one line of a conflict, from the commit that the conflict names; another entry has none.
pub fn conflicts_have_one_line()
    ensures { ConflictsHaveOneLine }
{}

/// An entry has the points of the commits of the receipts that it decides, and no other one.
pub fn points_stand_where_decided()
    ensures { PointsStandWhereDecided }
{}

/// The entries of a log have one point for the commit of each receipt that they decide.
pub fn commits_have_one_point()
    ensures { CommitsHaveOnePoint }
{}
