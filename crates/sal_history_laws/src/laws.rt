//! Laws of closed trees. Each function does nothing; its contract is the law.
ghost use Rattle.sal_history_laws.specs.Laws.{ClosedStays, LawfulKeepsClosed, LawfulStays, LogsStayClosed, OwnRowsStand, SentsStayLawful, WithoutConflictStaysClosed};

/// Operations that are lawful over closed trees give closed trees.
pub fn lawful_operations_keep_trees_closed()
    ensures { LawfulKeepsClosed }
{}

/// Operations that are lawful over a closed base, and have no conflict with the commits after it, give closed trees from the
/// newest ones, if those are closed.
pub fn without_conflict_a_newer_tree_stays_closed()
    ensures { WithoutConflictStaysClosed }
{}

/// In each log whose submissions are lawful over the bases of their transactions, from closed openings: the trees of each
/// domain at each commit are closed, and so are those of each transaction's base, in a chain or in none. Lawful and closed
/// refer to the present version of the schema, after any number of upgrades; the openings are closed by version 0.
pub fn committed_trees_are_closed()
    ensures { LogsStayClosed }
{}

/// Operations that are lawful by a version of a schema are lawful by each later one, and trees that are closed by it are closed by
/// each later one. So after one more entry, an upgrade too, each submission of a log is lawful by the present version.
pub fn what_is_lawful_stays_so()
    ensures lawful { LawfulStays }
    ensures closed { ClosedStays }
    ensures sent { SentsStayLawful }
{}

/// In a closed tree, a present node has its own row exactly if its kind has one: presence containers, entries and
/// leafs. So the schema alone says whether a listened node has its own row.
pub fn own_rows_stand_by_kind()
    ensures { OwnRowsStand }
{}
