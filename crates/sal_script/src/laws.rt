//! Laws of the definitions. A call does nothing: its clauses are the laws.
ghost use Rattle.sal_script.specs.CheckedLaws.{KnownStays, LooksAreKnown, MissedParentsAreKnown, TransactionsGrow};
ghost use Rattle.sal_script.specs.Followed.{ListenersFollowTheCommits};
ghost use Rattle.sal_script.specs.Laws.{OpeningsAreWhole, ScriptsAreJson, WritesAreForSchema};
ghost use Rattle.sal_script.specs.LoadOrder.{LeftIsSummed};
ghost use Rattle.sal_script.specs.OneOrder.{LeftIsOneOrder, LeftIsShort, PlayedCanBeLeft};
ghost use Rattle.sal_script.specs.Orders.{OrdersEndOrFail, PlaysFollow};
ghost use Rattle.sal_script.specs.SomeOrder.{FirstLinesTellOneOrder, LeftIsReported};

/// The values of a script that was read have each name once in its object, and their strings are bytes, for any bytes
/// of the script.
pub fn scripts_are_json()
    ensures { ScriptsAreJson }
{}

/// The rows of its openings are whole: their JSON values read as the same rows.
pub fn openings_are_whole()
    ensures { OpeningsAreWhole }
{}

/// Such a value at a path that was read gives an operation for the schema.
pub fn writes_are_for_schema()
    ensures { WritesAreForSchema }
{}

/// The log of a play is in the given order. Its entries are the shared calls of the clients, each once and
/// in the client's own order, with the replies of that log, and each step of each client has one reply.
pub fn plays_follow_their_order()
    ensures { PlaysFollow }
{}

/// An order is legal and played to its end, or is not, and fails at one of its numbers or right after the last.
pub fn orders_end_or_fail()
    ensures { OrdersEndOrFail }
{}

/// The result of clients that run at the same time is one order. A log that has exactly the calls of each client along it
/// is that of the script played in the order of its entries, with the same replies, and this order is legal.
pub fn what_is_left_is_one_order()
    ensures { LeftIsOneOrder }
{}

/// And a play in an order is a result that its clients can have.
pub fn what_is_played_can_be_left()
    ensures { PlayedCanBeLeft }
{}

/// The report of clients on threads is that of the script played in the order on its own first line.
pub fn what_is_left_is_reported()
    ensures { LeftIsReported }
{}

/// The summary of a load's clients is that of the load played in one order.
pub fn what_a_load_left_is_summed()
    ensures { LeftIsSummed }
{}

/// The first line of a text states one order, and no other.
pub fn first_lines_tell_one_order()
    ensures { FirstLinesTellOneOrder }
{}

/// The clients of a script make at most one shared call for each of their steps, so their log is shorter than the
/// limit.
pub fn what_is_left_is_short()
    ensures { LeftIsShort }
{}

/// The rows of a listener's replies, those of its opening with the parts of each batch applied, are the rows under its path
/// at its version, an existing commit. The parts are those of all commits since its opening, each once and in order. This
/// holds for each listener of each log over opening trees.
pub fn listeners_follow_the_commits()
    ensures { ListenersFollowTheCommits }
{}

/// Each path that a transaction with checked reads read is known to its operations, and so is each missing parent of a refused write. It
/// stays known until the transaction is submitted: its operations only grow.
pub fn reads_are_known()
    ensures looks { LooksAreKnown }
    ensures parents { MissedParentsAreKnown }
    ensures stays { KnownStays }
    ensures grow { TransactionsGrow }
{}
