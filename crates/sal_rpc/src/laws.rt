//! Laws of the router. Each function does nothing; its contract is the law.
ghost use Rattle.sal_rpc.specs.Laws.{AnsweredAsGiven, AnswersStay, HandedOnce, HandedToItsOwner};

/// A request that a client takes was taken by no client before, and goes to this client: the one whose registration
/// it found when it was made.
pub fn requests_are_handed_out_once()
    ensures once { HandedOnce }
    ensures owner { HandedToItsOwner }
{}

/// A request has the rows of its accepted answer, at each later collection too.
pub fn answers_are_collected_as_given()
    ensures given { AnsweredAsGiven }
    ensures stays { AnswersStay }
{}
