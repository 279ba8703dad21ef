//! Laws of notifications. Each function does nothing; its contract is the law.
ghost use Rattle.sal_note.specs.Laws.{OfferedToEach, RefusedToAll, SubscribersAreCallers};

/// An accepted offer is added once, as the last one, to the queue of each client that is subscribed then, and to no other; a refused one to none.
pub fn offers_reach_each_subscriber_once()
    ensures each { OfferedToEach }
    ensures none { RefusedToAll }
{}

/// A notification has at most as many subscribers as there were calls.
pub fn subscribers_are_callers()
    ensures { SubscribersAreCallers }
{}
