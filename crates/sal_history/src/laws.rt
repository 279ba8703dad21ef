//! Laws of the log's meaning. Each function does nothing; its contract is the law.
ghost use Rattle.sal_history.specs.ChainLaws.{CommitsStandInOrder, NoConflictInAChain, OwnCommitsAreOnTop};
ghost use Rattle.sal_history.specs.Laws.{ConflictsNameALaterCommit, ConflictsOfALogNameALaterCommit, DoneLeavesNoBreach};
ghost use Rattle.sal_history.specs.VersionLaws.{NewestTreesKeepTheRules, UpgradesGoOneByOne};
ghost use Rattle.sal_history.specs.ServiceLaws.{AnswersAreCollected, CollectedAsGiven, HandedOnceInALog, HandedToItsProvider, TakenOnceInOrder};

/// A conflict names a later commit, not of its own chain, that touched its path. That path is one of the transaction's own, a
/// prefix of one, or under version rules 2 that of a leaf that it merges.
///
/// `decision`: let a submission have a base commit of its domain, with the trees at that commit and the later commits of
/// its own chain applied. If its outcome is a conflict, then the commit that it names is one of the domain's, came
/// after the base, is not of the submission's chain, and touched the path of the conflict in its store; and one of its
/// operations is of that store, at or below that path, or a merge of a leaf there. `log`: in each log, without a condition, the same
/// holds for each receipt with a conflict as its outcome, over the commits that were done before it.
pub fn conflicts_name_a_later_commit()
    ensures decision { ConflictsNameALaterCommit }
    ensures log { ConflictsOfALogNameALaterCommit }
{}

/// A submission that is done gives trees that break no structural rule of the version of the schema by which it was
/// decided, in both stores, in a chain or in none.
pub fn done_leaves_no_breach()
    ensures { DoneLeavesNoBreach }
{}

/// In each log, with versions of the schema: the newest trees of each domain break no rule of the present version, if the opening
/// trees break none of version 0. So the trees after an accepted upgrade break no rule of its version.
pub fn newest_trees_keep_the_rules()
    ensures { NewestTreesKeepTheRules }
{}

/// In each log, an accepted upgrade to a version follows directly on the version before it.
pub fn upgrades_go_one_by_one()
    ensures { UpgradesGoOneByOne }
{}

/// In each log, for a transaction chain (`DOMTransactionChain`). While it has not failed, each of its submissions is decided
/// over the base trees at its base commit with the chain's own later commits applied: what it saw of pending submissions
/// is what they committed. A submission never conflicts with a commit of its own chain. And the commits of a domain have
/// the order of their receipts, so those of a chain have the order in which it submitted them.
pub fn chains_keep_to_themselves()
    ensures base { OwnCommitsAreOnTop }
    ensures own { NoConflictInAChain }
    ensures order { CommitsStandInOrder }
{}

/// In each log, for a request (`DOMRpcService`): it is handed out at most once, to the client whose registration its invocation
/// found, for its exact context or else without one. The request was invoked before, and has the RPC, the context and the
/// input of that invocation.
pub fn requests_go_to_their_provider_once()
    ensures provider { HandedToItsProvider }
    ensures once { HandedOnceInALog }
{}

/// In each log, for an answer to a request: a collected answer was given by an accepted answer before, and from then on
/// the client that made the request collects those rows each time.
pub fn answers_are_collected_as_given()
    ensures given { CollectedAsGiven }
    ensures stays { AnswersAreCollected }
{}

/// In each log, for notifications (`DOMNotificationService`): those that a client took, in order, and then those that wait for it, are
/// those that were offered and not refused while it was subscribed. So none is lost, repeated or reordered.
pub fn notifications_are_taken_once_in_order()
    ensures { TakenOnceInOrder }
{}
