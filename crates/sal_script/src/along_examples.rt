//! Worked examples of clients along a log. Each function does nothing; its contract states what the definitions give, and the
//! proof computes it.
ghost use Rattle.std.specs.Prelude.{◌≡◌, [], ◌∷◌, None, Some, Ok};
ghost use Rattle.sal_history.specs.declared.call.Call.TheVariants.{After, Mark};
ghost use Rattle.sal_script.specs.Along.{order_of};
ghost use Rattle.sal_script.specs.AlongExamples.{Comes, crossed_log, first_replies, late_twice, leaves_along, looking_replies, marking_replies, marks_log, refuses, refusing_log, refusing_replies, second_replies, two_looks};
ghost use Rattle.sal_script.specs.ChainExamples.{leaves, looks};
ghost use Rattle.sal_script.specs.Examples.{a, commits, entry, put, world_of};
ghost use Rattle.sal_script.specs.Play.{play};

/// Two clients put the same leaf, and both begin before the first one submits: each reaches its end along the log, and the
/// second one's conflict names the first one's commit.
pub fn two_clients_cross()
    ensures first { Comes 0 crossed_log (commits (put a "x")) first_replies }
    ensures second { Comes 1 crossed_log (commits (put a "y")) second_replies }
{}

/// A client that submits a read-only transaction, and cancels twice: it refuses both itself, and the log has no entry of them.
pub fn refused_by_itself()
    ensures { Comes 0 refusing_log refuses refusing_replies }
{}

/// A client looks for a mark too early, and once after it was set. The script played in the order of this log gives the same.
pub fn late_and_found()
    ensures looks { Comes 0 marks_log looks looking_replies }
    ensures leaves { Comes 1 marks_log leaves marking_replies }
    ensures played { play (world_of []) (looks ∷ leaves ∷ []) (order_of marks_log) ≡ Ok (record { log = marks_log; replies = looking_replies ∷ marking_replies ∷ [] }) }
{}

/// Logs that a client cannot have made: without one of its calls, with one more than it makes, or with another call or another
/// number in the place of its own, where it makes another log.
pub fn no_such_log()
    ensures one_missing { leaves_along 0 (entry 0 0 (After 7) ∷ []) looks ≡ None }
    ensures one_more { leaves_along 0 (entry 0 0 (After 7) ∷ entry 0 1 (After 7) ∷ entry 0 2 (After 7) ∷ []) looks ≡ None }
    ensures another_call { leaves_along 0 (entry 0 0 (After 7) ∷ entry 0 1 (Mark 7) ∷ []) looks ≡ Some late_twice }
    ensures another_number { leaves_along 0 (entry 0 0 (After 7) ∷ entry 0 7 (After 7) ∷ []) looks ≡ Some late_twice }
    ensures its_own { leaves_along 0 two_looks looks ≡ Some late_twice }
{}
