//! Laws of the verdict. A call does nothing: its clauses are the laws.
ghost use Rattle.sal_verdict.specs.Laws.{PlaysAreYes, RunsAreYes, VerdictsAreJudged, VerdictsAreOne};

use sal_order::laws as texts;
use sal_script::laws as scripts;

/// The meaning of the verdict. It is yes exactly if the text is the report of the script for a legal order that its first
/// line states. It is no with 0 if the first line states no legal order, and otherwise with the number of LFs in the common prefix of the text
/// and that report. There are fewer clients than 2^32: a script has at most 16.
pub fn verdicts_are_judged()
    ensures { VerdictsAreJudged }
{
    texts::orders_are_told();
    texts::differences_end_lines();
    scripts::plays_follow_their_order();
}

/// No text has two verdicts.
pub fn verdicts_are_one()
    ensures { VerdictsAreOne }
{
    verdicts_are_judged();
}

/// The outputs of `run` and `sim` get yes: each text that is a script's report in some order, and each report of a script that was played in an
/// order.
pub fn own_reports_are_said_yes_to()
    ensures run { RunsAreYes }
    ensures sim { PlaysAreYes }
{
    verdicts_are_judged();
    scripts::what_is_left_is_reported();
    scripts::what_is_played_can_be_left();
}
