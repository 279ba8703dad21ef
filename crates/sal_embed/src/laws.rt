//! Laws of the steps of an embedded broker. A call does nothing: its clauses are the laws.
ghost use Rattle.sal_embed.specs.Laws.{AreAScript, WorldsAreOfModules};

use crate::embedded::Embedded;

/// The steps so far are a script that has them as its clients' programs, played in the order of the log: this log, these replies, and
/// the order is legal. So the report is the one that the command writes for that script, if it is one: for at most 16 clients with at most 60,000
/// steps each.
pub fn steps_are_a_script(broker: &Embedded)
    ensures { AreAScript broker.now }
{
    let _ = broker;
}

/// The world of a script does not depend on its clients and their order.
pub fn worlds_are_of_modules()
    ensures { WorldsAreOfModules }
{}
