//! Laws of the commits that a domain keeps. Each function does nothing; its contract is the law.
ghost use Rattle.sal_graft_laws.specs.Way.{StampsLieOnTheWay, WaysAreFew};

/// The nodes that a commit made are on the paths to the rows that it touches: at most 33 for each row.
pub fn stamps_lie_on_the_way()
    ensures stamped { StampsLieOnTheWay }
    ensures few { WaysAreFew }
{}
