//! Laws of stamps. Each function does nothing; its contract is the law.
ghost use Rattle.sal_commit_laws.specs.Stamps.{AgreeByStamps, FirstOpeningsHaveNone, LaterStampsAreNew, NextOpeningsHaveNone, OneStampHasOneTree, OneStampIsOneNode, StampsNeverComeAgain, StampsTellTheLastTouch, ViewStampsAreNoCommits, ViewsDifferWhereTouched, ViewsHaveOneStamp};

use sal_commit::Domain;

/// In the trees of two commits, nodes at one path with one stamp are the same, with all below them; the rows at and below the path
/// are equal.
pub fn one_stamp_is_one_node()
    ensures node { OneStampIsOneNode }
    ensures rows { OneStampHasOneTree }
{}

/// The commits of a domain agree in this way, by the invariant of the type `Domain`.
pub fn domains_keep_stamps(domain: &Domain)
    ensures agree { AgreeByStamps domain.now.commits.items }
{
    let _ = &domain.commits;
}

/// A node's stamp is that of the last commit that touched its path, or the node is the opening's.
pub fn stamps_tell_the_last_touch()
    ensures last { StampsTellTheLastTouch }
{}

/// A node that is at a path in two commits is there in each commit between. No tree has the stamp of a later commit.
pub fn stamps_never_come_again()
    ensures again { StampsNeverComeAgain }
    ensures new { LaterStampsAreNew }
{}

/// No committed tree has the stamp of a transaction, if the opening has none: that of a first epoch has none, and so that of each next one. The
/// nodes that a transaction touched have its stamp in its view, and every other node is that of its base.
pub fn views_have_stamps_of_their_own()
    ensures own { ViewStampsAreNoCommits }
    ensures first { FirstOpeningsHaveNone }
    ensures next { NextOpeningsHaveNone }
    ensures touched { ViewsDifferWhereTouched }
    ensures others { ViewsHaveOneStamp }
{}
