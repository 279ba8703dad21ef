//! Laws of the definitions. A call does nothing: its clause is the law.
ghost use Rattle.sal_resume.specs.Newest.{FramesLeadToTheNewest};
ghost use Rattle.sal_resume.specs.OverEpochs.{StreamsGoOnOverEpochs, StreamsGoOnOverHubs};

/// A follower of the frames of a domain has its newest commit, and the newest trees.
pub fn frames_lead_to_the_newest()
    ensures { FramesLeadToTheNewest }
{}

/// A stream that ends with the newest trees of a hub continues with the frames of the next hub from commit 1 on, for any calls to it, if all
/// frames are by one schema.
pub fn streams_go_on_over_epochs()
    ensures { StreamsGoOnOverEpochs }
{}

/// A stream that ends with the trees with which a hub opens continues with the frames of this hub from commit 1 on, for any calls to it, if all
/// frames are by one schema: as from one leader to the next.
pub fn streams_go_on_over_hubs()
    ensures { StreamsGoOnOverHubs }
{}
