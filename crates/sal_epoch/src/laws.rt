//! Laws of epochs. Each function does nothing; its contract is the law.
ghost use Rattle.sal_epoch.specs.Epochs.{EpochsBeginWhereOneEnds, HubsAreStateless};

/// No newest configuration of a hub has state data, if its openings were not refused. So no opening of the next hub is refused (`next_hub`).
pub fn hubs_are_stateless()
    ensures { HubsAreStateless }
{}

/// For any calls to the next hub, its trees at commit 0 are the newest ones of the hub before.
pub fn epochs_begin_where_one_ends()
    ensures { EpochsBeginWhereOneEnds }
{}
