//! The reads and writes of a hub's transactions, if they are applied one after another.
ghost use Rattle.sal_history.specs.History.{history};
ghost use Rattle.sal_hub.specs.Serial.{AreSerialised};

use crate::hub::Hub;

impl Hub {
    /// Does nothing; its contract is a law of each hub. Applied one after another in the order of their commits, the done transactions of a domain
    /// give the trees of the log. Each reads what it read in the log, for the reads that are among its operations: in mode `Checked`
    /// each read is. And each of its writes would be accepted there too.
    pub fn stays_serialisable(&self)
        ensures { AreSerialised self.now.world (history self.now.world self.now.log) }
    {
        // (a part of the hub is borrowed, so that the proof has the hub's invariant)
        let _log = self.journal.entries();
        sal_history_laws::serial::checked_runs_are_serialisable();
        sal_history_laws::serial::accepted_writes_stand();
    }
}
