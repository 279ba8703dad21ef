//! Committed trees are closed by the present versions of their schemas, and the newest break no rule of them.
ghost use Rattle.sal_history_laws.specs.Logs.{AreSentLawful, AreSound, IsClosedLog};
ghost use Rattle.std.specs.Prelude.{◌≡◌, ◌<◌, ◌≤◌, ℕ, None, length};
ghost use Rattle.sal_types.specs.declared.value.Store.{Store};
ghost use Rattle.sal_rules.specs.Breaches.{breach};
ghost use Rattle.sal_history.specs.History.{history, newest_tree};
ghost use Rattle.sal_history.specs.Versions.{tables_now};
ghost use Rattle.sal_history.specs.World.{OneIsUpgraded};
ghost use Rattle.sal_hub.specs.Begins.{AreOfWriters};

use crate::hub::Hub;

impl Hub {
    /// Does nothing; its contract is a law of each hub. The newest trees of each domain break no structural rule of the present version
    /// of its schema.
    pub fn keeps_the_rules(&self)
        ensures { (domain : ℕ) (s : Store) → domain < length self.now.world → breach (tables_now self.now.world (history self.now.world self.now.log) domain) s (newest_tree self.now.world self.now.log domain s) ≡ None }
    {
        // (a part of the hub is borrowed, so that the proof has the hub's invariant)
        let _log = self.journal.entries();
    }

    /// Does nothing; its contract is a law of each hub. The trees of each domain at each of its commits are closed by the
    /// present version of its schema, and so are the bases of its transactions: each list entry and presence container above a row has its own
    /// row, and each entry its key leafs, with the values of its keys.
    pub fn stays_closed(&self)
        ensures { IsClosedLog self.now.world (history self.now.world self.now.log) }
    {
        // (a part of the hub is borrowed, so that the proof has the hub's invariant)
        let _log = self.journal.entries();
        sal_history_laws::laws::committed_trees_are_closed();
    }

    /// Does nothing; its contract is a law of each hub. Each version of a schema extends the one before, and the opening trees are closed by
    /// version 0. Each submission is lawful, by the present version, over its transaction's base, and an earlier entry began that
    /// transaction in a mode that writes. Only domain 0 has more than one version, and there is a domain 0.
    pub fn stays_lawful(&self)
        ensures sound { AreSound self.now.world }
        ensures lawful { AreSentLawful self.now.world (history self.now.world self.now.log) }
        ensures writers { AreOfWriters (history self.now.world self.now.log) }
        ensures only { OneIsUpgraded self.now.world }
        ensures some { 1 ≤ length self.now.world }
    {
        // (a part of the hub is borrowed, so that the proof has the hub's invariant)
        let _log = self.journal.entries();
    }
}
