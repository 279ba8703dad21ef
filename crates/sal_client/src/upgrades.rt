//! Upgrades of the schema of the controller's own domain.
ghost use Rattle.std.specs.Prelude.{◌≡◌, true};
ghost use Rattle.sal_script.specs.Moves as asked;
ghost use Rattle.sal_script.specs.Tables.{has_upgrade, versions_of};
ghost use Rattle.sal_client.specs.Leaving.{Leaves};
ghost use Rattle.sal_client.specs.declared.wish.Wish.TheVariants.{Upgrade};

use crate::answers::{accepted, answer_to};
use crate::client::ClientState;
use crate::fault::StepFault;
use crate::readers::Readers;
use crate::wish::{CallResult, Wish, Wished};
use sal_hub::{Hub, laws};
use sal_script::StepRefusal;
use std::alloc::Global;

impl ClientState {
    ghost use Rattle.sal_client.specs.Clients.{IsSound};
    ghost use Rattle.sal_client.specs.Wishes.{Wants};

    /// To upgrade to the version, if the script has it.
    pub(crate) fn upgrade_wish(&self, readers: &Readers, version: u32) -> Wished
        ensures { Wants readers.now self.now (asked.Upgrade version) result }
    {
        if readers.has_upgrade(version) {
            Ok(Wish::Upgrade { version })
        } else {
            Err(StepFault::Refused(StepRefusal::NoUpgrade))
        }
    }

    /// Upgrades the schema of the controller's own domain to the version.
    pub(crate) fn upgrade(&self, alloc: Global, hub: &mut Hub, version: u32) -> CallResult
        requires sound { IsSound hub.old self.now }
        requires read { has_upgrade (versions_of hub.old.world) version ≡ true }
        ensures { Leaves (Upgrade version) hub.old self.now hub.new self.now result }
    {
        laws::tokens_last();
        answer_to(accepted(hub.upgrade(alloc, self.number, version)))
    }
}
