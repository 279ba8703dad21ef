//! The upgrade of the controller's own domain, in one turn.
ghost use Rattle.std.specs.Prelude.{◌≡◌, ◌≤◌};
ghost use Rattle.sal_history.specs.declared.call.Call.TheVariants.{Upgrade};
ghost use Rattle.sal_history.specs.declared.reply.Reply.TheVariants.{Accepted};
ghost use Rattle.sal_hub.specs.Answers.{Calls};
ghost use Rattle.sal_hub.specs.HubHistory.{entry_of};
ghost use Rattle.sal_hub.specs.Upgrades.{upgrades_of};
ghost use Rattle.sal_broker.specs.Seats.{known};
ghost use Rattle.sal_broker.specs.Turns.{InTurn, Keeps};

use crate::sal::Sal;
use crate::seat::Seat;
use sal_rows::CallFault;
use std::alloc::Global;
use std::sync::Wait;

impl Sal {
    /// Makes the next version of the schema of the controller's own domain the present one, unless a newest tree would break a structural rule
    /// of it. The version is one of those of the broker's opening.
    pub fn upgrade<R: Wait>(
        &self,
        rt: &R,
        alloc: Global,
        seat: &mut Seat,
        version: u32,
    ) -> Result<(), CallFault>
        requires lock { seat.old.lock ≡ self.now }
        requires low { 1 ≤ version }
        requires high { version ≤ upgrades_of (known seat.old.view).world }
        ensures same { Keeps self.now seat.old seat.new }
        ensures turn { InTurn seat.old.view seat.new.view (λ client found left. Calls found left (entry_of found client (Upgrade version)) (λ _. Accepted) result) }
    {
        let mut held = self.take_turn(rt, &mut seat.inner);
        let client = held.number();
        held.knows_version(version);
        let answer = held.hub().upgrade(alloc, client, version);
        seat.inner = self.leave(held).inner;
        answer
    }
}
