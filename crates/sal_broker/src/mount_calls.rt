//! Shared calls of mounts, each in one turn.
ghost use Rattle.std.specs.Prelude.{◌≡◌, ℕ, Option};
ghost use Rattle.sal_history.specs.declared.call.Call.TheVariants.{Mount, MountAt, Unmount};
ghost use Rattle.sal_history.specs.declared.reply.Reply.TheVariants.{Accepted, MountAt as Stands};
ghost use Rattle.sal_hub.specs.Answers.{Calls};
ghost use Rattle.sal_hub.specs.HubHistory.{entry_of};
ghost use Rattle.sal_broker.specs.Turns.{InTurn, Keeps};

use crate::sal::Sal;
use crate::seat::Seat;
use sal_rows::CallFault;
use sal_types::Path;
use std::alloc::Global;
use std::sync::Wait;

impl Sal {
    /// Mounts the device at the path of the controller's own domain. Its domain, which has the device's number, is live then.
    pub fn mount<R: Wait>(
        &self,
        rt: &R,
        alloc: Global,
        seat: &mut Seat,
        path: &Path,
        device: u32,
    ) -> Result<(), CallFault>
        requires { seat.old.lock ≡ self.now }
        ensures same { Keeps self.now seat.old seat.new }
        ensures turn { InTurn seat.old.view seat.new.view (λ client found left. Calls found left (entry_of found client (Mount path.now device)) (λ _. Accepted) result) }
    {
        let mut held = self.take_turn(rt, &mut seat.inner);
        let client = held.number();
        let answer = held.hub().mount(alloc, client, path, device);
        seat.inner = self.leave(held).inner;
        answer
    }

    /// Unmounts the domain. Its pending submissions are decided as unmounted.
    pub fn unmount<R: Wait>(
        &self,
        rt: &R,
        alloc: Global,
        seat: &mut Seat,
        domain: u32,
    ) -> Result<(), CallFault>
        requires { seat.old.lock ≡ self.now }
        ensures same { Keeps self.now seat.old seat.new }
        ensures turn { InTurn seat.old.view seat.new.view (λ client found left. Calls found left (entry_of found client (Unmount domain)) (λ _. Accepted) result) }
    {
        let mut held = self.take_turn(rt, &mut seat.inner);
        let client = held.number();
        let answer = held.hub().unmount(alloc, client, domain);
        seat.inner = self.leave(held).inner;
        answer
    }

    /// The domain that is mounted at the path, if any.
    pub fn mount_at<R: Wait>(
        &self,
        rt: &R,
        alloc: Global,
        seat: &mut Seat,
        path: &Path,
    ) -> Result<Option<u32>, CallFault>
        requires { seat.old.lock ≡ self.now }
        ensures same { Keeps self.now seat.old seat.new }
        ensures turn { InTurn seat.old.view seat.new.view (λ client found left. Calls found left (entry_of found client (MountAt path.now)) (λ (mounted : Option ℕ). Stands mounted) result) }
    {
        let mut held = self.take_turn(rt, &mut seat.inner);
        let client = held.number();
        let answer = held.hub().mount_at(alloc, client, path);
        seat.inner = self.leave(held).inner;
        answer
    }
}
