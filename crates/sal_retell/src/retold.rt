//! The replies of a log, from its entries and the outcomes of its submissions.
ghost use Rattle.std.specs.Prelude.{◌≡◌, ◌++◌, [], IfOk, OnOk, List, length};
ghost use Rattle.std.specs.Option.{option_to_list};
ghost use Rattle.sal_mount.specs.declared.call.MountCall.{MountCall};
ghost use Rattle.sal_mount.specs.Register.{IsOf};
ghost use Rattle.sal_history.specs.History.{history, outcomes as outcomes_of};
ghost use Rattle.sal_history.specs.Services.{mount_call};
ghost use Rattle.sal_history.specs.World.{Domain as World};
ghost use Rattle.sal_retell.specs.Light as spec;
ghost use Rattle.sal_retell.specs.Told.{IsRetold};

use crate::front::{Footing, Front};
use crate::services::{mount, mount_at, unmount};
use sal_history::{Call, Entry, Reply};
use sal_rows::Outcome;
use sal_types::{NoMemory, append};
use std::alloc::Global;

/// The replies to the entries of a log, and the base of each submission.
#[derive(Drop)]
pub struct Retold {
    pub sent: Vec<Footing>,
    pub replies: Vec<Reply>,
}

/// The records of the entries so far, and the replies to them.
#[derive(Drop)]
pub struct Course {
    pub front: Front,
    pub replies: Vec<Reply>,
}

// The reply to the call. The mounts then have the call.
fn reply_to(
    front: &mut Front,
    outcomes: &[Outcome],
    footing: Footing,
    call: &Call,
) -> Result<Reply, NoMemory>
    ensures answer { (calls : List MountCall) → IsOf calls front.old.mounts → footing ≡ spec.asked_on (spec.light_in front.old []) outcomes.now call.now → IfOk result (λ r. r ≡ spec.answer_on (spec.light_in front.old calls) outcomes.now call.now) }
    ensures mounts { (calls : List MountCall) → IsOf calls front.old.mounts → OnOk result (IsOf (calls ++ option_to_list (mount_call call.now)) front.new.mounts) }
    ensures same { OnOk result (spec.light_in front.new [] ≡ spec.light_in front.old []) }
{
    match call {
        Call::Mount { path, device } => mount(&mut front.mounts, path, *device),
        Call::Unmount { domain } => unmount(&mut front.mounts, *domain),
        Call::MountAt { path } => Ok(mount_at(&front.mounts, path)),
        _ => front.answer(outcomes, footing, call),
    }
}

impl Course {
    // Adds one entry.
    fn tell(&mut self, outcomes: &[Outcome], call: &Call) -> Result<(), NoMemory>
        ensures { OnOk result (spec.Tells outcomes.now call.now self.old self.new) }
    {
        let footing = self.front.asked_on(outcomes, call);
        let reply = reply_to(&mut self.front, outcomes, footing, call)?;
        self.front.note(footing, call, &reply)?;
        append(&mut self.replies, reply)
    }
}

// The course of a log over this many domains, with these outcomes.
fn course_of(
    alloc: Global,
    domains: u32,
    log: &[Entry],
    outcomes: &[Outcome],
) -> Result<Course, NoMemory>
    ensures { IfOk result (spec.IsThrough domains log.now outcomes.now) }
{
    let mut course = Course {
        front: Front::new(alloc, domains),
        replies: Vec::new(alloc),
    };
    for entry in log {
        course.tell(outcomes, &entry.call)?;
    }
    Ok(course)
}

/// The replies to the entries of a log over this many domains, whose submissions have these outcomes. It fails only if memory runs out.
///
/// The replies are those of each world with as many domains in which the log gives these outcomes: they need no data.
pub fn retell(
    alloc: Global,
    domains: u32,
    log: &[Entry],
    outcomes: &[Outcome],
) -> Result<Retold, NoMemory>
    ensures { (world : List World) → length world ≡ «domains» → outcomes.now ≡ outcomes_of (history world log.now) → IfOk result (IsRetold (history world log.now)) }
{
    let course = course_of(alloc, domains, log, outcomes)?;
    Ok(retold_by(course))
}

fn retold_by(course: Course) -> Retold
    ensures sent { result.sent.items ≡ course.front.sent.items }
    ensures replies { result.replies.items ≡ course.replies.items }
{
    let Course { front, replies } = course;
    let Front { sent, .. } = front;
    Retold { sent, replies }
}
