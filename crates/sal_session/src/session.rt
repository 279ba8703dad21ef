//! A session: what a host's handle holds.
ghost use Rattle.std.specs.Prelude.{◌≡◌, [], IfOk};
ghost use Rattle.sal_session.specs.Sessions as spec;
ghost use Rattle.sal_session.specs.Texts.{IsLine, told};
ghost use Rattle.sal_session.specs.Sessions.{IsNew};
ghost use Rattle.sal_session.specs.declared.role.Role.TheVariants.{Closed};
ghost use Rattle.sal_prepare.specs.Statuses.{line_of};

use crate::numbers::{BROKEN, DONE, IS_STANDBY, NO_MEMORY, NOT_OPEN, number_of};
use crate::role::Role;
use crate::text::{Text, line_of, nothing};
use sal_cluster::Leader;
use sal_embed::{Embedded, StepFault};
use sal_prepare::status::Status;
use sal_types::NoMemory;
use std::alloc::Global;

/// A broker, a stand-by or nothing, with the text of the last call: a reply, a report, frames, or why a call has none.
#[derive(Drop)]
pub struct Session {
    pub(crate) role: Role,
    pub(crate) text: Text,
}

impl Session {
    /// Opens a broker, if the script is valid, and returns the number of the status. The text is the line of the script's fault.
    pub fn open(alloc: Global, script: &[u8]) -> (Session, u32)
        ensures { spec.Opens script.now result.0.role (told result.0.text) result.1 }
    {
        match Embedded::open(alloc, script) {
            Ok(broker) => (begun_with(broker, alloc), DONE),
            Err(status) => (without(alloc, &status), u32::from(status.number())),
        }
    }

    /// The same on the heap, for a host that has a pointer to it.
    pub fn boxed(alloc: Global, script: &[u8]) -> Result<(Box<Session>, u32), NoMemory>
        ensures { IfOk result (λ it. spec.Opens script.now it.0.value.role (told it.0.value.text) it.1) }
    {
        let (session, status) = Session::open(alloc, script);
        match Box::new(alloc, session) {
            Ok(session) => Ok((session, status)),
            Err(_) => Err(NoMemory),
        }
    }

    /// Whether there is a broker or a stand-by.
    pub fn is_open(&self) -> bool
        ensures { result ≡ spec.is_open self.now.role }
    {
        self.role.is_open()
    }

    /// The text of the last call.
    pub fn reply(&self) -> &[u8]
        ensures { result.now ≡ told self.now.text }
    {
        self.text.items()
    }

    /// Makes the client's next step. The text is that of its reply.
    pub fn step(&mut self, alloc: Global, client: u32, step: &[u8]) -> u32
        ensures { spec.StepsIf self.old.role client step.now self.new result }
    {
        self.text = nothing(alloc);
        match &mut self.role {
            Role::Closed => NOT_OPEN,
            Role::StandBy { .. } => IS_STANDBY,
            Role::Broker { leader } => match leader.broker.step(alloc, client, step) {
                Ok(text) => {
                    self.text = Text::Words { text };
                    DONE
                }
                Err(fault) => self.fail(fault),
            },
        }
    }

    /// What waits for a broker's client at this number of its slots, as the sum of 1 for a request, 2 for notifications, 4 for an answer, 8 for a
    /// decided submission and 16 for changes; 0 without a broker.
    pub fn waits(&self, client: u32, slot: u8) -> u32
        ensures { spec.WaitsIn self.now.role client slot result }
    {
        match &self.role {
            Role::Broker { leader } => leader.broker.waits(client, slot).bits(),
            Role::Closed | Role::StandBy { .. } => 0,
        }
    }

    // The number of a fault. A broken broker is dropped.
    fn fail(&mut self, fault: StepFault) -> u32
        ensures { spec.Fails fault self.old self.new result }
    {
        if is_broken(fault) {
            self.role = Role::Closed;
            return BROKEN;
        }
        number_of(fault)
    }

    /// The text is the report of all steps so far.
    pub fn report(&mut self, alloc: Global) -> u32
        ensures { spec.ReportsIf self.old.role self.new result }
    {
        self.text = nothing(alloc);
        match &mut self.role {
            Role::Closed => NOT_OPEN,
            Role::StandBy { .. } => IS_STANDBY,
            Role::Broker { leader } => match leader.broker.report(alloc) {
                Ok(text) => {
                    self.text = Text::Words { text };
                    DONE
                }
                Err(NoMemory) => NO_MEMORY,
            },
        }
    }
}

fn begun_with(broker: Embedded, alloc: Global) -> Session
    ensures role { IsNew broker result.role }
    ensures text { told result.text ≡ [] }
{
    let leader = Leader::first(broker);
    Session {
        role: Role::Broker { leader },
        text: nothing(alloc),
    }
}

/// A session with neither, and with the line of the status.
pub(crate) fn without(alloc: Global, status: &Status) -> Session
    ensures role { result.role ≡ Closed }
    ensures text { IsLine (line_of status.now) (told result.text) }
{
    Session {
        role: Role::Closed,
        text: line_of(alloc, status),
    }
}

fn is_broken(fault: StepFault) -> bool
    ensures { result ≡ spec.is_broken fault }
{
    match fault {
        StepFault::Broken => true,
        StepFault::BadStep
        | StepFault::BadClient
        | StepFault::Full
        | StepFault::Lost
        | StepFault::NoMemory
        | StepFault::Untold => false,
    }
}
