//! The calls of a stand-by.
ghost use Rattle.std.specs.Prelude.{◌≡◌, ◌<◌, [], IfOk, length};
ghost use Rattle.sal_session.specs.declared.role.Role.TheVariants.{StandBy as Waits};
ghost use Rattle.sal_session.specs.Streams as spec;
ghost use Rattle.sal_session.specs.Texts.{IsLine, feed_line, told};

use crate::answer::{Answer, bare};
use crate::numbers::{
    BAD_DOMAIN, BAD_STREAM, BAD_VERSION, DONE, EMPTY, IS_OPEN, NO_MEMORY, NOT_OPEN,
};
use crate::role::Role;
use crate::session::{Session, without};
use crate::text::{line_of, nothing, stream_line};
use sal_cluster::{LeadFault, Leader, StandBy};
use sal_follow::FollowFault;
use sal_prepare::status::Status;
use sal_types::NoMemory;
use std::alloc::Global;

impl Session {
    /// Opens a stand-by of the broker of this script, before streams that begin with the frames of these numbers, of domain 0 first; of number 0 where
    /// none is given. The text is the line of the script's fault.
    pub fn follow(alloc: Global, script: &[u8], firsts: &[u64]) -> (Session, u32)
        ensures { spec.Follows script.now firsts.now result.0.role (told result.0.text) result.1 }
    {
        match StandBy::open(alloc, script, firsts) {
            Ok(standby) => (waiting(alloc, standby), DONE),
            Err(status) => (without(alloc, &status), u32::from(status.number())),
        }
    }

    /// The same on the heap, for a host that has a pointer to it.
    pub fn follow_boxed(
        alloc: Global,
        script: &[u8],
        firsts: &[u64],
    ) -> Result<(Box<Session>, u32), NoMemory>
        ensures { IfOk result (λ it. spec.Follows script.now firsts.now it.0.value.role (told it.0.value.text) it.1) }
    {
        let (session, status) = Session::follow(alloc, script, firsts);
        match Box::new(alloc, session) {
            Ok(session) => Ok((session, status)),
            Err(_) => Err(NoMemory),
        }
    }

    /// The stand-by takes the next piece of the domain's stream. The text is the line of the stream's fault.
    pub fn feed(&mut self, alloc: Global, domain: u32, piece: &[u8]) -> u32
        ensures { spec.FeedsIf self.old.role domain piece.now self.new result }
    {
        self.text = nothing(alloc);
        match &mut self.role {
            Role::Closed => NOT_OPEN,
            Role::Broker { .. } => IS_OPEN,
            Role::StandBy { standby } => {
                let answer = fed(alloc, standby, domain, piece);
                self.tell(answer)
            }
        }
    }

    /// The stand-by becomes the broker, by this version of the schema. Else it stays.
    pub fn lead(&mut self, alloc: Global, version: u32) -> u32
        ensures { spec.LeadsIf self.old.role version self.new result }
    {
        match led(alloc, &self.role, version) {
            Ok(leader) => {
                self.role = Role::Broker { leader };
                self.text = nothing(alloc);
                DONE
            }
            Err(answer) => self.tell(answer),
        }
    }
}

fn waiting(alloc: Global, standby: StandBy) -> Session
    ensures role { result.role ≡ Waits standby }
    ensures text { told result.text ≡ [] }
{
    Session {
        role: Role::StandBy { standby },
        text: nothing(alloc),
    }
}

// Feeds the domain's follower, if there is one.
fn fed(alloc: Global, standby: &mut StandBy, domain: u32, piece: &[u8]) -> Answer
    ensures { spec.Fed (spec.follows_domain standby.old domain) standby.old domain piece.now standby.new result.number (told result.text) }
{
    if standby.has_domain(domain) {
        return fed_one(alloc, standby, domain, piece);
    }
    bare(alloc, BAD_DOMAIN)
}

fn fed_one(alloc: Global, standby: &mut StandBy, domain: u32, piece: &[u8]) -> Answer
    requires { domain < length standby.old.followers.items }
    ensures { spec.FedOne standby.old domain piece.now standby.new result.number (told result.text) }
{
    match standby.feed(domain, piece) {
        Ok(()) => bare(alloc, DONE),
        Err(fault) => feed_told(alloc, fault),
    }
}

fn feed_told(alloc: Global, fault: FollowFault) -> Answer
    ensures { spec.IsFeed fault result.number (told result.text) }
{
    match fault {
        FollowFault::NoMemory => bare(alloc, NO_MEMORY),
        FollowFault::BadFrame { .. } => bad_stream(alloc, fault),
        FollowFault::Gap { .. } => bad_stream(alloc, fault),
    }
}

fn bad_stream(alloc: Global, fault: FollowFault) -> Answer
    ensures number { result.number ≡ 12 }
    ensures text { IsLine (feed_line fault) (told result.text) }
{
    Answer {
        number: BAD_STREAM,
        text: stream_line(alloc, fault),
    }
}

// The leader that the stand-by becomes, or the answer why it does not.
fn led(alloc: Global, role: &Role, version: u32) -> Result<Leader, Answer>
    ensures { spec.IsLed role.now version result }
{
    match role {
        Role::Closed => Err(bare(alloc, NOT_OPEN)),
        Role::Broker { .. } => Err(bare(alloc, IS_OPEN)),
        Role::StandBy { standby } => match standby.lead(alloc, version) {
            Ok(leader) => Ok(leader),
            Err(fault) => Err(lead_told(alloc, &fault)),
        },
    }
}

fn lead_told(alloc: Global, fault: &LeadFault) -> Answer
    ensures { spec.IsLead fault.now result.number (told result.text) }
{
    match fault {
        LeadFault::Empty => bare(alloc, EMPTY),
        LeadFault::BadVersion => bare(alloc, BAD_VERSION),
        LeadFault::Refused { status } => refused(alloc, status),
    }
}

fn refused(alloc: Global, status: &Status) -> Answer
    ensures { spec.IsRefused status.now result.number (told result.text) }
{
    Answer {
        number: u32::from(status.number()),
        text: line_of(alloc, status),
    }
}
