//! The calls of a broker whose commits become frames.
ghost use Rattle.std.specs.Prelude.{◌≡◌, ◌<◌, length};
ghost use Rattle.sal_cluster.specs.Leaders.{number_of};
ghost use Rattle.sal_cluster.specs.StandBys.{follower_at, number_held};
ghost use Rattle.sal_prepare.specs.Statuses.{line_of};
ghost use Rattle.sal_prepare.specs.declared.status.Status.TheVariants.{BadExport};
ghost use Rattle.sal_session.specs.Streams as spec;
ghost use Rattle.sal_session.specs.Texts.{IsLine, told};

use crate::answer::{Answer, bare};
use crate::numbers::{
    BAD_DOMAIN, BAD_EXPORT, BAD_STEP, DONE, EMPTY, GONE, IS_STANDBY, NO_MEMORY, NOT_OPEN,
    epoch_number,
};
use crate::role::Role;
use crate::session::Session;
use crate::text::{Text, export_line, nothing};
use sal_cluster::{FramesFault, Leader, LookFault, Place, StandBy};
use sal_follow::ExportFault;
use sal_types::{Bytes, Store, Str};
use std::alloc::Global;
use std::mem;

impl Session {
    /// The text is the frames of the domain's commits with numbers above this one, of a broker.
    pub fn frames(&mut self, alloc: Global, domain: u32, above: u64) -> u32
        ensures { spec.FramesIf self.old.role domain above self.new result }
    {
        let answer = frames_of(alloc, &self.role, domain, above);
        self.tell(answer)
    }

    /// The text is the frame of the domain's newest commit, with all rows.
    pub fn snapshot(&mut self, alloc: Global, domain: u32) -> u32
        ensures { spec.SnapshotsIf self.old.role domain self.new result }
    {
        let answer = snapshot_of(alloc, &self.role, domain);
        self.tell(answer)
    }

    /// The text is that of a read in the newest tree of a domain's store: 0 is the configuration, 1 the operational one.
    pub fn look(&mut self, alloc: Global, domain: u32, store: u32, path: &[u8]) -> u32
        ensures { spec.LooksIf self.old.role domain store path.now self.new result }
    {
        let answer = look_of(alloc, &self.role, domain, store, path);
        self.tell(answer)
    }

    /// Begins the next epoch, if no submission is pending and the newest commits of the first domains have these numbers.
    pub fn epoch(&mut self, alloc: Global, newest: &[u64]) -> u32
        ensures { spec.EpochIf self.old.role newest.now self.new result }
    {
        self.text = nothing(alloc);
        match mem::replace(&mut self.role, Role::Closed) {
            Role::Closed => NOT_OPEN,
            Role::StandBy { standby } => {
                self.role = Role::StandBy { standby };
                IS_STANDBY
            }
            Role::Broker { leader } => {
                let (leader, number) = begun(alloc, leader, newest);
                self.role = Role::Broker { leader };
                number
            }
        }
    }

    /// How many entries the log of a broker has left; 0 without a broker.
    pub fn left(&self) -> usize
        ensures { result ≡ spec.left_in self.now.role }
    {
        match &self.role {
            Role::Broker { leader } => leader.entries_left(),
            Role::Closed | Role::StandBy { .. } => 0,
        }
    }

    /// The number of the domain's newest commit, or of a stand-by's last frame; 0 if there is none.
    pub fn number(&self, domain: u32) -> u64
        ensures { result ≡ spec.number_in self.now.role domain }
    {
        match &self.role {
            Role::Closed => 0,
            Role::Broker { leader } => leader_number(leader, domain),
            Role::StandBy { standby } => standby_number(standby, domain),
        }
    }

    /// How many domains there are, with the controller's own; 0 without a broker and a stand-by.
    pub fn domains(&self) -> usize
        ensures { result ≡ spec.domains_in self.now.role }
    {
        match &self.role {
            Role::Closed => 0,
            Role::Broker { leader } => leader.domains(),
            Role::StandBy { standby } => standby.domains(),
        }
    }

    /// The present version of a broker's schema, as the script counts; 0 without a broker.
    pub fn version(&self) -> u32
        ensures { result ≡ spec.version_in self.now.role }
    {
        match &self.role {
            Role::Broker { leader } => leader.present(),
            Role::Closed | Role::StandBy { .. } => 0,
        }
    }

    /// Takes the text of the answer, and returns its status.
    pub(crate) fn tell(&mut self, answer: Answer) -> u32
        ensures number { result ≡ answer.number }
        ensures text { self.new.text ≡ answer.text }
        ensures role { self.new.role ≡ self.old.role }
    {
        let Answer { number, text } = answer;
        self.text = text;
        number
    }
}

fn leader_number(leader: &Leader, domain: u32) -> u64
    ensures { result ≡ spec.leader_number (spec.leads_domain leader.now domain) leader.now domain }
{
    if leader.has_domain(domain) {
        return short_number(leader, domain);
    }
    0
}

fn short_number(leader: &Leader, domain: u32) -> u64
    requires { domain < length leader.now.broker.hub.world }
    ensures { result ≡ spec.short (number_of leader.now.broker.hub leader.now.bases domain) }
{
    leader.number(domain).unwrap_or(0)
}

fn standby_number(standby: &StandBy, domain: u32) -> u64
    ensures { result ≡ number_held (follower_at standby.now.followers.items domain) }
{
    if standby.has_domain(domain) {
        return standby.number(domain).unwrap_or(0);
    }
    0
}

fn frames_of(alloc: Global, role: &Role, domain: u32, above: u64) -> Answer
    ensures { spec.FramesOf role.now domain above result.number (told result.text) }
{
    match role {
        Role::Closed => bare(alloc, NOT_OPEN),
        Role::StandBy { .. } => bare(alloc, IS_STANDBY),
        Role::Broker { leader } => leader_frames(alloc, leader, domain, above),
    }
}

fn leader_frames(alloc: Global, leader: &Leader, domain: u32, above: u64) -> Answer
    ensures { spec.InDomain (spec.leads_domain leader.now domain) (spec.LeaderFrames leader.now domain above) result.number (told result.text) }
{
    if leader.has_domain(domain) {
        return frames_told(alloc, leader.frames(alloc, domain, above));
    }
    bare(alloc, BAD_DOMAIN)
}

fn frames_told(alloc: Global, made: Result<Bytes, FramesFault>) -> Answer
    ensures { spec.IsFrames made result.number (told result.text) }
{
    match made {
        Ok(bytes) => done(Text::Frames { bytes }),
        Err(FramesFault::TooLong { number }) => too_long(alloc, number),
        Err(FramesFault::Gone) => bare(alloc, GONE),
        Err(FramesFault::NoMemory) => bare(alloc, NO_MEMORY),
    }
}

fn snapshot_of(alloc: Global, role: &Role, domain: u32) -> Answer
    ensures { spec.SnapshotOf role.now domain result.number (told result.text) }
{
    match role {
        Role::Closed => bare(alloc, NOT_OPEN),
        Role::Broker { leader } => leader_snapshot(alloc, leader, domain),
        Role::StandBy { standby } => standby_snapshot(alloc, standby, domain),
    }
}

fn leader_snapshot(alloc: Global, leader: &Leader, domain: u32) -> Answer
    ensures { spec.InDomain (spec.leads_domain leader.now domain) (spec.LeaderSnapshot leader.now domain) result.number (told result.text) }
{
    if leader.has_domain(domain) {
        return export_told(alloc, leader.snapshot(alloc, domain));
    }
    bare(alloc, BAD_DOMAIN)
}

fn standby_snapshot(alloc: Global, standby: &StandBy, domain: u32) -> Answer
    ensures { spec.InDomain (spec.follows_domain standby.now domain) (spec.StandBySnapshot (follower_at standby.now.followers.items domain)) result.number (told result.text) }
{
    if standby.has_domain(domain) {
        return export_if(alloc, standby.snapshot(domain));
    }
    bare(alloc, BAD_DOMAIN)
}

fn export_if(alloc: Global, made: Option<Result<Bytes, ExportFault>>) -> Answer
    ensures { spec.IsExportIf made result.number (told result.text) }
{
    match made {
        Some(made) => export_told(alloc, made),
        None => bare(alloc, EMPTY),
    }
}

fn export_told(alloc: Global, made: Result<Bytes, ExportFault>) -> Answer
    ensures { spec.IsExport made result.number (told result.text) }
{
    match made {
        Ok(bytes) => done(Text::Frames { bytes }),
        Err(ExportFault::TooLong { commit }) => too_long(alloc, commit),
        Err(ExportFault::NoMemory) => bare(alloc, NO_MEMORY),
    }
}

fn look_of(alloc: Global, role: &Role, domain: u32, store: u32, path: &[u8]) -> Answer
    ensures { spec.LookOf role.now domain store path.now result.number (told result.text) }
{
    match role {
        Role::Closed => bare(alloc, NOT_OPEN),
        Role::Broker { leader } => look_at_leader(alloc, leader, domain, store, path),
        Role::StandBy { standby } => look_at_standby(alloc, standby, domain, store, path),
    }
}

fn look_at_leader(alloc: Global, leader: &Leader, domain: u32, store: u32, path: &[u8]) -> Answer
    ensures { spec.InDomain (spec.leads_domain leader.now domain) (spec.LeaderLooks leader.now domain store path.now) result.number (told result.text) }
{
    if leader.has_domain(domain) {
        return look_in_leader(alloc, leader, domain, store, path);
    }
    bare(alloc, BAD_DOMAIN)
}

fn look_in_leader(alloc: Global, leader: &Leader, domain: u32, store: u32, path: &[u8]) -> Answer
    requires { domain < length leader.now.broker.hub.world }
    ensures { spec.LeaderLooks leader.now domain store path.now result.number (told result.text) }
{
    match store_of(store) {
        Some(store) => look_told(alloc, leader.look(alloc, Place { domain, store }, path)),
        None => bare(alloc, BAD_STEP),
    }
}

fn look_at_standby(alloc: Global, standby: &StandBy, domain: u32, store: u32, path: &[u8]) -> Answer
    ensures { spec.InDomain (spec.follows_domain standby.now domain) (spec.LooksIn standby.now domain store path.now) result.number (told result.text) }
{
    if standby.has_domain(domain) {
        return look_in_standby(alloc, standby, domain, store, path);
    }
    bare(alloc, BAD_DOMAIN)
}

fn look_in_standby(alloc: Global, standby: &StandBy, domain: u32, store: u32, path: &[u8]) -> Answer
    requires { domain < length standby.now.followers.items }
    ensures { spec.LooksIn standby.now domain store path.now result.number (told result.text) }
{
    match standby.number(domain) {
        Some(_) => look_once(alloc, standby, domain, store, path),
        None => bare(alloc, EMPTY),
    }
}

fn look_once(alloc: Global, standby: &StandBy, domain: u32, store: u32, path: &[u8]) -> Answer
    requires { domain < length standby.now.followers.items }
    ensures { spec.StandByLooks standby.now domain store path.now result.number (told result.text) }
{
    match store_of(store) {
        Some(store) => look_told(alloc, standby.look(alloc, Place { domain, store }, path)),
        None => bare(alloc, BAD_STEP),
    }
}

fn look_told(alloc: Global, made: Result<Str, LookFault>) -> Answer
    ensures { spec.IsLook made result.number (told result.text) }
{
    match made {
        Ok(text) => done(Text::Words { text }),
        Err(LookFault::BadText) => bare(alloc, BAD_STEP),
        Err(LookFault::NoMemory) => bare(alloc, NO_MEMORY),
    }
}

// The store of this number.
fn store_of(number: u32) -> Option<Store>
    ensures { result ≡ spec.store_of number }
{
    if number == 0 {
        return Some(Store::Config);
    }
    if number == 1 {
        return Some(Store::Oper);
    }
    None
}

fn done(text: Text) -> Answer
    ensures number { result.number ≡ 0 }
    ensures text { result.text ≡ text }
{
    Answer { number: DONE, text }
}

fn too_long(alloc: Global, number: u64) -> Answer
    ensures number { result.number ≡ 13 }
    ensures text { IsLine (line_of (BadExport number)) (told result.text) }
{
    Answer {
        number: BAD_EXPORT,
        text: export_line(alloc, number),
    }
}

// The leader of the next epoch, or the same one with the number of why there is none.
fn begun(alloc: Global, leader: Leader, newest: &[u64]) -> (Leader, u32)
    ensures { spec.Began leader newest.now result.0 result.1 }
{
    match leader.next_epoch(alloc, newest) {
        Ok(leader) => (leader, DONE),
        Err((leader, fault)) => (leader, epoch_number(fault)),
    }
}
