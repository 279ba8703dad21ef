//! The calls of mounts.
ghost use Rattle.std.specs.Prelude.{◌≡◌, ℕ, ◌<◌, OnErr, OnOk, Option, length};
ghost use Rattle.sal_mount.specs.Answers as mounting;
ghost use Rattle.sal_mount.specs.declared.call.MountCall.TheVariants as asked;
ghost use Rattle.sal_mount.specs.declared.call.MountReply.TheVariants as given;
ghost use Rattle.sal_history.specs.declared.call.Call.TheVariants.{Mount, MountAt, Unmount};
ghost use Rattle.sal_history.specs.declared.reply.Reply.TheVariants.{Accepted, MountAt as Mounted};
ghost use Rattle.sal_history.specs.Services as services;
ghost use Rattle.sal_hub.specs.Answers.{Calls, CallsOver, limit};
ghost use Rattle.sal_hub.specs.Current.{known_of};
ghost use Rattle.sal_hub.specs.Journals.{taken_back};
ghost use Rattle.sal_hub.specs.HubHistory.{entry_of};
ghost use Rattle.sal_hub.specs.Mounted.{AreMounted, Enters, IsJotted};
ghost use Rattle.sal_hub.specs.Services.{IsServed};

use crate::hub::Hub;
use crate::journal::Journal;
use crate::pipeline::Pipeline;
use sal_history::Call;
use sal_mount::{MountFault, Mounts};
use sal_rows::CallFault;
use sal_types::{Duplicate, NoMemory, Path};
use std::alloc::Global;

// The path at which a client wants to mount the device.
#[derive(Clone, Copy)]
struct MountAsk<'a> {
    client: u32,
    path: &'a Path,
    device: u32,
}

impl Hub {
    /// Mounts the device at the path of the controller's own domain: the domain of its number is live from now on.
    pub fn mount(
        &mut self,
        alloc: Global,
        client: u32,
        path: &Path,
        device: u32,
    ) -> Result<(), CallFault>
        ensures answer { Calls self.old self.new (entry_of self.old client (Mount path.now device)) (λ _. Accepted) result }
    {
        if self.journal.is_full() {
            return Err(CallFault::HistoryFull);
        }
        let ask = MountAsk {
            client,
            path,
            device,
        };
        mount(
            &mut self.pipeline,
            &mut self.journal,
            &mut self.services.mounts,
            &ask,
        )
    }

    /// Unmounts the domain of a device: it is no longer live, and its pending submissions will not be committed.
    pub fn unmount(&mut self, alloc: Global, client: u32, domain: u32) -> Result<(), CallFault>
        ensures answer { Calls self.old self.new (entry_of self.old client (Unmount domain)) (λ _. Accepted) result }
    {
        if self.journal.is_full() {
            return Err(CallFault::HistoryFull);
        }
        unmount(
            &mut self.pipeline,
            &mut self.journal,
            &mut self.services.mounts,
            client,
            domain,
        )
    }

    /// The live domain that is mounted at the path, if any.
    pub fn mount_at(
        &mut self,
        alloc: Global,
        client: u32,
        path: &Path,
    ) -> Result<Option<u32>, CallFault>
        ensures answer { Calls self.old self.new (entry_of self.old client (MountAt path.now)) (λ (at : Option ℕ). Mounted at) result }
    {
        if self.journal.is_full() {
            return Err(CallFault::HistoryFull);
        }
        mount_at(
            &self.pipeline,
            &mut self.journal,
            &self.services.mounts,
            client,
            path,
        )
    }
}

// Mounts the device at the path, unless that is refused, and adds the entry. Its domain is then live.
fn mount(
    pipeline: &mut Pipeline,
    journal: &mut Journal,
    mounts: &mut Mounts,
    ask: &MountAsk,
) -> Result<(), CallFault>
    requires service { IsServed AreMounted journal.old pipeline.old mounts.old }
    requires room { length journal.old.log < limit }
    ensures service { IsServed AreMounted journal.new pipeline.new mounts.new }
    ensures answer { Calls (known_of journal.old pipeline.old) (known_of journal.new pipeline.new) (entry_of (known_of journal.old pipeline.old) ask.now.client (Mount ask.now.path.now ask.now.device)) (λ _. Accepted) result }
{
    match add_mount(journal, mounts, ask) {
        Ok(()) => {
            pipeline.set_live(ask.device, true);
            Ok(())
        }
        Err(fault) => Err(mount_fault(fault)),
    }
}

// Unmounts the domain, unless that is refused, and adds the entry. The domain is then no longer live.
fn unmount(
    pipeline: &mut Pipeline,
    journal: &mut Journal,
    mounts: &mut Mounts,
    client: u32,
    domain: u32,
) -> Result<(), CallFault>
    requires service { IsServed AreMounted journal.old pipeline.old mounts.old }
    requires room { length journal.old.log < limit }
    ensures service { IsServed AreMounted journal.new pipeline.new mounts.new }
    ensures answer { Calls (known_of journal.old pipeline.old) (known_of journal.new pipeline.new) (entry_of (known_of journal.old pipeline.old) client (Unmount domain)) (λ _. Accepted) result }
{
    match add_unmount(journal, mounts, client, domain) {
        Ok(()) => {
            pipeline.set_live(domain, false);
            Ok(())
        }
        Err(fault) => Err(mount_fault(fault)),
    }
}

// The domain that is mounted at the path, if any. It adds the entry.
fn mount_at(
    pipeline: &Pipeline,
    journal: &mut Journal,
    mounts: &Mounts,
    client: u32,
    path: &Path,
) -> Result<Option<u32>, CallFault>
    requires service { IsServed AreMounted journal.old pipeline.now mounts.now }
    requires room { length journal.old.log < limit }
    ensures service { IsServed AreMounted journal.new pipeline.now mounts.now }
    ensures answer { CallsOver pipeline.now journal.old journal.new client (MountAt path.now) (λ (at : Option ℕ). Mounted at) result }
{
    match note_question(journal, client, path) {
        Ok(()) => Ok(mounts.mount_at(path)),
        Err(NoMemory) => Err(CallFault::NoMemory),
    }
}

// The fault of a call on mounts, as that of a shared call.
fn mount_fault(fault: MountFault) -> CallFault
    ensures { result ≡ services.mount_fault fault }
{
    match fault {
        MountFault::NoDomain { id } => CallFault::NoDomain { id },
        MountFault::DeviceUsed { id } => CallFault::DeviceUsed { id },
        MountFault::MountTaken { id } => CallFault::MountTaken { id },
        MountFault::NoMemory => CallFault::NoMemory,
    }
}

// Makes the call, and adds its entry. If memory runs out, nothing visible changes.
fn add_mount(journal: &mut Journal, mounts: &mut Mounts, ask: &MountAsk) -> Result<(), MountFault>
    requires { length journal.old.log < limit }
    ensures made { mounting.Answers mounts.old mounts.new (asked.Mount ask.now.path.now ask.now.device) (λ _. given.Accepted) result }
    ensures entry { Enters journal.old journal.new ask.now.client (Mount ask.now.path.now ask.now.device) result }
{
    match note_mount(journal, ask) {
        Ok(()) => {}
        Err(NoMemory) => return Err(MountFault::NoMemory),
    }
    match mounts.mount(ask.path, ask.device) {
        Ok(()) => Ok(()),
        Err(MountFault::NoMemory) => {
            journal.take_back();
            Err(MountFault::NoMemory)
        }
        Err(fault) => Err(fault),
    }
}

// Adds the entry of a mount.
fn note_mount(journal: &mut Journal, ask: &MountAsk) -> Result<(), NoMemory>
    requires { length journal.old.log < limit }
    ensures entry { OnOk result (IsJotted journal.old journal.new ask.now.client (Mount ask.now.path.now ask.now.device)) }
    ensures undo { OnOk result (taken_back journal.new ≡ journal.old) }
    ensures err { OnErr result (journal.new ≡ journal.old) }
{
    let path = ask.path.copy()?;
    let device = ask.device;
    journal.add(ask.client, Call::Mount { path, device })?;
    Ok(())
}

// Makes the call, and adds its entry. If memory runs out, nothing visible changes.
fn add_unmount(
    journal: &mut Journal,
    mounts: &mut Mounts,
    client: u32,
    domain: u32,
) -> Result<(), MountFault>
    requires { length journal.old.log < limit }
    ensures made { mounting.Answers mounts.old mounts.new (asked.Unmount domain) (λ _. given.Accepted) result }
    ensures entry { Enters journal.old journal.new client (Unmount domain) result }
{
    match journal.add(client, Call::Unmount { domain }) {
        Ok(()) => {}
        Err(NoMemory) => return Err(MountFault::NoMemory),
    }
    mounts.unmount(domain)
}

// Adds the entry of a question for the path.
fn note_question(journal: &mut Journal, client: u32, path: &Path) -> Result<(), NoMemory>
    requires { length journal.old.log < limit }
    ensures entry { OnOk result (IsJotted journal.old journal.new client (MountAt path.now)) }
    ensures err { OnErr result (journal.new ≡ journal.old) }
{
    let path = path.copy()?;
    journal.add(client, Call::MountAt { path })?;
    Ok(())
}
