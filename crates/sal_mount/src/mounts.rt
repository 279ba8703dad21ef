//! The mounts of a broker.
ghost use Rattle.std.specs.Prelude.{◌≡◌, [], ◌&&◌, ◌||◌, ℕ, List, None, Some, false, true, if◌then◌else◌, not, is_some, nat_eq, nat_lt, MatchOption, OnErr, OnOk};
ghost use Rattle.sal_types.specs.declared.value.Step.{Step};
ghost use Rattle.sal_types.specs.Order.{path_eq};
ghost use Rattle.sal_mount.specs.declared.call.MountCall.{MountCall};
ghost use Rattle.sal_mount.specs.declared.call.MountCall.TheVariants.{Mount, Unmount, MountAt as Asks};
ghost use Rattle.sal_mount.specs.declared.call.MountReply.TheVariants.{Accepted, MountAt};
ghost use Rattle.sal_mount.specs.Answers.{Answers, AnswersAlways, Makes};
ghost use Rattle.sal_mount.specs.Mounts.{is_live, made_of};
ghost use Rattle.sal_mount.specs.Register.{IsOf, is_up, last_at, live_at, live_of, refusal_by, state_at};

use crate::call::MountFault;
use sal_types::{Duplicate, NoMemory, Path};
use std::alloc::Global;
use std::collections::BTreeMap;
use std::marker::Model;

/// Which device is mounted at which path. A contract sees a register of the calls.
pub struct Mounts {
    devices: u32,
    places: BTreeMap<Path, u32>,
    states: BTreeMap<u32, bool>,
}

impl Drop for Mounts {
    fn drop(self) {
        let Mounts {
            devices: _,
            places: _,
            states: _,
        } = self;
    }
}

impl Model for Mounts {
    ghost use Rattle.sal_mount.specs.Register.{Register};

    ghost Value = { Register };

    ghost view = { λ a. record { devices = a.devices; places = a.places.entries; states = a.states.entries } };
}

impl Mounts {
    /// No mounts. `devices` is the number of domains, the controller's own included. It takes no memory.
    pub fn new(alloc: Global, devices: u32) -> Mounts
        ensures devices { result.devices ≡ devices }
        ensures calls { IsOf [] result }
    {
        Mounts {
            devices,
            places: BTreeMap::new(alloc),
            states: BTreeMap::new(alloc),
        }
    }

    /// Mounts the device at the path. Refused as `NoDomain` if no device other than the controller's own domain has this number,
    /// as `DeviceUsed` if the device was mounted before, and as `MountTaken` if another one is mounted at the path.
    pub fn mount(&mut self, path: &Path, device: u32) -> Result<(), MountFault>
        ensures { Answers self.old self.new (Mount path.now device) (λ _. Accepted) result }
    {
        if let Some(fault) = self.refusal(path, device) {
            return Err(fault);
        }
        match put(&mut self.places, &mut self.states, path, device) {
            Ok(()) => Ok(()),
            Err(NoMemory) => Err(MountFault::NoMemory),
        }
    }

    /// Unmounts the domain. Refused as `NoDomain` if the domain is the controller's own, or not mounted. It takes no memory.
    pub fn unmount(&mut self, domain: u32) -> Result<(), MountFault>
        ensures { AnswersAlways self.old self.new (Unmount domain) (λ _. Accepted) result }
    {
        if domain == 0 || !is_up(&self.states, domain) {
            return Err(MountFault::NoDomain { id: domain });
        }
        take_down(&mut self.states, domain);
        Ok(())
    }

    /// The domain that is mounted at the path, if any. It takes no memory.
    pub fn mount_at(&self, path: &Path) -> Option<u32>
        ensures at { result ≡ live_at self.now path.now }
        ensures answer { Makes self.now self.now (Asks path.now) (MountAt result) }
    {
        live_at(&self.places, &self.states, path)
    }

    /// Whether the domain is live: the controller's own always is, and a device's from its mount to its unmount. It takes no memory.
    pub fn is_live(&self, domain: u32) -> bool
        ensures { (calls : List MountCall) → IsOf calls self.now → result ≡ is_live (made_of self.now.devices calls) domain }
    {
        domain == 0 || is_up(&self.states, domain)
    }

    // Why the device is not mounted at the path.
    fn refusal(&self, path: &Path, device: u32) -> Option<MountFault>
        ensures { result ≡ refusal_by self.now path.now device }
    {
        if device == 0 || device >= self.devices {
            return Some(MountFault::NoDomain { id: device });
        }
        if self.states.contains_key(&device) {
            return Some(MountFault::DeviceUsed { id: device });
        }
        match live_at(&self.places, &self.states, path) {
            None => None,
            Some(id) => Some(MountFault::MountTaken { id }),
        }
    }
}

fn is_up(states: &BTreeMap<u32, bool>, device: u32) -> bool
    ensures { result ≡ is_up states.now.entries device }
{
    states.get(&device).copied().unwrap_or(false)
}

fn live_at(places: &BTreeMap<Path, u32>, states: &BTreeMap<u32, bool>, path: &Path) -> Option<u32>
    ensures { result ≡ live_of states.now.entries (last_at places.now.entries path.now) }
{
    let device = places.get(path).copied()?;
    if is_up(states, device) {
        Some(device)
    } else {
        None
    }
}

// Sets the device of the path. If memory runs out, nothing changes.
fn put(
    places: &mut BTreeMap<Path, u32>,
    states: &mut BTreeMap<u32, bool>,
    path: &Path,
    device: u32,
) -> Result<(), NoMemory>
    requires { state_at states.old.entries device ≡ None }
    ensures last { OnOk result ((p : List Step) → last_at places.new.entries p ≡ (if path_eq path.now p then Some device else last_at places.old.entries p)) }
    ensures up { OnOk result ((d : ℕ) → state_at states.new.entries d ≡ (if nat_eq device d then Some true else state_at states.old.entries d)) }
    ensures same_places { OnErr result (places.new.entries ≡ places.old.entries) }
    ensures same_states { OnErr result (states.new.entries ≡ states.old.entries) }
{
    let key = path.copy()?;
    states.insert(device, true)?;
    if places.insert(key, device).is_ok() {
        return Ok(());
    }
    states.remove(&device);
    Err(NoMemory)
}

// Records that the device is no longer mounted.
fn take_down(states: &mut BTreeMap<u32, bool>, device: u32)
    requires { is_some (state_at states.old.entries device) ≡ true }
    ensures { (d : ℕ) → state_at states.new.entries d ≡ (if nat_eq device d then Some false else state_at states.old.entries d) }
{
    if let Some(up) = states.get_mut(&device) {
        *up = false;
    }
}
