//! The mounts of a hub: the mounts of its log are applied again.
ghost use Rattle.std.specs.Prelude.{◌≡◌, ◌≤◌, [], ◌∷◌, ◌++◌, List, cond, length, map, IfOk, OnOk};
ghost use Rattle.sal_mount.specs.declared.call.MountCall.{MountCall};
ghost use Rattle.sal_mount.specs.declared.call.MountCall.TheVariants.{Mount as Mounting, Unmount};
ghost use Rattle.sal_mount.specs.Register.{IsOf};
ghost use Rattle.sal_history.specs.Services.{mount_call};
ghost use Rattle.sal_epoch.specs.declared.mounts.Mount.{Mount as Listed};
ghost use Rattle.sal_history.specs.MountCalls.{mounts_in, with_call};
ghost use Rattle.sal_epoch.specs.Mounts.{Follows, live_after, live_among, mount_of, mounted_at, mounts_left, with_live};

use sal_history::{Call, Entry};
use sal_hub::Hub;
use sal_mount::{MountFault, Mounts};
use sal_types::{Duplicate, NoMemory, Path};
use std::alloc::Global;

/// A mounted device, and its path in the controller's own domain.
#[derive(Drop)]
pub struct Mount {
    pub device: u32,
    pub path: Path,
}

/// The devices of the hub that are mounted, in the order in which they were mounted.
///
/// In the next hub none of them is mounted. It goes once through the log, and applies its calls on mounts again.
pub fn mounts_of(alloc: Global, hub: &Hub) -> Result<Vec<Mount>, NoMemory>
    requires { length hub.now.world ≤ 64 }
    ensures { IfOk result (λ list. map mount_of list.items ≡ mounts_left hub.now) }
{
    let mut register = Mounts::new(alloc, hub.domains().len() as u32);
    let mut made = Vec::new(alloc);
    replay_all(&mut register, &mut made, hub.log())?;
    live_of(alloc, &register, &made)
}

// Those whose domain is live.
fn live_of(alloc: Global, register: &Mounts, made: &[Mount]) -> Result<Vec<Mount>, NoMemory>
    ensures { IfOk result (λ list. (calls : List MountCall) → IsOf calls register.now → map mount_of list.items ≡ live_among (live_after register.now calls) made.now) }
{
    let mut live = Vec::new(alloc);
    for mount in made {
        add_if_live(register, &mut live, mount)?;
    }
    Ok(live)
}

fn add_if_live(register: &Mounts, live: &mut Vec<Mount>, mount: &Mount) -> Result<(), NoMemory>
    ensures { OnOk result ((calls : List MountCall) → IsOf calls register.now → map mount_of live.new.items ≡ with_live (live_after register.now calls) (map mount_of live.old.items) mount.now) }
{
    if register.is_live(mount.device) {
        add(live, &mount.path, mount.device)?;
    }
    Ok(())
}

fn replay_all(register: &mut Mounts, made: &mut Vec<Mount>, log: &[Entry]) -> Result<(), NoMemory>
    requires { Follows [] register.old made.old.items }
    ensures follows { OnOk result (Follows (mounts_in log.now) register.new made.new.items) }
    ensures devices { OnOk result (register.new.devices ≡ register.old.devices) }
{
    for entry in log {
        replay(register, made, &entry.call)?;
    }
    Ok(())
}

// Applies the call again, if it is one on mounts.
fn replay(register: &mut Mounts, made: &mut Vec<Mount>, call: &Call) -> Result<(), NoMemory>
    ensures follows { OnOk result ((calls : List MountCall) → Follows calls register.old made.old.items → Follows (with_call calls (mount_call call.now)) register.new made.new.items) }
    ensures devices { OnOk result (register.new.devices ≡ register.old.devices) }
{
    match call {
        Call::Mount { path, device } => make_mount(register, made, path, *device),
        Call::Unmount { domain } => {
            unmount(register, *domain);
            Ok(())
        }
        Call::MountAt { path } => {
            register.mount_at(path);
            Ok(())
        }
        _ => Ok(()),
    }
}

// Mounts the device, unless that is refused, and lists it.
fn make_mount(
    register: &mut Mounts,
    made: &mut Vec<Mount>,
    path: &Path,
    device: u32,
) -> Result<(), NoMemory>
    ensures follows { OnOk result ((calls : List MountCall) → Follows calls register.old made.old.items → Follows (calls ++ Mounting path.now device ∷ []) register.new made.new.items) }
    ensures devices { OnOk result (register.new.devices ≡ register.old.devices) }
{
    match register.mount(path, device) {
        Ok(()) => add(made, path, device),
        Err(MountFault::NoDomain { .. }) => Ok(()),
        Err(MountFault::DeviceUsed { .. }) => Ok(()),
        Err(MountFault::MountTaken { .. }) => Ok(()),
        Err(MountFault::NoMemory) => Err(NoMemory),
    }
}

// Unmounts the domain, unless that is refused. It stays in the list.
fn unmount(register: &mut Mounts, domain: u32)
    ensures follows { (calls : List MountCall) (made : List Listed) → Follows calls register.old made → Follows (calls ++ Unmount domain ∷ []) register.new made }
    ensures devices { register.new.devices ≡ register.old.devices }
{
    match register.unmount(domain) {
        Ok(()) => {}
        Err(_) => {}
    }
}

fn add(list: &mut Vec<Mount>, path: &Path, device: u32) -> Result<(), NoMemory>
    ensures { OnOk result (map mount_of list.new.items ≡ map mount_of list.old.items ++ mounted_at device path.now ∷ []) }
{
    let path = path.copy()?;
    list.push(Mount { device, path })?;
    Ok(())
}
