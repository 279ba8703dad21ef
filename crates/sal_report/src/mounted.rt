//! Which domains a report has a line for: the mounts of a log are applied again.
ghost use Rattle.std.specs.Prelude.{◌≡◌, ℕ, ◌||◌, ◌<◌, ◌^◌, [], ◌∷◌, ◌++◌, List, Bool as Truth, false, cond, length, nat_eq, slice_index_or, IfOk, OnOk};
ghost use Rattle.std.specs.List.{All, filter, range_with_len};
ghost use Rattle.sal_mount.specs.declared.call.MountCall.{MountCall};
ghost use Rattle.sal_mount.specs.declared.call.MountCall.TheVariants.{Mount, Unmount};
ghost use Rattle.sal_mount.specs.Mounts.{made_of, was_mounted};
ghost use Rattle.sal_history.specs.MountCalls.{mounts_in, with_call};
ghost use Rattle.sal_history.specs.Services.{mount_call};
ghost use Rattle.sal_history.specs.World.{Domain};
ghost use Rattle.sal_script.specs.Report as spec;
ghost use Rattle.sal_report.specs.Replayed.{Follows};

use sal_history::{Call, Entry};
use sal_mount::{MountFault, Mounts};
use sal_types::{NoMemory, Path};
use std::alloc::Global;

/// The domains whose trees a report shows, by number: of as many domains, the controller's own, and each device that was ever mounted
/// by a call of the log. It fails only if memory runs out.
pub fn told_domains(alloc: Global, domains: u32, log: &[Entry]) -> Result<Vec<u32>, NoMemory>
    ensures told { IfOk result (λ told. (world : List Domain) → length world ≡ domains → told.items ≡ spec.told_domains world log.now) }
    ensures within { IfOk result (λ told. All (λ d. d < domains) told.items) }
{
    let marks = marks_of(alloc, domains, log)?;
    let told = told_numbers(alloc, &marks)?;
    Ok(told)
}

// The numbers of the domains that a report shows.
fn told_numbers(alloc: Global, marks: &[bool]) -> Result<Vec<u32>, NoMemory>
    requires { length marks.now < 2 ^ 32 }
    ensures told { IfOk result (λ told. told.items ≡ filter (λ d. nat_eq d 0 || slice_index_or marks.now d false) (range_with_len 0 (length marks.now))) }
{
    let mut told = Vec::new(alloc);
    for domain in 0..marks.len() {
        add_if(&mut told, domain as u32, is_told(marks, domain))?;
    }
    Ok(told)
}

fn is_told(marks: &[bool], domain: usize) -> bool
    requires { domain < length marks.now }
    ensures { result ≡ (nat_eq domain 0 || slice_index_or marks.now domain false) }
{
    domain == 0 || marks[domain]
}

fn add_if(numbers: &mut Vec<u32>, number: u32, is_wanted: bool) -> Result<(), NoMemory>
    ensures { OnOk result (numbers.new.items ≡ numbers.old.items ++ cond is_wanted (number ∷ []) []) }
{
    if is_wanted {
        numbers.push(number)?;
    }
    Ok(())
}

// For each domain whether it was ever mounted.
fn marks_of(alloc: Global, domains: u32, log: &[Entry]) -> Result<Vec<bool>, NoMemory>
    ensures long { IfOk result (λ marks. length marks.items ≡ domains) }
    ensures each { IfOk result (λ marks. (d : ℕ) → d < domains → slice_index_or marks.items d false ≡ was_mounted (made_of domains (mounts_in log.now)) d) }
{
    let mut mounts = Mounts::new(alloc, domains);
    let mut marks = vec![in alloc; false; domains as usize]?;
    replay_all(&mut mounts, &mut marks, log)?;
    Ok(marks)
}

fn replay_all(mounts: &mut Mounts, marks: &mut [bool], log: &[Entry]) -> Result<(), NoMemory>
    requires { Follows [] mounts.old marks.old }
    ensures follows { OnOk result (Follows (mounts_in log.now) mounts.new marks.new) }
    ensures devices { OnOk result (mounts.new.devices ≡ mounts.old.devices) }
{
    for entry in log {
        replay(mounts, marks, &entry.call)?;
    }
    Ok(())
}

// Applies the call again, if it is one on mounts.
fn replay(mounts: &mut Mounts, marks: &mut [bool], call: &Call) -> Result<(), NoMemory>
    ensures follows { OnOk result ((calls : List MountCall) → Follows calls mounts.old marks.old → Follows (with_call calls (mount_call call.now)) mounts.new marks.new) }
    ensures devices { OnOk result (mounts.new.devices ≡ mounts.old.devices) }
{
    match call {
        Call::Mount { path, device } => mount(mounts, marks, path, *device),
        Call::Unmount { domain } => {
            unmount(mounts, *domain);
            Ok(())
        }
        Call::MountAt { path } => {
            mounts.mount_at(path);
            Ok(())
        }
        _ => Ok(()),
    }
}

// Mounts the device, unless that is refused, and marks it.
fn mount(mounts: &mut Mounts, marks: &mut [bool], path: &Path, device: u32) -> Result<(), NoMemory>
    ensures follows { OnOk result ((calls : List MountCall) → Follows calls mounts.old marks.old → Follows (calls ++ Mount path.now device ∷ []) mounts.new marks.new) }
    ensures devices { OnOk result (mounts.new.devices ≡ mounts.old.devices) }
{
    match mounts.mount(path, device) {
        Ok(()) => {
            mark(marks, device);
            Ok(())
        }
        Err(MountFault::NoDomain { .. }) => Ok(()),
        Err(MountFault::DeviceUsed { .. }) => Ok(()),
        Err(MountFault::MountTaken { .. }) => Ok(()),
        Err(MountFault::NoMemory) => Err(NoMemory),
    }
}

// Unmounts the domain, unless that is refused. It was mounted, still.
fn unmount(mounts: &mut Mounts, domain: u32)
    ensures follows { (calls : List MountCall) (marks : List Truth) → Follows calls mounts.old marks → Follows (calls ++ Unmount domain ∷ []) mounts.new marks }
    ensures devices { mounts.new.devices ≡ mounts.old.devices }
{
    match mounts.unmount(domain) {
        Ok(()) => {}
        Err(_) => {}
    }
}

fn mark(marks: &mut [bool], domain: u32)
    ensures long { length marks.new ≡ length marks.old }
    ensures each { (d : ℕ) → d < length marks.old → slice_index_or marks.new d false ≡ (slice_index_or marks.old d false || nat_eq domain d) }
{
    let place = domain as usize;
    if place < marks.len() {
        marks[place] = true;
    }
}
