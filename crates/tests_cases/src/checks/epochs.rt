//! The hub of the next epoch, moved and copied; what was mounted and decided in the one before.
ghost use Rattle.std.specs.Prelude.{◌≡◌, length, true};

use super::Unmade;
use super::played::{TWO_DOMAINS, has_two, hub_of};
use super::streams::{DEVICE_OPENING, OWN_OPENING, are};
use sal_epoch::{Mount, mounts_of, next_devices, next_hub};
use sal_hub::Hub;
use sal_resume::frames_of;
use sal_rows::{Outcome, Rules};
use sal_types::Step;
use std::alloc::Global;

// The commits of the script's submissions, 0 for the conflict.
const COMMITS: [u64; 5] = [1, 1, 2, 0, 2];

fn commit_of(outcome: &Outcome) -> u64 {
    match outcome {
        Outcome::Done { commit } => *commit,
        _ => 0,
    }
}

fn are_commits(outcomes: &[Outcome]) -> bool {
    if outcomes.len() != COMMITS.len() {
        return false;
    }
    for (outcome, commit) in outcomes.iter().zip(&COMMITS) {
        if commit_of(outcome) != *commit {
            return false;
        }
    }
    true
}

// Whether it is device 1, at the container `box`.
fn is_the_device(mount: &Mount) -> bool {
    mount.device == 1 && matches!(mount.path.steps(), [Step::Node(0)])
}

fn is_mounted(alloc: Global, hub: &Hub) -> bool
    requires { length hub.now.world ≡ 2 }
{
    match mounts_of(alloc, hub) {
        Ok(mounts) => match mounts.as_slice() {
            [mount] => is_the_device(mount),
            _ => false,
        },
        Err(_) => false,
    }
}

// Whether the hub opens with the newest trees of both domains, without calls and mounts, under the second version rules; and domain 0 has `more`
// versions after its present one.
fn begins_anew(alloc: Global, hub: &Hub, more: usize) -> bool {
    has_two(hub) && hub.log().is_empty() && opens(alloc, hub) && has_versions(hub, more)
}

fn opens(alloc: Global, hub: &Hub) -> bool
    requires { length hub.now.world ≡ 2 }
{
    are(frames_of(alloc, hub, 0), OWN_OPENING)
        && are(frames_of(alloc, hub, 1), DEVICE_OPENING)
        && matches!(mounts_of(alloc, hub), Ok(mounts) if mounts.is_empty())
}

fn has_versions(hub: &Hub, more: usize) -> bool {
    match hub.domains() {
        [own, device] => {
            own.version == 0
                && own.upgrades.len() == more
                && own.rules == Rules::Two
                && device.rules == Rules::Two
        }
        _ => false,
    }
}

// A hub over copies of the newest trees.
fn copied(alloc: Global, hub: &Hub) -> Result<Hub, Unmade> {
    let devices = next_devices(alloc, hub)?;
    if devices.is_empty() || devices.len() > 64 {
        return Err(Unmade);
    }
    Ok(Hub::open(alloc, devices, Rules::Two)?)
}

fn copy_begins(alloc: Global, hub: &Hub) -> bool {
    match copied(alloc, hub) {
        Ok(hub) => begins_anew(alloc, &hub, 0),
        Err(_) => false,
    }
}

// Whether the epoch has ended with these outcomes and this mount, and its newest trees can be copied.
fn has_ended(alloc: Global, hub: &Hub) -> bool
    ensures { result ≡ true → length hub.now.world ≡ 2 }
{
    has_two(hub) && are_commits(hub.outcomes()) && is_mounted(alloc, hub) && copy_begins(alloc, hub)
}

fn moved_begins(alloc: Global, hub: Hub) -> bool
    requires { length hub.world ≡ 2 }
{
    let next = next_hub(alloc, hub, Rules::Two);
    begins_anew(alloc, &next, 1)
}

fn epoch_holds(alloc: Global, hub: Hub) -> bool {
    if !has_ended(alloc, &hub) {
        return false;
    }
    moved_begins(alloc, hub)
}

/// Whether all these are so after the script.
pub(crate) fn an_epoch_of_two_domains(alloc: Global) -> bool {
    match hub_of(alloc, TWO_DOMAINS) {
        Ok(hub) => epoch_holds(alloc, hub),
        Err(_) => false,
    }
}
