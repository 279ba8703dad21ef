//! How a stand-by becomes the leader.
ghost use Rattle.std.specs.Prelude.{◌≡◌, ◌≤◌, ◌&&◌, ℕ, true, Some, IfOk, length, map};
ghost use Rattle.std.specs.Option.{is_some};
ghost use Rattle.sal_script.specs.Reading.{parts};
ghost use Rattle.sal_client.specs.Lists.{begun_with};
ghost use Rattle.sal_embed.specs.Opening.{IsBegun};
ghost use Rattle.sal_prepare.specs.Resumed.{are_of_version, devices_fit, resumed_with};
ghost use Rattle.sal_prepare.specs.Scripted as spec;
ghost use Rattle.sal_cluster.specs.Leaders.{base_of};
ghost use Rattle.sal_cluster.specs.StandBys.{Leads, devices_given, follower_at, number_held, opening_held, trees_given};

use crate::bases::Bases;
use crate::beside::Beside;
use crate::leader::Leader;
use crate::standby::{LeadFault, Standing};
use sal_embed::Embedded;
use sal_follow::Follower;
use sal_history::Opening;
use sal_prepare::resumed::{Ground, Openings, Resumed};
use sal_prepare::status::Status;
use sal_types::{NoMemory, Store};
use std::alloc::Global;

/// The leader that the stand-by becomes, whose last frame of domain 0 has this number.
pub(crate) fn led(
    alloc: Global,
    it: &Standing,
    base: u64,
    version: u32,
) -> Result<Leader, LeadFault>
    requires many { length it.now.followers.items ≡ length it.now.ground.readers }
    requires number { (follower_at it.now.followers.items 0).held.version ≡ Some base }
    ensures { Leads it.now version result }
{
    match openings_of(alloc, it.all()) {
        Ok(openings) => led_with(alloc, it, version, openings),
        Err(NoMemory) => Err(LeadFault::Refused {
            status: Status::NoMemory,
        }),
    }
}

// The same with the rows of the trees.
fn led_with(
    alloc: Global,
    it: &Standing,
    version: u32,
    openings: Openings,
) -> Result<Leader, LeadFault>
    requires few { length it.now.followers.items ≤ 64 }
    requires frame { is_some (follower_at it.now.followers.items 0).held.version ≡ true }
    requires own { openings.own ≡ opening_held (follower_at it.now.followers.items 0) }
    requires devices { openings.devices.items ≡ devices_given it.now.followers.items }
    ensures { Leads it.now version result }
{
    if !do_fit(alloc, &it.ground, version, &openings) {
        return Err(LeadFault::BadVersion);
    }
    match led_over(alloc, &it.ground, version, openings) {
        Ok(broker) => Ok(Leader {
            broker,
            bases: bases_of(it.all()),
            version,
        }),
        Err(status) => Err(LeadFault::Refused { status }),
    }
}

// Whether the script has this version, and the trees fit it.
fn do_fit(alloc: Global, ground: &Ground, version: u32, openings: &Openings) -> bool
    ensures { result ≡ (are_of_version ground.now.readers version openings.now.own && devices_fit ground.now.readers openings.now.devices.items) }
{
    let Openings { own, devices } = openings;
    ground.fits(alloc, version, &own.config, &own.oper) && ground.devices_fit(alloc, devices)
}

// The broker over these trees.
fn led_over(
    alloc: Global,
    ground: &Ground,
    version: u32,
    openings: Openings,
) -> Result<Embedded, Status>
    requires own { are_of_version ground.now.readers version openings.own ≡ true }
    requires devices { devices_fit ground.now.readers openings.devices.items ≡ true }
    ensures world { spec.Comes (λ it. it.hub.world) (resumed_with ground.now.script.rules (parts ground.now.script).devices (begun_with version ground.now.readers) openings.own openings.devices.items) result }
    ensures begun { IfOk result IsBegun }
{
    let Resumed {
        hub,
        schemas,
        readers,
    } = ground.resume_with(alloc, version, openings)?;
    Ok(Embedded::over(alloc, hub, schemas, readers, ground.script.checked_reads))
}

// The follower of the controller's own domain.
fn own_of(followers: &[Beside]) -> &Follower
    requires { 1 ≤ length followers.now }
    ensures { result.now ≡ follower_at followers.now 0 }
{
    followers[0].follower()
}

// The rows of the trees.
fn openings_of(alloc: Global, followers: &[Beside]) -> Result<Openings, NoMemory>
    requires { 1 ≤ length followers.now }
    ensures own { IfOk result (λ it. it.own ≡ opening_held (follower_at followers.now 0)) }
    ensures devices { IfOk result (λ it. it.devices.items ≡ devices_given followers.now) }
{
    let own = opening_of(own_of(followers))?;
    let devices = given_by(alloc, &followers[1..])?;
    Ok(Openings { own, devices })
}

// Those of the followers to which a frame came.
fn given_by(alloc: Global, followers: &[Beside]) -> Result<Vec<Option<Opening>>, NoMemory>
    ensures { IfOk result (λ it. it.items ≡ map trees_given followers.now) }
{
    let mut given = Vec::new(alloc);
    for follower in followers {
        let one = trees_of(follower)?;
        given.push(one)?;
    }
    Ok(given)
}

fn trees_of(follower: &Beside) -> Result<Option<Opening>, NoMemory>
    ensures { IfOk result (λ it. it ≡ trees_given follower.now) }
{
    let held = follower.follower();
    match held.version() {
        Some(_) => some_opening(held),
        None => Ok(None),
    }
}

fn some_opening(follower: &Follower) -> Result<Option<Opening>, NoMemory>
    ensures { IfOk result (λ it. it ≡ Some (opening_held follower.now)) }
{
    let opening = opening_of(follower)?;
    Ok(Some(opening))
}

// The rows of its trees.
fn opening_of(follower: &Follower) -> Result<Opening, NoMemory>
    ensures { IfOk result (λ it. it ≡ opening_held follower.now) }
{
    let config = follower.rows(Store::Config)?;
    let oper = follower.rows(Store::Oper)?;
    Ok(Opening { config, oper })
}

// The numbers of the last frames.
fn bases_of(followers: &[Beside]) -> Bases
    requires { length followers.now ≤ 64 }
    ensures { (n : ℕ) → base_of result n ≡ number_held (follower_at followers.now n) }
{
    let mut bases = Bases::zeros();
    for domain in 0..followers.len() as u32 {
        let number = followers[domain as usize].follower().version();
        bases.set(domain, number.unwrap_or(0));
    }
    bases
}
