//! A hub over the trees of a follower.
ghost use Rattle.std.specs.Prelude.{◌≡◌, [], ◌∷◌, IfOk, IfErr, MatchResult};
ghost use Rattle.sal_hub.specs.declared.opening.OpenFault.TheVariants.{NoMemory as Full};
ghost use Rattle.sal_hub.specs.Openings.{IsFaultOf};
ghost use Rattle.sal_resume.specs.Resumed.{KeepsTheRules, OpensAtTheLeader, resumed, world_held};

use sal_follow::Follower;
use sal_history::Device;
use sal_hub::{Hub, OpenFault};
use sal_rows::Rules;
use sal_types::NoMemory;
use std::alloc::Global;

// The one device.
fn alone(alloc: Global, device: Device) -> Result<Vec<Device>, NoMemory>
    ensures { IfOk result (λ devices. devices.items ≡ device ∷ []) }
{
    let mut devices = Vec::with_capacity(alloc, 1)?;
    devices.push(device)?;
    Ok(devices)
}

/// A hub without calls over the domain of the follower, under the version rules.
///
/// Its opening trees are those of the follower's commit. They are closed and without state data in the configuration, so it is
/// refused only if a tree breaks a structural rule, or memory runs out.
pub fn resume(alloc: Global, follower: Follower, rules: Rules) -> Result<Hub, OpenFault>
    ensures opened { MatchResult result (λ hub. hub ≡ resumed rules follower) (IsFaultOf (world_held rules follower)) }
    ensures whole { KeepsTheRules follower → IfErr result (λ fault. fault ≡ Full) }
    ensures leader { IfOk result (λ hub. OpensAtTheLeader follower hub.world) }
{
    let device = follower.into_device()?;
    let devices = alone(alloc, device)?;
    Hub::open(alloc, devices, rules)
}
