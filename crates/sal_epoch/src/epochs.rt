//! The next hub.
ghost use Rattle.std.specs.Prelude.{◌≡◌, ◌<◌, ◌≤◌, [], ◌∷◌, ◌++◌, IfOk, None, OnOk, length};
ghost use Rattle.sal_types.specs.declared.value.Store.TheVariants.{Config, Oper};
ghost use Rattle.sal_rows.specs.declared.clash.Rules.{Rules as RulesOf};
ghost use Rattle.sal_tree.specs.Rows.{rows_of};
ghost use Rattle.sal_history.specs.History.{newest_tree};
ghost use Rattle.sal_history.specs.World.{AreVersions};
ghost use Rattle.sal_hub.specs.Epochs.{OpensAtTheNewest, next_hub};
ghost use Rattle.sal_hub.specs.Openings.{AreClosedDevices, IsClosedDevice, domain_of, fault_of, world_of};
ghost use Rattle.sal_epoch.specs.Epochs.{AreStateless, copied_domain, copied_world};

use sal_commit::Domain;
use sal_history::{Device, Opening};
use sal_hub::Hub;
use sal_rows::{Rows, Rules};
use sal_tree::Root;
use sal_types::{NoMemory, Path, append};
use std::alloc::Global;
use std::sync::Arc;

// All rows of a tree.
fn rows_of(alloc: Global, tree: &Root) -> Result<Rows, NoMemory>
    ensures { IfOk result (λ rows. rows ≡ rows_of tree.now) }
{
    let rows = tree.rows(alloc, &Path::root(alloc))?;
    Ok(rows)
}

// The newest trees of the domain of this number.
fn opening_of(alloc: Global, hub: &Hub, number: u32) -> Result<Opening, NoMemory>
    requires { number < length hub.now.world }
    ensures config { IfOk result (λ opening. opening.config ≡ newest_tree hub.now.world hub.now.log number Config) }
    ensures oper { IfOk result (λ opening. opening.oper ≡ newest_tree hub.now.world hub.now.log number Oper) }
{
    let trees = hub.trees_of(number);
    let config = rows_of(alloc, &trees.config)?;
    let oper = rows_of(alloc, &trees.oper)?;
    Ok(Opening { config, oper })
}

// A device with the schema of the domain, and the newest trees.
fn device_of(alloc: Global, hub: &Hub, domain: &Domain) -> Result<Device, NoMemory>
    requires { domain.now.number < length hub.now.world }
    ensures schema { IfOk result (λ device. device.schema.value ≡ domain.now.schema.value) }
    ensures upgrades { IfOk result (λ device. device.upgrades.items ≡ []) }
    ensures config { IfOk result (λ device. device.opening.config ≡ newest_tree hub.now.world hub.now.log domain.now.number Config) }
    ensures oper { IfOk result (λ device. device.opening.oper ≡ newest_tree hub.now.world hub.now.log domain.now.number Oper) }
{
    let schema = Arc::try_clone(&domain.schema)?;
    let opening = opening_of(alloc, hub, domain.number)?;
    Ok(Device {
        schema,
        upgrades: Vec::new(alloc),
        opening,
    })
}

// The device of the domain at the index. Its trees are closed.
fn next_device(alloc: Global, hub: &Hub, index: usize) -> Result<Device, NoMemory>
    requires { index < length hub.now.world }
    ensures next { IfOk result (λ device. (rules : RulesOf) → domain_of rules device ≡ copied_domain rules hub.now index) }
    ensures closed { IfOk result IsClosedDevice }
{
    hub.stays_closed();
    let domain = &hub.domains()[index];
    device_of(alloc, hub, domain)
}

// Appends the device of the domain at the index.
fn add_next(
    alloc: Global,
    hub: &Hub,
    devices: &mut Vec<Device>,
    index: usize,
) -> Result<(), NoMemory>
    requires { index < length hub.now.world }
    ensures next { OnOk result ((rules : RulesOf) → world_of rules devices.new.items ≡ world_of rules devices.old.items ++ copied_domain rules hub.now index ∷ []) }
    ensures closed { OnOk result (AreClosedDevices devices.old.items → AreClosedDevices devices.new.items) }
{
    let device = next_device(alloc, hub, index)?;
    append(devices, device)?;
    Ok(())
}

// The devices of all domains, in order. Their trees are closed.
fn all_devices(alloc: Global, hub: &Hub) -> Result<Vec<Device>, NoMemory>
    ensures world { IfOk result (λ devices. (rules : RulesOf) → world_of rules devices.items ≡ copied_world rules hub.now) }
    ensures closed { IfOk result (λ devices. AreClosedDevices devices.items) }
{
    let mut devices = Vec::new(alloc);
    for index in 0..hub.domains().len() {
        add_next(alloc, hub, &mut devices, index)?;
    }
    Ok(devices)
}

/// A device for each domain of the hub: the present version of its schema as version 0, and a copy of its newest trees as its opening. A hub over
/// these and more devices has more domains; without more devices, `next_hub` needs no copy.
///
/// The trees are closed by that version, as `Hub::open` requires, and break no structural rule of it. So `Hub::open` refuses these devices only if
/// memory runs out, unless a newest configuration has state data; none has (`laws::hubs_are_stateless`).
pub fn next_devices(alloc: Global, hub: &Hub) -> Result<Vec<Device>, NoMemory>
    ensures world { IfOk result (λ devices. (rules : RulesOf) → world_of rules devices.items ≡ copied_world rules hub.now) }
    ensures closed { IfOk result (λ devices. AreClosedDevices devices.items) }
    ensures sound { AreStateless hub.now → (rules : RulesOf) → fault_of (copied_world rules hub.now) ≡ None }
    ensures versions { IfOk result (λ devices. (rules : RulesOf) → AreVersions (world_of rules devices.items)) }
{
    hub.keeps_the_rules();
    all_devices(alloc, hub)
}

/// A hub without calls that begins with the newest trees of this one, by the present version of each schema, under the version rules. The versions
/// after the present one stay.
///
/// It moves the trees, and drops everything else of the old hub. It copies no node and makes no check, and cannot fail. The next hub has no fault
/// in its openings if this one has none (`sound`), through all epochs.
pub fn next_hub(alloc: Global, hub: Hub, rules: Rules) -> Hub
    requires { length hub.world ≤ 64 }
    ensures next { result ≡ next_hub rules hub }
    ensures leader { OpensAtTheNewest hub result.world }
    ensures sound { fault_of hub.world ≡ None → fault_of result.world ≡ None }
{
    hub.stays_lawful();
    hub.keeps_the_rules();
    hub.next_epoch(alloc, rules)
}
