//! Devices without data.
ghost use Rattle.std.specs.Prelude.{◌≡◌, ◌∷◌, [], IfOk, MatchResult};
ghost use Rattle.sal.specs.Opening.{empty_world};
ghost use Rattle.sal_hub.specs.Openings.{IsClosedDevice, IsFaultOf};
ghost use Rattle.sal_turn.specs.Views.{opener};

use sal_broker::{Sal, Seat};
use sal_history::{Device, Opening};
use sal_hub::OpenFault;
use sal_rows::{Rows, Rules};
use sal_schema::Schema;
use sal_types::NoMemory;
use std::alloc::Global;
use std::sync::Arc;

/// A device with one version of this schema, and without data before the first commit.
pub fn empty_device(alloc: Global, schema: Arc<Schema>) -> Device
    ensures schema { result.schema ≡ schema }
    ensures versions { result.upgrades.items ≡ [] }
    ensures opening { result.opening ≡ record { config = []; oper = [] } }
    ensures closed { IsClosedDevice result }
{
    let opening = Opening {
        config: Rows::new(alloc),
        oper: Rows::new(alloc),
    };
    Device {
        schema,
        upgrades: Vec::new(alloc),
        opening,
    }
}

/// A broker over such a device alone, and its opening seat; or the first fault of the opening, as a node that the schema says is mandatory.
pub fn open_empty(
    alloc: Global,
    schema: Arc<Schema>,
    rules: Rules,
) -> Result<(Sal, Seat), OpenFault>
    ensures { MatchResult result (λ r. (r.1.lock ≡ r.0) × (r.1.view ≡ opener 65535 (empty_world schema.value rules))) (IsFaultOf (empty_world schema.value rules)) }
{
    let device = empty_device(alloc, schema);
    let devices = alone(alloc, device)?;
    Sal::open(alloc, devices, rules)
}

// The list of this device.
fn alone(alloc: Global, device: Device) -> Result<Vec<Device>, NoMemory>
    ensures { IfOk result (λ devices. devices.items ≡ device ∷ []) }
{
    Ok(vec![in alloc; device]?)
}
