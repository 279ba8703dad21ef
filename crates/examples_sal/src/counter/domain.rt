//! The domain: a YANG module, and trees without data.
ghost use Rattle.std.specs.Prelude.{◌≡◌, IfOk, []};
ghost use Rattle.sal.specs.Openings.{IsClosedDevice};

use sal::{Device, Schema, empty_device, schema_of};
use std::alloc::Global;
use std::sync::Arc;

const TUNNELS: &str = "module tunnels {
  namespace 'urn:example:tunnels';
  prefix t;
  container tunnels {
    leaf last-number { type uint32; }
  }
}";

/// The path of the leaf with the last number.
pub const LAST_NUMBER: &str = "/tunnels:tunnels/last-number";

/// The schema of the module.
pub fn schema(alloc: Global) -> anyhow::Result<Schema> {
    Ok(schema_of(alloc, &[TUNNELS])?)
}

/// The domain over the schema, without data before the first commit.
pub fn device(alloc: Global, schema: &Arc<Schema>) -> anyhow::Result<Device>
    ensures closed { IfOk result IsClosedDevice }
    ensures versions { IfOk result (λ d. d.upgrades.items ≡ []) }
{
    Ok(empty_device(alloc, Arc::try_clone(schema)?))
}
