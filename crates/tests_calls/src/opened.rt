//! A broker with the controller's own domain, whose schema has a second version, and one device.
ghost use Rattle.std.specs.Prelude.{◌≡◌, [], ◌∷◌, ◌++◌, IfSome, IsTrue};
ghost use Rattle.sal_commit.specs.Versions.{tables_of};
ghost use Rattle.sal_history.specs.declared.opening.Device.{Device as Domain};
ghost use Rattle.tests_calls.specs.Ready.{AreTwo, IsDomain, IsOpened};

use sal_broker::{Sal, Seat};
use sal_history::{Device, Opening};
use sal_rows::{CallFault, Rows, Rules};
use sal_schema::{Schema, SchemaTable};
use sal_schema_of_table::schema_of;
use sal_types::{Path, Seq};
use std::alloc::Global;
use std::mem::ManuallyDrop;
use std::sync::Arc;

/// The arguments of a call other than a seat: the runtime, the broker, and the path of the root.
#[derive(Drop)]
pub(crate) struct Desk<'a, R> {
    pub(crate) rt: &'a R,
    pub(crate) alloc: Global,
    pub(crate) sal: &'a Sal,
    pub(crate) top: &'a Path,
}

/// Forgets the value without a drop, which would need another proof: with all parts of a broker, one for each type.
pub(crate) fn let_go<T>(value: T) {
    let _left = unsafe { ManuallyDrop::new_unchecked(value) };
}

/// 1 for an answer, 0 for a refusal.
pub(crate) fn yes(answer: Result<(), CallFault>) -> u64 {
    match answer {
        Ok(()) => 1,
        Err(_) => 0,
    }
}

// A schema without nodes.
fn schema(alloc: Global) -> Option<Arc<Schema>> {
    let table = SchemaTable {
        nodes: Seq::new(alloc),
        types: Seq::new(alloc),
        modules: Seq::new(alloc),
        identities: Seq::new(alloc),
    };
    match schema_of(alloc, table) {
        Ok(schema) => shared(alloc, schema),
        Err(_) => None,
    }
}

fn shared(alloc: Global, schema: Schema) -> Option<Arc<Schema>> {
    match Arc::new(alloc, schema) {
        Ok(schema) => Some(schema),
        Err(back) => {
            let_go(back);
            None
        }
    }
}

// A domain without data over the versions of a schema.
fn domain(alloc: Global, schema: Arc<Schema>, upgrades: Vec<Arc<Schema>>) -> Device
    ensures { IsDomain schema.value (tables_of upgrades.items) result }
{
    let opening = Opening {
        config: Rows::new(alloc),
        oper: Rows::new(alloc),
    };
    Device {
        schema,
        upgrades,
        opening,
    }
}

// Appends the schema, shared, as a version.
fn add_version(upgrades: &mut Vec<Arc<Schema>>, schema: &Arc<Schema>) -> bool
    ensures { IsTrue result → tables_of upgrades.new.items ≡ tables_of upgrades.old.items ++ schema.now.value ∷ [] }
{
    match Arc::try_clone(schema) {
        Ok(version) => match upgrades.push(version) {
            Ok(()) => true,
            Err(back) => {
                let_go(back);
                false
            }
        },
        Err(_) => false,
    }
}

// Appends a domain.
fn add_domain(devices: &mut Vec<Device>, device: Device) -> bool
    ensures { IsTrue result → devices.new.items ≡ devices.old.items ++ device ∷ [] }
{
    match devices.push(device) {
        Ok(()) => true,
        Err(back) => {
            let_go(back);
            false
        }
    }
}

// The domain of the schema and of these later versions, appended.
fn add(
    alloc: Global,
    devices: &mut Vec<Device>,
    schema: &Arc<Schema>,
    upgrades: Vec<Arc<Schema>>,
) -> bool
    ensures { IsTrue result → (d : Domain) × (devices.new.items ≡ devices.old.items ++ d ∷ []) × IsDomain schema.now.value (tables_of upgrades.items) d }
{
    match Arc::try_clone(schema) {
        Ok(first) => add_domain(devices, domain(alloc, first, upgrades)),
        Err(_) => {
            let_go(upgrades);
            false
        }
    }
}

// The controller's own domain.
fn add_own(alloc: Global, devices: &mut Vec<Device>, schema: &Arc<Schema>) -> bool
    ensures { IsTrue result → (d : Domain) × (devices.new.items ≡ devices.old.items ++ d ∷ []) × IsDomain schema.now.value (schema.now.value ∷ []) d }
{
    let mut upgrades = Vec::new(alloc);
    if add_version(&mut upgrades, schema) {
        return add(alloc, devices, schema, upgrades);
    }
    let_go(upgrades);
    false
}

// The controller's own domain and a device's.
fn add_both(alloc: Global, devices: &mut Vec<Device>, schema: &Arc<Schema>) -> bool
    requires { devices.old.items ≡ [] }
    ensures { IsTrue result → AreTwo schema.now.value devices.new.items }
{
    add_own(alloc, devices, schema) && add(alloc, devices, schema, Vec::new(alloc))
}

// A broker over the two domains.
fn over(alloc: Global, schema: &Schema, devices: Vec<Device>) -> Option<(Sal, Seat)>
    requires { AreTwo schema.now devices.items }
    ensures { IfSome result (λ r. IsOpened r.0 r.1) }
{
    match Sal::open(alloc, devices, Rules::One) {
        Ok(opened) => Some(opened),
        Err(fault) => {
            let_go(fault);
            None
        }
    }
}

// The same, with a schema for both.
fn of_schema(alloc: Global, schema: &Arc<Schema>) -> Option<(Sal, Seat)>
    ensures { IfSome result (λ r. IsOpened r.0 r.1) }
{
    let mut devices = Vec::new(alloc);
    if add_both(alloc, &mut devices, schema) {
        return over(alloc, schema, devices);
    }
    let_go(devices);
    None
}

/// The broker, and its opening seat.
pub(crate) fn opened(alloc: Global) -> Option<(Sal, Seat)>
    ensures { IfSome result (λ r. IsOpened r.0 r.1) }
{
    match schema(alloc) {
        Some(schema) => {
            let opened = of_schema(alloc, &schema);
            let_go(schema);
            opened
        }
        None => None,
    }
}
