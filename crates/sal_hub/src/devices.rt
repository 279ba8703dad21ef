//! The domains of devices at the opening.
ghost use Rattle.std.specs.Prelude.{◌≡◌, ◌⊎◌, ◌≤◌, ◌∷◌, ◌++◌, [], None, Some, All, IfOk, OnOk, MatchResult, find, length, map};
ghost use Rattle.std.specs.Option.{option_copied, option_map};
ghost use Rattle.sal_schema.specs.Fitting.{is_of_state};
ghost use Rattle.sal_schema.specs.Valid.{IsTable};
ghost use Rattle.sal_graft.specs.Kept.{AreKept};
ghost use Rattle.sal_hub.specs.declared.opening.OpenFault.TheVariants.{NotConfig, NoMemory as Refused};
ghost use Rattle.sal_hub.specs.PipelineView.{AllKept, shown};
ghost use Rattle.sal_commit.specs.Versions.{tables_of};
ghost use Rattle.sal_hub.specs.Opened.{HaveTables, shown_from, shown_of};
ghost use Rattle.sal_hub.specs.Openings.{IsFaultOf, domain_of, fault_of, numbered, opening_fault, state_row, world_of};

use crate::opening::OpenFault;
use sal_commit::{Domain, DomainFault};
use sal_history::Device;
use sal_rows::Rules;
use sal_schema::Schema;
use sal_types::{Duplicate, NoMemory, Row};
use std::alloc::Global;
use std::sync::Arc;

/// The domains of the devices under the version rules, unless their openings are refused.
pub(crate) fn open_all(
    alloc: Global,
    devices: &[Device],
    rules: Rules,
) -> Result<Vec<Domain>, OpenFault>
    requires { length devices.now ≤ 64 }
    ensures fault { MatchResult result (λ _. fault_of (world_of rules devices.now) ≡ None) (IsFaultOf (world_of rules devices.now)) }
    ensures kept { IfOk result (λ domains. AllKept domains.items) }
    ensures shown { IfOk result (λ domains. map shown domains.items ≡ shown_from rules 0 devices.now) }
{
    let mut domains = Vec::new(alloc);
    for i in 0..devices.len() {
        open_next(alloc, &mut domains, i as u32, &devices[i], rules)?;
    }
    Ok(domains)
}

/// Does nothing; its contract is the invariant of the schemas' types.
pub(crate) fn have_tables(devices: &[Device])
    ensures { All HaveTables devices.now }
{
    for i in 0..devices.len() {
        has_tables(&devices[i]);
    }
}

// Does nothing; its contract is the invariant of the types of the device's schemas.
fn has_tables(device: &Device)
    ensures { HaveTables device.now }
{
    is_table(&device.schema);
    are_tables(&device.upgrades);
}

/// Does nothing; its contract is the invariant of the schemas' types.
pub fn are_tables(versions: &[Arc<Schema>])
    ensures { All IsTable (tables_of versions.now) }
{
    for i in 0..versions.len() {
        is_table(&versions[i]);
    }
}

// Does nothing; its contract is the invariant of the schema's type.
fn is_table(schema: &Schema)
    ensures { IsTable schema.now }
{
    let _ = schema.len();
}

// Opens one more domain, after the open ones.
fn open_next(
    alloc: Global,
    domains: &mut Vec<Domain>,
    number: u32,
    device: &Device,
    rules: Rules,
) -> Result<(), OpenFault>
    ensures fault { MatchResult result (λ _. opening_fault number (domain_of rules device.now) ≡ None) (λ e. (e ≡ Refused) ⊎ (opening_fault number (domain_of rules device.now) ≡ Some e)) }
    ensures kept { OnOk result (AllKept domains.old.items → AllKept domains.new.items) }
    ensures shown { OnOk result (map shown domains.new.items ≡ map shown domains.old.items ++ shown_of rules number device.now ∷ []) }
{
    let domain = open_one(alloc, number, device, rules)?;
    add(domains, domain)?;
    Ok(())
}

fn add(domains: &mut Vec<Domain>, domain: Domain) -> Result<(), NoMemory>
    ensures { OnOk result (domains.new.items ≡ domains.old.items ++ domain ∷ []) }
{
    domains.push(domain)?;
    Ok(())
}

// The domain of the device with this number.
fn open_one(alloc: Global, number: u32, device: &Device, rules: Rules) -> Result<Domain, OpenFault>
    ensures fault { MatchResult result (λ _. opening_fault number (domain_of rules device.now) ≡ None) (λ e. (e ≡ Refused) ⊎ (opening_fault number (domain_of rules device.now) ≡ Some e)) }
    ensures kept { IfOk result (λ d. AreKept d.commits.items) }
    ensures shown { IfOk result (λ d. shown d ≡ shown_of rules number device.now) }
{
    match not_config(number, device) {
        Ok(()) => {}
        Err(fault) => return Err(fault),
    }
    match Domain::open(alloc, number, device, number == 0, rules) {
        Ok(domain) => Ok(domain),
        Err(fault) => Err(numbered(number, fault)),
    }
}

// The fault of the device of this number.
fn numbered(number: u32, fault: DomainFault) -> OpenFault
    ensures { result ≡ numbered number fault }
{
    match fault {
        DomainFault::Broken { store, breach } => OpenFault::Broken {
            device: number,
            store,
            breach,
        },
        DomainFault::NoMemory => OpenFault::NoMemory,
    }
}

// Whether the configuration has state data.
fn not_config(number: u32, device: &Device) -> Result<(), OpenFault>
    ensures { MatchResult result (λ _. state_row device.now.schema.value device.now.opening.config ≡ None) (λ e. (e ≡ Refused) ⊎ (option_map (NotConfig number) (state_row device.now.schema.value device.now.opening.config) ≡ Some e)) }
{
    match first_state(&device.schema, device.opening.config.items()) {
        None => Ok(()),
        Some(row) => {
            let path = row.path.copy()?;
            Err(OpenFault::NotConfig {
                device: number,
                path,
            })
        }
    }
}

// The first row of a state node.
fn first_state<'a>(schema: &Schema, rows: &'a [Row]) -> Option<&'a Row>
    ensures { option_copied result ≡ find (λ row. is_of_state schema.now row.path) rows.now }
{
    rows.iter().find(|row| schema.is_of_state(&row.path))
}
