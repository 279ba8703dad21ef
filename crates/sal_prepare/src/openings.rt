//! The opening trees of a script: their data, and why a hub is not opened over them.
ghost use Rattle.std.specs.Prelude.{◌≡◌, ◌+◌, ◌<◌, ◌≤◌, ◌++◌, [], ◌∷◌, true, Ok, Err, IfOk, Some, codes, decimal, length};
ghost use Rattle.serde_json.specs.View.{view};
ghost use Rattle.sal_rows.specs.declared.clash.Rules.{Rules as Ruled};
ghost use Rattle.sal_history.specs.World.{AreVersions};
ghost use Rattle.sal_hub.specs.Openings.{AreClosedDevices, world_of};
ghost use Rattle.sal_script.specs.Reading.{parts};
ghost use Rattle.sal_script.specs.Report.{breach_text, data_fault_text, path_text, store_text};
ghost use Rattle.sal_script.specs.Tables.{first_among, first_in, has_domain, later_among, versions_in, versions_of};
ghost use Rattle.sal_prepare.specs.Each.{each_from};
ghost use Rattle.sal_prepare.specs.Openings.{AreChains, OpenSound};
ghost use Rattle.sal_prepare.specs.Scripted as spec;

use crate::domains::{Schemas, ScriptDomain, domain_at, domain_count};
use crate::status::Status;
use sal_client::{Reader, Readers};
use sal_data::DataFault;
use sal_history::{Device, Opening};
use sal_hub::{Hub, OpenFault, are_tables};
use sal_report::{breach_text, data_fault_text, path_words, store_word};
use sal_rows::{Breach, Rows, Rules};
use sal_schema::Schema;
use sal_script::Script;
use sal_types::{NoMemory, Path, Store, Str};
use sal_versions::shared::shared_again;
use serde_json::Value;
use std::alloc::Global;
use std::slice;
use std::sync::Arc;

/// Which opening tree: the store of a domain.
#[derive(Clone, Copy)]
pub(crate) struct OpeningTree {
    pub(crate) domain: u32,
    pub(crate) store: Store,
}

/// The hub over the opening trees of all domains, unless one of them is not data of its schema, or is refused. There are schemas and readers
/// for each domain.
pub(crate) fn hub_over(
    alloc: Global,
    script: &Script,
    schemas: &Schemas,
    readers: &Readers,
) -> Result<Hub, Status>
    requires made { spec.all_versions (parts script.now) ≡ Ok (spec.versions_shared schemas.now) }
    requires schemas { readers.now ≡ spec.versions_shared schemas.now }
    requires own { 1 ≤ length schemas.now.own.items }
    requires all { length schemas.now.devices.items + 1 ≡ length (spec.domains_of (parts script.now)) }
    requires few { length schemas.now.devices.items ≤ 63 }
    ensures world { spec.Comes (λ hub. hub.world) (spec.world_over script.now.rules (spec.domains_of (parts script.now)) readers.now) result }
    ensures tables { IfOk result (λ hub. readers.now ≡ versions_of hub.world) }
    ensures fresh { IfOk result (λ hub. hub.log ≡ []) }
{
    are_sound(script, schemas);
    let devices = devices_of(alloc, script, schemas, readers)?;
    hub_of(alloc, readers, devices, script.rules)
}

/// Does nothing; its contract is that the domains of the script are sound over these versions, if their data are read.
pub(crate) fn are_sound(script: &Script, schemas: &Schemas)
    requires made { spec.all_versions (parts script.now) ≡ Ok (spec.versions_shared schemas.now) }
    requires own { 1 ≤ length schemas.now.own.items }
    requires all { length schemas.now.devices.items + 1 ≡ length (spec.domains_of (parts script.now)) }
    ensures sound { OpenSound (spec.domains_of (parts script.now)) (spec.versions_shared schemas.now) }
    ensures chains { AreChains (spec.versions_shared schemas.now) }
{
    are_tables(&schemas.own);
    are_tables(&schemas.devices);
    sal_json_laws::laws::json_is_tested();
    sal_data::laws::rows_that_were_read_are_whole();
    sal_versions::laws::versions_are_in_order();
}

// The devices with their opening trees.
fn devices_of(
    alloc: Global,
    script: &Script,
    schemas: &Schemas,
    readers: &Readers,
) -> Result<Vec<Device>, Status>
    requires schemas { readers.now ≡ spec.versions_shared schemas.now }
    requires own { 1 ≤ length schemas.now.own.items }
    requires all { length schemas.now.devices.items + 1 ≡ length (spec.domains_of (parts script.now)) }
    ensures { spec.Comes (λ devices. world_of script.now.rules devices.items) (each_from (spec.opening_by script.now.rules readers.now) 0 (spec.domains_of (parts script.now))) result }
{
    let mut devices = Vec::new(alloc);
    for number in 0..domain_count(script) {
        let domain = domain_at(script, number);
        let opening = opening_at(alloc, readers, number, domain)?;
        add_device(alloc, &mut devices, versions_at(schemas, number), opening)?;
    }
    Ok(devices)
}

/// The versions of the domain of this number.
pub(crate) fn versions_at(schemas: &Schemas, number: u32) -> &[Arc<Schema>]
    requires own { 1 ≤ length schemas.now.own.items }
    requires within { number < length (spec.versions_shared schemas.now) }
    ensures tables { spec.tables_in result.now ≡ versions_in (spec.versions_shared schemas.now) number }
    ensures some { 1 ≤ length result.now }
{
    if number == 0 {
        return &schemas.own;
    }
    slice::from_ref(&schemas.devices[number as usize - 1])
}

/// One more device, of these versions, for any version rules.
pub(crate) fn add_device(
    alloc: Global,
    devices: &mut Vec<Device>,
    versions: &[Arc<Schema>],
    opening: Opening,
) -> Result<(), NoMemory>
    requires { 1 ≤ length versions.now }
    ensures { IfOk result (λ _. (rules : Ruled) → world_of rules devices.new.items ≡ world_of rules devices.old.items ++ spec.domain_with rules (spec.tables_in versions.now) opening ∷ []) }
{
    let schema = Arc::try_clone(first(versions))?;
    let upgrades = shared_again(alloc, later(versions))?;
    devices.push(Device {
        schema,
        upgrades,
        opening,
    })?;
    Ok(())
}

// The schema of version 0.
fn first(versions: &[Arc<Schema>]) -> &Arc<Schema>
    requires { 1 ≤ length versions.now }
    ensures { result.now.value ≡ first_among (spec.tables_in versions.now) }
{
    &versions[0]
}

// The schemas of the versions after it.
fn later(versions: &[Arc<Schema>]) -> &[Arc<Schema>]
    requires { 1 ≤ length versions.now }
    ensures { spec.tables_in result.now ≡ later_among (spec.tables_in versions.now) }
{
    &versions[1..]
}

/// The opening trees of the domain of this number.
pub(crate) fn opening_at(
    alloc: Global,
    readers: &Readers,
    number: u32,
    domain: ScriptDomain<'_>,
) -> Result<Opening, Status>
    requires { has_domain readers.now number ≡ true }
    ensures { spec.Comes (λ opening. opening) (spec.opening_trees number (first_in readers.now number) (spec.given domain.entry)) result }
{
    let Some(reader) = readers.first_of(number) else {
        unreachable!()
    };
    trees_of(alloc, reader, number, domain)
}

// The same, read by the domain's own reader.
fn trees_of(
    alloc: Global,
    reader: &Reader,
    number: u32,
    domain: ScriptDomain<'_>,
) -> Result<Opening, Status>
    ensures { spec.Comes (λ opening. opening) (spec.opening_trees number reader.now (spec.given domain.entry)) result }
{
    let config = tree_of(alloc, reader, at(number, Store::Config), domain.config)?;
    let oper = tree_of(alloc, reader, at(number, Store::Oper), domain.operational)?;
    Ok(Opening { config, oper })
}

fn at(domain: u32, store: Store) -> OpeningTree
    ensures { result ≡ record { domain = domain; store = store } }
{
    OpeningTree { domain, store }
}

// The rows of an opening tree.
fn tree_of(alloc: Global, reader: &Reader, tree: OpeningTree, value: &Value) -> Result<Rows, Status>
    ensures { spec.Comes (λ rows. rows) (spec.opening_rows tree.domain reader.now tree.store (view value.now)) result }
{
    match reader.data(alloc, &Path::root(alloc), value) {
        Ok(rows) => Ok(rows),
        Err(DataFault::NoMemory) => Err(Status::NoMemory),
        Err(fault) => Err(bad_opening(alloc, reader, tree, &fault)),
    }
}

// The status of an opening tree with this fault.
fn bad_opening(alloc: Global, reader: &Reader, tree: OpeningTree, fault: &DataFault) -> Status
    ensures { spec.IsOpeningFault tree.domain reader.now tree.store fault.now result }
{
    match opening_text(alloc, reader, tree, fault) {
        Ok(text) => Status::BadOpening { text },
        Err(NoMemory) => Status::NoMemory,
    }
}

fn opening_text(
    alloc: Global,
    reader: &Reader,
    tree: OpeningTree,
    fault: &DataFault,
) -> Result<Str, NoMemory>
    ensures { IfOk result (λ text. text ≡ decimal tree.domain ++ (32 ∷ (store_text tree.store ++ (codes " data " ++ data_fault_text reader.now fault.now)))) }
{
    let mut text = String::new(alloc);
    let domain = tree.domain;
    write!(text, "{domain} ")?;
    text.push_str(store_word(tree.store))?;
    text.push_str(" data ")?;
    let words = data_fault_text(alloc, reader.schema(), fault)?;
    text.push_str(words.as_str())?;
    Ok(Str::from_string(text))
}

/// The hub over the devices under the version rules, unless one of their opening trees is refused.
pub(crate) fn hub_of(
    alloc: Global,
    readers: &Readers,
    devices: Vec<Device>,
    rules: Rules,
) -> Result<Hub, Status>
    requires some { 1 ≤ length devices.items }
    requires few { length devices.items ≤ 64 }
    requires versions { AreVersions (world_of rules devices.items) }
    requires closed { AreClosedDevices devices.items }
    requires tables { readers.now ≡ versions_of (world_of rules devices.items) }
    ensures world { spec.Comes (λ hub. hub.world) (spec.opened (world_of rules devices.items)) result }
    ensures fresh { IfOk result (λ hub. hub.log ≡ []) }
{
    match Hub::open(alloc, devices, rules) {
        Ok(hub) => Ok(hub),
        Err(fault) => Err(refusal(alloc, readers, &fault)),
    }
}

// The status of a hub that is refused with this fault, of one of the domains.
fn refusal(alloc: Global, readers: &Readers, fault: &OpenFault) -> Status
    requires { has_domain readers.now (spec.domain_in fault.now) ≡ true }
    ensures { spec.IsRefusal readers.now fault.now result }
{
    let Some(reader) = readers.first_of(domain_of(fault)) else {
        unreachable!()
    };
    match refused_text(alloc, reader.schema(), fault) {
        Ok(text) => Status::BadOpening { text },
        Err(NoMemory) => Status::NoMemory,
    }
}

// The domain that is refused.
fn domain_of(fault: &OpenFault) -> u32
    ensures { result ≡ spec.domain_in fault.now }
{
    match fault {
        OpenFault::NotConfig { device, .. } => *device,
        OpenFault::Broken { device, .. } => *device,
        OpenFault::NoMemory => 0,
    }
}

fn refused_text(alloc: Global, schema: &Schema, fault: &OpenFault) -> Result<Str, NoMemory>
    ensures { IfOk result (λ text. spec.refused_text schema.now fault.now ≡ Some text) }
{
    match fault {
        OpenFault::NotConfig { device, path } => not_config_text(alloc, schema, *device, path),
        OpenFault::Broken {
            device,
            store,
            breach,
        } => broken_text(alloc, schema, *device, *store, breach),
        OpenFault::NoMemory => Err(NoMemory),
    }
}

fn not_config_text(
    alloc: Global,
    schema: &Schema,
    device: u32,
    path: &Path,
) -> Result<Str, NoMemory>
    ensures { IfOk result (λ text. text ≡ decimal «device» ++ (codes " config not-config" ++ path_text schema.now path.now)) }
{
    let words = path_words(alloc, schema, path)?;
    let text = device_text(alloc, device, " config not-config", &words)?;
    Ok(text)
}

// The number of a device, some words, and more of them.
fn device_text(alloc: Global, device: u32, words: &str, more: &Str) -> Result<Str, NoMemory>
    ensures { IfOk result (λ text. text ≡ decimal «device» ++ (words.now ++ more.now)) }
{
    let mut text = String::new(alloc);
    write!(text, "{device}")?;
    text.push_str(words)?;
    text.push_str(more.as_str())?;
    Ok(Str::from_string(text))
}

fn broken_text(
    alloc: Global,
    schema: &Schema,
    device: u32,
    store: Store,
    breach: &Breach,
) -> Result<Str, NoMemory>
    ensures { IfOk result (λ text. text ≡ decimal «device» ++ (32 ∷ (store_text store ++ (codes " breach" ++ breach_text schema.now breach.now.path breach.now.rule)))) }
{
    let mut text = String::new(alloc);
    write!(text, "{device} ")?;
    text.push_str(store_word(store))?;
    text.push_str(" breach")?;
    let words = breach_text(alloc, schema, breach)?;
    text.push_str(words.as_str())?;
    Ok(Str::from_string(text))
}
