//! A script whose domains do not begin with the script's opening trees, but with those of followers.
ghost use Rattle.std.specs.Prelude.{◌≡◌, ◌+◌, ◌<◌, ◌≤◌, [], true, Ok, IfOk, IsTrue, drop, length, map};
ghost use Rattle.sal_schema.specs.Fitting.{is_closed};
ghost use Rattle.sal_client.specs.Lists.{begun_with};
ghost use Rattle.sal_hub.specs.Openings.{world_of};
ghost use Rattle.sal_script.specs.Reading.{parts};
ghost use Rattle.sal_script.specs.Tables.{first_in, last_among, tables_of, version_among, versions_in, versions_of};
ghost use Rattle.sal_prepare.specs.Each.{each_from};
ghost use Rattle.sal_prepare.specs.Openings.{AreChains};
ghost use Rattle.sal_prepare.specs.Resumed.{OthersAreSound, are_of_version, devices_fit, ground, ground_under, resumed, resumed_with, with_own, world_on};
ghost use Rattle.sal_prepare.specs.Scripted as spec;

use crate::domains::{Schemas, domain_at, domain_count, last_schemas, readers_of, schemas_of};
use crate::given::{all_fit, fit_root, put_openings};
use crate::openings::{add_device, are_sound, hub_of, opening_at, versions_at};
use crate::scripted::script_of;
use crate::status::Status;
use sal_client::Readers;
use sal_history::{Device, Opening};
use sal_hub::Hub;
use sal_rows::Rows;
use sal_schema::Schema;
use sal_script::Script;
use sal_types::NoMemory;
use sal_versions::shared::shared_again;
use std::alloc::Global;
use std::sync::Arc;

/// A script with the schemas of its domains, each of its last version, and the readers of all versions: what a hub over other trees needs.
#[derive(Drop)]
pub struct Ground {
    pub script: Script,
    pub schemas: Vec<Arc<Schema>>,
    pub readers: Readers,
    all: Schemas,
    ghost made: { spec.all_versions (parts script) ≡ Ok (spec.versions_shared all) },
    ghost read: { readers ≡ spec.versions_shared all },
    ghost own: { 1 ≤ length all.own.items },
    ghost count: { length all.devices.items + 1 ≡ length (spec.domains_of (parts script)) },
    ghost few: { length all.devices.items ≤ 63 },
    ghost tables: { spec.tables_in schemas.items ≡ map last_among readers },
    ghost some: { 1 ≤ length schemas.items },
    ghost short: { length schemas.items ≤ 64 },
}

/// The trees with which domains go on: those of the controller's own domain, and those that are given for the devices, in order.
#[derive(Drop)]
pub struct Openings {
    pub own: Opening,
    pub devices: Vec<Option<Opening>>,
}

/// A hub that goes on, with the schemas and readers of its world.
#[derive(Drop)]
pub struct Resumed {
    pub hub: Hub,
    pub schemas: Vec<Arc<Schema>>,
    pub readers: Readers,
}

/// The script that the bytes denote, with its schemas, or the first fault. The opening trees are not read.
pub fn ground_of(alloc: Global, bytes: &[u8]) -> Result<Ground, Status>
    ensures { spec.Comes (λ it. record { parts = parts it.script; tables = it.readers }) (ground bytes.now) result }
{
    let script = script_of(alloc, bytes)?;
    let ground = ground_under(alloc, script)?;
    Ok(ground)
}

// The same for a script that was read.
fn ground_under(alloc: Global, script: Script) -> Result<Ground, Status>
    ensures { spec.Comes (λ it. record { parts = parts it.script; tables = it.readers }) (ground_under (parts script)) result }
{
    let all = schemas_of(alloc, &script)?;
    let readers = readers_of(alloc, &all)?;
    let schemas = last_schemas(alloc, &all)?;
    Ok(Ground {
        script,
        schemas,
        readers,
        all,
    })
}

impl Ground {
    /// Whether the script has this version of the schema of the controller's own domain, and the trees fit at the root by it. It takes no memory.
    pub fn fits(&self, alloc: Global, version: u32, config: &Rows, oper: &Rows) -> bool
        ensures { result ≡ are_of_version self.now.readers version (record { config = config.now; oper = oper.now }) }
    {
        if version as usize >= self.all.own.len() {
            return false;
        }
        fit_root(
            alloc,
            version_at(&self.all.own, version as usize),
            config,
            oper,
        )
    }

    /// Whether the trees that are given for the devices, in order, fit at the root by their schemas. It takes no memory.
    pub fn devices_fit(&self, alloc: Global, given: &[Option<Opening>]) -> bool
        ensures { result ≡ devices_fit self.now.readers given.now }
    {
        all_fit(alloc, &self.all.devices, given)
    }

    /// The hub of the script, whose own domain begins with these trees by this version of its schema, and has the versions after it as upgrades. Each
    /// device begins with the trees that are given for it, or else with the opening trees of the script.
    pub fn resume_with(
        &self,
        alloc: Global,
        version: u32,
        openings: Openings,
    ) -> Result<Resumed, Status>
        requires own { are_of_version self.now.readers version openings.own ≡ true }
        requires devices { devices_fit self.now.readers openings.devices.items ≡ true }
        ensures world { spec.Comes (λ it. it.hub.world) (resumed_with self.now.script.rules (parts self.now.script).devices (begun_with version self.now.readers) openings.own openings.devices.items) result }
        ensures schemas { IfOk result (λ it. spec.tables_in it.schemas.items ≡ tables_of it.hub.world) }
        ensures some { IfOk result (λ it. 1 ≤ length it.schemas.items) }
        ensures few { IfOk result (λ it. length it.schemas.items ≤ 64) }
        ensures readers { IfOk result (λ it. it.readers ≡ versions_of it.hub.world) }
        ensures fresh { IfOk result (λ it. it.hub.log ≡ []) }
    {
        are_sound(&self.script, &self.all);
        let all = self.schemas_from(alloc, version)?;
        resumed_over(alloc, &self.script, &all, openings)
    }

    /// The same with these trees of the controller's own domain, and each device as in the script.
    pub fn resume(&self, alloc: Global, version: u32, opening: Opening) -> Result<Resumed, Status>
        requires { are_of_version self.now.readers version opening ≡ true }
        ensures world { spec.Comes (λ it. it.hub.world) (resumed self.now.script.rules (parts self.now.script).devices (begun_with version self.now.readers) opening) result }
        ensures schemas { IfOk result (λ it. spec.tables_in it.schemas.items ≡ tables_of it.hub.world) }
        ensures some { IfOk result (λ it. 1 ≤ length it.schemas.items) }
        ensures few { IfOk result (λ it. length it.schemas.items ≤ 64) }
        ensures readers { IfOk result (λ it. it.readers ≡ versions_of it.hub.world) }
        ensures fresh { IfOk result (λ it. it.hub.log ≡ []) }
    {
        let devices: Vec<Option<Opening>> = Vec::new(alloc);
        let openings = Openings {
            own: opening,
            devices,
        };
        self.resume_with(alloc, version, openings)
    }

    // The schemas without those of the versions before this one.
    fn schemas_from(&self, alloc: Global, version: u32) -> Result<Schemas, NoMemory>
        requires { version < length (versions_in self.now.readers 0) }
        ensures own { IfOk result (λ all. spec.tables_in all.own.items ≡ drop version (spec.tables_in self.now.all.own.items)) }
        ensures devices { IfOk result (λ all. spec.tables_in all.devices.items ≡ spec.tables_in self.now.all.devices.items) }
    {
        let own = shared_again(alloc, from(&self.all.own, version as usize))?;
        let devices = shared_again(alloc, &self.all.devices)?;
        Ok(Schemas { own, devices })
    }
}

// The schemas from this one on.
fn from(versions: &[Arc<Schema>], version: usize) -> &[Arc<Schema>]
    requires { version ≤ length versions.now }
    ensures { spec.tables_in result.now ≡ drop version (spec.tables_in versions.now) }
{
    &versions[version..]
}

// The schema of this version.
fn version_at(versions: &[Arc<Schema>], version: usize) -> &Arc<Schema>
    requires { version < length versions.now }
    ensures { result.now.value ≡ version_among (spec.tables_in versions.now) version }
{
    &versions[version]
}

// The hub over these schemas, with its schemas and readers.
fn resumed_over(
    alloc: Global,
    script: &Script,
    all: &Schemas,
    openings: Openings,
) -> Result<Resumed, Status>
    requires chains { AreChains (spec.versions_shared all.now) }
    requires own { 1 ≤ length all.now.own.items }
    requires count { length all.now.devices.items + 1 ≡ length (spec.domains_of (parts script.now)) }
    requires few { length all.now.devices.items ≤ 63 }
    requires config { IsTrue (is_closed (first_in (spec.versions_shared all.now) 0) openings.own.config) }
    requires oper { IsTrue (is_closed (first_in (spec.versions_shared all.now) 0) openings.own.oper) }
    requires devices { devices_fit (spec.versions_shared all.now) openings.devices.items ≡ true }
    ensures world { spec.Comes (λ it. it.hub.world) (resumed_with script.now.rules (parts script.now).devices (spec.versions_shared all.now) openings.own openings.devices.items) result }
    ensures schemas { IfOk result (λ it. spec.tables_in it.schemas.items ≡ tables_of it.hub.world) }
    ensures some { IfOk result (λ it. 1 ≤ length it.schemas.items) }
    ensures few { IfOk result (λ it. length it.schemas.items ≤ 64) }
    ensures readers { IfOk result (λ it. it.readers ≡ versions_of it.hub.world) }
    ensures fresh { IfOk result (λ it. it.hub.log ≡ []) }
{
    let readers = readers_of(alloc, all)?;
    let hub = hub_on(alloc, script, all, &readers, openings)?;
    let schemas = last_schemas(alloc, all)?;
    Ok(Resumed {
        hub,
        schemas,
        readers,
    })
}

// The hub over these schemas and readers.
fn hub_on(
    alloc: Global,
    script: &Script,
    schemas: &Schemas,
    readers: &Readers,
    openings: Openings,
) -> Result<Hub, Status>
    requires schemas { readers.now ≡ spec.versions_shared schemas.now }
    requires chains { AreChains (spec.versions_shared schemas.now) }
    requires own { 1 ≤ length schemas.now.own.items }
    requires all { length schemas.now.devices.items + 1 ≡ length (spec.domains_of (parts script.now)) }
    requires few { length schemas.now.devices.items ≤ 63 }
    requires config { IsTrue (is_closed (first_in readers.now 0) openings.own.config) }
    requires oper { IsTrue (is_closed (first_in readers.now 0) openings.own.oper) }
    requires devices { devices_fit readers.now openings.devices.items ≡ true }
    ensures world { spec.Comes (λ hub. hub.world) (world_on script.now.rules (parts script.now).devices readers.now openings.own openings.devices.items) result }
    ensures tables { IfOk result (λ hub. readers.now ≡ versions_of hub.world) }
    ensures fresh { IfOk result (λ hub. hub.log ≡ []) }
{
    others_are_sound(script, schemas);
    let devices = devices_on(alloc, script, schemas, readers, openings)?;
    hub_of(alloc, readers, devices, script.rules)
}

// Does nothing; its contract is that the devices of the script are sound over these versions, if their data are read.
fn others_are_sound(script: &Script, schemas: &Schemas)
    requires chains { AreChains (spec.versions_shared schemas.now) }
    requires all { length schemas.now.devices.items + 1 ≡ length (spec.domains_of (parts script.now)) }
    ensures { OthersAreSound (parts script.now).devices (spec.versions_shared schemas.now) }
{
    sal_json_laws::laws::json_is_tested();
    sal_data::laws::rows_that_were_read_are_whole();
}

// The devices: the controller's own domain with these opening trees, and the others with those that are given, or else those of the script.
fn devices_on(
    alloc: Global,
    script: &Script,
    schemas: &Schemas,
    readers: &Readers,
    openings: Openings,
) -> Result<Vec<Device>, Status>
    requires schemas { readers.now ≡ spec.versions_shared schemas.now }
    requires own { 1 ≤ length schemas.now.own.items }
    requires all { length schemas.now.devices.items + 1 ≡ length (spec.domains_of (parts script.now)) }
    ensures { spec.Comes (λ devices. world_of script.now.rules devices.items) (with_own (spec.domain_with script.now.rules (versions_in readers.now 0) openings.own) openings.devices.items (each_from (spec.opening_by script.now.rules readers.now) 1 (parts script.now).devices)) result }
{
    let Openings {
        own,
        devices: given,
    } = openings;
    let mut devices = scripted_on(alloc, script, schemas, readers, own)?;
    put_openings(&mut devices, given);
    Ok(devices)
}

// The same, all the others with the opening trees of the script.
fn scripted_on(
    alloc: Global,
    script: &Script,
    schemas: &Schemas,
    readers: &Readers,
    own: Opening,
) -> Result<Vec<Device>, Status>
    requires schemas { readers.now ≡ spec.versions_shared schemas.now }
    requires own { 1 ≤ length schemas.now.own.items }
    requires all { length schemas.now.devices.items + 1 ≡ length (spec.domains_of (parts script.now)) }
    ensures { spec.Comes (λ devices. world_of script.now.rules devices.items) (with_own (spec.domain_with script.now.rules (versions_in readers.now 0) own) [] (each_from (spec.opening_by script.now.rules readers.now) 1 (parts script.now).devices)) result }
{
    let mut devices = Vec::new(alloc);
    add_device(alloc, &mut devices, versions_at(schemas, 0), own)?;
    add_others(alloc, script, schemas, readers, &mut devices)?;
    Ok(devices)
}

// Appends the devices of the script.
fn add_others(
    alloc: Global,
    script: &Script,
    schemas: &Schemas,
    readers: &Readers,
    devices: &mut Vec<Device>,
) -> Result<(), Status>
    requires schemas { readers.now ≡ spec.versions_shared schemas.now }
    requires own { 1 ≤ length schemas.now.own.items }
    requires all { length schemas.now.devices.items + 1 ≡ length (spec.domains_of (parts script.now)) }
    ensures { spec.Comes (λ _. world_of script.now.rules devices.new.items) (spec.after_these (world_of script.now.rules devices.old.items) (each_from (spec.opening_by script.now.rules readers.now) 1 (parts script.now).devices)) result }
{
    for number in 1..domain_count(script) {
        let domain = domain_at(script, number);
        let opening = opening_at(alloc, readers, number, domain)?;
        add_device(alloc, devices, versions_at(schemas, number), opening)?;
    }
    Ok(())
}
