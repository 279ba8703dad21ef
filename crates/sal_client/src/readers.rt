//! The readers of the paths and the data of all domains.
ghost use Rattle.std.specs.Prelude.{◌≡◌, ◌⊎◌, ◌+◌, ◌<◌, ◌≤◌, ◌∷◌, ◌++◌, [], false, drop, is_some, length, IfOk, IfErr, IfSome, OnOk};
ghost use Rattle.std.specs.List.{list_any};
ghost use Rattle.sal_script.specs.Tables.{first_in, has_domain, has_upgrade, last_among, last_in, table_at, version_among};
ghost use Rattle.sal_client.specs.Lists.{begun_with, from_version, versions_by};
ghost use Rattle.sal_client.specs.Malformed.{are_malformed, is_malformed, shared_tables, IsFirstMalformed, IsMalformedAt, IsUnreadable};

use crate::reader::Reader;
use sal_json::PatternsFault;
use sal_schema::Schema;
use sal_types::NoMemory;
use std::alloc::{AllocError, AllocFailed, Global};
use std::marker::Model;
use std::sync::Arc;
use thiserror::Error;

/// Why there are no readers.
#[derive(Clone, Copy, Debug, PartialEq, Eq, Error)]
pub enum ReadersFault {
    /// This version of the schema of this device has a malformed pattern, and none before it. Device 0 is the controller's own domain.
    #[error("version {version} of the schema of device {device} has a malformed pattern")]
    Pattern { device: u32, version: usize },
    /// Memory ran out.
    #[error("out of memory")]
    NoMemory,
}

/// Why schemas in a list have no readers.
#[derive(Clone, Copy, Debug, PartialEq, Eq)]
pub(crate) enum ListFault {
    /// The schema at this index has a malformed pattern, and none before it.
    Pattern { index: usize },
    NoMemory,
}

/// Readers for all domains: for the controller's own one by each version of its schema, and one for each device, by number. A contract
/// sees their schemas.
pub struct Readers {
    own: Vec<Reader>,
    devices: Vec<Reader>,
}

impl Drop for Readers {
    fn drop(self) {
        let Readers { own: _, devices: _ } = self;
    }
}

impl Model for Readers {
    ghost use Rattle.std.specs.Prelude.{List, length, ◌<◌};
    ghost use Rattle.std.specs.Coded.{codes};
    ghost use Rattle.sal_schema.specs.declared.table.SchemaTable.{SchemaTable as Table};
    ghost use Rattle.sal_schema.specs.contracts.table.SchemaTable as e;
    ghost use Rattle.sal_client.specs.Lists.{versions_by};

    ghost Value = { List (List Table) };

    ghost coded = { Prim.hlevel (codes, e.the_row.coded) };

    ghost view = { λ a. versions_by a.own.items a.devices.items };

    ghost invariant = { λ a. 0 < length a.own.items };
}

// The reader of a schema, if its patterns are well formed.
fn compiled(alloc: Global, index: usize, schema: Arc<Schema>) -> Result<Reader, ListFault>
    ensures reader { IfOk result (λ reader. reader ≡ schema.value) }
    ensures formed { IfOk result (λ _. is_malformed schema.value ≡ false) }
    ensures refused { IfErr result (IsUnreadable index schema.value) }
{
    match Reader::of(alloc, schema) {
        Ok(reader) => Ok(reader),
        Err(PatternsFault::Refused { .. }) => Err(ListFault::Pattern { index }),
        Err(PatternsFault::NoMemory) => Err(ListFault::NoMemory),
    }
}

// The same for a schema that is shared.
fn reader_of(alloc: Global, index: usize, schema: &Arc<Schema>) -> Result<Reader, ListFault>
    ensures reader { IfOk result (λ reader. reader ≡ schema.now.value) }
    ensures formed { IfOk result (λ _. is_malformed schema.now.value ≡ false) }
    ensures refused { IfErr result (IsUnreadable index schema.now.value) }
{
    match Arc::try_clone(schema) {
        Ok(schema) => compiled(alloc, index, schema),
        Err(AllocError) => Err(ListFault::NoMemory),
    }
}

// The reader of a version, which shares the patterns of a later one if that extends it.
fn sharing(
    alloc: Global,
    index: usize,
    later: &Reader,
    schema: &Arc<Schema>,
) -> Result<Reader, ListFault>
    requires { is_malformed later.now ≡ false }
    ensures reader { IfOk result (λ reader. reader ≡ schema.now.value) }
    ensures formed { IfOk result (λ _. is_malformed schema.now.value ≡ false) }
    ensures refused { IfErr result (IsUnreadable index schema.now.value) }
{
    match later.of_older(schema) {
        Ok(Some(reader)) => Ok(reader),
        Ok(None) => reader_of(alloc, index, schema),
        Err(NoMemory) => Err(ListFault::NoMemory),
    }
}

// The reader of a schema, which shares the patterns of a later version, if there is one.
fn reader_beside(
    alloc: Global,
    index: usize,
    later: Option<&Reader>,
    schema: &Arc<Schema>,
) -> Result<Reader, ListFault>
    requires { IfSome later (λ reader. is_malformed reader.now ≡ false) }
    ensures reader { IfOk result (λ reader. reader ≡ schema.now.value) }
    ensures formed { IfOk result (λ _. is_malformed schema.now.value ≡ false) }
    ensures refused { IfErr result (IsUnreadable index schema.now.value) }
{
    match later {
        Some(later) => sharing(alloc, index, later, schema),
        None => reader_of(alloc, index, schema),
    }
}

// Adds the reader of the next schema.
fn add(
    alloc: Global,
    list: &mut Vec<Reader>,
    later: Option<&Reader>,
    schema: &Arc<Schema>,
) -> Result<(), ListFault>
    requires { IfSome later (λ reader. is_malformed reader.now ≡ false) }
    ensures added { OnOk result (list.new.items ≡ list.old.items ++ schema.now.value ∷ []) }
    ensures formed { OnOk result (is_malformed schema.now.value ≡ false) }
    ensures refused { IfErr result (IsUnreadable (length list.old.items) schema.now.value) }
{
    let reader = reader_beside(alloc, list.len(), later, schema)?;
    match list.push(reader) {
        Ok(()) => Ok(()),
        Err(AllocFailed { .. }) => Err(ListFault::NoMemory),
    }
}

// Adds the readers of all schemas.
fn add_all(
    alloc: Global,
    list: &mut Vec<Reader>,
    later: Option<&Reader>,
    schemas: &[Arc<Schema>],
) -> Result<(), ListFault>
    requires none { list.old.items ≡ [] }
    requires later { IfSome later (λ reader. is_malformed reader.now ≡ false) }
    ensures tables { OnOk result (list.new.items ≡ shared_tables schemas.now) }
    ensures formed { OnOk result (list_any is_malformed list.new.items ≡ false) }
    ensures refused { IfErr result (IsFirstMalformed (shared_tables schemas.now)) }
{
    for schema in schemas {
        add(alloc, list, later, schema)?;
    }
    Ok(())
}

// The readers of these schemas. Those that the later version extends share its patterns.
fn readers_of(
    alloc: Global,
    later: Option<&Reader>,
    schemas: &[Arc<Schema>],
) -> Result<Vec<Reader>, ListFault>
    requires { IfSome later (λ reader. is_malformed reader.now ≡ false) }
    ensures tables { IfOk result (λ list. list.items ≡ shared_tables schemas.now) }
    ensures formed { IfOk result (λ list. list_any is_malformed list.items ≡ false) }
    ensures refused { IfErr result (IsFirstMalformed (shared_tables schemas.now)) }
{
    let mut list = Vec::new(alloc);
    add_all(alloc, &mut list, later, schemas)?;
    Ok(list)
}

// The readers of the versions of one schema, version 0 first. The patterns of the last version are compiled, and the others share them. If
// one of them is malformed, the patterns of each version are compiled, up to the first version that has it.
fn readers_of_versions(alloc: Global, versions: &[Arc<Schema>]) -> Result<Vec<Reader>, ListFault>
    requires { 1 ≤ length versions.now }
    ensures tables { IfOk result (λ list. list.items ≡ shared_tables versions.now) }
    ensures formed { IfOk result (λ list. list_any is_malformed list.items ≡ false) }
    ensures refused { IfErr result (IsFirstMalformed (shared_tables versions.now)) }
{
    match reader_of(alloc, 0, &versions[versions.len() - 1]) {
        Ok(last) => readers_of(alloc, Some(&last), versions),
        Err(ListFault::Pattern { .. }) => readers_of(alloc, None, versions),
        Err(ListFault::NoMemory) => Err(ListFault::NoMemory),
    }
}

// The reader by the version, by the last one if there are fewer.
fn by_version(versions: &[Reader], version: u32) -> &Reader
    requires { 0 < length versions.now }
    ensures { result.now ≡ version_among versions.now version }
{
    let index = version as usize;
    if index < versions.len() {
        &versions[index]
    } else {
        &versions[versions.len() - 1]
    }
}

// The reader by the last version.
fn by_last(versions: &[Reader]) -> &Reader
    requires { 0 < length versions.now }
    ensures { result.now ≡ last_among versions.now }
{
    &versions[versions.len() - 1]
}

// Drops the first readers.
fn drop_first(readers: &mut Vec<Reader>, count: usize)
    requires { count ≤ length readers.old.items }
    ensures { readers.new.items ≡ drop count readers.old.items }
{
    let len = readers.len() - count;
    readers.as_mut_slice().rotate_left(count);
    readers.truncate(len);
}

// Drops the readers of the versions before this one; the last one stays.
fn drop_versions(readers: &mut Vec<Reader>, version: usize)
    requires { 0 < length readers.old.items }
    ensures { readers.new.items ≡ from_version version readers.old.items }
{
    if version < readers.len() {
        drop_first(readers, version);
        return;
    }
    let last = readers.len() - 1;
    drop_first(readers, last);
}

// The number of the device at this index.
fn device_number(index: usize) -> u32
    requires { index < 64 }
    ensures { result ≡ index + 1 }
{
    index as u32 + 1
}

impl Readers {
    /// Readers of the versions of the schema of the controller's own domain, version 0 first, and of the schemas of the devices.
    pub fn of(
        alloc: Global,
        own: &[Arc<Schema>],
        devices: &[Arc<Schema>],
    ) -> Result<Readers, ReadersFault>
        requires some { 1 ≤ length own.now }
        requires few { length devices.now ≤ 64 }
        ensures tables { IfOk result (λ readers. readers ≡ versions_by (shared_tables own.now) (shared_tables devices.now)) }
        ensures formed { IfOk result (λ readers. list_any are_malformed readers ≡ false) }
        ensures refused { IfErr result (IsMalformedAt (versions_by (shared_tables own.now) (shared_tables devices.now))) }
    {
        let versions = match readers_of_versions(alloc, own) {
            Ok(list) => list,
            Err(ListFault::Pattern { index }) => {
                return Err(ReadersFault::Pattern {
                    device: 0,
                    version: index,
                });
            }
            Err(ListFault::NoMemory) => return Err(ReadersFault::NoMemory),
        };
        match readers_of(alloc, None, devices) {
            Ok(list) => Ok(Readers {
                own: versions,
                devices: list,
            }),
            Err(ListFault::Pattern { index }) => Err(ReadersFault::Pattern {
                device: device_number(index),
                version: 0,
            }),
            Err(ListFault::NoMemory) => Err(ReadersFault::NoMemory),
        }
    }

    /// The reader of the domain by version 0 of its schema, if there is one.
    pub fn first_of(&self, domain: u32) -> Option<&Reader>
        ensures reader { IfSome result (λ reader. reader.now ≡ first_in self.now domain) }
        ensures has { is_some result ≡ has_domain self.now domain }
    {
        if domain == 0 {
            Some(&self.own[0])
        } else {
            self.devices.get(domain as usize - 1)
        }
    }

    /// The reader of the domain by the last version of its schema, if there is one.
    pub fn last_of(&self, domain: u32) -> Option<&Reader>
        ensures reader { IfSome result (λ reader. reader.now ≡ last_in self.now domain) }
        ensures has { is_some result ≡ has_domain self.now domain }
    {
        if domain == 0 {
            Some(by_last(&self.own))
        } else {
            self.devices.get(domain as usize - 1)
        }
    }

    /// The reader by the version of the controller's own domain, or that of a device, which has one version.
    pub(crate) fn reader(&self, domain: u32, version: u32) -> &Reader
        requires { (domain ≡ 0) ⊎ (domain < length self.now) }
        ensures { result.now ≡ table_at self.now version domain }
    {
        if domain == 0 {
            by_version(&self.own, version)
        } else {
            &self.devices[domain as usize - 1]
        }
    }

    /// The reader of the controller's own domain by the last version.
    pub fn own(&self) -> &Reader
        ensures { result.now ≡ last_in self.now 0 }
    {
        by_last(&self.own)
    }

    /// Drops the readers of the controller's own domain by the versions before this one, which becomes version 0; the last one stays. It takes no
    /// memory.
    pub fn begin_with(&mut self, version: u32)
        ensures { self.new ≡ begun_with version self.old }
    {
        drop_versions(&mut self.own, version as usize);
    }

    /// Whether an upgrade of the controller's own domain leads to the version.
    pub fn has_upgrade(&self, version: u32) -> bool
        ensures { result ≡ has_upgrade self.now version }
    {
        version >= 1 && (version as usize) < self.own.len()
    }
}
