//! Trees that are given for devices, in the place of a script's opening trees.
ghost use Rattle.std.specs.Prelude.{◌≡◌, ◌&&◌, ◌<◌, ◌∷◌, None, length, map, slice_get, slice_set, Some};
ghost use Rattle.sal_rows.specs.declared.clash.Rules.{Rules as Ruled};
ghost use Rattle.sal_schema.specs.Fitting.{is_closed};
ghost use Rattle.sal_client.specs.Lists.{alone};
ghost use Rattle.sal_hub.specs.Openings.{world_of};
ghost use Rattle.sal_prepare.specs.Resumed.{are_fitting, is_fitting, with_opening_at, with_openings};
ghost use Rattle.sal_prepare.specs.Scripted.{tables_in};

use sal_data::fits_rows;
use sal_history::{Device, Opening};
use sal_rows::Rows;
use sal_schema::Schema;
use sal_types::Path;
use std::alloc::Global;
use std::sync::Arc;

/// Whether the rows of both trees fit at the root.
pub(crate) fn fit_root(alloc: Global, schema: &Schema, config: &Rows, oper: &Rows) -> bool
    ensures { result ≡ (is_closed schema.now config.now && is_closed schema.now oper.now) }
{
    let root = Path::root(alloc);
    fits_rows(schema, &root, config) && fits_rows(schema, &root, oper)
}

/// Whether the trees that are given for domains of these schemas fit at the root, each by its own.
pub(crate) fn all_fit(alloc: Global, schemas: &[Arc<Schema>], given: &[Option<Opening>]) -> bool
    ensures { result ≡ are_fitting (map alone (tables_in schemas.now)) given.now }
{
    let mut rest = schemas;
    for opening in given {
        let Some((schema, later)) = rest.split_first() else {
            return true;
        };
        if !fits_one(alloc, schema, opening) {
            return false;
        }
        rest = later;
    }
    true
}

// Whether they do for one domain.
fn fits_one(alloc: Global, schema: &Schema, given: &Option<Opening>) -> bool
    ensures { result ≡ is_fitting schema.now given.now }
{
    match given {
        Some(opening) => fit_root(alloc, schema, &opening.config, &opening.oper),
        None => true,
    }
}

/// Puts the trees that are given for the devices after the first one in the place of theirs, in order.
pub(crate) fn put_openings(devices: &mut Vec<Device>, given: Vec<Option<Opening>>)
    ensures { (rules : Ruled) → world_of rules devices.new.items ≡ with_openings (world_of rules devices.old.items) (None ∷ given.items) }
{
    let mut given = given;
    for index in 0..given.len() {
        let opening = taken(&mut given, index);
        put_opening(devices, index + 1, opening);
    }
}

// Takes the trees of this index out.
fn taken(given: &mut Vec<Option<Opening>>, index: usize) -> Option<Opening>
    requires { index < length given.old.items }
    ensures taken { slice_get given.old.items index ≡ Some result }
    ensures left { given.new.items ≡ slice_set given.old.items index None }
{
    given[index].take()
}

// Puts the trees that are given for the device of this number in the place of its own.
fn put_opening(devices: &mut Vec<Device>, number: usize, given: Option<Opening>)
    ensures { (rules : Ruled) → world_of rules devices.new.items ≡ with_opening_at (world_of rules devices.old.items) number given }
{
    match given {
        Some(opening) => put(devices, number, opening),
        None => {}
    }
}

// Puts these trees in the place of those of the device of this number, if there is it.
fn put(devices: &mut Vec<Device>, number: usize, opening: Opening)
    ensures { (rules : Ruled) → world_of rules devices.new.items ≡ with_opening_at (world_of rules devices.old.items) number (Some opening) }
{
    if number < devices.len() {
        let device = &mut devices[number];
        device.opening = opening;
    }
}
