//! Whether a table is the table of a schema.
ghost use Rattle.std.specs.Prelude.{◌≡◌, ◌↔◌, IfOk, IfErr, OnOk, IsTrue};
ghost use Rattle.sal_schema.specs.Valid.{IsTable};
ghost use Rattle.sal_schema_of_table.specs.Whole as spec;
ghost use Rattle.sal_schema_of_table.specs.declared.fault.TableFault.TheVariants.{NotATable};

use crate::fault::TableFault;
use crate::identity::are_good_identities;
use crate::names::has_distinct_names;
use crate::node::are_good_nodes;
use crate::types::are_good_types;
use crate::words::are_identifiers;
use sal_schema::{Schema, SchemaTable};
use sal_types::NoMemory;
use std::alloc::Global;

/// One more than the largest number of elements of a kind in a table.
const LIMIT: usize = 4_294_967_296;

// Whether there are fewer than 2 ^ 32 elements of each kind.
fn is_small(table: &SchemaTable) -> bool
    ensures { result ≡ spec.is_small table.now }
{
    table.nodes.items().len() < LIMIT
        && table.types.items().len() < LIMIT
        && table.modules.items().len() < LIMIT
        && table.identities.items().len() < LIMIT
}

// The test, part by part.
fn passes(alloc: Global, table: &SchemaTable) -> Result<bool, NoMemory>
    ensures { IfOk result (λ b. b ≡ spec.is_table table.now) }
{
    if !is_small(table) {
        return Ok(false);
    }
    if !are_identifiers(table.modules.items()) || !are_good_identities(table) {
        return Ok(false);
    }
    if !are_good_nodes(alloc, table)? || !are_good_types(alloc, table)? {
        return Ok(false);
    }
    has_distinct_names(alloc, table)
}

/// Whether the table is the table of a schema.
///
/// It takes memory for a copy of each name, of one kind of names at a time, and fails if memory runs out. For n nodes it
/// compares names n log n times; in addition it climbs, from each node for data, the choices and cases directly above it.
pub fn is_table(alloc: Global, table: &SchemaTable) -> Result<bool, NoMemory>
    ensures { IfOk result (λ b. IsTrue b ↔ IsTable table.now) }
{
    passes(alloc, table)
}

/// The schema of this table, if it is the table of one.
///
/// It costs what `is_table` and `Schema::from_table` cost. The table is consumed in each case, also if memory runs out.
pub fn schema_of(alloc: Global, table: SchemaTable) -> Result<Schema, TableFault>
    ensures schema { IfOk result (λ schema. schema ≡ table) }
    ensures table { OnOk result (IsTable table) }
    ensures fault { IfErr result (λ fault. fault ≡ NotATable → IsTable table → ⊥) }
{
    if !is_table(alloc, &table)? {
        return Err(TableFault::NotATable);
    }
    Ok(Schema::from_table(alloc, table)?)
}
