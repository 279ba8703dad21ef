//! The schemas by which replies and trees are written.
ghost use Rattle.std.specs.Prelude.{◌≡◌, IfOk, map};
ghost use Rattle.sal_history.specs.World.{no_table};
ghost use Rattle.sal_script.specs.Tables.{table_in};

use sal_schema::{Schema, SchemaTable};
use sal_types::{NoMemory, Seq};
use std::alloc::Global;
use std::marker::Model;
use std::sync::Arc;

/// The schemas of the domains, by number, each by its last version, and one without nodes for a number without a schema. A contract sees their
/// tables.
#[derive(Drop)]
pub(crate) struct Schemas<'a> {
    list: &'a [Arc<Schema>],
    none: &'a Schema,
}

impl<'a> Model for Schemas<'a> {
    ghost use Rattle.std.specs.Prelude.{◌≡◌, List, map};
    ghost use Rattle.std.specs.Coded.{codes};
    ghost use Rattle.sal_schema.specs.declared.table.SchemaTable.{SchemaTable as Table};
    ghost use Rattle.sal_schema.specs.contracts.table.SchemaTable as e;
    ghost use Rattle.sal_history.specs.World.{no_table};

    ghost Value = { List Table };

    ghost coded = { Prim.hlevel (codes, e.the_row.coded) };

    ghost view = { λ a. map (λ s. s.value) a.list.now };

    ghost invariant = { λ a. a.none.now ≡ no_table };
}

impl<'a> Schemas<'a> {
    /// These schemas, and one without nodes.
    pub(crate) fn new(list: &'a [Arc<Schema>], none: &'a Schema) -> Schemas<'a>
        requires { none.now ≡ no_table }
        ensures { result ≡ map (λ s. s.value) list.now }
    {
        Schemas { list, none }
    }

    /// The schema of the domain.
    pub(crate) fn of(&self, domain: u32) -> &'a Schema
        ensures { result.now ≡ table_in self.now domain }
    {
        match self.list.get(domain as usize) {
            Some(schema) => schema,
            None => self.none,
        }
    }
}

/// The schema without nodes.
pub(crate) fn no_nodes(alloc: Global) -> Result<Schema, NoMemory>
    ensures { IfOk result (λ schema. schema ≡ no_table) }
{
    let table = SchemaTable {
        nodes: Seq::new(alloc),
        types: Seq::new(alloc),
        modules: Seq::new(alloc),
        identities: Seq::new(alloc),
    };
    Schema::from_table(alloc, table)
}
