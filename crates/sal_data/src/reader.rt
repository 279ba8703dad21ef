//! The input for reading JSON values, and the values of leafs.
ghost use Rattle.std.specs.Prelude.{◌≡◌};
ghost use Rattle.serde_json.specs.View.{view};
ghost use Rattle.sal_types.specs.Reading.{GivesUnless};
ghost use Rattle.sal_json.specs.Patterns.{patterns_of};
ghost use Rattle.sal_data.specs.Read as spec;

use crate::fault::DataFault;
use sal_json::{Patterns, ScalarFault, read_scalar};
use sal_schema::Schema;
use sal_schema::lookups::{module_at, type_at};
use sal_types::{Duplicate, NoMemory, Path, Value};
use serde_json::Value as Json;
use std::alloc::Global;

/// The input for reading JSON values: a schema and its patterns.
#[derive(Drop)]
pub(crate) struct Reader<'a> {
    pub(crate) alloc: Global,
    pub(crate) schema: &'a Schema,
    pub(crate) patterns: &'a Patterns,
    ghost compiled: { patterns.now ≡ patterns_of schema.now },
}

impl<'a> Reader<'a> {
    pub(crate) fn new(alloc: Global, schema: &'a Schema, patterns: &'a Patterns) -> Self
        requires { patterns.now ≡ patterns_of schema.now }
        ensures { result.schema.now ≡ schema.entry.now }
    {
        Reader {
            alloc,
            schema,
            patterns,
        }
    }

    /// The value of the type of a leaf or leaf-list.
    fn node_scalar(&self, node: u32, json: &Json) -> Result<Value, ScalarFault>
        ensures { GivesUnless ScalarFault.NoMemory (λ value. value) result (spec.node_scalar self.now.schema.now node (view json.now)) }
    {
        let Some(ty) = type_at(self.schema, node) else {
            return Err(ScalarFault::WrongKind);
        };
        let Some(module) = module_at(self.schema, node) else {
            return Err(ScalarFault::WrongKind);
        };
        read_scalar(self.alloc, self.schema, self.patterns, ty, module, json)
    }

    /// The value of the type of a leaf or leaf-list; its faults are those of this path.
    pub(crate) fn value_at(&self, path: &Path, node: u32, json: &Json) -> Result<Value, DataFault>
        ensures { GivesUnless DataFault.NoMemory (λ value. value) result (spec.at_path path.now (spec.node_scalar self.now.schema.now node (view json.now))) }
    {
        match self.node_scalar(node, json) {
            Ok(value) => Ok(value),
            Err(ScalarFault::NoMemory) => Err(DataFault::NoMemory),
            Err(fault) => Err(DataFault::BadScalar {
                path: path.copy()?,
                fault,
            }),
        }
    }
}
