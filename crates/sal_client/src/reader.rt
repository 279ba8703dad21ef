//! The reader of the paths and the data of a domain.
use sal_data::{DataFault, read_data};
use sal_json::{Patterns, PatternsFault};
use sal_pathtext::{PathTextFault, read_path};
use sal_rows::Rows;
use sal_schema::Schema;
use sal_types::{NoMemory, Path};
use serde_json::Value;
use std::alloc::Global;
use std::marker::Model;
use std::sync::Arc;

/// A schema with its patterns compiled. A contract sees only the schema.
#[derive(Drop)]
pub struct Reader {
    schema: Arc<Schema>,
    patterns: Patterns,
}

impl Model for Reader {
    ghost use Rattle.std.specs.Prelude.{◌≡◌};
    ghost use Rattle.sal_schema.specs.declared.table.SchemaTable.{SchemaTable as Table};
    ghost use Rattle.sal_schema.specs.contracts.table.SchemaTable as e;
    ghost use Rattle.sal_json.specs.Patterns.{patterns_of};

    ghost Value = { Table };

    ghost coded = { e.the_row.coded };

    ghost view = { λ a. a.schema.value };

    ghost invariant = { λ a. a.patterns ≡ patterns_of a.schema.value };
}

impl Reader {
    ghost use Rattle.std.specs.Prelude.{◌≡◌, false, IfOk, IfErr, IfSome};
    ghost use Rattle.std.specs.List.{list_any};
    ghost use Rattle.sal_schema.specs.Versions.{Extends};
    ghost use Rattle.sal_types.specs.Reading.{GivesUnless};
    ghost use Rattle.sal_json.specs.Patterns.{has_malformed, IsRefusal};
    ghost use Rattle.serde_json.specs.View.{view};
    ghost use Rattle.sal_pathtext.specs.Read.{Gives};
    ghost use Rattle.sal_pathtext.specs.Read as path_spec;
    ghost use Rattle.sal_data.specs.Read as data_spec;

    /// A reader of this schema.
    pub fn of(alloc: Global, schema: Arc<Schema>) -> Result<Self, PatternsFault>
        ensures schema { IfOk result (λ reader. reader ≡ schema.value) }
        ensures formed { IfOk result (λ _. list_any has_malformed schema.value.types ≡ false) }
        ensures refused { IfErr result (IsRefusal schema.value) }
    {
        let patterns = Patterns::of(alloc, &schema)?;
        Ok(Reader { schema, patterns })
    }

    /// The reader of an older version of the schema, which shares the patterns; none if the schema does not extend that version.
    pub fn of_older(&self, older: &Arc<Schema>) -> Result<Option<Self>, NoMemory>
        ensures { IfOk result (λ found. IfSome found (λ reader. (reader ≡ older.now.value) × Extends self.now older.now.value)) }
    {
        match self.patterns.of_older(&self.schema, older)? {
            Some(patterns) => {
                let schema = Arc::try_clone(older)?;
                Ok(Some(Reader { schema, patterns }))
            }
            None => Ok(None),
        }
    }

    /// The schema.
    pub fn schema(&self) -> &Schema
        ensures { result.now ≡ self.now }
    {
        &self.schema
    }

    /// The path that the text denotes.
    pub fn path(&self, alloc: Global, text: &str) -> Result<Path, PathTextFault>
        ensures { Gives (λ path. path) result (path_spec.read_path self.now text.now) }
    {
        read_path(alloc, &self.schema, &self.patterns, text)
    }

    /// The rows that the value at the path denotes.
    pub fn data(&self, alloc: Global, path: &Path, value: &Value) -> Result<Rows, DataFault>
        ensures { GivesUnless DataFault.NoMemory (λ rows. rows) result (data_spec.read_data self.now path.now (view value.now)) }
    {
        read_data(alloc, &self.schema, &self.patterns, path, value)
    }
}
