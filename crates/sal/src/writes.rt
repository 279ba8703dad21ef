//! Whether a write is one for a schema, as `WriteTx` requires.
ghost use Rattle.std.specs.Prelude.{◌≡◌, ◌&&◌, IsTrue, not};
ghost use Rattle.sal_rows.specs.declared.op.Act.TheVariants.{Delete, Merge, Put};
ghost use Rattle.sal_rules.specs.Writes.{IsForSchema};
ghost use Rattle.sal_schema.specs.Fitting as fitting;
ghost use Rattle.sal_schema.specs.Paths.{fits_path};

use sal_data::fits_rows;
use sal_rows::Rows;
use sal_schema::Schema;
use sal_types::{Path, Store};

/// Whether the path is one of the schema's data: outside of RPCs and notifications. A transaction may delete there.
pub fn is_place(schema: &Schema, store: Store, path: &Path) -> bool
    ensures exact { result ≡ fits_path schema.now path.now && not (fitting.is_in_message schema.now path.now) }
    ensures delete { IsTrue result → IsForSchema schema.now (record { store = store; path = path.now; act = Delete }) }
{
    schema.fits(path) && !schema.is_in_message(path)
}

/// Whether the path is such a place, and the rows are data at it. A transaction may put or merge them there.
pub fn is_for(schema: &Schema, store: Store, path: &Path, rows: &Rows) -> bool
    ensures exact { result ≡ fits_path schema.now path.now && not (fitting.is_in_message schema.now path.now) && fitting.fits schema.now path.now rows.now }
    ensures put { IsTrue result → IsForSchema schema.now (record { store = store; path = path.now; act = Put rows.now }) }
    ensures merge { IsTrue result → IsForSchema schema.now (record { store = store; path = path.now; act = Merge rows.now }) }
{
    schema.fits(path) && !schema.is_in_message(path) && fits_rows(schema, path, rows)
}
