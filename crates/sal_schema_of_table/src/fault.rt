//! Why a table gives no schema.
use sal_types::NoMemory;
use thiserror::Error;

/// Why a table gives no schema.
#[derive(Clone, Copy, Debug, PartialEq, Eq, Error)]
pub enum TableFault {
    /// It is not the table of a schema.
    #[error("not the table of a schema")]
    NotATable,
    #[error("out of memory")]
    NoMemory,
}

impl From<NoMemory> for TableFault {
    ghost use Rattle.std.specs.Prelude.{◌≡◌};
    ghost use Rattle.sal_schema_of_table.specs.declared.fault.TableFault.TheVariants.{NoMemory as Refused};

    ghost from_gives = { λ _ e. e ≡ Refused };

    fn from(_refused: NoMemory) -> TableFault {
        TableFault::NoMemory
    }
}
