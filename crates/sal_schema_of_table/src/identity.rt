//! Whether the identities of a table are those of a schema.
ghost use Rattle.std.specs.Prelude.{◌≡◌, ◌<◌, ◌^◌, length, nat_lt};
ghost use Rattle.std.specs.List.{list_all};
ghost use Rattle.sal_schema.specs.Table as spec;
ghost use Rattle.sal_schema.specs.Valid.{is_good_identity};

use crate::words::is_identifier;
use sal_schema::{IdentityInfo, SchemaTable};

/// Whether each number is below a count.
pub(crate) fn are_below(numbers: &[u32], count: usize) -> bool
    ensures { result ≡ list_all (λ n. nat_lt n count) numbers.now }
{
    numbers.iter().all(|n| (*n as usize) < count)
}

fn is_among(number: u32, numbers: &[u32]) -> bool
    ensures { result ≡ spec.is_among number numbers.now }
{
    numbers.iter().any(|other| *other == number)
}

// Whether its module and the identities from which it is derived exist, and it is not derived from itself.
fn is_good_identity(table: &SchemaTable, number: u32, identity: &IdentityInfo) -> bool
    ensures { result ≡ is_good_identity table.now number identity.now }
{
    let above = identity.derived_from.items();
    is_identifier(&identity.name)
        && (identity.module as usize) < table.modules.items().len()
        && are_below(above, table.identities.items().len())
        && !is_among(number, above)
}

/// Whether each identity is one of a schema, except for duplicate names.
pub(crate) fn are_good_identities(table: &SchemaTable) -> bool
    requires { length table.now.identities < 2 ^ 32 }
    ensures { result ≡ spec.all_from (is_good_identity table.now) 0 table.now.identities }
{
    let identities = table.identities.items();
    for (i, identity) in identities.iter().enumerate() {
        if !is_good_identity(table, i as u32, identity) {
            return false;
        }
    }
    true
}
