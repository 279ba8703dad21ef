//! Whether the elements of a list differ, by a set of those before.
ghost use Rattle.std.specs.Prelude.{◌≡◌, IfOk, nat_eq};
ghost use Rattle.std.specs.Ordering.{eq_by_cmp};
ghost use Rattle.sal_schema.specs.Valid as spec;

use sal_types::{NoMemory, Str};
use std::alloc::Global;
use std::collections::BTreeSet;

/// Whether no element is equal to a later one.
pub(crate) fn all_differ<K: Ord>(alloc: Global, items: &[K]) -> Result<bool, NoMemory>
    ensures { IfOk result (λ b. b ≡ spec.all_differ (eq_by_cmp K.cmp) items.now) }
{
    let mut seen = BTreeSet::new(alloc);
    for item in items {
        if !seen.insert(item)? {
            return Ok(false);
        }
    }
    Ok(true)
}

/// Whether no text is equal to a later one.
pub(crate) fn texts_differ(alloc: Global, texts: &[Str]) -> Result<bool, NoMemory>
    ensures { IfOk result (λ b. b ≡ spec.all_differ spec.text_eq texts.now) }
{
    all_differ(alloc, texts)
}

/// Whether no number is equal to a later one.
pub(crate) fn numbers_differ(alloc: Global, numbers: &[u32]) -> Result<bool, NoMemory>
    ensures { IfOk result (λ b. b ≡ spec.all_differ nat_eq numbers.now) }
{
    all_differ(alloc, numbers)
}

/// Whether no position is equal to a later one.
pub(crate) fn positions_differ(alloc: Global, positions: &[u8]) -> Result<bool, NoMemory>
    ensures { IfOk result (λ b. b ≡ spec.all_differ nat_eq positions.now) }
{
    all_differ(alloc, positions)
}
