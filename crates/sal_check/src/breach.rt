//! The least of breaches.
ghost use Rattle.std.specs.Prelude.{◌≡◌};
ghost use Rattle.sal_rules.specs.Breaches as spec;

use sal_rows::Breach;

/// The lesser of the least breach so far and another one.
pub(crate) fn keep(least: Option<Breach>, other: Breach) -> Option<Breach>
    ensures { result ≡ spec.keep least other }
{
    match least {
        None => Some(other),
        Some(least) => {
            if other < least {
                Some(other)
            } else {
                Some(least)
            }
        }
    }
}
