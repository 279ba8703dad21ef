//! Names with a prefix or without one (RFC 7950 sections 6.2 and 6.4.1).
ghost use Rattle.std.specs.Prelude.{◌≡◌, ◌+◌, ◌-◌, ◌<◌, ◌≤◌, length, slice_index, MatchOption};
ghost use Rattle.sal_stmt.specs.Words.{colon_at};
ghost use Rattle.sal_typedefs.specs.Scopes as spec;

use sal_module::Modules;
use sal_types::{front, tail};

/// The offset of the first colon, or the length of the name if it has none.
fn len_to_colon(name: &str) -> usize
    ensures value { result ≡ colon_at name.now }
    ensures within { result ≤ length name.now }
{
    name.as_bytes().iter().take_while(|c| **c != b':').count()
}

/// The offset of the first colon.
fn colon_at(name: &str) -> Option<usize>
    ensures { MatchOption result (length name.now ≤ colon_at name.now) (λ i. (i ≡ colon_at name.now) × (i < length name.now) × (slice_index name.now i ≡ 58)) }
{
    let len = len_to_colon(name);
    if len < name.len() { Some(len) } else { None }
}

/// A name without its prefix.
pub(crate) fn local(name: &str) -> &str
    ensures { result.now ≡ spec.local name.now }
{
    match colon_at(name) {
        None => name,
        Some(colon) => tail(name, colon + 1),
    }
}

/// The module that a name in a module refers to: that module, or the one that the prefix names there.
pub(crate) fn module_of(modules: &Modules, number: u32, name: &str) -> Option<u32>
    ensures { result ≡ spec.module_of modules.now number name.now }
{
    match colon_at(name) {
        None => Some(number),
        Some(colon) => modules.imported(number, front(name, colon)),
    }
}
