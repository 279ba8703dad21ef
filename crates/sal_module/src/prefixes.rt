//! The prefixes by which a module names modules.
ghost use Rattle.std.specs.Prelude.{◌≡◌, ◌∷◌, ◌^◌, ◌<◌, [], ℕ, List, length, IfOk, option_map};
ghost use Rattle.std.specs.BTreeMap.{get_by_text};
ghost use Rattle.sal_module.specs.Faults.{least};
ghost use Rattle.sal_module.specs.Imports as spec;

use crate::fault::{Cause, Found};
use crate::imports::place_of;
use crate::keyword::Keyword;
use crate::profile::with_fault;
use crate::statement::{argument_of, is_named, value_of};
use sal_stmt::Stmt;
use sal_types::NoMemory;
use std::alloc::Global;
use std::collections::BTreeMap;

/// The module of each prefix, if it was given.
pub(crate) type Prefixes = BTreeMap<String, Option<u32>>;

fn with_own(alloc: Global, number: u32, stmt: &Stmt) -> Result<Prefixes, NoMemory>
    ensures { IfOk result (λ map. (q : List ℕ) → get_by_text map q ≡ spec.find_named ((spec.prefix_of stmt.now, Some number) ∷ []) q) }
{
    let mut map = BTreeMap::new(alloc);
    let prefix = String::from_str(alloc, value_of(Keyword::Prefix, stmt))?;
    map.insert(prefix, Some(number))?;
    Ok(map)
}

/// The prefixes of a module, and the first of this fault and those of imports whose prefix is used before.
pub(crate) fn prefixes_of(
    best: Option<Found>,
    alloc: Global,
    stmts: &[Stmt],
    number: u32,
    stmt: &Stmt,
) -> Result<(Prefixes, Option<Found>), NoMemory>
    requires { length stmts.now < 2 ^ 32 }
    ensures names { IfOk result (λ p. (q : List ℕ) → get_by_text p.0 q ≡ spec.find_named (spec.named_prefixes stmts.now number stmt.now (spec.imports_of stmt.now)) q) }
    ensures fault { IfOk result (λ p. p.1 ≡ least best (spec.prefix_faults number (spec.prefix_of stmt.now ∷ []) (spec.imports_of stmt.now))) }
{
    let mut best = best;
    let mut map = with_own(alloc, number, stmt)?;
    for sub in stmt.subs.items() {
        if !is_named(Keyword::Import, sub) {
            continue;
        }
        let prefix = value_of(Keyword::Prefix, sub);
        if map.contains_key(prefix) {
            best = with_fault(best, Cause::BadArgument, number, sub.at);
            continue;
        }
        let place = place_of(stmts, argument_of(sub));
        map.insert(String::from_str(alloc, prefix)?, place)?;
    }
    Ok((map, best))
}
