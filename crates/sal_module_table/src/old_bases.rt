//! Bases of new identities that name identities of old modules. A later version must not have them.
ghost use Rattle.std.specs.Prelude.{◌≡◌, ◌<◌, None, IfOk};
ghost use Rattle.sal_module.specs.Faults.{least};
ghost use Rattle.sal_module_table.specs.Identities.{seen, identities_of as all_identities};
ghost use Rattle.sal_module_table.specs.OldBases as spec;

use crate::identities::{Identity, identities_of};
use crate::lists::with_bad;
use sal_module::{Cause, Found, Keyword, Modules, argument_of, is_named};
use sal_stmt::Stmt;
use sal_typedefs::Typedefs;
use sal_types::NoMemory;
use std::alloc::Global;

/// The identities of all modules. Those of the modules before index `old` are old.
#[derive(Drop)]
struct Ages<'x, 't, 'm> {
    typedefs: &'x Typedefs<'t>,
    all: &'x [Identity<'m>],
    old: u32,
}

/// Whether this number is that of an identity of an old module.
fn is_old(ages: &Ages, target: Option<usize>) -> bool
    ensures { result ≡ spec.is_old ages.now.old (seen ages.now.all.now) target }
{
    match target {
        None => false,
        Some(i) => i < ages.all.len() && ages.all[i].0 < ages.old,
    }
}

fn with_base(best: Option<Found>, ages: &Ages, module: u32, sub: &Stmt) -> Option<Found>
    ensures { result ≡ least best (spec.base_faults ages.now.old ages.now.typedefs.now (seen ages.now.all.now) «module» sub.now) }
{
    let target = ages.typedefs.identity_of(module, argument_of(sub));
    let bad = is_named(Keyword::Base, sub) && is_old(ages, target);
    with_bad(best, bad, Cause::OldIdentity, module, sub)
}

fn with_identity(best: Option<Found>, ages: &Ages, module: u32, one: &Stmt) -> Option<Found>
    ensures { result ≡ least best (spec.faults_of ages.now.old ages.now.typedefs.now (seen ages.now.all.now) («module», one.now)) }
{
    let mut best = best;
    if ages.old <= module {
        for sub in one.subs.items() {
            best = with_base(best, ages, module, sub);
        }
    }
    best
}

/// The first fault of these identities.
fn fault_among<'x, 't, 'm>(
    typedefs: &'x Typedefs<'t>,
    all: &'x [Identity<'m>],
    old: u32,
) -> Option<Found>
    requires { seen all.now ≡ all_identities typedefs.now }
    ensures { result ≡ least None (spec.all_faults old typedefs.now) }
{
    let ages = Ages { typedefs, all, old };
    let mut best = None;
    for one in all {
        best = with_identity(best, &ages, one.0, one.1);
    }
    best
}

/// The first `base` of an identity of a new module that names an identity of an old module, or none. The modules before index `old` are old.
///
/// It takes time linear in the identities and their bases, times the logarithm of the identities.
pub(crate) fn old_base_fault(
    alloc: Global,
    modules: &Modules,
    typedefs: &Typedefs,
    old: u32,
) -> Result<Option<Found>, NoMemory>
    requires { typedefs.now ≡ modules.now }
    ensures { IfOk result (λ found. found ≡ least None (spec.all_faults old modules.now)) }
{
    let all = identities_of(alloc, modules.items())?;
    Ok(fault_among(typedefs, all.as_slice(), old))
}
