//! Identities, numbered over all modules in the order of their texts (RFC 7950 section 7.18).
ghost use Rattle.std.specs.Prelude.{◌≡◌, ◌+◌, ◌∷◌, [], ℕ, List, IfOk, length};
ghost use Rattle.sal_typedefs.specs.Blocks as blocks;
ghost use Rattle.sal_typedefs.specs.Ready as spec;

use crate::block::{Numbers, define};
use crate::tally::Tally;
use sal_module::{Keyword, argument_of, is_named};
use sal_stmt::Stmt;
use sal_types::{NoMemory, append};
use std::alloc::Global;
use std::collections::BTreeMap;

/// Counts the statement if it is an identity, and gives it the next number if its name has none.
fn define_identity<'s>(
    map: &mut Numbers<'s>,
    sub: &'s Stmt,
    tally: &mut Tally,
) -> Result<(), NoMemory>
    ensures next { IfOk result (λ _. tally.new ≡ tally.old + length (spec.identities_among (sub.now ∷ []))) }
    ensures names { IfOk result (λ _. (q : List ℕ) → blocks.get_by_name map.new q ≡ blocks.with_first (blocks.get_by_name map.old q) (spec.is_identity_of q sub.now) tally.old) }
{
    if !is_named(Keyword::Identity, sub) {
        return Ok(());
    }
    define(map, argument_of(sub), tally.number())?;
    tally.add()
}

/// The identities among these statements by name, with numbers from `tally` on, which counts them.
fn identities_among<'s>(
    alloc: Global,
    tally: &mut Tally,
    subs: &'s [Stmt],
) -> Result<Numbers<'s>, NoMemory>
    ensures names { IfOk result (λ map. spec.AreNumbered tally.old subs.now map) }
    ensures next { IfOk result (λ _. tally.new ≡ tally.old + length (spec.identities_among subs.now)) }
{
    let mut map = BTreeMap::new(alloc);
    for sub in subs {
        define_identity(&mut map, sub, tally)?;
    }
    Ok(map)
}

/// The identities of each module by name.
pub(crate) fn identities_of<'s>(
    alloc: Global,
    stmts: &'s [Stmt],
) -> Result<Vec<Numbers<'s>>, NoMemory>
    ensures { IfOk result (λ all. spec.AreIdentities stmts.now all.items) }
{
    let mut all = Vec::with_capacity(alloc, stmts.len())?;
    let mut tally = Tally::new(alloc);
    for stmt in stmts {
        append(
            &mut all,
            identities_among(alloc, &mut tally, stmt.subs.items())?,
        )?;
    }
    Ok(all)
}
