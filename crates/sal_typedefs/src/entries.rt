//! All names of an enumeration or of bits (RFC 7950 sections 9.6 and 9.7).
ghost use Rattle.std.specs.Prelude.{◌≡◌, ◌∷◌, ◌++◌, [], Some, None, IfOk, if◌then◌else◌};
ghost use Rattle.sal_module.specs.declared.fault.Cause.TheVariants.{BadRestriction};
ghost use Rattle.sal_module.specs.Faults.{least};
ghost use Rattle.sal_module.specs.Profile.{at_stmt};
ghost use Rattle.sal_module.specs.Statements as statements;
ghost use Rattle.sal_typedefs.specs.Listings.{AreNames, IsListing};
ghost use Rattle.sal_typedefs.specs.Entries as spec;

use crate::entry::{Entry, Numbering};
use crate::judging::at;
use crate::listing::{Choices, Listing, Named};
use crate::numbering::{chosen_entry, own_entry};
use sal_module::{Cause, Found, argument_of, better, is_named};
use sal_stmt::Stmt;
use sal_types::NoMemory;
use std::alloc::Global;

/// The first of this fault and that of a statement, if it has one.
pub(crate) fn with_fault(
    best: Option<Found>,
    bad: bool,
    cause: Cause,
    number: u32,
    stmt: &Stmt,
) -> Option<Found>
    ensures { result ≡ least best (if bad then at_stmt cause number stmt.now else []) }
{
    if bad {
        better(best, at(cause, number, stmt))
    } else {
        best
    }
}

/// How a statement of a module lists the names of a type.
#[derive(Clone, Copy)]
pub(crate) struct Naming {
    pub(crate) alloc: Global,
    pub(crate) numbering: Numbering,
    pub(crate) number: u32,
}

impl Naming {
    /// Appends a name that the statement defines, with the least fault.
    fn with_own<'s>(
        self,
        best: Option<Found>,
        listing: &mut Listing<'s>,
        stmt: &'s Stmt,
    ) -> Result<Option<Found>, NoMemory>
        requires { IsListing listing.old }
        ensures entries { IfOk result (λ _. listing.new.named.entries.items ≡ listing.old.named.entries.items ++ spec.entry_of self.numbering None listing.old.named.entries.items stmt.now ∷ []) }
        ensures fault { IfOk result (λ found. found ≡ least best (if spec.is_faulty self.numbering None listing.old.named.entries.items stmt.now then at_stmt BadRestriction self.number stmt.now else [])) }
        ensures listing { IfOk result (λ _. IsListing listing.new) }
    {
        let (bad, entry) = own_entry(self.alloc, self.numbering, listing, stmt)?;
        listing.push(argument_of(stmt), entry)?;
        Ok(with_fault(best, bad, Cause::BadRestriction, self.number, stmt))
    }

    /// The names that the statement defines, and the first of this fault and theirs.
    fn own_entries(
        self,
        best: Option<Found>,
        stmt: &Stmt,
    ) -> Result<(Option<Found>, Vec<Entry>), NoMemory>
        ensures fault { IfOk result (λ p. p.0 ≡ least best (spec.entry_faults self.numbering None self.number [] (statements.all_named (spec.item_of self.numbering) stmt.now))) }
        ensures entries { IfOk result (λ p. p.1.items ≡ spec.entries_of self.numbering None [] (statements.all_named (spec.item_of self.numbering) stmt.now)) }
    {
        let mut listing = Listing::new(self.alloc);
        let mut best = best;
        for sub in stmt.subs.items() {
            if !is_named(self.numbering.item(), sub) {
                continue;
            }
            best = self.with_own(best, &mut listing, sub)?;
        }
        Ok((best, listing.named.entries))
    }

    /// Appends a name that the statement chooses from these, with the least fault.
    fn with_choice<'s>(
        self,
        best: Option<Found>,
        from: &Choices,
        chosen: &mut Named<'s>,
        stmt: &'s Stmt,
    ) -> Result<Option<Found>, NoMemory>
        requires { AreNames chosen.old.entries.items chosen.old.names }
        ensures entries { IfOk result (λ _. chosen.new.entries.items ≡ chosen.old.entries.items ++ spec.entry_of self.numbering (Some from.now) chosen.old.entries.items stmt.now ∷ []) }
        ensures fault { IfOk result (λ found. found ≡ least best (if spec.is_faulty self.numbering (Some from.now) chosen.old.entries.items stmt.now then at_stmt BadRestriction self.number stmt.now else [])) }
        ensures names { IfOk result (λ _. AreNames chosen.new.entries.items chosen.new.names) }
    {
        let (bad, entry) = chosen_entry(self.alloc, self.numbering, from, chosen, stmt)?;
        chosen.push(argument_of(stmt), entry)?;
        Ok(with_fault(best, bad, Cause::BadRestriction, self.number, stmt))
    }

    /// The names that the statement chooses from these, and the first of this fault and theirs.
    fn chosen_entries(
        self,
        best: Option<Found>,
        from: &[Entry],
        stmt: &Stmt,
    ) -> Result<(Option<Found>, Vec<Entry>), NoMemory>
        ensures fault { IfOk result (λ p. p.0 ≡ least best (spec.entry_faults self.numbering (Some from.now) self.number [] (statements.all_named (spec.item_of self.numbering) stmt.now))) }
        ensures entries { IfOk result (λ p. p.1.items ≡ spec.entries_of self.numbering (Some from.now) [] (statements.all_named (spec.item_of self.numbering) stmt.now)) }
    {
        let choices = Choices::new(self.alloc, from)?;
        self.choose(best, &choices, stmt)
    }

    /// The same over choices by name.
    fn choose(
        self,
        best: Option<Found>,
        from: &Choices,
        stmt: &Stmt,
    ) -> Result<(Option<Found>, Vec<Entry>), NoMemory>
        ensures fault { IfOk result (λ p. p.0 ≡ least best (spec.entry_faults self.numbering (Some from.now) self.number [] (statements.all_named (spec.item_of self.numbering) stmt.now))) }
        ensures entries { IfOk result (λ p. p.1.items ≡ spec.entries_of self.numbering (Some from.now) [] (statements.all_named (spec.item_of self.numbering) stmt.now)) }
    {
        let mut chosen = Named::new(self.alloc);
        let mut best = best;
        for sub in stmt.subs.items() {
            if !is_named(self.numbering.item(), sub) {
                continue;
            }
            best = self.with_choice(best, from, &mut chosen, sub)?;
        }
        Ok((best, chosen.entries))
    }

    /// The names of the statement, chosen from these if it restricts a type with names, and the first of this fault and
    /// theirs.
    pub(crate) fn with_entries(
        self,
        best: Option<Found>,
        from: Option<&[Entry]>,
        stmt: &Stmt,
    ) -> Result<(Option<Found>, Vec<Entry>), NoMemory>
        ensures fault { IfOk result (λ p. p.0 ≡ least best (spec.entry_faults self.numbering (spec.entries_seen from.entry) self.number [] (statements.all_named (spec.item_of self.numbering) stmt.now))) }
        ensures entries { IfOk result (λ p. p.1.items ≡ spec.entries_of self.numbering (spec.entries_seen from.entry) [] (statements.all_named (spec.item_of self.numbering) stmt.now)) }
    {
        match from {
            None => self.own_entries(best, stmt),
            Some(from) => self.chosen_entries(best, from, stmt),
        }
    }
}
