//! One statement over the type that it restricts (RFC 7950 section 7.4).
ghost use Rattle.std.specs.Prelude.{◌≡◌, ◌≤◌, ℕ, length, map, None, IfOk, if◌then◌else◌, true, false};
ghost use Rattle.std.specs.List.{enumerate_from};
ghost use Rattle.sal_restrict.specs.declared.yang_type.YangType.TheOpen.{YangType-F};
ghost use Rattle.sal_typedefs.specs.declared.entry.Entry.{Entry as Named};
ghost use Rattle.sal_restrict.specs.declared.yang_type.YangType.TheViews.{out-YangType, roll-YangType};
ghost use Rattle.sal_module.specs.Faults.{least};
ghost use Rattle.sal_typedefs.specs.Restrictions as restrictions;
ghost use Rattle.sal_typedefs.specs.Restrictions.{HasNumbers, HasPositions, HasPlaces};
ghost use Rattle.sal_typedefs.specs.Entries.{entries_seen};
ghost use Rattle.sal_typedefs.specs.Types as types_spec;
ghost use Rattle.sal_typedefs.specs.Judgements as spec;

use crate::entries::Naming;
use crate::entry::{Entry, Numbering};
use crate::judgement::Basis;
use crate::meaning::{bases_of, chosen_places, flat, names_in, own_places, positions};
use crate::typedefs::Typedefs;
use sal_module::{Found, has_named};
use sal_restrict::YangType;
use sal_stmt::Stmt;
use sal_types::{Duplicate, NoMemory, Str, append};
use std::alloc::Global;

/// How the names of a type get their numbers, if it has names.
pub(crate) fn numbering_of(ty: &YangType) -> Option<Numbering>
    ensures { result ≡ restrictions.numbering_of (out-YangType ty.now) }
{
    match ty {
        YangType::Enum { .. } => Some(Numbering::Enums),
        YangType::Bits { .. } => Some(Numbering::Bits),
        _ => None,
    }
}

/// Whether a statement keeps all names of the type that it restricts.
fn takes_all(n: Numbering, basis: &Basis, stmt: &Stmt) -> bool
    ensures { result ≡ types_spec.takes_all n (spec.base_seen basis.now) stmt.now }
{
    !basis.itself && !has_named(n.item(), stmt.subs.items())
}

pub(crate) fn copies(alloc: Global, entries: &[Entry]) -> Result<Vec<Entry>, NoMemory>
    ensures { IfOk result (λ list. list.items ≡ entries.now) }
{
    let mut list = Vec::with_capacity(alloc, entries.len())?;
    for entry in entries {
        append(
            &mut list,
            Entry {
                name: entry.name.copy()?,
                number: entry.number,
            },
        )?;
    }
    Ok(list)
}

fn choices(basis: &Basis) -> Option<&[Entry]>
    ensures { entries_seen result ≡ restrictions.choices (spec.base_seen basis.now) }
{
    if basis.itself {
        None
    } else {
        Some(basis.entries.as_slice())
    }
}

fn listed_by(
    best: Option<Found>,
    alloc: Global,
    n: Numbering,
    basis: &Basis,
    number: u32,
    stmt: &Stmt,
) -> Result<(Option<Found>, Vec<Entry>), NoMemory>
    ensures fault { IfOk result (λ p. p.0 ≡ least best (restrictions.faults_by (spec.base_seen basis.now) number stmt.now n)) }
    ensures entries { IfOk result (λ p. p.1.items ≡ types_spec.entries_with (spec.base_seen basis.now) stmt.now n) }
{
    if takes_all(n, basis, stmt) {
        return Ok((best, copies(alloc, basis.entries.as_slice())?));
    }
    let naming = Naming {
        alloc,
        numbering: n,
        number,
    };
    naming.with_entries(best, choices(basis), stmt)
}

/// The names of a type that a statement restricts, and the first of this fault and theirs.
pub(crate) fn listed(
    best: Option<Found>,
    alloc: Global,
    basis: &Basis,
    number: u32,
    stmt: &Stmt,
) -> Result<(Option<Found>, Vec<Entry>), NoMemory>
    ensures fault { IfOk result (λ p. p.0 ≡ least best (restrictions.list_faults (spec.base_seen basis.now) number stmt.now)) }
    ensures entries { IfOk result (λ p. p.1.items ≡ types_spec.entries_in (spec.base_seen basis.now) stmt.now (out-YangType basis.now.ty)) }
{
    match numbering_of(&basis.ty) {
        None => Ok((best, Vec::new(alloc))),
        Some(n) => listed_by(best, alloc, n, basis, number, stmt),
    }
}

fn enum_type(
    alloc: Global,
    names: &[Str],
    places: &[u32],
    itself: bool,
    entries: &[Entry],
) -> Result<YangType, NoMemory>
    requires { itself ≡ true → length entries.now ≤ 4294967296 }
    ensures { IfOk result (λ it. out-YangType it
        ≡ YangType-F.Enum (types_spec.names_in entries.now) (if itself then map (λ (e : ℕ × Named). e.0) (enumerate_from 0 entries.now)
        else types_spec.places_of names.now places.now (types_spec.names_in entries.now))) }
{
    let all = names_in(alloc, entries)?;
    if itself {
        return Ok(YangType::Enum {
            names: all,
            places: own_places(alloc, entries)?,
        });
    }
    Ok(YangType::Enum {
        names: all,
        places: chosen_places(alloc, names, places, entries)?,
    })
}

/// A statement of a module that restricts a type, and the types of the statements that it depends on.
#[derive(Clone, Copy)]
pub(crate) struct Restriction<'x, 'a> {
    pub(crate) alloc: Global,
    pub(crate) typedefs: &'x Typedefs<'a>,
    pub(crate) number: u32,
    pub(crate) stmt: &'x Stmt,
    pub(crate) types: &'x [YangType],
}

impl<'x, 'a> Restriction<'x, 'a> {
    /// The type of the statement, if it lists names, bases or members.
    pub(crate) fn named_type(&self, basis: &Basis, entries: &[Entry]) -> Result<YangType, NoMemory>
        requires named { types_spec.IsPlain (out-YangType basis.now.ty) → ⊥ }
        requires positions { HasPositions (out-YangType basis.now.ty) entries.now }
        requires places { HasPlaces basis.now.itself (out-YangType basis.now.ty) entries.now }
        ensures value { IfOk result (λ it. it
            ≡ roll-YangType (types_spec.restricted self.now.typedefs.now self.now.number (spec.base_seen basis.now) self.now.stmt.now self.now.types.now entries.now (out-YangType basis.now.ty))) }
        ensures numbers { IfOk result (λ it. HasNumbers (out-YangType it)) }
    {
        let alloc = self.alloc;
        match &basis.ty {
            YangType::Enum { names, places } => {
                if takes_all(Numbering::Enums, basis, self.stmt) {
                    return basis.ty.copy(alloc);
                }
                enum_type(alloc, names.items(), places.items(), basis.itself, entries)
            }
            YangType::Bits { .. } => {
                if takes_all(Numbering::Bits, basis, self.stmt) {
                    return basis.ty.copy(alloc);
                }
                Ok(YangType::Bits {
                    names: names_in(alloc, entries)?,
                    positions: positions(alloc, entries)?,
                })
            }
            YangType::Ident { .. } => {
                if !basis.itself {
                    return basis.ty.copy(alloc);
                }
                Ok(YangType::Ident {
                    bases: bases_of(alloc, self.typedefs, self.number, self.stmt)?,
                })
            }
            YangType::Union { .. } => {
                if !basis.itself {
                    return basis.ty.copy(alloc);
                }
                Ok(YangType::Union {
                    members: flat(alloc, self.types)?,
                })
            }
            _ => basis.ty.copy(alloc),
        }
    }
}

pub(crate) fn is_plain(ty: &YangType) -> bool
    ensures yes { result ≡ true → types_spec.IsPlain (out-YangType ty.now) }
    ensures no { result ≡ false → types_spec.IsPlain (out-YangType ty.now) → ⊥ }
{
    !matches!(
        ty,
        YangType::Enum { .. }
            | YangType::Bits { .. }
            | YangType::Ident { .. }
            | YangType::Union { .. }
    )
}
