//! Types with names: enumerations, bits, identityrefs and unions (RFC 7950 sections 9.6, 9.7, 9.10 and 9.12).
ghost use Rattle.std.specs.Prelude.{◌≡◌, ◌++◌, ◌∷◌, [], ℕ, ◌<◌, ◌≤◌, All, List, IfOk, map, filter, length, unwrap_or, unsigned_abs, slice_index};
ghost use Rattle.std.specs.List.{flat_map, enumerate_from, position_from};
ghost use Rattle.std.specs.Option.{option_to_list};
ghost use Rattle.sal_restrict.specs.declared.yang_type.YangType.{YangType as Meant};
ghost use Rattle.sal_restrict.specs.declared.yang_type.YangType.TheViews.{out-YangType};
ghost use Rattle.sal_module.specs.declared.keyword.Keyword.TheVariants as word;
ghost use Rattle.sal_module.specs.Keywords.{same};
ghost use Rattle.sal_module.specs.Statements.{all_named, argument_of, is_named};
ghost use Rattle.sal_typedefs.specs.Blocks.{get_by_name};
ghost use Rattle.sal_typedefs.specs.declared.entry.Entry.{Entry as Named};
ghost use Rattle.sal_typedefs.specs.Scopes.{identity_of};
ghost use Rattle.sal_typedefs.specs.Restrictions.{IsPosition};
ghost use Rattle.sal_typedefs.specs.Types as spec;

use crate::block::{Numbers, define};
use crate::entry::Entry;
use crate::typedefs::Typedefs;
use sal_module::{Keyword, argument_of, is_named};
use sal_restrict::YangType;
use sal_stmt::Stmt;
use sal_types::{Duplicate, NoMemory, Seq, Str, append};
use std::alloc::Global;
use std::collections::BTreeMap;

/// The names.
pub(crate) fn names_in(alloc: Global, entries: &[Entry]) -> Result<Seq<Str>, NoMemory>
    ensures { IfOk result (λ names. names ≡ spec.names_in entries.now) }
{
    let mut names = Vec::with_capacity(alloc, entries.len())?;
    for entry in entries {
        append(&mut names, entry.name.copy()?)?;
    }
    Ok(Seq::from_items(names))
}

fn place(number: usize) -> u32
    requires { number < 4294967296 }
    ensures { result ≡ number }
{
    number as u32
}

/// The numbers of the names, in their order.
pub(crate) fn own_places(alloc: Global, entries: &[Entry]) -> Result<Seq<u32>, NoMemory>
    requires { length entries.now ≤ 4294967296 }
    ensures { IfOk result (λ places. places ≡ map (λ (e : ℕ × Named). e.0) (enumerate_from 0 entries.now)) }
{
    let mut places = Vec::with_capacity(alloc, entries.len())?;
    for (i, entry) in entries.iter().enumerate() {
        append(&mut places, place(i))?;
    }
    Ok(Seq::from_items(places))
}

/// The index of the first of each name.
fn first_places<'s>(alloc: Global, names: &'s [Str]) -> Result<Numbers<'s>, NoMemory>
    ensures { IfOk result (λ map. (q : List ℕ) → get_by_name map q ≡ position_from (same q) 0 names.now) }
{
    let mut map = BTreeMap::new(alloc);
    for (i, name) in names.iter().enumerate() {
        define(&mut map, name.as_str(), i)?;
    }
    Ok(map)
}

fn place_at(places: &[u32], i: usize) -> u32
    ensures { result ≡ slice_index places.now i }
{
    match places.get(i) {
        None => 0,
        Some(place) => *place,
    }
}

/// The original index of a name, whose index is in the map.
fn place_of(firsts: &Numbers, places: &[u32], name: &str) -> u32
    ensures { result ≡ slice_index places.now (unwrap_or (get_by_name firsts.now name.now) 0) }
{
    match firsts.get(name) {
        None => place_at(places, 0),
        Some(i) => place_at(places, *i),
    }
}

/// The indexes of these names in the original enumeration.
pub(crate) fn chosen_places(
    alloc: Global,
    names: &[Str],
    places: &[u32],
    entries: &[Entry],
) -> Result<Seq<u32>, NoMemory>
    ensures { IfOk result (λ it. it ≡ spec.places_of names.now places.now (spec.names_in entries.now)) }
{
    let firsts = first_places(alloc, names)?;
    places_by(alloc, &firsts, places, entries)
}

/// The same by the index of each name.
fn places_by(
    alloc: Global,
    firsts: &Numbers,
    places: &[u32],
    entries: &[Entry],
) -> Result<Seq<u32>, NoMemory>
    ensures { IfOk result (λ it. it ≡ map (λ (e : Named). slice_index places.now (unwrap_or (get_by_name firsts.now e.name) 0)) entries.now) }
{
    let mut list = Vec::with_capacity(alloc, entries.len())?;
    for entry in entries {
        append(&mut list, place_of(firsts, places, entry.name.as_str()))?;
    }
    Ok(Seq::from_items(list))
}

fn position_of(entry: &Entry) -> u8
    requires { IsPosition entry.now }
    ensures { result ≡ unsigned_abs entry.now.number }
{
    match u8::try_from(entry.number) {
        Ok(n) => n,
        Err(_) => unreachable!(),
    }
}

/// The positions of bits.
pub(crate) fn positions(alloc: Global, entries: &[Entry]) -> Result<Seq<u8>, NoMemory>
    requires { All IsPosition entries.now }
    ensures { IfOk result (λ it. it ≡ map (λ (e : Named). unsigned_abs e.number) entries.now) }
{
    let mut list = Vec::with_capacity(alloc, entries.len())?;
    for entry in entries {
        append(&mut list, position_of(entry))?;
    }
    Ok(Seq::from_items(list))
}

/// The identity that a statement names, if it is a base.
fn push_base(
    bases: &mut Vec<u32>,
    typedefs: &Typedefs,
    number: u32,
    sub: &Stmt,
) -> Result<(), NoMemory>
    ensures { IfOk result (λ _. bases.new.items
        ≡ bases.old.items ++ flat_map (λ sub. option_to_list (identity_of typedefs.now number (argument_of sub))) (filter (is_named word.Base) (sub.now ∷ []))) }
{
    if !is_named(Keyword::Base, sub) {
        return Ok(());
    }
    match typedefs.identity_of(number, argument_of(sub)) {
        None => Ok(()),
        Some(k) => {
            append(bases, place(k))?;
            Ok(())
        }
    }
}

/// The identities that a statement names as bases.
pub(crate) fn bases_of(
    alloc: Global,
    typedefs: &Typedefs,
    number: u32,
    stmt: &Stmt,
) -> Result<Seq<u32>, NoMemory>
    ensures { IfOk result (λ it. it
        ≡ flat_map (λ sub. option_to_list (identity_of typedefs.now number (argument_of sub))) (all_named word.Base stmt.now)) }
{
    let mut bases = Vec::new(alloc);
    for sub in stmt.subs.items() {
        push_base(&mut bases, typedefs, number, sub)?;
    }
    Ok(Seq::from_items(bases))
}

/// Appends a type: of a union its members.
fn push_members(flat: &mut Vec<YangType>, ty: &YangType, alloc: Global) -> Result<(), NoMemory>
    ensures { IfOk result (λ _. flat.new.items ≡ flat.old.items ++ spec.members_of ty.now (out-YangType ty.now)) }
{
    if let YangType::Union { members } = ty {
        for member in members.items() {
            append(flat, member.copy(alloc)?)?;
        }
        return Ok(());
    }
    append(flat, ty.copy(alloc)?)?;
    Ok(())
}

/// The members of a union, with the members of unions in place of these.
pub(crate) fn flat(alloc: Global, types: &[YangType]) -> Result<Seq<YangType>, NoMemory>
    ensures { IfOk result (λ it. it ≡ flat_map (λ (t : Meant). spec.members_of t (out-YangType t)) types.now) }
{
    let mut list = Vec::new(alloc);
    for ty in types {
        push_members(&mut list, ty, alloc)?;
    }
    Ok(Seq::from_items(list))
}
