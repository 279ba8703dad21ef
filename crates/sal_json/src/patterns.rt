//! The patterns of a schema, compiled.
ghost use Rattle.std.specs.Prelude.{◌≡◌, ◌++◌, ◌∷◌, [], ◌<◌, IfOk, OnOk, IfErr, IfSome, MatchOption, Some, true, false, not, map, length};
ghost use Rattle.std.specs.List.{slice_get, list_all, list_any};
ghost use Rattle.sal_schema.specs.Versions.{BeginsWith, Extends};
ghost use Rattle.sal_json.specs.Patterns as spec;

use crate::fault::PatternsFault;
use crate::whole::Whole;
use sal_restrict::{Pattern, YangType};
use sal_schema::Schema;
use sal_types::{NoMemory, Seq};
use std::alloc::Global;
use std::marker::Model;
use std::sync::Arc;

/// The patterns that a type without members has, or a member of a union.
pub(crate) type Wholes = Seq<Whole>;

fn of_list(alloc: Global, patterns: &[Pattern]) -> Result<Option<Wholes>, NoMemory>
    ensures compiled { IfOk result (λ found. MatchOption found (spec.have_malformed patterns.now ≡ true) (λ list. list ≡ map spec.searched patterns.now)) }
    ensures formed { IfOk result (λ found. IfSome found (λ _. spec.have_malformed patterns.now ≡ false)) }
{
    let mut list = Vec::with_capacity(alloc, patterns.len())?;
    if add_patterns(alloc, patterns, &mut list)? {
        Ok(Some(Seq::from_items(list)))
    } else {
        Ok(None)
    }
}

/// Appends the patterns up to the first malformed one. It returns whether there is none.
fn add_patterns(
    alloc: Global,
    patterns: &[Pattern],
    list: &mut Vec<Whole>,
) -> Result<bool, NoMemory>
    ensures formed { IfOk result (λ formed. spec.have_malformed patterns.now ≡ not formed) }
    ensures compiled { IfOk result (λ formed. formed ≡ true → list.new.items ≡ list.old.items ++ map spec.searched patterns.now) }
{
    for pattern in patterns {
        if !add_pattern(alloc, pattern, list)? {
            return Ok(false);
        }
    }
    Ok(true)
}

/// Appends the pattern, unless it is malformed.
fn add_pattern(alloc: Global, pattern: &Pattern, list: &mut Vec<Whole>) -> Result<bool, NoMemory>
    ensures formed { IfOk result (λ formed. spec.is_malformed pattern.now.text ≡ not formed) }
    ensures compiled { IfOk result (λ formed. formed ≡ true → list.new.items ≡ list.old.items ++ spec.searched pattern.now ∷ []) }
{
    match Whole::new(alloc, pattern.text.as_str())? {
        Some(whole) => {
            list.push(whole)?;
            Ok(true)
        }
        None => Ok(false),
    }
}

fn of_plain(alloc: Global, ty: &YangType) -> Result<Option<Wholes>, NoMemory>
    ensures compiled { IfOk result (λ found. MatchOption found (spec.have_malformed (spec.plain_patterns ty.now) ≡ true) (λ list. list ≡ spec.plain_searched ty.now)) }
    ensures formed { IfOk result (λ found. IfSome found (λ _. spec.have_malformed (spec.plain_patterns ty.now) ≡ false)) }
{
    match ty {
        YangType::Text { patterns, .. } => of_list(alloc, patterns.items()),
        _ => Ok(Some(Seq::new(alloc))),
    }
}

fn of_members(alloc: Global, members: &[YangType]) -> Result<Option<Seq<Wholes>>, NoMemory>
    ensures compiled { IfOk result (λ found. MatchOption found (list_any spec.have_malformed (map spec.plain_patterns members.now) ≡ true) (λ list. list ≡ map spec.plain_searched members.now)) }
    ensures formed { IfOk result (λ found. IfSome found (λ _. list_any spec.have_malformed (map spec.plain_patterns members.now) ≡ false)) }
{
    let mut list = Vec::with_capacity(alloc, members.len())?;
    if add_members(alloc, members, &mut list)? {
        Ok(Some(Seq::from_items(list)))
    } else {
        Ok(None)
    }
}

/// Appends the patterns of the members up to the first with a malformed one. It returns whether there is none.
fn add_members(
    alloc: Global,
    members: &[YangType],
    list: &mut Vec<Wholes>,
) -> Result<bool, NoMemory>
    ensures formed { IfOk result (λ formed. list_any spec.have_malformed (map spec.plain_patterns members.now) ≡ not formed) }
    ensures compiled { IfOk result (λ formed. formed ≡ true → list.new.items ≡ list.old.items ++ map spec.plain_searched members.now) }
{
    for member in members {
        if !add_member(alloc, member, list)? {
            return Ok(false);
        }
    }
    Ok(true)
}

/// Appends the patterns of the member, unless one is malformed.
fn add_member(alloc: Global, member: &YangType, list: &mut Vec<Wholes>) -> Result<bool, NoMemory>
    ensures formed { IfOk result (λ formed. spec.have_malformed (spec.plain_patterns member.now) ≡ not formed) }
    ensures compiled { IfOk result (λ formed. formed ≡ true → list.new.items ≡ list.old.items ++ spec.plain_searched member.now ∷ []) }
{
    match of_plain(alloc, member)? {
        Some(wholes) => {
            list.push(wholes)?;
            Ok(true)
        }
        None => Ok(false),
    }
}

fn of_one(alloc: Global, ty: &YangType) -> Result<Option<Seq<Wholes>>, NoMemory>
    ensures compiled { IfOk result (λ found. MatchOption found (spec.have_malformed (spec.plain_patterns ty.now) ≡ true) (λ list. list ≡ spec.only (spec.plain_searched ty.now))) }
    ensures formed { IfOk result (λ found. IfSome found (λ _. spec.have_malformed (spec.plain_patterns ty.now) ≡ false)) }
{
    match of_plain(alloc, ty)? {
        Some(wholes) => {
            let list = only(alloc, wholes)?;
            Ok(Some(list))
        }
        None => Ok(None),
    }
}

fn only(alloc: Global, wholes: Wholes) -> Result<Seq<Wholes>, NoMemory>
    ensures { IfOk result (λ list. list ≡ spec.only wholes) }
{
    let mut list = Vec::new(alloc);
    list.push(wholes)?;
    Ok(Seq::from_items(list))
}

fn of_type(alloc: Global, ty: &YangType) -> Result<Option<Seq<Wholes>>, NoMemory>
    ensures compiled { IfOk result (λ found. MatchOption found (spec.has_malformed ty.now ≡ true) (λ list. list ≡ spec.type_searched ty.now)) }
    ensures formed { IfOk result (λ found. IfSome found (λ _. spec.has_malformed ty.now ≡ false)) }
{
    match ty {
        YangType::Union { members } => of_members(alloc, members.items()),
        _ => of_one(alloc, ty),
    }
}

/// Appends the patterns of all types.
fn add_types(
    alloc: Global,
    schema: &Schema,
    types: &mut Vec<Seq<Wholes>>,
) -> Result<(), PatternsFault>
    ensures compiled { OnOk result (types.new.items ≡ types.old.items ++ spec.patterns_of schema.now) }
    ensures formed { OnOk result (list_any spec.has_malformed schema.now.types ≡ false) }
    ensures refused { IfErr result (spec.IsRefusal schema.now) }
{
    for ty in 0..schema.types() {
        if !add_type(alloc, schema.type_at(ty), types)? {
            return Err(PatternsFault::Refused { ty });
        }
    }
    Ok(())
}

/// Appends the patterns of the type, unless one is malformed.
fn add_type(alloc: Global, ty: &YangType, types: &mut Vec<Seq<Wholes>>) -> Result<bool, NoMemory>
    ensures formed { IfOk result (λ formed. spec.has_malformed ty.now ≡ not formed) }
    ensures compiled { IfOk result (λ formed. formed ≡ true → types.new.items ≡ types.old.items ++ spec.type_searched ty.now ∷ []) }
{
    match of_type(alloc, ty)? {
        Some(list) => {
            types.push(list)?;
            Ok(true)
        }
        None => Ok(false),
    }
}

/// The patterns of a schema, compiled: a list for each type, and in it one for each member of a union.
///
/// A contract sees the texts of the patterns that are searched for. Older versions of the schema share them.
pub struct Patterns {
    types: Arc<Vec<Seq<Wholes>>>,
    /// The number of these types.
    count: u32,
}

impl Drop for Patterns {
    fn drop(self) {
        let Patterns { types: _, count: _ } = self;
    }
}

impl Model for Patterns {
    ghost use Rattle.std.specs.Prelude.{List, ℕ, take};

    ghost Value = { List (List (List (List ℕ))) };

    ghost view = { λ a. take a.count a.types.value.items };
}

impl Patterns {
    /// The patterns of the schema.
    ///
    /// `Refused` names the first type that has a malformed pattern. A pattern that is too large for `regex` counts as memory
    /// that ran out. It takes the time and memory that `regex` takes for each pattern.
    pub fn of(alloc: Global, schema: &Schema) -> Result<Patterns, PatternsFault>
        ensures of_schema { IfOk result (λ patterns. patterns ≡ spec.patterns_of schema.now) }
        ensures formed { IfOk result (λ _. list_any spec.has_malformed schema.now.types ≡ false) }
        ensures refused { IfErr result (spec.IsRefusal schema.now) }
    {
        let mut types = Vec::new(alloc);
        add_types(alloc, schema, &mut types)?;
        let types = Arc::new(alloc, types)?;
        Ok(Patterns {
            types,
            count: schema.types(),
        })
    }

    /// The patterns of an older version of their schema, which shares these: nothing is compiled.
    ///
    /// None if `newer`, the schema of these, does not extend `older`. It takes time linear in the older schema, and no memory.
    pub fn of_older(&self, newer: &Schema, older: &Schema) -> Result<Option<Patterns>, NoMemory>
        requires { self.now ≡ spec.patterns_of newer.now }
        ensures { IfOk result (λ found. MatchOption found (Extends newer.now older.now → ⊥) (λ patterns. (patterns ≡ spec.patterns_of older.now) × Extends newer.now older.now)) }
    {
        if newer.extends(older) {
            let patterns = self.front(older)?;
            Ok(Some(patterns))
        } else {
            Ok(None)
        }
    }

    // The patterns of an older version, a prefix of these.
    fn front(&self, older: &Schema) -> Result<Patterns, NoMemory>
        requires { BeginsWith self.now (spec.patterns_of older.now) }
        ensures { IfOk result (λ patterns. patterns ≡ spec.patterns_of older.now) }
    {
        let types = Arc::try_clone(&self.types)?;
        Ok(Patterns {
            types,
            count: older.types(),
        })
    }

    /// The patterns of a type, member by member.
    pub(crate) fn of_type(&self, ty: u32) -> &[Wholes]
        requires { ty < length self.now }
        ensures { slice_get self.now ty ≡ Some result.now }
    {
        self.types[ty as usize].items()
    }
}

/// Whether the text matches the pattern, or does not match an inverted one.
fn passes(alloc: Global, pattern: &Pattern, whole: &Whole, text: &str) -> Result<bool, NoMemory>
    requires { whole.now ≡ spec.searched pattern.now }
    ensures { IfOk result (λ passed. passed ≡ spec.passes text.now pattern.now) }
{
    let is_found = whole.is_found(alloc, text)?;
    Ok(is_found != pattern.inverted)
}

/// Whether the text passes all patterns.
pub(crate) fn all_pass(
    alloc: Global,
    patterns: &[Pattern],
    wholes: &[Whole],
    text: &str,
) -> Result<bool, NoMemory>
    requires { wholes.now ≡ map spec.searched patterns.now }
    ensures { IfOk result (λ passed. passed ≡ list_all (spec.passes text.now) patterns.now) }
{
    for i in 0..patterns.len() {
        if !passes(alloc, &patterns[i], &wholes[i], text)? {
            return Ok(false);
        }
    }
    Ok(true)
}
