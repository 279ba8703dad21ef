//! Atoms of types that are not unions, from JSON values.
ghost use Rattle.std.specs.Prelude.{◌≡◌, IfOk};
ghost use Rattle.sal_types.specs.Reading.{GivesUnless};
ghost use Rattle.sal_restrict.specs.declared.yang_type.YangType.{out-YangType};
ghost use Rattle.serde_json.specs.View.{view, items_view};
ghost use Rattle.sal_json.specs.Numerals.{whole_atom};
ghost use Rattle.sal_json.specs.Read as spec;

use crate::fault::ScalarFault;
use crate::numerals::whole_atom;
use crate::plain_type::PlainType;
use sal_restrict::{Ranges, YangType};
use sal_types::{Atom, NoMemory};
use serde_json::Value as Json;
use std::alloc::Global;

/// The whole number of a JSON value.
fn whole_of(json: &Json) -> Option<i128>
    ensures { result ≡ spec.whole_of (view json.now) }
{
    match json.as_number() {
        Some(number) => number.as_i128(),
        None => None,
    }
}

fn number_atom(has_sign: bool, range: &Ranges, json: &Json) -> Result<Atom, ScalarFault>
    ensures { result ≡ spec.of_number (whole_atom has_sign range.now) (view json.now) }
{
    match whole_of(json) {
        Some(number) => whole_atom(has_sign, range, number),
        None => Err(ScalarFault::WrongKind),
    }
}

fn boolean_atom(json: &Json) -> Result<Atom, ScalarFault>
    ensures { result ≡ spec.of_boolean (view json.now) }
{
    match json.as_bool() {
        Some(is_true) => Ok(Atom::Bool(is_true)),
        None => Err(ScalarFault::WrongKind),
    }
}

fn is_one_null(list: &[Json]) -> bool
    ensures { result ≡ spec.is_one_null (items_view list.now) }
{
    match list {
        [only] => only.is_null(),
        _ => false,
    }
}

/// Whether it is `[null]`.
fn is_nulls(json: &Json) -> bool
    ensures { result ≡ spec.is_nulls (view json.now) }
{
    match json.as_array() {
        Some(list) => is_one_null(list.as_slice()),
        None => false,
    }
}

fn nulls_atom(json: &Json) -> Result<Atom, ScalarFault>
    ensures { result ≡ spec.of_nulls (view json.now) }
{
    if is_nulls(json) {
        Ok(Atom::Empty)
    } else {
        Err(ScalarFault::WrongKind)
    }
}

impl<'a> PlainType<'a> {
    /// The atom that a JSON text denotes.
    fn string_atom(&self, alloc: Global, json: &Json) -> Result<Atom, ScalarFault>
        ensures { GivesUnless ScalarFault.NoMemory (λ atom. atom) result (spec.of_string (spec.text_atom self.now.schema.now self.now.«module» (out-YangType self.now.ty.now)) (view json.now)) }
    {
        match json.as_str() {
            Some(text) => self.text_atom(alloc, text),
            None => Err(ScalarFault::WrongKind),
        }
    }

    /// The atom that a JSON value denotes.
    pub(crate) fn json_atom(&self, alloc: Global, json: &Json) -> Result<Atom, ScalarFault>
        ensures { GivesUnless ScalarFault.NoMemory (λ atom. atom) result (spec.json_atom self.now.schema.now self.now.«module» (out-YangType self.now.ty.now) (view json.now)) }
    {
        match self.ty {
            YangType::Int {
                bits,
                signed,
                range,
            } if *bits != 64 => number_atom(*signed, range, json),
            YangType::Bool => boolean_atom(json),
            YangType::Empty => nulls_atom(json),
            _ => self.string_atom(alloc, json),
        }
    }

    /// Whether the JSON value is the one that is written for the atom.
    pub(crate) fn is_own_json(
        &self,
        alloc: Global,
        json: &Json,
        atom: &Atom,
    ) -> Result<bool, NoMemory>
        ensures { IfOk result (λ own. own ≡ spec.is_own_json self.now.schema.now self.now.«module» (out-YangType self.now.ty.now) (view json.now) atom.now) }
    {
        match json.as_str() {
            Some(text) => self.is_own_text(alloc, text, atom),
            None => Ok(true),
        }
    }
}
