//! Values read from JSON values and from key texts.
ghost use Rattle.std.specs.Prelude.{drop, ◌≡◌, ◌<◌, ◌+◌, [], ◌∷◌, Some, IfOk, IsTrue, length, map};
ghost use Rattle.std.specs.List.{slice_get, list_all};
ghost use Rattle.sal_types.specs.Reading.{GivesUnless};
ghost use Rattle.sal_restrict.specs.declared.yang_type.YangType.{YangType as TypeOf, out-YangType};
ghost use Rattle.sal_schema.specs.Valid.{is_good_layer, is_good_type};
ghost use Rattle.serde_json.specs.View.{view};
ghost use Rattle.sal_json.specs.Patterns.{patterns_of, plain_searched, type_searched};
ghost use Rattle.sal_json.specs.Read as spec;

use crate::fault::ScalarFault;
use crate::patterns::{Patterns, Wholes};
use crate::plain_type::PlainType;
use sal_restrict::YangType;
use sal_schema::Schema;
use sal_types::{Atom, NoMemory, Value};
use serde_json::Value as Json;
use std::alloc::Global;

impl<'a> PlainType<'a> {
    /// The value of a text for a member of a union, if the text is in the form in which that value is written.
    fn own_text(&self, alloc: Global, text: &str) -> Result<Option<Atom>, NoMemory>
        ensures { IfOk result (λ taken. taken ≡ spec.own_text self.now.schema.now self.now.«module» text.now self.now.ty.now) }
    {
        match self.text_atom(alloc, text) {
            Ok(atom) => {
                if self.is_own_text(alloc, text, &atom)? {
                    Ok(Some(atom))
                } else {
                    Ok(None)
                }
            }
            Err(ScalarFault::NoMemory) => Err(NoMemory),
            Err(_) => Ok(None),
        }
    }

    /// The value of a JSON value for a member of a union, if it is in the form in which that value is written.
    fn own_json(&self, alloc: Global, json: &Json) -> Result<Option<Atom>, NoMemory>
        ensures { IfOk result (λ taken. taken ≡ spec.own_json self.now.schema.now self.now.«module» (view json.now) self.now.ty.now) }
    {
        match self.json_atom(alloc, json) {
            Ok(atom) => {
                if self.is_own_json(alloc, json, &atom)? {
                    Ok(Some(atom))
                } else {
                    Ok(None)
                }
            }
            Err(ScalarFault::NoMemory) => Err(NoMemory),
            Err(_) => Ok(None),
        }
    }
}

/// The value of the member of a union at this index.
fn member_value(place: usize, atom: Atom) -> Value
    ensures { result ≡ spec.value_of place atom }
{
    Value {
        member: place as u64,
        atom,
    }
}

/// A value of a type that is no union.
fn plain(read: Result<Atom, ScalarFault>) -> Result<Value, ScalarFault>
    ensures { result ≡ spec.plain read }
{
    match read {
        Ok(atom) => Ok(Value { member: 0, atom }),
        Err(fault) => Err(fault),
    }
}

/// The members of a union, with their schema, the module of the leaf and their compiled patterns.
#[derive(Drop)]
struct Members<'a> {
    schema: &'a Schema,
    module: u32,
    types: &'a [YangType],
    wholes: &'a [Wholes],
    ghost known: { «module» < length schema.now.modules },
    ghost good: { IsTrue (list_all (λ member. is_good_layer schema.now (out-YangType member)) types.now) },
    ghost compiled: { wholes.now ≡ map plain_searched types.now },
}

impl<'a> Members<'a> {
    /// The member at this index.
    fn at(&self, i: usize) -> PlainType<'a>
        requires { i < length self.now.types.now }
        ensures schema { result.schema.now ≡ self.now.schema.now }
        ensures home { result.«module» ≡ self.now.«module» }
        ensures ty { drop i self.now.types.now ≡ result.ty.now ∷ drop (i + 1) self.now.types.now }
    {
        PlainType {
            schema: self.schema,
            module: self.module,
            ty: &self.types[i],
            wholes: self.wholes[i].items(),
        }
    }

    /// The value of a text in the first member in whose form it is.
    fn text_value(&self, alloc: Global, text: &str) -> Result<Value, ScalarFault>
        ensures { GivesUnless ScalarFault.NoMemory (λ value. value) result (spec.first_own (spec.own_text self.now.schema.now self.now.«module» text.now) 0 self.now.types.now) }
    {
        for i in 0..self.types.len() {
            match self.at(i).own_text(alloc, text)? {
                Some(atom) => return Ok(member_value(i, atom)),
                None => {}
            }
        }
        Err(ScalarFault::WrongKind)
    }

    /// The value of a JSON value in the first member in whose form it is.
    fn json_value(&self, alloc: Global, json: &Json) -> Result<Value, ScalarFault>
        ensures { GivesUnless ScalarFault.NoMemory (λ value. value) result (spec.first_own (spec.own_json self.now.schema.now self.now.«module» (view json.now)) 0 self.now.types.now) }
    {
        for i in 0..self.types.len() {
            match self.at(i).own_json(alloc, json)? {
                Some(atom) => return Ok(member_value(i, atom)),
                None => {}
            }
        }
        Err(ScalarFault::WrongKind)
    }
}

/// A type with its schema, the module of its leaf and its compiled patterns.
#[derive(Drop)]
struct AnyType<'a> {
    schema: &'a Schema,
    module: u32,
    ty: &'a YangType,
    wholes: &'a [Wholes],
    ghost known: { «module» < length schema.now.modules },
    ghost good: { IsTrue (is_good_type schema.now ty.now) },
    ghost compiled: { wholes.now ≡ type_searched ty.now },
}

impl<'a> AnyType<'a> {
    /// The type as a union of these members.
    fn union_of(&self, members: &'a [YangType]) -> Members<'a>
        requires good { IsTrue (list_all (λ member. is_good_layer self.now.schema.now (out-YangType member)) members.now) }
        requires compiled { self.now.wholes.now ≡ map plain_searched members.now }
        ensures schema { result.schema.now ≡ self.now.schema.now }
        ensures home { result.«module» ≡ self.now.«module» }
        ensures types { result.types.now ≡ members.now }
    {
        Members {
            schema: self.schema,
            module: self.module,
            types: members,
            wholes: self.wholes,
        }
    }

    /// The type as one that is no union.
    fn plain_type(&self) -> PlainType<'a>
        requires good { IsTrue (is_good_layer self.now.schema.now (out-YangType self.now.ty.now)) }
        requires compiled { self.now.wholes.now ≡ plain_searched self.now.ty.now ∷ [] }
        ensures schema { result.schema.now ≡ self.now.schema.now }
        ensures home { result.«module» ≡ self.now.«module» }
        ensures ty { result.ty.now ≡ self.now.ty.now }
    {
        PlainType {
            schema: self.schema,
            module: self.module,
            ty: self.ty,
            wholes: self.wholes[0].items(),
        }
    }

    fn text_value(&self, alloc: Global, text: &str) -> Result<Value, ScalarFault>
        ensures { GivesUnless ScalarFault.NoMemory (λ value. value) result (spec.type_text_scalar self.now.schema.now self.now.ty.now self.now.«module» text.now) }
    {
        let _ = &self.wholes;
        match self.ty {
            YangType::Union { members } => self.union_of(members.items()).text_value(alloc, text),
            _ => plain(self.plain_type().text_atom(alloc, text)),
        }
    }

    fn json_value(&self, alloc: Global, json: &Json) -> Result<Value, ScalarFault>
        ensures { GivesUnless ScalarFault.NoMemory (λ value. value) result (spec.type_scalar self.now.schema.now self.now.ty.now self.now.«module» (view json.now)) }
    {
        let _ = &self.wholes;
        match self.ty {
            YangType::Union { members } => self.union_of(members.items()).json_value(alloc, json),
            _ => plain(self.plain_type().json_atom(alloc, json)),
        }
    }
}

/// The type of this number, which is one of a schema.
fn type_of(schema: &Schema, ty: u32) -> &YangType
    requires { ty < length schema.now.types }
    ensures here { slice_get schema.now.types ty ≡ Some result.now }
    ensures good { IsTrue (is_good_type schema.now result.now) }
{
    let _nodes = schema.len();
    schema.type_at(ty)
}

/// The compiled patterns of the type of this number.
fn wholes_of<'p>(schema: &Schema, patterns: &'p Patterns, ty: u32) -> &'p [Wholes]
    requires there { ty < length schema.now.types }
    requires compiled { patterns.now ≡ patterns_of schema.now }
    ensures { (here : TypeOf) → slice_get schema.now.types ty ≡ Some here → result.now ≡ type_searched here }
{
    patterns.of_type(ty)
}

/// The value that a JSON value denotes in the type, where `module` is the one of its leaf.
///
/// It takes time and memory linear in the text, and for a string those of `regex` for each pattern; for a union those of each
/// member up to the one that takes it.
pub fn read_scalar(
    alloc: Global,
    schema: &Schema,
    patterns: &Patterns,
    ty: u32,
    module: u32,
    json: &Json,
) -> Result<Value, ScalarFault>
    requires type_known { ty < length schema.now.types }
    requires module_known { «module» < length schema.now.modules }
    requires compiled { patterns.now ≡ patterns_of schema.now }
    ensures { GivesUnless ScalarFault.NoMemory (λ value. value) result (spec.scalar_of schema.now ty «module» (view json.now)) }
{
    let any = AnyType {
        schema,
        module,
        ty: type_of(schema, ty),
        wholes: wholes_of(schema, patterns, ty),
    };
    any.json_value(alloc, json)
}

/// The value that a key text denotes in the type, where `module` is the one of its leaf.
///
/// The integers of up to 32 bits have one spelling for each number here. It costs what `read_scalar` does.
pub fn read_text(
    alloc: Global,
    schema: &Schema,
    patterns: &Patterns,
    ty: u32,
    module: u32,
    text: &str,
) -> Result<Value, ScalarFault>
    requires type_known { ty < length schema.now.types }
    requires module_known { «module» < length schema.now.modules }
    requires compiled { patterns.now ≡ patterns_of schema.now }
    ensures { GivesUnless ScalarFault.NoMemory (λ value. value) result (spec.text_scalar_of schema.now ty «module» text.now) }
{
    let any = AnyType {
        schema,
        module,
        ty: type_of(schema, ty),
        wholes: wholes_of(schema, patterns, ty),
    };
    any.text_value(alloc, text)
}
