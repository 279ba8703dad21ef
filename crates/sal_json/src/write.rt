//! Values written as JSON values and as key texts.
ghost use Rattle.std.specs.Prelude.{◌≡◌, ◌<◌, IfOk, length};
ghost use Rattle.serde_json.specs.View.{view};
ghost use Rattle.serde_json.specs.Data.{string, array, item, null, no_items};
ghost use Rattle.sal_restrict.specs.declared.yang_type.YangType.{out-YangType};
ghost use Rattle.sal_json.specs.Written as spec;

use crate::written::{atom_text, type_for};
use sal_restrict::YangType;
use sal_schema::Schema;
use sal_types::{Atom, NoMemory, Str, Value};
use serde_json::Value as Json;
use std::alloc::Global;

fn is_wide(ty: &YangType) -> bool
    ensures { result ≡ spec.is_wide (out-YangType ty.now) }
{
    match ty {
        YangType::Int { bits, .. } => *bits == 64,
        _ => false,
    }
}

fn nulls(alloc: Global) -> Result<Json, NoMemory>
    ensures { IfOk result (λ json. view json ≡ array (item null no_items)) }
{
    let mut list = Vec::new(alloc);
    list.push(Json::Null)?;
    Ok(Json::Array(list))
}

fn text_json(
    alloc: Global,
    schema: &Schema,
    module: u32,
    ty: &YangType,
    atom: &Atom,
) -> Result<Json, NoMemory>
    ensures { IfOk result (λ json. view json ≡ string (spec.atom_text schema.now «module» (out-YangType ty.now) atom.now)) }
{
    let text = atom_text(alloc, schema, module, ty, atom)?;
    Ok(Json::String(text))
}

/// The JSON of an atom of a type that is no union.
fn atom_json(
    alloc: Global,
    schema: &Schema,
    module: u32,
    ty: &YangType,
    atom: &Atom,
) -> Result<Json, NoMemory>
    ensures { IfOk result (λ json. view json ≡ spec.atom_json schema.now «module» (out-YangType ty.now) atom.now) }
{
    match atom {
        Atom::Signed(number) if !is_wide(ty) => Ok(Json::from(*number)),
        Atom::Unsigned(number) if !is_wide(ty) => Ok(Json::from(*number)),
        Atom::Bool(is_true) => Ok(Json::Bool(*is_true)),
        Atom::Empty => nulls(alloc),
        _ => text_json(alloc, schema, module, ty, atom),
    }
}

/// The JSON value of a value of the type, where `module` is the one of its leaf.
///
/// Names are qualified where their module is another one. It takes time and memory linear in the text.
pub fn write_scalar(
    alloc: Global,
    schema: &Schema,
    ty: u32,
    module: u32,
    value: &Value,
) -> Result<Json, NoMemory>
    requires { ty < length schema.now.types }
    ensures { IfOk result (λ json. view json ≡ spec.json_of schema.now ty «module» value.now) }
{
    match type_for(schema.type_at(ty), value.member) {
        Some(ty) => atom_json(alloc, schema, module, ty, &value.atom),
        None => Ok(Json::Null),
    }
}

/// The key text of a value of the type, where `module` is the one of its leaf.
///
/// It takes time and memory linear in the text.
pub fn write_text(
    alloc: Global,
    schema: &Schema,
    ty: u32,
    module: u32,
    value: &Value,
) -> Result<Str, NoMemory>
    requires { ty < length schema.now.types }
    ensures { IfOk result (λ text. text ≡ spec.text_of schema.now ty «module» value.now) }
{
    match type_for(schema.type_at(ty), value.member) {
        Some(ty) => Ok(Str::from_string(atom_text(alloc, schema, module, ty, &value.atom)?)),
        None => Str::new(alloc, ""),
    }
}
