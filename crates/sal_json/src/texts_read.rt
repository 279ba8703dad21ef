//! Atoms of types that are not unions, from texts.
ghost use Rattle.std.specs.Prelude.{◌≡◌, IfOk, map, option_map};
ghost use Rattle.sal_types.specs.Reading.{GivesUnless};
ghost use Rattle.sal_restrict.specs.declared.yang_type.YangType.{out-YangType};
ghost use Rattle.sal_json.specs.Patterns.{searched};
ghost use Rattle.sal_json.specs.Read as spec;

use crate::fault::ScalarFault;
use crate::named::{bits_atom, enum_atom, identity_atom};
use crate::numerals::{dec_atom, int_atom};
use crate::patterns::all_pass;
use crate::plain_type::PlainType;
use crate::whole::Whole;
use crate::written::atom_text;
use base64::DecodeAllocError;
use base64::engine::general_purpose::STANDARD;
use sal_restrict::{Pattern, Ranges, YangType};
use sal_types::{Atom, NoMemory, Seq, Str, characters};
use std::alloc::Global;

/// A string: its length in characters, then its patterns.
fn string_atom(
    alloc: Global,
    lengths: &Ranges,
    patterns: &[Pattern],
    wholes: &[Whole],
    text: &str,
) -> Result<Atom, ScalarFault>
    requires { wholes.now ≡ map searched patterns.now }
    ensures { GivesUnless ScalarFault.NoMemory (λ atom. atom) result (spec.string_atom lengths.now patterns.now text.now) }
{
    if !lengths.holds(characters(text) as i128) {
        return Err(ScalarFault::BadLength);
    }
    if !all_pass(alloc, patterns, wholes, text)? {
        return Err(ScalarFault::NoMatch);
    }
    let text = Str::new(alloc, text)?;
    Ok(Atom::Text(text))
}

fn bool_atom(text: &str) -> Result<Atom, ScalarFault>
    ensures { result ≡ spec.bool_atom text.now }
{
    if text == "true" {
        return Ok(Atom::Bool(true));
    }
    if text == "false" {
        Ok(Atom::Bool(false))
    } else {
        Err(ScalarFault::WrongKind)
    }
}

/// The bytes of a padded base64 text, or none if the text is not in that form.
fn bytes_of(alloc: Global, text: &str) -> Result<Option<Vec<u8>>, NoMemory>
    ensures { IfOk result (λ found. option_map (λ bytes. bytes.items) found ≡ spec.bytes_of text.now) }
{
    match STANDARD.decode(alloc, text.as_bytes()) {
        Ok(bytes) => Ok(Some(bytes)),
        Err(DecodeAllocError::DecodeError(_)) => Ok(None),
        Err(DecodeAllocError::OutOfMemory) => Err(NoMemory),
    }
}

fn bytes_atom(lengths: &Ranges, bytes: Vec<u8>) -> Result<Atom, ScalarFault>
    ensures { result ≡ spec.bytes_atom lengths.now bytes.items }
{
    if lengths.holds(bytes.len() as i128) {
        Ok(Atom::Bin(Seq::from_items(bytes)))
    } else {
        Err(ScalarFault::BadLength)
    }
}

fn binary_atom(alloc: Global, lengths: &Ranges, text: &str) -> Result<Atom, ScalarFault>
    ensures { GivesUnless ScalarFault.NoMemory (λ atom. atom) result (spec.binary_atom lengths.now text.now) }
{
    match bytes_of(alloc, text)? {
        Some(bytes) => bytes_atom(lengths, bytes),
        None => Err(ScalarFault::WrongKind),
    }
}

fn empty_atom(text: &str) -> Result<Atom, ScalarFault>
    ensures { result ≡ spec.empty_atom text.now }
{
    if text.is_empty() {
        Ok(Atom::Empty)
    } else {
        Err(ScalarFault::WrongKind)
    }
}

impl<'a> PlainType<'a> {
    /// The atom that a text denotes.
    pub(crate) fn text_atom(&self, alloc: Global, text: &str) -> Result<Atom, ScalarFault>
        ensures { GivesUnless ScalarFault.NoMemory (λ atom. atom) result (spec.text_atom self.now.schema.now self.now.«module» (out-YangType self.now.ty.now) text.now) }
    {
        let (schema, wholes) = (self.schema, self.wholes);
        match self.ty {
            YangType::Int {
                bits,
                signed,
                range,
            } => int_atom(*bits, *signed, range, text.as_bytes()),
            YangType::Dec { digits, range } => dec_atom(*digits, range, text.as_bytes()),
            YangType::Text { length, patterns } => {
                string_atom(alloc, length, patterns.items(), wholes, text)
            }
            YangType::Bool => bool_atom(text),
            YangType::Enum { names, places } => {
                enum_atom(names.items(), places.items(), text.as_bytes())
            }
            YangType::Bits { names, positions } => {
                bits_atom(names.items(), positions.items(), text.as_bytes())
            }
            YangType::Bin { length } => binary_atom(alloc, length, text),
            YangType::Ident { bases } => identity_atom(schema, self.module, bases.items(), text),
            YangType::Empty => empty_atom(text),
            _ => Err(ScalarFault::WrongKind),
        }
    }

    /// Whether the text is the one that is written for the atom.
    pub(crate) fn is_own_text(
        &self,
        alloc: Global,
        text: &str,
        atom: &Atom,
    ) -> Result<bool, NoMemory>
        ensures { IfOk result (λ own. own ≡ spec.is_own_text self.now.schema.now self.now.«module» (out-YangType self.now.ty.now) text.now atom.now) }
    {
        let written = atom_text(alloc, self.schema, self.module, self.ty, atom)?;
        Ok(text == written.as_str())
    }
}
