//! The lines of modules. Each function appends to `out`.
ghost use Rattle.std.specs.Prelude.{◌≡◌, ◌++◌, ◌^◌, ◌<◌, ◌≤◌, ℕ, List, All, IfOk, drop, length, map, option_map, string_bytes, take};
ghost use Rattle.std.specs.List.{flat_map, prefix_len};
ghost use Rattle.sal_lint.specs.Lines as spec;
ghost use Rattle.std.specs.Borrow.{Bor};
ghost use Rattle.sal_lint.specs.Notes.{notes_in};
ghost use Rattle.sal_lint.specs.Places.{place_of};

use crate::notes::{Note, Noted, push_notes};
use crate::places::{Place, beginning, spot_at};
use sal_stmt::{Stmt, StmtFault, read_module};
use sal_types::{NoMemory, append};
use std::alloc::Global;

/// The largest number of levels of statements.
const LEVELS: u32 = 64;

/// The text of a module, with the number of its device and its own among the modules of the device.
#[derive(Clone, Copy)]
pub struct ModuleText<'a> {
    pub device: u32,
    pub number: usize,
    pub text: &'a str,
}

fn push(out: &mut Vec<u8>, word: &[u8]) -> Result<(), NoMemory>
    ensures { IfOk result (λ _. out.new.items ≡ out.old.items ++ word.now) }
{
    out.extend_from_slice(word)?;
    Ok(())
}

fn is_plain(byte: u8) -> bool
    ensures { result ≡ spec.is_plain byte }
{
    32 <= byte && byte < 127
}

fn plain_len(text: &[u8]) -> usize
    ensures value { result ≡ prefix_len spec.is_plain text.now }
    ensures within { result ≤ length text.now }
{
    text.iter().take_while(|byte| is_plain(**byte)).count()
}

fn plain_front(text: &[u8]) -> &[u8]
    ensures { result.now ≡ spec.plain_front text.now }
{
    &text[..plain_len(text)]
}

fn rest_at(text: &[u8], at: usize) -> &[u8]
    ensures { result.now ≡ drop at text.now }
{
    &text[at.min(text.len())..]
}

fn front_of(text: &[u8]) -> &[u8]
    ensures { result.now ≡ take 60 text.now }
{
    if text.len() < 60 { text } else { &text[..60] }
}

// The text from an offset to the end of its line, at most 60 bytes.
fn shown(text: &[u8], at: usize) -> &[u8]
    ensures { result.now ≡ spec.shown text.now at }
{
    plain_front(front_of(rest_at(text, at)))
}

fn push_head(
    alloc: Global,
    out: &mut Vec<u8>,
    of: ModuleText<'_>,
    place: Place,
) -> Result<(), NoMemory>
    ensures { IfOk result (λ _. out.new.items ≡ out.old.items ++ spec.head of.entry.device of.entry.number place) }
{
    let text = head(alloc, of.device, of.number, place)?;
    push(out, text.as_bytes())
}

fn head(alloc: Global, device: u32, number: usize, place: Place) -> Result<String, NoMemory>
    ensures { IfOk result (λ text. string_bytes text ≡ spec.head device number place) }
{
    let Place { line, column } = place;
    let text = format!(in alloc; "device {device} module {number} line {line} column {column}: ")?;
    Ok(text)
}

// The word of what is at an offset of the text, and the text there.
fn push_said(out: &mut Vec<u8>, text: &[u8], word: &str, at: usize) -> Result<(), NoMemory>
    ensures { IfOk result (λ _. out.new.items ≡ out.old.items ++ spec.said text.now word.now at) }
{
    push(out, word.as_bytes())?;
    push(out, b": ")?;
    push(out, shown(text, at))?;
    append(out, 10)
}

/// Appends the line of a word at an offset of a module.
pub fn push_fault(
    alloc: Global,
    out: &mut Vec<u8>,
    of: ModuleText<'_>,
    word: &str,
    at: u32,
) -> Result<(), NoMemory>
    ensures { IfOk result (λ _. out.new.items ≡ out.old.items ++ spec.line_at of.entry.device of.entry.number of.entry.text.now word.now at) }
{
    let spot = spot_at(of.text.as_bytes(), beginning(), at as usize);
    push_head(alloc, out, of, spot.place)?;
    push_said(out, of.text.as_bytes(), word, at as usize)
}

fn note_word(note: Note) -> &'static str
    ensures { result.now ≡ spec.note_word note }
{
    match note {
        Note::Refused => "refused",
        Note::Ignored => "ignored",
    }
}

// The line of a note, whose place is this one.
fn push_note(
    alloc: Global,
    out: &mut Vec<u8>,
    of: ModuleText<'_>,
    place: Place,
    noted: Noted,
) -> Result<(), NoMemory>
    requires { place ≡ place_of of.text.now noted.at }
    ensures { IfOk result (λ _. out.new.items ≡ out.old.items ++ spec.note_line of.entry.device of.entry.number of.entry.text.now noted) }
{
    push_head(alloc, out, of, place)?;
    push_said(
        out,
        of.text.as_bytes(),
        note_word(noted.note),
        noted.at as usize,
    )
}

// The lines of notes.
fn push_noted(
    alloc: Global,
    out: &mut Vec<u8>,
    of: ModuleText<'_>,
    notes: &[Noted],
) -> Result<(), NoMemory>
    ensures { IfOk result (λ _. out.new.items ≡ out.old.items ++ flat_map (spec.note_line of.entry.device of.entry.number of.entry.text.now) notes.now) }
{
    let mut spot = beginning();
    for noted in notes {
        spot = spot_at(of.text.as_bytes(), spot, noted.at as usize);
        push_note(alloc, out, of, spot.place, *noted)?;
    }
    Ok(())
}

// The lines of a statement.
fn push_stmt(
    alloc: Global,
    out: &mut Vec<u8>,
    of: ModuleText<'_>,
    stmt: &Stmt,
) -> Result<(), NoMemory>
    ensures { IfOk result (λ _. out.new.items ≡ out.old.items ++ flat_map (spec.note_line of.entry.device of.entry.number of.entry.text.now) (notes_in 64 stmt.now)) }
{
    let mut notes = Vec::new(alloc);
    push_notes(&mut notes, LEVELS, stmt)?;
    push_noted(alloc, out, of, &notes)
}

// The word of a fault of a text, and its offset; none for `NoMemory`.
fn fault_word(fault: StmtFault) -> Option<(&'static str, u32)>
    ensures { option_map (λ p. (p.0.now, p.1)) result ≡ spec.fault_word fault }
{
    match fault {
        StmtFault::BadToken { at } => Some(("bad-token", at)),
        StmtFault::BadEscape { at } => Some(("bad-escape", at)),
        StmtFault::Unclosed { at } => Some(("unclosed", at)),
        StmtFault::TooDeep { at } => Some(("too-deep", at)),
        StmtFault::TextAfter { at } => Some(("text-after", at)),
        StmtFault::NoMemory => None,
    }
}

// The lines of a module.
fn push_module(alloc: Global, out: &mut Vec<u8>, of: ModuleText<'_>) -> Result<(), NoMemory>
    requires { length of.text.now < 2 ^ 32 }
    ensures { IfOk result (λ _. out.new.items ≡ out.old.items ++ spec.module_lines of.entry.device of.entry.number of.entry.text.now) }
{
    match read_module(alloc, of.text) {
        Ok(stmt) => push_stmt(alloc, out, of, &stmt),
        Err(fault) => match fault_word(fault) {
            Some((word, at)) => push_fault(alloc, out, of, word, at),
            None => Err(NoMemory),
        },
    }
}

/// Appends the lines of the modules of a device, which have these texts.
pub fn push_modules(
    alloc: Global,
    out: &mut Vec<u8>,
    device: u32,
    texts: &[&str],
) -> Result<(), NoMemory>
    requires short { All (λ (text : Bor (List ℕ)). length text.now < 2 ^ 32) texts.now }
    ensures { IfOk result (λ _. out.new.items ≡ out.old.items ++ spec.lines_of device (map (λ (text : Bor (List ℕ)). text.now) texts.now)) }
{
    for (number, text) in texts.iter().enumerate() {
        let of = ModuleText {
            device,
            number,
            text: *text,
        };
        push_module(alloc, out, of)?;
    }
    Ok(())
}
