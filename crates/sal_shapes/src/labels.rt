//! The labels of rows, and what is shown of them.
ghost use Rattle.std.specs.Prelude.{◌≡◌, ◌++◌, ◌+◌, ◌≤◌, IfOk, OnOk, drop, false, length, nat_eq, nat_lt, take};
ghost use Rattle.std.specs.List.{position_or_len};
ghost use Rattle.sal_shapes.specs.Labels as spec;

use crate::pieces::push;
use sal_types::{NoMemory, Seq};
use std::alloc::Global;

fn push_bytes(out: &mut Vec<u8>, text: &[u8]) -> Result<(), NoMemory>
    ensures { OnOk result (out.new.items ≡ out.old.items ++ text.now) }
{
    out.extend_from_slice(text)?;
    Ok(())
}

// Two dots, if something is left out.
fn push_dots(out: &mut Vec<u8>, left_out: bool) -> Result<(), NoMemory>
    ensures { OnOk result (out.new.items ≡ out.old.items ++ spec.dots left_out) }
{
    if left_out {
        return push(out, "..");
    }
    Ok(())
}

// The index of the byte, or the number of bytes.
fn index_of(text: &[u8], byte: u8) -> usize
    ensures index { result ≡ position_or_len (λ b. nat_eq b byte) text.now }
    ensures within { result ≤ length text.now }
{
    for i in 0..text.len() {
        if text[i] == byte {
            return i;
        }
    }
    text.len()
}

// ---- where a text can end

// Whether the byte is one of a name or a number.
fn in_name(b: u8) -> bool
    ensures { result ≡ spec.in_name b }
{
    97 <= b && b < 123
        || (65 <= b && b < 91
            || (48 <= b && b < 58 || (128 <= b || (b == b'-' || (b == b'.' || b == b'_')))))
}

// Where a text can end that goes on with `b`, at index `i`, after `p`.
fn last_end(p: u8, b: u8, i: usize, end: usize) -> usize
    requires { end ≤ i }
    ensures end { result ≡ spec.last_end p b i end }
    ensures within { result ≤ i }
{
    if in_name(p) && in_name(b) { end } else { i }
}

// The number of bytes of a text that are kept.
fn kept(room: usize, text: &[u8]) -> usize
    ensures kept { result ≡ spec.kept room 0 0 0 text.now }
    ensures within { result ≤ length text.now }
{
    let mut end = 0;
    let mut p = 0;
    for i in 0..text.len() {
        let b = text[i];
        end = last_end(p, b, i, end);
        if i >= room {
            return end;
        }
        p = b;
    }
    text.len()
}

// The front of a text that has room.
fn push_cut(out: &mut Vec<u8>, room: usize, text: &[u8]) -> Result<(), NoMemory>
    ensures { OnOk result (out.new.items ≡ out.old.items ++ spec.cut room text.now) }
{
    let n = kept(room, text);
    push_bytes(out, &text[..n])?;
    push_dots(out, n < text.len())
}

// ---- paths within a text

// The index of the first path, or the number of bytes.
fn path_start(text: &[u8]) -> usize
    ensures start { result ≡ spec.path_start text.now }
    ensures within { result ≤ length text.now }
{
    let mut p = 0;
    let mut q = 0;
    for i in 0..text.len() {
        let b = text[i];
        if p == b' ' && (q == b'"' && b == b'/') {
            return i;
        }
        p = q;
        q = b;
    }
    text.len()
}

fn begins_step(quoted: bool, p: u8, b: u8) -> bool
    ensures { result ≡ spec.begins_step quoted p b }
{
    !quoted && (b == b'/' || p == b':')
}

fn quoted_after(quoted: bool, b: u8) -> bool
    ensures { result ≡ spec.quoted_after quoted b }
{
    if b == b'\'' { !quoted } else { quoted }
}

// The end of a path, of at most so many bytes, or its last step.
fn path_end(path: &[u8], most: usize) -> &[u8]
    ensures { result.now ≡ spec.path_end most false 0 path.now path.now }
{
    let mut quoted = false;
    let mut p = 0;
    let mut last = 0;
    for i in 0..path.len() {
        let b = path[i];
        if begins_step(quoted, p, b) {
            if path.len() - i <= most {
                return &path[i..];
            }
            last = i;
        }
        quoted = quoted_after(quoted, b);
        p = b;
    }
    &path[last..]
}

fn room_behind(n: usize) -> usize
    ensures is { result ≡ spec.room_behind n }
    ensures few { result ≤ 13 }
{
    if n <= 13 { n } else { 3 }
}

// The end of a path, with two dots before it if it is not the whole.
fn push_end(out: &mut Vec<u8>, path: &[u8], end: &[u8]) -> Result<(), NoMemory>
    ensures { OnOk result (out.new.items ≡ out.old.items ++ (spec.dots (nat_lt (length end.now) (length path.now)) ++ end.now)) }
{
    push_dots(out, end.len() < path.len())?;
    push_bytes(out, end)
}

// A text with a path: the texts before the path, the path, and the text behind it.
#[derive(Clone, Copy)]
struct Parts<'a> {
    front: &'a [u8],
    path: &'a [u8],
    behind: &'a [u8],
}

fn parts_of(text: &[u8]) -> Parts
    ensures front { result.front.now ≡ take (spec.path_start text.now) text.now }
    ensures path { result.path.now ≡ take (spec.before_quote (drop (spec.path_start text.now) text.now)) (drop (spec.path_start text.now) text.now) }
    ensures behind { result.behind.now ≡ drop (spec.path_start text.now + spec.before_quote (drop (spec.path_start text.now) text.now)) text.now }
{
    let start = path_start(text);
    let stop = start + index_of(&text[start..], b'"');
    Parts {
        front: &text[..start],
        path: &text[start..stop],
        behind: &text[stop..],
    }
}

// The room of a path between these texts.
fn room_between(room: usize, front: &[u8], behind: &[u8]) -> usize
    ensures { result ≡ spec.room_between room front.now behind.now }
{
    room.saturating_sub(front.len() + (2 + room_behind(behind.len())))
}

// The parts of a text, of its path the end alone.
fn push_parts(out: &mut Vec<u8>, room: usize, parts: Parts) -> Result<(), NoMemory>
    ensures { OnOk result (out.new.items ≡ out.old.items ++ spec.short_between room parts.entry.front.now parts.entry.path.now parts.entry.behind.now) }
{
    let most = room_between(room, parts.front, parts.behind);
    push_bytes(out, parts.front)?;
    push_end(out, parts.path, path_end(parts.path, most))?;
    push_bytes(out, parts.behind)
}

// A text whose first path is its end alone, if the whole has no room.
fn push_short(out: &mut Vec<u8>, room: usize, text: &[u8]) -> Result<(), NoMemory>
    ensures { OnOk result (out.new.items ≡ out.old.items ++ spec.short_path room text.now) }
{
    push_parts(out, room, parts_of(text))
}

/// Appends what is shown of a label that has room for so many bytes.
#[tactic(auto, unfolding(crate::specs::Labels::shown))]
pub(crate) fn push_shown(
    alloc: Global,
    out: &mut Vec<u8>,
    room: usize,
    text: &[u8],
) -> Result<(), NoMemory>
    ensures { OnOk result (out.new.items ≡ out.old.items ++ spec.shown room text.now) }
{
    if text.len() <= room {
        return push_bytes(out, text);
    }
    let mut short = Vec::new(alloc);
    push_short(&mut short, room, text)?;
    push_cut(out, room, &short)
}

// ---- labels

// The text before the first space.
fn first_word(text: &[u8]) -> &[u8]
    ensures { result.now ≡ spec.first_word text.now }
{
    &text[..index_of(text, b' ')]
}

// The index behind the quotation mark that ends a path.
fn path_stop(text: &[u8], start: usize) -> usize
    requires { start ≤ length text.now }
    ensures stop { result ≡ spec.path_stop start text.now }
    ensures within { result ≤ length text.now }
    ensures behind { start ≤ result }
{
    usize::min(text.len(), start + (index_of(&text[start..], b'"') + 1))
}

// A reply whose first path is at its end.
#[tactic(auto, unfolding(crate::specs::Labels::path_last))]
fn push_path_last(out: &mut Vec<u8>, replied: &[u8]) -> Result<(), NoMemory>
    ensures { OnOk result (out.new.items ≡ out.old.items ++ spec.path_last replied.now) }
{
    let start = path_start(replied);
    let from = start.saturating_sub(2);
    let to = path_stop(replied, start);
    push_bytes(out, &replied[..from])?;
    push_bytes(out, &replied[to..])?;
    push_bytes(out, &replied[from..to])
}

/// The label of a step: its word and the reply, or the step itself if it is done and its reply has nothing else.
pub fn label_of(alloc: Global, ok: bool, step: &[u8], replied: &[u8]) -> Result<Seq<u8>, NoMemory>
    ensures { IfOk result (λ label. label ≡ spec.label_text ok step.now replied.now) }
{
    let mut out = Vec::new(alloc);
    if ok {
        push_bytes(&mut out, step)?;
        return Ok(Seq::from_items(out));
    }
    push_bytes(&mut out, first_word(step))?;
    push(&mut out, ": ")?;
    push_path_last(&mut out, replied)?;
    Ok(Seq::from_items(out))
}
