//! What the profile does not support because of an argument, or of a missing statement.
ghost use Rattle.std.specs.Prelude.{◌≡◌, ◌^◌, ◌<◌, ◌≤◌, ◌&&◌, nat_lt, min, option_map, drop, length};
ghost use Rattle.std.specs.List.{prefix_len};
ghost use Rattle.sal_stmt.specs.Words as words;
ghost use Rattle.sal_module.specs.Arguments as argument;
ghost use Rattle.sal_module.specs.Faults.{least};
ghost use Rattle.sal_module.specs.LeftOut as spec;

use crate::argument::{decimal, is_whole};
use crate::fault::{Cause, Found, better};
use crate::keyword::Keyword;
use crate::statement::{argument_of, first_named, has_named, is_named};
use sal_stmt::Stmt;

/// The highest position of a bit.
const LAST_BIT: u64 = 63;

fn is_blank(c: u8) -> bool
    ensures { result ≡ words.is_blank c }
{
    c == b' ' || c == b'\t' || c == b'\r' || c == b'\n'
}

fn continues_identifier(c: u8) -> bool
    ensures { result ≡ words.continues_identifier c }
{
    c.is_ascii_alphanumeric() || c == b'_' || c == b'-' || c == b'.'
}

fn blank_len(text: &[u8]) -> usize
    ensures value { result ≡ prefix_len words.is_blank text.now }
    ensures within { result ≤ length text.now }
{
    text.iter().take_while(|c| is_blank(**c)).count()
}

fn first(text: &[u8]) -> u8
    ensures { result ≡ words.first text.now }
{
    if text.is_empty() { 0 } else { text[0] }
}

fn starts_call(text: &[u8]) -> bool
    ensures { result ≡ spec.starts_call text.now }
{
    if !text.starts_with(b"deref") {
        return false;
    }
    let rest = &text[5..];
    first(&rest[blank_len(rest)..]) == b'('
}

/// Whether a path calls the function `deref`.
fn calls_deref(path: &[u8]) -> bool
    ensures { result ≡ spec.calls_deref path.now }
{
    let mut before = 0;
    for i in 0..path.len() {
        if !continues_identifier(before) && starts_call(&path[i..]) {
            return true;
        }
        before = path[i];
    }
    false
}

fn is_high_position(text: &[u8]) -> bool
    ensures { result ≡ (argument.is_whole text.now && nat_lt 63 (argument.decimal text.now)) }
{
    is_whole(text) && decimal(text) > LAST_BIT
}

fn lacks_keys(stmt: &Stmt) -> bool
    ensures { result ≡ spec.lacks_keys stmt.now }
{
    is_named(Keyword::List, stmt) && !has_named(Keyword::Key, stmt.subs.items())
}

fn is_ordered_by_user(stmt: &Stmt) -> bool
    ensures { result ≡ spec.is_ordered_by_user stmt.now }
{
    is_named(Keyword::OrderedBy, stmt) && argument_of(stmt) == "user"
}

fn is_instance_identifier(stmt: &Stmt) -> bool
    ensures { result ≡ spec.is_instance_identifier stmt.now }
{
    is_named(Keyword::Type, stmt) && argument_of(stmt) == "instance-identifier"
}

fn is_calling_path(stmt: &Stmt) -> bool
    ensures { result ≡ spec.is_calling_path stmt.now }
{
    is_named(Keyword::Path, stmt) && calls_deref(argument_of(stmt).as_bytes())
}

fn is_past_the_last_bit(stmt: &Stmt) -> bool
    ensures { result ≡ spec.is_past_the_last_bit stmt.now }
{
    is_named(Keyword::Position, stmt) && is_high_position(argument_of(stmt).as_bytes())
}

/// Whether the profile does not support this statement, wherever it is.
pub(crate) fn is_left_out(stmt: &Stmt) -> bool
    ensures { result ≡ spec.is_left_out stmt.now }
{
    lacks_keys(stmt)
        || is_ordered_by_user(stmt)
        || is_instance_identifier(stmt)
        || is_calling_path(stmt)
        || is_past_the_last_bit(stmt)
}

/// The position that a bit states, or 2^32 if it is greater.
fn stated(bit: &Stmt) -> Option<u64>
    ensures { result ≡ option_map (min 4294967296) (spec.stated bit.now) }
{
    match first_named(Keyword::Position, bit.subs.items()) {
        Some(position) => Some(decimal(argument_of(position).as_bytes())),
        None => None,
    }
}

/// One more than the highest position so far, or 64 if that is greater.
fn next_position(next: u64, position: Option<u64>) -> u64
    requires { next ≤ 64 }
    ensures value { result ≡ min 64 (spec.next_position next position) }
    ensures small { result ≤ 64 }
{
    match position {
        None => (next + 1).min(LAST_BIT + 1),
        Some(position) => next.max(position.saturating_add(1)).min(LAST_BIT + 1),
    }
}

fn with_implied(best: Option<Found>, number: u32, next: u64, bit: &Stmt) -> Option<Found>
    ensures { result ≡ least best (spec.implied_faults number next bit.now) }
{
    if !has_named(Keyword::Position, bit.subs.items()) && next > LAST_BIT {
        better(
            best,
            Found {
                cause: Cause::LeftOut,
                module: number,
                at: bit.at,
            },
        )
    } else {
        best
    }
}

/// The first of this fault and those of bits with an implied position above 63.
pub(crate) fn with_bits(best: Option<Found>, number: u32, subs: &[Stmt]) -> Option<Found>
    ensures { result ≡ least best (spec.bit_faults number 0 subs.now) }
{
    let mut best = best;
    let mut next = 0;
    for sub in subs {
        if !is_named(Keyword::Bit, sub) {
            continue;
        }
        best = with_implied(best, number, next, sub);
        next = next_position(next, stated(sub));
    }
    best
}
