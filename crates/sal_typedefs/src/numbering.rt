//! How names get their numbers (RFC 7950 sections 9.6.4.2 and 9.7.4.2).
ghost use Rattle.std.specs.Prelude.{◌≡◌, ◌≢◌, ◌≤◌, ◌≤ℤ◌, ◌+◌, ◌++◌, ◌∷◌, [], ℕ, min, pos, drop, length, IfOk, IfSome, None, Some, unwrap_or};
ghost use Rattle.sal_stmt.specs.Words.{first};
ghost use Rattle.std.specs.Option.{option_copied};
ghost use Rattle.sal_module.specs.Arguments.{decimal};
ghost use Rattle.sal_module.specs.Statements.{argument_of as argument};
ghost use Rattle.sal_typedefs.specs.Listings.{AreNames, IsListing};
ghost use Rattle.sal_typedefs.specs.Entries as spec;

use crate::entry::{Entry, Numbering};
use crate::judging::small_number;
use crate::listing::{Choices, Listing, Named};
use sal_module::{Form, Keyword, argument_of, first_named, has_form, is_whole};
use sal_stmt::Stmt;
use sal_types::{Duplicate, NoMemory, Str};
use std::alloc::Global;

const CAP: u64 = 4_294_967_296;

/// The value of these digits, or 2^32 if it is greater.
fn decimal(digits: &[u8]) -> u64
    ensures { result ≡ min 4294967296 (decimal digits.now) }
{
    let mut number: u64 = 0;
    for digit in digits {
        number = (10 * number + u64::from(digit.saturating_sub(b'0'))).min(CAP);
    }
    number
}

fn is_position(text: &[u8]) -> bool
    ensures { result ≡ spec.has_form Numbering.Bits text.now }
{
    is_whole(text) && small_number(text) <= 63
}

fn first(text: &[u8]) -> u8
    ensures { result ≡ first text.now }
{
    if text.is_empty() { 0 } else { text[0] }
}

/// The number of a text, if its digits have a value up to 2^32.
fn integer(text: &[u8]) -> i128
    requires minus { first text.now ≡ 45 → decimal (drop 1 text.now) ≤ 4294967296 }
    requires plus { first text.now ≢ 45 → decimal text.now ≤ 4294967296 }
    ensures value { result ≡ spec.integer text.now }
    ensures small { result ≤ℤ spec.bound 0 }
{
    if first(text) == b'-' {
        -i128::from(decimal(&text[1..]))
    } else {
        i128::from(decimal(text))
    }
}

impl Numbering {
    /// The keyword of a name.
    pub(crate) fn item(self) -> Keyword
        ensures { result ≡ spec.item_of self }
    {
        match self {
            Numbering::Enums => Keyword::Enum,
            Numbering::Bits => Keyword::Bit,
        }
    }

    /// The keyword of its number.
    fn number_word(self) -> Keyword
        ensures { result ≡ spec.number_word self }
    {
        match self {
            Numbering::Enums => Keyword::Value,
            Numbering::Bits => Keyword::Position,
        }
    }

    /// Whether a text is a number.
    fn has_form(self, text: &str) -> bool
        ensures { result ≡ spec.has_form self text.now }
    {
        match self {
            Numbering::Enums => has_form(Form::Integer, text),
            Numbering::Bits => is_position(text.as_bytes()),
        }
    }

    /// The greatest number.
    fn greatest(self) -> i128
        ensures { result ≡ spec.greatest self }
    {
        match self {
            Numbering::Enums => 2_147_483_647,
            Numbering::Bits => 63,
        }
    }

    /// The text of the number in a statement.
    fn text_of(self, stmt: &Stmt) -> Option<&str>
        ensures { spec.text_seen result ≡ spec.text_of self stmt.now }
    {
        match first_named(self.number_word(), stmt.subs.items()) {
            None => None,
            Some(sub) => Some(argument_of(sub)),
        }
    }

    /// The number of a text, if it has the form.
    fn number(self, text: &str) -> Option<i128>
        ensures value { result ≡ spec.stated self (Some text.now) }
        ensures small { IfSome result (λ number. number ≤ℤ spec.bound 0) }
    {
        if !self.has_form(text) {
            return None;
        }
        Some(integer(text.as_bytes()))
    }

    /// The number of a text, or else `next`.
    fn number_or(self, text: Option<&str>, next: i128) -> i128
        ensures value { result ≡ unwrap_or (spec.stated self (spec.text_seen text.entry)) next }
        ensures small { (k : ℕ) → next ≤ℤ spec.bound k → result ≤ℤ spec.bound k }
    {
        match text {
            None => next,
            Some(text) => match self.number(text) {
                None => next,
                Some(number) => number,
            },
        }
    }

    fn is_malformed(self, text: Option<&str>) -> bool
        ensures { result ≡ spec.is_malformed self (spec.text_seen text.entry) }
    {
        match text {
            None => false,
            Some(text) => !self.has_form(text),
        }
    }

    /// Whether the text's number differs from this one.
    fn differs(self, number: i128, text: &str) -> bool
        ensures { result ≡ spec.differs self number (Some text.now) }
    {
        match self.number(text) {
            None => true,
            Some(other) => other != number,
        }
    }

    fn differs_from(self, text: Option<&str>, found: Option<&Entry>) -> bool
        ensures { result ≡ spec.differs_from self (spec.text_seen text.entry) (option_copied found.entry) }
    {
        match found {
            None => true,
            Some(e) => match text {
                None => false,
                Some(text) => self.differs(e.number, text),
            },
        }
    }
}

/// A name that the statement defines, and whether it is faulty. If it states no number, it gets the next one.
pub(crate) fn own_entry(
    alloc: Global,
    n: Numbering,
    before: &Listing,
    stmt: &Stmt,
) -> Result<(bool, Entry), NoMemory>
    requires { IsListing before.now }
    ensures bad { IfOk result (λ p. p.0 ≡ spec.is_bad n before.now.named.entries.items stmt.now) }
    ensures entry { IfOk result (λ p. p.1 ≡ spec.entry_of n None before.now.named.entries.items stmt.now) }
    ensures small { IfOk result (λ p. p.1.number ≤ℤ spec.bound (length before.now.named.entries.items)) }
{
    let name = argument_of(stmt);
    let text = n.text_of(stmt);
    let number = n.number_or(text, before.next);
    let bad = before.named.has_name(name)
        || before.has_number(number)
        || number > n.greatest()
        || n.is_malformed(text);
    Ok((
        bad,
        Entry {
            name: Str::new(alloc, name)?,
            number,
        },
    ))
}

fn entry_or(alloc: Global, found: Option<&Entry>, name: &str) -> Result<Entry, NoMemory>
    ensures { IfOk result (λ e. e ≡ unwrap_or (option_copied found.entry) (record { name = name.now; number = pos 0 })) }
{
    match found {
        None => Ok(Entry {
            name: Str::new(alloc, name)?,
            number: 0,
        }),
        Some(e) => Ok(Entry {
            name: e.name.copy()?,
            number: e.number,
        }),
    }
}

/// A name chosen from these, and whether it is faulty.
pub(crate) fn chosen_entry(
    alloc: Global,
    n: Numbering,
    from: &Choices,
    before: &Named,
    stmt: &Stmt,
) -> Result<(bool, Entry), NoMemory>
    requires { AreNames before.now.entries.items before.now.names }
    ensures bad { IfOk result (λ p. p.0 ≡ spec.is_bad_choice n from.now before.now.entries.items stmt.now) }
    ensures entry { IfOk result (λ p. p.1 ≡ spec.entry_of n (Some from.now) before.now.entries.items stmt.now) }
    ensures name { IfOk result (λ p. p.1.name ≡ argument stmt.now) }
{
    let name = argument_of(stmt);
    let found = from.named(name);
    let bad = before.has_name(name) || n.differs_from(n.text_of(stmt), found);
    Ok((bad, entry_or(alloc, found, name)?))
}

/// The next number after one more name.
pub(crate) fn next_after(before: &[Entry], next: i128, entry: &Entry) -> i128
    requires next { next ≡ spec.next before.now }
    requires small { next ≤ℤ spec.bound (length before.now) }
    requires entry { entry.now.number ≤ℤ spec.bound (length before.now) }
    ensures next { result ≡ spec.next (before.now ++ entry.now ∷ []) }
    ensures small { result ≤ℤ spec.bound (length before.now + 1) }
{
    let count = before.len();
    let after = entry.number + 1;
    if count == 0 || after > next {
        after
    } else {
        next
    }
}
