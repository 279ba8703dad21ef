//! The words of the command line.
ghost use Rattle.std.specs.Prelude.{◌≡◌, ◌≤◌, [], ◌∷◌, IfSome, true};
ghost use Rattle.std.specs.Char.{is_ascii_digit};
ghost use Rattle.std.specs.List.{list_all};
ghost use Rattle.sal_command.specs.Words.{IsWithin, form_of};
ghost use Rattle.sal_command.specs.Words as spec;

use sal_draw_script::Range;
use sal_feed_script::{MAX_CAPACITY, MAX_NOTES};
use sal_script::{MAX_ROUNDS, MAX_START};
use sal_types::Str;

/// A form of the command.
#[derive(Clone, Copy, Debug, PartialEq, Eq)]
pub enum Form {
    /// Runs the script's clients on separate threads and writes the report.
    Run,
    /// Writes what is said of the script, and ends with its status.
    Lint,
    /// Makes a text from the input alone, and writes it.
    Text(TextForm),
    /// Runs four clients that put entries into one list, each in `rounds` rounds, and writes the summary.
    Load { rounds: u32, start: u32 },
    /// Passes `notes` notifications from thread to thread through a feed of this capacity, and writes how many came and the sum of their numbers.
    Feed { notes: u32, capacity: u32 },
    /// Writes the help text.
    Help,
    /// Writes the name and version.
    Version,
}

/// A form whose text depends on its input alone.
#[derive(Clone, Copy, Debug, PartialEq, Eq)]
pub enum TextForm {
    /// The report of the script, played in its order.
    Sim,
    /// The text of the schema that the script's modules build.
    Schema,
    /// The replies to the steps of clients that agree on owners of entities.
    Owner,
    /// The frames of the script's own domain, played in its order.
    Export,
    /// The trees that a follower holds at the end of a stream of frames.
    Follow,
    /// The picture of the script, of the entries in this range, played in its order or in that of a report.
    Draw(Range),
    /// The verdict on a report of the script, for the order on its first line.
    Audit,
}

/// The greatest index of an entry in the words; no script has as many steps.
const MAX_PLACE: u32 = 1000000;

/// The form of the words, if any.
pub fn form_of(words: &[Str]) -> Option<Form>
    ensures form { result ≡ form_of words.now }
    ensures within { IfSome result IsWithin }
{
    match words {
        [word] => form_named(word.as_str()),
        [word, first, second] => numbered(word.as_str(), first.as_str(), second.as_str()),
        _ => None,
    }
}

fn form_named(word: &str) -> Option<Form>
    ensures form { result ≡ spec.form_named word.now }
    ensures within { IfSome result IsWithin }
{
    if word == "run" {
        Some(Form::Run)
    } else if word == "lint" {
        Some(Form::Lint)
    } else if word == "--help" {
        Some(Form::Help)
    } else if word == "--version" {
        Some(Form::Version)
    } else {
        match text_form_named(word) {
            Some(form) => Some(Form::Text(form)),
            None => None,
        }
    }
}

fn text_form_named(word: &str) -> Option<TextForm>
    ensures { result ≡ spec.text_form_named word.now }
{
    if word == "sim" {
        Some(TextForm::Sim)
    } else if word == "schema" {
        Some(TextForm::Schema)
    } else if word == "owner" {
        Some(TextForm::Owner)
    } else if word == "export" {
        Some(TextForm::Export)
    } else if word == "follow" {
        Some(TextForm::Follow)
    } else if word == "draw" {
        Some(TextForm::Draw(range_of(0, MAX_PLACE)))
    } else if word == "audit" {
        Some(TextForm::Audit)
    } else {
        None
    }
}

// The form of a word with two numbers.
fn numbered(word: &str, first: &str, second: &str) -> Option<Form>
    ensures form { result ≡ spec.numbered word.now first.now second.now }
    ensures within { IfSome result IsWithin }
{
    if word == "load" {
        load_of(first, second)
    } else if word == "feed" {
        feed_of(first, second)
    } else if word == "draw" {
        draw_of(first, second)
    } else {
        None
    }
}

fn range_of(from: u32, to: u32) -> Range
    ensures { result ≡ spec.range_of from to }
{
    Range {
        from: u64::from(from),
        to: u64::from(to),
    }
}

fn draw_of(from: &str, to: &str) -> Option<Form>
    ensures form { result ≡ spec.draw_of from.now to.now }
    ensures within { IfSome result IsWithin }
{
    let from = number_of(0, MAX_PLACE, from)?;
    let to = number_of(from, MAX_PLACE, to)?;
    Some(Form::Text(TextForm::Draw(range_of(from, to))))
}

fn load_of(rounds: &str, start: &str) -> Option<Form>
    ensures form { result ≡ spec.load_of rounds.now start.now }
    ensures within { IfSome result IsWithin }
{
    let rounds = number_of(1, MAX_ROUNDS, rounds)?;
    let start = number_of(0, MAX_START, start)?;
    Some(Form::Load { rounds, start })
}

fn feed_of(notes: &str, capacity: &str) -> Option<Form>
    ensures form { result ≡ spec.feed_of notes.now capacity.now }
    ensures within { IfSome result IsWithin }
{
    let notes = number_of(1, MAX_NOTES, notes)?;
    let capacity = number_of(1, MAX_CAPACITY, capacity)?;
    Some(Form::Feed { notes, capacity })
}

// The number within these limits that the word is in decimal.
fn number_of(least: u32, most: u32, word: &str) -> Option<u32>
    ensures number { result ≡ spec.number_of least most word.now }
    ensures least { IfSome result (λ n. least ≤ n) }
    ensures most { IfSome result (λ n. n ≤ most) }
{
    let number = plain_value(word)?;
    within(least, most, number)
}

fn within(least: u32, most: u32, number: u32) -> Option<u32>
    ensures number { result ≡ spec.within least most number }
    ensures least { IfSome result (λ n. least ≤ n) }
    ensures most { IfSome result (λ n. n ≤ most) }
{
    if least <= number && number <= most {
        Some(number)
    } else {
        None
    }
}

// The value of decimal digits, without a sign and without leading zeros.
fn plain_value(word: &str) -> Option<u32>
    ensures { result ≡ spec.plain_value word.now }
{
    if is_plain(word.as_bytes()) {
        value_of(word)
    } else {
        None
    }
}

fn value_of(word: &str) -> Option<u32>
    requires { spec.is_plain word.now ≡ true }
    ensures { result ≡ spec.value_of word.now }
{
    match word.parse::<u32>() {
        Ok(number) => Some(number),
        Err(_) => None,
    }
}

fn is_plain(word: &[u8]) -> bool
    ensures { result ≡ spec.is_plain word.now }
{
    starts_well(word) && are_digits(word)
}

fn starts_well(word: &[u8]) -> bool
    ensures { result ≡ spec.starts_well word.now }
{
    match word {
        [] => false,
        [_] => true,
        [first, ..] => *first != b'0',
    }
}

fn are_digits(word: &[u8]) -> bool
    ensures { result ≡ list_all is_ascii_digit word.now }
{
    word.iter().all(|digit| digit.is_ascii_digit())
}
