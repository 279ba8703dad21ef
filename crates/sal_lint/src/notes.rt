//! What is noted of the statements of a module.
ghost use Rattle.std.specs.Prelude.{◌≡◌, ◌++◌, IfOk};
ghost use Rattle.std.specs.List.{list_any};
ghost use Rattle.sal_module.specs.Keywords as keywords;
ghost use Rattle.sal_module.specs.LeftOut as left_out;
ghost use Rattle.sal_module.specs.Profile as profile;
ghost use Rattle.sal_lint.specs.Notes as spec;

use sal_module::{Keyword, LEFT_OUT, argument_of, has_named, is_named};
use sal_stmt::Stmt;
use sal_types::{NoMemory, append, has_byte};

/// What is noted of a statement.
#[derive(Clone, Copy)]
pub enum Note {
    /// The profile refuses it: the modules build no schema.
    Refused,
    /// It is read and has no effect.
    Ignored,
}

/// A note, and the offset of its statement.
#[derive(Clone, Copy)]
pub(crate) struct Noted {
    pub(crate) note: Note,
    pub(crate) at: u32,
}

fn is_among(words: &[&str], text: &str) -> bool
    ensures { result ≡ list_any (λ word. keywords.same word.now text.now) words.now }
{
    words.iter().any(|word| *word == text)
}

fn is_left_out(stmt: &Stmt) -> bool
    ensures { result ≡ spec.is_left_out stmt.now }
{
    is_among(&LEFT_OUT, stmt.keyword.as_str())
}

fn lacks_keys(stmt: &Stmt) -> bool
    ensures { result ≡ left_out.lacks_keys stmt.now }
{
    is_named(Keyword::List, stmt) && !has_named(Keyword::Key, stmt.subs.items())
}

fn is_ordered_by_user(stmt: &Stmt) -> bool
    ensures { result ≡ left_out.is_ordered_by_user stmt.now }
{
    is_named(Keyword::OrderedBy, stmt) && argument_of(stmt) == "user"
}

fn is_instance_identifier(stmt: &Stmt) -> bool
    ensures { result ≡ left_out.is_instance_identifier stmt.now }
{
    is_named(Keyword::Type, stmt) && argument_of(stmt) == "instance-identifier"
}

fn is_refused(stmt: &Stmt) -> bool
    ensures { result ≡ spec.is_refused stmt.now }
{
    is_left_out(stmt)
        || (lacks_keys(stmt) || (is_ordered_by_user(stmt) || is_instance_identifier(stmt)))
}

fn is_ignored(stmt: &Stmt) -> bool
    ensures { result ≡ spec.is_ignored stmt.now }
{
    is_named(Keyword::Must, stmt)
        || (is_named(Keyword::When, stmt)
            || (is_named(Keyword::IfFeature, stmt) || is_named(Keyword::Default, stmt)))
}

fn note_of(stmt: &Stmt) -> Option<Note>
    ensures { result ≡ spec.note_of stmt.now }
{
    if is_refused(stmt) {
        Some(Note::Refused)
    } else if is_ignored(stmt) {
        Some(Note::Ignored)
    } else {
        None
    }
}

fn is_closed(stmt: &Stmt) -> bool
    ensures { result ≡ spec.is_closed stmt.now }
{
    is_left_out(stmt)
        || (has_byte(b':', stmt.keyword.items()) || is_named(Keyword::Extension, stmt))
}

// Appends what is noted of the statement itself.
fn push_own(notes: &mut Vec<Noted>, stmt: &Stmt) -> Result<(), NoMemory>
    ensures { IfOk result (λ _. notes.new.items ≡ notes.old.items ++ spec.own_notes stmt.now) }
{
    match note_of(stmt) {
        Some(note) => append(notes, Noted { note, at: stmt.at }),
        None => Ok(()),
    }
}

/// Appends what is noted of the statement and of those in `levels` levels below it.
pub(crate) fn push_notes(notes: &mut Vec<Noted>, levels: u32, stmt: &Stmt) -> Result<(), NoMemory>
    ensures { IfOk result (λ _. notes.new.items ≡ notes.old.items ++ spec.notes_in levels stmt.now) }
{
    push_own(notes, stmt)?;
    if levels == 0 {
        return Ok(());
    }
    if is_closed(stmt) {
        return Ok(());
    }
    for sub in stmt.subs.items() {
        push_notes(notes, levels - 1, sub)?;
    }
    Ok(())
}
