//! Patterns that are malformed (RFC 7950 section 9.4.5, in the grammar of `regex`).
ghost use Rattle.std.specs.Prelude.{◌≡◌, IfOk};
ghost use Rattle.sal_typedefs.specs.Patterns as spec;

use regex::{Error, Regex};
use regex_syntax::{Config, ErrorKind, parse};
use sal_restrict::whole_text;
use sal_types::NoMemory;
use std::alloc::Global;

/// Whether the grammar of `regex` accepts no pattern in this text, or one that is nested too deeply. A pattern that is too
/// large for `regex` counts as memory that ran out.
pub fn is_malformed(alloc: Global, text: &str) -> Result<bool, NoMemory>
    ensures { IfOk result (λ bad. bad ≡ spec.is_malformed text.now) }
{
    let whole = whole_text(alloc, text)?;
    match Regex::new(alloc, whole.as_str()) {
        Ok(_) => Ok(false),
        Err(Error::Syntax(_)) => Ok(true),
        Err(_) => Err(NoMemory),
    }
}

/// The same by the grammar alone: the pattern is not compiled, so none is too large.
fn is_unread(alloc: Global, text: &str) -> Result<bool, NoMemory>
    ensures { IfOk result (λ bad. bad ≡ spec.is_malformed text.now) }
{
    let whole = whole_text(alloc, text)?;
    match parse(alloc, whole.as_str(), &Config::default()) {
        Ok(_) => Ok(false),
        Err(error) => match error.kind {
            ErrorKind::OutOfMemory => Err(NoMemory),
            _ => Ok(true),
        },
    }
}

/// How a pattern is checked.
#[derive(Clone, Copy)]
pub(crate) enum Look {
    /// It is compiled as `regex` does.
    Build,
    /// It is parsed only: it is compiled elsewhere.
    Read,
}

/// Whether the pattern is malformed, by this check.
pub(crate) fn is_refused(alloc: Global, look: Look, text: &str) -> Result<bool, NoMemory>
    ensures { IfOk result (λ bad. bad ≡ spec.is_malformed text.now) }
{
    match look {
        Look::Build => is_malformed(alloc, text),
        Look::Read => is_unread(alloc, text),
    }
}
