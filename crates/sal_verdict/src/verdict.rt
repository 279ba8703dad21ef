//! The verdict on a text that may be a report.
ghost use Rattle.std.specs.Prelude.{◌≡◌, IfOk};
ghost use Rattle.sal_verdict.specs.Verdicts as spec;

use sal_order::difference;
use sal_types::{NoMemory, Str};
use std::alloc::Global;

/// The result of an audit of a text.
#[derive(Clone, Copy, Debug, PartialEq, Eq)]
pub enum Verdict {
    /// It is the report of the script, played in the order that its own first line states, and that order is legal.
    Yes,
    /// It is not. `line` is the first line that differs from that report, counted from 0: the number of LFs in their common prefix. It is 0 if the
    /// first line states no legal order.
    No { line: u64 },
}

/// The verdict on a text, if this is the report of the order that it states.
pub fn judged(text: &[u8], own: &[u8]) -> Verdict
    ensures { result ≡ spec.by_report text.now own.now }
{
    match difference(text, own) {
        None => Verdict::Yes,
        Some(line) => Verdict::No { line },
    }
}

/// The line of a verdict.
pub fn line_of(alloc: Global, verdict: Verdict) -> Result<Str, NoMemory>
    ensures { IfOk result (λ text. text ≡ spec.line_of verdict) }
{
    match verdict {
        Verdict::Yes => Str::new(alloc, "yes\n"),
        Verdict::No { line } => no_line(alloc, line),
    }
}

fn no_line(alloc: Global, line: u64) -> Result<Str, NoMemory>
    ensures { IfOk result (λ text. text ≡ spec.line_of (Verdict.No line)) }
{
    let mut text = String::new(alloc);
    write!(text, "no {line}\n")?;
    Ok(Str::from_string(text))
}
