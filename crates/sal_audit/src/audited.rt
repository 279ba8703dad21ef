//! `audit`: from a script and a report to the line of the verdict.
ghost use Rattle.std.specs.Prelude.{◌≡◌, ◌≤◌, [], IfOk, length};
ghost use Rattle.sal_script.specs.Moves.{clients_of};
ghost use Rattle.sal_script.specs.Tables.{tables_of, versions_of};
ghost use Rattle.sal_prepare.specs.Scripted.{tables_in};
ghost use Rattle.sal_prepare.specs.Texts.{IsTextOr};
ghost use Rattle.sal_audit.specs.Audited as spec;
ghost use Rattle.sal_verdict.specs.Verdicts as verdicts;

use crate::replayed::audit;
use sal_hub::Hub;
use sal_prepare::parted::{TwoParts, two_parts};
use sal_prepare::scripted::{Prepared, ReadScript, prepare};
use sal_prepare::status::Status;
use sal_types::{NoMemory, Str};
use sal_verdict::line_of;
use std::alloc::Global;

/// The line of the verdict on a report: `yes`, or `no` with a number. The input is a script, a zero byte, and the report; the first zero byte divides
/// them. Or the status of the first fault: that there is no zero byte, then that of the script, except for its order.
pub fn audit_text(alloc: Global, bytes: &[u8]) -> Result<Str, Status>
    ensures { IsTextOr (spec.audit_text bytes.now) result }
{
    match two_parts(bytes) {
        Some(parts) => audit_parts(alloc, parts),
        None => Err(Status::NoPart),
    }
}

// The same from the two parts.
fn audit_parts(alloc: Global, input: TwoParts<'_>) -> Result<Str, Status>
    ensures { IsTextOr (spec.audit_parts (record { first = input.entry.first.now; second = input.entry.second.now })) result }
{
    let prepared = prepare(alloc, input.first)?;
    let Prepared { read, hub } = prepared;
    let line = audit_line(alloc, read, hub, input.second)?;
    Ok(line)
}

// The line of the verdict on a text, by a hub without calls.
fn audit_line(alloc: Global, read: ReadScript, hub: Hub, text: &[u8]) -> Result<Str, NoMemory>
    requires schemas { tables_in read.schemas.items ≡ tables_of hub.world }
    requires few { length read.schemas.items ≤ 64 }
    requires readers { read.readers ≡ versions_of hub.world }
    requires fresh { hub.log ≡ [] }
    ensures { IfOk result (λ line. line ≡ verdicts.line_of (verdicts.verdict hub.world (clients_of read.script.clients) text.now)) }
{
    let verdict = audit(alloc, read, hub, text)?;
    line_of(alloc, verdict)
}
