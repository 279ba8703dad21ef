//! A report compared with the one of its script in the order that it states.
ghost use Rattle.std.specs.Prelude.{◌≡◌, ◌≤◌, [], IfOk, length};
ghost use Rattle.sal_script.specs.Moves.{clients_of};
ghost use Rattle.sal_script.specs.Play.{play as play_spec};
ghost use Rattle.sal_script.specs.Tables.{tables_of, versions_of};
ghost use Rattle.sal_prepare.specs.Scripted.{tables_in};
ghost use Rattle.sal_audit.specs.Replayed.{IsReordered};
ghost use Rattle.sal_verdict.specs.Verdicts as spec;

use sal_client::{PlayFault, Played, play};
use sal_hub::Hub;
use sal_io::OpenGate;
use sal_order::first_order;
use sal_prepare::plays::report_of;
use sal_prepare::scripted::ReadScript;
use sal_schema::Schema;
use sal_script::Script;
use sal_types::{NoMemory, Seq};
use sal_verdict::{Verdict, judged};
use std::alloc::Global;
use std::mem;
use std::sync::Arc;

/// The verdict on a text that may be the report of a script, by the hub without calls over the script's world. The script's own order is
/// not used. It fails only if memory runs out.
pub fn audit(
    alloc: Global,
    mut read: ReadScript,
    hub: Hub,
    text: &[u8],
) -> Result<Verdict, NoMemory>
    requires schemas { tables_in read.schemas.items ≡ tables_of hub.world }
    requires few { length read.schemas.items ≤ 64 }
    requires readers { read.readers ≡ versions_of hub.world }
    requires fresh { hub.log ≡ [] }
    ensures { IfOk result (λ verdict. verdict ≡ spec.verdict hub.world (clients_of read.script.clients) text.now) }
{
    let told = reorder(alloc, &mut read.script, text)?;
    if told {
        replay(alloc, read, hub, text)
    } else {
        Ok(Verdict::No { line: 0 })
    }
}

// The script's order is that on the text's first line; false if it states none.
fn reorder(alloc: Global, script: &mut Script, text: &[u8]) -> Result<bool, NoMemory>
    ensures { IfOk result (IsReordered text.now script.old script.new) }
{
    match first_order(alloc, text)? {
        Some(order) => {
            script.order = Seq::from_items(order);
            Ok(true)
        }
        None => Ok(false),
    }
}

// The verdict by the script's own order.
fn replay(alloc: Global, read: ReadScript, hub: Hub, text: &[u8]) -> Result<Verdict, NoMemory>
    requires schemas { tables_in read.schemas.items ≡ tables_of hub.world }
    requires few { length read.schemas.items ≤ 64 }
    requires readers { read.readers ≡ versions_of hub.world }
    requires fresh { hub.log ≡ [] }
    ensures { IfOk result (λ verdict. verdict ≡ spec.by_play hub.world text.now (play_spec hub.world (clients_of read.script.clients) read.script.order)) }
{
    match play(alloc, &read.readers, &read.script, hub, &OpenGate) {
        Ok(played) => compared(alloc, &read.schemas, played, text),
        Err(PlayFault::BadOrder { .. }) => Ok(Verdict::No { line: 0 }),
        Err(PlayFault::NoMemory) => Err(NoMemory),
    }
}

// The verdict by a play. The play is not dropped: the process ends next, and frees all at once.
fn compared(
    alloc: Global,
    schemas: &[Arc<Schema>],
    played: Played,
    text: &[u8],
) -> Result<Verdict, NoMemory>
    requires schemas { tables_in schemas.now ≡ tables_of played.hub.world }
    requires few { length schemas.now ≤ 64 }
    ensures { IfOk result (λ verdict. verdict ≡ spec.by_played played.hub.world text.now (record { log = played.hub.log; replies = played.replies })) }
{
    let own = report_of(alloc, schemas, &played)?;
    mem::forget(played);
    Ok(judged(text, own.items()))
}
