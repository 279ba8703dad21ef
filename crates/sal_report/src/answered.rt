//! Reports for callers that write the line of a step when it is answered, and keep the line instead of the reply.
ghost use Rattle.std.specs.Prelude.{◌≡◌, ◌++◌, IfOk, OnOk, map, string_bytes};
ghost use Rattle.std.specs.List.{flat_map};
ghost use Rattle.sal_script.specs.Report as spec;

use crate::lines::{push_domains, push_order};
use crate::pieces::Pushed;
use crate::replies::push_reply;
use crate::schemas::{Schemas, no_nodes};
use crate::told::DomainEnd;
use sal_history::Entry;
use sal_schema::Schema;
use sal_script::StepReply;
use sal_types::{NoMemory, Seq, Str};
use std::alloc::Global;
use std::sync::Arc;

/// The text of a reply, as its line has it after client and step. It fails only if memory runs out.
pub fn reply_text(
    alloc: Global,
    schemas: &[Arc<Schema>],
    reply: &StepReply,
) -> Result<Str, NoMemory>
    ensures { IfOk result (λ text. text ≡ spec.reply_text (map (λ s. s.value) schemas.now) reply.now) }
{
    let none = no_nodes(alloc)?;
    one_reply(alloc, &Schemas::new(schemas, &none), reply)
}

// The same by these schemas.
fn one_reply(alloc: Global, schemas: &Schemas, reply: &StepReply) -> Result<Str, NoMemory>
    ensures { IfOk result (λ text. text ≡ spec.reply_text schemas.now reply.now) }
{
    let mut text = String::new(alloc);
    push_reply(alloc, &mut text, schemas, reply)?;
    Ok(Str::from_string(text))
}

/// The report of a run whose lines of steps are given, one text after another.
pub fn report_of_lines(
    alloc: Global,
    schemas: &[Arc<Schema>],
    log: &[Entry],
    lines: &[&str],
    trees: &[DomainEnd],
) -> Result<Str, NoMemory>
    ensures { IfOk result (λ text. text ≡ spec.order_line log.now ++ (flat_map (λ line. line.now) lines.now ++ flat_map (spec.tree_line (map (λ s. s.value) schemas.now)) trees.now)) }
{
    let none = no_nodes(alloc)?;
    lined(alloc, &Schemas::new(schemas, &none), log, lines, trees)
}

// The same by these schemas.
fn lined(
    alloc: Global,
    schemas: &Schemas,
    log: &[Entry],
    lines: &[&str],
    trees: &[DomainEnd],
) -> Result<Str, NoMemory>
    ensures { IfOk result (λ text. text ≡ spec.order_line log.now ++ (flat_map (λ line. line.now) lines.now ++ flat_map (spec.tree_line schemas.now) trees.now)) }
{
    let mut text = String::new(alloc);
    push_order(&mut text, log)?;
    push_lines(&mut text, lines)?;
    push_domains(alloc, &mut text, schemas, trees)?;
    Ok(Str::from_string(text))
}

fn push_lines(text: &mut String, lines: &[&str]) -> Pushed
    ensures { OnOk result (string_bytes text.new ≡ string_bytes text.old ++ flat_map (λ line. line.now) lines.now) }
{
    for line in lines {
        text.push_str(line)?;
    }
    Ok(())
}
