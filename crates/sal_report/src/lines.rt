//! The lines of a report. Each function appends to the text.
ghost use Rattle.std.specs.Prelude.{◌≡◌, [], ◌∷◌, ◌++◌, IfOk, OnOk, map, string_bytes};
ghost use Rattle.std.specs.List.{flat_map};
ghost use Rattle.sal_script.specs.Report as spec;

use crate::pieces::{Pushed, push_number, push_numbered};
use crate::replies::push_reply;
use crate::schemas::{Schemas, no_nodes};
use crate::told::DomainEnd;
use sal_history::Entry;
use sal_schema::Schema;
use sal_script::StepReply;
use sal_tree_text::push_tree;
use sal_types::{NoMemory, Seq, Str};
use std::alloc::Global;
use std::sync::Arc;

/// The report of a run: the line of the order, a line for each reply by client and step, and a line for each domain with its trees.
///
/// `schemas` has those of the domains by number, each by its last version, `log` the calls in order, `replies` for each client its steps' replies
/// in order, and
/// `trees` those of the domains that the report shows, at the end. The paths and data of a domain without a schema are written by one without nodes.
/// It fails only if memory runs out.
pub fn report(
    alloc: Global,
    schemas: &[Arc<Schema>],
    log: &[Entry],
    replies: &[Seq<StepReply>],
    trees: &[DomainEnd],
) -> Result<Str, NoMemory>
    ensures { IfOk result (λ text. text ≡ spec.report_of (map (λ s. s.value) schemas.now) log.now replies.now trees.now) }
{
    let none = no_nodes(alloc)?;
    told(alloc, &Schemas::new(schemas, &none), log, replies, trees)
}

// The same by these schemas.
fn told(
    alloc: Global,
    schemas: &Schemas,
    log: &[Entry],
    replies: &[Seq<StepReply>],
    trees: &[DomainEnd],
) -> Result<Str, NoMemory>
    ensures { IfOk result (λ text. text ≡ spec.report_of schemas.now log.now replies.now trees.now) }
{
    let mut text = String::new(alloc);
    push_order(&mut text, log)?;
    push_replies(alloc, &mut text, schemas, replies)?;
    push_domains(alloc, &mut text, schemas, trees)?;
    Ok(Str::from_string(text))
}

/// The line of a domain with its trees, the last line of a report. `schemas` has those of the domains by number, each by its last version; a
/// domain without one is written by a schema without nodes.
pub fn tree_line(alloc: Global, schemas: &[Arc<Schema>], trees: &DomainEnd) -> Result<Str, NoMemory>
    ensures { IfOk result (λ text. text ≡ spec.tree_line (map (λ s. s.value) schemas.now) trees.now) }
{
    let none = no_nodes(alloc)?;
    line_of(alloc, &Schemas::new(schemas, &none), trees)
}

// The same by these schemas.
fn line_of(alloc: Global, schemas: &Schemas, trees: &DomainEnd) -> Result<Str, NoMemory>
    ensures { IfOk result (λ text. text ≡ spec.tree_line schemas.now trees.now) }
{
    let mut text = String::new(alloc);
    push_trees(alloc, &mut text, schemas, trees)?;
    Ok(Str::from_string(text))
}

pub(crate) fn push_order(text: &mut String, log: &[Entry]) -> Pushed
    ensures { OnOk result (string_bytes text.new ≡ string_bytes text.old ++ spec.order_line log.now) }
{
    text.push_str("order")?;
    push_clients(text, log)?;
    end_line(text)
}

// The client of each entry.
fn push_clients(text: &mut String, log: &[Entry]) -> Pushed
    ensures { OnOk result (string_bytes text.new ≡ string_bytes text.old ++ flat_map (λ entry. spec.number entry.client) log.now) }
{
    for entry in log {
        push_number(text, u64::from(entry.client))?;
    }
    Ok(())
}

fn push_replies(
    alloc: Global,
    text: &mut String,
    schemas: &Schemas,
    replies: &[Seq<StepReply>],
) -> Pushed
    ensures { OnOk result (string_bytes text.new ≡ string_bytes text.old ++ spec.reply_lines schemas.now 0 replies.now) }
{
    for (client, replies) in replies.iter().enumerate() {
        push_client(alloc, text, schemas, client, replies.items())?;
    }
    Ok(())
}

// The lines of one client.
fn push_client(
    alloc: Global,
    text: &mut String,
    schemas: &Schemas,
    client: usize,
    replies: &[StepReply],
) -> Pushed
    ensures { OnOk result (string_bytes text.new ≡ string_bytes text.old ++ spec.client_lines schemas.now client 0 replies.now) }
{
    for (step, reply) in replies.iter().enumerate() {
        push_line(alloc, text, schemas, client, step, reply)?;
    }
    Ok(())
}

fn push_line(
    alloc: Global,
    text: &mut String,
    schemas: &Schemas,
    client: usize,
    step: usize,
    reply: &StepReply,
) -> Pushed
    ensures { OnOk result (string_bytes text.new ≡ string_bytes text.old ++ spec.reply_line schemas.now client step reply.now) }
{
    write!(text, "{client} {step} ")?;
    push_reply(alloc, text, schemas, reply)?;
    end_line(text)
}

// The lines of the domains.
pub(crate) fn push_domains(
    alloc: Global,
    text: &mut String,
    schemas: &Schemas,
    trees: &[DomainEnd],
) -> Pushed
    ensures { OnOk result (string_bytes text.new ≡ string_bytes text.old ++ flat_map (spec.tree_line schemas.now) trees.now) }
{
    for domain in trees {
        push_trees(alloc, text, schemas, domain)?;
    }
    Ok(())
}

// The commits of a domain and its trees.
fn push_trees(alloc: Global, text: &mut String, schemas: &Schemas, trees: &DomainEnd) -> Pushed
    ensures { OnOk result (string_bytes text.new ≡ string_bytes text.old ++ spec.tree_line schemas.now trees.now) }
{
    let schema = schemas.of(trees.domain);
    push_numbered(text, "tree", u64::from(trees.domain))?;
    push_number(text, trees.commits)?;
    push_tree(alloc, text, schema, &trees.trees.config)?;
    push_tree(alloc, text, schema, &trees.trees.oper)?;
    end_line(text)
}

fn end_line(text: &mut String) -> Result<(), NoMemory>
    ensures { OnOk result (string_bytes text.new ≡ string_bytes text.old ++ 10 ∷ []) }
{
    text.push('\n')?;
    Ok(())
}
