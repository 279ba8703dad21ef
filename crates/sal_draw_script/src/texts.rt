//! The texts of a step with the reply to it.
ghost use Rattle.std.specs.Prelude.{◌≡◌, IfOk, map};
ghost use Rattle.sal_script.specs.Moves.{move_of};
ghost use Rattle.sal_script.specs.Report.{reply_text};
ghost use Rattle.sal_shapes.specs.Labels.{label_text, title_text};
ghost use Rattle.sal_draw_script.specs.Labels as spec;
ghost use Rattle.sal_draw_script.specs.Steps.{step_text};

use crate::steps::push_step;
use sal_draw::call_style;
use sal_history::Reply;
use sal_report::reply_text;
use sal_schema::Schema;
use sal_script::{ScriptStep, StepReply};
use sal_shapes::{Style, label_of};
use sal_types::{NoMemory, Seq, Str};
use std::alloc::Global;
use std::sync::Arc;

/// The texts of a row: its label and its title.
#[derive(Drop)]
pub(crate) struct Texts {
    pub label: Seq<u8>,
    pub title: Str,
}

// Whether the step is done and its reply has nothing else.
fn says_ok(reply: &StepReply) -> bool
    ensures { result ≡ spec.says_ok reply.now }
{
    match reply {
        StepReply::Called {
            reply: Reply::Accepted,
        } => true,
        StepReply::Accepted => true,
        _ => false,
    }
}

pub(crate) fn style_of(reply: &StepReply) -> Style
    ensures { result ≡ spec.style_of reply.now }
{
    match reply {
        StepReply::Called { reply } => call_style(reply),
        StepReply::Refused { .. } => Style::Refused,
        _ => Style::Local,
    }
}

/// The texts of a step with the reply to it, by the schemas of the domains.
pub(crate) fn texts_of(
    alloc: Global,
    schemas: &[Arc<Schema>],
    step: &ScriptStep,
    reply: &StepReply,
) -> Result<Texts, NoMemory>
    ensures label { IfOk result (λ texts. texts.label ≡ label_text (spec.says_ok reply.now) (step_text (move_of step.now)) (reply_text (map (λ s. s.value) schemas.now) reply.now)) }
    ensures title { IfOk result (λ texts. texts.title ≡ title_text (step_text (move_of step.now)) (reply_text (map (λ s. s.value) schemas.now) reply.now)) }
{
    let mut title = String::new(alloc);
    push_step(alloc, &mut title, step)?;
    let replied = reply_text(alloc, schemas, reply)?;
    let label = label_of(alloc, says_ok(reply), title.as_bytes(), replied.items())?;
    title.push_str(" => ")?;
    title.push_str(replied.as_str())?;
    Ok(Texts {
        label,
        title: Str::from_string(title),
    })
}
