//! The picture of a log.
ghost use Rattle.sal_draw_log.specs.Drawn as spec;

use crate::scenes::{made_on, scene_of};
use sal_history::Entry;
use sal_retell::retell;
use sal_rows::Outcome;
use sal_shapes::{Scene, scene_text};
use sal_types::{Bytes, NoMemory};
use std::alloc::Global;

/// The picture of a log over this many domains, whose submissions have these outcomes, as text.
///
/// If the outcomes are those of the log over a world of as many domains, the text is `log_text` of that world and the log. It fails only if
/// memory runs out.
pub fn draw_log(
    alloc: Global,
    domains: u32,
    log: &[Entry],
    outcomes: &[Outcome],
) -> Result<Bytes, NoMemory>
    ensures { spec.IsMadeOver spec.log_text «domains» log.now outcomes.now result }
{
    let scene = log_scene(alloc, domains, log, outcomes)?;
    scene_text(alloc, scene)
}

// The scene of a log over this many domains, whose submissions have these outcomes.
fn log_scene(
    alloc: Global,
    domains: u32,
    log: &[Entry],
    outcomes: &[Outcome],
) -> Result<Scene, NoMemory>
    ensures { spec.IsMadeOver spec.scene_of «domains» log.now outcomes.now result }
{
    let retold = retell(alloc, domains, log, outcomes)?;
    let made = made_on(alloc, &retold.sent, outcomes)?;
    scene_of(alloc, &made, log, &retold.replies)
}
