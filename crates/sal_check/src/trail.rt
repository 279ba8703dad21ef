//! The steps down to a place, and their paths.
ghost use Rattle.std.specs.Prelude.{◌≡◌, ◌<◌, ◌++◌, ◌∷◌, [], length, IfOk};
ghost use Rattle.sal_check.specs.Nodes.{steps_in};
ghost use Rattle.sal_check.specs.Paths.{joined};
ghost use Rattle.sal_rules.specs.Breaches.{node_of_rule};
ghost use Rattle.sal_rules.specs.Rules.{steps_to};

use crate::climb::way;
use sal_rows::Rule;
use sal_schema::Schema;
use sal_types::{Duplicate, NoMemory, Path, PathFault, Step};
use std::alloc::Global;

/// The steps with one more.
pub(crate) fn longer<'a>(
    alloc: Global,
    trail: &[&'a Step],
    step: &'a Step,
) -> Result<Vec<&'a Step>, NoMemory>
    ensures { IfOk result (λ list. steps_in list.items ≡ steps_in trail.now ++ step.now ∷ []) }
{
    let mut list = Vec::with_capacity(alloc, trail.len() + 1)?;
    for above in trail {
        list.push(*above)?;
    }
    list.push(step)?;
    Ok(list)
}

// The path of these steps, or none if they are too many.
fn path_of(alloc: Global, trail: &[&Step]) -> Result<Option<Path>, NoMemory>
    ensures { IfOk result (λ path. path ≡ joined [] (steps_in trail.now)) }
{
    let mut path = Path::root(alloc);
    for step in trail {
        match path.push(step.copy()?) {
            Ok(()) => {}
            Err(PathFault::NoMemory) => return Err(NoMemory),
            Err(PathFault::TooDeep) => return Ok(None),
        }
    }
    // For the proof alone: `steps` says that a path is short.
    let _ = path.steps();
    Ok(Some(path))
}

// The path with more steps, or none if they are too many.
fn gone_on(path: Path, steps: &[Step]) -> Result<Option<Path>, NoMemory>
    ensures { IfOk result (λ r. r ≡ joined path steps.now) }
{
    match steps {
        [] => Ok(Some(path)),
        [step, rest @ ..] => {
            let mut longer = path;
            match longer.push(step.copy()?) {
                Ok(()) => gone_on(longer, rest),
                Err(PathFault::NoMemory) => Err(NoMemory),
                Err(PathFault::TooDeep) => Ok(None),
            }
        }
    }
}

// The steps from where a rule is checked to where it is broken.
fn steps_to(alloc: Global, schema: &Schema, rule: Rule) -> Result<Vec<Step>, NoMemory>
    requires { node_of_rule rule < length schema.now.nodes }
    ensures { IfOk result (λ steps. steps.items ≡ steps_to schema.now rule) }
{
    match rule {
        Rule::Mandatory(number) => way(alloc, schema, number),
        Rule::MinElements(number) => {
            let mut steps = way(alloc, schema, number)?;
            steps.push(Step::Node(number))?;
            Ok(steps)
        }
        Rule::MaxElements(number) | Rule::Unique(number) => {
            let mut steps = Vec::new(alloc);
            steps.push(Step::Node(number))?;
            Ok(steps)
        }
        Rule::TwoCases(_) => Ok(Vec::new(alloc)),
    }
}

/// The path at which a rule is broken that is checked at the end of the trail, or none if it is too long.
pub(crate) fn place_of(
    alloc: Global,
    schema: &Schema,
    trail: &[&Step],
    rule: Rule,
) -> Result<Option<Path>, NoMemory>
    requires { node_of_rule rule < length schema.now.nodes }
    ensures { IfOk result (λ path. path ≡ joined [] (steps_in trail.now ++ steps_to schema.now rule)) }
{
    let Some(path) = path_of(alloc, trail)? else {
        return Ok(None);
    };
    let steps = steps_to(alloc, schema, rule)?;
    gone_on(path, &steps)
}
