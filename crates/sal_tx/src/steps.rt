//! Prefixes of a path.
ghost use Rattle.std.specs.Prelude.{◌≡◌, ◌<◌, ◌++◌, [], ◌∷◌, IfOk, OnOk, length, take};

use sal_types::{Duplicate, NoMemory, Path, PathFault, Step};
use std::alloc::Global;

/// The first `depth` steps of the path, or all of them if it has fewer.
pub fn first_steps(alloc: Global, path: &Path, depth: usize) -> Result<Path, NoMemory>
    ensures { IfOk result (λ front. front ≡ take depth path.now) }
{
    if depth >= path.steps().len() {
        let whole = path.copy()?;
        return Ok(whole);
    }
    let mut front = Path::root(alloc);
    for step in &path.steps()[..depth] {
        add(&mut front, step)?;
    }
    Ok(front)
}

// The path with one more step.
fn add(path: &mut Path, step: &Step) -> Result<(), NoMemory>
    requires { length path.old < 32 }
    ensures { OnOk result (path.new ≡ path.old ++ step.now ∷ []) }
{
    match path.push(step.copy()?) {
        Ok(()) => Ok(()),
        Err(PathFault::NoMemory) => Err(NoMemory),
        Err(PathFault::TooDeep) => unreachable!(),
    }
}
