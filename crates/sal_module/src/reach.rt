//! Which items of a list reach a target, if each names some of the others.
ghost use Rattle.std.specs.Prelude.{◌≡◌, false, map, IfOk, slice_index_or};
ghost use Rattle.std.specs.List.{list_any};
ghost use Rattle.sal_module.specs.Imports as spec;

use sal_types::NoMemory;
use std::alloc::Global;

/// Whether the item is marked.
pub fn is_marked(marks: &[bool], k: usize) -> bool
    ensures { result ≡ slice_index_or marks.now k false }
{
    marks.get(k).copied().unwrap_or(false)
}

fn goes(marks: &[bool], out: &[usize], target: usize) -> bool
    ensures { result ≡ list_any (λ k. spec.is_step marks.now target k) out.now }
{
    out.iter().any(|k| *k == target || is_marked(marks, *k))
}

/// Which items name the target or a marked item.
fn round(
    alloc: Global,
    edges: &[Vec<usize>],
    marks: &[bool],
    target: usize,
) -> Result<Vec<bool>, NoMemory>
    ensures { IfOk result (λ v. v.items ≡ map (λ out. list_any (λ k. spec.is_step marks.now target k) out.items) edges.now) }
{
    let mut next = Vec::with_capacity(alloc, edges.len())?;
    for out in edges {
        next.push(goes(marks, out.as_slice(), target))?;
    }
    Ok(next)
}

/// Which items reach the target within the given number of steps plus one. It ends once a round marks no more.
pub fn reaching(
    alloc: Global,
    edges: &[Vec<usize>],
    target: usize,
    rounds: usize,
) -> Result<Vec<bool>, NoMemory>
    ensures { IfOk result (λ v. v.items ≡ map (spec.reaches (spec.plain edges.now) rounds target) (spec.plain edges.now)) }
{
    let mut marks = round(alloc, edges, &[], target)?;
    for _i in 0..rounds {
        let next = round(alloc, edges, marks.as_slice(), target)?;
        if next.as_slice() == marks.as_slice() {
            return Ok(marks);
        }
        marks = next;
    }
    Ok(marks)
}
