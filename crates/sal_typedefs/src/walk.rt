//! From a type statement to those that it depends on, in order, without recursion.
ghost use Rattle.std.specs.Prelude.{◌≡◌, ◌++◌, ◌∷◌, [], List, IfOk, MatchOption, map};
ghost use Rattle.std.specs.List.{flat_map};
ghost use Rattle.sal_stmt.specs.declared.stmt.Stmt.{Stmt as Statement};
ghost use Rattle.sal_typedefs.specs.Names.{steps_of};
ghost use Rattle.sal_typedefs.specs.Spots.{site_of};
ghost use Rattle.sal_typedefs.specs.Walks as spec;

use crate::below::rests_on;
use crate::spot::Spot;
use crate::typedefs::Typedefs;
use sal_types::{NoMemory, append};
use std::alloc::Global;

/// A pending statement, and how many steps may follow.
#[derive(Drop)]
pub(crate) struct Way<'x, 'a> {
    pub(crate) spot: Spot<'x, 'a>,
    pub(crate) steps: usize,
}

/// A visited statement, and how many statements it depends on directly.
#[derive(Drop)]
pub(crate) struct Gone<'x, 'a> {
    pub(crate) spot: Spot<'x, 'a>,
    pub(crate) below: usize,
}

/// Visits all these statements next, the first of them first.
fn push_all<'x, 'a>(
    ways: &mut Vec<Way<'x, 'a>>,
    spots: Vec<Spot<'x, 'a>>,
    steps: usize,
) -> Result<(), NoMemory>
    ensures { IfOk result (λ _. (modules : List Statement) →
        spec.left modules ways.new.items ≡ flat_map (spec.nodes steps modules) (map site_of spots.entry.items) ++ spec.left modules ways.old.items) }
{
    let mut spots = spots;
    'spots: while spots.len() > 0 {
        if let Some(spot) = spots.pop() {
            append(ways, Way { spot, steps })?;
        }
    }
    Ok(())
}

/// Visits the next statement.
pub(crate) fn next<'x, 'a>(
    ways: &mut Vec<Way<'x, 'a>>,
    alloc: Global,
    typedefs: &'x Typedefs<'a>,
) -> Result<Option<Gone<'x, 'a>>, NoMemory>
    ensures { IfOk result (λ gone. MatchOption gone (spec.left typedefs.now ways.old.items ≡ [])
        (λ gone. spec.left typedefs.now ways.old.items ≡ spec.node_of gone ∷ spec.left typedefs.now ways.new.items)) }
{
    let way = match ways.pop() {
        None => return Ok(None),
        Some(way) => way,
    };
    let Way { spot, steps } = way;
    if steps == 0 {
        return Ok(Some(Gone { spot, below: 0 }));
    }
    let spots = rests_on(alloc, typedefs, &spot)?;
    let below = spots.len();
    push_all(ways, spots, steps - 1)?;
    Ok(Some(Gone { spot, below }))
}

/// A way that begins at a statement.
pub(crate) fn start<'x, 'a>(
    alloc: Global,
    typedefs: &Typedefs<'a>,
    spot: Spot<'x, 'a>,
) -> Result<Vec<Way<'x, 'a>>, NoMemory>
    ensures { IfOk result (λ ways. spec.left typedefs.now ways.items ≡ spec.nodes (steps_of typedefs.now) typedefs.now (site_of spot.entry)) }
{
    let mut ways = Vec::new(alloc);
    append(
        &mut ways,
        Way {
            spot,
            steps: typedefs.steps(),
        },
    )?;
    Ok(ways)
}
