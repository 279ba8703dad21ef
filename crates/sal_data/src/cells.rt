//! The cell at a path, by binary search.
ghost use Rattle.std.specs.Prelude.{◌≡◌, ◌++◌, ◌∷◌, [], option_map};
ghost use Rattle.sal_types.specs.declared.value.Step.TheVariants.{Node};
ghost use Rattle.sal_types.specs.Order.{path_cmp};
ghost use Rattle.sal_types.specs.Tree.{IsAscending, cell};

use sal_types::{Cell, Row, Step};
use std::cmp::Ordering;

/// The order of the path and that of the leaf below `front`.
fn order(path: &[Step], front: &[Step], leaf: u32) -> Ordering
    ensures { result ≡ path_cmp path.now (front.now ++ Node leaf ∷ []) }
{
    match (path, front) {
        ([], []) => Ordering::Less,
        ([], [_, ..]) => Ordering::Less,
        ([step, rest @ ..], []) => match step.cmp(&Step::Node(leaf)) {
            Ordering::Equal if rest.is_empty() => Ordering::Equal,
            Ordering::Equal => Ordering::Greater,
            other => other,
        },
        ([step, rest @ ..], [first, behind @ ..]) => match step.cmp(first) {
            Ordering::Equal => order(rest, behind, leaf),
            other => other,
        },
    }
}

/// The cell of the row at these steps.
pub fn cell_at<'r>(rows: &'r [Row], steps: &[Step]) -> Option<&'r Cell>
    requires { IsAscending rows.now }
    ensures { option_map (λ c. c.now) result ≡ cell rows.now steps.now }
{
    match rows.binary_search_by(|row| row.path.steps().cmp(steps)) {
        Ok(at) => Some(&rows[at].cell),
        Err(_) => None,
    }
}

/// The cell of the row at the leaf below these steps.
pub(crate) fn cell_below<'r>(rows: &'r [Row], steps: &[Step], leaf: u32) -> Option<&'r Cell>
    requires { IsAscending rows.now }
    ensures { option_map (λ c. c.now) result ≡ cell rows.now (steps.now ++ Node leaf ∷ []) }
{
    match rows.binary_search_by(|row| order(row.path.steps(), steps, leaf)) {
        Ok(at) => Some(&rows[at].cell),
        Err(_) => None,
    }
}
