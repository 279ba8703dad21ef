//! Rows in runs of equal next steps.
ghost use Rattle.std.specs.Prelude.{◌≡◌, ◌<◌, ◌≤◌, ◌∷◌, not, length, option_map};
ghost use Rattle.std.specs.List.{position_or_len, prefix_len};
ghost use Rattle.sal_types.specs.Prefix.{is_prefix};
ghost use Rattle.sal_types.specs.Tree.{IsAscending, under};
ghost use Rattle.sal_data.specs.Written as spec;

use sal_types::{Path, Row, Step};

fn next_step(row: &Row, k: usize) -> Option<&Step>
    ensures { option_map (λ s. s.now) result ≡ spec.next_step k row.now }
{
    row.path.steps().get(k)
}

/// The step after the first `k` of a run's rows.
pub(crate) fn step_of(rows: &[Row], k: usize) -> Option<&Step>
    ensures { option_map (λ s. s.now) result ≡ spec.step_of k rows.now }
{
    match rows {
        [] => None,
        [row, ..] => next_step(row, k),
    }
}

fn same_next(first: Option<&Step>, next: Option<&Step>) -> bool
    ensures { result ≡ spec.same_next (option_map (λ s. s.now) first.entry) (option_map (λ s. s.now) next.entry) }
{
    match (first, next) {
        (Some(first), Some(next)) => first.cmp(next).is_eq(),
        (None, None) => true,
        _ => false,
    }
}

/// How many rows from the first on have this next step.
fn run_len(rows: &[Row], k: usize, first: Option<&Step>) -> usize
    ensures { result ≡ position_or_len (λ row. not (spec.same_next (option_map (λ s. s.now) first.entry) (spec.next_step k row))) rows.now }
{
    for i in 0..rows.len() {
        if !same_next(first, next_step(&rows[i], k)) {
            return i;
        }
    }
    rows.len()
}

/// The first run of rows, and those after it.
pub(crate) fn first_run(rows: &[Row], k: usize) -> (&[Row], &[Row])
    requires { 0 < length rows.now }
    ensures runs { spec.runs_of k rows.now ≡ result.0.now ∷ spec.runs_of k result.1.now }
    ensures shorter { length result.1.now < length rows.now }
{
    let len = run_len(rows, k, step_of(rows, k));
    rows.split_at(len)
}

/// The index of the first row at the path or below it, or the number of rows.
fn first_under(rows: &[Row], path: &Path) -> usize
    ensures place { result ≡ position_or_len (λ row. is_prefix path.now row.path) rows.now }
    ensures within { result ≤ length rows.now }
{
    for i in 0..rows.len() {
        if path.is_prefix_of(&rows[i].path) {
            return i;
        }
    }
    rows.len()
}

/// How many rows from the first on are at the path or below it.
fn count_under(rows: &[Row], path: &Path) -> usize
    ensures count { result ≡ prefix_len (λ row. is_prefix path.now row.path) rows.now }
    ensures within { result ≤ length rows.now }
{
    for i in 0..rows.len() {
        if !path.is_prefix_of(&rows[i].path) {
            return i;
        }
    }
    rows.len()
}

/// The rows at the path and below it, which are adjacent.
pub(crate) fn under<'r>(rows: &'r [Row], path: &Path) -> &'r [Row]
    requires { IsAscending rows.now }
    ensures { result.now ≡ under rows.now path.now }
{
    let (_, rest) = rows.split_at(first_under(rows, path));
    let (run, _) = rest.split_at(count_under(rest, path));
    run
}
