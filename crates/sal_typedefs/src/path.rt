//! The path of a leafref (RFC 7950 section 9.9.2).
ghost use Rattle.std.specs.Prelude.{◌≡◌, ◌<◌, ◌≤◌, ◌==◌, ◌∷◌, None, IfOk, IfSome, MatchOption, length, map, option_map, string_bytes};
ghost use Rattle.std.specs.List.{slice_split, list_all, prefix_len};
ghost use Rattle.sal_typedefs.specs.Names as spec;

use sal_stmt::is_keyword;
use sal_types::{NoMemory, Str, append};
use std::alloc::Global;

/// The text after a predicate whose remaining text is `text`.
fn behind_predicate(text: &str) -> Option<&str>
    ensures value { MatchOption result (spec.inside text.now ≡ None) (λ behind. spec.inside text.now ≡ option_map (λ rest. 93 ∷ rest) (spec.outside behind.now)) }
    ensures shorter { IfSome result (λ behind. length behind.now < length text.now) }
{
    match text.split_once(']') {
        None => None,
        Some((_, behind)) => Some(behind),
    }
}

/// A path without its predicates: only the closing bracket of each remains. None if a predicate does not end.
fn without_predicates(alloc: Global, path: &str) -> Result<Option<String>, NoMemory>
    ensures { IfOk result (λ kept. option_map string_bytes kept ≡ spec.outside path.now) }
{
    let mut kept = String::new(alloc);
    let mut rest = path;
    'predicates: loop {
        match rest.split_once('[') {
            None => {
                kept.push_str(rest)?;
                return Ok(Some(kept));
            }
            Some((front, predicate)) => {
                kept.push_str(front)?;
                match behind_predicate(predicate) {
                    None => return Ok(None),
                    Some(behind) => {
                        kept.push_str("]")?;
                        rest = behind;
                    }
                }
            }
        }
    }
}

/// The parts of a text between its slashes. It takes time and memory linear in the text.
pub fn between_slashes(alloc: Global, text: &str) -> Result<Vec<Str>, NoMemory>
    ensures { IfOk result (λ steps. steps.items ≡ slice_split (λ c. c == 47) text.now) }
{
    let mut steps = Vec::new(alloc);
    let mut rest = text;
    'steps: loop {
        match rest.split_once('/') {
            None => {
                append(&mut steps, Str::new(alloc, rest)?)?;
                return Ok(steps);
            }
            Some((step, more)) => {
                append(&mut steps, Str::new(alloc, step)?)?;
                rest = more;
            }
        }
    }
}

/// How many of the first steps go up.
fn ups(steps: &[Str]) -> usize
    ensures value { result ≡ prefix_len spec.is_up steps.now }
    ensures within { result ≤ length steps.now }
{
    steps
        .iter()
        .take_while(|step| step.as_str() == "..")
        .count()
}

/// How many of the first steps come before the names.
fn start_of(steps: &[Str]) -> usize
    ensures value { result ≡ spec.start_of steps.now }
    ensures within { result ≤ length steps.now }
{
    match steps.first() {
        None => 0,
        Some(step) => {
            if step.as_str().is_empty() {
                1
            } else {
                ups(steps)
            }
        }
    }
}

/// The name of a step, before its predicates.
fn name_in(step: &str) -> &str
    ensures { result.now ≡ spec.name_in step.now }
{
    match step.split_once(']') {
        None => step,
        Some((name, _)) => name,
    }
}

fn are_closed(text: &str) -> bool
    ensures { result ≡ list_all (λ c. c == 93) text.now }
{
    text.as_bytes().iter().all(|c| *c == b']')
}

/// Whether a step is a name with optional predicates.
fn is_step(step: &str) -> bool
    ensures { result ≡ spec.is_step step.now }
{
    match step.split_once(']') {
        None => is_keyword(step.as_bytes()),
        Some((name, closed)) => is_keyword(name.as_bytes()) && are_closed(closed),
    }
}

fn are_steps(steps: &[Str]) -> bool
    ensures { result ≡ list_all spec.is_step steps.now }
{
    steps.iter().all(|step| is_step(step.as_str()))
}

fn names_in(alloc: Global, steps: &[Str]) -> Result<Vec<Str>, NoMemory>
    ensures { IfOk result (λ names. names.items ≡ map spec.name_in steps.now) }
{
    let mut names = Vec::with_capacity(alloc, steps.len())?;
    for step in steps {
        append(&mut names, Str::new(alloc, name_in(step.as_str()))?)?;
    }
    Ok(names)
}

/// The names of a path with these steps.
fn names_of(alloc: Global, steps: &[Str]) -> Result<Vec<Str>, NoMemory>
    ensures { IfOk result (λ names. names.items ≡ spec.names_of steps.now) }
{
    let start = start_of(steps);
    let down = &steps[start..];
    if start == 0 || down.is_empty() || !are_steps(down) {
        return Ok(Vec::new(alloc));
    }
    names_in(alloc, down)
}

/// The names in the path of a leafref, after the steps up: predicates are skipped, and a name may have a prefix.
/// A text that is not of the form of a path has none. It takes time and memory linear in the text.
pub fn path_names(alloc: Global, text: &str) -> Result<Vec<Str>, NoMemory>
    ensures { IfOk result (λ names. names.items ≡ spec.path_names text.now) }
{
    match without_predicates(alloc, text)? {
        None => Ok(Vec::new(alloc)),
        Some(path) => {
            let steps = between_slashes(alloc, path.as_str())?;
            names_of(alloc, steps.as_slice())
        }
    }
}

/// How many steps a path goes up before its first name: 0 if it begins at the top. It takes time linear in the text.
pub fn count_up(text: &str) -> usize
    ensures { result ≡ spec.count_up text.now }
{
    let mut count = 0;
    let mut rest = text;
    'steps: loop {
        match rest.split_once('/') {
            None => return if rest == ".." { count + 1 } else { count },
            Some((step, more)) => {
                if step != ".." {
                    return count;
                }
                count += 1;
                rest = more;
            }
        }
    }
}
