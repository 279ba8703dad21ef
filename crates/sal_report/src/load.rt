//! The summary of a load: the numbers of its calls, commits and rows, and the sum of its numbers.
ghost use Rattle.std.specs.Prelude.{◌≡◌, ◌++◌, [], ◌∷◌, IfOk, OnOk, codes, string_bytes};
ghost use Rattle.sal_script.specs.Load as spec;
ghost use Rattle.sal_script.specs.Words.{number};

use crate::pieces::Pushed;
use crate::told::DomainEnd;
use sal_history::Entry;
use sal_tree_text::tally_of;
use sal_types::{NoMemory, Str};
use std::alloc::Global;

/// The summary of a load of this many rounds, whose values begin after this number: its words, the entries of the log, the commits, the rows of the
/// configuration at the end, and the sum of the unsigned leafs of node 2 there, which in the schema of a load is `v`. It fails only if memory runs
/// out.
pub fn summary(
    alloc: Global,
    rounds: u32,
    start: u32,
    log: &[Entry],
    trees: &DomainEnd,
) -> Result<Str, NoMemory>
    ensures { IfOk result (λ text. text ≡ spec.summary_of rounds start (spec.totals_of log.now trees.now)) }
{
    let mut text = String::new(alloc);
    push_load(&mut text, rounds, start)?;
    push_totals(alloc, &mut text, log, trees)?;
    Ok(Str::from_string(text))
}

// The line of the command's words.
fn push_load(text: &mut String, rounds: u32, start: u32) -> Pushed
    ensures { OnOk result (string_bytes text.new ≡ string_bytes text.old ++ (codes "load" ++ (number rounds ++ (number start ++ (10 ∷ []))))) }
{
    write!(text, "load {rounds} {start}\n")?;
    Ok(())
}

// The lines of the counts.
fn push_totals(alloc: Global, text: &mut String, log: &[Entry], trees: &DomainEnd) -> Pushed
    ensures { OnOk result (string_bytes text.new ≡ string_bytes text.old ++ spec.totals_text (spec.totals_of log.now trees.now)) }
{
    let tally = tally_of(alloc, &trees.trees.config)?;
    push_count(text, "calls", log.len() as u128)?;
    push_count(text, "commits", u128::from(trees.commits))?;
    push_count(text, "rows", tally.rows)?;
    push_count(text, "sum", tally.sum)
}

// A word and a number.
fn push_count(text: &mut String, word: &str, count: u128) -> Pushed
    ensures { OnOk result (string_bytes text.new ≡ string_bytes text.old ++ (word.now ++ (number count ++ (10 ∷ [])))) }
{
    write!(text, "{word} {count}\n")?;
    Ok(())
}
