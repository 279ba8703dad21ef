//! Look-ups in the entries so far.
ghost use Rattle.std.specs.Prelude.{◌≡◌, ◌&&◌, ◌∷◌, [], None, Some, if◌then◌else◌, not, slice_get, take, option_and_then, unwrap_or};
ghost use Rattle.std.specs.Option.{option_copied, option_or};
ghost use Rattle.sal_history.specs.Numbered.{numbered};
ghost use Rattle.sal_history.specs.Submissions.{is_done as is_done_spec, last_from};
ghost use Rattle.sal_retell.specs.Light as spec;

use crate::front::Footing;
use sal_rows::Outcome;

fn is_done(outcome: &Outcome) -> bool
    ensures { result ≡ is_done_spec outcome.now }
{
    match outcome {
        Outcome::Done { .. } => true,
        _ => false,
    }
}

pub(crate) fn has(list: &[u64], n: u64) -> bool
    ensures { result ≡ spec.has list.now n }
{
    list.iter().any(|x| *x == n)
}

pub(crate) fn has_number(list: &[u32], n: u32) -> bool
    ensures { result ≡ spec.has list.now n }
{
    list.iter().any(|x| *x == n)
}

fn is_on(chain: u64, footing: &Footing) -> bool
    ensures { result ≡ spec.is_on chain footing.now }
{
    match footing.chain {
        None => false,
        Some(other) => chain == other,
    }
}

fn begins_on(chain: u64, began: &Option<Footing>) -> bool
    ensures { result ≡ spec.begins_on chain began.now }
{
    match began {
        None => false,
        Some(footing) => is_on(chain, footing),
    }
}

// One if the submission is a commit of the domain.
fn one_if(domain: u32, footing: &Footing, outcome: &Outcome) -> u64
    ensures { result ≡ spec.commits_of domain (footing.now ∷ []) (outcome.now ∷ []) }
{
    if footing.domain == domain && is_done(outcome) {
        1
    } else {
        0
    }
}

/// How many of the submissions with these outcomes are commits of the domain.
pub(crate) fn commits_of(domain: u32, sent: &[Footing], done: &[Outcome]) -> u64
    ensures { result ≡ spec.commits_of domain sent.now done.now }
{
    let mut count: u64 = 0;
    for i in 0..usize::min(sent.len(), done.len()) {
        count += one_if(domain, &sent[i], &done[i]);
    }
    count
}

// The submission is of the chain, and its outcome is not done.
fn is_failed(chain: u64, footing: &Footing, outcome: &Outcome) -> bool
    ensures { result ≡ (spec.is_on chain footing.now && not (is_done_spec outcome.now)) }
{
    is_on(chain, footing) && !is_done(outcome)
}

/// The first receipt of the chain with an outcome other than done.
pub(crate) fn failing(chain: u64, sent: &[Footing], done: &[Outcome]) -> Option<u64>
    ensures { result ≡ spec.failing_on 1 chain sent.now done.now }
{
    for i in 0..usize::min(sent.len(), done.len()) {
        if is_failed(chain, &sent[i], &done[i]) {
            return Some(i as u64 + 1);
        }
    }
    None
}

// The number if the test holds, or else the last one before.
fn later(test: bool, n: u64, last: Option<u64>) -> Option<u64>
    ensures { result ≡ option_or (if test then Some n else None) last }
{
    if test { Some(n) } else { last }
}

/// The last receipt of the chain.
pub(crate) fn last_receipt(chain: u64, sent: &[Footing]) -> Option<u64>
    ensures { result ≡ last_from 1 (spec.is_on chain) sent.now }
{
    let mut last = None;
    for i in 0..sent.len() {
        last = later(is_on(chain, &sent[i]), i as u64 + 1, last);
    }
    last
}

/// The index of the entry that began the chain's last transaction.
pub(crate) fn last_begun(chain: u64, began: &[Option<Footing>]) -> Option<u64>
    ensures { result ≡ last_from 0 (spec.begins_on chain) began.now }
{
    let mut last = None;
    for i in 0..began.len() {
        last = later(begins_on(chain, &began[i]), i as u64, last);
    }
    last
}

pub(crate) fn later_than(decided: usize, receipt: Option<u64>) -> Option<u64>
    ensures { result ≡ spec.later_than decided receipt }
{
    match receipt {
        Some(n) => { if (decided as u64) < n { Some(n) } else { None } }
        None => None,
    }
}

pub(crate) fn is_unspent(spent: &[u64], begun: Option<u64>) -> bool
    ensures { result ≡ spec.is_unspent spent.now begun }
{
    match begun {
        None => false,
        Some(place) => !has(spent, place),
    }
}

/// The footing of the receipt. The receipt 0 is of none.
pub(crate) fn sent_as(sent: &[Footing], receipt: u64) -> Option<Footing>
    ensures { result ≡ numbered sent.now receipt }
{
    if receipt == 0 {
        return None;
    }
    sent.get(receipt as usize - 1).copied()
}

/// The footing of the receipt, if there is one.
pub(crate) fn sent_of(sent: &[Footing], receipt: Option<u64>) -> Option<Footing>
    ensures { result ≡ option_and_then (λ n. numbered sent.now n) receipt }
{
    match receipt {
        None => None,
        Some(n) => sent_as(sent, n),
    }
}

/// The footing at the index.
pub(crate) fn sent_by(sent: &[Footing], index: usize) -> Option<Footing>
    ensures { result ≡ slice_get sent.now index }
{
    sent.get(index).copied()
}

/// The outcome at the index.
pub(crate) fn outcome_by(outcomes: &[Outcome], index: usize) -> Option<&Outcome>
    ensures { option_copied result ≡ slice_get outcomes.now index }
{
    outcomes.get(index)
}

/// The outcome of the receipt. The receipt 0 has none.
pub(crate) fn outcome_of(outcomes: &[Outcome], receipt: u64) -> Option<&Outcome>
    ensures { option_copied result ≡ numbered outcomes.now receipt }
{
    if receipt == 0 {
        return None;
    }
    outcomes.get(receipt as usize - 1)
}

/// The domain of the chain, or 0 if there is none.
pub(crate) fn domain_on(chains: &[u32], chain: u64) -> u32
    ensures { result ≡ unwrap_or (numbered chains.now chain) 0 }
{
    if chain == 0 {
        return 0;
    }
    match chains.get(chain as usize - 1) {
        Some(domain) => *domain,
        None => 0,
    }
}

/// The first outcomes.
pub(crate) fn front_of(outcomes: &[Outcome], count: usize) -> &[Outcome]
    ensures { result.now ≡ take count outcomes.now }
{
    if outcomes.len() <= count {
        return outcomes;
    }
    &outcomes[..count]
}
