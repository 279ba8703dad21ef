//! Which commits after a base are foreign to a chain.
ghost use Rattle.std.specs.Prelude.{◌≡◌, ◌<◌, All, IfOk, None, Some, length};
ghost use Rattle.sal_rows.specs.Spans.{is_of_chain, spans};
ghost use Rattle.sal_graft.specs.Kept.{IsSpanOf, chains_of};

use sal_rows::Span;
use sal_tree::Commit;
use sal_types::NoMemory;
use std::alloc::Global;

/// The spans of a submission: the ranges of the commits after its base, up to the newest one, without the commits of its own
/// chain. Without a chain there is one span, and the commits are not read.
///
/// `commits` are those of the domain from the opening to the newest, and `base` is the number of one of them.
pub fn foreign_spans(
    alloc: Global,
    base: u64,
    chain: Option<u64>,
    commits: &[Commit],
) -> Result<Vec<Span>, NoMemory>
    requires { base < length commits.now }
    ensures spans { IfOk result (λ v. v.items ≡ spans base chain (chains_of commits.now)) }
    ensures kept { IfOk result (λ v. All (IsSpanOf commits.now) v.items) }
{
    match chain {
        None => one_span(alloc, base, commits),
        Some(chain) => parted(alloc, base, chain, commits),
    }
}

// The one span of a submission without a chain.
fn one_span(alloc: Global, base: u64, commits: &[Commit]) -> Result<Vec<Span>, NoMemory>
    requires { base < length commits.now }
    ensures spans { IfOk result (λ v. v.items ≡ spans base None (chains_of commits.now)) }
    ensures kept { IfOk result (λ v. All (IsSpanOf commits.now) v.items) }
{
    let to = commits.len() as u64 - 1;
    let spans = vec![in alloc; Span { from: base, to }]?;
    Ok(spans)
}

// The spans between the commits of the chain.
fn parted(alloc: Global, base: u64, chain: u64, commits: &[Commit]) -> Result<Vec<Span>, NoMemory>
    requires { base < length commits.now }
    ensures spans { IfOk result (λ v. v.items ≡ spans base (Some chain) (chains_of commits.now)) }
    ensures kept { IfOk result (λ v. All (IsSpanOf commits.now) v.items) }
{
    let mut spans = Vec::new(alloc);
    let mut from = base;
    for number in base + 1..commits.len() as u64 {
        if !is_of_chain(&commits[number as usize], chain) {
            continue;
        }
        spans.push(Span {
            from,
            to: number - 1,
        })?;
        from = number;
    }
    spans.push(Span {
        from,
        to: commits.len() as u64 - 1,
    })?;
    Ok(spans)
}

fn is_of_chain(commit: &Commit, chain: u64) -> bool
    ensures { result ≡ is_of_chain (Some chain) commit.now.chain }
{
    match commit.chain {
        None => false,
        Some(other) => chain == other,
    }
}
