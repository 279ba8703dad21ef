//! Which chains failed: for each chain the receipt at which it did.
ghost use Rattle.std.specs.Prelude.{◌≡◌, length};
ghost use Rattle.sal_history.specs.Submissions.{is_done};
ghost use Rattle.sal_hub.specs.Failures as spec;

use sal_rows::Outcome;

/// The receipt at which the chain of a submission failed, if it has a chain that did.
pub(crate) fn failure_of(failures: &[Option<u64>], chain: Option<u64>) -> Option<u64>
    requires { spec.IsWithin (length failures.now) chain }
    ensures { result ≡ spec.failure_of failures.now chain }
{
    match chain {
        None => None,
        Some(chain) => failures[chain as usize - 1],
    }
}

/// Records the receipt for its chain, unless it has none, was done, or an earlier one failed.
pub(crate) fn note_failure(
    failures: &mut [Option<u64>],
    chain: Option<u64>,
    receipt: u64,
    done: bool,
)
    requires { spec.IsWithin (length failures.old) chain }
    ensures { failures.new ≡ spec.failures_after failures.old chain receipt done }
{
    match chain {
        None => {}
        Some(chain) => {
            if !done {
                let index = chain as usize - 1;
                failures[index] = failures[index].or(Some(receipt));
            }
        }
    }
}

/// Whether the outcome is a commit.
pub(crate) fn is_done(outcome: &Outcome) -> bool
    ensures { result ≡ is_done outcome.now }
{
    match outcome {
        Outcome::Done { commit: _ } => true,
        _ => false,
    }
}

/// Removes the failures at receipts above `count`.
pub(crate) fn cut_failures(failures: &mut [Option<u64>], count: u64)
    ensures { failures.new ≡ spec.cut_failures count failures.old }
{
    for i in 0..failures.len() {
        failures[i] = up_to(count, failures[i]);
    }
}

fn up_to(count: u64, failure: Option<u64>) -> Option<u64>
    ensures { result ≡ spec.up_to count failure }
{
    match failure {
        None => None,
        Some(receipt) => {
            if receipt <= count {
                Some(receipt)
            } else {
                None
            }
        }
    }
}
