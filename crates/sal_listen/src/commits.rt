//! The commits of a domain by their numbers, and their trees.
ghost use Rattle.std.specs.Prelude.{◌≡◌, ◌<◌, length, slice_index_or};

use sal_tree::Commit;

/// The commit of this number.
pub(crate) fn commit_at(commits: &[Commit], number: u64) -> &Commit
    requires { number < length commits.now }
    ensures { result.now ≡ slice_index_or commits.now number result.now }
{
    &commits[number as usize]
}
