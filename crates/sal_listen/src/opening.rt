//! The snapshot of a listener's opening.
ghost use Rattle.std.specs.Prelude.{◌≡◌, ◌-◌, length, IfOk};
ghost use Rattle.sal_rows.specs.Batches as spec;
ghost use Rattle.sal_graft.specs.Kept.{AreKept};
ghost use Rattle.sal_listen.specs.Given.{trees_of};

use crate::commits::commit_at;
use sal_rows::Opened;
use sal_tree::{Commit, tree_of};
use sal_types::{NoMemory, Path, Store};
use std::alloc::Global;

/// The number of the newest commit, and the rows of the store at the path and below it at that commit.
///
/// `commits` are those of a domain, from its opening to the newest.
pub fn opened(
    alloc: Global,
    commits: &[Commit],
    store: Store,
    path: &Path,
) -> Result<Opened, NoMemory>
    requires { AreKept commits.now }
    ensures { IfOk result (λ o. o ≡ spec.opened (trees_of commits.now store) path.now (length commits.now - 1)) }
{
    let version = commits.len() as u64 - 1;
    let newest = commit_at(commits, version);
    let rows = tree_of(&newest.trees, store).rows(alloc, path)?;
    Ok(Opened { version, rows })
}
