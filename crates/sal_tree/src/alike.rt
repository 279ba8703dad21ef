//! The stamps of two trees at a path.
ghost use Rattle.std.specs.Prelude.{◌≡◌, Some};
ghost use Rattle.sal_tree.specs.Grow.{at};
ghost use Rattle.sal_tree.specs.Alike.{alike};

use crate::reach::have_same_stamp;
use crate::root::Root;
use sal_types::Path;

/// Whether the path is absent in both trees, or present in both with one stamp. It takes no memory.
///
/// For two commits of one history it says that no commit between them touched the path.
pub fn is_alike(before: &Root, after: &Root, path: &Path) -> bool
    ensures { result ≡ alike (at (Some before.now) path.now) (at (Some after.now) path.now) }
{
    have_same_stamp(before.get(path), after.get(path))
}
