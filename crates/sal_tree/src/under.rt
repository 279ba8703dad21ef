//! Whether rows are under a path.
ghost use Rattle.std.specs.Prelude.{◌≡◌, ◌↔◌, IsTrue};
ghost use Rattle.std.specs.List.{list_all};
ghost use Rattle.sal_types.specs.Prefix.{is_prefix};
ghost use Rattle.sal_types.specs.Tree.{under};

use sal_rows::Rows;
use sal_types::{Path, Row};

/// Whether each row is at or below the path, as `Root::put` and `Root::merge` require. It takes no memory.
pub fn lie_under(rows: &Rows, path: &Path) -> bool
    ensures { IsTrue result ↔ (under rows.now path.now ≡ rows.now) }
{
    all_under(rows.items(), path)
}

fn all_under(rows: &[Row], path: &Path) -> bool
    ensures { result ≡ list_all (λ row. is_prefix path.now row.path) rows.now }
{
    rows.iter().all(|row| path.is_prefix_of(&row.path))
}
