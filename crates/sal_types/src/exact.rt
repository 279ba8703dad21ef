//! Orders in which only equal values compare as `Equal`.
ghost use Rattle.std.specs.Prelude.{◌≡◌, ◌↔◌, IsTrue};
ghost use Rattle.std.specs.FinMap.{IsAntisymmetric, nat_cmp-IsAntisymmetric, slice_cmp-IsAntisymmetric};
ghost use Rattle.sal_types.specs.Order.{atom_cmp-IsAntisymmetric, value_cmp-IsAntisymmetric, step_cmp-IsAntisymmetric, cell_cmp-IsAntisymmetric, path_cmp-IsAntisymmetric};

use crate::path::Path;
use crate::seq::Seq;
use crate::shared::Shared;
use crate::text::Str;
use crate::value::{Atom, Cell, Step, Value};

/// A total order that answers `Equal` for one value alone.
pub trait Exact: Ord {
    ghost separates: { IsAntisymmetric Self.Ord.cmp };
}

impl Exact for u8 {
    ghost separates = { nat_cmp-IsAntisymmetric };
}

impl Exact for u32 {
    ghost separates = { nat_cmp-IsAntisymmetric };
}

impl Exact for Str {
    ghost separates = { slice_cmp-IsAntisymmetric nat_cmp-IsAntisymmetric };
}

impl Exact for Atom {
    ghost separates = { atom_cmp-IsAntisymmetric };
}

impl Exact for Value {
    ghost separates = { value_cmp-IsAntisymmetric };
}

impl Exact for Step {
    ghost separates = { step_cmp-IsAntisymmetric };
}

impl Exact for Cell {
    ghost separates = { cell_cmp-IsAntisymmetric };
}

impl Exact for Path {
    ghost separates = { path_cmp-IsAntisymmetric };
}

impl<T: Exact> Exact for Seq<T> {
    ghost separates = { slice_cmp-IsAntisymmetric T.separates };
}

impl<T: Exact> Exact for Shared<T> {
    ghost separates = { T.separates };
}

/// Whether the two are the same value.
pub fn is_same<T: Exact>(a: &T, b: &T) -> bool
    ensures { IsTrue result ↔ (a.now ≡ b.now) }
{
    a.cmp(b).is_eq()
}
