//! Lines and columns.
ghost use Rattle.std.specs.Prelude.{◌≡◌, ◌≤◌, ◌<◌, ◌-◌, ◌^◌, length};
ghost use Rattle.sal_lint.specs.Places as spec;

/// The line and the column of a byte of a text, each from 1. A column is a byte.
#[derive(Clone, Copy)]
pub struct Place {
    pub line: u64,
    pub column: u64,
}

/// An offset of a text, with its place.
#[derive(Clone, Copy)]
pub(crate) struct Spot {
    pub(crate) at: usize,
    pub(crate) place: Place,
}

/// The beginning of a text.
pub(crate) fn beginning() -> Spot
    ensures { (result.at ≡ 0) × (result.place ≡ spec.start) }
{
    Spot {
        at: 0,
        place: Place { line: 1, column: 1 },
    }
}

// The place after one more byte.
fn after(place: Place, byte: u8) -> Place
    requires line { place.line < 2 ^ 64 - 1 }
    requires column { place.column < 2 ^ 64 - 1 }
    ensures { result ≡ spec.after place byte }
{
    if byte == b'\n' {
        Place {
            line: place.line + 1,
            column: 1,
        }
    } else {
        Place {
            line: place.line,
            column: place.column + 1,
        }
    }
}

/// The spot at an offset of the text, counted from one that is known, if that is not behind it.
pub(crate) fn spot_at(text: &[u8], known: Spot, at: usize) -> Spot
    requires { spec.IsSpot text.now known }
    ensures spot { spec.IsSpot text.now result }
    ensures place { result.place ≡ spec.place_of text.now at }
{
    let end = at.min(text.len());
    if known.at <= end {
        counted(text, known, end)
    } else {
        counted(text, beginning(), end)
    }
}

// The spot at an offset, counted from one that is not behind it.
fn counted(text: &[u8], known: Spot, at: usize) -> Spot
    requires known { spec.IsSpot text.now known }
    requires behind { known.at ≤ at }
    requires within { at ≤ length text.now }
    ensures at { result.at ≡ at }
    ensures place { result.place ≡ spec.place_of text.now at }
{
    let mut place = known.place;
    for i in known.at..at {
        place = after(place, text[i]);
    }
    Spot { at, place }
}
