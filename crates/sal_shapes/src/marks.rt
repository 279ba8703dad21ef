//! The texts of the picture, with their positions.
ghost use Rattle.std.specs.Prelude.{◌≡◌, ◌≤◌, ◌+◌, ◌-◌, ◌^◌, IfOk, codes, decimal, if◌then◌else◌, nat_lt};
ghost use Rattle.sal_shapes.specs.Labels.{shown};
ghost use Rattle.sal_shapes.specs.Shapes as spec;

use crate::frame::Here;
use crate::labels::push_shown;
use crate::pieces::{push, push_number};
use crate::scene::{Row, Shape, Spot, Style};
use sal_types::{NoMemory, Seq, Str};
use std::alloc::Global;

// A copy of the bytes.
fn bytes(alloc: Global, text: &[u8]) -> Result<Seq<u8>, NoMemory>
    ensures { IfOk result (λ it. it ≡ text.now) }
{
    let mut list = Vec::new(alloc);
    list.extend_from_slice(text)?;
    Ok(Seq::from_items(list))
}

/// A text that is its own title.
pub(crate) fn plain(alloc: Global, style: Style, at: Spot, text: &[u8]) -> Result<Shape, NoMemory>
    ensures { IfOk result (λ it. it ≡ Shape.Words style at text.now text.now) }
{
    let title = bytes(alloc, text)?;
    let text = bytes(alloc, text)?;
    Ok(Shape::Words {
        style,
        at,
        text,
        title,
    })
}

fn number(alloc: Global, style: Style, at: Spot, n: u64) -> Result<Shape, NoMemory>
    ensures { IfOk result (λ it. it ≡ Shape.Words style at (decimal n) (decimal n)) }
{
    let mut text = Vec::new(alloc);
    push_number(alloc, &mut text, n)?;
    plain(alloc, style, at, &text)
}

// The number of a commit, or two dots.
fn number_text(alloc: Global, before: u64, n: u64) -> Result<Seq<u8>, NoMemory>
    ensures { IfOk result (λ it. it ≡ (if nat_lt before 2 then decimal n else codes "..")) }
{
    let mut text = Vec::new(alloc);
    if before < 2 {
        push_number(alloc, &mut text, n)?;
    } else {
        push(&mut text, "..")?;
    }
    Ok(Seq::from_items(text))
}

fn number_style(before: u64) -> Style
    ensures { result ≡ (if nat_lt 0 before then Style.Beside else Style.Number) }
{
    if before > 0 {
        Style::Beside
    } else {
        Style::Number
    }
}

fn number_title(alloc: Global, n: u64) -> Result<Seq<u8>, NoMemory>
    ensures { IfOk result (λ it. it ≡ decimal n) }
{
    let mut title = Vec::new(alloc);
    push_number(alloc, &mut title, n)?;
    Ok(Seq::from_items(title))
}

/// The number of a commit, at this position beside those of the commits at its spot, or two dots.
pub(crate) fn number_words(
    alloc: Global,
    spot: Spot,
    before: u64,
    n: u64,
) -> Result<Shape, NoMemory>
    requires x { spot.x ≤ 2 ^ 43 }
    requires y { spot.y ≤ 2 ^ 42 }
    ensures { IfOk result (λ it. it ≡ spec.number_mark before n spot) }
{
    let at = Spot {
        x: spot.x + 8 + 21 * u64::min(before, 2),
        y: spot.y + 4,
    };
    let title = number_title(alloc, n)?;
    let text = number_text(alloc, before, n)?;
    Ok(Shape::Words {
        style: number_style(before),
        at,
        text,
        title,
    })
}

/// The place of an entry, left of the lanes.
pub(crate) fn place_words(alloc: Global, y: u64, place: u64) -> Result<Shape, NoMemory>
    requires { y ≤ 2 ^ 42 }
    ensures { IfOk result (λ it. it ≡ spec.plain Style.Place 40 (y + 4) (decimal place)) }
{
    number(alloc, Style::Place, Spot { x: 40, y: y + 4 }, place)
}

// What is shown of a label.
fn shown(alloc: Global, room: usize, text: &[u8]) -> Result<Seq<u8>, NoMemory>
    ensures { IfOk result (λ it. it ≡ shown room text.now) }
{
    let mut list = Vec::new(alloc);
    push_shown(alloc, &mut list, room, text)?;
    Ok(Seq::from_items(list))
}

/// What is shown of a row's label, `room` bytes of it, with its title.
pub(crate) fn row_label(
    alloc: Global,
    here: Here,
    room: usize,
    row: &Row,
) -> Result<Shape, NoMemory>
    requires { spec.IsNear here }
    ensures { IfOk result (λ it. it ≡ Shape.Words row.now.style (spec.spot (here.x + 27) (here.y + 4)) (shown room row.now.label) row.now.title) }
{
    let text = shown(alloc, room, row.label.items())?;
    let title = bytes(alloc, row.title.items())?;
    let at = Spot {
        x: here.x + 27,
        y: here.y + 4,
    };
    Ok(Shape::Words {
        style: row.style,
        at,
        text,
        title,
    })
}

/// The heading of a client's lane.
pub(crate) fn lane_heading(alloc: Global, x: u64, name: &Str) -> Result<Shape, NoMemory>
    requires { x ≤ 2 ^ 42 }
    ensures { IfOk result (λ it. it ≡ spec.plain Style.Heading (x + 8) 26 name.now) }
{
    plain(
        alloc,
        Style::Heading,
        Spot { x: x + 8, y: 26 },
        name.items(),
    )
}

/// The heading of a domain.
pub(crate) fn domain_heading(alloc: Global, x: u64, domain: u32) -> Result<Shape, NoMemory>
    ensures { IfOk result (λ it. it ≡ spec.plain Style.Heading (x - 28) 26 (spec.domain_name domain)) }
{
    let mut text = Vec::new(alloc);
    push(&mut text, "domain ")?;
    push_number(alloc, &mut text, u64::from(domain))?;
    let at = Spot {
        x: x.saturating_sub(28),
        y: 26,
    };
    plain(alloc, Style::Heading, at, &text)
}
