//! The layout: the lanes of the clients, the columns of the domains, and the rows.
ghost use Rattle.std.specs.Prelude.{◌≡◌, ◌<◌, ◌≤◌, ◌^◌, length, nat_eq};
ghost use Rattle.std.specs.List.{fold, position_or_len};
ghost use Rattle.sal_shapes.specs.Shapes as spec;

use crate::scene::{Pin, Row, Shape, Spot, Style};
use sal_types::Seq;

/// The largest number of rows, lanes or domains of a picture.
pub const MAX_PARTS: usize = 4294967295;

/// The height of the openings, above the first row.
pub(crate) const TOP: u64 = 40;

/// The number of bytes of a label that are shown, the width of a client's lane, the left edge of the domains, and the domains in column order.
#[derive(Drop)]
pub struct Frame {
    pub room: usize,
    pub width: u64,
    pub side: u64,
    pub domains: Seq<u32>,
}

/// The position of an entry: the left edge of its lane, the middle of its row, and whether it is drawn.
#[derive(Clone, Copy)]
pub struct Here {
    pub x: u64,
    pub y: u64,
    pub shown: bool,
}

// The length of the longest label, at least 8.
fn longest(rows: &[Row]) -> usize
    ensures { result ≡ fold spec.longer 8 rows.now }
{
    let mut most = 8;
    for row in rows {
        most = usize::max(most, row.label.items().len());
    }
    most
}

// The number of bytes of a label that are shown.
fn room_for(lanes: u32) -> usize
    ensures room { result ≡ spec.room_for lanes }
    ensures few { result ≤ 56 }
{
    if lanes < 3 {
        return 56;
    }
    if lanes < 5 {
        return 42;
    }
    usize::max(18, 168 / lanes as usize)
}

fn width_of(room: usize, rows: &[Row]) -> u64
    requires { room ≤ 56 }
    ensures width { result ≡ spec.width_of room rows.now }
    ensures narrow { result ≤ 450 }
{
    40 + 7 * (usize::min(room + 2, longest(rows)) as u64)
}

pub(crate) fn lane_x(width: u64, lane: u32) -> u64
    requires { width ≤ 450 }
    ensures x { result ≡ spec.lane_x width lane }
    ensures near { result ≤ 2 ^ 42 }
{
    46 + u64::from(lane) * width
}

/// The frame of these lanes, for these domains.
pub(crate) fn frame_of(lanes: u32, rows: &[Row], domains: Seq<u32>) -> Frame
    requires { length «domains» ≤ 2 ^ 32 }
    ensures frame { result ≡ spec.frame_of lanes rows.now «domains» }
    ensures fits { spec.Fits result }
{
    let room = room_for(lanes);
    let width = width_of(room, rows);
    let side = lane_x(width, lanes);
    Frame {
        room,
        width,
        side,
        domains,
    }
}

impl Frame {
    /// The position of the domain's line.
    pub(crate) fn column_x(&self, domain: u32) -> u64
        requires { spec.Fits self.now }
        ensures x { result ≡ spec.column_x self.now domain }
        ensures near { result ≤ 2 ^ 43 }
    {
        let index = index_of(&self.domains, domain);
        self.side + 40 + 70 * (index as u64)
    }

    /// The spot of a pin that the entry sets.
    pub(crate) fn spot_of(&self, here: Here, pin: Pin) -> Spot
        requires fits { spec.Fits self.now }
        requires near { spec.IsNear here }
        ensures spot { result ≡ spec.spot_of self.now here pin }
        ensures near { result.x ≤ 2 ^ 43 }
        ensures high { result.y ≤ 2 ^ 42 }
    {
        let x = match domain_of(pin) {
            None => here.x + 19,
            Some(domain) => self.column_x(domain),
        };
        Spot { x, y: here.y }
    }

    /// A line from this spot of the pin to the entry.
    pub(crate) fn line_of(&self, here: Here, style: Style, pin: Pin, from: Spot) -> Shape
        requires fits { spec.Fits self.now }
        requires near { spec.IsNear here }
        ensures { result ≡ spec.line_of style self.now here pin from }
    {
        Shape::Line {
            style,
            from,
            by: self.bend_of(here, pin, from),
            to: self.end_of(here, from),
        }
    }

    // The right side of a lane.
    fn right_of(&self, here: Here) -> u64
        requires fits { spec.Fits self.now }
        requires near { spec.IsNear here }
        ensures { result ≡ spec.right_of self.now here }
    {
        (here.x + self.width).saturating_sub(14)
    }

    // The end of a line to the entry.
    fn end_of(&self, here: Here, from: Spot) -> Spot
        requires fits { spec.Fits self.now }
        requires near { spec.IsNear here }
        ensures { result ≡ spec.end_of self.now here from }
    {
        let x = if here.x + self.width < from.x {
            self.right_of(here)
        } else {
            here.x + 19
        };
        Spot { x, y: here.y }
    }

    // Where a line from the pin to the entry bends.
    fn bend_of(&self, here: Here, pin: Pin, from: Spot) -> Spot
        ensures { result ≡ spec.bend_of self.now here pin from }
    {
        let x = match domain_of(pin) {
            None => from.x,
            Some(_) => self.side,
        };
        Spot { x, y: here.y }
    }
}

// The domain whose column has the pin.
fn domain_of(pin: Pin) -> Option<u32>
    ensures { result ≡ spec.domain_of pin }
{
    match pin {
        Pin::Commit { domain, .. } | Pin::Gone { domain } => Some(domain),
        _ => None,
    }
}

// The first index of the domain, or the number of domains.
fn index_of(domains: &Seq<u32>, domain: u32) -> usize
    ensures index { result ≡ position_or_len (λ d. nat_eq d domain) domains.now }
    ensures within { result ≤ length domains.now }
{
    let list = domains.items();
    for i in 0..list.len() {
        if list[i] == domain {
            return i;
        }
    }
    list.len()
}

/// The middle of the row.
pub(crate) fn row_y(row: u64) -> u64
    requires { row < 2 ^ 32 }
    ensures y { result ≡ spec.row_y row }
    ensures high { result ≤ 2 ^ 42 }
{
    55 + 19 * row
}
