//! The input of a picture, rows with their texts and their lines, and its shapes.
use sal_types::{Seq, Str};

/// A named place of the picture, where lines begin.
#[derive(Clone, Copy, PartialEq, Eq, PartialOrd, Ord)]
pub enum Pin {
    /// The entry at this index of the log.
    Entry { place: u64 },
    /// The domain's commit of this number; number 0 is its opening.
    Commit { domain: u32, number: u64 },
    /// The end of the domain, at its unmount.
    Gone { domain: u32 },
    /// The submission with this receipt.
    Receipt { number: u64 },
    /// The last transaction of the chain, or its opening.
    Chain { id: u64 },
    /// The request with this id.
    Request { id: u64 },
    /// The answer to the request with this id.
    Output { id: u64 },
    /// The mark, where it was set last.
    Mark { mark: u32 },
    /// The accepted offer of the notification with this number, from 0 on.
    Offer { note: u32, number: u64 },
}

/// How a shape looks, by its meaning.
#[derive(Clone, Copy)]
pub enum Style {
    /// A client's lane.
    Lane,
    /// A transaction, from where it began to where it was submitted or cancelled.
    Bar,
    /// A domain, from its opening to its end.
    Axis,
    /// From the base of a transaction or a listener: a commit, or a pending submission.
    Stands,
    /// From a commit to the entry that decided it.
    Makes,
    /// From a commit to the entry whose reply names it as done.
    Told,
    /// From the commit that a conflict names.
    Clash,
    /// From the cause of a failed submission: a submission of its chain, or the end of its domain.
    Fails,
    /// From a commit to the batch that has it.
    Gives,
    /// From a request or a notification to the client that took it, or from an answer.
    Hands,
    /// From a mark to where it was found.
    Found,
    /// From the previous transaction of a chain.
    Chained,
    /// A commit.
    Commit,
    /// The opening of a domain, or its end.
    Opening,
    /// A refusal.
    Refusal,
    /// The heading of a lane.
    Heading,
    /// A shared call.
    Shared,
    /// A local step.
    Local,
    /// A step that was refused, or a submission that was not done.
    Refused,
    /// The index of an entry.
    Place,
    /// The number of a commit.
    Number,
    /// The number of a further commit at the same point, or two dots.
    Beside,
    /// A text of the legend.
    Meaning,
}

/// What an entry shows in addition to its texts.
#[derive(Clone, Copy)]
pub enum Act {
    /// Sets the pin here: later lines from it begin here.
    Sets { pin: Pin },
    /// A line leads from the pin to here.
    Joins { style: Style, pin: Pin },
    /// The transaction that began at this index ends here.
    Spans { place: u64 },
}

/// A commit: its domain and its number there.
#[derive(Clone, Copy)]
pub struct Made {
    pub domain: u32,
    pub number: u64,
}

/// A row of the picture: a step of the client in this lane, with the index of its entry if it is a shared call. A hidden row is
/// not drawn; its pins are at the upper edge.
#[derive(Drop)]
pub struct Row {
    pub lane: u32,
    pub place: Option<u64>,
    pub style: Style,
    pub label: Seq<u8>,
    pub title: Str,
    pub acts: Seq<Act>,
    pub hidden: bool,
}

/// The scene: the headings of the lanes, the domains in the order of their columns, and the rows from the top.
#[derive(Drop)]
pub struct Scene {
    pub lanes: Seq<Str>,
    pub domains: Seq<u32>,
    pub rows: Seq<Row>,
}

/// A spot, in pixels from the upper left corner.
#[derive(Clone, Copy)]
pub struct Spot {
    pub x: u64,
    pub y: u64,
}

/// A width and a height, in pixels.
#[derive(Clone, Copy)]
pub struct Size {
    pub width: u64,
    pub height: u64,
}

/// A shape, in pixels from the upper left corner. A line bends at the spot `by`.
#[derive(Drop)]
pub enum Shape {
    Area {
        style: Style,
        at: Spot,
        size: Size,
    },
    Line {
        style: Style,
        from: Spot,
        by: Spot,
        to: Spot,
    },
    Point {
        style: Style,
        at: Spot,
    },
    Words {
        style: Style,
        at: Spot,
        text: Seq<u8>,
        title: Seq<u8>,
    },
}

/// A picture: its size in pixels, and its shapes, the lower ones first.
#[derive(Drop)]
pub struct Picture {
    pub size: Size,
    pub shapes: Seq<Shape>,
}
