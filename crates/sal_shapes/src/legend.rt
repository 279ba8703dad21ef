//! The legend: the meanings of what is drawn.
ghost use Rattle.std.specs.Prelude.{◌≡◌, ◌≤◌, ◌<◌, ◌+◌, ◌*◌, ◌^◌, ◌++◌, IfOk, OnOk, codes, length, if◌then◌else◌};
ghost use Rattle.sal_shapes.specs.Shapes as spec;

use crate::marks::plain;
use crate::scene::{Picture, Shape, Size, Spot, Style};
use sal_types::{NoMemory, Seq, append};
use std::alloc::Global;

/// The styles that have a line in the legend, in its order.
pub const KEYS: [Style; 15] = [
    Style::Bar,
    Style::Local,
    Style::Stands,
    Style::Makes,
    Style::Told,
    Style::Clash,
    Style::Fails,
    Style::Gives,
    Style::Hands,
    Style::Found,
    Style::Chained,
    Style::Commit,
    Style::Beside,
    Style::Opening,
    Style::Refusal,
];

// The position of a style among these, from 1 on; 0 if it has no line.
fn rank(style: Style) -> u32
    ensures { result ≡ spec.rank style }
{
    match style {
        Style::Bar => 1,
        Style::Local => 2,
        Style::Stands => 3,
        Style::Makes => 4,
        Style::Told => 5,
        Style::Clash => 6,
        Style::Fails => 7,
        Style::Gives => 8,
        Style::Hands => 9,
        Style::Found => 10,
        Style::Chained => 11,
        Style::Commit => 12,
        Style::Beside => 13,
        Style::Opening => 14,
        Style::Refusal => 15,
        Style::Lane => 0,
        Style::Axis => 0,
        Style::Heading => 0,
        Style::Shared => 0,
        Style::Refused => 0,
        Style::Place => 0,
        Style::Number => 0,
        Style::Meaning => 0,
    }
}

// What a style means.
fn meaning(style: Style) -> &'static str
    ensures { result.now ≡ spec.meaning style }
{
    match style {
        Style::Bar => "a transaction, from begin to submit or cancel",
        Style::Local => "a step that its client does alone",
        Style::Stands => "the commit, or the pending submission, on which it stands",
        Style::Makes => "the entry that decided a commit",
        Style::Told => "who is told of it as its own",
        Style::Clash => "a conflict, and the commit that it names",
        Style::Fails => "what a chain failed by, or the end of the domain",
        Style::Gives => "a commit in a listener's batch",
        Style::Hands => "a request, its answer, or a notification, to who takes it",
        Style::Found => "a mark, and where it was found",
        Style::Chained => "one transaction of a chain to the next",
        Style::Commit => "a commit, with its number",
        Style::Beside => "further commits at one point: the same entry decided them",
        Style::Opening => "a domain's opening, or its end",
        Style::Refusal => "refused, or not done",
        Style::Lane => "",
        Style::Axis => "",
        Style::Heading => "",
        Style::Shared => "",
        Style::Refused => "",
        Style::Place => "",
        Style::Number => "",
        Style::Meaning => "",
    }
}

fn style_of(shape: &Shape) -> Style
    ensures { result ≡ spec.style_of shape.now }
{
    match shape {
        Shape::Area { style, .. } => *style,
        Shape::Line { style, .. } => *style,
        Shape::Point { style, .. } => *style,
        Shape::Words { style, .. } => *style,
    }
}

// Whether a shape has this style.
fn is_drawn(shapes: &[Shape], key: Style) -> bool
    ensures { result ≡ spec.is_drawn shapes.now key }
{
    for shape in shapes {
        if rank(style_of(shape)) == rank(key) {
            return true;
        }
    }
    false
}

// Adds the style, if a shape has it.
fn add_if(keys: &mut Vec<Style>, shapes: &[Shape], key: Style) -> Result<(), NoMemory>
    ensures added { OnOk result (keys.new.items ≡ keys.old.items ++ spec.if_drawn shapes.now key) }
    ensures one { OnOk result (length keys.new.items ≤ length keys.old.items + 1) }
{
    if is_drawn(shapes, key) {
        return append(keys, key);
    }
    Ok(())
}

// Those of these styles that shapes have.
fn drawn_among(alloc: Global, shapes: &[Shape], styles: &[Style]) -> Result<Vec<Style>, NoMemory>
    ensures keys { IfOk result (λ keys. keys.items ≡ spec.drawn_among shapes.now styles.now) }
    ensures few { IfOk result (λ keys. length keys.items ≤ length styles.now) }
{
    let mut keys = Vec::new(alloc);
    for style in styles {
        add_if(&mut keys, shapes, *style)?;
    }
    Ok(keys)
}

// The styles of the legend that these shapes have.
fn drawn_keys(alloc: Global, shapes: &[Shape]) -> Result<Vec<Style>, NoMemory>
    ensures keys { IfOk result (λ keys. keys.items ≡ spec.drawn_keys shapes.now) }
    ensures few { IfOk result (λ keys. length keys.items ≤ 15) }
{
    drawn_among(alloc, shapes, &KEYS)
}

fn point(style: Style, y: u64) -> Shape
    ensures { result ≡ Shape.Point style (spec.spot 26 y) }
{
    Shape::Point {
        style,
        at: Spot { x: 26, y },
    }
}

// A line that does not bend.
pub(crate) fn straight(style: Style, from: Spot, to: Spot) -> Shape
    ensures { result ≡ spec.straight style from to }
{
    Shape::Line {
        style,
        from,
        by: to,
        to,
    }
}

fn bar(y: u64) -> Shape
    requires { 5 ≤ y }
    ensures { result ≡ Shape.Area Style.Bar (spec.spot 24 (spec.above y)) (spec.size 4 11) }
{
    Shape::Area {
        style: Style::Bar,
        at: Spot { x: 24, y: y - 5 },
        size: Size {
            width: 4,
            height: 11,
        },
    }
}

// The style as it is drawn, in the line of the legend with its middle at y.
fn sample(alloc: Global, style: Style, y: u64) -> Result<Shape, NoMemory>
    requires low { 5 ≤ y }
    requires high { y ≤ 2 ^ 43 }
    ensures { IfOk result (λ it. it ≡ spec.sample style y) }
{
    match style {
        Style::Bar => Ok(bar(y)),
        Style::Local => plain(alloc, style, Spot { x: 8, y: y + 4 }, b"read"),
        Style::Beside => plain(alloc, style, Spot { x: 20, y: y + 4 }, b"2 .."),
        Style::Commit | Style::Opening | Style::Refusal => Ok(point(style, y)),
        _ => Ok(straight(style, Spot { x: 8, y }, Spot { x: 48, y })),
    }
}

// A line of the legend.
fn push_key(alloc: Global, out: &mut Vec<Shape>, y: u64, style: Style) -> Result<(), NoMemory>
    requires low { 5 ≤ y }
    requires high { y ≤ 2 ^ 43 }
    ensures { OnOk result (out.new.items ≡ out.old.items ++ spec.key_at y style) }
{
    append(out, sample(alloc, style, y)?)?;
    let at = Spot { x: 58, y: y + 4 };
    append(
        out,
        plain(alloc, Style::Meaning, at, meaning(style).as_bytes())?,
    )
}

// The legend of these styles, with the middle of its first line at `top`.
fn push_legend(
    alloc: Global,
    out: &mut Vec<Shape>,
    top: u64,
    keys: &[Style],
) -> Result<(), NoMemory>
    requires few { length keys.now ≤ 15 }
    requires low { 5 ≤ top }
    requires high { top ≤ 2 ^ 42 + 13 }
    ensures { OnOk result (out.new.items ≡ out.old.items ++ spec.legend top keys.now) }
{
    let mut y = top;
    for key in keys {
        push_key(alloc, out, y, *key)?;
        y += 16;
    }
    Ok(())
}

/// A picture of these shapes, with the legend of what they show below this size.
#[tactic(auto, unfolding(crate::specs::Shapes::with_legend))]
pub(crate) fn with_legend(
    alloc: Global,
    bare: Size,
    mut shapes: Vec<Shape>,
) -> Result<Picture, NoMemory>
    requires { bare.height ≤ 2 ^ 42 }
    ensures { IfOk result (λ picture. picture ≡ spec.with_legend bare shapes.items) }
{
    let keys = drawn_keys(alloc, &shapes)?;
    push_legend(alloc, &mut shapes, bare.height + 13, &keys)?;
    Ok(Picture {
        size: Size {
            width: bare.width,
            height: bare.height + 16 * (keys.len() as u64) + 18,
        },
        shapes: Seq::from_items(shapes),
    })
}
