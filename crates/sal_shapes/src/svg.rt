//! From shapes to text. Each function appends to `out`.
ghost use Rattle.std.specs.Prelude.{◌≡◌, ◌++◌, IfOk, OnOk, codes};
ghost use Rattle.std.specs.List.{flat_map};
ghost use Rattle.sal_shapes.specs.Svg as spec;

use crate::pieces::{push, push_escaped, push_number};
use crate::scene::{Picture, Shape, Size, Spot, Style};
use sal_types::NoMemory;
use std::alloc::Global;

/// The beginning of a picture.
pub const HEAD: &str =
    "<svg xmlns='http://www.w3.org/2000/svg' font-family='monospace' font-size='11'";

/// The looks of the styles, and the background.
pub const STYLES: &str =
    "<defs><marker id='arrow' viewBox='0 0 8 8' refX='7' refY='4' markerWidth='8' markerHeight='8' orient='auto'><path d='M0 0L8 4L0 8z' fill='#6a2ca0'/></marker></defs>\n\
<style>.paper{fill:#fff}.lane{fill:#f3f4f7}.bar{fill:#b9cfee;stroke:#4a6fa5;stroke-width:.7}\n\
polyline{fill:none}.axis{stroke:#aaa}.stands{stroke:#8a6d00;stroke-width:.8}.makes{stroke:#1b6e2f;stroke-width:1.6}\n\
.told{stroke:#1b6e2f;stroke-dasharray:2 3}.clash{stroke:#b00020;stroke-width:1.4;stroke-dasharray:7 3}\n\
.fails{stroke:#b00020;stroke-width:1.4;stroke-dasharray:8 2 2 2}.gives{stroke:#1f5fbf;stroke-dasharray:4 2 1 2}\n\
.hands{stroke:#6a2ca0;marker-end:url(#arrow)}.found{stroke:#555;stroke-dasharray:1 4}.chained{stroke:#c26a00;stroke-width:3;stroke-dasharray:3 2}\n\
.commit{fill:#1b6e2f}.opening{fill:#fff;stroke:#1b6e2f}.refusal{fill:#fff;stroke:#b00020;stroke-width:1.4}\n\
text{white-space:pre}.heading{font-weight:bold}.local{fill:#777}.refused{fill:#b00020;font-style:italic}.place{fill:#888;text-anchor:end}.number,.beside{fill:#1b6e2f}</style>\n\
<rect class='paper' width='100%' height='100%'/>\n";

/// The text of a picture, as Scalable Vector Graphics. It fails only if memory runs out.
pub fn svg_of(alloc: Global, picture: &Picture) -> Result<Vec<u8>, NoMemory>
    ensures { IfOk result (λ text. text.items ≡ spec.svg_of picture.now) }
{
    let mut out = Vec::new(alloc);
    push_head(alloc, &mut out, picture)?;
    push_shapes(alloc, &mut out, picture.shapes.items())?;
    push(&mut out, "</svg>\n")?;
    Ok(out)
}

fn push_head(alloc: Global, out: &mut Vec<u8>, picture: &Picture) -> Result<(), NoMemory>
    ensures { OnOk result (out.new.items ≡ out.old.items ++ spec.head_text picture.now.size) }
{
    push(out, HEAD)?;
    push_size(alloc, out, picture.size)?;
    push(out, ">\n")?;
    push(out, STYLES)
}

fn push_shapes(alloc: Global, out: &mut Vec<u8>, shapes: &[Shape]) -> Result<(), NoMemory>
    ensures { OnOk result (out.new.items ≡ out.old.items ++ flat_map spec.shape_text shapes.now) }
{
    for shape in shapes {
        push_shape(alloc, out, shape)?;
    }
    Ok(())
}

fn push_shape(alloc: Global, out: &mut Vec<u8>, shape: &Shape) -> Result<(), NoMemory>
    ensures { OnOk result (out.new.items ≡ out.old.items ++ spec.shape_text shape.now) }
{
    match shape {
        Shape::Area { style, at, size } => {
            push_element(out, "rect", *style)?;
            push_area(alloc, out, *at, *size)
        }
        Shape::Line {
            style,
            from,
            by,
            to,
        } => {
            push_element(out, "polyline", *style)?;
            push_points(alloc, out, *from, *by)?;
            push_last(alloc, out, *to)
        }
        Shape::Point { style, at } => {
            push_element(out, "circle", *style)?;
            push_point(alloc, out, *at)
        }
        Shape::Words {
            style,
            at,
            text,
            title,
        } => {
            push_element(out, "text", *style)?;
            push_at(alloc, out, *at)?;
            push_words(out, text.items(), title.items())
        }
    }
}

fn push_area(alloc: Global, out: &mut Vec<u8>, at: Spot, size: Size) -> Result<(), NoMemory>
    ensures { OnOk result (out.new.items ≡ out.old.items ++ (spec.two (codes "x") at.x (codes "y") at.y ++ (spec.two (codes "width") size.width (codes "height") size.height ++ codes "/>\n"))) }
{
    push_at(alloc, out, at)?;
    push_size(alloc, out, size)?;
    push(out, "/>\n")
}

fn push_points(alloc: Global, out: &mut Vec<u8>, from: Spot, by: Spot) -> Result<(), NoMemory>
    ensures { OnOk result (out.new.items ≡ out.old.items ++ (codes " points='" ++ (spec.place from ++ spec.place by))) }
{
    push(out, " points='")?;
    push_place(alloc, out, from)?;
    push_place(alloc, out, by)
}

fn push_last(alloc: Global, out: &mut Vec<u8>, to: Spot) -> Result<(), NoMemory>
    ensures { OnOk result (out.new.items ≡ out.old.items ++ (spec.place to ++ codes "'/>\n")) }
{
    push_place(alloc, out, to)?;
    push(out, "'/>\n")
}

// A place on a line.
fn push_place(alloc: Global, out: &mut Vec<u8>, spot: Spot) -> Result<(), NoMemory>
    ensures { OnOk result (out.new.items ≡ out.old.items ++ spec.place spot) }
{
    push_number(alloc, out, spot.x)?;
    push(out, ",")?;
    push_number(alloc, out, spot.y)?;
    push(out, " ")
}

fn push_point(alloc: Global, out: &mut Vec<u8>, at: Spot) -> Result<(), NoMemory>
    ensures { OnOk result (out.new.items ≡ out.old.items ++ (spec.two (codes "cx") at.x (codes "cy") at.y ++ codes " r='4'/>\n")) }
{
    push_attribute(alloc, out, "cx", at.x)?;
    push_attribute(alloc, out, "cy", at.y)?;
    push(out, " r='4'/>\n")
}

fn push_at(alloc: Global, out: &mut Vec<u8>, at: Spot) -> Result<(), NoMemory>
    ensures { OnOk result (out.new.items ≡ out.old.items ++ spec.two (codes "x") at.x (codes "y") at.y) }
{
    push_attribute(alloc, out, "x", at.x)?;
    push_attribute(alloc, out, "y", at.y)
}

fn push_size(alloc: Global, out: &mut Vec<u8>, size: Size) -> Result<(), NoMemory>
    ensures { OnOk result (out.new.items ≡ out.old.items ++ spec.two (codes "width") size.width (codes "height") size.height) }
{
    push_attribute(alloc, out, "width", size.width)?;
    push_attribute(alloc, out, "height", size.height)
}

// A text with its title, and the end of its element.
fn push_words(out: &mut Vec<u8>, text: &[u8], title: &[u8]) -> Result<(), NoMemory>
    ensures { OnOk result (out.new.items ≡ out.old.items ++ spec.words text.now title.now) }
{
    push(out, "><title>")?;
    push_escaped(out, title)?;
    push(out, "</title>")?;
    push_escaped(out, text)?;
    push(out, "</text>\n")
}

// The beginning of an element.
fn push_element(out: &mut Vec<u8>, name: &str, style: Style) -> Result<(), NoMemory>
    ensures { OnOk result (out.new.items ≡ out.old.items ++ spec.element name.now style) }
{
    push(out, "<")?;
    push(out, name)?;
    push(out, " class='")?;
    push(out, class_of(style))?;
    push(out, "'")
}

fn push_attribute(alloc: Global, out: &mut Vec<u8>, name: &str, n: u64) -> Result<(), NoMemory>
    ensures { OnOk result (out.new.items ≡ out.old.items ++ spec.attribute name.now n) }
{
    push(out, " ")?;
    push(out, name)?;
    push(out, "='")?;
    push_number(alloc, out, n)?;
    push(out, "'")
}

// The class of a style.
fn class_of(style: Style) -> &'static str
    ensures { result.now ≡ spec.class_of style }
{
    match style {
        Style::Lane => "lane",
        Style::Bar => "bar",
        Style::Axis => "axis",
        Style::Stands => "stands",
        Style::Makes => "makes",
        Style::Told => "told",
        Style::Clash => "clash",
        Style::Fails => "fails",
        Style::Gives => "gives",
        Style::Hands => "hands",
        Style::Found => "found",
        Style::Chained => "chained",
        Style::Commit => "commit",
        Style::Opening => "opening",
        Style::Refusal => "refusal",
        Style::Heading => "heading",
        Style::Shared => "shared",
        Style::Local => "local",
        Style::Refused => "refused",
        Style::Place => "place",
        Style::Number => "number",
        Style::Beside => "beside",
        Style::Meaning => "meaning",
    }
}
