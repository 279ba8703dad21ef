//! The picture row by row: the spot of each pin, the lines, and the shapes above them.
ghost use Rattle.std.specs.Prelude.{◌≡◌, ◌<◌, ◌≤◌, ◌+◌, ◌++◌, ◌∷◌, ◌^◌, [], true, false, IfOk, OnOk, length, map, if◌then◌else◌};
ghost use Rattle.std.specs.List.{flat_map, fold, enumerate_from};
ghost use Rattle.sal_shapes.specs.Shapes as spec;

use crate::frame::{Frame, Here, TOP, frame_of, lane_x, row_y};
use crate::legend::{straight, with_legend};
use crate::marks::{domain_heading, lane_heading, number_words, place_words, row_label};
use crate::scene::{Act, Picture, Pin, Row, Scene, Shape, Size, Spot, Style};
use sal_types::{NoMemory, Seq, Str, append};
use std::alloc::Global;
use std::collections::BTreeMap;
use std::marker::Model;

/// The width of the legend, in pixels.
const LEGEND_WIDTH: u64 = 470;

/// The picture so far. A contract sees it as its definition.
#[derive(Drop)]
pub(crate) struct Drawing {
    frame: Frame,
    pins: BTreeMap<Pin, Spot>,
    lines: Vec<Shape>,
    marks: Vec<Shape>,
    rows: u64,
}

impl Model for Drawing {
    ghost use Rattle.sal_shapes.specs.Shapes.{Drawn, Fits};

    ghost Value = { Drawn };

    ghost view = { λ d. record { frame = d.frame; pins = d.pins.entries; lines = d.lines.items; marks = d.marks.items; rows = d.rows } };

    ghost invariant = { λ d. Fits d.frame };
}

impl Drawing {
    // The frame, with domain 0 at its opening.
    fn new(alloc: Global, frame: Frame) -> Result<Drawing, NoMemory>
        requires { spec.Fits frame }
        ensures { IfOk result (λ d. d ≡ spec.opening frame) }
    {
        let x = frame.column_x(0);
        let mut drawing = Drawing {
            frame,
            pins: BTreeMap::new(alloc),
            lines: Vec::new(alloc),
            marks: Vec::new(alloc),
            rows: 0,
        };
        let opening = Pin::Commit {
            domain: 0,
            number: 0,
        };
        drawing.set(alloc, true, opening, Spot { x, y: TOP })?;
        Ok(drawing)
    }

    // The spot of the pin.
    fn found(&self, pin: Pin) -> Option<Spot>
        ensures { result ≡ spec.found pin self.now.pins }
    {
        self.pins.get(&pin).copied()
    }

    // Sets the spot of the pin.
    fn set(&mut self, alloc: Global, shown: bool, pin: Pin, spot: Spot) -> Result<(), NoMemory>
        requires x { spot.x ≤ 2 ^ 43 }
        requires y { spot.y ≤ 2 ^ 42 }
        ensures { OnOk result (self.new ≡ spec.set_pin shown pin spot self.old) }
    {
        self.pins.insert(pin, spot)?;
        if shown {
            return self.mark(alloc, pin, spot);
        }
        Ok(())
    }

    // Draws the mark of a pin.
    fn mark(&mut self, alloc: Global, pin: Pin, spot: Spot) -> Result<(), NoMemory>
        requires x { spot.x ≤ 2 ^ 43 }
        requires y { spot.y ≤ 2 ^ 42 }
        ensures { OnOk result (self.new ≡ record self.old { marks = self.old.marks ++ spec.pin_marks self.old.pins pin spot }) }
    {
        match pin {
            Pin::Commit { domain, number } if number > 0 => {
                self.point(Style::Commit, spot)?;
                let before = self.beside(domain, number, spot);
                append(&mut self.marks, number_words(alloc, spot, before, number)?)
            }
            Pin::Commit { .. } | Pin::Gone { .. } => self.point(Style::Opening, spot),
            _ => Ok(()),
        }
    }

    // Whether the spot is that of the domain's commit with this number.
    fn stands_at(&self, domain: u32, number: u64, spot: Spot) -> bool
        ensures { result ≡ spec.stands_at self.now.pins domain number spot }
    {
        match self.found(Pin::Commit { domain, number }) {
            Some(other) => spot.x == other.x && spot.y == other.y,
            None => false,
        }
    }

    // The position of a commit's number beside those of the commits at its spot; 2 means two dots.
    fn beside(&self, domain: u32, number: u64, spot: Spot) -> u64
        ensures { result ≡ spec.beside self.now.pins domain number spot }
    {
        if !self.stands_at(domain, number.saturating_sub(1), spot) {
            return 0;
        }
        if number > 999 || self.stands_at(domain, number.saturating_sub(2), spot) {
            2
        } else {
            1
        }
    }

    fn point(&mut self, style: Style, at: Spot) -> Result<(), NoMemory>
        ensures { OnOk result (self.new ≡ record self.old { marks = self.old.marks ++ Shape.Point style at ∷ [] }) }
    {
        append(&mut self.marks, Shape::Point { style, at })
    }

    // A line from the spot of the pin, if it has one.
    fn join(&mut self, here: Here, style: Style, pin: Pin) -> Result<(), NoMemory>
        requires { spec.IsNear here }
        ensures { OnOk result (self.new ≡ spec.act here self.old (Act.Joins style pin)) }
    {
        if !here.shown {
            return Ok(());
        }
        match self.found(pin) {
            None => Ok(()),
            Some(from) => append(&mut self.lines, self.frame.line_of(here, style, pin, from)),
        }
    }

    // A bar from the begin of the transaction.
    fn span(&mut self, here: Here, place: u64) -> Result<(), NoMemory>
        requires { spec.IsNear here }
        ensures { OnOk result (self.new ≡ spec.act here self.old (Act.Spans place)) }
    {
        if !here.shown {
            return Ok(());
        }
        match self.found(Pin::Entry { place }) {
            None => Ok(()),
            Some(from) => append(&mut self.marks, bar(here, place, from)),
        }
    }

    fn act(&mut self, alloc: Global, here: Here, act: Act) -> Result<(), NoMemory>
        requires { spec.IsNear here }
        ensures { OnOk result (self.new ≡ spec.act here self.old act) }
    {
        match act {
            Act::Sets { pin } => {
                let spot = self.frame.spot_of(here, pin);
                self.set(alloc, here.shown, pin, spot)
            }
            Act::Joins { style, pin } => self.join(here, style, pin),
            Act::Spans { place } => self.span(here, place),
        }
    }

    fn acts(&mut self, alloc: Global, here: Here, acts: &[Act]) -> Result<(), NoMemory>
        requires { spec.IsNear here }
        ensures { OnOk result (self.new ≡ spec.acts here acts.now self.old) }
    {
        for act in acts {
            self.act(alloc, here, *act)?;
        }
        Ok(())
    }

    // The position of the row.
    fn here_of(&self, row: &Row) -> Here
        requires { self.now.rows < 2 ^ 32 }
        ensures here { result ≡ spec.here_of row.now self.now }
        ensures near { spec.IsNear result }
    {
        Here {
            x: lane_x(self.frame.width, row.lane),
            y: if row.hidden { TOP } else { row_y(self.rows) },
            shown: !row.hidden,
        }
    }

    // The texts of a row.
    fn words(&mut self, alloc: Global, here: Here, row: &Row) -> Result<(), NoMemory>
        requires near { spec.IsNear here }
        requires few { self.old.rows < 2 ^ 32 }
        ensures { OnOk result (self.new ≡ spec.with_words here row.now self.old) }
    {
        if !here.shown {
            return Ok(());
        }
        if let Some(place) = row.place {
            append(&mut self.marks, place_words(alloc, here.y, place)?)?;
        }
        if let Style::Refused = row.style {
            let at = Spot {
                x: here.x + 19,
                y: here.y,
            };
            self.point(Style::Refusal, at)?;
        }
        append(
            &mut self.marks,
            row_label(alloc, here, self.frame.room, row)?,
        )?;
        self.rows += 1;
        Ok(())
    }

    fn row(&mut self, alloc: Global, row: &Row) -> Result<(), NoMemory>
        requires { self.old.rows < 2 ^ 32 }
        ensures row { OnOk result (self.new ≡ spec.draw_row self.old row.now) }
    {
        let here = self.here_of(row);
        self.words(alloc, here, row)?;
        self.acts(alloc, here, row.acts.items())
    }

    fn rows(&mut self, alloc: Global, rows: &[Row]) -> Result<(), NoMemory>
        requires { self.old.rows + length rows.now < 2 ^ 32 }
        ensures drawn { OnOk result (self.new ≡ fold spec.draw_row self.old rows.now) }
        ensures few { OnOk result (self.new.rows ≤ self.old.rows + length rows.now) }
    {
        for row in rows {
            self.row(alloc, row)?;
        }
        Ok(())
    }

    // The shapes of the clients' lanes.
    fn lanes(&self, alloc: Global, out: &mut Vec<Shape>, names: &[Str]) -> Result<(), NoMemory>
        requires rows { self.now.rows < 2 ^ 32 }
        requires few { length names.now < 2 ^ 32 }
        ensures { OnOk result (out.new.items ≡ out.old.items ++ flat_map (spec.lane_shapes self.now.frame.width (spec.row_y self.now.rows)) (enumerate_from 0 names.now)) }
    {
        for (lane, name) in names.iter().enumerate() {
            self.lane(alloc, out, lane as u32, name)?;
        }
        Ok(())
    }

    fn lane(
        &self,
        alloc: Global,
        out: &mut Vec<Shape>,
        lane: u32,
        name: &Str,
    ) -> Result<(), NoMemory>
        requires { self.now.rows < 2 ^ 32 }
        ensures { OnOk result (out.new.items ≡ out.old.items ++ spec.lane_shapes self.now.frame.width (spec.row_y self.now.rows) (lane, name.now)) }
    {
        let x = lane_x(self.frame.width, lane);
        let size = Size {
            width: self.frame.width.saturating_sub(8),
            height: row_y(self.rows).saturating_sub(8),
        };
        append(out, lane_area(x, size))?;
        append(out, lane_heading(alloc, x, name)?)
    }

    // The height of the pin's spot, or else the other height.
    fn height_of(&self, pin: Pin, other: u64) -> u64
        ensures { result ≡ spec.height_of (spec.found pin self.now.pins) other }
    {
        match self.found(pin) {
            Some(spot) => spot.y,
            None => other,
        }
    }

    // The line of a domain.
    fn axis(&self, domain: u32) -> Shape
        requires { self.now.rows < 2 ^ 32 }
        ensures { result ≡ spec.axis self.now domain }
    {
        let x = self.frame.column_x(domain);
        let opening = Pin::Commit { domain, number: 0 };
        let from = self.height_of(opening, TOP);
        let to = self.height_of(Pin::Gone { domain }, row_y(self.rows));
        straight(Style::Axis, Spot { x, y: from }, Spot { x, y: to })
    }

    // The shapes of the domains' lanes.
    fn columns(&self, alloc: Global, out: &mut Vec<Shape>) -> Result<(), NoMemory>
        requires { self.now.rows < 2 ^ 32 }
        ensures { OnOk result (out.new.items ≡ out.old.items ++ flat_map (spec.domain_shapes self.now) self.now.frame.domains) }
    {
        for domain in self.frame.domains.items() {
            append(out, self.axis(*domain))?;
            append(
                out,
                domain_heading(alloc, self.frame.column_x(*domain), *domain)?,
            )?;
        }
        Ok(())
    }

    // The whole picture.
    fn picture(self, alloc: Global, names: &[Str]) -> Result<Picture, NoMemory>
        requires rows { self.rows < 2 ^ 32 }
        requires few { length names.now < 2 ^ 32 }
        ensures { IfOk result (λ picture. picture ≡ spec.picture_with names.now self) }
    {
        let mut shapes = Vec::new(alloc);
        self.lanes(alloc, &mut shapes, names)?;
        self.columns(alloc, &mut shapes)?;
        let size = self.size();
        let Drawing {
            mut lines,
            mut marks,
            ..
        } = self;
        shapes.append(&mut lines)?;
        shapes.append(&mut marks)?;
        with_legend(alloc, size, shapes)
    }

    // The size without the legend.
    fn size(&self) -> Size
        requires { self.now.rows < 2 ^ 32 }
        ensures size { result ≡ spec.size_of self.now }
        ensures high { result.height ≤ 2 ^ 42 }
    {
        let width = self.frame.side + 40 + 70 * (self.frame.domains.items().len() as u64);
        Size {
            width: u64::max(LEGEND_WIDTH, width),
            height: row_y(self.rows),
        }
    }
}

// The bar of a transaction that began at this index and ends here.
fn bar(here: Here, place: u64, from: Spot) -> Shape
    requires { spec.IsNear here }
    ensures { result ≡ spec.bar here place from }
{
    Shape::Area {
        style: Style::Bar,
        at: Spot {
            x: here.x + 2 + 5 * (place % 3),
            y: from.y,
        },
        size: Size {
            width: 4,
            height: (here.y + 5).saturating_sub(from.y),
        },
    }
}

fn lane_area(x: u64, size: Size) -> Shape
    ensures { result ≡ Shape.Area Style.Lane (spec.spot x 8) size }
{
    Shape::Area {
        style: Style::Lane,
        at: Spot { x, y: 8 },
        size,
    }
}

/// The picture of a scene, of fewer than 2^32 lanes, domains and rows. It fails only if memory runs out.
pub fn picture_of(alloc: Global, scene: Scene) -> Result<Picture, NoMemory>
    requires lanes { length scene.lanes < 2 ^ 32 }
    requires domains { length scene.domains < 2 ^ 32 }
    requires rows { length scene.rows < 2 ^ 32 }
    ensures { IfOk result (λ picture. picture ≡ spec.picture_of scene) }
{
    let Scene {
        lanes,
        domains,
        rows,
    } = scene;
    let frame = frame_of(lanes.items().len() as u32, rows.items(), domains);
    let mut drawing = Drawing::new(alloc, frame)?;
    drawing.rows(alloc, rows.items())?;
    drawing.picture(alloc, lanes.items())
}
