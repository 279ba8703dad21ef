//! A scene of rows as a picture: shapes, and their text (SVG).
//!
//! | item | what it is |
//! |---|---|
//! | `Row`, `Scene`, `Act`, `Pin` | a row with its texts, the pins that it sets and its lines; the lanes, the domains and the rows |
//! | `label_of` | the label of a row |
//! | `picture_of`, `Picture`, `Shape`, `Style` | the shapes of a scene: areas, lines, points and texts, in pixels |
//! | `svg_of` | the text of a picture |
//! | `scene_text` | both: from a scene to its text |
//!
//! Time goes down. Each client has a lane, with a row for each of its steps; each domain has a column, with a point for each commit. `specs/Shapes`
//! defines the positions, and `specs/Svg` the text. Each function returns exactly what these definitions give.
//!
//! ```
//! let picture = picture_of(alloc, scene)?;
//! let text = svg_of(alloc, &picture)?;
//! ```
//!
//! Cost: one look-up in a map for each pin and line, so n log n in the acts; fifteen looks at each shape for the legend; otherwise linear in the rows,
//! in the domains for each line to one, and in the text. A hostile text cannot end its element: `specs/Svg` escapes markup and control characters.
#![tactic(auto)]

pub mod drawing;
pub mod examples;
pub mod frame;
mod labels;
pub mod legend;
mod marks;
mod pieces;
pub mod scene;
pub mod svg;
mod texts;

pub use drawing::picture_of;
pub use labels::label_of;
pub use scene::{Act, Made, Picture, Pin, Row, Scene, Shape, Size, Spot, Style};
pub use svg::svg_of;
pub use texts::scene_text;
