//! What is said of a module for people: its statements that are refused, or read and ignored, and its faults, each by line and column.
//!
//! | module | what it has |
//! |---|---|
//! | `places` | `Place`, `place_of`: the line and the column of a byte |
//! | `notes` | `Note`: what is said of a statement |
//! | `lines` | `push_modules`: the lines of a device's modules; `push_fault`: that of a fault |
//! | `named` | `named_in`: the place that the text of a fault of modules names |
//! | `examples` | computed: places, named places, lines of modules |
//! | `laws` | the number of a line |
//!
//! Texts are read by `sal_stmt`; `sal_module` has the profile. `specs/Lines` defines the lines, `specs/Notes` which statements have one.
//!
//! ```
//! push_modules(alloc, &mut out, 0, &["module m {\n  namespace a; prefix m;\n  leaf x { type string; must '1'; }\n}\n"])?;
//! // device 0 module 0 line 3 column 25: ignored: must '1'; }
//! ```
//!
//! Cost: linear in the texts: places are counted from one statement to the next. Recursion is at most 65 calls deep.
#![tactic(auto)]

pub mod examples;
pub mod laws;
pub mod lines;
pub mod named;
pub mod notes;
pub mod places;

pub use lines::{ModuleText, push_fault, push_modules};
pub use named::{Named, named_in};
pub use places::Place;
